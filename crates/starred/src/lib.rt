// Stars and primes by lines, as the quick solver keeps them, and what it writes: first prices, working values, marks. Only its crates call what is here, so a function may have a `requires`.
#![tactic(auto)]

pub mod stars;
pub mod values;
