// What the quick solver goes by: the keys of cells, and each row's cheapest open column. Only its crates call what is here, so a function may have a `requires`.
#![tactic(auto)]

pub mod keys;
pub mod opening;
