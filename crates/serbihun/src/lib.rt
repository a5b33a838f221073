// The C face: the solvers' in `solve`, the case reader's in `case`, of a case read and solved in `pair`.
#![tactic(auto)]

mod case;
mod pair;
mod solve;
