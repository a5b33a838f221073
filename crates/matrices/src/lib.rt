// The matrices that the port walks over: working values and marks, the searches in uncovered lines, and step 5's path.
// Only munkres calls what is here, so a function may have a `requires`.
#![tactic(auto)]

pub mod coverage;
pub mod mark_matrix;
pub mod path;
pub mod weight_matrix;
