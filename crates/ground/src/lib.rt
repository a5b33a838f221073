// What both solvers stand on: sets of lines, the run, the matrix, the prices and what changes them, and the first mark of a row.
#![tactic(auto)]

pub mod marks;
pub mod matrix;
pub mod prices;
pub mod run;
pub mod sets;
