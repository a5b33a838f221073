// The case in words, put into a text: a line for each row and each event, and for each of them that fits none of the others.
#![tactic(auto)]

mod line;
mod table;
mod unfit;

pub use table::put_case;
pub use unfit::put_unfit;
