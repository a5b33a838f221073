// The pairing of a price list, put into a text, and the sums of prices in it.
#![tactic(auto)]

mod list;
mod numbers;

pub use list::{put_head, put_pairing};
pub use numbers::sum;
