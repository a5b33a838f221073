// The single lines of the price list and of the block, and the words in them, put into a text.
#![tactic(auto)]

mod row;
mod solved;
mod words;

pub use row::{Prices, put_allowed, put_hut, put_pair, put_price, put_price_sum, put_sums};
pub use solved::Solved;
pub use words::{put_counted, put_size};
