// Why there is no pairing, put into a text.
#![tactic(auto)]

mod block;
mod events;
mod numbers;

pub use block::{put_block, put_head};
