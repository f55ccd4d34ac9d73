// Table files: a histogram and a level table as bytes, and back.
#![tactic(auto)]

mod body;
mod fault;
mod numbers;
mod reads;
mod trips;
mod writer;
mod writes;

pub use reads::read;
pub use trips::{edition, rewrite, round_trip};
pub use writes::{file_length, write};
