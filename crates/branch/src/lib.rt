// What the branch program prints: the level table of the pixels that its input lists, or why there is none.
#![tactic(auto)]

mod input;
mod lines;
mod reports;

pub use reports::report;
