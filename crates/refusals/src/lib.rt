// The refusals of every call, one table for all crates.
#![tactic(auto)]

mod refusal;

pub use refusal::Refusal;
