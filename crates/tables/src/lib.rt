// The level table, and the rows that it turns into bin indices and back.
#![tactic(auto)]

mod table;

pub use table::{Bin, LevelTable};
