// The layers: each holds a measure, changes its error and is a measure again. Each changes it otherwise, under one trait
// with its laws: they are no twins.
mod allowance;
mod ceiling;
mod errors;
mod weight;
mod weight_list;

pub use allowance::Allowance;
pub use ceiling::Ceiling;
pub use weight::Weight;
pub use weight_list::WeightList;
