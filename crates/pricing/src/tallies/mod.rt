// The kinds of tally: a sum and a maximum under one trait with its laws, and no twins.
mod kinds;
mod total;
mod worst;

pub use total::Total;
pub use worst::Worst;
