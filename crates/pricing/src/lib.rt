// What it costs to show pixels in other greys: tallies, measures with their layers, and pricers.
#![tactic(auto)]

mod layers;
mod measure;
mod measures;
mod pricer;
mod pricers;
mod tallies;
mod tally;
mod theorems;

pub use layers::{Allowance, Ceiling, Weight, WeightList};
pub use measure::Measure;
pub use measures::{Distance, Squared};
pub use pricer::Pricer;
pub use pricers::{CentroidPricer, TrialPricer};
pub use tallies::{Total, Worst};
pub use tally::Tally;
pub use theorems::{both_prices, prices_are_one, totals_are_plain};
