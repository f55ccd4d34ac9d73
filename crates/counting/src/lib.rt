// Counting the pixels of a scan: the histogram and its calls.
#![tactic(auto)]

mod histogram;
mod run;

pub use histogram::{Histogram, first_no_level};
pub use refusals::Refusal;
pub use run::{Answer, Call, replay};
