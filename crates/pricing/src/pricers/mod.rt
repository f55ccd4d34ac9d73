// The pricers: one tries each level, and one takes the mean, which serves squares and sums alone; they are no twins.
mod centroid;
mod centroid_pricer;
mod level_range;
mod prices;
mod sums;
mod trial;
mod trial_pricer;

pub use centroid_pricer::CentroidPricer;
pub use trial_pricer::TrialPricer;
