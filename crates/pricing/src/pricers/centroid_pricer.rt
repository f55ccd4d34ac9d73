// The pricer that takes the mean.
ghost use Rattle.std.specs.Prelude.{◌≡◌};
ghost use Rattle.pricing.specs.Measures.{squared};

use crate::measure::Measure;
use crate::measures::Squared;

// Prices squared errors by their sum, and adds up each range once.
#[derive(Clone, Copy, Default, Debug)]
pub struct CentroidPricer {
    pub(super) measure: Squared,
}

impl CentroidPricer {
    pub fn new() -> CentroidPricer
        ensures { ⟦<CentroidPricer as Measure>⟧.error result ≡ squared }
    {
        CentroidPricer {
            measure: Squared::new(),
        }
    }
}
