// Pricing by the mean, for squared errors and their sum.
ghost use Rattle.counting.specs.Meaning.{ledger_of};
ghost use Rattle.pricing.specs.Kinds.{total_ops};
ghost use Rattle.pricing.specs.Measures.{squared};
ghost use Rattle.pricing.specs.Prices.{Priced};

use super::level_range::LevelRange;
use crate::tallies::Total;

impl LevelRange<'_> {
    // The representative and the price of the levels: the level nearest to the mean, the half taken upwards,
    // has the least sum of squared errors.
    pub(super) fn centroid(&self) -> Option<(u16, Total)>
        ensures { Priced total_ops squared (ledger_of self.now.histogram.now) self.now.first self.now.last result }
    {
        let sums = self.sums();
        let r = sums.nearest()?;
        let sum = sums.squared_errors(r);
        Some((r, Total { sum }))
    }
}
