// Pricing by trying each representative, for any measure and any tally. `same` stands in each contract: what a call leaves of a
// measure that it is lent is a fact about the call.
ghost use Rattle.std.specs.Prelude.{◌≡◌, ◌<◌, ◌≤◌, if◌then◌else◌};
ghost use Rattle.counting.specs.Meaning.{ledger_of};
ghost use Rattle.pricing.specs.Errors.{SameErrors};
ghost use Rattle.pricing.specs.Prices.{range_tally, Priced};
ghost use Rattle.pricing.specs.Spans.{LowestAt};

use super::level_range::LevelRange;
use crate::measure::Measure;
use crate::tally::Tally;

// The better of two levels, each with the tally of showing a range as it. Of equal tallies the later wins.
fn better<T: Tally>(best: (u16, T), next: (u16, T)) -> (u16, T)
    ensures { result ≡ (if T.ops.not_above next.1 best.1 then next else best) }
{
    if next.1.not_above(best.1) { next } else { best }
}

impl LevelRange<'_> {
    // The representative and the price of the levels.
    pub(super) fn trial<M: Measure, T: Tally>(&self, measure: &mut M) -> Option<(u16, T)>
        ensures answer { Priced T.ops (M.error measure.old) (ledger_of self.now.histogram.now) self.now.first self.now.last result }
        ensures same { SameErrors (M.error measure.new) (M.error measure.old) }
    {
        let low = self.lowest_counted()?;
        let high = self.highest_counted()?;
        Some(self.lowest(measure, low, high))
    }

    // The tally of showing the levels as `r`.
    fn tally<M: Measure, T: Tally>(&self, measure: &mut M, r: u16) -> T
        requires { r < 1024 }
        ensures tally { result ≡ range_tally T.ops (M.error measure.old) (ledger_of self.now.histogram.now) self.now.first self.now.last r }
        ensures same { SameErrors (M.error measure.new) (M.error measure.old) }
    {
        let mut tally = T::neutral();
        for (place, pixels) in self.pixels().iter().enumerate() {
            if *pixels > 0 {
                // The cast loses nothing, which is proved: there are at most 1,024 levels. A `zip` with the levels
                // needs no cast, and takes half as long again.
                let level = self.first + place as u16;
                tally = T::charge(*pixels, measure.error(level, r)).join(tally);
            }
        }
        tally
    }

    // The highest level from `low` to `high` that has the lowest tally, and that tally.
    fn lowest<M: Measure, T: Tally>(&self, measure: &mut M, low: u16, high: u16) -> (u16, T)
        requires { (low ≤ high) × (high < 1024) }
        ensures lowest { LowestAt T.ops (range_tally T.ops (M.error measure.old) (ledger_of self.now.histogram.now) self.now.first self.now.last) low high result.0 }
        ensures tally { result.1 ≡ range_tally T.ops (M.error measure.old) (ledger_of self.now.histogram.now) self.now.first self.now.last result.0 }
        ensures same { SameErrors (M.error measure.new) (M.error measure.old) }
    {
        let mut best = (low, self.tally(measure, low));
        // Over levels, which are in no list: one that is not counted may be the best too.
        for r in low + 1..=high {
            let tally = self.tally(measure, r);
            best = better(best, (r, tally));
        }
        best
    }
}
