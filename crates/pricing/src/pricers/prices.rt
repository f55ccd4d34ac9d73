// The errors and the prices of the pricers.
ghost use Rattle.std.specs.Prelude.{◌≡◌, min};
ghost use Rattle.counting.specs.Meaning.{ledger_of};
ghost use Rattle.pricing.specs.Errors.{SameErrors};
ghost use Rattle.pricing.specs.Kinds.{total_ops};
ghost use Rattle.pricing.specs.Measures.{squared};
ghost use Rattle.pricing.specs.Prices.{Priced};
ghost use Rattle.pricing.specs.ErrorLaws.{squared_fair};

use super::centroid_pricer::CentroidPricer;
use super::level_range::LevelRange;
use super::trial_pricer::TrialPricer;
use crate::measure::Measure;
use crate::pricer::Pricer;
use crate::tallies::Total;
use crate::tally::Tally;
use counting::Histogram;

impl<M: Measure, T: Tally> Measure for TrialPricer<M, T> {
    ghost error = { λ p. M.Measure.error p.measure };

    ghost fair = { λ p. M.Measure.fair p.measure };

    fn error(&mut self, k: u16, r: u16) -> u32
        ensures value { result ≡ M.error self.old.measure (min k 1023) (min r 1023) }
        ensures same { SameErrors (M.error self.new.measure) (M.error self.old.measure) }
    {
        self.measure.error(k, r)
    }
}

impl<M: Measure, T: Tally> Pricer for TrialPricer<M, T> {
    type Kind = T;

    fn price(&mut self, histogram: &Histogram, a: u16, b: u16) -> Option<(u16, T)>
        ensures answer { Priced T.ops (M.error self.old.measure) (ledger_of histogram.now) a b result }
        ensures same { SameErrors (M.error self.new.measure) (M.error self.old.measure) }
    {
        LevelRange::of(histogram, a, b)?.trial(&mut self.measure)
    }
}

impl Measure for CentroidPricer {
    ghost error = { λ _. squared };

    ghost fair = { λ m. squared_fair };

    fn error(&mut self, k: u16, r: u16) -> u32
        ensures value { result ≡ squared (min k 1023) (min r 1023) }
        ensures same { SameErrors squared squared }
        ensures kept { self.new ≡ self.old }
    {
        self.measure.error(k, r)
    }
}

impl Pricer for CentroidPricer {
    type Kind = Total;

    fn price(&mut self, histogram: &Histogram, a: u16, b: u16) -> Option<(u16, Total)>
        ensures answer { Priced total_ops squared (ledger_of histogram.now) a b result }
        ensures same { SameErrors squared squared }
        ensures kept { self.new ≡ self.old }
    {
        LevelRange::of(histogram, a, b)?.centroid()
    }
}
