// What it costs to show a range of grey levels as one level.
ghost use Rattle.counting.specs.Meaning.{ledger_of};
ghost use Rattle.pricing.specs.Errors.{SameErrors};
ghost use Rattle.pricing.specs.Prices.{Priced};

use crate::measure::Measure;
use crate::tally::Tally;
use counting::Histogram;

pub trait Pricer: Measure {
    type Kind: Tally;

    // The representative and the price of the levels from `a` to `b`, both included, against the pricer's
    // own error. Asking leaves its meaning. The range is two levels, since a caller may ask for one that has no price.
    fn price(&mut self, histogram: &Histogram, a: u16, b: u16) -> Option<(u16, Self::Kind)>
        ensures answer { Priced Self.Kind.Tally.ops (Self.error self.old) (ledger_of histogram.now) a b result }
        ensures same { SameErrors (Self.error self.new) (Self.error self.old) };
}
