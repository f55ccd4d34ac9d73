// A run of the counted levels that a search divides, and its price.
ghost use Rattle.std.specs.Prelude.{◌≡◌, ◌+◌, ◌-◌, ◌<◌, ◌≤◌};
ghost use Rattle.pricing.specs.Errors.{SameErrors};
ghost use Rattle.divisions.specs.Divisions.{representative, price};
ghost use Rattle.drawing.specs.Filling.{ledger, counted};

use super::Search;
use pricing::Pricer;

// A run, by the places of its lowest and its highest counted level.
#[derive(Clone, Copy)]
pub(super) struct Run<'a, 'b> {
    pub(super) search: &'a Search<'b>,
    pub(super) start: usize,
    pub(super) end: usize,
    ghost order: { start ≤ end },
    ghost inside: { end < counted search.now },
}

impl Run<'_, '_> {
    // The representative and the price.
    pub(super) fn price<P: Pricer>(&self, pricer: &mut P) -> (u16, P::Kind)
        ensures representative { result.0 ≡ representative P.Kind.Tally.ops (P.Measure.error pricer.old) (ledger self.now.search.now) self.now.start (self.now.end + 1 - self.now.start) }
        ensures price { result.1 ≡ price P.Kind.Tally.ops (P.Measure.error pricer.old) (ledger self.now.search.now) self.now.start (self.now.end + 1 - self.now.start) }
        ensures same { SameErrors (P.Measure.error pricer.new) (P.Measure.error pricer.old) }
    {
        // A range is without a price if it is turned round, reaches past the levels or has no pixels: a run is none of these.
        pricer
            .price(
                self.search.histogram,
                self.search.level_at(self.start),
                self.search.level_at(self.end),
            )
            .unwrap()
    }
}
