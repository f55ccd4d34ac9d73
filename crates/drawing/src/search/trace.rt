// The bins of the best division, read back from the links of the filled cells.
// `Filled` stands in both contracts: it ties the search, the cells and the pricer, and no one of their types holds the others.
ghost use Rattle.std.specs.Prelude.{◌≡◌, ◌+◌, ◌-◌, ◌*◌, ◌<◌, ◌≤◌};
ghost use Rattle.pricing.specs.Errors.{SameErrors};
ghost use Rattle.tables.specs.Meaning.{table_of};
ghost use Rattle.divisions.specs.Tables.{table_for};
ghost use Rattle.drawing.specs.Filling.{ledger, Filled, best_runs, best_bins};

use super::Search;
use super::run::Run;
use crate::work::Cells;
use arrayvec::ArrayVec;
use pricing::Pricer;
use tables::{Bin, LevelTable};

impl Search<'_> {
    // Each bin's bound, the highest counted level of its run, and its representative.
    fn trace<P: Pricer>(&self, pricer: &mut P, cells: &Cells<'_, P::Kind>) -> ArrayVec<Bin, 256>
        requires { Filled P.Kind.Tally.ops (P.Measure.error pricer.old) self.now cells.now }
        ensures bins { result.items ≡ best_bins P.Kind.Tally.ops (P.Measure.error pricer.old) self.now }
        ensures same { SameErrors (P.Measure.error pricer.new) (P.Measure.error pricer.old) }
    {
        let mut bins = ArrayVec::new();
        let mut end = self.counted();
        // By number, from the last bin: only a run's link says where the run before it ends, and so which cell is next.
        for bin in (0..self.bins).rev() {
            let start = usize::from(cells.links[(end - 1) * self.bins + bin]);
            let last = Run {
                search: self,
                start,
                end: end - 1,
            };
            let (representative, _) = last.price(pricer);
            bins.push(Bin {
                bound: self.level_at(last.end),
                representative,
            });
            end = start;
        }
        bins.reverse();
        bins
    }

    // The table of the best division, whose links the filled cells hold.
    pub(crate) fn table<P: Pricer>(&self, pricer: &mut P, cells: &Cells<'_, P::Kind>) -> LevelTable
        requires { Filled P.Kind.Tally.ops (P.Measure.error pricer.old) self.now cells.now }
        ensures table { table_of result ≡ table_for P.Kind.Tally.ops (P.Measure.error pricer.old) (ledger self.now) (best_runs P.Kind.Tally.ops (P.Measure.error pricer.old) self.now) }
        ensures same { SameErrors (P.Measure.error pricer.new) (P.Measure.error pricer.old) }
    {
        let levels = self.histogram.levels();
        let mut bins = self.trace(pricer, cells);
        // The last bin reaches to the highest level, so that a paler pixel than any counted one has a bin too.
        bins[self.bins - 1].bound = levels - 1;
        // The bounds rise to the highest level and the representatives are levels, so the rules of a table hold.
        LevelTable::of_bins(levels, &bins).unwrap()
    }
}
