// The least tallies of the first counted levels in each number of runs, cell by cell.
// `HasRoom` and `Filled` stand in each contract anew: they tie a search to the lists, and neither of these types holds the other.
ghost use Rattle.std.specs.Prelude.{◌≡◌, ℕ, Bool, ◌+◌, ◌-◌, ◌*◌, ◌<◌, ◌≤◌, max, length};
ghost use Rattle.pricing.specs.Errors.{SameErrors};
ghost use Rattle.divisions.specs.Divisions.{price};
ghost use Rattle.drawing.specs.Cells.{Computes, Turned, Needed};
ghost use Rattle.drawing.specs.Filling.{ledger, counted, HasRoom, SearchedTo, Filled};

use super::Search;
use super::run::Run;
use crate::work::Cells;
use pricing::{Pricer, Tally};
use std::ops::Range;

impl Run<'_, '_> {
    // The bin numbers above 0 that a run can have.
    fn bin_numbers(&self) -> Range<usize>
        ensures bounds { (1 ≤ result.start) × (result.start ≤ result.end) × (result.end ≤ self.now.search.now.bins) × (result.end ≤ max result.start (self.now.start + 1)) }
        ensures needed { (m : ℕ) → 0 < m → Needed (counted self.now.search.now) self.now.search.now.bins m (self.now.end + 1) → (result.start ≤ m) × (m ≤ self.now.start → m < result.end) }
    {
        let spare = self.search.counted() - self.search.bins;
        let first = self.end.saturating_sub(spare).max(1);
        let limit = if self.end + 1 == self.search.counted() {
            self.search.bins
        } else {
            self.search.bins - 1
        };
        first..limit.min(self.start + 1).max(first)
    }

    // Puts a run after what the cells hold that end where it starts, at these bin numbers: into the cells of its own end, but for
    // those that keep the tally they have against the one that it gives.
    fn put_after<T: Tally, F: Fn(T, T) -> bool>(
        &self,
        cells: &mut Cells<'_, T>,
        numbers: Range<usize>,
        price: T,
        keeps: F,
    )
        requires later { 0 < self.now.start }
        requires numbers { (1 ≤ numbers.start) × (numbers.start ≤ numbers.end) × (numbers.end ≤ self.now.search.now.bins) }
        requires room { HasRoom self.now.search.now cells.old }
        requires callable { F.IsAlwaysCallable keeps }
        ensures { (keep : T → T → Bool) → Computes (F.post keeps) keep → Turned T.Tally.ops keep price self.now.start (self.now.end * self.now.search.now.bins + numbers.start) ((self.now.start - 1) * self.now.search.now.bins + (numbers.start - 1)) (numbers.end - numbers.start) cells.old.tallies.now cells.new.tallies.now cells.old.links.now cells.new.links.now }
    {
        // Under names of their own: a proof knows that a lent list keeps its length over a loop, but not that one in a field does.
        let tallies = &mut *cells.tallies;
        let links = &mut *cells.links;
        let row = self.end * self.search.bins + numbers.start;
        let before = (self.start - 1) * self.search.bins + (numbers.start - 1);
        // By index: a proof knows nothing of what was written through `iter_mut`.
        for k in 0..numbers.end - numbers.start {
            let joined = price.join(tallies[before + k]);
            if !keeps(tallies[row + k], joined) {
                tallies[row + k] = joined;
                // The cast loses nothing, which is proved: a start is the place of one of at most 1,024 levels.
                links[row + k] = self.start as u16;
            }
        }
    }

    // Puts a run into the cells of its end, at each bin number that it can have.
    fn put<T: Tally>(&self, cells: &mut Cells<'_, T>, price: T)
        requires { HasRoom self.now.search.now cells.old }
        ensures room { HasRoom self.now.search.now cells.new }
        ensures placed { (cost : ℕ → ℕ → T) → price ≡ cost self.now.start (self.now.end + 1 - self.now.start) → SearchedTo T.Tally.ops cost self.now.search.now (self.now.end + 1) (self.now.start + 1) cells.old → SearchedTo T.Tally.ops cost self.now.search.now (self.now.end + 1) self.now.start cells.new }
    {
        if self.start == 0 {
            cells.tallies[self.end * self.search.bins] = price;
            cells.links[self.end * self.search.bins] = 0;
            return;
        }
        let numbers = self.bin_numbers();
        if self.start == self.end {
            // the first run that ends here: whatever the cells held
            self.put_after(cells, numbers, price, |_, _| false);
        } else {
            // the cells hold what later starts gave: only what is lower replaces it
            self.put_after(cells, numbers, price, |had, given| { had.not_above(given) });
        }
    }
}

impl Search<'_> {
    // Fills the cells of one end: each run that ends there is priced once, the shortest first.
    fn fill_end<P: Pricer>(&self, pricer: &mut P, cells: &mut Cells<'_, P::Kind>, end: usize)
        requires end { end < counted self.now }
        requires room { HasRoom self.now cells.old }
        ensures after { (error : ℕ → ℕ → ℕ) → SameErrors (P.Measure.error pricer.old) error → SearchedTo P.Kind.Tally.ops (price P.Kind.Tally.ops error (ledger self.now)) self.now (end + 1) (end + 1) cells.old → SearchedTo P.Kind.Tally.ops (price P.Kind.Tally.ops error (ledger self.now)) self.now (end + 2) (end + 2) cells.new }
        ensures same { SameErrors (P.Measure.error pricer.new) (P.Measure.error pricer.old) }
    {
        let spare = self.counted() - self.bins;
        // The starts are places of counted levels: no list is gone over.
        for start in (end.saturating_sub(spare)..=end).rev() {
            let run = Run {
                search: self,
                start,
                end,
            };
            let (_, price) = run.price(pricer);
            run.put(cells, price);
        }
    }

    // Fills the cells of every end.
    pub(crate) fn fill<P: Pricer>(&self, pricer: &mut P, cells: &mut Cells<'_, P::Kind>)
        requires { HasRoom self.now cells.old }
        ensures filled { Filled P.Kind.Tally.ops (P.Measure.error pricer.old) self.now cells.new }
        ensures same { SameErrors (P.Measure.error pricer.new) (P.Measure.error pricer.old) }
    {
        // The ends are places of counted levels: no list is gone over.
        for end in 0..self.counted() {
            self.fill_end(pricer, cells, end);
        }
    }
}
