// A search for the best division of the counted levels of a histogram.
// Each contract of this crate with a lent pricer says `SameErrors`: it is a fact about the call, and no type can hold it.
ghost use Rattle.std.specs.Prelude.{◌≡◌, ℕ, ◌+◌, ◌<◌, ◌≤◌};
ghost use Rattle.counting.specs.Ledger.{counted_levels};
ghost use Rattle.counting.specs.Meaning.{ledger_of};
ghost use Rattle.divisions.specs.Divisions.{levels_of, level_at};
ghost use Rattle.divisions.specs.Recurrence.{least_tally};

mod least;
mod run;
mod trace;

use crate::work::Cells;
use arrayvec::ArrayVec;
use counting::Histogram;
use pricing::Tally;

// The counted levels, in rising order, and the number of runs that they are cut into.
#[derive(Drop)]
pub(crate) struct Search<'a> {
    histogram: &'a Histogram,
    levels: ArrayVec<u16, 1024>,
    bins: usize,
    ghost listed: { levels.items ≡ levels_of (ledger_of histogram.now) },
    ghost some: { 1 ≤ bins },
    ghost few: { bins ≤ counted_levels (ledger_of histogram.now) },
    ghost small: { bins ≤ 256 },
}

// The counted levels of a histogram, in rising order.
fn listed(histogram: &Histogram) -> ArrayVec<u16, 1024>
    ensures { result.items ≡ levels_of (ledger_of histogram.now) }
{
    let mut levels = ArrayVec::new();
    for (level, pixels) in (0..histogram.levels()).zip(histogram.pixels()) {
        if *pixels > 0 {
            levels.push(level);
        }
    }
    levels
}

impl<'a> Search<'a> {
    ghost use Rattle.drawing.specs.Filling.{ledger, counted, HasRoom, SearchedTo};

    pub(crate) fn of(histogram: &'a Histogram, bins: u16) -> Search<'a>
        requires { (1 ≤ bins) × (bins ≤ 256) × (bins ≤ counted_levels (ledger_of histogram.now)) }
        ensures histogram { result.histogram.now ≡ histogram.now }
        ensures bins { result.bins ≡ bins }
    {
        Search {
            histogram,
            levels: listed(histogram),
            bins: usize::from(bins),
        }
    }

    // How many counted levels there are.
    fn counted(&self) -> usize
        ensures is { result ≡ counted self.now }
        ensures few { result ≤ 1024 }
    {
        self.levels.len()
    }

    // The counted level at a place; the lowest has place 0.
    fn level_at(&self, place: usize) -> u16
        requires { place < counted self.now }
        ensures { result ≡ level_at (ledger self.now) place }
    {
        self.levels[place]
    }

    // The least tally of all counted levels: it stands in the last cell.
    pub(crate) fn tally<T: Tally>(&self, cells: &Cells<'_, T>) -> T
        requires { HasRoom self.now cells.now }
        ensures { (cost : ℕ → ℕ → T) → SearchedTo T.Tally.ops cost self.now (counted self.now + 1) (counted self.now + 1) cells.now → result ≡ least_tally T.Tally.ops cost self.now.bins (counted self.now) }
    {
        cells.tallies[self.counted() * self.bins - 1]
    }
}
