// A range of levels of a histogram, and what can be read off it.
ghost use Rattle.std.specs.Prelude.{◌≡◌, suc, ◌+◌, ◌-◌, ◌<◌, ◌≤◌, ◌⊎◌, length, EachIndex, MatchOption, slice_index};
ghost use Rattle.counting.specs.Ledger.{pixels_at};
ghost use Rattle.counting.specs.Meaning.{ledger_of};
ghost use Rattle.pricing.specs.Spans.{NoneCounted, LowestCounted, HighestCounted};

use counting::Histogram;

// The levels from `first` to `last`, both included.
#[derive(Clone, Copy)]
pub(super) struct LevelRange<'a> {
    pub(super) histogram: &'a Histogram,
    pub(super) first: u16,
    pub(super) last: u16,
    ghost ordered: { first ≤ last },
    ghost within: { last < (ledger_of histogram.now).levels },
}

impl<'a> LevelRange<'a> {
    // The levels from `a` to `b`; none where they are turned round or reach past the levels of the histogram.
    pub(super) fn of(histogram: &'a Histogram, a: u16, b: u16) -> Option<LevelRange<'a>>
        ensures { MatchOption result ((b < a) ⊎ ((ledger_of histogram.now).levels ≤ b)) (λ range. (range.histogram.now ≡ histogram.now) × (range.first ≡ a) × (range.last ≡ b)) }
    {
        if a > b || b >= histogram.levels() {
            return None;
        }
        Some(LevelRange {
            histogram,
            first: a,
            last: b,
        })
    }

    // The pixels at each level, from the first level up.
    pub(super) fn pixels(&self) -> &[u32]
        ensures count { length result.now ≡ suc self.now.last - self.now.first }
        ensures each { EachIndex result.now (λ d. slice_index result.now d ≡ pixels_at (ledger_of self.now.histogram.now) (self.now.first + d)) }
    {
        &self.histogram.pixels()[usize::from(self.first)..=usize::from(self.last)]
    }

    // Both searches go level by level: over the slice they would find a place, to be cast and added to `first`.
    pub(super) fn lowest_counted(&self) -> Option<u16>
        ensures { MatchOption result (NoneCounted (ledger_of self.now.histogram.now) self.now.first self.now.last) (λ low. LowestCounted (ledger_of self.now.histogram.now) self.now.first self.now.last low) }
    {
        (self.first..=self.last).find(|level| self.histogram.pixels_at(*level) > 0)
    }

    pub(super) fn highest_counted(&self) -> Option<u16>
        ensures { MatchOption result (NoneCounted (ledger_of self.now.histogram.now) self.now.first self.now.last) (λ high. HighestCounted (ledger_of self.now.histogram.now) self.now.first self.now.last high) }
    {
        (self.first..=self.last)
            .rev()
            .find(|level| self.histogram.pixels_at(*level) > 0)
    }
}
