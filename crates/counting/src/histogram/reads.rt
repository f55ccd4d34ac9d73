// A fresh histogram, and what can be read off one.
// The casts lose nothing, which is proved: there are at most 1,024 levels. (A search over the levels themselves would need no cast,
// but a proof about each call of `pixels_at`.)
ghost use Rattle.std.specs.Prelude.{◌≡◌, ◌≤◌};
ghost use Rattle.counting.specs.Ledger.{blank, fresh_ledger, total_of, pixels_at, counted_levels};
ghost use Rattle.counting.specs.Extremes.{Darkest, Palest};
ghost use Rattle.counting.specs.Meaning.{ledger_of};

use super::Histogram;

impl Histogram {
    // No pixels at any level.
    pub(super) fn blank(levels: u16) -> Histogram
        requires { (2 ≤ levels) × (levels ≤ 1024) }
        ensures { ledger_of result ≡ blank levels }
    {
        Histogram {
            pixels: [0; 1024],
            total: 0,
            levels,
        }
    }

    // Two levels and no pixels.
    pub fn fresh() -> Histogram
        ensures { ledger_of result ≡ fresh_ledger }
    {
        Histogram::blank(2)
    }

    pub fn levels(&self) -> u16
        ensures { result ≡ (ledger_of self.now).levels }
    {
        self.levels
    }

    pub fn total(&self) -> u32
        ensures { result ≡ total_of (ledger_of self.now) }
    {
        self.total
    }

    // A number that is not a level has no pixels.
    pub fn pixels_at(&self, level: u16) -> u32
        ensures { result ≡ pixels_at (ledger_of self.now) level }
    {
        self.pixels().get(usize::from(level)).copied().unwrap_or(0)
    }

    // The pixels at each level, from level 0 up.
    pub fn pixels(&self) -> &[u32]
        ensures { result.now ≡ (ledger_of self.now).at }
    {
        &self.pixels[..usize::from(self.levels)]
    }

    // How many levels have pixels.
    pub fn counted_levels(&self) -> u16
        ensures { result ≡ counted_levels (ledger_of self.now) }
    {
        // A sum has no branch, so the compiler takes many levels at a time; a `filter` with a `count` has one.
        self.pixels()
            .iter()
            .map(|pixels| u16::from(*pixels > 0))
            .sum()
    }

    // The lowest level that has pixels.
    pub fn darkest(&self) -> Option<u16>
        ensures { Darkest (ledger_of self.now) result }
    {
        self.pixels()
            .iter()
            .position(|pixels| *pixels > 0)
            .map(|level| level as u16)
    }

    // The highest level that has pixels.
    pub fn palest(&self) -> Option<u16>
        ensures { Palest (ledger_of self.now) result }
    {
        self.pixels()
            .iter()
            .rposition(|pixels| *pixels > 0)
            .map(|level| level as u16)
    }
}
