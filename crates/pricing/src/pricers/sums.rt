// What the pixels of a range of levels add up to.
ghost use Rattle.std.specs.Prelude.{◌≡◌, ℕ, suc, ◌+◌, ◌-◌, ◌*◌, ◌/◌, ◌<◌, ◌≤◌, MatchOption};
ghost use Rattle.counting.specs.Meaning.{ledger_of};
ghost use Rattle.pricing.specs.Plain.{Added, Small};

use super::level_range::LevelRange;

// The pixels, the sum of their levels, and the sum of the squares of their levels, for levels of a histogram: so they
// are small, and showing the pixels as any level has a sum of squared errors that is not below zero.
#[derive(Clone, Copy)]
pub(super) struct Sums {
    pixels: u64,
    levels: u64,
    squares: u64,
    ghost small: { Small pixels levels squares },
    ghost apart: { (r : ℕ) → 2 * (r * levels) ≤ squares + pixels * (r * r) },
}

impl LevelRange<'_> {
    // The sums over the range, in one pass.
    pub(super) fn sums(&self) -> Sums
        ensures { Added (ledger_of self.now.histogram.now) self.now.first (suc self.now.last - self.now.first) result.pixels result.levels result.squares }
    {
        let mut pixels = 0;
        let mut levels = 0;
        let mut squares = 0;
        for (place, count) in self.pixels().iter().enumerate() {
            let count = u64::from(*count);
            // The cast loses nothing, which is proved: there are at most 1,024 levels. A `zip` with the levels needs
            // no cast, and takes a sixth longer.
            let level = u32::from(self.first) + place as u32;
            pixels += count;
            levels += count * u64::from(level);
            squares += count * u64::from(level * level);
        }
        Sums {
            pixels,
            levels,
            squares,
        }
    }
}

impl Sums {
    // The level nearest to the mean, the half taken upwards; no pixels have none.
    pub(super) fn nearest(self) -> Option<u16>
        ensures { MatchOption result (self.pixels ≡ 0) (λ r. (0 < self.pixels) × (r < 1024) × (r ≡ (2 * self.levels + self.pixels) / (2 * self.pixels))) }
    {
        if self.pixels == 0 {
            return None;
        }
        let level = (2 * self.levels + self.pixels) / (2 * self.pixels);
        // The cast loses nothing, which is proved: the level is below 1,024.
        Some(level as u16)
    }

    // The sum of the squared errors of showing each pixel as `r`.
    pub(super) fn squared_errors(self, r: u16) -> u64
        requires { r < 1024 }
        ensures { result + 2 * (r * self.levels) ≡ self.squares + self.pixels * (r * r) }
    {
        let r = u64::from(r);
        self.squares + self.pixels * (r * r) - 2 * (r * self.levels)
    }
}
