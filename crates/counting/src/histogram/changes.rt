// The calls that change a histogram: opening, counting, withdrawing and clearing.
ghost use Rattle.std.specs.Prelude.{◌≡◌, ℕ, ◌+◌, ◌-◌, ◌<◌, ◌≤◌, min, true, length, IfNone, sum, MatchOption, slice_index};
ghost use Rattle.std.specs.Option.{SomeIff};
ghost use Rattle.counting.specs.Ledger.{step, opened, counted, withdrawn, cleared, first_no_level, occurs};
ghost use Rattle.counting.specs.Meaning.{ledger_of, Goes, nothing, a_total};
ghost use Rattle.counting.specs.Short.{LowestShort};

use super::Histogram;
use refusals::Refusal;

// Whether every pixel is one of `levels` levels. It has no way out of the row, so the compiler takes many pixels at a time.
fn all_levels(levels: u16, row: &[u16]) -> bool
    ensures { result ≡ true → (k : ℕ) → k < length row.now → slice_index row.now k < levels }
{
    row.iter().fold(true, |all, pixel| all & (*pixel < levels))
}

// The first place of a pixel that is not one of `levels` levels. Nearly every row has none, so that is asked first.
pub fn first_no_level(levels: u16, row: &[u16]) -> Option<usize>
    ensures { MatchOption result (first_no_level levels row.now ≡ length row.now) (λ place. (place ≡ first_no_level levels row.now) × (place < length row.now)) }
{
    if all_levels(levels, row) {
        return None;
    }
    row.iter().position(|pixel| *pixel >= levels)
}

// The total with more pixels, if it is at most 4,294,967,295.
fn total_with(total: u32, more: usize) -> Option<u32>
    ensures { SomeIff result (total + more ≤ 4294967295) (total + more) }
{
    total.checked_add(u32::try_from(more).ok()?)
}

// Adds each pixel of the row to its level.
fn add_row(pixels: &mut [u32; 1024], row: &[u16])
    requires levels { (k : ℕ) → k < length row.now → slice_index row.now k < 1024 }
    requires room { sum pixels.old + length row.now ≤ 4294967295 }
    ensures each { (l : ℕ) → l < 1024 → slice_index pixels.new l ≡ slice_index pixels.old l + occurs l row.now }
    ensures all { sum pixels.new ≡ sum pixels.old + length row.now }
{
    for pixel in row {
        pixels[usize::from(*pixel)] += 1;
    }
}

// Takes each pixel of the row off its level. A level with none left stays at zero, and the lowest such level is given.
fn take_row(pixels: &mut [u32; 1024], row: &[u16]) -> Option<u16>
    requires { (k : ℕ) → k < length row.now → slice_index row.now k < 1024 }
    ensures each { (l : ℕ) → l < 1024 → slice_index pixels.new l ≡ slice_index pixels.old l - occurs l row.now }
    ensures lowest { LowestShort pixels.old row.now result }
    ensures all { IfNone result (sum pixels.new + length row.now ≡ sum pixels.old) }
{
    let mut lowest = None;
    for pixel in row {
        let level = usize::from(*pixel);
        if pixels[level] > 0 {
            pixels[level] -= 1;
        } else {
            lowest = Some(lowest.map_or(*pixel, |low: u16| low.min(*pixel)));
        }
    }
    lowest
}

impl Histogram {
    // Makes it a new histogram of `levels` levels with no pixels.
    pub fn open(&mut self, levels: u16) -> Result<(), Refusal>
        ensures { Goes self.old (opened levels) nothing result self.new }
    {
        if !(2..=1024).contains(&levels) {
            return Err(Refusal::LevelsOutOfRange { levels });
        }
        *self = Histogram::blank(levels);
        Ok(())
    }

    // Adds every pixel of the row, or none of it; gives the new total.
    pub fn count(&mut self, row: &[u16]) -> Result<u32, Refusal>
        ensures { Goes self.old (counted row.now) a_total result self.new }
    {
        if let Some(place) = first_no_level(self.levels, row) {
            return Err(Refusal::NotALevel { place });
        }
        let Some(total) = total_with(self.total, row.len()) else {
            return Err(Refusal::TotalTooLarge { total: self.total });
        };
        // On a copy, and written whole: a change that is stopped on the way leaves no trace.
        let mut grown = self.pixels;
        add_row(&mut grown, row);
        *self = Histogram {
            pixels: grown,
            total,
            levels: self.levels,
        };
        Ok(total)
    }

    // Takes every pixel of the row off its level, or none of it; gives the new total.
    pub fn withdraw(&mut self, row: &[u16]) -> Result<u32, Refusal>
        ensures { Goes self.old (withdrawn row.now) a_total result self.new }
    {
        if let Some(place) = first_no_level(self.levels, row) {
            return Err(Refusal::NotALevel { place });
        }
        let mut left = self.pixels;
        if let Some(level) = take_row(&mut left, row) {
            return Err(Refusal::LevelBelowZero { level });
        }
        // The cast loses nothing, which is proved: each level had enough, so the row is no longer than the total.
        let total = self.total - row.len() as u32;
        *self = Histogram {
            pixels: left,
            total,
            levels: self.levels,
        };
        Ok(total)
    }

    // Takes every pixel off; the levels stay.
    pub fn clear(&mut self)
        ensures { ledger_of self.new ≡ (step (ledger_of self.old) cleared).0 }
    {
        *self = Histogram::blank(self.levels);
    }
}
