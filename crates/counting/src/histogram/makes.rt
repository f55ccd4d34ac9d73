// A histogram made from the pixels at its levels.
ghost use Rattle.std.specs.Prelude.{◌≡◌, ◌-◌, ◌<◌, ◌≤◌, ◌++◌, length, replicate, sum, MatchOption};
ghost use Rattle.counting.specs.Sound.{Sound, of_pixels};
ghost use Rattle.counting.specs.Meaning.{ledger_of};

use super::Histogram;

// The sum of the numbers, if it is at most 4,294,967,295.
fn sum_of(numbers: &[u32]) -> Option<u32>
    ensures { MatchOption result (4294967295 < sum numbers.now) (λ total. total ≡ sum numbers.now) }
{
    numbers
        .iter()
        .try_fold(0u32, |total, number| total.checked_add(*number))
}

// The numbers, and zeros after them.
fn padded(numbers: &[u32]) -> [u32; 1024]
    requires { length numbers.now ≤ 1024 }
    ensures { (length result ≡ 1024) × (result ≡ numbers.now ++ replicate (1024 - length numbers.now) 0) }
{
    let mut cells = [0; 1024];
    cells[..numbers.len()].copy_from_slice(numbers);
    cells
}

impl Histogram {
    // The histogram with these pixels at its levels, if they are 2 to 1,024 and their sum is at most 4,294,967,295.
    pub fn of(pixels: &[u32]) -> Option<Histogram>
        ensures { MatchOption result (Sound (of_pixels pixels.now) → ⊥) (λ h. ledger_of h ≡ of_pixels pixels.now) }
    {
        if !(2..=1024).contains(&pixels.len()) {
            return None;
        }
        let total = sum_of(pixels)?;
        Some(Histogram {
            pixels: padded(pixels),
            total,
            // The cast loses nothing, which is proved: at most 1,024.
            levels: pixels.len() as u16,
        })
    }
}
