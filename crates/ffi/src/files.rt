// Writing and reading a table file.
ghost use Rattle.std.specs.Prelude.{◌≡◌, length};
ghost use Rattle.counting.specs.Sound.{Sound, of_pixels};
ghost use Rattle.tables.specs.Table.{Lawful, given};
ghost use Rattle.tablefile.specs.Bytes.{bytes_of};
ghost use Rattle.tablefile.specs.Faults.{first_fault};
ghost use Rattle.tablefile.specs.Promises.{write_row};
ghost use Rattle.ffi.specs.Files.{Put, Got};

use crate::cells::{fill, fill_bins};
use counting::Histogram;
use tablefile::{read, write};
use tables::LevelTable;

// Writes the file of the histogram with these pixels and the table of these bounds and representatives over the first bytes of
// the output; gives how many. Where they make no histogram or no table, or the output is too short, nothing is written and it
// gives 0, since C knows no `Option` and no `Result`.
pub fn slip_write(at: &[u32], bounds: &[u16], representatives: &[u16], out: &mut [u8]) -> usize
    ensures lawful { Sound (of_pixels at.now) → Lawful (given (length at.now) bounds.now representatives.now) → Put (write_row (of_pixels at.now) (given (length at.now) bounds.now representatives.now) (length out.old)) (bytes_of (of_pixels at.now) (given (length at.now) bounds.now representatives.now)) result out.old out.new }
    ensures lawless { (Sound (of_pixels at.now) → Lawful (given (length at.now) bounds.now representatives.now) → ⊥) → (result ≡ 0) × (out.new ≡ out.old) }
{
    let Some(histogram) = Histogram::of(at) else {
        return 0;
    };
    let Some(table) = LevelTable::of(histogram.levels(), bounds, representatives) else {
        return 0;
    };
    write(&histogram, &table, out).unwrap_or(0)
}

// Reads a file, and writes the pixels at each level and each bin's bound and representative; gives 0, or the number of the
// refusal, since C knows no `Result`.
pub fn slip_read(
    file: &[u8],
    at: &mut [u32],
    bounds: &mut [u16],
    representatives: &mut [u16],
) -> u16
    ensures { Got (first_fault file.now) file.now result at.old at.new bounds.old bounds.new representatives.old representatives.new }
{
    let mut histogram = Histogram::fresh();
    let mut table = LevelTable::fresh();
    if let Err(refusal) = read(file, &mut histogram, &mut table) {
        return u16::from(refusal.number());
    }
    fill(at, 1024, |level| histogram.pixels_at(level));
    fill_bins(&table, bounds, representatives);
    0
}
