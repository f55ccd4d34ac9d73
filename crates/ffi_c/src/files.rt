// Writing and reading a table file.
ghost use Rattle.std.specs.Prelude.{◌≡◌, length};
ghost use Rattle.counting.specs.Sound.{Sound, of_pixels};
ghost use Rattle.tables.specs.Table.{Lawful, given};
ghost use Rattle.tablefile.specs.Bytes.{bytes_of};
ghost use Rattle.tablefile.specs.Faults.{first_fault};
ghost use Rattle.tablefile.specs.Promises.{write_row};
ghost use Rattle.ffi.specs.Files.{Put, Got};

// Writes the file of the histogram with these pixels and the table of these bounds and representatives over the first bytes of
// the output; gives how many. Where they make no histogram or no table, or the output is too short, nothing is written and it
// gives 0, since C knows no `Option` and no `Result`.
#[unsafe(no_mangle)]
pub extern "C" fn slip_write(
    at: &[u32],
    bounds: &[u16],
    representatives: &[u16],
    out: &mut [u8],
) -> usize
    ensures lawful { Sound (of_pixels at.now) → Lawful (given (length at.now) bounds.now representatives.now) → Put (write_row (of_pixels at.now) (given (length at.now) bounds.now representatives.now) (length out.old)) (bytes_of (of_pixels at.now) (given (length at.now) bounds.now representatives.now)) result out.old out.new }
    ensures lawless { (Sound (of_pixels at.now) → Lawful (given (length at.now) bounds.now representatives.now) → ⊥) → (result ≡ 0) × (out.new ≡ out.old) }
{
    ffi::slip_write(at, bounds, representatives, out)
}

// Reads a file, and writes the pixels at each level and each bin's bound and representative; gives 0, or the number of the
// refusal, since C knows no `Result`.
#[unsafe(no_mangle)]
pub extern "C" fn slip_read(
    file: &[u8],
    at: &mut [u32],
    bounds: &mut [u16],
    representatives: &mut [u16],
) -> u16
    ensures { Got (first_fault file.now) file.now result at.old at.new bounds.old bounds.new representatives.old representatives.new }
{
    ffi::slip_read(file, at, bounds, representatives)
}
