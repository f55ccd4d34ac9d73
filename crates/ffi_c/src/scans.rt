// Counting, indexing and showing the rows of a scan.
ghost use Rattle.std.specs.Prelude.{◌≡◌};
ghost use Rattle.counting.specs.Ledger.{total_of, pixels_at};
ghost use Rattle.tables.specs.Table.{Lawful, given, bin_of, representative_of};
ghost use Rattle.tables.specs.Rows.{index_row, show_row};
ghost use Rattle.ffi.specs.Scans.{scanned, Filled, Written};

// Counts the first `rows` rows and writes the pixels at each level; gives the total. A refused row alters nothing.
#[unsafe(no_mangle)]
pub extern "C" fn slip_count(
    levels: u16,
    rows: usize,
    width: usize,
    scan: &[u16],
    at: &mut [u32],
) -> u32
    ensures total { result ≡ total_of (scanned levels rows width scan.now) }
    ensures each { Filled (pixels_at (scanned levels rows width scan.now)) 1024 at.old at.new }
{
    ffi::slip_count(levels, rows, width, scan, at)
}

// Writes the bin of each pixel of the first `rows` rows by the table of these bounds and representatives; gives how many
// rows were written before one was refused. If the table does not keep the rules, nothing is written and it gives 0, since C
// knows no `Option`.
#[unsafe(no_mangle)]
pub extern "C" fn slip_index(
    levels: u16,
    bounds: &[u16],
    representatives: &[u16],
    rows: usize,
    width: usize,
    scan: &[u16],
    out: &mut [u8],
) -> usize
    ensures lawful { Lawful (given levels bounds.now representatives.now) → Written (bin_of (given levels bounds.now representatives.now)) (index_row (given levels bounds.now representatives.now)) rows width scan.now out.old out.new result }
    ensures lawless { (Lawful (given levels bounds.now representatives.now) → ⊥) → (result ≡ 0) × (out.new ≡ out.old) }
{
    ffi::slip_index(levels, bounds, representatives, rows, width, scan, out)
}

// Writes the grey of each index of the first `rows` rows, as indexing does; it, too, gives 0 if the table does not keep the rules.
#[unsafe(no_mangle)]
pub extern "C" fn slip_show(
    levels: u16,
    bounds: &[u16],
    representatives: &[u16],
    rows: usize,
    width: usize,
    indices: &[u8],
    out: &mut [u16],
) -> usize
    ensures lawful { Lawful (given levels bounds.now representatives.now) → Written (representative_of (given levels bounds.now representatives.now)) (show_row (given levels bounds.now representatives.now)) rows width indices.now out.old out.new result }
    ensures lawless { (Lawful (given levels bounds.now representatives.now) → ⊥) → (result ≡ 0) × (out.new ≡ out.old) }
{
    ffi::slip_show(levels, bounds, representatives, rows, width, indices, out)
}
