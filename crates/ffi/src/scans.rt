// Counting, indexing and showing the rows of a scan.
ghost use Rattle.std.specs.Prelude.{◌≡◌, List, ℕ, Option, length, map};
ghost use Rattle.counting.specs.Ledger.{total_of, pixels_at};
ghost use Rattle.counting.specs.Outputs.{Row, Wrote};
ghost use Rattle.tables.specs.Table.{Lawful, given, bin_of, representative_of};
ghost use Rattle.tables.specs.Rows.{index_row, show_row};
ghost use Rattle.ffi.specs.Scans.{scanned, Filled, Written};

use crate::cells::fill;
use crate::rows::{Rows, histogram_of, span};
use refusals::Refusal;
use tables::LevelTable;

// Counts the first `rows` rows and writes the pixels at each level; gives the total. A refused row alters nothing.
pub fn slip_count(levels: u16, rows: usize, width: usize, scan: &[u16], at: &mut [u32]) -> u32
    ensures total { result ≡ total_of (scanned levels rows width scan.now) }
    ensures each { Filled (pixels_at (scanned levels rows width scan.now)) 1024 at.old at.new }
{
    let scan = Rows {
        rows,
        width,
        cells: scan,
    };
    let histogram = histogram_of(levels, scan);
    fill(at, 1024, |level| histogram.pixels_at(level));
    histogram.total()
}

// Has `write` write each row at its own place of the output; gives how many rows were written before one was refused.
fn write_rows<A, B, F: Fn(&[A], &mut [B]) -> Result<usize, Refusal>>(
    scan: Rows<'_, A>,
    out: &mut [B],
    write: F,
) -> usize
    requires { F.IsAlwaysCallable write }
    ensures { (f : A → B) (fits : List A → ℕ → Option Row)
        → ((row : _) (part : _) (written : _) (left : _) → F.post write row part written left → Wrote (fits row.now (length part.now)) (map f row.now) written part.now left.now)
        → Written f fits scan.entry.rows scan.entry.width scan.entry.cells.now out.old out.new result }
{
    // By index: a proof knows nothing of what was written through `chunks_mut`.
    // Each row is asked for, also past the end of the scan: `write` may refuse a row of no pixels.
    for i in 0..scan.rows {
        let place = span(out.len(), scan.width, i);
        if write(scan.row(i), &mut out[place]).is_err() {
            return i;
        }
    }
    scan.rows
}

// Writes the bin of each pixel of the first `rows` rows by the table of these bounds and representatives; gives how many
// rows were written before one was refused. If the table does not keep the rules, nothing is written and it gives 0, since C
// knows no `Option`.
pub fn slip_index(
    levels: u16,
    bounds: &[u16],
    representatives: &[u16],
    rows: usize,
    width: usize,
    scan: &[u16],
    out: &mut [u8],
) -> usize
    ensures lawful { Lawful (given levels bounds.now representatives.now) → Written (bin_of (given levels bounds.now representatives.now)) (index_row (given levels bounds.now representatives.now)) rows width scan.now out.old out.new result }
    ensures lawless { (Lawful (given levels bounds.now representatives.now) → ⊥) → (result ≡ 0) × (out.new ≡ out.old) }
{
    let Some(table) = LevelTable::of(levels, bounds, representatives) else {
        return 0;
    };
    let scan = Rows {
        rows,
        width,
        cells: scan,
    };
    write_rows(scan, out, |row, part| table.index(row, part))
}

// Writes the grey of each index of the first `rows` rows, as indexing does; it, too, gives 0 if the table does not keep the rules.
pub fn slip_show(
    levels: u16,
    bounds: &[u16],
    representatives: &[u16],
    rows: usize,
    width: usize,
    indices: &[u8],
    out: &mut [u16],
) -> usize
    ensures lawful { Lawful (given levels bounds.now representatives.now) → Written (representative_of (given levels bounds.now representatives.now)) (show_row (given levels bounds.now representatives.now)) rows width indices.now out.old out.new result }
    ensures lawless { (Lawful (given levels bounds.now representatives.now) → ⊥) → (result ≡ 0) × (out.new ≡ out.old) }
{
    let Some(table) = LevelTable::of(levels, bounds, representatives) else {
        return 0;
    };
    let scan = Rows {
        rows,
        width,
        cells: indices,
    };
    write_rows(scan, out, |row, part| table.show(row, part))
}
