// The first cells of an output.
ghost use Rattle.std.specs.Prelude.{min, length};
ghost use Rattle.tables.specs.Meaning.{table_of};
ghost use Rattle.tables.specs.Table.{bound_of, representative_of};
ghost use Rattle.ffi.specs.Scans.{FilledBy, Filled};

use tables::LevelTable;

// Writes what `of` gives of each place into the first `most` cells, or as many as there are.
pub(crate) fn fill<T: Copy, F: Fn(u16) -> T>(cells: &mut [T], most: u16, of: F)
    requires { F.IsAlwaysCallable of }
    ensures { FilledBy (λ k value. F.post of k value) most cells.old cells.new }
{
    let count = u16::try_from(cells.len()).unwrap_or(u16::MAX).min(most);
    // By index: a proof knows nothing of what was written through `iter_mut`.
    for k in 0..count {
        cells[usize::from(k)] = of(k);
    }
}

// Writes the bound and the representative of each bin, and zeros past the last bin.
pub(crate) fn fill_bins(table: &LevelTable, bounds: &mut [u16], representatives: &mut [u16])
    ensures bounds { Filled (bound_of (table_of table.now)) 256 bounds.old bounds.new }
    ensures representatives { Filled (representative_of (table_of table.now)) 256 representatives.old representatives.new }
{
    fill(bounds, 256, |bin| table.bound(bin));
    fill(representatives, 256, |bin| table.representative(bin));
}
