// The rows of a scan, and its histogram.
ghost use Rattle.std.specs.Prelude.{◌≡◌, ◌+◌, ◌*◌, ◌≤◌, min};
ghost use Rattle.counting.specs.Meaning.{ledger_of};
ghost use Rattle.ffi.specs.Scans.{row_of, scanned};

use counting::Histogram;
use std::ops::Range;

// A scan: the first `rows` rows of `width` cells that stand one after the other in a list.
#[derive(Clone, Copy)]
pub(crate) struct Rows<'a, T> {
    pub(crate) rows: usize,
    pub(crate) width: usize,
    pub(crate) cells: &'a [T],
}

impl<'a, T> Rows<'a, T> {
    // Row `i`, or what the list has of it.
    pub(crate) fn row(&self, i: usize) -> &'a [T]
        ensures { result.now ≡ row_of self.now.width self.now.cells.now i }
    {
        &self.cells[span(self.cells.len(), self.width, i)]
    }
}

// Where row `i` stands in a list of `length` cells, or what there is of it.
pub(crate) fn span(length: usize, width: usize, i: usize) -> Range<usize>
    ensures { (result.start ≡ min (i * width) length) × (result.end ≡ min (i * width + width) length) × (result.start ≤ result.end) × (result.end ≤ length) }
{
    let start = i.saturating_mul(width).min(length);
    start..start.saturating_add(width).min(length)
}

// The histogram of `levels` levels and the scan's rows; a refused call alters nothing.
pub(crate) fn histogram_of(levels: u16, scan: Rows<'_, u16>) -> Histogram
    ensures { ledger_of result ≡ scanned levels scan.entry.rows scan.entry.width scan.entry.cells.now }
{
    let mut histogram = Histogram::fresh();
    let _ = histogram.open(levels);
    // Rows of no pixels alter nothing, and `chunks` takes no width of 0.
    if scan.width > 0 {
        for row in scan.cells.chunks(scan.width).take(scan.rows) {
            let _ = histogram.count(row);
        }
    }
    histogram
}
