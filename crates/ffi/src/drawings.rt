// Drawing a table from a scan, by squared errors and their sum.
ghost use Rattle.std.specs.Prelude.{◌≡◌, min, length};
ghost use Rattle.pricing.specs.Measures.{squared};
ghost use Rattle.tables.specs.Meaning.{table_of};
ghost use Rattle.drawing.specs.Drawings.{draw_row};
ghost use Rattle.ffi.specs.Scans.{scanned};
ghost use Rattle.ffi.specs.Told.{Told, DrewOrRefused, Kept};

use crate::cells::fill_bins;
use crate::drawn::Drawn;
use crate::rows::{Rows, histogram_of};
use drawing::{Receipt, draw};
use pricing::{CentroidPricer, Pricer, Squared, Total, TrialPricer};
use refusals::Refusal;
use tables::LevelTable;

// Tells how a drawing went, and writes the table unless it was refused.
fn tell(
    res: Result<Receipt<Total>, Refusal>,
    table: &LevelTable,
    bounds: &mut [u16],
    representatives: &mut [u16],
) -> Drawn
    ensures { Told res (table_of table.now) result bounds.old bounds.new representatives.old representatives.new }
{
    match res {
        Ok(receipt) => {
            fill_bins(table, bounds, representatives);
            Drawn::from(receipt)
        }
        Err(refusal) => Drawn::from(refusal),
    }
}

// Draws a table of at most `most` bins from the scan with the pricer, and writes its bounds and representatives. The lists stand
// one by one, as C passes them.
fn draw_scan<P: Pricer<Kind = Total>>(
    pricer: &mut P,
    levels: u16,
    scan: Rows<'_, u16>,
    most: u16,
    tallies: &mut [Total],
    links: &mut [u16],
    bounds: &mut [u16],
    representatives: &mut [u16],
) -> Drawn
    requires { P.Measure.error pricer.old ≡ squared }
    ensures told { DrewOrRefused (draw_row (scanned levels scan.entry.rows scan.entry.width scan.entry.cells.now) most (min (length tallies.old) (length links.old))) (scanned levels scan.entry.rows scan.entry.width scan.entry.cells.now) most result bounds.old bounds.new representatives.old representatives.new }
    ensures lists { Kept (draw_row (scanned levels scan.entry.rows scan.entry.width scan.entry.cells.now) most (min (length tallies.old) (length links.old))) tallies.old tallies.new links.old links.new }
{
    let histogram = histogram_of(levels, scan);
    let mut table = LevelTable::fresh();
    let result = draw(pricer, &histogram, most, tallies, links, &mut table);
    tell(result, &table, bounds, representatives)
}

// Draws a table of at most `most` bins from the first `rows` rows, with the centroid pricer, and writes its bounds and
// representatives. The work lists' old contents do not matter.
pub fn slip_draw(
    levels: u16,
    rows: usize,
    width: usize,
    scan: &[u16],
    most: u16,
    tallies: &mut [Total],
    links: &mut [u16],
    bounds: &mut [u16],
    representatives: &mut [u16],
) -> Drawn
    ensures told { DrewOrRefused (draw_row (scanned levels rows width scan.now) most (min (length tallies.old) (length links.old))) (scanned levels rows width scan.now) most result bounds.old bounds.new representatives.old representatives.new }
    ensures lists { Kept (draw_row (scanned levels rows width scan.now) most (min (length tallies.old) (length links.old))) tallies.old tallies.new links.old links.new }
{
    let scan = Rows {
        rows,
        width,
        cells: scan,
    };
    draw_scan(
        &mut CentroidPricer::new(),
        levels,
        scan,
        most,
        tallies,
        links,
        bounds,
        representatives,
    )
}

// The same with the trial pricer.
pub fn slip_draw_by_trial(
    levels: u16,
    rows: usize,
    width: usize,
    scan: &[u16],
    most: u16,
    tallies: &mut [Total],
    links: &mut [u16],
    bounds: &mut [u16],
    representatives: &mut [u16],
) -> Drawn
    ensures told { DrewOrRefused (draw_row (scanned levels rows width scan.now) most (min (length tallies.old) (length links.old))) (scanned levels rows width scan.now) most result bounds.old bounds.new representatives.old representatives.new }
    ensures lists { Kept (draw_row (scanned levels rows width scan.now) most (min (length tallies.old) (length links.old))) tallies.old tallies.new links.old links.new }
{
    let scan = Rows {
        rows,
        width,
        cells: scan,
    };
    draw_scan(
        &mut TrialPricer::<Squared, Total>::new(Squared::new()),
        levels,
        scan,
        most,
        tallies,
        links,
        bounds,
        representatives,
    )
}
