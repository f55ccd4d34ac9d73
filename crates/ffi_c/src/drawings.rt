// Drawing a table from a scan, by squared errors and their sum.
ghost use Rattle.std.specs.Prelude.{min, length};
ghost use Rattle.drawing.specs.Drawings.{draw_row};
ghost use Rattle.ffi.specs.Scans.{scanned};
ghost use Rattle.ffi.specs.Told.{DrewOrRefused, Kept};

use ffi::Drawn;
use pricing::Total;

// Draws a table of at most `most` bins from the first `rows` rows, with the centroid pricer, and writes its bounds and
// representatives. The work lists' old contents do not matter.
#[unsafe(no_mangle)]
pub extern "C" fn slip_draw(
    levels: u16,
    rows: usize,
    width: usize,
    scan: &[u16],
    most: u16,
    tallies: &mut [Total],
    links: &mut [u16],
    bounds: &mut [u16],
    representatives: &mut [u16],
) -> Drawn
    ensures told { DrewOrRefused (draw_row (scanned levels rows width scan.now) most (min (length tallies.old) (length links.old))) (scanned levels rows width scan.now) most result bounds.old bounds.new representatives.old representatives.new }
    ensures lists { Kept (draw_row (scanned levels rows width scan.now) most (min (length tallies.old) (length links.old))) tallies.old tallies.new links.old links.new }
{
    ffi::slip_draw(
        levels,
        rows,
        width,
        scan,
        most,
        tallies,
        links,
        bounds,
        representatives,
    )
}

// The same with the trial pricer.
#[unsafe(no_mangle)]
pub extern "C" fn slip_draw_by_trial(
    levels: u16,
    rows: usize,
    width: usize,
    scan: &[u16],
    most: u16,
    tallies: &mut [Total],
    links: &mut [u16],
    bounds: &mut [u16],
    representatives: &mut [u16],
) -> Drawn
    ensures told { DrewOrRefused (draw_row (scanned levels rows width scan.now) most (min (length tallies.old) (length links.old))) (scanned levels rows width scan.now) most result bounds.old bounds.new representatives.old representatives.new }
    ensures lists { Kept (draw_row (scanned levels rows width scan.now) most (min (length tallies.old) (length links.old))) tallies.old tallies.new links.old links.new }
{
    ffi::slip_draw_by_trial(
        levels,
        rows,
        width,
        scan,
        most,
        tallies,
        links,
        bounds,
        representatives,
    )
}
