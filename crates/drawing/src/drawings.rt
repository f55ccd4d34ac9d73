// Drawing up the table of least tally.
ghost use Rattle.std.specs.Prelude.{◌≡◌, ℕ, ◌<◌, ◌≤◌, min, List, length};
ghost use Rattle.counting.specs.Ledger.{Asked, after, counted_levels};
ghost use Rattle.counting.specs.Meaning.{ledger_of};
ghost use Rattle.counting.specs.Outputs.{Judged};
ghost use Rattle.pricing.specs.Errors.{SameErrors};
ghost use Rattle.tables.specs.Meaning.{table_of};
ghost use Rattle.drawing.specs.Drawings.{draw_row, cells_needed, Drew, Drawing};

use crate::receipt::Receipt;
use crate::search::Search;
use crate::work::Cells;
use counting::Histogram;
use divisions::{bins, compared, priced};
use pricing::Pricer;
use refusals::Refusal;
use tables::LevelTable;

// How many cells each work list needs for a drawing of at most `most` bins.
pub fn cells(histogram: &Histogram, most: u16) -> usize
    ensures { result ≡ cells_needed (ledger_of histogram.now) most }
{
    let counted = histogram.counted_levels();
    usize::from(counted) * usize::from(bins(counted, most))
}

// The refusals of a drawing, in their order; `lent` is the length of the shorter work list.
fn judge(histogram: &Histogram, most: u16, lent: usize) -> Result<(), Refusal>
    ensures { Judged (draw_row (ledger_of histogram.now) most lent) result }
{
    if !(1..=256).contains(&most) {
        return Err(Refusal::BinsOutOfRange { most });
    }
    if histogram.total() == 0 {
        return Err(Refusal::NoPixels);
    }
    let needed = cells(histogram, most);
    if lent < needed {
        return Err(Refusal::WorkTooShort { needed });
    }
    Ok(())
}

// Draws a table that is not refused into its place.
fn draw_up<P: Pricer>(
    pricer: &mut P,
    histogram: &Histogram,
    most: u16,
    mut cells: Cells<'_, P::Kind>,
    table: &mut LevelTable,
) -> Receipt<P::Kind>
    requires shape { (1 ≤ most) × (most ≤ 256) × (0 < counted_levels (ledger_of histogram.now)) }
    requires room { (cells_needed (ledger_of histogram.now) most ≤ length cells.tallies.now) × (cells_needed (ledger_of histogram.now) most ≤ length cells.links.now) }
    ensures drew { Drew P.Kind.Tally.ops (P.Measure.error pricer.old) (ledger_of histogram.now) most result (table_of table.new) }
    ensures same { SameErrors (P.Measure.error pricer.new) (P.Measure.error pricer.old) }
{
    let counted = histogram.counted_levels();
    let bins = bins(counted, most);
    let search = Search::of(histogram, bins);
    search.fill(pricer, &mut cells);
    *table = search.table(pricer, &cells);
    Receipt {
        tally: search.tally(&cells),
        bins,
        priced: priced(counted, most),
        compared: compared(counted, most),
    }
}

// Puts the table of the best division into at most `most` bins into the place of the table. The work lists' old
// contents do not matter, and what they hold after an accepted drawing is left open.
pub fn draw<P: Pricer>(
    pricer: &mut P,
    histogram: &Histogram,
    most: u16,
    tallies: &mut [P::Kind],
    links: &mut [u16],
    table: &mut LevelTable,
) -> Result<Receipt<P::Kind>, Refusal>
    ensures drawing { Drawing P.Kind.Tally.ops P.Measure.error (ledger_of histogram.now) most result pricer.old pricer.new tallies.old tallies.new links.old links.new table.old table.new }
    ensures runs { (calls : List Asked) → after calls ≡ ledger_of histogram.now → Drawing P.Kind.Tally.ops P.Measure.error (after calls) most result pricer.old pricer.new tallies.old tallies.new links.old links.new table.old table.new }
{
    judge(histogram, most, tallies.len().min(links.len()))?;
    Ok(draw_up(pricer, histogram, most, Cells { tallies, links }, table))
}
