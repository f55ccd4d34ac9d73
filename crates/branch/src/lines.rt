// The lines of a drawn table.
ghost use Rattle.std.specs.Prelude.{◌≡◌, ◌+◌, ◌<◌, ◌≤◌, ◌++◌, IfOk, string_bytes};
ghost use Rattle.counting.specs.Meaning.{ledger_of};
ghost use Rattle.refusals.specs.Refusals.{refusal_number};
ghost use Rattle.tables.specs.Meaning.{table_of};
ghost use Rattle.branch.specs.Report.{pixels_between, levels_line, bin_lines, figures_line, refused_line};

use counting::Histogram;
use drawing::Receipt;
use pricing::Total;
use refusals::Refusal;
use std::alloc::{AllocError, Global};
use tables::{Bin, LevelTable};

// How many pixels stand at the levels from `first` to `last`, both included.
fn pixels_between(histogram: &Histogram, first: u16, last: u16) -> u32
    requires { (first ≤ last + 1) × (last < (ledger_of histogram.now).levels) }
    ensures { result ≡ pixels_between (ledger_of histogram.now) first last }
{
    histogram.pixels()[usize::from(first)..=usize::from(last)]
        .iter()
        .sum()
}

// The line of a drawing's figures.
fn figures_line(heap: Global, receipt: &Receipt<Total>) -> Result<String, AllocError>
    ensures { IfOk result (λ s. string_bytes s ≡ figures_line receipt.now) }
{
    let tally = receipt.tally.sum;
    let priced = receipt.priced;
    let compared = receipt.compared;
    format!(in heap; "tally {tally} priced {priced} compared {compared}\n")
}

// The line of a refusal.
pub fn refused_line(heap: Global, refusal: &Refusal) -> Result<String, AllocError>
    ensures { IfOk result (λ s. string_bytes s ≡ refused_line (refusal_number refusal.now)) }
{
    let number = refusal.number();
    format!(in heap; "refused {number}\n")
}

// A table beside the histogram that it was drawn from.
#[derive(Clone, Copy)]
pub struct DrawnTable<'a> {
    pub histogram: &'a Histogram,
    pub table: &'a LevelTable,
    ghost levels: { (table_of table.now).levels ≡ (ledger_of histogram.now).levels },
}

impl DrawnTable<'_> {
    // The line of a bin whose lowest level is `first`.
    fn bin_line(&self, heap: Global, bin: Bin, first: u16) -> Result<String, AllocError>
        requires { (first ≤ bin.bound + 1) × (bin.bound < (ledger_of self.now.histogram.now).levels) }
        ensures { IfOk result (λ s. string_bytes s ≡ levels_line (ledger_of self.now.histogram.now) first bin.bound bin.representative) }
    {
        let bound = bin.bound;
        let representative = bin.representative;
        let pixels = pixels_between(self.histogram, first, bound);
        format!(in heap; "{first} {bound} {representative} {pixels}\n")
    }

    // The lines of all bins.
    fn bin_lines(&self, heap: Global) -> Result<String, AllocError>
        ensures { IfOk result (λ s. string_bytes s ≡ bin_lines (ledger_of self.now.histogram.now) (table_of self.now.table.now)) }
    {
        let mut text = String::new(heap);
        let mut first = 0;
        for bin in self.table.as_slice() {
            let line = self.bin_line(heap, *bin, first)?;
            text.push_str(line.as_str())?;
            first = bin.bound + 1;
        }
        Ok(text)
    }

    // The lines of all bins, and that of the drawing's figures.
    pub fn lines(&self, heap: Global, receipt: &Receipt<Total>) -> Result<String, AllocError>
        ensures { IfOk result (λ s. string_bytes s ≡ bin_lines (ledger_of self.now.histogram.now) (table_of self.now.table.now) ++ figures_line receipt.now) }
    {
        let mut text = self.bin_lines(heap)?;
        let figures = figures_line(heap, receipt)?;
        text.push_str(figures.as_str())?;
        Ok(text)
    }
}
