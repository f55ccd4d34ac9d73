// Writing a histogram and a table as a file, each part after the part before it.
ghost use Rattle.std.specs.Prelude.{◌≡◌, ◌+◌, ◌*◌, ◌≤◌, ◌++◌, length};
ghost use Rattle.std.specs.List.{range_with_len, flat_map};
ghost use Rattle.counting.specs.Meaning.{ledger_of};
ghost use Rattle.counting.specs.Outputs.{Wrote};
ghost use Rattle.tables.specs.Meaning.{table_of};
ghost use Rattle.tablefile.specs.Numbers.{word, long};
ghost use Rattle.tablefile.specs.Bytes.{head_bytes, counted_of, level_bytes, bin_bytes, bytes_of};
ghost use Rattle.tablefile.specs.Parts.{Puts};
ghost use Rattle.tablefile.specs.Promises.{write_row};

use crate::numbers::EDITION;
use crate::writer::Writer;
use counting::Histogram;
use refusals::Refusal;
use tables::LevelTable;

// The entries of the two sections come from different places and have other numbers, so each section has a writer of its own.
impl Writer<'_> {
    // Section 0: the edition, and the number of levels.
    fn put_head(&mut self, levels: u16)
        requires { self.old.place + 3 ≤ length self.old.out.now }
        ensures { Puts self.old (head_bytes levels) self.new }
    {
        self.put([EDITION]);
        self.put(levels.to_be_bytes());
    }

    // An entry of section 1: a level and its pixels.
    fn put_level(&mut self, level: u16, pixels: u32)
        requires { self.old.place + 6 ≤ length self.old.out.now }
        ensures { Puts self.old (word level ++ long pixels) self.new }
    {
        self.put(level.to_be_bytes());
        self.put(pixels.to_be_bytes());
    }

    // The entries of section 1: one for each level with pixels, lowest first.
    fn put_levels(&mut self, histogram: &Histogram)
        requires { self.old.place + 6 * length (counted_of (ledger_of histogram.now)) ≤ length self.old.out.now }
        ensures { Puts self.old (flat_map (level_bytes (ledger_of histogram.now)) (counted_of (ledger_of histogram.now))) self.new }
    {
        for (level, pixels) in (0..histogram.levels()).zip(histogram.pixels()) {
            if *pixels > 0 {
                self.put_level(level, *pixels);
            }
        }
    }

    // An entry of section 2: a bin's bound and its representative. They are two numbers here, since a proof knows that each fits its type,
    // and does not of the fields of a `Bin`.
    fn put_bin(&mut self, bound: u16, representative: u16)
        requires { self.old.place + 4 ≤ length self.old.out.now }
        ensures { Puts self.old (word bound ++ word representative) self.new }
    {
        self.put(bound.to_be_bytes());
        self.put(representative.to_be_bytes());
    }

    // The entries of section 2: one for each bin, lowest first.
    fn put_bins(&mut self, table: &LevelTable)
        requires { self.old.place + 4 * length (table_of table.now).bounds ≤ length self.old.out.now }
        ensures { Puts self.old (flat_map (bin_bytes (table_of table.now)) (range_with_len 0 (length (table_of table.now).bounds))) self.new }
    {
        for bin in table.as_slice() {
            self.put_bin(bin.bound, bin.representative);
        }
    }
}

// How many bytes a file with so many levels in section 1 and so many bins has.
fn length_with(counted: u16, bins: u16) -> usize
    ensures { result ≡ 7 + 6 * counted + 4 * bins }
{
    7 + 6 * usize::from(counted) + 4 * usize::from(bins)
}

// How many bytes the histogram and the table have as a file, and so how many have to be lent for it.
pub fn file_length(histogram: &Histogram, table: &LevelTable) -> usize
    ensures { result ≡ length (bytes_of (ledger_of histogram.now) (table_of table.now)) }
{
    length_with(histogram.counted_levels(), table.bins())
}

// Writes the file of the histogram and the table over the first bytes of the output; gives how many.
pub fn write(histogram: &Histogram, table: &LevelTable, out: &mut [u8]) -> Result<usize, Refusal>
    ensures { Wrote (write_row (ledger_of histogram.now) (table_of table.now) (length out.old)) (bytes_of (ledger_of histogram.now) (table_of table.now)) result out.old out.new }
{
    let levels = histogram.levels();
    if levels != table.levels() {
        return Err(Refusal::LevelsDiffer {
            histogram: levels,
            table: table.levels(),
        });
    }
    // Counted once: the length and section 1 both have the number.
    let counted = histogram.counted_levels();
    let bins = table.bins();
    let needed = length_with(counted, bins);
    if out.len() < needed {
        return Err(Refusal::OutputTooShort { needed });
    }
    let mut writer = Writer::new(out);
    writer.put_head(levels);
    writer.put(counted.to_be_bytes());
    writer.put_levels(histogram);
    writer.put(bins.to_be_bytes());
    writer.put_bins(table);
    Ok(needed)
}
