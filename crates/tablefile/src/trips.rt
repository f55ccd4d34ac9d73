// There and back: a pair written and read, a file read and written, and that neither loses anything.
ghost use Rattle.std.specs.Prelude.{◌≡◌, length};
ghost use Rattle.counting.specs.Meaning.{ledger_of};
ghost use Rattle.counting.specs.Outputs.{Wrote};
ghost use Rattle.tables.specs.Meaning.{table_of};
ghost use Rattle.tablefile.specs.Bytes.{bytes_of};
ghost use Rattle.tablefile.specs.Promises.{write_row, rewrite_row, ReadBack};
ghost use Rattle.tablefile.specs.Theorems.{OneToOne};

use crate::numbers::EDITION;
use crate::reads::{contents, read};
use crate::writes::write;
use counting::Histogram;
use refusals::Refusal;
use tables::LevelTable;

// The edition that is read and written. In it a file and its pair of histogram and table determine each other.
pub fn edition() -> u8
    ensures number { result ≡ 5 }
    ensures meaning { OneToOne }
{
    EDITION
}

// Writes the pair, and reads what was written back into the two places, which then have the same pair.
pub fn round_trip(
    histogram: &Histogram,
    table: &LevelTable,
    out: &mut [u8],
    histogram_back: &mut Histogram,
    table_back: &mut LevelTable,
) -> Result<usize, Refusal>
    ensures wrote { Wrote (write_row (ledger_of histogram.now) (table_of table.now) (length out.old)) (bytes_of (ledger_of histogram.now) (table_of table.now)) result out.old out.new }
    ensures back { ReadBack (ledger_of histogram.now) (table_of table.now) result histogram_back.old histogram_back.new table_back.old table_back.new }
{
    let written = write(histogram, table, out)?;
    read(&out[..written], histogram_back, table_back)?;
    Ok(written)
}

// Reads a file and writes what it has: the same bytes over the first of the output.
pub fn rewrite(file: &[u8], out: &mut [u8]) -> Result<usize, Refusal>
    ensures { Wrote (rewrite_row file.now (length out.old)) file.now result out.old out.new }
{
    let (histogram, table) = contents(file)?;
    write(&histogram, &table, out)
}
