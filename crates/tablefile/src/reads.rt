// Reading a file: its head, the section of the levels, the section of the bins.
ghost use Rattle.tablefile.specs.Faults.{first_fault};
ghost use Rattle.tablefile.specs.Rows.{file_row};
ghost use Rattle.tablefile.specs.Parts.{Judged, GotPair};
ghost use Rattle.tablefile.specs.Promises.{ReadInto};

use crate::body::Body;
use crate::fault::FileFault;
use counting::Histogram;
use refusals::Refusal;
use tables::LevelTable;

// The histogram and the table of a file.
pub fn contents(file: &[u8]) -> Result<(Histogram, LevelTable), FileFault>
    ensures { Judged file_row (first_fault file.now) (GotPair file.now) result }
{
    let mut body = Body::after_head(file)?;
    let histogram = body.histogram()?;
    let table = body.table()?;
    body.end()?;
    Ok((histogram, table))
}

// Reads a file into the two places; a file with a fault leaves them as they were.
pub fn read(file: &[u8], histogram: &mut Histogram, table: &mut LevelTable) -> Result<(), Refusal>
    ensures { ReadInto file.now result histogram.old histogram.new table.old table.new }
{
    let (read_histogram, read_table) = contents(file)?;
    *histogram = read_histogram;
    *table = read_table;
    Ok(())
}
