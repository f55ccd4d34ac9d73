// Each step of a slip's way, with its answer.
use crate::count::{count_scan, equal_steps};
use crate::stop::Stop;
use crate::store::{Shown, picture, show_scan};
use counting::Histogram;
use drawing::{Receipt, cells, draw};
use pricing::{CentroidPricer, Squared, Tally, Total, TrialPricer, both_prices};
use scans::Scan;
use std::io;
use tablefile::{file_length, round_trip};
use tables::LevelTable;

/// What a slip is stored as: the bytes of its table file, and of the picture that is shown.
#[derive(Drop)]
pub struct Made {
    pub table_file: Vec<u8>,
    pub picture: Vec<u8>,
}

/// The whole way of a slip that is stored in at most `greys` greys.
pub fn slip(rt: &HostRuntime, scan: &Scan, greys: u16) -> Result<Made, Stop> {
    let width = scan.width;
    let height = scan.height;
    let levels = scan.maximum + 1;
    println!(rt; "scan: {width} x {height} pixels of {levels} levels")?;
    let mut histogram = count_scan(scan).map_err(Stop::Count)?;
    let total = histogram.total();
    println!(rt; "count: {height} rows, total {total}")?;
    counted(rt, &histogram)?;
    refused(rt, &mut histogram)?;
    one_grey(rt, &histogram)?;
    let table = drawn(rt, &histogram, greys)?;
    let (table_file, table) = filed(rt, &histogram, &table)?;
    let shown = shown(rt, scan, &table)?;
    let picture = picture(rt.alloc(), scan, shown.greys.as_slice())?;
    Ok(Made {
        table_file,
        picture,
    })
}

/// What the histogram holds.
fn counted(rt: &HostRuntime, histogram: &Histogram) -> io::Result<()> {
    let counted = histogram.counted_levels();
    let darkest = histogram.darkest().unwrap_or(0);
    let palest = histogram.palest().unwrap_or(0);
    println!(rt; "counted levels: {counted}, from {darkest} (darkest) to {palest} (palest)")
}

/// A call that is refused, and leaves the histogram as it was.
fn refused(rt: &HostRuntime, histogram: &mut Histogram) -> io::Result<()> {
    let before = histogram.total();
    let paler = histogram.levels();
    match histogram.count(&[0, paler]) {
        Ok(total) => println!(rt; "count of a row with level {paler}: total {total}"),
        Err(refusal) => {
            let after = histogram.total();
            println!(rt;
                "count of a row with level {paler}: refused {refusal}; total {before} before, {after} after"
            )
        }
    }
}

/// The whole slip in one grey, by trying each grey and by the mean.
fn one_grey(rt: &HostRuntime, histogram: &Histogram) -> io::Result<()> {
    let mut trial = TrialPricer::<Squared, Total>::new(Squared::new());
    let mut centroid = CentroidPricer::new();
    let top = histogram.levels().saturating_sub(1);
    match both_prices(&mut trial, &mut centroid, histogram, 0, top) {
        (Some((grey, tally)), Some((mean_grey, mean_tally))) => {
            let sum = tally.sum;
            let mean_sum = mean_tally.sum;
            println!(rt;
                "one grey: {grey} for {sum} by trying each, {mean_grey} for {mean_sum} by the mean"
            )
        }
        _ => println!(rt; "one grey: no pixels"),
    }
}

/// The table, and what it is worth.
fn drawn(rt: &HostRuntime, histogram: &Histogram, greys: u16) -> Result<LevelTable, Stop> {
    let cells = cells(histogram, greys);
    let mut tallies = vec![in rt.alloc(); Total::neutral(); cells]?;
    let mut links = vec![in rt.alloc(); 0u16; cells]?;
    let mut table = LevelTable::fresh();
    let receipt = draw(
        &mut CentroidPricer::new(),
        histogram,
        greys,
        tallies.as_mut_slice(),
        links.as_mut_slice(),
        &mut table,
    )
    .map_err(Stop::Draw)?;
    println!(rt; "draw: at most {greys} bins, with {cells} work cells of each kind")?;
    listed(rt, &table)?;
    worth(rt, histogram, &receipt)?;
    Ok(table)
}

/// The bins of the table.
fn listed(rt: &HostRuntime, table: &LevelTable) -> io::Result<()> {
    // Where a bin begins is told by the bin below it.
    let mut first = 0u16;
    for bin in table.as_slice() {
        let bound = bin.bound;
        let grey = bin.representative;
        println!(rt; "  levels {first} to {bound} shown as {grey}")?;
        first = bound.saturating_add(1);
    }
    Ok(())
}

/// What the table costs, and what as many equal steps of grey do.
fn worth(rt: &HostRuntime, histogram: &Histogram, receipt: &Receipt<Total>) -> io::Result<()> {
    let tally = receipt.tally.sum;
    let priced = receipt.priced;
    let compared = receipt.compared;
    println!(rt; "tally {tally} priced {priced} compared {compared}")?;
    let bins = receipt.bins;
    let equal = equal_steps(histogram, bins);
    println!(rt; "in {bins} equal steps of grey the tally is {equal}")
}

/// The table file, and the table that is read back from it.
fn filed(
    rt: &HostRuntime,
    histogram: &Histogram,
    table: &LevelTable,
) -> Result<(Vec<u8>, LevelTable), Stop> {
    let mut file = vec![in rt.alloc(); 0u8; file_length(histogram, table)]?;
    let mut histogram_back = Histogram::fresh();
    let mut table_back = LevelTable::fresh();
    let written = round_trip(
        histogram,
        table,
        file.as_mut_slice(),
        &mut histogram_back,
        &mut table_back,
    )
    .map_err(Stop::TableFile)?;
    let total = histogram_back.total();
    let bins = table_back.bins();
    println!(rt; "table file: {written} bytes, read back with total {total} and {bins} bins")?;
    Ok((file, table_back))
}

/// Every row indexed and shown by the table that was read.
fn shown(rt: &HostRuntime, scan: &Scan, table: &LevelTable) -> Result<Shown, Stop> {
    let shown = show_scan(rt.alloc(), table, scan)?;
    let before = scan.pixels.len().saturating_mul(2);
    let after = shown.indices.len();
    let farthest = shown.farthest;
    println!(rt; "rows: {before} bytes of pixels before, {after} bytes of indices after")?;
    println!(rt; "largest error of any pixel: {farthest} levels")?;
    Ok(shown)
}
