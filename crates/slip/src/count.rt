// What a scan holds: its pixels counted, and what equal steps of grey would cost.
use counting::Histogram;
use refusals::Refusal;
use scans::Scan;

/// The histogram of the scan, counted row by row.
pub fn count_scan(scan: &Scan) -> Result<Histogram, Refusal> {
    let mut histogram = Histogram::fresh();
    histogram.open(scan.maximum + 1)?;
    for row in scan.rows() {
        histogram.count(row)?;
    }
    Ok(histogram)
}

/// What it costs to show the pixels in equal steps of grey, each bin by its middle level: the sum of squared errors.
pub fn equal_steps(histogram: &Histogram, bins: u16) -> u64 {
    let levels = histogram.levels();
    (0..levels)
        .zip(histogram.pixels())
        .map(|(level, pixels)| {
            let error = u64::from(level).abs_diff(middle(level, levels, bins));
            u64::from(*pixels).saturating_mul(error.saturating_mul(error))
        })
        .fold(0, u64::saturating_add)
}

// The middle level of the bin that the level falls in, where all bins are equal steps of grey.
fn middle(level: u16, levels: u16, bins: u16) -> u64 {
    let levels = u64::from(levels.max(1));
    let bins = u64::from(bins.max(1));
    let bin = u64::from(level) * bins / levels;
    (2 * bin + 1) * levels / (2 * bins)
}
