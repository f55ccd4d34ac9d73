// What a branch stores of a slip, and what another shows.
use crate::stop::Stop;
use scans::Scan;
use std::alloc::{AllocError, Global};
use tables::LevelTable;

/// A slip as it is stored and as it is shown: an index for each pixel, and the grey of each index.
#[derive(Drop)]
pub struct Shown {
    pub indices: Vec<u8>,
    pub greys: Vec<u16>,
    /// The largest difference between a pixel and the grey that it is shown as.
    pub farthest: u16,
}

// The largest difference of two lists of pixels, place by place.
fn farthest(pixels: &[u16], greys: &[u16]) -> u16 {
    pixels
        .iter()
        .zip(greys)
        .map(|(pixel, grey)| pixel.abs_diff(*grey))
        .max()
        .unwrap_or(0)
}

/// Indexes and shows the slip row by row.
pub fn show_scan(heap: Global, table: &LevelTable, scan: &Scan) -> Result<Shown, Stop> {
    let width = usize::from(scan.width);
    let mut indices = vec![in heap; 0u8; scan.pixels.len()]?;
    let mut greys = vec![in heap; 0u16; scan.pixels.len()]?;
    let places = indices
        .chunks_exact_mut(width)
        .zip(greys.chunks_exact_mut(width));
    for (row, (indices, greys)) in scan.rows().zip(places) {
        table
            .index_and_show(row, indices, greys)
            .map_err(Stop::Rows)?;
    }
    let farthest = farthest(scan.pixels.as_slice(), greys.as_slice());
    Ok(Shown {
        indices,
        greys,
        farthest,
    })
}

/// The reduced picture in the PGM format, P5, with the scan's size and maximum value.
pub fn picture(heap: Global, scan: &Scan, greys: &[u16]) -> Result<Vec<u8>, AllocError> {
    let width = scan.width;
    let height = scan.height;
    let maximum = scan.maximum;
    let header = format!(in heap; "P5\n{width} {height}\n{maximum}\n")?;
    let mut bytes = header.into_bytes();
    // A loop, since a pixel takes one byte or two, and each push may find no memory.
    for grey in greys {
        let [high, low] = grey.to_be_bytes();
        if maximum > 255 {
            bytes.push(high)?;
        }
        bytes.push(low)?;
    }
    Ok(bytes)
}
