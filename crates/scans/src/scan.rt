// A grey scan in memory, and its rows.
ghost use Rattle.std.specs.Prelude.{◌≡◌, ℕ, ◌*◌, ◌<◌, ◌≤◌, true, length, vec_len, slice_index};
ghost use Rattle.std.specs.Slice.Iter.{chunks_exact_rest, chunks_exact_size};
ghost use Rattle.scans.specs.Raster.{row_of, within};

use std::slice::ChunksExact;

/// A grey scan: its size in pixels, the maximum value of a pixel, and the pixels, row after row from the upper left corner on.
#[derive(Drop)]
pub struct Scan {
    // A `Header` has these three fields and their facts too: they are public here, so the scan has them itself.
    pub width: u16,
    pub height: u16,
    pub maximum: u16,
    pub pixels: Vec<u16>,
    ghost wide: { 0 < width },
    ghost high: { 0 < height },
    ghost least: { 0 < maximum },
    ghost most: { maximum ≤ 1023 },
    ghost whole: { vec_len pixels ≡ width * height },
    ghost bounded: { within maximum pixels.items ≡ true },
}

impl Scan {
    /// The rows, from the top down.
    pub fn rows(&self) -> ChunksExact<'_, u16>
        ensures pixels { chunks_exact_rest result ≡ self.now.pixels.items }
        ensures width { chunks_exact_size result ≡ self.now.width }
        ensures height { length (chunks_exact_rest result) ≡ self.now.width * self.now.height }
    {
        self.pixels.chunks_exact(usize::from(self.width))
    }

    /// The pixels of the row `y`, from left to right. A row past the last has none.
    pub fn row(&self, y: u16) -> &[u16]
        ensures value { result.now ≡ row_of self.now.width self.now.pixels.items y }
        ensures len { y < self.now.height → length result.now ≡ self.now.width }
        ensures bounded { (x : ℕ) → x < length result.now → slice_index result.now x ≤ self.now.maximum }
    {
        if y < self.height {
            let width = usize::from(self.width);
            let start = usize::from(y) * width;
            &self.pixels[start..start + width]
        } else {
            &[]
        }
    }
}
