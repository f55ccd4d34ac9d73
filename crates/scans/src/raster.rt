// The raster of a PGM file: the samples, and the pixels that they give. A sample takes one byte where the maximum value is below
// 256, else two, the more significant first. Bytes and pairs of bytes are two types, so what goes over the samples has a chain
// for each size.
ghost use Rattle.std.specs.Prelude.{◌≡◌, ◌*◌, true, length, drop, IfOk, Some, None, MatchResult};
ghost use Rattle.scans.specs.Pgm.{raster_fault};
ghost use Rattle.scans.specs.Raster.{sample_size, pixels_of, within};

use crate::header::{Header, is_white};
use crate::pgm::Fault;
use crate::scan::Scan;
use std::alloc::{AllocError, Global};

/// The samples of a scan: as many as its header says, and none above the maximum value.
#[derive(Drop)]
pub struct Raster<'a> {
    header: Header,
    samples: &'a [u8],
    ghost whole: { length samples.now ≡ header.width * header.height * sample_size header.maximum },
    ghost bounded: { within header.maximum (pixels_of header.maximum samples.now) ≡ true },
}

impl<'a> Raster<'a> {
    /// The raster in the bytes after the header: one byte of white space, and then the samples up to the end.
    pub fn read(header: Header, bytes: &'a [u8]) -> Result<Raster<'a>, Fault>
        ensures { MatchResult result (λ r. (raster_fault header.width header.height header.maximum bytes.now ≡ None) × (r.header ≡ header) × (r.samples.now ≡ drop 1 bytes.now)) (λ f. raster_fault header.width header.height header.maximum bytes.now ≡ Some f) }
    {
        let samples = match bytes.split_first() {
            Some((separator, samples)) if is_white(*separator) => samples,
            _ => return Err(Fault::NoSeparator),
        };
        let len = header.raster_len();
        if samples.len() < len {
            Err(Fault::EndsEarly)
        } else if samples.len() > len {
            Err(Fault::LeftOver)
        } else if !all_within(header.maximum, samples) {
            Err(Fault::SampleTooLarge)
        } else {
            Ok(Raster { header, samples })
        }
    }

    /// The scan of these samples.
    pub fn to_scan(&self, heap: Global) -> Result<Scan, AllocError>
        ensures { IfOk result (λ s. (s.width ≡ self.now.header.width) × (s.height ≡ self.now.header.height) × (s.maximum ≡ self.now.header.maximum) × (s.pixels.items ≡ pixels_of self.now.header.maximum self.now.samples.now)) }
    {
        let header = self.header;
        Ok(Scan {
            width: header.width,
            height: header.height,
            maximum: header.maximum,
            pixels: decode(heap, header.maximum, self.samples)?,
        })
    }
}

/// How many bytes one sample takes.
pub fn bytes_per_sample(maximum: u16) -> usize
    ensures { result ≡ sample_size maximum }
{
    if maximum < 256 { 1 } else { 2 }
}

// Whether no pixel is above the maximum value.
fn all_within(maximum: u16, samples: &[u8]) -> bool
    ensures { result ≡ within maximum (pixels_of maximum samples.now) }
{
    if maximum < 256 {
        samples.iter().all(|sample| u16::from(*sample) <= maximum)
    } else {
        let (samples, _) = samples.as_chunks();
        samples
            .iter()
            .all(|sample| u16::from_be_bytes(*sample) <= maximum)
    }
}

// The pixels that samples give.
fn decode(heap: Global, maximum: u16, samples: &[u8]) -> Result<Vec<u16>, AllocError>
    ensures { IfOk result (λ v. v.items ≡ pixels_of maximum samples.now) }
{
    // All memory is taken first: where there is too little, `collect` would fill what there is before it gives up.
    let mut pixels = Vec::with_capacity(heap, samples.len() / bytes_per_sample(maximum))?;
    if maximum < 256 {
        pixels.extend(samples.iter().map(|sample| u16::from(*sample)))?;
        Ok(pixels)
    } else {
        let (samples, _) = samples.as_chunks();
        pixels.extend(samples.iter().map(|sample| u16::from_be_bytes(*sample)))?;
        Ok(pixels)
    }
}
