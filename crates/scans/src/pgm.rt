// Reads grey scans in the binary form of the PGM format.
ghost use Rattle.scans.specs.Grammar.{Agrees};
ghost use Rattle.scans.specs.Pgm.{Reads};

use crate::header::Header;
use crate::raster::Raster;
use crate::scan::Scan;
use std::alloc::{AllocError, Global};
use std::fmt;
use thiserror::Error;

/// A number of the header.
#[derive(Clone, Copy, Debug, PartialEq, Eq)]
pub enum Field {
    Width,
    Height,
    Maximum,
}

/// What is wrong with bytes that hold no scan.
#[derive(Clone, Copy, Debug, PartialEq, Eq, Error)]
pub enum Fault {
    /// They do not begin with `P5`.
    #[error("the input does not begin with P5")]
    NotP5,
    /// The number has no digit, or no white space or comment in front of it.
    #[error("the {0} is missing")]
    NumberMissing(Field),
    /// The number is above 65,535.
    #[error("the {0} is above 65535")]
    NumberTooLarge(Field),
    /// The width or the height is 0.
    #[error("the width or the height is 0")]
    NoPixels,
    /// The maximum value is 0 or above 1,023.
    #[error("the maximum value is not one of 1 to 1023")]
    MaximumOutOfRange,
    /// No white space follows the maximum value.
    #[error("no white space follows the maximum value")]
    NoSeparator,
    /// There are fewer bytes than the samples take.
    #[error("the input ends before the last pixel")]
    EndsEarly,
    /// There are more bytes than the samples take.
    #[error("bytes are left over after the last pixel")]
    LeftOver,
    /// A sample is above the maximum value.
    #[error("a pixel is above the maximum value")]
    SampleTooLarge,
}

// By hand, since the derive of `Display` makes its type an error too, and a field is none.
impl fmt::Display for Field {
    fn fmt<W: fmt::Write>(&self, f: &mut fmt::Formatter<W>) -> fmt::Result {
        f.write_str(match self {
            Field::Width => "width",
            Field::Height => "height",
            Field::Maximum => "maximum value",
        })
    }
}

/// Reads a whole file. The outer result says what the file is: a scan, or the first fault in it.
/// The inner one is that scan, unless memory for its pixels is short.
pub fn read(heap: Global, bytes: &[u8]) -> Result<Result<Scan, AllocError>, Fault>
    ensures reads { Reads bytes.now result }
    ensures agrees { Agrees bytes.now result }
{
    let (header, rest) = Header::read(bytes)?;
    let raster = Raster::read(header, rest)?;
    Ok(raster.to_scan(heap))
}
