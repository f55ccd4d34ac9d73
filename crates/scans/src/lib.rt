// Grey scans in memory, and how one is read from a PGM file.
#![tactic(auto)]

mod header;
mod pgm;
mod raster;
mod scan;

pub use pgm::{Fault, Field, read};
pub use scan::Scan;
