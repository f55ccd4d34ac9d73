// What C can call, by way of the static library `ffi_c`. A scan is one list of pixels whose rows of `width` pixels stand one after
// the other; no call requires anything of its arguments. The arguments stand one by one and the lists side by side, as C passes
// them, and what a call leaves of a list is said in its contract, since C has no type to hold it.
#![tactic(auto)]

mod cells;
mod drawings;
mod drawn;
mod files;
mod rows;
mod scans;

pub use drawings::{slip_draw, slip_draw_by_trial};
pub use drawn::Drawn;
pub use files::{slip_read, slip_write};
pub use scans::{slip_count, slip_index, slip_show};
