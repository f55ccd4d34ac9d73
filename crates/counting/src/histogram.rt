// How many pixels of a scan stand at each grey level.
ghost use Rattle.std.specs.Prelude.{◌≡◌, ℕ, ◌≤◌, length, take, sum, slice_index};

// Levels are numbered from 0. What exists balances: the total is the sum over the levels. The pixels are an array with their number
// beside it: no call allocates, and a vector of fixed capacity cannot be copied without a way to fail, which a change on a copy
// would pass on. They stand first, so that a copy of them takes no padding along. The rules are ghost fields, which every proof
// above reads off a histogram; by a model they would be hidden, and the contracts of six calls would have to say them. A table and a
// file have a K of 2 to 1,024 levels too, each its own.
#[derive(Drop)]
pub struct Histogram {
    pixels: [u32; 1024],
    total: u32,
    levels: u16,
    ghost range: { (2 ≤ levels) × (levels ≤ 1024) },
    ghost width: { length pixels ≡ 1024 },
    ghost balance: { total ≡ sum (take levels pixels) },
    ghost fits: { total ≤ 4294967295 },
    ghost past: { ((l : ℕ) → levels ≤ l → slice_index pixels l ≡ 0) },
}

mod changes;
mod makes;
mod reads;

pub use changes::first_no_level;
