// The level table.
ghost use Rattle.std.specs.Prelude.{◌≡◌, ℕ, ◌+◌, ◌-◌, ◌<◌, ◌≤◌, length, slice_index, slice_index_or};
ghost use Rattle.tables.specs.Table.{bin_of};
ghost use Rattle.tables.specs.Bins.{table_in};

use arrayvec::ArrayVec;

mod makes;
mod reads;
mod rows;

// A bin of a table: the highest level that belongs to it, and the grey that stands for it.
#[derive(Clone, Copy, Default, PartialEq, Eq, Debug)]
pub struct Bin {
    pub bound: u16,
    pub representative: u16,
}

// Bins are numbered from 0. `of_level` has the bin of each level, so that a row is indexed by look-up. The rules are ghost fields,
// which every proof above reads off a table; by a model they would be hidden, and three contracts would have to say them.
#[derive(Drop)]
pub struct LevelTable {
    levels: u16,
    bins: ArrayVec<Bin, 256>,
    of_level: [u8; 1024],
    ghost range: { (2 ≤ levels) × (levels ≤ 1024) },
    ghost few: { (1 ≤ length bins.items) × (length bins.items ≤ 256) },
    ghost rising: { ((i : ℕ) → i + 1 < length bins.items → slice_index (table_in levels bins.items).bounds i < slice_index (table_in levels bins.items).bounds (i + 1)) },
    ghost ends: { slice_index_or (table_in levels bins.items).bounds (length bins.items - 1) 0 + 1 ≡ levels },
    ghost greys: { ((i : ℕ) → i < length bins.items → slice_index (table_in levels bins.items).representatives i < levels) },
    ghost lowest: { ((l : ℕ) → l < levels → slice_index of_level l ≡ bin_of (table_in levels bins.items) l) },
}
