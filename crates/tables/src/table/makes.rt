// Tables made: the fresh one, and one from its bins.
ghost use Rattle.std.specs.Prelude.{◌≡◌, ℕ, ◌+◌, ◌-◌, ◌<◌, ◌≤◌, T, length, Decides, MatchOption, nat_lt, slice_index};
ghost use Rattle.std.specs.List.{prefix_len};
ghost use Rattle.tables.specs.Table.{Lawful, given, fresh_table};
ghost use Rattle.tables.specs.Bins.{bounds_in, representatives_in, table_in};
ghost use Rattle.tables.specs.Meaning.{table_of};

use super::{Bin, LevelTable};
use arrayvec::ArrayVec;

// The rules of a table.
fn lawful(levels: u16, bins: &[Bin]) -> bool
    ensures { Decides result (Lawful (table_in levels bins.now)) }
{
    (2..=1024).contains(&levels)
        && (1..=256).contains(&bins.len())
        && rises(bins)
        && bins.last().map(|bin| bin.bound) == Some(levels - 1)
        && shown_below(bins, levels)
}

// Whether each bin's bound is below the next bin's.
fn rises(bins: &[Bin]) -> bool
    ensures { Decides result ((i : ℕ) → i + 1 < length (bounds_in bins.now) → slice_index (bounds_in bins.now) i < slice_index (bounds_in bins.now) (i + 1)) }
{
    bins.is_sorted_by(|low, high| low.bound < high.bound)
}

// Whether each bin is shown as a grey below `limit`.
fn shown_below(bins: &[Bin], limit: u16) -> bool
    ensures { Decides result ((i : ℕ) → i < length (representatives_in bins.now) → slice_index (representatives_in bins.now) i < limit) }
{
    bins.iter().all(|bin| bin.representative < limit)
}

// The lowest bin of each level up to the last bound.
fn bins_of_levels(bins: &[Bin]) -> [u8; 1024]
    requires few { (1 ≤ length bins.now) × (length bins.now ≤ 256) }
    requires rising { (i : ℕ) → i + 1 < length (bounds_in bins.now) → slice_index (bounds_in bins.now) i < slice_index (bounds_in bins.now) (i + 1) }
    requires levels { (i : ℕ) → i < length (bounds_in bins.now) → slice_index (bounds_in bins.now) i < 1024 }
    ensures { (l : ℕ) → l ≤ slice_index (bounds_in bins.now) (length (bounds_in bins.now) - 1) → slice_index result l ≡ prefix_len (λ bound. nat_lt bound l) (bounds_in bins.now) }
{
    let mut of_level = [0; 1024];
    let mut first = 0;
    for (index, bin) in bins.iter().enumerate() {
        let next = usize::from(bin.bound) + 1;
        // The cast loses nothing, which is proved: there are at most 256 bins.
        of_level[first..next].fill(index as u8);
        first = next;
    }
    of_level
}

// Each bound with its representative.
fn paired(bounds: &[u16], representatives: &[u16]) -> ArrayVec<Bin, 256>
    requires as_many { length representatives.now ≡ length bounds.now }
    requires few { length bounds.now ≤ 256 }
    ensures bounds { bounds_in result.items ≡ bounds.now }
    ensures representatives { representatives_in result.items ≡ representatives.now }
{
    let mut bins = ArrayVec::new();
    for (bound, representative) in bounds.iter().zip(representatives) {
        bins.push(Bin {
            bound: *bound,
            representative: *representative,
        });
    }
    bins
}

impl LevelTable {
    // The table of these bins over so many levels, if they keep the rules.
    pub fn of_bins(levels: u16, bins: &[Bin]) -> Option<LevelTable>
        ensures { MatchOption result (Lawful (table_in levels bins.now) → ⊥) (λ t. table_of t ≡ table_in levels bins.now) }
    {
        if !lawful(levels, bins) {
            return None;
        }
        Some(LevelTable {
            levels,
            bins: ArrayVec::try_from(bins).ok()?,
            of_level: bins_of_levels(bins),
        })
    }

    // The table of these bounds and representatives, if they keep the rules: two lists, as C lends them.
    pub fn of(levels: u16, bounds: &[u16], representatives: &[u16]) -> Option<LevelTable>
        ensures { MatchOption result (Lawful (given levels bounds.now representatives.now) → ⊥) (λ t. table_of t ≡ given levels bounds.now representatives.now) }
    {
        // What K, the lengths or two bounds already refuse is refused before the bins are paired.
        if !(2..=1024).contains(&levels)
            || representatives.len() != bounds.len()
            || bounds.len() > 256
        {
            return None;
        }
        if !bounds.is_sorted_by(|low, high| low < high) {
            return None;
        }
        LevelTable::of_bins(levels, paired(bounds, representatives).as_slice())
    }

    // Two levels in one bin, shown as 0.
    pub fn fresh() -> LevelTable
        ensures { table_of result ≡ fresh_table }
    {
        let bin = Bin {
            bound: 1,
            representative: 0,
        };
        LevelTable::of_bins(2, &[bin]).unwrap()
    }
}
