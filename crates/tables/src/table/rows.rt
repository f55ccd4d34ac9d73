// Rows of pixels turned into bin indices, and indices into greys.
// By index: a proof knows nothing of what was written through `iter_mut`. Indexing and showing share no function: it would take a
// closure that may be called only at the row's items, and its contract would be longer than both loops.
ghost use Rattle.std.specs.Prelude.{◌≡◌, ℕ, ◌<◌, length, MatchOption, nat_lt};
ghost use Rattle.std.specs.List.{prefix_len};
ghost use Rattle.counting.specs.Outputs.{Wrote};
ghost use Rattle.tables.specs.Meaning.{table_of};
ghost use Rattle.tables.specs.Rows.{indexed, greys_of, index_row, show_row, Reshown};

use super::LevelTable;
use counting::first_no_level;
use refusals::Refusal;

// The first place of an index that is not below `bins`. One search over bytes and pixels would need a trait that says which number
// an item is.
fn first_no_bin(bins: u16, indices: &[u8]) -> Option<usize>
    ensures { MatchOption result (prefix_len (λ i. nat_lt i bins) indices.now ≡ length indices.now) (λ place. (place ≡ prefix_len (λ i. nat_lt i bins) indices.now) × (place < length indices.now)) }
{
    indices.iter().position(|index| u16::from(*index) >= bins)
}

impl LevelTable {
    // Writes the bin of each pixel; gives how many were written.
    pub fn index(&self, row: &[u16], out: &mut [u8]) -> Result<usize, Refusal>
        ensures { Wrote (index_row (table_of self.now) row.now (length out.old)) (indexed (table_of self.now) row.now) result out.old out.new }
    {
        if let Some(place) = first_no_level(self.levels, row) {
            return Err(Refusal::NotALevel { place });
        }
        if out.len() < row.len() {
            return Err(Refusal::OutputTooShort { needed: row.len() });
        }
        for (i, pixel) in row.iter().enumerate() {
            out[i] = self.of_level[usize::from(*pixel)];
        }
        Ok(row.len())
    }

    // Writes the grey of each index; gives how many were written.
    pub fn show(&self, indices: &[u8], out: &mut [u16]) -> Result<usize, Refusal>
        ensures { Wrote (show_row (table_of self.now) indices.now (length out.old)) (greys_of (table_of self.now) indices.now) result out.old out.new }
    {
        if let Some(place) = first_no_bin(self.bins(), indices) {
            return Err(Refusal::NotABin { place });
        }
        if out.len() < indices.len() {
            return Err(Refusal::OutputTooShort {
                needed: indices.len(),
            });
        }
        let bins = self.as_slice();
        for (i, index) in indices.iter().enumerate() {
            out[i] = bins[usize::from(*index)].representative;
        }
        Ok(indices.len())
    }

    // Writes the bin of each pixel and the grey that the bin is shown as; gives how many of each.
    pub fn index_and_show(
        &self,
        row: &[u16],
        indices: &mut [u8],
        greys: &mut [u16],
    ) -> Result<usize, Refusal>
        ensures { Reshown (table_of self.now) row.now result indices.old indices.new greys.old greys.new }
    {
        if let Some(place) = first_no_level(self.levels, row) {
            return Err(Refusal::NotALevel { place });
        }
        if greys.len() < row.len() {
            return Err(Refusal::OutputTooShort { needed: row.len() });
        }
        let written = self.index(row, indices)?;
        self.show(&indices[..written], greys)
    }
}
