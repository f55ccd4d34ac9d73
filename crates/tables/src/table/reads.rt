// What can be read off a table.
ghost use Rattle.std.specs.Prelude.{◌≡◌, length};
ghost use Rattle.tables.specs.Table.{bound_of, representative_of};
ghost use Rattle.tables.specs.Bins.{bounds_in, representatives_in};
ghost use Rattle.tables.specs.Meaning.{table_of};

use super::{Bin, LevelTable};

impl LevelTable {
    pub fn levels(&self) -> u16
        ensures { result ≡ (table_of self.now).levels }
    {
        self.levels
    }

    // The number of bins. The cast loses nothing, which is proved: there are at most 256.
    pub fn bins(&self) -> u16
        ensures { result ≡ length (table_of self.now).bounds }
    {
        self.bins.len() as u16
    }

    // The bins, from the lowest.
    pub fn as_slice(&self) -> &[Bin]
        ensures bounds { bounds_in result.now ≡ (table_of self.now).bounds }
        ensures representatives { representatives_in result.now ≡ (table_of self.now).representatives }
    {
        self.bins.as_slice()
    }

    // The highest level of a bin; 0 past the last bin.
    pub fn bound(&self, bin: u16) -> u16
        ensures { result ≡ bound_of (table_of self.now) bin }
    {
        self.bins.get(usize::from(bin)).map_or(0, |bin| bin.bound)
    }

    // The grey that stands for a bin; 0 past the last bin.
    pub fn representative(&self, bin: u16) -> u16
        ensures { result ≡ representative_of (table_of self.now) bin }
    {
        self.bins
            .get(usize::from(bin))
            .map_or(0, |bin| bin.representative)
    }
}
