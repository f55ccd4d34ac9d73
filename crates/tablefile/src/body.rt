// The sections after the head of a file, read one after the other.
ghost use Rattle.std.specs.Prelude.{◌≤◌, length};

use crate::fault::{BinsFault, CutShort, FileFault, HeadFault, LevelsFault, SectionFault};
use crate::numbers::{EDITION, number};
use arrayvec::ArrayVec;
use counting::Histogram;
use tables::{Bin, LevelTable};

// A file of so many levels, and the place of the byte that is read next. A part with a fault ends the reading.
#[derive(Drop)]
pub(crate) struct Body<'a> {
    file: &'a [u8],
    levels: u16,
    place: usize,
    ghost range: { (2 ≤ levels) × (levels ≤ 1024) },
    ghost within: { place ≤ length file.now },
}

// An entry of section 1.
#[derive(Clone, Copy)]
struct LevelEntry {
    level: u16,
    pixels: u32,
}

impl<'a> Body<'a> {
    ghost use Rattle.std.specs.Prelude.{◌≡◌, ◌+◌, ◌<◌};
    ghost use Rattle.tablefile.specs.Numbers.{word_at, long_at};
    ghost use Rattle.tablefile.specs.Faults.{part_fault, head_fault, level_rule, levels_fault, bin_rule, bins_fault, rest_fault};
    ghost use Rattle.tablefile.specs.Rows.{section_row, head_row, file_row};
    ghost use Rattle.tablefile.specs.Parts.{Judged, TookNumber, GotBody, GotLevel, GotPixels, GotHistogram, GotBin, GotBins, GotTable};

    // Section 0: the edition, and the number of levels.
    pub(crate) fn after_head(file: &'a [u8]) -> Result<Body<'a>, HeadFault>
        ensures { Judged head_row (head_fault file.now) (GotBody file.now) result }
    {
        let [edition] = number::<1>(file, 0)?;
        if edition != EDITION {
            return Err(HeadFault::Edition { edition });
        }
        let levels = u16::from_be_bytes(number(file, 1)?);
        if !(2..=1024).contains(&levels) {
            return Err(HeadFault::Section(SectionFault::Rule { place: 1 }));
        }
        Ok(Body {
            file,
            levels,
            place: 3,
        })
    }

    // The bytes of the number at the body's place, which then stands after them.
    fn number<const N: usize>(&mut self) -> Result<[u8; N], CutShort>
        ensures { TookNumber self.old N self.new result }
    {
        let bytes = number(self.file, self.place)?;
        self.place += N;
        Ok(bytes)
    }

    // An entry of section 1, with the level that it has to reach and the pixels of the entries before it. The entries of section 2
    // have other numbers and rules and need other facts of those before them, so they have a reader of their own.
    fn level_entry(&mut self, least: u16, before: u32) -> Result<LevelEntry, LevelsFault>
        ensures { Judged (section_row 1) (part_fault self.old.file.now 1 self.old.place 6 (level_rule self.old.levels least before (word_at self.old.file.now self.old.place) (long_at self.old.file.now (self.old.place + 2)))) (GotLevel self.old before self.new) result }
    {
        let place = self.place;
        let level = u16::from_be_bytes(self.number()?);
        let pixels = u32::from_be_bytes(self.number()?);
        if !(least..self.levels).contains(&level) || pixels == 0 || pixels > u32::MAX - before {
            return Err(LevelsFault::Rule { place });
        }
        Ok(LevelEntry { level, pixels })
    }

    // The entries of section 1: the pixels that they put at each level.
    fn pixels(&mut self) -> Result<[u32; 1024], LevelsFault>
        requires { self.old.place ≡ 3 }
        ensures { Judged (section_row 1) (levels_fault self.old.file.now self.old.levels) (GotPixels self.old self.new) result }
    {
        let place = self.place;
        let counted = u16::from_be_bytes(self.number()?);
        if counted > self.levels {
            return Err(LevelsFault::Rule { place });
        }
        // by level and not as a list, since the levels between the entries have no pixels
        let mut pixels = [0; 1024];
        let mut least = 0;
        let mut total = 0;
        // A number of turns: the entries are read on from the file, and there is no list of them.
        for _ in 0..counted {
            let entry = self.level_entry(least, total)?;
            pixels[usize::from(entry.level)] = entry.pixels;
            least = entry.level + 1;
            total += entry.pixels;
        }
        Ok(pixels)
    }

    // Section 1: the histogram whose levels with pixels are the entries.
    pub(crate) fn histogram(&mut self) -> Result<Histogram, LevelsFault>
        requires { self.old.place ≡ 3 }
        ensures { Judged (section_row 1) (levels_fault self.old.file.now self.old.levels) (GotHistogram self.old self.new) result }
    {
        let pixels = self.pixels()?;
        // The levels are 2 to 1,024, and no entry has taken the total past its limit.
        Ok(Histogram::of(&pixels[..usize::from(self.levels)]).unwrap())
    }

    // An entry of section 2, with the bound that it has to reach and whether it is the last. The last has one rule more, which is tested
    // with the entry and not after all of them, since its fault names the entry's place.
    fn bin_entry(&mut self, least: u16, last: bool) -> Result<Bin, BinsFault>
        ensures { Judged (section_row 2) (part_fault self.old.file.now 2 self.old.place 4 (bin_rule self.old.levels least last (word_at self.old.file.now self.old.place) (word_at self.old.file.now (self.old.place + 2)))) (GotBin self.old self.new) result }
    {
        let place = self.place;
        let bound = u16::from_be_bytes(self.number()?);
        let representative = u16::from_be_bytes(self.number()?);
        if !(least..self.levels).contains(&bound)
            || representative >= self.levels
            || (last && bound + 1 != self.levels)
        {
            return Err(BinsFault::Rule { place });
        }
        Ok(Bin {
            bound,
            representative,
        })
    }

    // The entries of section 2: one for each bin, lowest bound first.
    fn bins(&mut self) -> Result<ArrayVec<Bin, 256>, BinsFault>
        ensures { Judged (section_row 2) (bins_fault self.old.file.now self.old.levels self.old.place) (λ bins. GotBins self.old self.new bins.items) result }
    {
        let place = self.place;
        let count = u16::from_be_bytes(self.number()?);
        if !(1..=256).contains(&count) || count > self.levels {
            return Err(BinsFault::Rule { place });
        }
        let mut bins = ArrayVec::new();
        let mut least = 0;
        // By number: the entries are read on from the file, there is no list of them, and the number tells which is the last.
        for i in 0..count {
            let bin = self.bin_entry(least, i + 1 == count)?;
            bins.push(bin);
            least = bin.bound + 1;
        }
        Ok(bins)
    }

    // Section 2: the table whose bins are the entries.
    pub(crate) fn table(&mut self) -> Result<LevelTable, BinsFault>
        ensures { Judged (section_row 2) (bins_fault self.old.file.now self.old.levels self.old.place) (GotTable self.old self.new) result }
    {
        let bins = self.bins()?;
        // Each entry has kept the rules of a table.
        Ok(LevelTable::of_bins(self.levels, &bins).unwrap())
    }

    // That nothing is left to read, or the place of the next byte.
    pub(crate) fn end(&self) -> Result<(), FileFault>
        ensures { Judged file_row (rest_fault self.now.file.now self.now.place) (λ _. length self.now.file.now ≤ self.now.place) result }
    {
        if self.place < self.file.len() {
            return Err(FileFault::LeftOver { place: self.place });
        }
        Ok(())
    }
}
