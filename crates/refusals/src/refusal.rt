// Why a call is refused, with what is carried along; docs/REFUSALS.md has the table.
ghost use Rattle.std.specs.Prelude.{◌≡◌};
ghost use Rattle.refusals.specs.Refusals.{refusal_number};

use thiserror::Error;

#[derive(Clone, Copy, PartialEq, Eq, Debug, Error)]
pub enum Refusal {
    // the number of levels asked for is not from 2 to 1,024
    #[error("{}, {levels} is no number of levels from 2 to 1024", self.number())]
    LevelsOutOfRange { levels: u16 },
    // the first place of a pixel that is not a level
    #[error("{}, the pixel at place {place} is not a level", self.number())]
    NotALevel { place: usize },
    // the total before the row that would pass 4,294,967,295
    #[error("{}, with {total} pixels counted the row would pass 4294967295", self.number())]
    TotalTooLarge { total: u32 },
    // the lowest level that would go below zero
    #[error("{}, level {level} has too few pixels to take off", self.number())]
    LevelBelowZero { level: u16 },
    // the number of bins asked for is not from 1 to 256
    #[error("{}, {most} is no number of bins from 1 to 256", self.number())]
    BinsOutOfRange { most: u16 },
    #[error("{}, no pixel is counted", self.number())]
    NoPixels,
    // the cells that a work list needs
    #[error("{}, each work list needs {needed} cells", self.number())]
    WorkTooShort { needed: usize },
    // the numbers of levels of a histogram and of a table, which differ
    #[error("{}, the histogram has {histogram} levels and the table {table}", self.number())]
    LevelsDiffer { histogram: u16, table: u16 },
    // the first place of an index that is no bin's
    #[error("{}, the index at place {place} is no bin's", self.number())]
    NotABin { place: usize },
    // the length that the output needs
    #[error("{}, the output needs {needed} cells", self.number())]
    OutputTooShort { needed: usize },
    // the length of a weight list, which is not from 1 to 1,024
    #[error("{}, a weight list of {length} bytes is not of 1 to 1024", self.number())]
    WeightsOutOfRange { length: usize },
    // the edition byte of a table file, which is not 5
    #[error("{}, edition {edition} is not 5", self.number())]
    UnknownEdition { edition: u8 },
    // the section in which a table file ends early, and the file's length
    #[error("{}, the file of {length} bytes ends early, in section {section}", self.number())]
    EndsEarly { section: u8, length: usize },
    // the section of a number or an entry that breaks a rule, and the place of its first byte
    #[error("{}, what stands at byte {place} of the file, in section {section}, breaks a rule", self.number())]
    RuleBroken { section: u8, place: usize },
    // the place of the first byte after the last section
    #[error("{}, the file goes on at byte {place}, after its last section", self.number())]
    BytesLeftOver { place: usize },
}

impl Refusal {
    // The row of the refusal table.
    pub fn number(&self) -> u8
        ensures { result ≡ refusal_number self.now }
    {
        match self {
            Refusal::LevelsOutOfRange { .. } => 1,
            Refusal::NotALevel { .. } => 2,
            Refusal::TotalTooLarge { .. } => 3,
            Refusal::LevelBelowZero { .. } => 4,
            Refusal::BinsOutOfRange { .. } => 5,
            Refusal::NoPixels => 6,
            Refusal::WorkTooShort { .. } => 7,
            Refusal::LevelsDiffer { .. } => 8,
            Refusal::NotABin { .. } => 9,
            Refusal::OutputTooShort { .. } => 10,
            Refusal::WeightsOutOfRange { .. } => 11,
            Refusal::UnknownEdition { .. } => 12,
            Refusal::EndsEarly { .. } => 13,
            Refusal::RuleBroken { .. } => 14,
            Refusal::BytesLeftOver { .. } => 15,
        }
    }
}
