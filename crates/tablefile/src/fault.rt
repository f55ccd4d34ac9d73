// What is wrong with a file: the number reader's fault inside a section's, and that inside the file's.
// `from_gives` says that a fault is the same row of the refusal table inside another. It is why each `From` is written out: one that
// the kit's derive writes has no contract, and `?` would say nothing of the fault.
ghost use Rattle.std.specs.Prelude.{◌≡◌};
ghost use Rattle.counting.specs.Outputs.{row_of};
ghost use Rattle.tablefile.specs.Rows.{number_row, section_row, head_row, file_row};

use refusals::Refusal;

// Of a number: the file, of this length, ends before it does.
#[derive(Clone, Copy)]
pub struct CutShort {
    pub length: usize,
}

// Of a section: a number, or a rule. `place` is the first byte of what breaks a rule.
#[derive(Clone, Copy)]
pub enum SectionFault<const SECTION: u8> {
    Number(CutShort),
    Rule { place: usize },
}

// Of section 0, the edition and the number of levels.
#[derive(Clone, Copy)]
pub enum HeadFault {
    Edition { edition: u8 },
    Section(SectionFault<0>),
}

// Of section 1, the levels, and of section 2, the bins.
pub type LevelsFault = SectionFault<1>;

pub type BinsFault = SectionFault<2>;

// Of the whole file: a section's, or bytes after the last.
#[derive(Clone, Copy)]
pub enum FileFault {
    Head(HeadFault),
    Levels(LevelsFault),
    Bins(BinsFault),
    // the place of the first byte after the last section
    LeftOver { place: usize },
}

impl<const SECTION: u8> From<CutShort> for SectionFault<SECTION> {
    ghost from_gives = { λ x y. section_row SECTION y ≡ number_row SECTION x };

    fn from(fault: CutShort) -> SectionFault<SECTION> {
        SectionFault::Number(fault)
    }
}

impl From<CutShort> for HeadFault {
    ghost from_gives = { λ x y. head_row y ≡ number_row 0 x };

    fn from(fault: CutShort) -> HeadFault {
        HeadFault::Section(SectionFault::Number(fault))
    }
}

impl From<HeadFault> for FileFault {
    ghost from_gives = { λ x y. file_row y ≡ head_row x };

    fn from(fault: HeadFault) -> FileFault {
        FileFault::Head(fault)
    }
}

impl From<LevelsFault> for FileFault {
    ghost from_gives = { λ x y. file_row y ≡ section_row 1 x };

    fn from(fault: LevelsFault) -> FileFault {
        FileFault::Levels(fault)
    }
}

impl From<BinsFault> for FileFault {
    ghost from_gives = { λ x y. file_row y ≡ section_row 2 x };

    fn from(fault: BinsFault) -> FileFault {
        FileFault::Bins(fault)
    }
}

// At the end a fault is told as a refusal.
impl<const SECTION: u8> From<SectionFault<SECTION>> for Refusal {
    ghost from_gives = { λ x y. row_of y ≡ section_row SECTION x };

    fn from(fault: SectionFault<SECTION>) -> Refusal {
        match fault {
            SectionFault::Number(CutShort { length }) => Refusal::EndsEarly {
                section: SECTION,
                length,
            },
            SectionFault::Rule { place } => Refusal::RuleBroken {
                section: SECTION,
                place,
            },
        }
    }
}

impl From<FileFault> for Refusal {
    ghost from_gives = { λ x y. row_of y ≡ file_row x };

    fn from(fault: FileFault) -> Refusal {
        match fault {
            FileFault::Head(HeadFault::Edition { edition }) => Refusal::UnknownEdition { edition },
            FileFault::Head(HeadFault::Section(fault)) => fault.into(),
            FileFault::Levels(fault) => fault.into(),
            FileFault::Bins(fault) => fault.into(),
            FileFault::LeftOver { place } => Refusal::BytesLeftOver { place },
        }
    }
}
