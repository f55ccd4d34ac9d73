// Table files: one whole file, and what each damaged one is answered.
use counting::Histogram;
use refusals::Refusal;
use std::process::Abort;
use tablefile::{read, write};
use tables::LevelTable;

const LENGTH: usize = 39;

// Eight levels: three pixels at level 1, one each at 3 and 4, four at 7; two bins.
const FILE: [u8; LENGTH] = [
    5, 0, 8, // edition and levels
    0, 4, 0, 1, 0, 0, 0, 3, 0, 3, 0, 0, 0, 1, 0, 4, 0, 0, 0, 1, 0, 7, 0, 0, 0, 4, // counted levels
    0, 2, 0, 4, 0, 2, 0, 7, 0, 7, // bins
];

fn refused(rt: &impl Abort, file: &[u8], refusal: Refusal) {
    let mut histogram = Histogram::fresh();
    let mut table = LevelTable::fresh();
    assert_eq!(rt; read(file, &mut histogram, &mut table), Err(refusal));
    assert_eq!(rt; histogram.levels(), 2);
    assert_eq!(rt; table.levels(), 2);
}

// The file with one byte changed.
fn with_byte(place: usize, value: u8) -> [u8; LENGTH] {
    let mut file = FILE;
    if place < LENGTH {
        file[place] = value;
    }
    file
}

#[test]
fn a_file_is_read_and_written_again(rt: HostRuntime) {
    let mut histogram = Histogram::fresh();
    let mut table = LevelTable::fresh();
    assert_eq!(rt; read(&FILE, &mut histogram, &mut table), Ok(()));
    assert_eq!(rt; histogram.total(), 9);
    assert_eq!(rt; table.bins(), 2);
    let mut out = [9u8; LENGTH + 1];
    assert_eq!(rt; write(&histogram, &table, &mut out), Ok(LENGTH));
    assert_eq!(rt; &out[..LENGTH], FILE.as_slice());
    assert_eq!(rt; out[LENGTH], 9);
    let mut short = [0u8; LENGTH - 1];
    assert_eq!(rt;
        write(&histogram, &table, &mut short),
        Err(Refusal::OutputTooShort { needed: LENGTH })
    );
    let differ = Refusal::LevelsDiffer {
        histogram: 2,
        table: 8,
    };
    assert_eq!(rt; write(&Histogram::fresh(), &table, &mut out), Err(differ));
}

#[test]
fn a_file_cut_at_any_byte_ends_early(rt: HostRuntime) {
    // The loop is over lengths, not over a list.
    for length in 0..LENGTH {
        let section = match length {
            0..=2 => 0,
            3..=28 => 1,
            _ => 2,
        };
        refused(
            &rt,
            &FILE[0..length],
            Refusal::EndsEarly { section, length },
        );
    }
}

#[test]
fn a_byte_that_breaks_a_rule_is_named(rt: HostRuntime) {
    // the byte, its value, and the section and the place that are named
    let cases = [
        (2, 1, 0, 1),
        (1, 4, 0, 1),
        (4, 9, 1, 3),
        (6, 8, 1, 5),
        (10, 0, 1, 5),
        (7, 255, 1, 11),
        (24, 4, 1, 23),
        (24, 8, 1, 23),
        (28, 0, 1, 23),
        (30, 0, 2, 29),
        (29, 1, 2, 29),
        (30, 9, 2, 29),
        (32, 8, 2, 31),
        (34, 8, 2, 31),
        (36, 4, 2, 35),
        (36, 6, 2, 35),
        (38, 8, 2, 35),
    ];
    for (byte, value, section, place) in cases {
        let mut file = with_byte(byte, value);
        if byte == 7 {
            // level 1 has as many pixels as a histogram can hold, so the next entry passes the limit
            file[8..=10].fill(255);
        }
        refused(&rt, &file, Refusal::RuleBroken { section, place });
    }
}

#[test]
fn what_is_met_first_is_named(rt: HostRuntime) {
    refused(
        &rt,
        &with_byte(0, 4),
        Refusal::UnknownEdition { edition: 4 },
    );
    // a level that breaks a rule, in an entry that is cut short and in one that is not
    let mut spoiled = FILE;
    spoiled[6] = 8;
    refused(
        &rt,
        &spoiled[0..9],
        Refusal::EndsEarly {
            section: 1,
            length: 9,
        },
    );
    refused(
        &rt,
        &spoiled[0..20],
        Refusal::RuleBroken {
            section: 1,
            place: 5,
        },
    );
    let mut longer = [0u8; LENGTH + 1];
    longer[0..LENGTH].copy_from_slice(&FILE);
    refused(&rt, &longer, Refusal::BytesLeftOver { place: LENGTH });
}
