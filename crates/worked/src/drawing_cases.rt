// Tables drawn up from known histograms, each with the bins and the tally that it must have.
use counting::Histogram;
use drawing::draw;
use pricing::{
    Allowance, Ceiling, CentroidPricer, Distance, Pricer, Squared, Tally, Total, TrialPricer,
    Weight, WeightList, Worst,
};
use refusals::Refusal;
use std::alloc::Global;
use std::fmt::Debug;
use std::process::Abort;
use std::test::Fail;
use tables::{Bin, LevelTable};

// The bin up to this level, shown as this grey.
fn bin(bound: u16, representative: u16) -> Bin {
    Bin {
        bound,
        representative,
    }
}

// The histogram of these pixels at eight levels.
fn counted(pixels: &[u16]) -> Result<Histogram, Fail> {
    let mut histogram = Histogram::fresh();
    histogram.open(8)?;
    histogram.count(pixels)?;
    Ok(histogram)
}

// Three pixels at level 1, one each at 3 and 4, and four at 7.
fn nine_pixels() -> Result<Histogram, Fail> {
    counted(&[1, 1, 1, 3, 4, 7, 7, 7, 7])
}

// Draws at most `most` bins, which are these and have this tally.
fn check<P: Pricer>(
    rt: &impl Abort,
    heap: Global,
    pricer: &mut P,
    histogram: &Histogram,
    most: u16,
    bins: &[Bin],
    tally: P::Kind,
) -> Result<(), Fail>
where
    P::Kind: PartialEq + Debug,
{
    let mut table = LevelTable::fresh();
    let mut tallies = vec![in heap; P::Kind::neutral(); 16]?;
    let receipt = draw(
        pricer,
        histogram,
        most,
        tallies.as_mut_slice(),
        &mut [0; 16],
        &mut table,
    )?;
    assert_eq!(rt; receipt.tally, tally);
    assert_eq!(rt; table.as_slice(), bins);
    Ok(())
}

#[test]
fn squares_are_summed(rt: HostRuntime) -> Result<(), Fail> {
    let histogram = nine_pixels()?;
    let mut centroid = CentroidPricer::new();
    let mut trial = TrialPricer::<Squared, Total>::new(Squared::new());
    let each: &[Bin] = &[bin(1, 1), bin(3, 3), bin(4, 4), bin(7, 7)];
    let cases: [(u16, &[Bin], u64); 5] = [
        (1, &[bin(7, 4)], 64),
        (2, &[bin(4, 2), bin(7, 7)], 8),
        (3, &[bin(1, 1), bin(4, 4), bin(7, 7)], 1),
        (4, each, 0),
        (256, each, 0),
    ];
    for (most, bins, tally) in cases {
        let tally = Total { sum: tally };
        check(
            &rt,
            rt.alloc(),
            &mut centroid,
            &histogram,
            most,
            bins,
            tally,
        )?;
        check(&rt, rt.alloc(), &mut trial, &histogram, most, bins, tally)?;
    }
    Ok(())
}

#[test]
fn the_higher_of_two_representatives(rt: HostRuntime) -> Result<(), Fail> {
    let pair = counted(&[3, 4])?;
    check(
        &rt,
        rt.alloc(),
        &mut CentroidPricer::new(),
        &pair,
        1,
        &[bin(7, 4)],
        Total { sum: 1 },
    )
}

#[test]
fn other_measures(rt: HostRuntime) -> Result<(), Fail> {
    let histogram = nine_pixels()?;
    let mut distance = TrialPricer::<Distance, Total>::new(Distance::new());
    check(
        &rt,
        rt.alloc(),
        &mut distance,
        &histogram,
        1,
        &[bin(7, 4)],
        Total { sum: 22 },
    )?;
    let mut allowance = TrialPricer::<Allowance<Squared>, Total>::new(Allowance::new(
        Squared::new(),
        4,
    ));
    check(
        &rt,
        rt.alloc(),
        &mut allowance,
        &histogram,
        1,
        &[bin(7, 4)],
        Total { sum: 35 },
    )?;
    let mut weights = WeightList::fresh();
    weights.fill(&[1, 1, 1, 1, 1, 1, 1, 0])?;
    let mut weight = TrialPricer::<Weight<Squared>, Total>::new(Weight::new(
        Squared::new(),
        weights,
    ));
    check(
        &rt,
        rt.alloc(),
        &mut weight,
        &histogram,
        1,
        &[bin(7, 2)],
        Total { sum: 8 },
    )
}

#[test]
fn the_largest_error(rt: HostRuntime) -> Result<(), Fail> {
    let histogram = nine_pixels()?;
    let mut worst = TrialPricer::<Squared, Worst>::new(Squared::new());
    check(
        &rt,
        rt.alloc(),
        &mut worst,
        &histogram,
        2,
        &[bin(4, 3), bin(7, 7)],
        Worst { error: 4 },
    )?;
    let mut ceiling = TrialPricer::<Ceiling<Squared>, Worst>::new(Ceiling::new(Squared::new(), 9));
    check(
        &rt,
        rt.alloc(),
        &mut ceiling,
        &histogram,
        1,
        &[bin(7, 7)],
        Worst { error: 9 },
    )
}

#[test]
fn refused_drawings_leave_the_table(rt: HostRuntime) -> Result<(), Fail> {
    let histogram = nine_pixels()?;
    let mut pricer = CentroidPricer::new();
    let mut table = LevelTable::fresh();
    let none = Total::neutral();
    let receipt = draw(
        &mut pricer,
        &histogram,
        3,
        &mut [none; 12],
        &mut [0; 12],
        &mut table,
    )?;
    assert_eq!(rt; (receipt.priced, receipt.compared), (7, 7));
    // Two bins for four levels take eight cells.
    draw(
        &mut pricer,
        &histogram,
        2,
        &mut [none; 8],
        &mut [0; 8],
        &mut table,
    )?;
    let short = draw(
        &mut pricer,
        &histogram,
        2,
        &mut [none; 7],
        &mut [0; 8],
        &mut table,
    );
    assert_eq!(rt; short, Err(Refusal::WorkTooShort { needed: 8 }));
    for most in [0, 257] {
        let refused = draw(
            &mut pricer,
            &histogram,
            most,
            &mut [none; 8],
            &mut [0; 8],
            &mut table,
        );
        assert_eq!(rt; refused, Err(Refusal::BinsOutOfRange { most }));
    }
    assert_eq!(rt; table.as_slice(), [bin(4, 2), bin(7, 7)].as_slice());
    Ok(())
}
