// Runs of calls on one histogram, each call with the answer that it must have.
use counting::{Answer, Call, Histogram, replay};
use refusals::Refusal;
use std::process::Abort;

// Makes the calls on a fresh histogram in `place`, and holds each answer against the expected one.
fn run(rt: &impl Abort, calls: &[Call<'_>], expected: &[Answer], place: &mut Histogram) {
    let mut answers = [Ok(None); 16];
    replay(calls, &mut answers, place);
    // Answer by answer, so that a failure shows the one that differs.
    for (answer, wanted) in answers.iter().zip(expected.iter()) {
        assert_eq!(rt; *answer, *wanted);
    }
}

#[test]
fn levels_are_two_to_1024(rt: HostRuntime) {
    let mut place = Histogram::fresh();
    for (levels, accepted) in [
        (0, false),
        (1, false),
        (2, true),
        (1024, true),
        (1025, false),
        (65535, false),
    ] {
        let wanted = if accepted {
            Ok(())
        } else {
            Err(Refusal::LevelsOutOfRange { levels })
        };
        assert_eq!(rt; place.open(levels), wanted);
    }
    assert_eq!(rt; place.levels(), 1024);
}

#[test]
fn rows_are_taken_whole_or_not_at_all(rt: HostRuntime) {
    let calls = [
        // a fresh place has two levels
        Call::Count(&[0, 1, 2]),
        Call::Open(8),
        Call::Count(&[1, 1, 1, 3, 4, 7, 7, 7, 7]),
        // the first place that is no level, by counting and by withdrawing, though level 0 has no pixel to take off
        Call::Count(&[7, 8, 9]),
        Call::Withdraw(&[0, 0, 9, 8]),
        // the lowest level that would go below zero, in whatever order the row has them
        Call::Withdraw(&[7, 4, 4, 3, 3, 1]),
        Call::Withdraw(&[6, 0, 2]),
        Call::Count(&[]),
        Call::Withdraw(&[]),
        // by number: no such row was counted
        Call::Withdraw(&[7, 3, 1]),
        Call::Clear,
        Call::Withdraw(&[7]),
    ];
    let expected = [
        Err(Refusal::NotALevel { place: 2 }),
        Ok(None),
        Ok(Some(9)),
        Err(Refusal::NotALevel { place: 1 }),
        Err(Refusal::NotALevel { place: 2 }),
        Err(Refusal::LevelBelowZero { level: 3 }),
        Err(Refusal::LevelBelowZero { level: 0 }),
        Ok(Some(9)),
        Ok(Some(9)),
        Ok(Some(6)),
        Ok(None),
        Err(Refusal::LevelBelowZero { level: 7 }),
    ];
    let mut place = Histogram::fresh();
    run(&rt, &calls, &expected, &mut place);
    assert_eq!(rt; place.levels(), 8);
    assert_eq!(rt; place.total(), 0);
}

#[test]
fn a_histogram_reads_what_was_counted(rt: HostRuntime) {
    let mut place = Histogram::fresh();
    assert_eq!(rt; place.darkest(), None);
    assert_eq!(rt; place.open(8), Ok(()));
    assert_eq!(rt; place.count(&[1, 1, 1, 3, 4, 7, 7, 7, 7]), Ok(9));
    // By number, since a number that is no level is asked for too.
    for (level, pixels) in (0..).zip([0, 3, 0, 1, 1, 0, 0, 4, 0]) {
        assert_eq!(rt; place.pixels_at(level), pixels);
    }
    assert_eq!(rt; place.counted_levels(), 4);
    assert_eq!(rt; place.darkest(), Some(1));
    assert_eq!(rt; place.palest(), Some(7));
}

#[test]
fn answers_past_the_calls_stay(rt: HostRuntime) {
    let mut place = Histogram::fresh();
    let mut answers = [Ok(Some(77)); 3];
    replay(
        &[Call::Open(4), Call::Count(&[3])],
        &mut answers,
        &mut place,
    );
    assert_eq!(rt; answers[1], Ok(Some(1)));
    assert_eq!(rt; answers[2], Ok(Some(77)));
    let mut one = [Ok(None); 1];
    replay(&[Call::Clear, Call::Open(9)], &mut one, &mut place);
    assert_eq!(rt; place.levels(), 2);
}
