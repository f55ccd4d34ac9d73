// The report: what is printed for an input.
ghost use Rattle.std.specs.Prelude.{◌≡◌, [], ◌∷◌, IfOk, string_bytes};
ghost use Rattle.counting.specs.Ledger.{opened, counted};
ghost use Rattle.branch.specs.Outcome.{outcome_of};
ghost use Rattle.branch.specs.Report.{Answered, Reported};

use crate::input::numbers;
use crate::lines::{DrawnTable, refused_line};
use counting::{Answer, Call, Histogram};
use drawing::{Receipt, reduce};
use pricing::{CentroidPricer, Tally, Total};
use refusals::Refusal;
use std::alloc::{AllocError, Global};
use tables::LevelTable;

// The cells of each work list.
const CELLS: usize = 4096;

// How the drawing went, or the first refusal among the calls before it.
fn outcome(
    answers: &[Answer],
    drawn: Result<Receipt<Total>, Refusal>,
) -> Result<Receipt<Total>, Refusal>
    ensures { result ≡ outcome_of answers.now drawn }
{
    for answer in answers {
        (*answer)?;
    }
    drawn
}

// The report of opening `levels` levels, counting the row and drawing at most `most` bins.
fn answer(heap: Global, levels: u16, most: u16, row: &[u16]) -> Result<String, AllocError>
    ensures { IfOk result (λ text. Answered (opened levels ∷ counted row.now ∷ []) most (string_bytes text)) }
{
    let mut tallies = vec![in heap; Total::neutral(); CELLS]?;
    let mut links = vec![in heap; 0; CELLS]?;
    let mut answers = [Ok(None); 2];
    let mut histogram = Histogram::fresh();
    let mut table = LevelTable::fresh();
    let drawn = reduce(
        &mut CentroidPricer::new(),
        &[Call::Open(levels), Call::Count(row)],
        &mut answers,
        most,
        &mut histogram,
        tallies.as_mut_slice(),
        links.as_mut_slice(),
        &mut table,
    );
    match outcome(&answers, drawn) {
        Ok(receipt) => DrawnTable {
            histogram: &histogram,
            table: &table,
        }
        .lines(heap, &receipt),
        Err(refusal) => refused_line(heap, &refusal),
    }
}

// What the branch program prints for its input: that it is short, or the first refusal, or the bins of the table and the figures.
pub fn report(heap: Global, input: &[u8]) -> Result<String, AllocError>
    ensures { IfOk result (λ text. Reported input.now (string_bytes text)) }
{
    // Before memory is taken for the numbers.
    if input.len() < 4 || input.len() % 2 == 1 {
        return String::from_str(heap, "input short\n");
    }
    let numbers = numbers(heap, input)?;
    match numbers.as_slice() {
        [levels, most, row @ ..] => answer(heap, *levels, *most, row),
        // Four bytes or more have two numbers.
        _ => unreachable!(),
    }
}
