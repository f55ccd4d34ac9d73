// A run of calls, and then a drawing: what a branch does with one slip.
ghost use Rattle.drawing.specs.Drawings.{Reduced};

use crate::drawings::draw;
use crate::receipt::Receipt;
use counting::{Answer, Call, Histogram, replay};
use pricing::Pricer;
use refusals::Refusal;
use tables::LevelTable;

// Makes the calls on a fresh histogram in `place`, writes their answers, and draws a table of at most `most` bins.
// As many calls are made as the shorter of `calls` and `answers` has. What is returned says how the drawing went.
// Eight parameters, as the caller lends every list and every place.
pub fn reduce<P: Pricer>(
    pricer: &mut P,
    calls: &[Call<'_>],
    answers: &mut [Answer],
    most: u16,
    place: &mut Histogram,
    tallies: &mut [P::Kind],
    links: &mut [u16],
    table: &mut LevelTable,
) -> Result<Receipt<P::Kind>, Refusal>
    ensures { Reduced P.Kind.Tally.ops P.Measure.error calls.now answers.old answers.new place.new most result pricer.old pricer.new tallies.old tallies.new links.old links.new table.old table.new }
{
    replay(calls, answers, place);
    draw(pricer, place, most, tallies, links, table)
}
