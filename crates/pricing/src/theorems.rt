// What holds of prices beyond what each pricer promises.
ghost use Rattle.std.specs.Prelude.{◌≡◌};
ghost use Rattle.counting.specs.Meaning.{ledger_of};
ghost use Rattle.pricing.specs.Kinds.{total_ops};
ghost use Rattle.pricing.specs.Measures.{squared};
ghost use Rattle.pricing.specs.Prices.{Priced};
ghost use Rattle.pricing.specs.Statements.{CostsArePlain, PricesArePlain, PricesAreOne};

use crate::measures::Squared;
use crate::pricer::Pricer;
use crate::pricers::{CentroidPricer, TrialPricer};
use crate::tallies::Total;
use crate::tally::Tally;
use counting::Histogram;

// A cost under `Total`, and so a price, is the plain sum of pixels times error: the hold is not reached.
pub fn totals_are_plain()
    ensures costs { CostsArePlain }
    ensures prices { PricesArePlain }
{}

// A range has one price, under any tally.
pub fn prices_are_one<T: Tally>()
    ensures { PricesAreOne T T.Tally.ops }
{}

// The price of a range by trying each representative and by the mean: the two are equal.
pub fn both_prices(
    trial: &mut TrialPricer<Squared, Total>,
    centroid: &mut CentroidPricer,
    histogram: &Histogram,
    a: u16,
    b: u16,
) -> (Option<(u16, Total)>, Option<(u16, Total)>)
    ensures equal { result.0 ≡ result.1 }
    ensures answer { Priced total_ops squared (ledger_of histogram.now) a b result.0 }
{
    (
        trial.price(histogram, a, b),
        centroid.price(histogram, a, b),
    )
}
