// Divisions of the counted levels into runs, the tables they make and the figures of a drawing.
// What is proved of them stands as the contracts of the functions of this file, which do nothing.
#![tactic(auto)]

ghost use Rattle.divisions.specs.Theorems.{CountedLevelsAreListed, PricesAreAnswers, NoLevelBeatsThePrice, OneBestDivision, MoreBinsNeverCostMore, EnoughBinsCostNothing, NeverBeaten, ChargedOnce, TotalsArePlainSums, TablesStand, PathStepsAreTested};

use pricing::Tally;

mod cases;
mod figures;

pub use cases::{theorems_at_the_cases, worked_cases};
pub use figures::{bins, compared, priced};

// The counted levels of a ledger are listed in rising order, each of them once.
pub fn counted_levels_are_listed()
    ensures { CountedLevelsAreListed }
{}

// A run's representative and price are what a pricer answers, and a pricer can answer nothing else.
pub fn prices_are_answers<T: Tally>()
    ensures { PricesAreAnswers T }
{}

// The price of a run is not above the tally of showing its levels as any one level.
pub fn no_level_beats_the_price<T: Tally>()
    ensures { NoLevelBeatsThePrice T }
{}

// There is a best division, and only one.
pub fn one_best_division<T: Tally>()
    ensures { OneBestDivision T }
{}

// More bins never raise the least tally.
pub fn more_bins_never_cost_more<T: Tally>()
    ensures { MoreBinsNeverCostMore T }
{}

// With a bin for each counted level the least tally is neutral.
pub fn enough_bins_cost_nothing<T: Tally>()
    ensures { EnoughBinsCostNothing T }
{}

// No map of the levels to as few shown levels, grouped or scattered, tallies lower than the best division.
pub fn never_beaten<T: Tally>()
    ensures { NeverBeaten T }
{}

// The table's own map tallies exactly what its division does.
pub fn charged_once<T: Tally>()
    ensures { ChargedOnce T }
{}

// Under `Total` the tally of a map is the plain sum of pixels times error: the hold is not reached.
pub fn totals_are_plain_sums()
    ensures { TotalsArePlainSums }
{}

// The table of a division into 1 to 256 runs keeps the rules of a table.
pub fn tables_stand<T: Tally>()
    ensures { TablesStand T }
{}

// What is counted as a path step is a run with a bin number that it has in some division, and every such pair is counted.
pub fn path_steps_are_tested()
    ensures { PathStepsAreTested }
{}
