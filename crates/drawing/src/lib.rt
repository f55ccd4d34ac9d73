// Drawing up the level table of least tally.
#![tactic(auto)]

ghost use Rattle.drawing.specs.Drawings.{DrawnTotalsArePlain};

mod drawings;
mod law;
mod receipt;
mod search;
mod work;

pub use divisions::{
    bins, charged_once, compared, counted_levels_are_listed, enough_bins_cost_nothing,
    more_bins_never_cost_more, never_beaten, no_level_beats_the_price, one_best_division,
    path_steps_are_tested, priced, prices_are_answers, tables_stand, theorems_at_the_cases,
    totals_are_plain_sums, worked_cases,
};
pub use drawings::{cells, draw};
pub use law::reduce;
pub use receipt::Receipt;

// A drawing by `Total` returns the plain sum, over the ledger, of pixels times the error of showing them as the table does.
pub fn drawn_totals_are_plain()
    ensures { DrawnTotalsArePlain }
{}
