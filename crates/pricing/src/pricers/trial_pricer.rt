// The pricer that tries each representative.
ghost use Rattle.std.specs.Prelude.{◌≡◌};

use crate::measure::Measure;
use crate::tally::Tally;
use std::marker::PhantomData;

// Prices the errors of the measure that it holds by the tally that it names.
#[derive(Drop, Debug)]
pub struct TrialPricer<M, T> {
    pub(super) measure: M,
    tally: PhantomData<T>,
}

impl<M: Measure, T: Tally> TrialPricer<M, T> {
    pub fn new(measure: M) -> TrialPricer<M, T>
        ensures { ⟦<TrialPricer<M, T> as Measure>⟧.error result ≡ M.error measure }
    {
        TrialPricer {
            measure,
            tally: PhantomData,
        }
    }
}
