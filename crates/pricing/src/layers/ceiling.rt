// Errors above a ceiling count as the ceiling.
ghost use Rattle.std.specs.Prelude.{◌≡◌};
ghost use Rattle.pricing.specs.Measures.{capped};

use crate::measure::Measure;

// The smaller of the ceiling and the error of the measure below.
#[derive(Drop, Debug)]
pub struct Ceiling<M> {
    pub(super) measure: M,
    pub(super) ceiling: u32,
}

impl<M: Measure> Ceiling<M> {
    pub fn new(measure: M, ceiling: u32) -> Ceiling<M>
        ensures { ⟦<Ceiling<M> as Measure>⟧.error result ≡ capped ceiling (M.error measure) }
    {
        Ceiling { measure, ceiling }
    }
}
