// Errors up to an allowance are passed over.
ghost use Rattle.std.specs.Prelude.{◌≡◌};
ghost use Rattle.pricing.specs.Measures.{allowed};

use crate::measure::Measure;

// The error of the measure below less the allowance, or none where the allowance is larger.
#[derive(Drop, Debug)]
pub struct Allowance<M> {
    pub(super) measure: M,
    pub(super) allowance: u32,
}

impl<M: Measure> Allowance<M> {
    pub fn new(measure: M, allowance: u32) -> Allowance<M>
        ensures { ⟦<Allowance<M> as Measure>⟧.error result ≡ allowed allowance (M.error measure) }
    {
        Allowance { measure, allowance }
    }
}
