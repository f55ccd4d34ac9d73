// The measures that hold nothing.
ghost use Rattle.std.specs.Prelude.{◌≡◌};
ghost use Rattle.pricing.specs.Measures.{squared, distance};

use crate::measure::Measure;

// The square of the difference of two levels.
#[derive(Clone, Copy, Default, Debug)]
pub struct Squared;

impl Squared {
    pub fn new() -> Squared
        ensures { ⟦<Squared as Measure>⟧.error result ≡ squared }
    {
        Squared
    }
}

// The difference of two levels without its sign.
#[derive(Clone, Copy, Default, Debug)]
pub struct Distance;

impl Distance {
    pub fn new() -> Distance
        ensures { ⟦<Distance as Measure>⟧.error result ≡ distance }
    {
        Distance
    }
}
