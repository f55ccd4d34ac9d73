// The errors of the plain measures. `same` and `kept` stand in each contract: what a call leaves of a measure is a fact about the call.
ghost use Rattle.std.specs.Prelude.{◌≡◌, min};
ghost use Rattle.pricing.specs.Errors.{SameErrors};
ghost use Rattle.pricing.specs.Measures.{squared, distance};
ghost use Rattle.pricing.specs.ErrorLaws.{squared_fair, distance_fair};

use super::plain::{Distance, Squared};
use crate::measure::Measure;

// The difference of two levels without its sign; numbers above 1023 are taken as 1023.
fn apart(k: u16, r: u16) -> u32
    ensures { result ≡ distance (min k 1023) (min r 1023) }
{
    u32::from(k.min(1023).abs_diff(r.min(1023)))
}

impl Measure for Squared {
    ghost error = { λ _. squared };

    ghost fair = { λ m. squared_fair };

    fn error(&mut self, k: u16, r: u16) -> u32
        ensures value { result ≡ squared (min k 1023) (min r 1023) }
        ensures same { SameErrors squared squared }
        ensures kept { self.new ≡ self.old }
    {
        apart(k, r).pow(2)
    }
}

impl Measure for Distance {
    ghost error = { λ _. distance };

    ghost fair = { λ m. distance_fair };

    fn error(&mut self, k: u16, r: u16) -> u32
        ensures value { result ≡ distance (min k 1023) (min r 1023) }
        ensures same { SameErrors distance distance }
        ensures kept { self.new ≡ self.old }
    {
        apart(k, r)
    }
}
