// What each layer makes of the error below it.
ghost use Rattle.std.specs.Prelude.{◌≡◌, ◌≤◌, min, length};
ghost use Rattle.pricing.specs.Errors.{SameErrors};
ghost use Rattle.pricing.specs.Measures.{weighed, allowed, capped};
ghost use Rattle.pricing.specs.LayerLaws.{weighed_fair, allowed_fair, capped_fair};

use super::allowance::Allowance;
use super::ceiling::Ceiling;
use super::weight::Weight;
use crate::measure::Measure;

impl<M: Measure> Measure for Weight<M> {
    ghost error = { λ m. weighed m.weights (M.Measure.error m.measure) };

    ghost fair = { λ m. weighed_fair _ _ (M.Measure.fair m.measure) };

    fn error(&mut self, k: u16, r: u16) -> u32
        ensures value { result ≡ weighed self.old.weights (M.error self.old.measure) (min k 1023) (min r 1023) }
        ensures same { SameErrors (weighed self.new.weights (M.error self.new.measure)) (weighed self.old.weights (M.error self.old.measure)) }
        ensures kept { self.new.weights ≡ self.old.weights }
        ensures range { (1 ≤ length self.new.weights) × (length self.new.weights ≤ 1024) }
    {
        let weight = u32::from(self.weights.weight(k.min(1023)));
        weight.saturating_mul(self.measure.error(k, r))
    }
}

impl<M: Measure> Measure for Allowance<M> {
    ghost error = { λ m. allowed m.allowance (M.Measure.error m.measure) };

    ghost fair = { λ m. allowed_fair m.allowance _ (M.Measure.fair m.measure) };

    fn error(&mut self, k: u16, r: u16) -> u32
        ensures value { result ≡ allowed self.old.allowance (M.error self.old.measure) (min k 1023) (min r 1023) }
        ensures same { SameErrors (allowed self.new.allowance (M.error self.new.measure)) (allowed self.old.allowance (M.error self.old.measure)) }
        ensures kept { self.new.allowance ≡ self.old.allowance }
    {
        self.measure.error(k, r).saturating_sub(self.allowance)
    }
}

impl<M: Measure> Measure for Ceiling<M> {
    ghost error = { λ m. capped m.ceiling (M.Measure.error m.measure) };

    ghost fair = { λ m. capped_fair m.ceiling _ (M.Measure.fair m.measure) };

    fn error(&mut self, k: u16, r: u16) -> u32
        ensures value { result ≡ capped self.old.ceiling (M.error self.old.measure) (min k 1023) (min r 1023) }
        ensures same { SameErrors (capped self.new.ceiling (M.error self.new.measure)) (capped self.old.ceiling (M.error self.old.measure)) }
        ensures kept { self.new.ceiling ≡ self.old.ceiling }
    {
        self.measure.error(k, r).min(self.ceiling)
    }
}
