// Levels whose errors weigh more, or less, than others.
ghost use Rattle.std.specs.Prelude.{◌≡◌};
ghost use Rattle.pricing.specs.Measures.{weighed};

use super::weight_list::WeightList;
use crate::measure::Measure;

// The error of the measure below times the weight of the level k, whose pixels are shown.
#[derive(Drop, Debug)]
pub struct Weight<M> {
    pub(super) measure: M,
    pub(super) weights: WeightList,
}

impl<M: Measure> Weight<M> {
    pub fn new(measure: M, weights: WeightList) -> Weight<M>
        ensures { ⟦<Weight<M> as Measure>⟧.error result ≡ weighed weights (M.error measure) }
    {
        Weight { measure, weights }
    }
}
