// The weights of the levels from 0 on.
ghost use Rattle.std.specs.Prelude.{◌≡◌, ◌≤◌, [], ◌∷◌, length};
ghost use Rattle.pricing.specs.Measures.{weight_at};
ghost use Rattle.pricing.specs.Weights.{Filled};

use arrayvec::ArrayVec;
use refusals::Refusal;
use std::marker::Model;

// From 1 to 1024 weights, a byte each.
#[derive(Drop, Debug)]
pub struct WeightList {
    weights: ArrayVec<u8, 1024>,
}

impl Model for WeightList {
    ghost use Rattle.std.specs.Prelude.{ℕ, ◌≤◌, List, length};

    ghost Value = { List ℕ };

    ghost view = { λ l. l.weights.items };

    ghost invariant = { λ l. (1 ≤ length l.weights.items) × (length l.weights.items ≤ 1024) };
}

impl WeightList {
    // The byte 1.
    pub fn fresh() -> WeightList
        ensures { result ≡ 1 ∷ [] }
    {
        let mut weights = ArrayVec::new();
        weights.push(1);
        WeightList { weights }
    }

    // Puts a copy of `weights` into this place. A list that is empty or longer than 1024 is refused, and
    // leaves the place as it was.
    pub fn fill(&mut self, weights: &[u8]) -> Result<(), Refusal>
        ensures { Filled weights.now self.old result self.new }
    {
        let refusal = Refusal::WeightsOutOfRange {
            length: weights.len(),
        };
        if weights.is_empty() {
            return Err(refusal);
        }
        self.weights = ArrayVec::try_from(weights).map_err(|_| refusal)?;
        Ok(())
    }

    // A level that the list does not reach weighs 1.
    pub fn weight(&self, level: u16) -> u8
        ensures value { result ≡ weight_at self.now level }
        ensures range { (1 ≤ length self.now) × (length self.now ≤ 1024) }
    {
        self.weights.get(usize::from(level)).copied().unwrap_or(1)
    }
}
