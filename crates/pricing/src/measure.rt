// How wrong it is to show a grey level as another.
ghost use Rattle.std.specs.Prelude.{◌≡◌, ℕ, min};
ghost use Rattle.pricing.specs.Errors.{Fair, SameErrors};

pub trait Measure {
    // The meaning of a measure: the error of showing the level k as the level r, at levels below 1024.
    ghost error: { Self → ℕ → ℕ → ℕ };

    // The error of showing `k` as `r`; numbers above 1023 are taken as 1023. A measure may keep notes of
    // its own, but asking leaves its meaning.
    fn error(&mut self, k: u16, r: u16) -> u32
        ensures value { result ≡ error self.old (min k 1023) (min r 1023) }
        ensures same { SameErrors (error self.new) (error self.old) };

    ghost fair: { (m : Self) → Fair (error m) };
}
