// What pixels cost that are shown in a wrong grey, put together over many levels.
ghost use Rattle.std.specs.Prelude.{◌≡◌};
ghost use Rattle.pricing.specs.Tallies.{Ops, Laws};

pub trait Tally: Copy {
    // What the functions below compute.
    ghost ops: { Ops Self };

    // The tally of no pixels.
    fn neutral() -> Self
        ensures { result ≡ ops.neutral };

    // Two tallies put together.
    fn join(self, other: Self) -> Self
        ensures { result ≡ ops.join self other };

    // Whether this is at most the other. An `Ord` in its place would have to be tied to the laws' `not_above` by one law
    // more, and nothing else compares tallies.
    fn not_above(self, other: Self) -> bool
        ensures { result ≡ ops.not_above self other };

    // What `pixels` pixels cost that are each shown with `error`.
    fn charge(pixels: u32, error: u32) -> Self
        ensures { result ≡ ops.charge pixels error };

    ghost laws: { Laws ops };
}
