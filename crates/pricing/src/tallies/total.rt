// The sum of all errors, held at the largest number of 64 bits. Laid out as in C, since C lends a list of them to work in.
ghost use Rattle.std.specs.Prelude.{◌^◌, ◌<◌};

#[repr(C)]
#[derive(Clone, Copy, PartialEq, Eq, Debug)]
pub struct Total {
    pub sum: u64,
    ghost fits: { sum < 2 ^ 64 },
}
