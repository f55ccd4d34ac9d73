// The cells that a file is written over.
ghost use Rattle.std.specs.Prelude.{◌≡◌, ◌+◌, ◌≤◌, length};
ghost use Rattle.tablefile.specs.Parts.{Puts};

// A lent output, and the place in it that is written next.
#[derive(Drop)]
pub(crate) struct Writer<'a> {
    out: &'a mut [u8],
    place: usize,
}

impl<'a> Writer<'a> {
    pub(crate) fn new(out: &'a mut [u8]) -> Writer<'a>
        ensures same_reference { result.out.ghost_name ≡ out.entry.ghost_name }
        ensures cells { result.out.now ≡ out.old }
        ensures place { result.place ≡ 0 }
    {
        Writer { out, place: 0 }
    }

    // Writes the bytes, and goes on after them.
    pub(crate) fn put<const N: usize>(&mut self, bytes: [u8; N])
        requires { self.old.place + N ≤ length self.old.out.now }
        ensures { Puts self.old bytes.entry self.new }
    {
        self.out[self.place..self.place + N].copy_from_slice(&bytes);
        self.place += N;
    }
}
