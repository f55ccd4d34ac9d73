// The numbers of a file, most significant byte first.
ghost use Rattle.std.specs.Prelude.{◌≤◌, length};
ghost use Rattle.tablefile.specs.Parts.{GotNumber};

use crate::fault::CutShort;

// The first byte of every file.
pub const EDITION: u8 = 5;

// The bytes of the number at a place that the file reaches to.
pub(crate) fn number<const N: usize>(file: &[u8], place: usize) -> Result<[u8; N], CutShort>
    requires { place ≤ length file.now }
    ensures { GotNumber file.now place N result }
{
    file[place..]
        .first_chunk()
        .copied()
        .ok_or(CutShort { length: file.len() })
}
