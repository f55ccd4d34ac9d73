// The numbers of the input.
ghost use Rattle.std.specs.Prelude.{◌≡◌, IfOk};
ghost use Rattle.branch.specs.Report.{numbers_of};

use std::alloc::{AllocError, Global};

// Two bytes make a number, the more significant first; a lone last byte makes none.
pub fn numbers(heap: Global, input: &[u8]) -> Result<Vec<u16>, AllocError>
    ensures { IfOk result (λ v. v.items ≡ numbers_of input.now) }
{
    let (pairs, _) = input.as_chunks::<2>();
    // All memory is taken first: where there is too little, `collect` would fill what there is before it gives up.
    let mut numbers = Vec::with_capacity(heap, pairs.len())?;
    numbers.extend(pairs.iter().map(|pair| u16::from_be_bytes(*pair)))?;
    Ok(numbers)
}
