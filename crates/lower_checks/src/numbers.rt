// The numbers of the elements that are being made, by their names.

ghost use Rattle.std.specs.Prelude.{◌≡◌, ◌∷◌, IfOk};
ghost use Rattle.lower_checks.specs.Numbers.{numbers_in};

use crate::vectors::append;
use std::alloc::{AllocError, Global};

/// The number of the element that is being made: the one local of its array's block, which has this name.
#[derive(Clone, Copy)]
pub struct Number<'p> {
    pub name: &'p [u8],
}

/// A further number inside others. Fails only where no host memory is left.
pub fn with_number<'p>(
    alloc: Global,
    numbers: &[Number<'p>],
    name: &'p [u8],
) -> Result<Vec<Number<'p>>, AllocError>
    ensures numbers { IfOk result (λ more. numbers_in more.items ≡ name.entry.now ∷ numbers_in numbers.now) }
{
    let mut more = Vec::new(alloc);
    append(&mut more, Number { name })?;
    more.extend_from_slice(numbers)?;
    Ok(more)
}
