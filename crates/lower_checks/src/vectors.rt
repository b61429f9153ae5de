// Vectors that grow.

ghost use Rattle.std.specs.Prelude.{◌≡◌, ◌++◌, ◌∷◌, [], OnOk};

use std::alloc::{AllocError, Global};

/// Appends an item. Fails only where no host memory is left.
pub fn append<T: Drop>(all: &mut Vec<T>, item: T) -> Result<(), AllocError>
    ensures appended { OnOk result (all.new.items ≡ all.old.items ++ item ∷ []) }
{
    match all.push(item) {
        Ok(()) => Ok(()),
        Err(_) => Err(AllocError),
    }
}

/// No items yet, and space for one, if there is memory for it.
pub fn space_for_one<T: Drop>(alloc: Global) -> Vec<T>
    ensures { result.items ≡ [] }
{
    match Vec::with_capacity(alloc, 1) {
        Ok(all) => all,
        Err(_) => Vec::new(alloc),
    }
}
