// Cells of a type, one by one.

ghost use Rattle.std.specs.Prelude.{◌≡◌, ◌++◌, ◌∷◌, [], OnOk};
ghost use Rattle.cyc_types.specs.Cells.{cells_of, scalar_at};
ghost use Rattle.cyc_types.specs.Scalars.{kind_of};

use crate::extent::Extent;
use crate::scalar::Scalar;
use std::alloc::AllocError;

/// One cell of a type: where it lies, and what it holds.
#[derive(Clone, Copy)]
pub struct Cell<'p> {
    /// So many bytes from the type's first.
    pub offset: u32,
    pub scalar: Scalar<'p>,
}

/// The cells of a type in order, its size and its alignment.
#[derive(Drop)]
pub struct Layout<'p> {
    pub cells: Vec<Cell<'p>>,
    pub extent: Extent,
}

/// Appends a scalar's cell, at an offset in bytes from the first.
pub(crate) fn push_scalar<'p>(
    cells: &mut Vec<Cell<'p>>,
    offset: u32,
    scalar: Scalar<'p>,
) -> Result<(), AllocError>
    ensures { OnOk result (cells_of cells.new.items ≡ cells_of cells.old.items ++ scalar_at offset (kind_of scalar.entry) ∷ []) }
{
    cells.push(Cell { offset, scalar })?;
    Ok(())
}
