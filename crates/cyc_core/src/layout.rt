// What locals and globals consist of.

use crate::operation::Cell;
use std::rc::Rc;

/// A cell of an object.
#[derive(Clone, Copy)]
pub struct CellLayout {
    /// How many bytes of its object lie before it.
    pub offset: u32,
    /// What it is made for.
    pub cell: Cell,
    /// How many bytes behind it hold nothing.
    pub padding: u32,
}

/// The cells of an object, in order, and how many bytes it has.
#[derive(Drop)]
pub struct Layout {
    /// Its cells.
    pub cells: Vec<CellLayout>,
    /// How many bytes it has.
    pub bytes: u32,
}

/// A local of a block, or a temporary object of a function.
#[derive(Drop)]
pub enum Local {
    /// An object of one cell.
    Scalar(Cell),
    /// An object with a number of elements of this layout, one after the other.
    Whole(Rc<Layout>, u32),
}
