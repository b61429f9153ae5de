// A region that was born, and its blocks.

ghost use Rattle.std.specs.Prelude.{◌≡◌, ◌++◌, ◌∷◌, [], Some, None, false, if◌then◌else◌, map, length, option_map, IfOk, OnOk};
ghost use Rattle.core_eval.specs.Elements.{block_cells, cells_of};
ghost use Rattle.core_eval.specs.Regions.{
  grown_held,
  held_region,
  is_open,
  open_objects,
  put_held,
  same_standing,
  turned_held,
};
ghost use Rattle.core_eval.specs.Whole.{fill_held};

use crate::held::Held;
use crate::object::blank_block;
use crate::objects::{fill_in, put_in};
use crate::value::{Object, Part, Value};
use cyc_core::Layout;
use std::alloc::{AllocError, Global};
use std::rc::Rc;

/// What a region is that isn't freed.
#[derive(Clone, Copy)]
pub enum Standing {
    /// A lexical one, which its handle frees.
    Lexical,
    /// A unique block's own, which is freed with it.
    Single,
    /// One of a key, which is open.
    Opened,
    /// One of a key, which is closed: its blocks are kept, and no pointer leads to them.
    Closed,
}

impl Standing {
    /// Whether pointers lead to a region's blocks.
    pub fn is_open(self) -> bool
        ensures { result ≡ is_open self }
    {
        match self {
            Standing::Lexical | Standing::Single | Standing::Opened => true,
            Standing::Closed => false,
        }
    }

    /// Whether two are the same.
    pub fn is(self, other: Self) -> bool
        ensures { result ≡ same_standing self other }
    {
        match (self, other) {
            (Standing::Lexical, Standing::Lexical)
            | (Standing::Single, Standing::Single)
            | (Standing::Opened, Standing::Opened)
            | (Standing::Closed, Standing::Closed) => true,
            _ => false,
        }
    }
}

/// A region that was born.
#[derive(Drop)]
pub enum Region {
    /// It isn't freed yet, and has these blocks.
    Held(Standing, Vec<Object>),
    /// It is freed, and nothing is kept of it.
    Freed,
}

/// A block more, of a number of elements of a layout, which hold nothing as yet: how many there were before. Fails only where no host memory is left.
pub fn push_block(
    alloc: Global,
    objects: &mut Vec<Object>,
    layout: &Rc<Layout>,
    count: u32,
) -> Result<usize, AllocError>
    ensures number { IfOk result (λ before. before ≡ length objects.old.items) }
    ensures objects { OnOk result (map cells_of objects.new.items ≡ map cells_of objects.old.items ++ block_cells false layout.now.value count ∷ []) }
{
    let before = objects.len();
    let block = blank_block(alloc, layout, count)?;
    objects.push(block)?;
    Ok(before)
}

impl Region {
    /// Stores a value to a part of a block, if it isn't freed or closed and there is one that lies there and has this width, and answers whether there
    /// is. Fails only where no host memory is left.
    pub fn put(&mut self, index: usize, part: Part, value: Value) -> Result<bool, AllocError>
        ensures put { IfOk result (λ is_put. put_held index part.cell part.byte part.number part.width value (held_region self.old)
            ≡ (if is_put then Some (held_region self.new) else None)) }
        ensures kept { IfOk result (λ is_put. is_put ≡ false → held_region self.new ≡ held_region self.old) }
    {
        match self {
            Region::Held(standing, objects) => {
                if standing.is_open() {
                    put_in(objects, index, part, value)
                } else {
                    Ok(false)
                }
            }
            Region::Freed => Ok(false),
        }
    }

    /// The cells of a block get these values, from one on, if it isn't freed. Fails only where no host memory is left, or there would be a cell
    /// with a number over 2^64 - 1.
    pub fn fill(&mut self, index: usize, cell: u64, values: &[Held]) -> Result<(), AllocError>
        ensures { OnOk result (held_region self.new ≡ fill_held index cell values.now (held_region self.old)) }
    {
        match self {
            Region::Held(_, objects) => fill_in(objects, index, cell, values),
            Region::Freed => Ok(()),
        }
    }

    /// It becomes another one, or is freed, if it is what it has to be, and answers whether it is.
    pub fn turn(&mut self, from: Standing, to: Option<Standing>) -> bool
        ensures turned { turned_held from to (held_region self.old) ≡ (if result then Some (held_region self.new) else None) }
        ensures kept { result ≡ false → held_region self.new ≡ held_region self.old }
    {
        match self {
            Region::Held(standing, _) => {
                if !standing.is(from) {
                    return false;
                }
                match to {
                    Some(next) => *standing = next,
                    None => *self = Region::Freed,
                }
                true
            }
            Region::Freed => false,
        }
    }

    /// It gets a block of a number of elements of a layout, if it isn't freed or closed: how many it had before.
    pub fn allocate(
        &mut self,
        alloc: Global,
        layout: &Rc<Layout>,
        count: u32,
    ) -> Result<Option<usize>, AllocError>
        ensures number { IfOk result (λ before. before ≡ option_map length (open_objects (held_region self.old))) }
        ensures held { OnOk result (held_region self.new ≡ grown_held (block_cells false layout.now.value count) (held_region self.old)) }
    {
        match self {
            Region::Held(standing, objects) => {
                if standing.is_open() {
                    Ok(Some(push_block(alloc, objects, layout, count)?))
                } else {
                    Ok(None)
                }
            }
            Region::Freed => Ok(None),
        }
    }
}
