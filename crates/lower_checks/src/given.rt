// Regions that a type leaves out, and an initializer says.

ghost use Rattle.std.specs.Prelude.{◌≡◌, [], IfOk, drop, map};
ghost use Rattle.cyc_tree.specs.View.{pointer_tree, type_tree};
ghost use Rattle.source_meaning.specs.Shapes.{settled_by, written};
ghost use Rattle.lower_checks.specs.Given.{given_by, has_digit, is_given};
ghost use Rattle.lower_checks.specs.Views.{shape_tree};

use crate::shape::{Owner, Shape, type_shape};
use crate::vectors::append;
use bumpalo::Bump;
use cyc_tree::{Pointer, Sign, TypeName};
use std::alloc::{AllocError, Global};

/// Which pointers of a type are unique though the type leaves their region out, since an initializer's type says so: from the outermost
/// one inwards. Those behind the end aren't.
#[derive(Clone, Copy)]
pub struct Given<'p> {
    pub alone: &'p [bool],
}

impl<'p> Given<'p> {
    /// No pointer is.
    pub fn none() -> Given<'p>
        ensures { result.alone.now ≡ [] }
    {
        Given { alone: &[] }
    }

    /// Whether the outermost one is.
    pub fn outermost(self) -> bool
        ensures { result ≡ has_digit self.entry.alone.now 0 }
    {
        match self.alone {
            [first, ..] => *first,
            [] => false,
        }
    }

    /// Those within the outermost one.
    pub fn within(self) -> Given<'p>
        ensures { result.alone.now ≡ drop 1 self.entry.alone.now }
    {
        match self.alone {
            [_, others @ ..] => Given { alone: others },
            [] => self,
        }
    }
}

/// Whether a pointer whose region is left out is unique, by the shape of what it is given.
fn is_given(pointer: &Pointer, by: Shape<'_>) -> bool
    ensures { result ≡ is_given (pointer_tree pointer.now) (shape_tree by.entry) }
{
    if let Some(_) = pointer.region {
        return false;
    }
    if let Sign::Fat = pointer.sign {
        return false;
    }
    match by {
        Shape::Thin(_, Owner::Alone, _) | Shape::Address(Owner::Alone, _, _) => true,
        _ => false,
    }
}

/// Which of these pointers, which stand from the base outwards, are unique by what they are given. Fails only where no host memory is left.
fn given_by<'p>(
    alloc: Global,
    arena: &'p Bump,
    pointers: &[Pointer],
    by: Shape<'_>,
) -> Result<Given<'p>, AllocError>
    ensures given { IfOk result (λ given. given.alone.now ≡ given_by (map pointer_tree pointers.now) (shape_tree by.entry)) }
{
    let mut alone = Vec::new(alloc);
    let mut left = by;
    'each: for around in 0..pointers.len() {
        let digit = is_given(&pointers[pointers.len() - 1 - around], left);
        append(&mut alone, digit)?;
        left = left.pointee();
    }
    let alone = arena.try_alloc_slice_copy(alone.as_slice())?;
    Ok(Given { alone })
}

/// The shape of a local of a type as it is written, where what the type leaves out is that of its initializer's shape. Fails only where no
/// host memory is left.
pub fn settled_by<'p>(
    alloc: Global,
    arena: &'p Bump,
    of: &'p TypeName,
    by: Shape<'_>,
) -> Result<Shape<'p>, AllocError>
    ensures shape { IfOk result (λ shape. shape_tree shape ≡ settled_by (written (type_tree of.entry.now)) (shape_tree by.entry)) }
{
    let given = given_by(alloc, arena, &of.pointers, by)?;
    Ok(type_shape(&of.pointers, &of.base, given))
}
