// What a name stands for.

ghost use Rattle.std.specs.Prelude.{◌≡◌, ◌++◌, ◌∷◌, [], suc, length, OnOk, map};
ghost use Rattle.cyc_tree.specs.View.{type_tree};
ghost use Rattle.source_meaning.specs.Shapes.{ArrayShape, settled, written};
ghost use Rattle.source_lowering.specs.Lowered.{valued};
ghost use Rattle.lower_checks.specs.Views.{shape_tree, stored_tree};

use crate::given::Given;
use crate::shape::{Pointee, Shape, Written};
use crate::vectors::append;
use cyc_tree::TypeName;
use std::alloc::AllocError;

/// What a name stands for.
#[derive(Clone, Copy)]
pub enum Stored<'p> {
    /// An object of a shape.
    One(Shape<'p>),
    /// An array: how many elements it has, and what they are.
    Array(u32, Written<'p>),
}

impl<'p> Stored<'p> {
    /// An object of a type as it is written.
    pub fn one(of: &'p TypeName) -> Stored<'p>
        ensures { stored_tree result ≡ settled (written (type_tree of.entry.now)) }
    {
        Stored::One(Shape::of(of))
    }

    /// An array with this number of elements of a type as it is written.
    pub fn array(of: &'p TypeName, count: u32) -> Stored<'p>
        ensures { stored_tree result ≡ ArrayShape count (settled (written (type_tree of.entry.now))) }
    {
        Stored::Array(
            count,
            Written::Pointed(&of.pointers, &of.base, Given::none()),
        )
    }

    /// The shape of its name as a value: an array's is a fat pointer to its first element.
    pub fn value(self) -> Shape<'p>
        ensures { shape_tree result ≡ valued (stored_tree self.entry) }
    {
        match self {
            Stored::One(shape) => shape,
            Stored::Array(_, of) => Shape::Fat(Pointee::Written(of)),
        }
    }
}

/// Appends what a further name stands for.
pub fn add_stored<'p>(all: &mut Vec<Stored<'p>>, stored: Stored<'p>) -> Result<(), AllocError>
    ensures added { OnOk result (map stored_tree all.new.items ≡ map stored_tree all.old.items ++ stored_tree stored.entry ∷ []) }
    ensures grows { OnOk result (length all.new.items ≡ suc (length all.old.items)) }
{
    append(all, stored)
}
