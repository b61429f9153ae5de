// Subscripts: which element a pointer and an index lead to.

ghost use Rattle.source_meaning.specs.Programs.{world_of};
ghost use Rattle.source_lowering.specs.Members.{bound_code, subscript_code};
ghost use Rattle.lower_checks.specs.Room.{HasRoom};
ghost use Rattle.lower_checks.specs.Views.{reach_tree, shape_tree};
ghost use Rattle.lower_checks.specs.Writing.{Emits};

use crate::body::Body;
use crate::fat::{lower_index, lower_moved};
use crate::names::behind;
use crate::shape::{Reach, Shape};
use crate::table::Table;
use crate::values::lower_check;
use cyc_core::{Binary, Operation, Origin, Temporary};
use cyc_words::Kind;

/// Appends what leaves a pointer to the element of a shape in the temporary of its subscript, where the next one has a thin pointer of a
/// bound that isn't NULL; raises where the subscript isn't below the bound.
fn lower_bound(
    program: &Table<'_>,
    bound: Reach,
    element: &Shape<'_>,
    body: &mut Body<'_>,
    subscript: Temporary,
    at: Origin,
)
    requires room { HasRoom subscript.0 2 }
    ensures { Emits body.old body.new (bound_code (world_of program.now) (reach_tree bound) (shape_tree element.now) subscript.0) }
{
    let count = bound.count();
    let pointer = behind(subscript, 1);
    let below = behind(subscript, 2);
    body.operation(Operation::Constant(below, count));
    body.operation(Operation::Apply(Binary::LessUnsigned, below, subscript, below));
    body.raise_unless(below, Kind::ArrayBounds, at);
    lower_moved(program, element, body, subscript, pointer, subscript);
}

/// Appends what leaves a pointer to an element in the temporary of its subscript, where a pointer of a shape is in those behind it; raises
/// where there is no such element.
pub fn lower_subscripted(
    program: &Table<'_>,
    shape: &Shape<'_>,
    body: &mut Body<'_>,
    subscript: Temporary,
    at: Origin,
)
    requires room { HasRoom subscript.0 3 }
    ensures { Emits body.old body.new (subscript_code (world_of program.now) (shape_tree shape.now) subscript.0) }
{
    let element = shape.pointee();
    match shape {
        Shape::Thin(bound, _, _) => {
            let pointer = behind(subscript, 1);
            lower_check(body, shape, pointer, at);
            lower_bound(program, *bound, &element, body, subscript, at);
        }
        Shape::Address(_, _, _) => {
            lower_bound(program, Reach::NeverNull(1), &element, body, subscript, at);
        }
        _ => lower_index(program, &element, body, subscript, at),
    }
}
