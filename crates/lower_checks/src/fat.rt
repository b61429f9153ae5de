// Fat pointers: a pointer to the first element, how many there are, and an index.

ghost use Rattle.std.specs.Prelude.{◌+◌, ◌∷◌, [], length};
ghost use Rattle.core_meaning.specs.Core as core;
ghost use Rattle.cyc_words.specs.declared.faults.Kind.TheVariants.{ArrayBounds};
ghost use Rattle.cyc_core.specs.Trees.{failure_body};
ghost use Rattle.source_meaning.specs.Programs.{world_of};
ghost use Rattle.source_lowering.specs.Lowered.{all_of, count_code, fat_code, reach_code, to_fat_code, to_thin_code};
ghost use Rattle.source_lowering.specs.Pieces.{bounds_code, element_code, raised, reached_code};
ghost use Rattle.source_lowering.specs.Layouts.{extent_of};
ghost use Rattle.source_lowering.specs.Members.{index_code};
ghost use Rattle.source_lowering.specs.Operators.{enough_code, one_code, several_code};
ghost use Rattle.source_meaning.specs.Conversions.{cells_of};
ghost use Rattle.lower_checks.specs.Room.{HasRoom};
ghost use Rattle.lower_checks.specs.Views.{reach_tree, shape_tree};
ghost use Rattle.lower_checks.specs.Writing.{Emits};

use crate::body::Body;
use crate::names::behind;
use crate::shape::{Reach, Shape};
use crate::sizes::{count, extent};
use crate::table::Table;
use crate::values::{lower_check, lower_null};
use cyc_core::{Binary, Failure, Operation, Origin, Statement, Temporary};
use cyc_tree::Operator;
use cyc_words::Kind;

/// Appends the count behind a pointer, and the index 0.
pub fn lower_bounds(body: &mut Body<'_>, pointer: Temporary, count: u32)
    requires room { HasRoom pointer.0 2 }
    ensures { Emits body.old body.new (bounds_code pointer.0 count) }
{
    let at = behind(pointer, 1);
    body.operation(Operation::Constant(at, count));
    let index = behind(pointer, 2);
    body.operation(Operation::Constant(index, 0));
}

/// Appends what leaves a pointer in a temporary, moved by as many elements of a shape as an index says, in another one.
pub fn lower_moved(
    program: &Table<'_>,
    element: &Shape<'_>,
    body: &mut Body<'_>,
    to: Temporary,
    pointer: Temporary,
    index: Temporary,
)
    ensures { let w = world_of program.now in
        let s = shape_tree element.now in
        Emits body.old body.new (core.Do (core.Element to.0 pointer.0 index.0 (length (cells_of w s)) (extent_of w s).size) ∷ []) }
{
    let cells = count(program, *element);
    let size = extent(program, *element).size;
    body.operation(Operation::Element(to, pointer, index, cells, size));
}

/// Appends what follows the comparison of a fat pointer's index with its count, in the temporary of the count: where the index isn't
/// below it, what a failure raises, and else a temporary gets the element.
fn lower_reached(
    program: &Table<'_>,
    element: &Shape<'_>,
    body: &mut Body<'_>,
    to: Temporary,
    pointer: Temporary,
    failure: Failure,
    at: Origin,
)
    requires room { HasRoom pointer.0 2 }
    ensures { Emits body.old body.new
        (reached_code (world_of program.now) (shape_tree element.now) to.0 pointer.0 (failure_body failure)) }
{
    let below = behind(pointer, 1);
    let index = behind(pointer, 2);
    body.check(below, failure, at);
    lower_moved(program, element, body, to, pointer, index);
}

/// Appends the comparison of a fat pointer's index with its count, which comes into the count's temporary.
fn lower_below(body: &mut Body<'_>, pointer: Temporary)
    requires room { HasRoom pointer.0 2 }
    ensures { Emits body.old body.new (core.Do (core.Apply core.LessUnsigned (pointer.0 + 1) (pointer.0 + 2) (pointer.0 + 1)) ∷ []) }
{
    let count = behind(pointer, 1);
    let index = behind(pointer, 2);
    body.operation(Operation::Apply(Binary::LessUnsigned, count, index, count));
}

/// Appends what leaves the element of a shape to which the fat pointer in a temporary and those behind it leads in another one. Where its
/// index isn't below its count, NULL raises its exception, and each other one the other.
pub fn lower_element(
    program: &Table<'_>,
    element: &Shape<'_>,
    body: &mut Body<'_>,
    to: Temporary,
    pointer: Temporary,
    at: Origin,
)
    requires room { HasRoom pointer.0 2 }
    ensures { Emits body.old body.new (element_code (world_of program.now) (shape_tree element.now) to.0 pointer.0) }
{
    lower_below(body, pointer);
    let failure = Failure::ByTest(pointer, Kind::ArrayBounds, Kind::NullException);
    lower_reached(program, element, body, to, pointer, failure, at);
}

/// Appends what leaves a pointer to what a pointer of a shape leads to in its temporary; raises where it leads to nothing.
pub fn lower_reach(
    program: &Table<'_>,
    shape: &Shape<'_>,
    body: &mut Body<'_>,
    pointer: Temporary,
    at: Origin,
)
    requires room { HasRoom pointer.0 2 }
    ensures { Emits body.old body.new (reach_code (world_of program.now) (shape_tree shape.now) pointer.0) }
{
    match shape {
        Shape::Fat(to) => lower_element(program, &to.shape(), body, pointer, pointer, at),
        _ => lower_check(body, shape, pointer, at),
    }
}

/// Appends what leaves a pointer to the element of a shape in the temporary of its subscript, where the fat pointer is in the three
/// behind it.
pub fn lower_index(
    program: &Table<'_>,
    element: &Shape<'_>,
    body: &mut Body<'_>,
    subscript: Temporary,
    at: Origin,
)
    requires room { HasRoom subscript.0 3 }
    ensures { Emits body.old body.new (index_code (world_of program.now) (shape_tree element.now) subscript.0) }
{
    let pointer = behind(subscript, 1);
    let index = behind(subscript, 3);
    body.operation(Operation::Apply(Binary::Add, index, index, subscript));
    lower_element(program, element, body, subscript, pointer, at);
}

/// Appends how many elements a fat pointer leads to: its count less its index where that is below, and 0 else.
pub fn lower_count(body: &mut Body<'_>, pointer: Temporary)
    requires room { HasRoom pointer.0 2 }
    ensures { Emits body.old body.new (count_code pointer.0) }
{
    let count = behind(pointer, 1);
    let index = behind(pointer, 2);
    body.operation(Operation::Apply(Binary::LessUnsigned, pointer, index, count));
    body.operation(Operation::Apply(Binary::Subtract, count, count, index));
    body.operation(Operation::Apply(Binary::Multiply, pointer, pointer, count));
}

/// Appends what moves a fat pointer by the integer behind it, or compares it with NULL.
pub fn lower_fat(body: &mut Body<'_>, operator: Operator, pointer: Temporary)
    requires room { HasRoom pointer.0 3 }
    ensures { Emits body.old body.new (fat_code operator pointer.0) }
{
    let index = behind(pointer, 2);
    let by = behind(pointer, 3);
    match operator {
        Operator::Add => body.operation(Operation::Apply(Binary::Add, index, index, by)),
        Operator::Subtract => body.operation(Operation::Apply(Binary::Subtract, index, index, by)),
        _ => lower_null(body, operator, pointer, pointer),
    }
}

/// Appends what makes a fat pointer of a thin one of a bound that may be NULL: it has that number of elements, and NULL none.
fn lower_counted(body: &mut Body<'_>, pointer: Temporary, count: u32)
    requires room { HasRoom pointer.0 2 }
    ensures { Emits body.old body.new
        (core.If pointer.0 (all_of (core.Do (core.Constant (pointer.0 + 1) count) ∷ [])) (all_of (core.Do (core.Constant (pointer.0 + 1) 0) ∷ []))
        ∷ core.Do (core.Constant (pointer.0 + 2) 0) ∷ []) }
{
    let at = behind(pointer, 1);
    let index = behind(pointer, 2);
    let origin = body.at;
    let these = body.alone(Statement::Do(origin, Operation::Constant(at, count)));
    let those = body.alone(Statement::Do(origin, Operation::Constant(at, 0)));
    body.branch(pointer, these, those);
    body.operation(Operation::Constant(index, 0));
}

/// Appends what makes a fat pointer of a thin one of a shape: it has as many elements as its bound says, and NULL none.
pub fn lower_to_fat(body: &mut Body<'_>, from: &Shape<'_>, pointer: Temporary)
    requires room { HasRoom pointer.0 2 }
    ensures { Emits body.old body.new (to_fat_code (shape_tree from.now) pointer.0) }
{
    match from {
        Shape::Thin(bound, _, _) => {
            let count = bound.count();
            match bound {
                Reach::MayBeNull(_) => lower_counted(body, pointer, count),
                Reach::NeverNull(_) => lower_bounds(body, pointer, count),
            }
        }
        Shape::Address(_, _, _) => lower_bounds(body, pointer, 1),
        _ => {}
    }
}

/// Appends what raises where a fat pointer's index isn't below its count, or fewer elements than this number are left from there on.
fn lower_remaining(body: &mut Body<'_>, pointer: Temporary, least: u32, at: Origin)
    requires room { HasRoom pointer.0 3 }
    ensures { let d = pointer.0 in
        Emits body.old body.new
        (core.Do (core.Apply core.LessUnsigned (d + 3) (d + 2) (d + 1)) ∷ core.If (d + 3) core.NoStatements (raised ArrayBounds)
        ∷ core.Do (core.Apply core.Subtract (d + 1) (d + 1) (d + 2)) ∷ core.Do (core.Constant (d + 3) least)
        ∷ core.Do (core.Apply core.LessUnsigned (d + 1) (d + 1) (d + 3)) ∷ core.If (d + 1) (raised ArrayBounds) core.NoStatements ∷ []) }
{
    let count = behind(pointer, 1);
    let index = behind(pointer, 2);
    let free = behind(pointer, 3);
    body.operation(Operation::Apply(Binary::LessUnsigned, free, index, count));
    body.raise_unless(free, Kind::ArrayBounds, at);
    body.operation(Operation::Apply(Binary::Subtract, count, count, index));
    body.operation(Operation::Constant(free, least));
    body.operation(Operation::Apply(Binary::LessUnsigned, count, count, free));
    let bounds = body.raising(Kind::ArrayBounds, at);
    body.branch(count, bounds, Vec::new(body.alloc));
}

/// Appends what leaves a pointer to the element of a shape to which a fat pointer leads that isn't NULL; raises where its index isn't below
/// its count.
fn lower_one(
    program: &Table<'_>,
    element: &Shape<'_>,
    body: &mut Body<'_>,
    pointer: Temporary,
    at: Origin,
)
    requires room { HasRoom pointer.0 3 }
    ensures { Emits body.old body.new (one_code (world_of program.now) (shape_tree element.now) pointer.0) }
{
    lower_below(body, pointer);
    let failure = Failure::Always(Kind::ArrayBounds);
    lower_reached(program, element, body, pointer, pointer, failure, at);
}

/// Appends the same; raises also where fewer elements than this number are left from there on.
fn lower_several(
    program: &Table<'_>,
    element: &Shape<'_>,
    body: &mut Body<'_>,
    pointer: Temporary,
    least: u32,
    at: Origin,
)
    requires room { HasRoom pointer.0 3 }
    ensures { Emits body.old body.new (several_code (world_of program.now) least (shape_tree element.now) pointer.0) }
{
    let index = behind(pointer, 2);
    lower_remaining(body, pointer, least, at);
    lower_moved(program, element, body, pointer, pointer, index);
}

/// Appends either: where one element is asked for, the current one is enough.
fn lower_enough(
    program: &Table<'_>,
    element: &Shape<'_>,
    body: &mut Body<'_>,
    pointer: Temporary,
    least: u32,
    at: Origin,
)
    requires room { HasRoom pointer.0 3 }
    ensures { Emits body.old body.new (enough_code (world_of program.now) least (shape_tree element.now) pointer.0) }
{
    if least == 1 {
        lower_one(program, element, body, pointer, at);
    } else {
        lower_several(program, element, body, pointer, least, at);
    }
}

/// Appends the same where a fat pointer isn't NULL, which stays as it is.
fn lower_unless_null(
    program: &Table<'_>,
    element: &Shape<'_>,
    body: &mut Body<'_>,
    pointer: Temporary,
    least: u32,
    at: Origin,
)
    requires room { HasRoom pointer.0 3 }
    ensures { Emits body.old body.new
        (core.If pointer.0 (all_of (enough_code (world_of program.now) least (shape_tree element.now) pointer.0)) core.NoStatements ∷ []) }
{
    let outer = body.begin();
    lower_enough(program, element, body, pointer, least, at);
    let these = body.end(outer);
    body.branch(pointer, these, Vec::new(body.alloc));
}

/// Appends what makes a thin pointer of a bound to a shape of a fat one. NULL stays NULL, or raises where the thin one is never NULL; as
/// many elements as the bound says have to be there.
pub fn lower_to_thin(
    program: &Table<'_>,
    bound: Reach,
    element: &Shape<'_>,
    body: &mut Body<'_>,
    pointer: Temporary,
    at: Origin,
)
    requires room { HasRoom pointer.0 3 }
    ensures { Emits body.old body.new (to_thin_code (world_of program.now) (reach_tree bound) (shape_tree element.now) pointer.0) }
{
    let least = bound.count();
    match bound {
        Reach::MayBeNull(_) => lower_unless_null(program, element, body, pointer, least, at),
        Reach::NeverNull(_) => {
            body.raise_unless(pointer, Kind::NullException, at);
            lower_enough(program, element, body, pointer, least, at);
        }
    }
}
