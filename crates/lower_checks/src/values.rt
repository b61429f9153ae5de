// What is done to values whose shapes are known.

ghost use Rattle.std.specs.Prelude.{◌≡◌};
ghost use Rattle.cyc_core.specs.Trees.{operation_tree};
ghost use Rattle.source_lowering.specs.Lowered.{check_code, compared_code, conversion_code, turned_code, pointers_code, null_code, operator_code, truth_code};
ghost use Rattle.source_lowering.specs.Lowered.{word_code, not_code};
ghost use Rattle.source_lowering.specs.Lowered.{thinned_code};
ghost use Rattle.source_lowering.specs.Programs.{first_code};
ghost use Rattle.source_meaning.specs.Programs.{world_of};
ghost use Rattle.lower_checks.specs.Room.{HasRoom};
ghost use Rattle.lower_checks.specs.Views.{reach_tree, shape_tree};
ghost use Rattle.lower_checks.specs.Writing.{Emits};

use crate::body::Body;
use crate::fat::{lower_fat, lower_to_fat, lower_to_thin};
use crate::names::behind;
use crate::operator::applied;
use crate::shape::{Reach, Shape};
use crate::table::Table;
use cyc_core::{Binary, Operation, Origin, Temporary};
use cyc_tree::Operator;
use cyc_words::Kind;

/// Appends what makes 1 of a word that isn't 0.
pub fn lower_truth(body: &mut Body<'_>, to: Temporary)
    requires room { HasRoom to.0 1 }
    ensures { Emits body.old body.new (truth_code to.0) }
{
    let zero = behind(to, 1);
    body.operation(Operation::Constant(zero, 0));
    body.operation(Operation::Apply(Binary::NotEqual, to, to, zero));
}

/// Appends what makes 0 of 1, and 1 of 0.
fn lower_turned(body: &mut Body<'_>, to: Temporary)
    requires room { HasRoom to.0 1 }
    ensures { Emits body.old body.new (turned_code to.0) }
{
    let zero = behind(to, 1);
    body.operation(Operation::Constant(zero, 0));
    body.operation(Operation::Apply(Binary::Equal, to, to, zero));
}

/// Appends what makes a word of an operand of `&&` and `||`: an integer is one already, and of a pointer it is whether it isn't NULL.
pub fn lower_word(body: &mut Body<'_>, shape: &Shape<'_>, to: Temporary)
    requires room { HasRoom to.0 1 }
    ensures { Emits body.old body.new (word_code (shape_tree shape.now) to.0) }
{
    match shape {
        Shape::Thin(_, _, _) | Shape::Address(_, _, _) | Shape::Fat(_) => {
            body.operation(Operation::IsNull(to, to));
            lower_turned(body, to);
        }
        _ => {}
    }
}

/// Appends whether the value in the next temporary is 0, or NULL.
pub fn lower_not(body: &mut Body<'_>, shape: &Shape<'_>, to: Temporary)
    requires room { HasRoom to.0 1 }
    ensures { Emits body.old body.new (not_code (shape_tree shape.now) to.0) }
{
    let right = behind(to, 1);
    match shape {
        Shape::Thin(_, _, _) | Shape::Address(_, _, _) | Shape::Fat(_) => {
            body.operation(Operation::IsNull(to, right));
        }
        _ => {
            body.operation(Operation::Constant(to, 0));
            body.operation(Operation::Apply(Binary::Equal, to, right, to));
        }
    }
}

/// Appends what compares pointers by `==` and `!=`, where an operation leaves whether they are the same in a temporary.
fn lower_compared(body: &mut Body<'_>, operator: Operator, same: Operation, to: Temporary)
    requires room { HasRoom to.0 1 }
    ensures { Emits body.old body.new (compared_code operator (operation_tree same) to.0) }
{
    match operator {
        Operator::Equal => body.operation(same),
        Operator::NotEqual => {
            body.operation(same);
            lower_turned(body, to);
        }
        _ => {}
    }
}

/// Appends what compares the pointers in a temporary and the next.
fn lower_pointers(body: &mut Body<'_>, operator: Operator, to: Temporary)
    requires room { HasRoom to.0 1 }
    ensures { Emits body.old body.new (pointers_code operator to.0) }
{
    let operand = behind(to, 1);
    lower_compared(body, operator, Operation::SamePlace(to, to, operand), to);
}

/// Appends what compares a pointer with NULL.
pub fn lower_null(body: &mut Body<'_>, operator: Operator, to: Temporary, pointer: Temporary)
    requires room { HasRoom to.0 1 }
    ensures { Emits body.old body.new (null_code operator to.0 pointer.0) }
{
    lower_compared(body, operator, Operation::IsNull(to, pointer), to);
}

/// Appends what applies an operator to a value in a temporary and those behind it and the value behind these.
pub fn lower_operator(
    body: &mut Body<'_>,
    operator: Operator,
    left: &Shape<'_>,
    right: &Shape<'_>,
    to: Temporary,
)
    requires room { HasRoom to.0 3 }
    ensures { Emits body.old body.new (operator_code operator (shape_tree left.now) (shape_tree right.now) to.0) }
{
    let operand = behind(to, 1);
    match left {
        Shape::Fat(_) => lower_fat(body, operator, to),
        Shape::Thin(_, _, _) | Shape::Address(_, _, _) => match right {
            Shape::Fat(_) => lower_null(body, operator, to, operand),
            _ => lower_pointers(body, operator, to),
        },
        _ => body.operation(applied(operator, *left, *right, to, to, operand)),
    }
}

/// Appends what raises where a value of a shape that may be NULL is NULL.
pub fn lower_check(body: &mut Body<'_>, shape: &Shape<'_>, value: Temporary, at: Origin)
    ensures { Emits body.old body.new (check_code (shape_tree shape.now) value.0) }
{
    match shape {
        Shape::Thin(Reach::MayBeNull(_), _, _) => {
            body.raise_unless(value, Kind::NullException, at)
        }
        _ => {}
    }
}

/// Appends what makes a thin pointer to a shape of a value in a temporary. One that may be NULL becomes one that never is by a check, and
/// so does a fat one.
fn lower_thinned(
    program: &Table<'_>,
    body: &mut Body<'_>,
    bound: Reach,
    element: &Shape<'_>,
    from: &Shape<'_>,
    value: Temporary,
    at: Origin,
)
    requires room { HasRoom value.0 3 }
    ensures { Emits body.old body.new (thinned_code (world_of program.now) (reach_tree bound) (shape_tree element.now) (shape_tree from.now) value.0) }
{
    match from {
        Shape::Fat(_) => lower_to_thin(program, bound, element, body, value, at),
        _ => match bound {
            Reach::MayBeNull(_) => {}
            Reach::NeverNull(_) => lower_check(body, from, value, at),
        },
    }
}

/// Appends what converts a value in a temporary and those behind it to a shape.
pub fn lower_conversion(
    program: &Table<'_>,
    body: &mut Body<'_>,
    to: &Shape<'_>,
    from: &Shape<'_>,
    value: Temporary,
    at: Origin,
)
    requires room { HasRoom value.0 3 }
    ensures { Emits body.old body.new (conversion_code (world_of program.now) (shape_tree to.now) (shape_tree from.now) value.0) }
{
    match to {
        Shape::Char => match from {
            Shape::Char => {}
            _ => body.operation(Operation::Narrow(value, value)),
        },
        Shape::Thin(bound, _, element) => {
            lower_thinned(program, body, *bound, &element.shape(), from, value, at)
        }
        Shape::Address(_, _, _) => {
            lower_thinned(
                program,
                body,
                Reach::NeverNull(1),
                &to.pointee(),
                from,
                value,
                at,
            )
        }
        Shape::Fat(_) => lower_to_fat(body, from, value),
        _ => {}
    }
}

/// What a local of a shape begins with, in a temporary.
pub fn first_value(shape: &Shape<'_>, to: Temporary) -> Operation
    ensures { operation_tree result ≡ first_code (shape_tree shape.now) to.0 }
{
    match shape {
        Shape::Thin(_, _, _) | Shape::Address(_, _, _) => Operation::NullPointer(to),
        _ => Operation::Constant(to, 0),
    }
}
