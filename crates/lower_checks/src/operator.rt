// Operators on values that are no thin pointers.

ghost use Rattle.std.specs.Prelude.{◌≡◌};
ghost use Rattle.source_meaning.specs.Operators.{promoted, common, by_type, promoted_shape, common_shape, operator_shape};
ghost use Rattle.source_lowering.specs.Lowered.{type_of, applied_to};
ghost use Rattle.cyc_core.specs.Trees.{binary_tree, operation_tree};
ghost use Rattle.lower_checks.specs.Views.{shape_tree};

use crate::shape::Shape;
use cyc_core::{Binary, Operation, Temporary};
use cyc_tree::Operator;

/// The shape of one operand: a `char` counts as an `int`.
fn promoted<'p>(shape: Shape<'p>) -> Shape<'p>
    ensures shape { shape_tree result ≡ promoted_shape (shape_tree shape.entry) }
    ensures kind { type_of (shape_tree result) ≡ promoted (type_of (shape_tree shape.entry)) }
{
    match shape {
        Shape::Unsigned => Shape::Unsigned,
        _ => Shape::Int,
    }
}

/// The shape of two operands that are integers.
fn common_integer<'p>(left: Shape<'p>, right: Shape<'p>) -> Shape<'p>
    ensures { type_of (shape_tree result) ≡ common (type_of (shape_tree left.entry)) (type_of (shape_tree right.entry)) }
{
    match left {
        Shape::Unsigned => Shape::Unsigned,
        _ => promoted(right),
    }
}

/// The shape of two operands: a fat pointer stays one.
fn common_shape<'p>(left: Shape<'p>, right: Shape<'p>) -> Shape<'p>
    ensures { shape_tree result ≡ common_shape (shape_tree left.entry) (shape_tree right.entry) }
{
    match left {
        Shape::Fat(_) => left,
        Shape::Unsigned => Shape::Unsigned,
        _ => promoted(right),
    }
}

/// The shape of what an operator gives.
pub fn operator_shape<'p>(operator: Operator, left: Shape<'p>, right: Shape<'p>) -> Shape<'p>
    ensures { shape_tree result ≡ operator_shape operator (shape_tree left.entry) (shape_tree right.entry) }
{
    match operator {
        Operator::Equal
        | Operator::NotEqual
        | Operator::Less
        | Operator::LessEqual
        | Operator::Greater
        | Operator::GreaterEqual => Shape::Int,
        Operator::ShiftLeft | Operator::ShiftRight => promoted(left),
        _ => common_shape(left, right),
    }
}

/// The operation on signed numbers, or that on unsigned ones.
fn by_shape(shape: Shape<'_>, on_signed: Binary, on_unsigned: Binary) -> Binary
    ensures { binary_tree result ≡ by_type (type_of (shape_tree shape.entry)) (binary_tree on_signed) (binary_tree on_unsigned) }
{
    match shape {
        Shape::Unsigned => on_unsigned,
        _ => on_signed,
    }
}

/// The operation of an operator, on operands of these shapes in two temporaries.
pub fn applied<'p>(
    operator: Operator,
    left: Shape<'p>,
    right: Shape<'p>,
    to: Temporary,
    x: Temporary,
    y: Temporary,
) -> Operation
    ensures { operation_tree result ≡ applied_to operator (type_of (shape_tree left.entry)) (type_of (shape_tree right.entry)) to.0 x.0 y.0 }
{
    let both = common_integer(left, right);
    let less = by_shape(both, Binary::Less, Binary::LessUnsigned);
    let at_most = by_shape(both, Binary::LessEqual, Binary::LessEqualUnsigned);
    match operator {
        Operator::BitOr => Operation::Apply(Binary::Or, to, x, y),
        Operator::BitXor => Operation::Apply(Binary::Xor, to, x, y),
        Operator::BitAnd => Operation::Apply(Binary::And, to, x, y),
        Operator::Equal => Operation::Apply(Binary::Equal, to, x, y),
        Operator::NotEqual => Operation::Apply(Binary::NotEqual, to, x, y),
        Operator::Less => Operation::Apply(less, to, x, y),
        Operator::LessEqual => Operation::Apply(at_most, to, x, y),
        Operator::Greater => Operation::Apply(less, to, y, x),
        Operator::GreaterEqual => Operation::Apply(at_most, to, y, x),
        Operator::ShiftLeft => Operation::Apply(Binary::ShiftLeft, to, x, y),
        Operator::ShiftRight => {
            let shift = by_shape(left, Binary::ShiftRight, Binary::ShiftRightUnsigned);
            Operation::Apply(shift, to, x, y)
        }
        Operator::Add => Operation::Apply(Binary::Add, to, x, y),
        Operator::Subtract => Operation::Apply(Binary::Subtract, to, x, y),
        Operator::Multiply => Operation::Apply(Binary::Multiply, to, x, y),
        Operator::Divide => {
            let divide = by_shape(both, Binary::Divide, Binary::DivideUnsigned);
            Operation::Apply(divide, to, x, y)
        }
        Operator::Remainder => {
            let remainder = by_shape(both, Binary::Remainder, Binary::RemainderUnsigned);
            Operation::Apply(remainder, to, x, y)
        }
    }
}
