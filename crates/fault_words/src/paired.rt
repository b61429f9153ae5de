// What is said of two operands that an operator doesn't take.

use cyc_tree::Operator;
use cyc_types::{BaseType, CType, Layer};

/// Whether a type is a struct's or union's.
pub(crate) fn is_whole(of: &CType<'_>) -> bool {
    of.outer().is_none() && matches!(of.base, BaseType::Struct(_, _) | BaseType::Union(_, _))
}

/// Whether an operator says whether two values are the same.
fn compares(operator: Operator) -> bool {
    matches!(operator, Operator::Equal | Operator::NotEqual)
}

/// Whether an operator puts values in order, or gives their difference.
fn orders(operator: Operator) -> bool {
    matches!(
        operator,
        Operator::Less
            | Operator::LessEqual
            | Operator::Greater
            | Operator::GreaterEqual
            | Operator::Subtract
    )
}

/// Whether an operator moves a pointer.
fn moves(operator: Operator) -> bool {
    matches!(operator, Operator::Add | Operator::Subtract)
}

/// What is wanted of the operands of an operator, of which both are pointers.
fn of_pointers(operator: Operator, one: Layer, other: Layer) -> &'static str {
    match (one, other) {
        (Layer::Fat(_), Layer::Fat(_)) if compares(operator) => {
            "Wanted: NULL on one side. Two fat pointers can't be compared.\n"
        }
        _ if orders(operator) => {
            "Wanted: integers. Pointers have no order and no difference: keep indices.\n"
        }
        _ => "",
    }
}

/// What is wanted of the operands of an operator, where it can be said by their types.
pub(crate) fn wanted_of(operator: Operator, one: &CType<'_>, other: &CType<'_>) -> &'static str {
    if is_whole(one) || is_whole(other) {
        return "Wanted: integers or pointers. No operator takes a whole struct or union.\n";
    }
    match (one.outer(), other.outer()) {
        (Some(one), Some(other)) => of_pointers(operator, one, other),
        (Some(Layer::Thin(_, _)), None) if moves(operator) => {
            "Wanted: a `?` or an array. Of other pointers `p[i]` is an element.\n"
        }
        _ => "",
    }
}
