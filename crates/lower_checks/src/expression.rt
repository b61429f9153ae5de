// Expressions.

ghost use Rattle.std.specs.Prelude.{◌≡◌, ◌+◌, ◌++◌};
ghost use Rattle.cyc_tree.specs.View.{expression_tree};
ghost use Rattle.source_lowering.specs.Lowered.{
  conversion_code,
  expression_code,
  expression_values,
  place_code,
  prefix_code,
  prefix_shape,
  put_code,
  static_shape,
};
ghost use Rattle.source_lowering.specs.Lowerable.{Takes, TakesPlace, TakesPrefix};
ghost use Rattle.cyc_tree.specs.Room.{room};
ghost use Rattle.lower_checks.specs.Room.{HasRoom};
ghost use Rattle.lower_checks.specs.Scoped.{names_in, world_in};
ghost use Rattle.lower_checks.specs.Views.{shape_tree};
ghost use Rattle.lower_checks.specs.Writing.{IsSound, Writes, next_of};

use crate::body::Body;
use crate::fat::lower_count;
use crate::leaf::lower_leaf;
use crate::made::lower_new;
use crate::member::Reached;
use crate::names::behind;
use crate::operands::{lower_all, lower_any, lower_called, lower_links};
use crate::operator::operator_shape;
use crate::place::{lower_place, lower_pointer, lower_put, lower_suffixed};
use crate::scope::Scope;
use crate::shape::{Owner, Shape};
use crate::shaped::{owner_for, shape_of};
use crate::values::{lower_conversion, lower_not, lower_operator, lower_truth, lower_word};
use crate::words::lower_loads;
use cyc_core::{Operation, Origin, Temporary};
use cyc_tree::{Expression, Operator, Prefix};

/// Appends what leaves an expression's value in a temporary, and gives the shape of its type; appends the shapes of its temporary objects.
#[cycle(expression)]
pub fn lower_expression<'p>(
    scope: &Scope<'_, 'p>,
    expression: &'p Expression,
    body: &mut Body<'p>,
    to: Temporary,
) -> Shape<'p>
    requires room { HasRoom to.0 (room (expression_tree expression.now)) }
    requires taken { IsSound body.old → Takes (world_in scope.now) (names_in scope.now) (expression_tree expression.now) }
    ensures writes { let w = world_in scope.now in
        let names = names_in scope.now in
        let e = expression_tree expression.entry.now in
        Writes body.old body.new (expression_code w names e to.0 (next_of body.old)) (expression_values w names e) }
    ensures shape { IsSound body.new →
        shape_tree result ≡ static_shape (world_in scope.now) (names_in scope.now) (expression_tree expression.entry.now) }
{
    match expression {
        Expression::Grouped(_, inner) => lower_expression(scope, inner, body, to),
        Expression::NumElts(_, operand) => {
            lower_expression(scope, operand, body, to);
            lower_count(body, to);
            Shape::Unsigned
        }
        Expression::Suffixed(_, _) => {
            let reached = lower_suffixed(scope, expression, body, to);
            lower_loads(body, &reached, to);
            reached.shape
        }
        Expression::Prefixed(at, operator, operand) => {
            lower_prefixed(scope, operand, body, *operator, to, Origin(*at))
        }
        Expression::New(_, made) => {
            body.operation(Operation::HeapHandle(to));
            lower_new(scope, made, Owner::Shared, body, to)
        }
        Expression::NewIn(_, handle, made) => {
            lower_expression(scope, handle, body, to);
            lower_new(scope, made, owner_for(handle), body, to)
        }
        Expression::Chain(first, links) => {
            let left = lower_expression(scope, first, body, to);
            lower_links(scope, links, body, left, to)
        }
        Expression::AllOf(first, others) => {
            let shape = lower_expression(scope, first, body, to);
            lower_word(body, &shape, to);
            lower_all(scope, others, body, to);
            lower_truth(body, to);
            Shape::Int
        }
        Expression::AnyOf(first, others) => {
            let shape = lower_expression(scope, first, body, to);
            lower_word(body, &shape, to);
            lower_any(scope, others, body, to);
            lower_truth(body, to);
            Shape::Int
        }
        Expression::Assign(place, value) => {
            let from = lower_expression(scope, value, body, to);
            lower_assign(scope, place, body, &from, to, Origin(value.place()))
        }
        Expression::Call(name, arguments) => {
            lower_called(scope, arguments, body, &name.text, to, Origin(name.at))
        }
        _ => lower_leaf(scope, expression, body, to),
    }
}

/// Appends what converts the value in a temporary to a place's shape, and stores it there; gives the place's shape.
#[cycle(expression)]
pub fn lower_assign<'p>(
    scope: &Scope<'_, 'p>,
    place: &'p Expression,
    body: &mut Body<'p>,
    from: &Shape<'_>,
    to: Temporary,
    at: Origin,
) -> Shape<'p>
    requires room { HasRoom to.0 (16 + room (expression_tree place.now)) }
    requires taken { IsSound body.old → TakesPlace (world_in scope.now) (names_in scope.now) (expression_tree place.now) }
    ensures writes { let w = world_in scope.now in
        let names = names_in scope.now in
        let p = expression_tree place.entry.now in
        Writes body.old body.new
        (conversion_code w (static_shape w names p) (shape_tree from.now) to.0 ++ put_code w names p to.0 (next_of body.old))
        (expression_values w names p) }
    ensures shape { IsSound body.new →
        shape_tree result ≡ static_shape (world_in scope.now) (names_in scope.now) (expression_tree place.entry.now) }
{
    let shape = body.known(shape_of(scope, place));
    lower_conversion(scope.program, body, &shape, from, to, at);
    lower_put(scope, place, body, to);
    shape
}

/// Appends what applies a prefix operator to its operand, and leaves the result in a temporary; gives the result's shape.
#[cycle(expression)]
fn lower_prefixed<'p>(
    scope: &Scope<'_, 'p>,
    operand: &'p Expression,
    body: &mut Body<'p>,
    operator: Prefix,
    to: Temporary,
    at: Origin,
) -> Shape<'p>
    requires room { HasRoom to.0 (16 + room (expression_tree operand.now)) }
    requires taken { let w = world_in scope.now in
        let names = names_in scope.now in
        let e = expression_tree operand.now in
        IsSound body.old → TakesPrefix operator (static_shape w names e) (Takes w names e) (TakesPlace w names e) }
    ensures writes { let w = world_in scope.now in
        let names = names_in scope.now in
        let e = expression_tree operand.entry.now in
        let number = next_of body.old in
        Writes body.old body.new
        (prefix_code w operator (static_shape w names e) to.0 (expression_code w names e (to.0 + 1) number) (expression_code w names e to.0 number)
        (place_code w names e to.0 number))
        (expression_values w names e) }
    ensures shape { let e = expression_tree operand.entry.now in
        IsSound body.new → shape_tree result ≡ prefix_shape operator (static_shape (world_in scope.now) (names_in scope.now) e) }
{
    let right = behind(to, 1);
    match operator {
        Prefix::Negate => {
            body.operation(Operation::Constant(to, 0));
            let shape = lower_expression(scope, operand, body, right);
            lower_operator(body, Operator::Subtract, &Shape::Int, &shape, to);
            operator_shape(Operator::Subtract, Shape::Int, shape)
        }
        Prefix::Complement => {
            body.operation(Operation::Constant(to, u32::MAX));
            let shape = lower_expression(scope, operand, body, right);
            lower_operator(body, Operator::BitXor, &Shape::Int, &shape, to);
            operator_shape(Operator::BitXor, Shape::Int, shape)
        }
        Prefix::Not => {
            let shape = lower_expression(scope, operand, body, right);
            lower_not(body, &shape, to);
            Shape::Int
        }
        Prefix::Dereference => {
            let shape = lower_pointer(scope, operand, body, to, at);
            lower_loads(body, &Reached::at_once(shape), to);
            shape
        }
        Prefix::AddressOf => {
            let shape = lower_place(scope, operand, body, to);
            body.known(shape.address(scope.alloc, scope.program.arena(), Owner::Shared))
        }
    }
}
