// Operands and arguments, one after the other.

ghost use Rattle.std.specs.Prelude.{◌≡◌, ◌+◌, ◌++◌, map};
ghost use Rattle.cyc_tree.specs.View.{expression_tree, expressions_of, link_tree, links_of};
ghost use Rattle.source_lowering.specs.Lowered.{
  all_code,
  all_values,
  any_code,
  argument_words,
  arguments_code,
  call_code,
  call_parameters,
  call_shape,
  expression_values,
  link_values,
  linked_shape,
  links_code,
};
ghost use Rattle.source_lowering.specs.Lowerable.{Takes, TakesAll, TakesLinks};
ghost use Rattle.cyc_tree.specs.Room.{argument_room, link_room, room};
ghost use Rattle.lower_checks.specs.Room.{HasRoom};
ghost use Rattle.lower_checks.specs.Scoped.{names_in, world_in};
ghost use Rattle.lower_checks.specs.Views.{shape_tree};
ghost use Rattle.lower_checks.specs.Writing.{IsApart, IsSound, Writes, next_of};

use crate::body::Body;
use crate::call::{call_parameters, lower_call};
use crate::expression::lower_expression;
use crate::names::behind;
use crate::operator::operator_shape;
use crate::scope::Scope;
use crate::shape::Shape;
use crate::shaped::call_shape;
use crate::values::{lower_conversion, lower_operator, lower_word};
use cyc_core::{Origin, Temporary};
use cyc_tree::{Expression, Link};

/// Appends what applies the operators of a chain to the value in a temporary and those behind it, which has this shape; gives the result's shape.
#[cycle(expression)]
pub fn lower_links<'p>(
    scope: &Scope<'_, 'p>,
    links: &'p [Link],
    body: &mut Body<'p>,
    first: Shape<'p>,
    to: Temporary,
) -> Shape<'p>
    requires room { HasRoom to.0 (16 + link_room (links_of (map link_tree links.now))) }
    requires taken { IsSound body.old → TakesLinks (world_in scope.now) (names_in scope.now) (links_of (map link_tree links.now)) }
    ensures writes { let w = world_in scope.now in
        let names = names_in scope.now in
        let ls = links_of (map link_tree links.entry.now) in
        Writes body.old body.new (links_code w names ls (shape_tree first.entry) to.0 (next_of body.old)) (link_values w names ls) }
    ensures shape { IsSound body.new →
        shape_tree result ≡
        linked_shape (world_in scope.now) (names_in scope.now) (links_of (map link_tree links.entry.now)) (shape_tree first.entry) }
{
    let mut left = first;
    'each: for link in links {
        let right = behind(to, left.words());
        let shape = lower_expression(scope, &link.operand, body, right);
        lower_operator(body, link.operator, &left, &shape, to);
        left = operator_shape(link.operator, left, shape);
    }
    left
}

/// Appends what evaluates the operands of `&&` after the first, each where those before it were not 0.
#[cycle(expression)]
pub fn lower_all<'p>(
    scope: &Scope<'_, 'p>,
    operands: &'p [Expression],
    body: &mut Body<'p>,
    to: Temporary,
)
    requires room { HasRoom to.0 (16 + argument_room (expressions_of (map expression_tree operands.now))) }
    requires taken { IsSound body.old → TakesAll (world_in scope.now) (names_in scope.now) (expressions_of (map expression_tree operands.now)) }
    ensures writes { let w = world_in scope.now in
        let names = names_in scope.now in
        let es = expressions_of (map expression_tree operands.entry.now) in
        Writes body.old body.new (all_code w names es to.0 (next_of body.old)) (all_values w names es) }
{
    'each: for operand in operands {
        let outer = body.begin();
        let shape = lower_expression(scope, operand, body, to);
        lower_word(body, &shape, to);
        let these = body.end(outer);
        body.branch(to, these, Vec::new(body.alloc));
    }
}

/// Appends what evaluates the operands of `||` after the first, each where those before it were 0.
#[cycle(expression)]
pub fn lower_any<'p>(
    scope: &Scope<'_, 'p>,
    operands: &'p [Expression],
    body: &mut Body<'p>,
    to: Temporary,
)
    requires room { HasRoom to.0 (16 + argument_room (expressions_of (map expression_tree operands.now))) }
    requires taken { IsSound body.old → TakesAll (world_in scope.now) (names_in scope.now) (expressions_of (map expression_tree operands.now)) }
    ensures writes { let w = world_in scope.now in
        let names = names_in scope.now in
        let es = expressions_of (map expression_tree operands.entry.now) in
        Writes body.old body.new (any_code w names es to.0 (next_of body.old)) (all_values w names es) }
{
    'each: for operand in operands {
        let outer = body.begin();
        let shape = lower_expression(scope, operand, body, to);
        lower_word(body, &shape, to);
        let those = body.end(outer);
        body.branch(to, Vec::new(body.alloc), those);
    }
}

/// Appends what evaluates an argument without a parameter, whose code is dropped: appends the shapes of the temporary objects alone.
#[cycle(expression)]
fn lower_apart<'p>(
    scope: &Scope<'_, 'p>,
    argument: &'p Expression,
    body: &mut Body<'p>,
    to: Temporary,
)
    requires room { HasRoom to.0 (room (expression_tree argument.now)) }
    requires taken { IsSound body.old → Takes (world_in scope.now) (names_in scope.now) (expression_tree argument.now) }
    ensures { IsSound body.new → IsApart body.old body.new (expression_values (world_in scope.now) (names_in scope.now) (expression_tree argument.entry.now)) }
{
    let outer = body.begin();
    lower_expression(scope, argument, body, to);
    body.end(outer);
}

/// Appends what leaves the arguments of a call in the temporaries from this one on, each converted to its parameter's shape; gives how many
/// words they take.
#[cycle(expression)]
#[tactic(auto, using(crate::proofs::Arguments::no_arguments, crate::proofs::Arguments::no_words))]
fn lower_arguments<'p>(
    scope: &Scope<'_, 'p>,
    arguments: &'p [Expression],
    body: &mut Body<'p>,
    shapes: &[Shape<'p>],
    first: Temporary,
) -> u32
    requires room { HasRoom first.0 (16 + argument_room (expressions_of (map expression_tree arguments.now))) }
    requires taken { IsSound body.old → TakesAll (world_in scope.now) (names_in scope.now) (expressions_of (map expression_tree arguments.now)) }
    ensures writes { let w = world_in scope.now in
        let names = names_in scope.now in
        let es = expressions_of (map expression_tree arguments.entry.now) in
        Writes body.old body.new (arguments_code w names (map shape_tree shapes.now) es first.0 (next_of body.old)) (all_values w names es) }
    ensures words { result ≡ argument_words (map shape_tree shapes.now) (expressions_of (map expression_tree arguments.entry.now)) }
{
    let mut left = shapes;
    let mut words = 0;
    'each: for argument in arguments {
        let [shape, others @ ..] = left else {
            lower_apart(scope, argument, body, first);
            continue;
        };
        let to = behind(first, words);
        let from = lower_expression(scope, argument, body, to);
        lower_conversion(
            scope.program,
            body,
            shape,
            &from,
            to,
            Origin(argument.place()),
        );
        left = others;
        words += shape.words();
    }
    words
}

/// Appends a call of the function of a name, after its arguments; gives the shape of its result.
#[cycle(expression)]
pub fn lower_called<'p>(
    scope: &Scope<'_, 'p>,
    arguments: &'p [Expression],
    body: &mut Body<'p>,
    name: &'p [u8],
    to: Temporary,
    at: Origin,
) -> Shape<'p>
    requires room { HasRoom to.0 (16 + argument_room (expressions_of (map expression_tree arguments.now))) }
    requires taken { IsSound body.old → TakesAll (world_in scope.now) (names_in scope.now) (expressions_of (map expression_tree arguments.now)) }
    ensures writes { let w = world_in scope.now in
        let names = names_in scope.now in
        let es = expressions_of (map expression_tree arguments.entry.now) in
        Writes body.old body.new
        (arguments_code w names (call_parameters w name.entry.now) es to.0 (next_of body.old) ++
        call_code w name.entry.now (argument_words (call_parameters w name.entry.now) es) to.0)
        (all_values w names es) }
    ensures shape { IsSound body.new → shape_tree result ≡ call_shape (world_in scope.now) name.entry.now }
{
    match call_parameters(body.alloc, scope.program, name) {
        Ok(shapes) => {
            let words = lower_arguments(scope, arguments, body, &shapes, to);
            lower_call(scope.program, body, name, words, to, at);
            call_shape(scope.program, name)
        }
        Err(_) => {
            body.fail();
            Shape::Void
        }
    }
}
