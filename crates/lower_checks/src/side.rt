// The sides of an exchange: how code reaches them, and how their values are read and written.

ghost use Rattle.std.specs.Prelude.{◌≡◌};
ghost use Rattle.cyc_tree.specs.View.{expression_tree};
ghost use Rattle.source_lowering.specs.Lowered.{expression_values, local_named, place_code};
ghost use Rattle.source_lowering.specs.Lowerable.{TakesPlace};
ghost use Rattle.source_lowering.specs.Programs.{local_side, named_side, side_code, side_of, side_read, side_written};
ghost use Rattle.cyc_tree.specs.Room.{room};
ghost use Rattle.lower_checks.specs.Room.{HasRoom};
ghost use Rattle.lower_checks.specs.Scoped.{names_in, world_in};
ghost use Rattle.lower_checks.specs.Views.{shape_tree, side_tree, stored_tree};
ghost use Rattle.lower_checks.specs.Writing.{Emits, IsSound, Writes, next_of};

use crate::body::Body;
use crate::member::Reached;
use crate::names::Named;
use crate::place::lower_place;
use crate::scope::Scope;
use crate::shape::Shape;
use crate::stored::Stored;
use crate::variable::place_of;
use crate::words::{lower_loads, lower_stores};
use cyc_core::{Operation, Temporary, Variable, Width};
use cyc_tree::Expression;

/// How code reaches a side of an exchange.
#[derive(Clone, Copy)]
pub enum Side {
    /// By its name: a local of one word, which has this width.
    ByName(Variable, Width),
    /// By a pointer to its place.
    ByPlace,
}

/// How code reaches a local: by its name, if it is one word.
fn local_side(local: &Named<'_>) -> Side
    ensures { side_tree result ≡ local_side (stored_tree local.now.stored) local.now.out local.now.index }
{
    match local.stored {
        Stored::Array(_, _) | Stored::One(Shape::Fat(_) | Shape::Struct(_) | Shape::Union(_)) => {
            Side::ByPlace
        }
        Stored::One(shape) => Side::ByName(place_of(local), shape.width()),
    }
}

/// How code reaches what a name stands for: a local of one word by its name, and all else by its place.
fn named_side(scope: &Scope<'_, '_>, name: &[u8]) -> Side
    ensures { side_tree result ≡ named_side (local_named (names_in scope.now) name.now) }
{
    match scope.named(name) {
        Some(local) => local_side(&local),
        None => Side::ByPlace,
    }
}

/// How code reaches the side that an expression is, in parentheses too.
#[cycle(side)]
fn side_of(scope: &Scope<'_, '_>, place: &Expression) -> Side
    ensures { side_tree result ≡ side_of (names_in scope.now) (expression_tree place.now) }
{
    match place {
        Expression::Variable(name) => named_side(scope, &name.text),
        Expression::Grouped(_, inner) => side_of(scope, inner),
        _ => Side::ByPlace,
    }
}

/// Appends what leaves a pointer to a side's place in a temporary, if code reaches it by one; gives how it does, and appends the shapes of
/// the temporary objects.
pub fn lower_side<'p>(
    scope: &Scope<'_, 'p>,
    place: &'p Expression,
    body: &mut Body<'p>,
    to: Temporary,
) -> Side
    requires room { HasRoom to.0 (room (expression_tree place.now)) }
    requires taken { IsSound body.old → TakesPlace (world_in scope.now) (names_in scope.now) (expression_tree place.now) }
    ensures writes { let w = world_in scope.now in
        let names = names_in scope.now in
        let e = expression_tree place.entry.now in
        Writes body.old body.new (side_code (side_of names e) (place_code w names e to.0 (next_of body.old))) (expression_values w names e) }
    ensures side { side_tree result ≡ side_of (names_in scope.now) (expression_tree place.entry.now) }
{
    let side = side_of(scope, place);
    match side {
        Side::ByName(_, _) => side,
        Side::ByPlace => {
            lower_place(scope, place, body, to);
            side
        }
    }
}

/// Appends what reads the value of a side into a temporary and those behind it, by the pointer in another one, if code reaches it so.
pub fn lower_side_read(
    side: Side,
    shape: &Shape<'_>,
    body: &mut Body<'_>,
    pointer: Temporary,
    to: Temporary,
)
    requires room { HasRoom to.0 2 }
    ensures { Emits body.old body.new (side_read (side_tree side) (shape_tree shape.now) pointer.0 to.0) }
{
    match side {
        Side::ByName(local, width) => body.operation(Operation::Get(width, to, local)),
        Side::ByPlace => {
            body.operation(Operation::Move(to, pointer));
            lower_loads(body, &Reached::at_once(*shape), to);
        }
    }
}

/// Appends what writes the value in a temporary and those behind it to a side, by the pointer in another one, if code reaches it so.
pub fn lower_side_written(
    side: Side,
    shape: &Shape<'_>,
    body: &mut Body<'_>,
    pointer: Temporary,
    from: Temporary,
)
    requires room { HasRoom from.0 2 }
    ensures { Emits body.old body.new (side_written (side_tree side) (shape_tree shape.now) pointer.0 from.0) }
{
    match side {
        Side::ByName(local, width) => body.operation(Operation::Put(width, from, local)),
        Side::ByPlace => lower_stores(body, &Reached::at_once(*shape), pointer, from),
    }
}
