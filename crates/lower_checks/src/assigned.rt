// Expressions as statements: a struct or a union that is assigned, made or read, or a word whose value is dropped.

ghost use Rattle.std.specs.Prelude.{◌+◌, ◌++◌, ◌∷◌, [], length};
ghost use Rattle.core_meaning.specs.Core as core;
ghost use Rattle.cyc_tree.specs.Tree.{Expression as tree};
ghost use Rattle.cyc_tree.specs.View.{expression_tree};
ghost use Rattle.source_lowering.specs.Layouts.{layout_of};
ghost use Rattle.source_lowering.specs.Lowered.{expression_code, expression_values, place_code, static_shape};
ghost use Rattle.source_lowering.specs.Whole.{
  dropped_code,
  dropped_values,
  run_code,
  run_values,
  whole_code,
  whole_values,
};
ghost use Rattle.source_lowering.specs.Lowerable.{
  IsWholeShape,
  Takes,
  TakesDropped,
  TakesPlace,
  TakesRun,
  TakesWhole,
};
ghost use Rattle.cyc_tree.specs.Room.{room};
ghost use Rattle.lower_checks.specs.Room.{HasRoom};
ghost use Rattle.lower_checks.specs.Scoped.{names_in, world_in};
ghost use Rattle.lower_checks.specs.Writing.{IsSound, Writes, next_of};

use crate::body::Body;
use crate::expression::{lower_assign, lower_expression};
use crate::names::behind;
use crate::objects::lower_copy;
use crate::place::lower_place;
use crate::scope::Scope;
use crate::shape::Shape;
use crate::shaped::{makes, shape_of};
use crate::whole::lower_whole;
use cyc_core::{Origin, Temporary};
use cyc_tree::Expression;

/// Appends what evaluates a struct or a union, and copies it to a place of its type; appends the shapes of the temporary objects, those of the value
/// first.
fn lower_assigned<'p>(
    scope: &Scope<'_, 'p>,
    place: &'p Expression,
    value: &'p Expression,
    body: &mut Body<'p>,
    to: Temporary,
)
    requires room { HasRoom to.0 (1 + (room (expression_tree place.now) + room (expression_tree value.now))) }
    requires taken { let w = world_in scope.now in
        let names = names_in scope.now in
        let p = expression_tree place.now in
        IsSound body.old → TakesPlace w names p × (TakesWhole w names (expression_tree value.now) × IsWholeShape w.unions w.structs (static_shape w names p)) }
    ensures writes { let w = world_in scope.now in
        let names = names_in scope.now in
        let p = expression_tree place.entry.now in
        let v = expression_tree value.entry.now in
        let number = next_of body.old in
        Writes body.old body.new
        (whole_code w names v to.0 number ++
        (place_code w names p (to.0 + 1) (number + length (whole_values w names v)) ++
        (core.Do (core.Copy (to.0 + 1) to.0 (layout_of w (static_shape w names p))) ∷ [])))
        (whole_values w names v ++ expression_values w names p) }
{
    lower_whole(scope, value, body, to);
    let at = behind(to, 1);
    let shape = lower_place(scope, place, body, at);
    lower_copy(scope.program, &shape, body, at, to);
}

/// Appends what evaluates a word or a fat pointer, and stores it in a place, which may hold a unique pointer; appends the shapes of the
/// temporary objects, those of the value first.
fn lower_given<'p>(
    scope: &Scope<'_, 'p>,
    place: &'p Expression,
    value: &'p Expression,
    body: &mut Body<'p>,
    to: Temporary,
)
    requires room { HasRoom to.0 (room (tree.Assign (expression_tree place.now) (expression_tree value.now))) }
    requires taken { let w = world_in scope.now in
        let names = names_in scope.now in
        IsSound body.old → TakesPlace w names (expression_tree place.now) × Takes w names (expression_tree value.now) }
    ensures writes { let w = world_in scope.now in
        let names = names_in scope.now in
        let p = expression_tree place.entry.now in
        let v = expression_tree value.entry.now in
        Writes body.old body.new (expression_code w names (tree.Assign p v) to.0 (next_of body.old)) (expression_values w names v ++ expression_values w names p) }
{
    let from = lower_expression(scope, value, body, to);
    lower_assign(scope, place, body, &from, to, Origin(value.place()));
}

/// Appends what evaluates an expression, and drops its value; appends the shapes of the temporary objects.
fn lower_dropped<'p>(
    scope: &Scope<'_, 'p>,
    expression: &'p Expression,
    body: &mut Body<'p>,
    to: Temporary,
)
    requires room { HasRoom to.0 (room (expression_tree expression.now)) }
    requires taken { let w = world_in scope.now in
        let names = names_in scope.now in
        let e = expression_tree expression.now in
        IsSound body.old → TakesDropped w names (static_shape w names e) e }
    ensures writes { let w = world_in scope.now in
        let names = names_in scope.now in
        let e = expression_tree expression.entry.now in
        let s = static_shape w names e in
        Writes body.old body.new (dropped_code w names s e to.0 (next_of body.old)) (dropped_values w names s e) }
{
    match body.known(shape_of(scope, expression)) {
        Shape::Struct(_) | Shape::Union(_) => lower_whole(scope, expression, body, to),
        _ => {
            lower_expression(scope, expression, body, to);
        }
    }
}

/// Appends what runs an expression, whose value is dropped; appends the shapes of its temporary objects. The next temporary object's number is
/// how many there are.
pub fn lower_run<'p>(
    scope: &Scope<'_, 'p>,
    expression: &'p Expression,
    body: &mut Body<'p>,
    to: Temporary,
)
    requires room { HasRoom to.0 (room (expression_tree expression.now)) }
    requires taken { IsSound body.old → TakesRun (world_in scope.now) (names_in scope.now) (expression_tree expression.now) }
    ensures writes { let w = world_in scope.now in
        let names = names_in scope.now in
        let e = expression_tree expression.entry.now in
        Writes body.old body.new (run_code w names e to.0 (next_of body.old)) (run_values w names e) }
{
    match expression {
        Expression::Assign(place, value) => {
            match body.known(shape_of(scope, place)) {
                Shape::Struct(_) | Shape::Union(_) => {
                    lower_assigned(scope, place, value, body, to)
                }
                _ => lower_given(scope, place, value, body, to),
            }
        }
        Expression::Grouped(_, inner) => lower_run(scope, inner, body, to),
        Expression::Call(name, _) => {
            if makes(scope.program, &name.text) {
                lower_whole(scope, expression, body, to);
            } else {
                lower_expression(scope, expression, body, to);
            }
        }
        Expression::Variable(_)
        | Expression::Text(_, _)
        | Expression::Suffixed(_, _)
        | Expression::Prefixed(_, _, _)
        | Expression::Number(_, _, _)
        | Expression::Character(_, _)
        | Expression::Null(_)
        | Expression::HeapRegion(_)
        | Expression::NumElts(_, _)
        | Expression::New(_, _)
        | Expression::NewIn(_, _, _)
        | Expression::Chain(_, _)
        | Expression::AllOf(_, _)
        | Expression::AnyOf(_, _)
        | Expression::MakeUnion(_, _, _)
        | Expression::UniqueRegion(_) => lower_dropped(scope, expression, body, to),
    }
}
