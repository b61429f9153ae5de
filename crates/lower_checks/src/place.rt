// Places: variables, members, and what pointers lead to.

ghost use Rattle.std.specs.Prelude.{◌≡◌, ◌≤◌, ◌+◌, ◌++◌, ◌∷◌, [], map};
ghost use Rattle.cyc_tree.specs.View.{expression_tree, suffix_tree, suffixes_of};
ghost use Rattle.source_meaning.specs.Shapes.{pointee};
ghost use Rattle.source_lowering.specs.Lowered.{
  expression_code,
  expression_values,
  left_of,
  place_code,
  put_code,
  reach_code,
  static_shape,
  stores_code,
  suffix_values,
};
ghost use Rattle.source_lowering.specs.Members.{words_in};
ghost use Rattle.source_lowering.specs.Lowerable.{Takes, TakesIndices, TakesPlace, TakesSuffixes};
ghost use Rattle.cyc_tree.specs.Room.{room, suffix_room};
ghost use Rattle.lower_checks.specs.Reaching.{
  IsLeftAt,
  TakesSuffixed,
  first_code,
  further_place,
  indices_code,
  indices_in,
  place_at_once,
  reached_place,
  suffixed_left,
};
ghost use Rattle.lower_checks.specs.Room.{HasRoom};
ghost use Rattle.lower_checks.specs.Scoped.{names_in, world_in};
ghost use Rattle.lower_checks.specs.Views.{shape_tree};
ghost use Rattle.lower_checks.specs.Within.{IsWithin};
ghost use Rattle.lower_checks.specs.Writing.{IsSound, Writes, next_of};

use crate::body::Body;
use crate::expression::lower_expression;
use crate::fat::lower_reach;
use crate::member::{Reached, dot, follow, lower_arrow, lower_pointed, reached_in};
use crate::names::behind;
use crate::scope::Scope;
use crate::shape::Shape;
use crate::shaped::shape_of;
use crate::subscript::lower_subscripted;
use crate::variable::{lower_address, lower_named};
use crate::words::lower_stores;
use cyc_core::{Origin, Temporary};
use cyc_tree::{Expression, Prefix, Suffix};

/// Appends what writes the value in a temporary and those behind it to a place: a variable, a member, or what a pointer leads to, in
/// parentheses too.
#[cycle(expression)]
pub fn lower_put<'p>(
    scope: &Scope<'_, 'p>,
    place: &'p Expression,
    body: &mut Body<'p>,
    from: Temporary,
)
    requires room { HasRoom from.0 (16 + room (expression_tree place.now)) }
    requires taken { IsSound body.old → TakesPlace (world_in scope.now) (names_in scope.now) (expression_tree place.now) }
    ensures writes { let w = world_in scope.now in
        let names = names_in scope.now in
        let e = expression_tree place.entry.now in
        Writes body.old body.new (put_code w names e from.0 (next_of body.old)) (expression_values w names e) }
{
    match place {
        Expression::Variable(name) => lower_named(scope, body, &name.text, from),
        Expression::Grouped(_, inner) => lower_put(scope, inner, body, from),
        Expression::Suffixed(_, _) => {
            let shape = body.known(shape_of(scope, place));
            let at = behind(from, shape.words());
            let reached = lower_suffixed(scope, place, body, at);
            lower_stores(body, &reached, at, from);
        }
        Expression::Prefixed(at, Prefix::Dereference, operand) => {
            lower_through(scope, operand, body, from, Origin(*at))
        }
        _ => body.never(),
    }
}

/// Appends what writes the value in a temporary and those behind it to what a pointer leads to, and raises where it leads to nothing.
#[cycle(expression)]
fn lower_through<'p>(
    scope: &Scope<'_, 'p>,
    pointer: &'p Expression,
    body: &mut Body<'p>,
    from: Temporary,
    star: Origin,
)
    requires room { HasRoom from.0 (16 + room (expression_tree pointer.now)) }
    requires taken { IsSound body.old → Takes (world_in scope.now) (names_in scope.now) (expression_tree pointer.now) }
    ensures writes { let w = world_in scope.now in
        let names = names_in scope.now in
        let e = expression_tree pointer.entry.now in
        let s = static_shape w names e in
        let at = from.0 + words_in (pointee s) in
        Writes body.old body.new ((expression_code w names e at (next_of body.old) ++ reach_code w s at) ++ stores_code (pointee s) at from.0 0 0)
        (expression_values w names e) }
{
    let of = body.known(shape_of(scope, pointer)).pointee();
    let at = behind(from, of.words());
    let shape = lower_pointer(scope, pointer, body, at, star);
    lower_stores(body, &Reached::at_once(shape), at, from);
}

/// Appends what leaves a pointer to what an expression leads to in a temporary, and raises where it leads to nothing; gives the shape of what
/// it leads to.
#[cycle(expression)]
pub fn lower_pointer<'p>(
    scope: &Scope<'_, 'p>,
    pointer: &'p Expression,
    body: &mut Body<'p>,
    to: Temporary,
    at: Origin,
) -> Shape<'p>
    requires room { HasRoom to.0 (3 + room (expression_tree pointer.now)) }
    requires taken { IsSound body.old → Takes (world_in scope.now) (names_in scope.now) (expression_tree pointer.now) }
    ensures writes { let w = world_in scope.now in
        let names = names_in scope.now in
        let e = expression_tree pointer.entry.now in
        Writes body.old body.new (expression_code w names e to.0 (next_of body.old) ++ reach_code w (static_shape w names e) to.0)
        (expression_values w names e) }
    ensures shape { IsSound body.new →
        shape_tree result ≡ pointee (static_shape (world_in scope.now) (names_in scope.now) (expression_tree pointer.entry.now)) }
{
    let shape = lower_expression(scope, pointer, body, to);
    lower_reach(scope.program, &shape, body, to, at);
    shape.pointee()
}

/// Appends what leaves a pointer to a place in a temporary: to a variable, a member, or what a pointer leads to, in parentheses too; gives
/// the place's shape.
#[cycle(expression)]
pub fn lower_place<'p>(
    scope: &Scope<'_, 'p>,
    place: &'p Expression,
    body: &mut Body<'p>,
    to: Temporary,
) -> Shape<'p>
    requires room { HasRoom to.0 (room (expression_tree place.now)) }
    requires taken { IsSound body.old → TakesPlace (world_in scope.now) (names_in scope.now) (expression_tree place.now) }
    ensures writes { let w = world_in scope.now in
        let names = names_in scope.now in
        let e = expression_tree place.entry.now in
        Writes body.old body.new (place_code w names e to.0 (next_of body.old)) (expression_values w names e) }
    ensures shape { IsSound body.new →
        shape_tree result ≡ static_shape (world_in scope.now) (names_in scope.now) (expression_tree place.entry.now) }
{
    match place {
        Expression::Variable(name) => lower_address(scope, body, &name.text, to),
        Expression::Grouped(_, inner) => lower_place(scope, inner, body, to),
        Expression::Suffixed(_, _) => {
            let reached = lower_suffixed(scope, place, body, to);
            lower_pointed(body, &reached, to);
            reached.shape
        }
        Expression::Prefixed(at, Prefix::Dereference, operand) => {
            lower_pointer(scope, operand, body, to, Origin(*at))
        }
        _ => {
            body.never();
            Shape::Void
        }
    }
}

/// Appends what leaves the index of a suffix in a temporary, where it has one; gives the temporary behind it; appends the shapes of the
/// temporary objects.
#[cycle(expression)]
fn lower_subscript<'p>(
    scope: &Scope<'_, 'p>,
    suffix: &'p Suffix,
    body: &mut Body<'p>,
    to: Temporary,
) -> Temporary
    requires room { HasRoom to.0 (suffix_room (suffixes_of (suffix_tree suffix.now ∷ []))) }
    requires taken { IsSound body.old → TakesIndices (world_in scope.now) (names_in scope.now) (suffixes_of (suffix_tree suffix.now ∷ [])) }
    ensures writes { let w = world_in scope.now in
        let names = names_in scope.now in
        let ss = suffixes_of (suffix_tree suffix.entry.now ∷ []) in
        Writes body.old body.new (indices_code w names ss to.0 (next_of body.old)) (suffix_values w names ss) }
    ensures behind { result.0 ≡ to.0 + indices_in (suffixes_of (suffix_tree suffix.entry.now ∷ [])) }
{
    match suffix {
        Suffix::Index(index) => {
            lower_expression(scope, index, body, to);
            behind(to, 1)
        }
        Suffix::Dot(_) | Suffix::Arrow(_) => to,
    }
}

/// Appends what leaves the indices of suffixes in the temporaries from one on, the last one first; gives the temporary behind them;
/// appends the shapes of the temporary objects.
#[cycle(expression)]
fn lower_indices<'p>(
    scope: &Scope<'_, 'p>,
    suffixes: &'p [Suffix],
    body: &mut Body<'p>,
    first: Temporary,
) -> Temporary
    requires room { HasRoom first.0 (suffix_room (suffixes_of (map suffix_tree suffixes.now))) }
    requires taken { IsSound body.old → TakesIndices (world_in scope.now) (names_in scope.now) (suffixes_of (map suffix_tree suffixes.now)) }
    ensures writes { let w = world_in scope.now in
        let names = names_in scope.now in
        let ss = suffixes_of (map suffix_tree suffixes.entry.now) in
        Writes body.old body.new (indices_code w names ss first.0 (next_of body.old)) (suffix_values w names ss) }
    ensures behind { result.0 ≡ first.0 + indices_in (suffixes_of (map suffix_tree suffixes.entry.now)) }
{
    let mut to = first;
    'each: for k in 0..suffixes.len() {
        let suffix = &suffixes[suffixes.len() - 1 - k];
        to = lower_subscript(scope, suffix, body, to);
    }
    to
}

/// Appends what the first of some suffixes needs of the primary expression on its left, whose value or place comes into a temporary, and
/// goes on along that suffix; gives what is reached. The index of a subscript is in the temporary before.
#[cycle(expression)]
fn lower_first<'p>(
    scope: &Scope<'_, 'p>,
    primary: &'p Expression,
    first: &Suffix,
    body: &mut Body<'p>,
    to: Temporary,
) -> Reached<'p>
    requires room { HasRoom to.0 (16 + room (expression_tree primary.now)) }
    requires taken { let w = world_in scope.now in
        let names = names_in scope.now in
        let e = expression_tree primary.now in
        IsSound body.old → TakesSuffixes w names (suffixes_of (suffix_tree first.now ∷ [])) (static_shape w names e) (Takes w names e) (TakesPlace w names e) }
    ensures writes { let w = world_in scope.now in
        let names = names_in scope.now in
        let e = expression_tree primary.entry.now in
        let number = next_of body.old in
        Writes body.old body.new
        (first_code w (suffixes_of (suffix_tree first.now ∷ []))
        (left_of (static_shape w names e) (λ d. expression_code w names e d number) (λ d. place_code w names e d number)) to.0)
        (expression_values w names e) }
    ensures place { let w = world_in scope.now in
        IsSound body.new → reached_place result ≡
        further_place w (suffixes_of (suffix_tree first.now ∷ [])) (place_at_once (static_shape w (names_in scope.now) (expression_tree primary.entry.now))) }
    ensures within { IsWithin (world_in scope.now) (reached_place result) }
{
    match first {
        Suffix::Dot(name) => {
            let shape = lower_place(scope, primary, body, to);
            dot(scope.program, &Reached::at_once(shape), &name.text)
        }
        Suffix::Arrow(name) => {
            let shape = lower_expression(scope, primary, body, to);
            lower_arrow(scope.program, &shape, &name.text, body, to, Origin(name.at))
        }
        Suffix::Index(index) => {
            let shape = lower_expression(scope, primary, body, to);
            lower_subscripted(
                scope.program,
                &shape,
                body,
                Temporary(to.0.saturating_sub(1)),
                Origin(index.place()),
            );
            Reached::at_once(shape.pointee())
        }
    }
}

/// Appends what leaves a pointer in a temporary, so far from which lies what an expression with suffixes leads to; gives what is reached
/// there; appends the shapes of the temporary objects.
#[cycle(expression)]
pub fn lower_suffixed<'p>(
    scope: &Scope<'_, 'p>,
    place: &'p Expression,
    body: &mut Body<'p>,
    to: Temporary,
) -> Reached<'p>
    requires room { HasRoom to.0 (room (expression_tree place.now)) }
    requires taken { IsSound body.old → TakesSuffixed (world_in scope.now) (names_in scope.now) (expression_tree place.now) }
    ensures writes { let w = world_in scope.now in
        let names = names_in scope.now in
        let e = expression_tree place.entry.now in
        Writes body.old body.new ((suffixed_left w names e (next_of body.old)).pointer to.0) (expression_values w names e) }
    ensures place { IsSound body.new →
        IsLeftAt (suffixed_left (world_in scope.now) (names_in scope.now) (expression_tree place.entry.now) (next_of body.old)) (reached_place result) to.0 }
    ensures shape { IsSound body.new →
        shape_tree result.shape ≡ static_shape (world_in scope.now) (names_in scope.now) (expression_tree place.entry.now) }
    ensures near { result.bytes ≤ 4096 }
{
    let Expression::Suffixed(primary, suffixes) = place else {
        body.never();
        return Reached::at_once(Shape::Void);
    };
    let Some((first, others)) = suffixes.split_first() else {
        body.never();
        return Reached::at_once(Shape::Void);
    };
    let behind = lower_indices(scope, suffixes, body, to);
    let reached = lower_first(scope, primary, first, body, behind);
    let pointer = reached_in(first, behind);
    follow(scope.program, others, body, reached, pointer)
}
