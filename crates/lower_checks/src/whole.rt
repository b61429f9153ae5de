// Structs and tagged unions as values: made of their members, or copied from a place.

ghost use Rattle.std.specs.Prelude.{◌≡◌, ◌≤◌, ◌+◌, ◌++◌, ◌∷◌, suc, true, map};
ghost use Rattle.core_meaning.specs.Core as core;
ghost use Rattle.cyc_tree.specs.View.{member_tree, expression_tree, expressions_of};
ghost use Rattle.source_meaning.specs.Shapes.{StructShape, UnionShape, has_tag, part_of, part_shape, parts_of};
ghost use Rattle.source_meaning.specs.Programs.{world_of};
ghost use Rattle.source_lowering.specs.Lowered.{
  copied_code,
  expression_code,
  expression_values,
  made_values,
  makes_struct,
  member_code,
  members_code,
  place_code,
  static_shape,
  member_number,
  struct_member_code,
  union_code,
  values_by,
  whole_code,
  whole_values,
  word_member_code,
};
ghost use Rattle.source_lowering.specs.Lowerable.{
  IsMember,
  IsWholeShape,
  Takes,
  TakesMade,
  TakesMember,
  TakesPlace,
  TakesWhole,
};
ghost use Rattle.cyc_tree.specs.Room.{argument_room, room as room_of};
ghost use Rattle.lower_checks.specs.Room as rooms;
ghost use Rattle.lower_checks.specs.Scoped.{names_in, world_in};
ghost use Rattle.lower_checks.specs.Structs.{HasRoom, HaveRoom};
ghost use Rattle.lower_checks.specs.Views.{shape_tree};
ghost use Rattle.lower_checks.specs.Within.{AreWithin};
ghost use Rattle.lower_checks.specs.Writing.{Emits, IsSound, Writes, next_of};

use crate::body::Body;
use crate::expression::lower_expression;
use crate::layouts::rounded;
use crate::member::Reached;
use crate::names::behind;
use crate::objects::lower_copy;
use crate::place::lower_place;
use crate::scope::Scope;
use crate::shape::Shape;
use crate::shaped::shape_of;
use crate::sizes::{count, extent};
use crate::table::Table;
use crate::values::lower_conversion;
use crate::words::{lower_held_stores, lower_set_tag, lower_stores};
use cyc_core::{Operation, Origin, Temporary};
use cyc_tree::{Expression, Member, Prefix};

/// Where a member goes: its distance, in cells and bytes, from where the pointer in a temporary leads.
#[derive(Clone, Copy)]
struct Slot {
    to: Temporary,
    cells: u32,
    bytes: u32,
}

/// Appends what copies a struct or a union of a shape from where the pointer in a temporary leads to the temporary object of a number, and leaves a
/// pointer to that value in the temporary.
fn lower_copied(
    program: &Table<'_>,
    shape: &Shape<'_>,
    body: &mut Body<'_>,
    value: usize,
    to: Temporary,
)
    requires room { rooms.HasRoom to.0 1 }
    requires taken { IsSound body.old → IsWholeShape (world_of program.now).unions (world_of program.now).structs (shape_tree shape.now) }
    ensures { Emits body.old body.new (copied_code (world_of program.now) (shape_tree shape.now) to.0 value) }
{
    let next = behind(to, 1);
    body.operation(Operation::OwnAddress(next, value));
    lower_copy(program, shape, body, next, to);
    body.operation(Operation::OwnAddress(to, value));
}

/// Appends what copies a struct or a union to where a member goes, from where the pointer in the next temporary leads.
fn lower_struct_member(program: &Table<'_>, shape: &Shape<'_>, body: &mut Body<'_>, slot: Slot)
    requires room { rooms.HasRoom slot.to.0 2 }
    requires taken { IsSound body.old → IsWholeShape (world_of program.now).unions (world_of program.now).structs (shape_tree shape.now) }
    ensures { Emits body.old body.new (struct_member_code (world_of program.now) (shape_tree shape.now) slot.to.0 slot.cells slot.bytes) }
{
    let from = behind(slot.to, 1);
    let at = behind(slot.to, 2);
    body.operation(Operation::Offset(at, slot.to, slot.cells, slot.bytes));
    lower_copy(program, shape, body, at, from);
}

/// Appends what converts the value in the next temporary to a member's shape, and stores it where the member goes.
fn lower_word_member(
    program: &Table<'_>,
    shape: &Shape<'_>,
    from: &Shape<'_>,
    body: &mut Body<'_>,
    slot: Slot,
    at: Origin,
)
    requires room { rooms.HasRoom slot.to.0 4 }
    requires near { slot.bytes ≤ 4096 }
    ensures { Emits body.old body.new
        (word_member_code (world_of program.now) (shape_tree shape.now) (shape_tree from.now) slot.to.0 slot.cells slot.bytes) }
{
    let value = behind(slot.to, 1);
    lower_conversion(program, body, shape, from, value, at);
    let reached = Reached {
        shape: *shape,
        cells: slot.cells,
        bytes: slot.bytes,
    };
    lower_stores(body, &reached, slot.to, value);
}

/// Appends what copies the struct or the union that an expression names to a further temporary object, and leaves a pointer to that value in a
/// temporary; appends the shapes of the temporary objects.
#[cycle(expression)]
fn lower_read<'p>(scope: &Scope<'_, 'p>, place: &'p Expression, body: &mut Body<'p>, to: Temporary)
    requires room { rooms.HasRoom to.0 (room_of (expression_tree place.now)) }
    requires taken { let w = world_in scope.now in
        let names = names_in scope.now in
        let e = expression_tree place.now in
        IsSound body.old → TakesPlace w names e × IsWholeShape w.unions w.structs (static_shape w names e) }
    ensures writes { let w = world_in scope.now in
        let names = names_in scope.now in
        let e = expression_tree place.entry.now in
        let number = next_of body.old in
        Writes body.old body.new (place_code w names e to.0 (suc number) ++ copied_code w (static_shape w names e) to.0 number)
        (static_shape w names e ∷ expression_values w names e) }
{
    let shape = body.known(shape_of(scope, place));
    let value = body.value(&shape);
    lower_place(scope, place, body, to);
    lower_copied(scope.program, &shape, body, value, to);
}

/// Appends what makes a temporary object of an expression that is a struct or a union, and leaves a pointer to it in a temporary; appends
/// the shapes of the temporary objects. The next temporary object's number is how many there are.
#[cycle(expression)]
pub fn lower_whole<'p>(
    scope: &Scope<'_, 'p>,
    expression: &'p Expression,
    body: &mut Body<'p>,
    to: Temporary,
)
    requires room { rooms.HasRoom to.0 (room_of (expression_tree expression.now)) }
    requires taken { IsSound body.old → TakesWhole (world_in scope.now) (names_in scope.now) (expression_tree expression.now) }
    ensures writes { let w = world_in scope.now in
        let names = names_in scope.now in
        let e = expression_tree expression.entry.now in
        Writes body.old body.new (whole_code w names e to.0 (next_of body.old)) (whole_values w names e) }
{
    match expression {
        Expression::Call(name, arguments) => lower_made(scope, &name.text, arguments, body, to),
        Expression::MakeUnion(tag, member, value) => {
            lower_union(scope, &tag.text, &member.text, value, body, to)
        }
        Expression::Grouped(_, inner) => lower_whole(scope, inner, body, to),
        Expression::Variable(_)
        | Expression::Suffixed(_, _)
        | Expression::Prefixed(_, Prefix::Dereference, _) => {
            lower_read(scope, expression, body, to)
        }
        _ => body.never(),
    }
}

/// Appends what makes a temporary object of a struct of a tag, and leaves a pointer to it in a temporary; appends the shapes of the unnamed
/// values.
#[cycle(expression)]
fn lower_made<'p>(
    scope: &Scope<'_, 'p>,
    tag: &'p [u8],
    arguments: &'p [Expression],
    body: &mut Body<'p>,
    to: Temporary,
)
    requires room { rooms.HasRoom to.0 (16 + argument_room (expressions_of (map expression_tree arguments.now))) }
    requires taken { let w = world_in scope.now in
        IsSound body.old → (makes_struct w tag.now ≡ true) ×
        TakesMade w (names_in scope.now) (parts_of w.structs tag.now) (expressions_of (map expression_tree arguments.now)) }
    ensures writes { let w = world_in scope.now in
        let number = next_of body.old in
        let names = names_in scope.now in
        let parts = parts_of w.structs tag.entry.now in
        let es = expressions_of (map expression_tree arguments.entry.now) in
        Writes body.old body.new (core.Do (core.OwnAddress to.0 number) ∷ members_code w names parts es to.0 0 0 (suc number))
        (StructShape tag.entry.now ∷ made_values w names parts es) }
{
    match scope.program.struct_of(tag) {
        Some(known) => {
            let value = body.value(&Shape::Struct(tag));
            body.operation(Operation::OwnAddress(to, value));
            lower_members(scope, known.members, arguments, body, to);
        }
        None => body.never(),
    }
}

/// Appends what makes the union of a tag, to which the pointer in a temporary leads, hold the member of a name, whose value, of another shape
/// as yet, is in the next temporaries.
fn lower_held(
    program: &Table<'_>,
    tag: &[u8],
    member: &[u8],
    from: &Shape<'_>,
    body: &mut Body<'_>,
    to: Temporary,
    at: Origin,
)
    requires room { rooms.HasRoom to.0 4 }
    requires taken { IsSound body.old → IsMember (parts_of (world_of program.now).unions tag.now) member.now }
    ensures { let parts = parts_of (world_of program.now).unions tag.now in
        Emits body.old body.new
        (union_code (world_of program.now) (part_shape parts member.now) (shape_tree from.now) (member_number parts member.now) to.0) }
{
    match program.member(tag, member) {
        Some(chosen) => {
            let value = behind(to, 1);
            let free = behind(value, chosen.shape.words());
            lower_conversion(program, body, &chosen.shape, from, value, at);
            lower_set_tag(body, to, free, chosen.number);
            lower_held_stores(body, &chosen.shape, to, value);
        }
        None => body.never(),
    }
}

/// Appends what makes a temporary object of the union of a tag, which holds the member of a name, and leaves a pointer to it in a temporary;
/// appends the shapes of the temporary objects.
#[cycle(expression)]
fn lower_union<'p>(
    scope: &Scope<'_, 'p>,
    tag: &'p [u8],
    member: &[u8],
    value: &'p Expression,
    body: &mut Body<'p>,
    to: Temporary,
)
    requires room { rooms.HasRoom to.0 (16 + room_of (expression_tree value.now)) }
    requires taken { let w = world_in scope.now in
        IsSound body.old → (has_tag w.unions tag.now ≡ true) ×
        (IsMember (parts_of w.unions tag.now) member.now × Takes w (names_in scope.now) (expression_tree value.now)) }
    ensures writes { let w = world_in scope.now in
        let number = next_of body.old in
        let names = names_in scope.now in
        let parts = parts_of w.unions tag.entry.now in
        let e = expression_tree value.entry.now in
        Writes body.old body.new
        (core.Do (core.OwnAddress to.0 number) ∷ (expression_code w names e (to.0 + 1) (suc number) ++
        union_code w (part_shape parts member.now) (static_shape w names e) (member_number parts member.now) to.0))
        (UnionShape tag.entry.now ∷ expression_values w names e) }
{
    let own = body.value(&Shape::Union(tag));
    body.operation(Operation::OwnAddress(to, own));
    let next = behind(to, 1);
    let from = lower_expression(scope, value, body, next);
    lower_held(
        scope.program,
        tag,
        member,
        &from,
        body,
        to,
        Origin(value.place()),
    );
}

/// Appends what gives the members of a struct, to which the pointer in a temporary leads, the values of arguments, each where its member
/// lies; appends the shapes of the temporary objects.
#[cycle(expression)]
fn lower_members<'p>(
    scope: &Scope<'_, 'p>,
    members: &[Member],
    arguments: &'p [Expression],
    body: &mut Body<'p>,
    to: Temporary,
)
    requires room { rooms.HasRoom to.0 (16 + argument_room (expressions_of (map expression_tree arguments.now))) }
    requires taken { let w = world_in scope.now in
        let parts = map part_of (map member_tree members.now) in
        IsSound body.old → HaveRoom w.unions w.structs parts × TakesMade w (names_in scope.now) parts (expressions_of (map expression_tree arguments.now)) }
    requires within { AreWithin (world_in scope.now) 0 0 (map part_of (map member_tree members.now)) }
    ensures writes { let w = world_in scope.now in
        let names = names_in scope.now in
        let parts = map part_of (map member_tree members.now) in
        let es = expressions_of (map expression_tree arguments.entry.now) in
        Writes body.old body.new (members_code w names parts es to.0 0 0 (next_of body.old)) (made_values w names parts es) }
{
    let mut left = members;
    let mut slot = Slot {
        to,
        cells: 0,
        bytes: 0,
    };
    'each: for argument in arguments {
        let [member, others @ ..] = left else {
            return;
        };
        let shape = Shape::of(&member.of);
        let room = extent(scope.program, shape);
        slot.bytes = rounded(slot.bytes, room.align);
        lower_member(scope, &shape, argument, body, slot);
        slot.cells += count(scope.program, shape);
        slot.bytes += room.size;
        left = others;
    }
}

/// Appends what gives a member of a shape the value of an argument; appends the shapes of the temporary objects.
#[cycle(expression)]
fn lower_member<'p>(
    scope: &Scope<'_, 'p>,
    shape: &Shape<'_>,
    argument: &'p Expression,
    body: &mut Body<'p>,
    slot: Slot,
)
    requires room { rooms.HasRoom slot.to.0 (16 + room_of (expression_tree argument.now)) }
    requires taken { let w = world_in scope.now in
        let names = names_in scope.now in
        let e = expression_tree argument.now in
        IsSound body.old → HasRoom w.unions w.structs (shape_tree shape.now) × TakesMember (shape_tree shape.now) (TakesWhole w names e) (Takes w names e) }
    requires near { slot.bytes ≤ 4096 }
    ensures writes { let w = world_in scope.now in
        let names = names_in scope.now in
        let e = expression_tree argument.entry.now in
        Writes body.old body.new
        (member_code w (shape_tree shape.now) (static_shape w names e) slot.to.0 slot.cells slot.bytes
        (whole_code w names e (slot.to.0 + 1) (next_of body.old)) (expression_code w names e (slot.to.0 + 1) (next_of body.old)))
        (values_by (shape_tree shape.now) (whole_values w names e) (expression_values w names e)) }
{
    let next = behind(slot.to, 1);
    match shape {
        Shape::Struct(_) | Shape::Union(_) => {
            lower_whole(scope, argument, body, next);
            lower_struct_member(scope.program, shape, body, slot);
        }
        _ => {
            let from = lower_expression(scope, argument, body, next);
            lower_word_member(
                scope.program,
                shape,
                &from,
                body,
                slot,
                Origin(argument.place()),
            );
        }
    }
}
