// Exchanges of what two places hold.

ghost use Rattle.std.specs.Prelude.{◌≡◌, ◌+◌, ◌++◌, ◌≤◌, length};
ghost use Rattle.cyc_tree.specs.View.{expression_tree};
ghost use Rattle.source_meaning.specs.Programs.{world_of};
ghost use Rattle.source_lowering.specs.Lowered.{expression_values, place_code, static_shape};
ghost use Rattle.source_lowering.specs.Lowerable.{IsExchanged, TakesPlace};
ghost use Rattle.source_lowering.specs.Programs.{exchange_code, side_code, side_of, union_exchange, value_exchange, words_read, words_written};
ghost use Rattle.cyc_tree.specs.Room.{room};
ghost use Rattle.lower_checks.specs.Room.{HasRoom};
ghost use Rattle.lower_checks.specs.Scoped.{names_in, world_in};
ghost use Rattle.lower_checks.specs.Unions.{cell_words};
ghost use Rattle.lower_checks.specs.Views.{shape_tree, side_tree};
ghost use Rattle.lower_checks.specs.Writing.{Emits, IsSound, Writes, next_of};

use crate::body::Body;
use crate::names::behind;
use crate::scope::Scope;
use crate::shape::Shape;
use crate::shaped::shape_of;
use crate::side::{Side, lower_side, lower_side_read, lower_side_written};
use crate::table::Table;
use crate::words::held_part;
use cyc_core::{Cell, Operation, Temporary};
use cyc_tree::Expression;

/// Appends what exchanges two words or two fat pointers, by way of the temporaries behind this one and the next, in which the pointers to
/// the sides are that have one.
fn lower_value_exchange(
    left: Side,
    right: Side,
    shape: &Shape<'_>,
    body: &mut Body<'_>,
    to: Temporary,
)
    requires room { HasRoom to.0 7 }
    ensures { Emits body.old body.new (value_exchange (side_tree left) (side_tree right) (shape_tree shape.now) to.0) }
{
    let next = behind(to, 1);
    let first = behind(to, 2);
    let second = behind(first, shape.words());
    lower_side_read(left, shape, body, to, first);
    lower_side_read(right, shape, body, next, second);
    lower_side_written(left, shape, body, to, second);
    lower_side_written(right, shape, body, next, first);
}

/// Appends what reads this number of words of the union to which a pointer leads into a temporary and those behind it.
fn lower_words_read(body: &mut Body<'_>, words: u32, to: Temporary, pointer: Temporary)
    requires room { HasRoom to.0 3 }
    requires few { words ≤ 4 }
    ensures { Emits body.old body.new (words_read words 0 to.0 pointer.0) }
{
    'each: for word in 0..words {
        let at = behind(to, word);
        body.operation(Operation::Load(at, pointer, held_part(word, word * 4)));
    }
}

/// Appends what writes this number of words of the union to which a pointer leads, from a temporary and those behind it.
fn lower_words_written(body: &mut Body<'_>, words: u32, pointer: Temporary, from: Temporary)
    requires room { HasRoom from.0 3 }
    requires few { words ≤ 4 }
    ensures { Emits body.old body.new (words_written words 0 pointer.0 from.0) }
{
    'each: for word in 0..words {
        let at = behind(from, word);
        body.operation(Operation::Store(pointer, held_part(word, word * 4), at));
    }
}

/// Appends what exchanges two unions with this number of words to which a temporary and the next one lead, by way of those behind.
fn lower_union_exchange(words: u32, body: &mut Body<'_>, left: Temporary)
    requires room { HasRoom left.0 9 }
    requires few { words ≤ 4 }
    ensures { Emits body.old body.new (union_exchange words left.0) }
{
    let right = behind(left, 1);
    let first = behind(left, 2);
    let second = behind(first, words);
    lower_words_read(body, words, first, left);
    lower_words_read(body, words, second, right);
    lower_words_written(body, words, left, second);
    lower_words_written(body, words, right, first);
}

/// How many words the cell of a union has.
fn union_words(cell: Cell) -> u32
    ensures words { result ≡ cell_words cell }
    ensures few { result ≤ 4 }
{
    match cell {
        Cell::TaggedFat => 4,
        _ => 2,
    }
}

/// Appends what exchanges what two sides of a shape hold, by way of the temporaries behind this one and the next, in which the pointers to
/// the sides are that have one.
fn lower_held_exchange(
    program: &Table<'_>,
    left: Side,
    right: Side,
    shape: &Shape<'_>,
    body: &mut Body<'_>,
    to: Temporary,
)
    requires room { HasRoom to.0 9 }
    requires taken { IsSound body.old → IsExchanged (world_of program.now).unions (shape_tree shape.now) }
    ensures { Emits body.old body.new (exchange_code (world_of program.now) (side_tree left) (side_tree right) (shape_tree shape.now) to.0) }
{
    match program.union_at(*shape) {
        Some(known) => lower_union_exchange(union_words(known.cell), body, to),
        None => lower_value_exchange(left, right, shape, body, to),
    }
}

/// Appends what exchanges what two places hold: a local of one word is read and written by its name, and to other places pointers come into
/// a temporary and the next one; appends the shapes of the temporary objects.
pub fn lower_exchange<'p>(
    scope: &Scope<'_, 'p>,
    left: &'p Expression,
    right: &'p Expression,
    body: &mut Body<'p>,
    to: Temporary,
)
    requires room { HasRoom to.0 (9 + (room (expression_tree left.now) + room (expression_tree right.now))) }
    requires taken { let w = world_in scope.now in
        let names = names_in scope.now in
        let e = expression_tree left.now in
        IsSound body.old → TakesPlace w names e × (TakesPlace w names (expression_tree right.now) × IsExchanged w.unions (static_shape w names e)) }
    ensures writes { let w = world_in scope.now in
        let names = names_in scope.now in
        let a = expression_tree left.entry.now in
        let b = expression_tree right.entry.now in
        let x = side_of names a in
        let y = side_of names b in
        let number = next_of body.old in
        Writes body.old body.new
        (side_code x (place_code w names a to.0 number) ++
        (side_code y (place_code w names b (to.0 + 1) (number + length (expression_values w names a))) ++ exchange_code w x y (static_shape w names a) to.0))
        (expression_values w names a ++ expression_values w names b) }
{
    let shape = body.known(shape_of(scope, left));
    let one = lower_side(scope, left, body, to);
    let next = behind(to, 1);
    let other = lower_side(scope, right, body, next);
    lower_held_exchange(scope.program, one, other, &shape, body, to);
}
