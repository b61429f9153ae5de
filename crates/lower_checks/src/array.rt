// Arrays that `new` and `rnew` make.

ghost use Rattle.std.specs.Prelude.{◌≡◌, ◌+◌, ◌∷◌, ◌++◌, [], map};
ghost use Rattle.cyc_tree.specs.View.{expression_tree, name_tree};
ghost use Rattle.core_meaning.specs.Core as core;
ghost use Rattle.cyc_core.specs.Trees.{statement_tree};
ghost use Rattle.source_meaning.specs.Shapes.{FatShape, UnsignedShape};
ghost use Rattle.source_meaning.specs.Programs.{world_of};
ghost use Rattle.source_lowering.specs.Layouts.{layout_of, local_of};
ghost use Rattle.source_lowering.specs.Lowered.{
  all_of,
  array_code,
  element_by,
  element_names,
  elements_code,
  expression_code,
  expression_values,
  indexed_code,
  next_number,
  static_shape,
  values_by,
  whole_code,
  whole_values,
  width_of,
};
ghost use Rattle.source_lowering.specs.Lowerable.{IsObject, Takes, TakesMember, TakesWhole};
ghost use Rattle.cyc_tree.specs.Room.{room};
ghost use Rattle.lower_checks.specs.Room.{HasRoom};
ghost use Rattle.lower_checks.specs.Scoped.{names_in, world_in};
ghost use Rattle.lower_checks.specs.Views.{shape_tree};
ghost use Rattle.lower_checks.specs.Writing.{Emits, IsSound, Writes, next_of};

use crate::body::Body;
use crate::expression::lower_expression;
use crate::member::Reached;
use crate::names::behind;
use crate::numbers::with_number;
use crate::objects::{lower_copy, object_layout, values_of};
use crate::scope::Scope;
use crate::shape::Shape;
use crate::shaped::shape_of;
use crate::sizes::{count, extent};
use crate::table::Table;
use crate::whole::lower_whole;
use crate::words::lower_stores;
use cyc_core::{Binary, Operation, Statement, Temporary, Variable, Width};
use cyc_tree::{Expression, Name};

/// Appends what asks for a block for objects of a shape, whose number the next temporary holds, in the region of the handle in a temporary,
/// which gets a pointer to the first one.
fn lower_request(program: &Table<'_>, shape: &Shape<'_>, body: &mut Body<'_>, to: Temporary)
    requires room { HasRoom to.0 1 }
    requires taken { IsSound body.old → IsObject (world_of program.now).unions (world_of program.now).structs (shape_tree shape.now) }
    ensures { Emits body.old body.new
        (core.Do (core.RegionAlloc to.0 to.0 (to.0 + 1) (layout_of (world_of program.now) (shape_tree shape.now))) ∷ []) }
{
    if body.failed {
        return;
    }
    let many = behind(to, 1);
    match object_layout(body.alloc, program, *shape) {
        Ok(layout) => body.emit(Statement::RegionAlloc(to, to, many, layout)),
        Err(_) => body.fail(),
    }
}

/// Appends what gives the index the number of the element that comes next.
fn lower_index(body: &mut Body<'_>, to: Temporary)
    requires room { HasRoom to.0 2 }
    ensures { Emits body.old body.new (core.Do (core.Put 0 0 (width_of UnsignedShape) (to.0 + 2)) ∷ []) }
{
    let index = Variable { out: 0, index: 0 };
    body.operation(Operation::Put(Width::Word, behind(to, 2), index));
}

/// Appends what begins with the first element: its number, which the index gets too.
fn lower_first(body: &mut Body<'_>, to: Temporary)
    requires room { HasRoom to.0 2 }
    ensures { Emits body.old body.new
        (core.Do (core.Constant (to.0 + 2) 0) ∷ core.Do (core.Put 0 0 (width_of UnsignedShape) (to.0 + 2)) ∷ []) }
{
    body.operation(Operation::Constant(behind(to, 2), 0));
    lower_index(body, to);
}

/// Appends what stores a value of a shape, which is in the third temporary behind an array's pointer and in those behind it, in the
/// element of the number in the second one; or what copies the struct or the union there to which that temporary leads.
fn lower_stored(program: &Table<'_>, shape: &Shape<'_>, body: &mut Body<'_>, to: Temporary)
    requires room { HasRoom to.0 6 }
    requires taken { IsSound body.old → IsObject (world_of program.now).unions (world_of program.now).structs (shape_tree shape.now) }
    ensures { Emits body.old body.new (element_by (world_of program.now) (shape_tree shape.now) to.0 [] []) }
{
    let number = behind(to, 2);
    let value = behind(to, 3);
    let at = behind(value, shape.words());
    let cells = count(program, *shape);
    let size = extent(program, *shape).size;
    body.operation(Operation::Element(at, to, number, cells, size));
    match shape {
        Shape::Struct(_) | Shape::Union(_) => lower_copy(program, shape, body, at, value),
        _ => lower_stores(body, &Reached::at_once(*shape), at, value),
    }
}

/// Appends what raises the number of the element.
fn lower_next(body: &mut Body<'_>, to: Temporary)
    requires room { HasRoom to.0 3 }
    ensures { Emits body.old body.new (next_number to.0) }
{
    let number = behind(to, 2);
    let one = behind(to, 3);
    body.operation(Operation::Constant(one, 1));
    body.operation(Operation::Apply(Binary::Add, number, number, one));
}

/// Appends the loop over the elements, one turn for each number below their count.
fn lower_turns(body: &mut Body<'_>, turn: Vec<Statement>, to: Temporary)
    requires room { HasRoom to.0 3 }
    ensures { Emits body.old body.new
        (core.While (all_of (core.Do (core.Apply core.LessUnsigned (to.0 + 3) (to.0 + 2) (to.0 + 1)) ∷ [])) (to.0 + 3)
        (all_of (map statement_tree turn.items)) ∷ []) }
{
    let many = behind(to, 1);
    let number = behind(to, 2);
    let below = behind(to, 3);
    let outer = body.begin();
    body.operation(Operation::Apply(Binary::LessUnsigned, below, number, many));
    let test = body.end(outer);
    body.turns(test, below, turn);
}

/// Appends the block of the elements, whose one local is the index, and the index of the array's pointer, which is 0.
fn lower_within(program: &Table<'_>, body: &mut Body<'_>, inside: Vec<Statement>, to: Temporary)
    requires room { HasRoom to.0 2 }
    ensures { Emits body.old body.new
        (core.Block (local_of (world_of program.now) UnsignedShape ∷ []) (all_of (map statement_tree inside.items)) ∷
        core.Do (core.Constant (to.0 + 2) 0) ∷ []) }
{
    let number = behind(to, 2);
    match values_of(body.alloc, program, &[Shape::Unsigned]) {
        Ok(locals) => {
            body.block(locals, inside);
            body.operation(Operation::Constant(number, 0));
        }
        Err(_) => body.fail(),
    }
}

/// Appends what makes one element of a shape, by its number, and stores it; appends the shapes of its temporary objects.
#[cycle(expression)]
fn lower_each<'p>(
    scope: &Scope<'_, 'p>,
    element: &'p Expression,
    shape: &Shape<'_>,
    body: &mut Body<'p>,
    to: Temporary,
)
    requires room { HasRoom to.0 (16 + room (expression_tree element.now)) }
    requires shape { IsSound body.old → shape_tree shape.now ≡ static_shape (world_in scope.now) (names_in scope.now) (expression_tree element.now) }
    requires taken { let w = world_in scope.now in
        let names = names_in scope.now in
        let e = expression_tree element.now in
        IsSound body.old → IsObject w.unions w.structs (static_shape w names e) × TakesMember (static_shape w names e) (TakesWhole w names e)
        (Takes w names e) }
    ensures writes { let w = world_in scope.now in
        let names = names_in scope.now in
        let e = expression_tree element.entry.now in
        let number = next_of body.old in
        Writes body.old body.new
        (element_by w (static_shape w names e) to.0 (whole_code w names e (to.0 + 3) number) (expression_code w names e (to.0 + 3) number))
        (values_by (static_shape w names e) (whole_values w names e) (expression_values w names e)) }
{
    let value = behind(to, 3);
    match shape {
        Shape::Struct(_) | Shape::Union(_) => {
            lower_whole(scope, element, body, value);
            lower_stored(scope.program, shape, body, to);
        }
        _ => {
            lower_expression(scope, element, body, value);
            lower_stored(scope.program, shape, body, to);
        }
    }
}

/// Appends the loop over the elements; appends the shapes of the temporary objects of one. The index is among the names of the scope.
#[cycle(expression)]
fn lower_loop<'p>(
    scope: &Scope<'_, 'p>,
    element: &'p Expression,
    shape: &Shape<'_>,
    body: &mut Body<'p>,
    to: Temporary,
)
    requires room { HasRoom to.0 (16 + room (expression_tree element.now)) }
    requires shape { IsSound body.old → shape_tree shape.now ≡ static_shape (world_in scope.now) (names_in scope.now) (expression_tree element.now) }
    requires taken { let w = world_in scope.now in
        let names = names_in scope.now in
        let e = expression_tree element.now in
        IsSound body.old → IsObject w.unions w.structs (static_shape w names e) × TakesMember (static_shape w names e) (TakesWhole w names e)
        (Takes w names e) }
    ensures writes { let w = world_in scope.now in
        let names = names_in scope.now in
        let e = expression_tree element.entry.now in
        let number = next_of body.old in
        Writes body.old body.new
        (elements_code to.0
        (element_by w (static_shape w names e) to.0 (whole_code w names e (to.0 + 3) number) (expression_code w names e (to.0 + 3) number)))
        (values_by (static_shape w names e) (whole_values w names e) (expression_values w names e)) }
{
    let outer = body.begin();
    lower_index(body, to);
    lower_each(scope, element, shape, body, to);
    lower_next(body, to);
    let turn = body.end(outer);
    lower_turns(body, turn, to);
}

/// Appends what makes the elements of an array, in the block of their index, and the index of its pointer; else as `lower_loop`.
#[cycle(expression)]
fn lower_indexed<'p>(
    scope: &Scope<'_, 'p>,
    element: &'p Expression,
    shape: &Shape<'_>,
    body: &mut Body<'p>,
    to: Temporary,
)
    requires room { HasRoom to.0 (16 + room (expression_tree element.now)) }
    requires shape { IsSound body.old → shape_tree shape.now ≡ static_shape (world_in scope.now) (names_in scope.now) (expression_tree element.now) }
    requires taken { let w = world_in scope.now in
        let names = names_in scope.now in
        let e = expression_tree element.now in
        IsSound body.old → IsObject w.unions w.structs (static_shape w names e) × TakesMember (static_shape w names e) (TakesWhole w names e)
        (Takes w names e) }
    ensures writes { let w = world_in scope.now in
        let names = names_in scope.now in
        let e = expression_tree element.entry.now in
        let number = next_of body.old in
        Writes body.old body.new
        (indexed_code w to.0
        (element_by w (static_shape w names e) to.0 (whole_code w names e (to.0 + 3) number) (expression_code w names e (to.0 + 3) number)) ++
        core.Do (core.Constant (to.0 + 2) 0) ∷ [])
        (values_by (static_shape w names e) (whole_values w names e) (expression_values w names e)) }
{
    let outer = body.begin();
    lower_first(body, to);
    lower_loop(scope, element, shape, body, to);
    let inside = body.end(outer);
    lower_within(scope.program, body, inside, to);
}

/// Appends what makes an array of elements, whose number the next temporary holds, in the region of the handle in a temporary, which gets a
/// pointer to the first one; gives the shape of the fat pointer to them. The index is among the names of the scope.
#[cycle(expression)]
fn lower_elements<'p>(
    scope: &Scope<'_, 'p>,
    element: &'p Expression,
    body: &mut Body<'p>,
    to: Temporary,
) -> Shape<'p>
    requires room { HasRoom to.0 (16 + room (expression_tree element.now)) }
    requires taken { let w = world_in scope.now in
        let names = names_in scope.now in
        let e = expression_tree element.now in
        IsSound body.old → IsObject w.unions w.structs (static_shape w names e) × TakesMember (static_shape w names e) (TakesWhole w names e)
        (Takes w names e) }
    ensures writes { let w = world_in scope.now in
        let names = names_in scope.now in
        let e = expression_tree element.entry.now in
        let number = next_of body.old in
        Writes body.old body.new
        (array_code w (static_shape w names e) to.0
        (element_by w (static_shape w names e) to.0 (whole_code w names e (to.0 + 3) number) (expression_code w names e (to.0 + 3) number)))
        (values_by (static_shape w names e) (whole_values w names e) (expression_values w names e)) }
    ensures shape { IsSound body.new →
        shape_tree result ≡ FatShape (static_shape (world_in scope.now) (names_in scope.now) (expression_tree element.entry.now)) }
{
    let shape = body.known(shape_of(scope, element));
    let elements = body.known(shape.elements(scope.alloc, scope.program.arena()));
    lower_request(scope.program, &shape, body, to);
    lower_indexed(scope, element, &shape, body, to);
    elements
}

/// Appends what makes an array, with a name for the number of the element that is being made; else as `lower_elements`.
#[cycle(expression)]
pub fn lower_array<'p>(
    scope: &Scope<'_, 'p>,
    index: &'p Name,
    element: &'p Expression,
    body: &mut Body<'p>,
    to: Temporary,
) -> Shape<'p>
    requires room { HasRoom to.0 (16 + room (expression_tree element.now)) }
    requires taken { let w = world_in scope.now in
        let names = element_names (name_tree index.now).text (names_in scope.now) in
        let e = expression_tree element.now in
        IsSound body.old → IsObject w.unions w.structs (static_shape w names e) × TakesMember (static_shape w names e) (TakesWhole w names e)
        (Takes w names e) }
    ensures writes { let w = world_in scope.now in
        let names = element_names (name_tree index.entry.now).text (names_in scope.now) in
        let e = expression_tree element.entry.now in
        let number = next_of body.old in
        Writes body.old body.new
        (array_code w (static_shape w names e) to.0
        (element_by w (static_shape w names e) to.0 (whole_code w names e (to.0 + 3) number) (expression_code w names e (to.0 + 3) number)))
        (values_by (static_shape w names e) (whole_values w names e) (expression_values w names e)) }
    ensures shape { let names = element_names (name_tree index.entry.now).text (names_in scope.now) in
        IsSound body.new → shape_tree result ≡ FatShape (static_shape (world_in scope.now) names (expression_tree element.entry.now)) }
{
    match with_number(scope.alloc, scope.numbers, &index.text) {
        Ok(numbers) => {
            let inside = Scope {
                alloc: scope.alloc,
                program: scope.program,
                locals: scope.locals,
                numbers: &numbers,
            };
            lower_elements(&inside, element, body, to)
        }
        Err(_) => {
            body.fail();
            Shape::Void
        }
    }
}
