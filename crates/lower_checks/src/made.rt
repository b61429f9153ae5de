// What `new` and `rnew` make.

ghost use Rattle.std.specs.Prelude.{◌≡◌, ◌+◌, []};
ghost use Rattle.cyc_tree.specs.View.{expression_tree, made_tree};
ghost use Rattle.source_meaning.specs.Memory.{is_alone};
ghost use Rattle.source_meaning.specs.Shapes.{NeverNull, ThinShape};
ghost use Rattle.source_meaning.specs.Programs.{world_of};
ghost use Rattle.source_lowering.specs.Lowered.{
  expression_code,
  expression_values,
  new_code,
  new_code_by,
  new_shape,
  new_values,
  request_code,
  static_shape,
  values_by,
  whole_code,
  whole_values,
};
ghost use Rattle.source_lowering.specs.Lowerable.{IsObject, Takes, TakesMember, TakesNew, TakesWhole};
ghost use Rattle.cyc_tree.specs.Room.{made_room, room};
ghost use Rattle.lower_checks.specs.Room.{HasRoom};
ghost use Rattle.lower_checks.specs.Scoped.{names_in, world_in};
ghost use Rattle.lower_checks.specs.Views.{owner_tree, shape_tree};
ghost use Rattle.lower_checks.specs.Writing.{Emits, IsSound, Writes, next_of};

use crate::array::lower_array;
use crate::body::Body;
use crate::expression::lower_expression;
use crate::member::Reached;
use crate::names::behind;
use crate::objects::{lower_copy, object_layout};
use crate::scope::Scope;
use crate::shape::{Owner, Shape};
use crate::shaped::shape_of;
use crate::table::Table;
use crate::whole::lower_whole;
use crate::words::lower_stores;
use cyc_core::{Operation, Statement, Temporary};
use cyc_tree::{Expression, Made};

/// Appends what asks for a block for one object of a shape, a unique one, or one in the region of the handle in a temporary, which gets a
/// pointer to it; the count 1 comes into another temporary.
fn lower_request(
    program: &Table<'_>,
    shape: &Shape<'_>,
    owner: Owner,
    body: &mut Body<'_>,
    to: Temporary,
    count: Temporary,
)
    requires taken { IsSound body.old → IsObject (world_of program.now).unions (world_of program.now).structs (shape_tree shape.now) }
    ensures { Emits body.old body.new (request_code (world_of program.now) (is_alone (owner_tree owner)) (shape_tree shape.now) to.0 count.0) }
{
    if body.failed {
        return;
    }
    let layout = match object_layout(body.alloc, program, *shape) {
        Ok(layout) => layout,
        Err(_) => return body.fail(),
    };
    match owner {
        Owner::Alone => body.emit(Statement::UniqueAlloc(to, layout)),
        Owner::Shared => {
            body.operation(Operation::Constant(count, 1));
            body.emit(Statement::RegionAlloc(to, to, count, layout));
        }
    }
}

/// Appends what asks for a block for one object of a shape, a unique one, or one in the region of the handle in a temporary, which gets a
/// pointer to it, and gives it the value in the next temporary and those behind it, or the struct or the union to which the pointer there
/// leads.
fn lower_object(
    program: &Table<'_>,
    shape: &Shape<'_>,
    owner: Owner,
    body: &mut Body<'_>,
    to: Temporary,
)
    requires room { HasRoom to.0 4 }
    requires taken { IsSound body.old → IsObject (world_of program.now).unions (world_of program.now).structs (shape_tree shape.now) }
    ensures { Emits body.old body.new (new_code_by (world_of program.now) (is_alone (owner_tree owner)) (shape_tree shape.now) to.0 [] []) }
{
    let value = behind(to, 1);
    let count = behind(value, shape.words());
    lower_request(program, shape, owner, body, to, count);
    match shape {
        Shape::Struct(_) | Shape::Union(_) => lower_copy(program, shape, body, to, value),
        _ => lower_stores(body, &Reached::at_once(*shape), to, value),
    }
}

/// Appends what makes one object of a value, a unique one, or one in the region of the handle in a temporary, which gets a pointer to the
/// object; gives the pointer's shape; appends the shapes of the temporary objects.
#[cycle(expression)]
fn lower_one<'p>(
    scope: &Scope<'_, 'p>,
    value: &'p Expression,
    owner: Owner,
    body: &mut Body<'p>,
    to: Temporary,
) -> Shape<'p>
    requires room { HasRoom to.0 (16 + room (expression_tree value.now)) }
    requires taken { let w = world_in scope.now in
        let names = names_in scope.now in
        let e = expression_tree value.now in
        IsSound body.old → IsObject w.unions w.structs (static_shape w names e) ×
        TakesMember (static_shape w names e) (TakesWhole w names e) (Takes w names e) }
    ensures writes { let w = world_in scope.now in
        let names = names_in scope.now in
        let e = expression_tree value.entry.now in
        let number = next_of body.old in
        Writes body.old body.new
        (new_code_by w (is_alone (owner_tree owner)) (static_shape w names e) to.0 (whole_code w names e (to.0 + 1) number)
        (expression_code w names e (to.0 + 1) number))
        (values_by (static_shape w names e) (whole_values w names e) (expression_values w names e)) }
    ensures shape { IsSound body.new →
        shape_tree result ≡ ThinShape (NeverNull 1) (owner_tree owner) (static_shape (world_in scope.now) (names_in scope.now) (expression_tree value.entry.now)) }
{
    let next = behind(to, 1);
    let shape = body.known(shape_of(scope, value));
    let address = body.known(shape.address(scope.alloc, scope.program.arena(), owner));
    match &shape {
        Shape::Struct(_) | Shape::Union(_) => {
            lower_whole(scope, value, body, next);
            lower_object(scope.program, &shape, owner, body, to);
            address
        }
        _ => {
            lower_expression(scope, value, body, next);
            lower_object(scope.program, &shape, owner, body, to);
            address
        }
    }
}

/// Appends what makes one object, which may be unique, or an array, in the region of the handle in a temporary, which gets a pointer to it;
/// gives the pointer's shape; appends the shapes of the temporary objects. The count of an array comes into the next temporary before the block is asked for.
#[cycle(expression)]
pub fn lower_new<'p>(
    scope: &Scope<'_, 'p>,
    made: &'p Made,
    owner: Owner,
    body: &mut Body<'p>,
    to: Temporary,
) -> Shape<'p>
    requires room { HasRoom to.0 (16 + made_room (made_tree made.now)) }
    requires taken { IsSound body.old → TakesNew (world_in scope.now) (names_in scope.now) (made_tree made.now) }
    ensures writes { let w = world_in scope.now in
        let names = names_in scope.now in
        let m = made_tree made.entry.now in
        Writes body.old body.new (new_code w names (is_alone (owner_tree owner)) m to.0 (next_of body.old)) (new_values w names m) }
    ensures shape { IsSound body.new → shape_tree result ≡ new_shape (world_in scope.now) (names_in scope.now) (owner_tree owner) (made_tree made.entry.now) }
{
    match made {
        Made::One(value) => lower_one(scope, value, owner, body, to),
        Made::Array(index, count, element) => {
            let many = behind(to, 1);
            lower_expression(scope, count, body, many);
            lower_array(scope, index, element, body, to)
        }
    }
}
