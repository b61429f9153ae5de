// Variables are read and written, and pointers to them are made.

ghost use Rattle.std.specs.Prelude.{◌≡◌, None};
ghost use Rattle.source_lowering.specs.Lowered.{address_by, get_by, get_code, get_local, load_global, local_named, named_shape};
ghost use Rattle.source_lowering.specs.Lowered.{put_by, put_local, store_global, stored_code, valued};
ghost use Rattle.source_lowering.specs.Pieces.{shape_by};
ghost use Rattle.source_meaning.specs.Places.{bound_to};
ghost use Rattle.source_meaning.specs.Programs.{world_of};
ghost use Rattle.lower_checks.specs.Room.{HasRoom};
ghost use Rattle.lower_checks.specs.Scoped.{names_in, world_in};
ghost use Rattle.lower_checks.specs.Views.{shape_tree, stored_tree};
ghost use Rattle.lower_checks.specs.Writing.{Emits};

use crate::body::Body;
use crate::fat::lower_bounds;
use crate::member::Reached;
use crate::names::{Named, behind};
use crate::scope::Scope;
use crate::shape::Shape;
use crate::stored::Stored;
use crate::table::{Found, Table};
use crate::words::{lower_loads, lower_stores};
use cyc_core::{Operation, Temporary, Variable, Width};

/// The place of a local among those of the blocks.
pub fn place_of(local: &Named<'_>) -> Variable
    ensures out { result.out ≡ local.now.out }
    ensures index { result.index ≡ local.now.index }
{
    Variable {
        out: local.out,
        index: local.index,
    }
}

/// Appends what reads a local into a temporary and those behind it: a word by one operation, and a fat pointer part by part. An array's
/// name is a fat pointer to its first element.
fn lower_get_local(body: &mut Body<'_>, local: &Named<'_>, to: Temporary)
    requires room { HasRoom to.0 2 }
    ensures { Emits body.old body.new (get_local (stored_tree local.now.stored) to.0 local.now.out local.now.index) }
{
    let at = place_of(local);
    match &local.stored {
        Stored::Array(count, _) => {
            body.operation(Operation::LocalAddress(to, at));
            lower_bounds(body, to, *count);
        }
        Stored::One(Shape::Fat(of)) => {
            body.operation(Operation::LocalAddress(to, at));
            lower_loads(body, &Reached::at_once(Shape::Fat(*of)), to);
        }
        Stored::One(shape) => body.operation(Operation::Get(shape.width(), to, at)),
    }
}

/// Appends what reads a global into a temporary and those behind it. An array's name is a fat pointer to its first element.
fn lower_load_global(body: &mut Body<'_>, global: &Found<'_>, to: Temporary)
    requires room { HasRoom to.0 2 }
    ensures { Emits body.old body.new (load_global (stored_tree global.now.stored) to.0 global.now.object) }
{
    body.operation(Operation::DataAddress(to, global.object));
    match &global.stored {
        Stored::Array(count, _) => lower_bounds(body, to, *count),
        Stored::One(shape) => lower_loads(body, &Reached::at_once(*shape), to),
    }
}

/// Appends what reads the global of a name into a temporary and those behind it; gives the shape of its value, which is `void` where there
/// is none of that name.
fn lower_get_global<'p>(
    program: &Table<'p>,
    body: &mut Body<'_>,
    name: &[u8],
    to: Temporary,
) -> Shape<'p>
    requires room { HasRoom to.0 2 }
    ensures code { Emits body.old body.new (get_by None (bound_to (world_of program.now).globals name.now) to.0) }
    ensures shape { shape_tree result ≡ valued (shape_by None (bound_to (world_of program.now).globals name.now)) }
{
    match program.global_named(name) {
        Some(global) => {
            lower_load_global(body, &global, to);
            global.stored.value()
        }
        None => Shape::Void,
    }
}

/// Appends what reads the variable of a name into a temporary and those behind it; gives the shape of its value, which is `void` where
/// there is none of that name.
pub fn lower_get<'p>(
    scope: &Scope<'_, 'p>,
    body: &mut Body<'_>,
    name: &[u8],
    to: Temporary,
) -> Shape<'p>
    requires room { HasRoom to.0 2 }
    ensures code { Emits body.old body.new (get_code (world_in scope.now) (names_in scope.now) name.now to.0) }
    ensures shape { shape_tree result ≡ valued (named_shape (world_in scope.now) (names_in scope.now) name.now) }
{
    match scope.named(name) {
        Some(local) => {
            lower_get_local(body, &local, to);
            local.stored.value()
        }
        None => lower_get_global(scope.program, body, name, to),
    }
}

/// Appends what stores the value in a temporary and those behind it in a local of a shape: a word by one operation, and a fat pointer
/// by the local's address, which comes into another temporary.
pub fn lower_store_local(
    body: &mut Body<'_>,
    shape: &Shape<'_>,
    local: Variable,
    address: Temporary,
    from: Temporary,
)
    requires room { HasRoom from.0 2 }
    ensures { Emits body.old body.new (stored_code (shape_tree shape.now) address.0 from.0 local.out local.index) }
{
    match shape {
        Shape::Fat(_) => {
            body.operation(Operation::LocalAddress(address, local));
            lower_stores(body, &Reached::at_once(*shape), address, from);
        }
        _ => body.operation(Operation::Put(shape.width(), from, local)),
    }
}

/// Appends what stores the value in a temporary and those behind it in a local.
pub fn lower_put_local(body: &mut Body<'_>, stored: &Stored<'_>, local: Variable, from: Temporary)
    requires room { HasRoom from.0 3 }
    ensures { Emits body.old body.new (put_local (stored_tree stored.now) from.0 local.out local.index) }
{
    match stored {
        Stored::One(shape) => {
            let address = behind(from, shape.words());
            lower_store_local(body, shape, local, address, from);
        }
        Stored::Array(_, _) => body.operation(Operation::Put(Width::Word, from, local)),
    }
}

/// Appends what stores the value in a temporary and those behind it in a global of a shape and a number, by its address, which comes
/// behind the value.
fn lower_store_at(body: &mut Body<'_>, shape: &Shape<'_>, object: usize, from: Temporary)
    requires room { HasRoom from.0 3 }
    ensures { Emits body.old body.new (store_global (shape_tree shape.now) from.0 object) }
{
    let address = behind(from, shape.words());
    body.operation(Operation::DataAddress(address, object));
    lower_stores(body, &Reached::at_once(*shape), address, from);
}

/// Appends what stores the value in a temporary and those behind it in a global: in an array, a word.
fn lower_store_global(body: &mut Body<'_>, global: &Found<'_>, from: Temporary)
    requires room { HasRoom from.0 3 }
    ensures { Emits body.old body.new (store_global (stored_tree global.now.stored) from.0 global.now.object) }
{
    match &global.stored {
        Stored::One(shape) => lower_store_at(body, shape, global.object, from),
        Stored::Array(_, _) => lower_store_at(body, &Shape::Int, global.object, from),
    }
}

/// Appends what stores the value in a temporary and those behind it in the global of a name.
fn lower_put_global(program: &Table<'_>, body: &mut Body<'_>, name: &[u8], from: Temporary)
    requires room { HasRoom from.0 3 }
    ensures { Emits body.old body.new (put_by None (bound_to (world_of program.now).globals name.now) from.0) }
{
    if let Some(global) = program.global_named(name) {
        lower_store_global(body, &global, from);
    }
}

/// Appends what stores the value in a temporary and those behind it in the variable of a name.
pub fn lower_named(scope: &Scope<'_, '_>, body: &mut Body<'_>, name: &[u8], from: Temporary)
    requires room { HasRoom from.0 3 }
    ensures { Emits body.old body.new (put_by (local_named (names_in scope.now) name.now) (bound_to (world_in scope.now).globals name.now) from.0) }
{
    match scope.named(name) {
        Some(local) => lower_put_local(body, &local.stored, place_of(&local), from),
        None => lower_put_global(scope.program, body, name, from),
    }
}

/// Appends what leaves a pointer to the global of a name in a temporary; gives the shape of its value, which is `void` where there is none
/// of that name.
fn lower_global_address<'p>(
    program: &Table<'p>,
    body: &mut Body<'_>,
    name: &[u8],
    to: Temporary,
) -> Shape<'p>
    ensures code { Emits body.old body.new (address_by None (bound_to (world_of program.now).globals name.now) to.0) }
    ensures shape { shape_tree result ≡ valued (shape_by None (bound_to (world_of program.now).globals name.now)) }
{
    match program.global_named(name) {
        Some(global) => {
            body.operation(Operation::DataAddress(to, global.object));
            global.stored.value()
        }
        None => Shape::Void,
    }
}

/// Appends what leaves a pointer to the variable of a name in a temporary; gives the shape of its value, which is `void` where there is
/// none of that name.
pub fn lower_address<'p>(
    scope: &Scope<'_, 'p>,
    body: &mut Body<'_>,
    name: &[u8],
    to: Temporary,
) -> Shape<'p>
    ensures code { Emits body.old body.new (address_by (local_named (names_in scope.now) name.now) (bound_to (world_in scope.now).globals name.now) to.0) }
    ensures shape { shape_tree result ≡ valued (named_shape (world_in scope.now) (names_in scope.now) name.now) }
{
    match scope.named(name) {
        Some(local) => {
            body.operation(Operation::LocalAddress(to, place_of(&local)));
            local.stored.value()
        }
        None => lower_global_address(scope.program, body, name, to),
    }
}
