// Declarations of locals.

ghost use Rattle.std.specs.Prelude.{◌≡◌, ◌+◌, ◌∷◌, ◌++◌, [], if◌then◌else◌};
ghost use Rattle.core_meaning.specs.Core as core;
ghost use Rattle.cyc_tree.specs.Tree.{Expression as tree};
ghost use Rattle.cyc_tree.specs.View.{expression_tree, declaration_tree, name_tree, type_tree};
ghost use Rattle.source_meaning.specs.Programs.{world_of};
ghost use Rattle.source_meaning.specs.Shapes.{settled_by, written};
ghost use Rattle.source_lowering.specs.Lowered.{get_code, static_shape};
ghost use Rattle.source_lowering.specs.Layouts.{layout_of, local_of};
ghost use Rattle.source_lowering.specs.Programs.{declaration_code, declaration_values, initial_values, local_shape, source_code, unset_code, value_code};
ghost use Rattle.source_lowering.specs.Whole.{expression_values, is_made, whole_values};
ghost use Rattle.source_lowering.specs.Lowerable.{IsObject, IsWholeShape, IsWordShape, IsVariable, TakesDeclaration, TakesValue, TakesWhole};
ghost use Rattle.cyc_tree.specs.Room.{declaration_room, room};
ghost use Rattle.lower_checks.specs.Room.{HasRoom};
ghost use Rattle.lower_checks.specs.Scoped.{names_in, world_in};
ghost use Rattle.lower_checks.specs.Views.{shape_tree, stored_tree};
ghost use Rattle.lower_checks.specs.Writing.{Emits, IsSound, Stays, Writes, next_of};

use crate::body::Body;
use crate::expression::lower_expression;
use crate::given::settled_by;
use crate::names::behind;
use crate::objects::{lower_copy, stored_layout};
use crate::place::lower_place;
use crate::scope::Scope;
use crate::shape::Shape;
use crate::shaped::{makes, named_shape, shape_of};
use crate::stored::Stored;
use crate::table::Table;
use crate::values::{first_value, lower_conversion};
use crate::variable::{lower_get, lower_put_local};
use crate::whole::lower_whole;
use cyc_core::{Operation, Origin, Statement, Temporary, Variable, Width};
use cyc_tree::{Declaration, Expression, Initializer, Name, TypeName};

/// The shape of a local of a type with an initializer.
fn initial_shape<'p>(
    scope: &Scope<'_, 'p>,
    of: &'p TypeName,
    value: &'p Expression,
    body: &mut Body<'p>,
) -> Shape<'p>
    ensures stays { Stays body.old body.new }
    ensures shape { IsSound body.new → shape_tree result ≡
        settled_by (written (type_tree of.entry.now)) (static_shape (world_in scope.now) (names_in scope.now) (expression_tree value.entry.now)) }
{
    let by = body.known(shape_of(scope, value));
    body.known(settled_by(scope.alloc, scope.program.arena(), of, by))
}

/// The shape of an alias of a type for a pointer.
fn alias_shape<'p>(
    scope: &Scope<'_, 'p>,
    of: &'p TypeName,
    pointer: &'p Name,
    body: &mut Body<'p>,
) -> Shape<'p>
    ensures stays { Stays body.old body.new }
    ensures shape { IsSound body.new → shape_tree result ≡
        settled_by (written (type_tree of.entry.now)) (static_shape (world_in scope.now) (names_in scope.now) (tree.Variable (name_tree pointer.entry.now))) }
{
    let by = named_shape(scope, &pointer.text);
    body.known(settled_by(scope.alloc, scope.program.arena(), of, by))
}

/// What a local is, as it is declared.
pub fn declared<'p>(
    scope: &Scope<'_, 'p>,
    declaration: &'p Declaration,
    body: &mut Body<'p>,
) -> Stored<'p>
    requires taken { IsSound body.old → TakesDeclaration (world_in scope.now) (names_in scope.now) (declaration_tree declaration.now) }
    ensures stays { Stays body.old body.new }
    ensures declared { IsSound body.new →
        stored_tree result ≡ local_shape (world_in scope.now) (names_in scope.now) (declaration_tree declaration.entry.now) }
{
    match declaration {
        Declaration::Local(of, _, Initializer::Array(count)) => Stored::array(of, *count),
        Declaration::Local(of, _, Initializer::None) => Stored::one(of),
        Declaration::Local(of, _, Initializer::Value(value)) => {
            Stored::One(initial_shape(scope, of, value, body))
        }
        Declaration::Region(_, _, _) | Declaration::Open(_, _, _, _) => Stored::One(Shape::Handle),
        Declaration::Alias(_, _, of, _, pointer) => {
            Stored::One(alias_shape(scope, of, pointer, body))
        }
        Declaration::NewKey(_, _, _) => Stored::One(Shape::Key),
    }
}

/// Whether an expression makes a struct or a union.
#[cycle(made)]
fn is_made(program: &Table<'_>, expression: &Expression) -> bool
    ensures { result ≡ is_made (world_of program.now) (expression_tree expression.now) }
{
    match expression {
        Expression::Call(name, _) => makes(program, &name.text),
        Expression::MakeUnion(_, _, _) => true,
        Expression::Grouped(_, inner) => is_made(program, inner),
        _ => false,
    }
}

/// Appends what clears a local of a number, by its address, which comes into a temporary.
fn lower_clear(
    program: &Table<'_>,
    stored: &Stored<'_>,
    body: &mut Body<'_>,
    to: Temporary,
    index: usize,
)
    requires taken { IsSound body.old → IsVariable (world_of program.now).unions (world_of program.now).structs (stored_tree stored.now) }
    ensures { let l = local_of (world_of program.now) (stored_tree stored.now) in
        Emits body.old body.new (core.Do (core.LocalAddress to.0 0 index) ∷ core.Do (core.Clear to.0 l.layout l.count) ∷ []) }
{
    if body.failed {
        return;
    }
    let local = Variable { out: 0, index };
    body.operation(Operation::LocalAddress(to, local));
    match stored_layout(body.alloc, program, *stored) {
        Ok((layout, count)) => body.emit(Statement::Clear(to, layout, count)),
        Err(_) => body.fail(),
    }
}

/// Appends what a local of a number begins with where it has no initializer, by its shape.
fn lower_unset(
    program: &Table<'_>,
    stored: &Stored<'_>,
    body: &mut Body<'_>,
    to: Temporary,
    index: usize,
)
    requires taken { IsSound body.old → IsVariable (world_of program.now).unions (world_of program.now).structs (stored_tree stored.now) }
    ensures { Emits body.old body.new (unset_code (world_of program.now) (stored_tree stored.now) to.0 index) }
{
    match stored {
        Stored::One(Shape::Struct(_) | Shape::Fat(_)) | Stored::Array(_, _) => {
            lower_clear(program, stored, body, to, index)
        }
        Stored::One(shape) => {
            let local = Variable { out: 0, index };
            body.operation(first_value(shape, to));
            body.operation(Operation::Put(shape.width(), to, local));
        }
    }
}

/// Appends what leaves a pointer to the struct or the union that an initializer makes or names in a temporary; appends the shapes of the
/// temporary objects.
fn lower_source<'p>(
    scope: &Scope<'_, 'p>,
    value: &'p Expression,
    body: &mut Body<'p>,
    to: Temporary,
)
    requires room { HasRoom to.0 (room (expression_tree value.now)) }
    requires taken { IsSound body.old → TakesWhole (world_in scope.now) (names_in scope.now) (expression_tree value.now) }
    ensures writes { let w = world_in scope.now in
        let names = names_in scope.now in
        let e = expression_tree value.entry.now in
        Writes body.old body.new (source_code w names (is_made w e) e to.0 (next_of body.old))
        (if is_made w e then whole_values w names e else expression_values w names e) }
{
    if is_made(scope.program, value) {
        lower_whole(scope, value, body, to);
    } else {
        lower_place(scope, value, body, to);
    }
}

/// Appends what gives the local of a number a copy of the struct or the union that its initializer makes or names; appends the shapes of
/// the temporary objects.
fn lower_copied_in<'p>(
    scope: &Scope<'_, 'p>,
    shape: &Shape<'_>,
    value: &'p Expression,
    body: &mut Body<'p>,
    to: Temporary,
    index: usize,
)
    requires room { HasRoom to.0 (1 + room (expression_tree value.now)) }
    requires taken { let w = world_in scope.now in
        IsSound body.old → IsWholeShape w.unions w.structs (shape_tree shape.now) × TakesWhole w (names_in scope.now) (expression_tree value.now) }
    ensures writes { let w = world_in scope.now in
        let names = names_in scope.now in
        let e = expression_tree value.entry.now in
        Writes body.old body.new
        (source_code w names (is_made w e) e to.0 (next_of body.old) ++
        (core.Do (core.LocalAddress (to.0 + 1) 0 index) ∷ core.Do (core.Copy (to.0 + 1) to.0 (layout_of w (shape_tree shape.now))) ∷ []))
        (if is_made w e then whole_values w names e else expression_values w names e) }
{
    lower_source(scope, value, body, to);
    let at = behind(to, 1);
    let local = Variable { out: 0, index };
    body.operation(Operation::LocalAddress(at, local));
    lower_copy(scope.program, shape, body, at, to);
}

/// Appends what gives the local of a number the value of its initializer, in its shape; appends the shapes of the temporary objects.
fn lower_set<'p>(
    scope: &Scope<'_, 'p>,
    shape: &Shape<'_>,
    value: &'p Expression,
    body: &mut Body<'p>,
    to: Temporary,
    index: usize,
)
    requires room { HasRoom to.0 (3 + room (expression_tree value.now)) }
    requires taken { let w = world_in scope.now in
        let s = shape_tree shape.now in
        IsSound body.old → IsObject w.unions w.structs s × TakesValue w (names_in scope.now) s (expression_tree value.now) }
    ensures writes { let w = world_in scope.now in
        let names = names_in scope.now in
        let e = expression_tree value.entry.now in
        let s = shape_tree shape.now in
        Writes body.old body.new (value_code w names s e to.0 index (next_of body.old)) (initial_values w names s e) }
{
    match shape {
        Shape::Struct(_) | Shape::Union(_) => {
            lower_copied_in(scope, shape, value, body, to, index)
        }
        _ => {
            let from = lower_expression(scope, value, body, to);
            lower_conversion(scope.program, body, shape, &from, to, Origin(value.place()));
            let local = Variable { out: 0, index };
            lower_put_local(body, &Stored::One(*shape), local, to);
        }
    }
}

/// Appends what makes a region, whose handle stays in a temporary and goes to the local of a number.
fn lower_region(body: &mut Body<'_>, to: Temporary, index: usize)
    ensures { Emits body.old body.new (core.Do (core.RegionNew to.0) ∷ core.Do (core.Put 0 index 4 to.0) ∷ []) }
{
    let local = Variable { out: 0, index };
    body.operation(Operation::RegionNew(to));
    body.operation(Operation::Put(Width::Word, to, local));
}

/// Appends what makes a key, which goes to the local of a number by way of a temporary.
fn lower_new_key(body: &mut Body<'_>, to: Temporary, index: usize)
    ensures { Emits body.old body.new (core.Do (core.KeyNew to.0) ∷ core.Do (core.Put 0 index 4 to.0) ∷ []) }
{
    let local = Variable { out: 0, index };
    body.operation(Operation::KeyNew(to));
    body.operation(Operation::Put(Width::Word, to, local));
}

/// Appends what opens a region with the key of a name, which stays in a temporary and goes to the local of a number.
fn lower_open(scope: &Scope<'_, '_>, key: &Name, body: &mut Body<'_>, to: Temporary, index: usize)
    requires room { HasRoom to.0 2 }
    ensures { let names = names_in scope.now in
        Emits body.old body.new
        (get_code (world_in scope.now) names (name_tree key.now).text to.0 ++ (core.Do (core.KeyOpen to.0) ∷ core.Do (core.Put 0 index 4 to.0) ∷ [])) }
{
    lower_get(scope, body, &key.text, to);
    let local = Variable { out: 0, index };
    body.operation(Operation::KeyOpen(to));
    body.operation(Operation::Put(Width::Word, to, local));
}

/// Appends what gives the local of a number a copy of the pointer of a name, by way of a temporary.
fn lower_alias<'p>(
    scope: &Scope<'_, 'p>,
    of: &'p TypeName,
    pointer: &'p Name,
    body: &mut Body<'p>,
    to: Temporary,
    index: usize,
)
    requires room { HasRoom to.0 3 }
    requires taken { let s = static_shape (world_in scope.now) (names_in scope.now) (tree.Variable (name_tree pointer.now)) in
        IsSound body.old → IsWordShape (settled_by (written (type_tree of.now)) s) }
    ensures writes { let w = world_in scope.now in
        let names = names_in scope.now in
        let p = tree.Variable (name_tree pointer.entry.now) in
        Writes body.old body.new (value_code w names (settled_by (written (type_tree of.entry.now)) (static_shape w names p)) p to.0 index
        (next_of body.old)) [] }
{
    let shape = alias_shape(scope, of, pointer, body);
    let from = lower_get(scope, body, &pointer.text, to);
    lower_conversion(scope.program, body, &shape, &from, to, Origin(pointer.at));
    let local = Variable { out: 0, index };
    lower_put_local(body, &Stored::One(shape), local, to);
}

/// Appends what gives the local of a number its first value: that of its shape, its initializer's value, that of an alias's pointer, a new
/// region's handle, a key that opens one or a new key, which comes into a temporary; appends the shapes of the temporary objects.
fn lower_first<'p>(
    scope: &Scope<'_, 'p>,
    declaration: &'p Declaration,
    body: &mut Body<'p>,
    to: Temporary,
    index: usize,
)
    requires room { HasRoom to.0 (declaration_room (declaration_tree declaration.now)) }
    requires taken { IsSound body.old → TakesDeclaration (world_in scope.now) (names_in scope.now) (declaration_tree declaration.now) }
    ensures writes { let w = world_in scope.now in
        let names = names_in scope.now in
        let d = declaration_tree declaration.entry.now in
        Writes body.old body.new (declaration_code w names d to.0 index (next_of body.old)) (declaration_values w names d) }
{
    match declaration {
        Declaration::Local(of, _, Initializer::None) => {
            lower_unset(scope.program, &Stored::one(of), body, to, index)
        }
        Declaration::Local(of, _, Initializer::Array(count)) => {
            lower_unset(scope.program, &Stored::array(of, *count), body, to, index)
        }
        Declaration::Local(of, _, Initializer::Value(value)) => {
            let shape = initial_shape(scope, of, value, body);
            lower_set(scope, &shape, value, body, to, index)
        }
        Declaration::Region(_, _, _) => lower_region(body, to, index),
        Declaration::Alias(_, _, of, _, pointer) => {
            lower_alias(scope, of, pointer, body, to, index)
        }
        Declaration::Open(_, _, _, key) => lower_open(scope, key, body, to, index),
        Declaration::NewKey(_, _, _) => lower_new_key(body, to, index),
    }
}

/// The same, of operations that stand where the declaration does.
pub fn lower_declaration<'p>(
    scope: &Scope<'_, 'p>,
    declaration: &'p Declaration,
    body: &mut Body<'p>,
    to: Temporary,
    index: usize,
)
    requires room { HasRoom to.0 (declaration_room (declaration_tree declaration.now)) }
    requires taken { IsSound body.old → TakesDeclaration (world_in scope.now) (names_in scope.now) (declaration_tree declaration.now) }
    ensures writes { let w = world_in scope.now in
        let names = names_in scope.now in
        let d = declaration_tree declaration.entry.now in
        Writes body.old body.new (declaration_code w names d to.0 index (next_of body.old)) (declaration_values w names d) }
{
    body.go_to(Origin(declaration.place()));
    lower_first(scope, declaration, body, to, index);
}
