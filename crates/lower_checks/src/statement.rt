// Statements and blocks.

ghost use Rattle.std.specs.Prelude.{◌≡◌, ◌∷◌, ◌++◌, [], suc, Some, None, length, map};
ghost use Rattle.cyc_tree.specs.View.{declaration_tree, expression_tree, statement_tree as source_tree, item_tree, items_of, name_tree};
ghost use Rattle.cyc_core.specs.Trees.{statement_tree};
ghost use Rattle.source_meaning.specs.Programs.{world_of};
ghost use Rattle.core_meaning.specs.Core as core;
ghost use Rattle.source_lowering.specs.Lowered.{all_of, expression_code, expression_values};
ghost use Rattle.source_lowering.specs.Programs.{
  block_shapes,
  declaration_code,
  declaration_values,
  item_values,
  items_code,
  local_shape,
  locals_of,
  names_behind,
  outward,
  statement_code,
  statement_values,
};
ghost use Rattle.source_lowering.specs.Lowerable.{Takes, TakesDeclaration, TakesItems, TakesStatement};
ghost use Rattle.lower_checks.specs.Counted.{IsCounted};
ghost use Rattle.lower_checks.specs.Room.{HasRoom};
ghost use Rattle.lower_checks.specs.Scoped.{names_in, world_in};
ghost use Rattle.source_lowering.specs.Objects.{AreVariables};
ghost use Rattle.cyc_tree.specs.Room.{declaration_room, item_room, room, statement_room};
ghost use Rattle.lower_checks.specs.Views.{regions_tree, shape_tree, stored_tree};
ghost use Rattle.lower_checks.specs.Visible.{declared as declared_as, left, names_of};
ghost use Rattle.lower_checks.specs.Writing.{Emits, IsApart, IsSound, Stays, Writes, next_of};

use crate::body::Body;
use crate::declaration::{declared, lower_declaration};
use crate::expression::lower_expression;
use crate::leaving::{RegionsAround, lower_leaving, opened_outside};
use crate::locals::Locals;
use crate::objects::locals_of;
use crate::scope::Scope;
use crate::shape::Shape;
use crate::simple::lower_simple;
use crate::stored::{Stored, add_stored};
use crate::switch::lower_switch;
use crate::table::Table;
use cyc_core::{Origin, Statement, Temporary};
use cyc_tree::{BlockItem, Declaration, Expression, Name, Statement as Source};

/// Appends what a statement does, in a function with a result of this shape, among regions; appends the shapes of the temporary objects. The
/// next temporary object's number is how many there are.
#[cycle(statement)]
fn lower_statement<'p>(
    program: &Table<'p>,
    shape: &Shape<'_>,
    locals: &mut Locals<'p>,
    statement: &'p Source,
    body: &mut Body<'p>,
    around: RegionsAround,
    opened: &[bool],
)
    requires room { HasRoom around.all (statement_room (source_tree statement.now)) }
    requires counted { IsCounted around }
    requires taken { IsSound body.old → TakesStatement (world_of program.now) (shape_tree shape.now) (names_of locals.old) (source_tree statement.now) }
    ensures writes { let w = world_of program.now in
        let names = names_of locals.old in
        let s = source_tree statement.entry.now in
        Writes body.old body.new (statement_code w (shape_tree shape.now) names (regions_tree around opened.now) (next_of body.old) s)
        (statement_values w names s) }
    ensures kept { IsSound body.new → locals.new ≡ locals.old }
{
    let to = around.value();
    let scope = Scope {
        alloc: body.alloc,
        program,
        locals,
        numbers: &[],
    };
    match statement {
        Source::Block(_, items) => lower_block(program, shape, locals, items, body, around, opened),
        Source::If(_, condition, these) => {
            lower_condition(&scope, condition, body, to);
            let these = lower_part(program, shape, locals, these, body, around, opened);
            body.branch(to, these, Vec::new(body.alloc));
        }
        Source::IfElse(_, condition, these, those) => {
            lower_condition(&scope, condition, body, to);
            let these = lower_part(program, shape, locals, these, body, around, opened);
            let those = lower_part(program, shape, locals, those, body, around, opened);
            body.branch(to, these, those);
        }
        Source::While(_, condition, turn) => {
            let test = lower_test(&scope, condition, body, to);
            let turn = lower_part(program, shape, locals, turn, body, around.in_loop(), opened);
            body.turns(test, to, turn);
        }
        Source::Switch(_, place, clauses) => {
            lower_switch(program, shape, locals, clauses, place, body, around, opened)
        }
        _ => lower_simple(&scope, shape, statement, body, around, opened),
    }
}

/// Appends what leaves a condition's value in a temporary, of operations that stand where the condition does; appends the shapes of the temporary objects.
fn lower_condition<'p>(
    scope: &Scope<'_, 'p>,
    condition: &'p Expression,
    body: &mut Body<'p>,
    to: Temporary,
)
    requires room { HasRoom to.0 (room (expression_tree condition.now)) }
    requires taken { IsSound body.old → Takes (world_in scope.now) (names_in scope.now) (expression_tree condition.now) }
    ensures writes { let w = world_in scope.now in
        let names = names_in scope.now in
        let e = expression_tree condition.entry.now in
        Writes body.old body.new (expression_code w names e to.0 (next_of body.old)) (expression_values w names e) }
{
    body.go_to(Origin(condition.place()));
    lower_expression(scope, condition, body, to);
}

/// What leaves the value of a loop's condition in a temporary; appends the shapes of the temporary objects.
fn lower_test<'p>(
    scope: &Scope<'_, 'p>,
    condition: &'p Expression,
    body: &mut Body<'p>,
    to: Temporary,
) -> Vec<Statement>
    requires room { HasRoom to.0 (room (expression_tree condition.now)) }
    requires taken { IsSound body.old → Takes (world_in scope.now) (names_in scope.now) (expression_tree condition.now) }
    ensures apart { IsSound body.new → IsApart body.old body.new (expression_values (world_in scope.now) (names_in scope.now)
        (expression_tree condition.entry.now)) }
    ensures part { let e = expression_tree condition.entry.now in
        IsSound body.new → map statement_tree result.items ≡ expression_code (world_in scope.now) (names_in scope.now) e to.0 (next_of body.old) }
{
    let outer = body.begin();
    lower_condition(scope, condition, body, to);
    body.end(outer)
}

/// What a statement that is a part of another does; appends the shapes of the temporary objects.
#[cycle(statement)]
fn lower_part<'p>(
    program: &Table<'p>,
    shape: &Shape<'_>,
    locals: &mut Locals<'p>,
    statement: &'p Source,
    body: &mut Body<'p>,
    around: RegionsAround,
    opened: &[bool],
) -> Vec<Statement>
    requires room { HasRoom around.all (statement_room (source_tree statement.now)) }
    requires counted { IsCounted around }
    requires taken { IsSound body.old → TakesStatement (world_of program.now) (shape_tree shape.now) (names_of locals.old) (source_tree statement.now) }
    ensures apart { IsSound body.new → IsApart body.old body.new (statement_values (world_of program.now) (names_of locals.old)
        (source_tree statement.entry.now)) }
    ensures part { let s = source_tree statement.entry.now in
        IsSound body.new → map statement_tree result.items ≡
        statement_code (world_of program.now) (shape_tree shape.now) (names_of locals.old) (regions_tree around opened.now) (next_of body.old) s }
    ensures kept { IsSound body.new → locals.new ≡ locals.old }
{
    let outer = body.begin();
    lower_statement(program, shape, locals, statement, body, around, opened);
    body.end(outer)
}

/// Begins a block.
pub fn enter(locals: &mut Locals<'_>, body: &mut Body<'_>)
    ensures stays { Stays body.old body.new }
    ensures entered { IsSound body.new → locals.new ≡ None ∷ locals.old }
{
    if let Err(_) = locals.enter() {
        body.fail();
    }
}

/// Appends a block of these locals.
pub fn lower_inside(
    program: &Table<'_>,
    all: &[Stored<'_>],
    body: &mut Body<'_>,
    inside: Vec<Statement>,
)
    requires taken { IsSound body.old → AreVariables (world_of program.now).unions (world_of program.now).structs (map stored_tree all.now) }
    ensures { Emits body.old body.new
        (core.Block (locals_of (world_of program.now) (map stored_tree all.now)) (all_of (map statement_tree inside.items)) ∷ []) }
{
    if body.failed {
        return;
    }
    match locals_of(body.alloc, program, all) {
        Ok(locals) => body.block(locals, inside),
        Err(_) => body.fail(),
    }
}

/// Appends a block with what its items do; appends the shapes of the temporary objects.
#[cycle(statement)]
pub fn lower_block<'p>(
    program: &Table<'p>,
    shape: &Shape<'_>,
    locals: &mut Locals<'p>,
    items: &'p [BlockItem],
    body: &mut Body<'p>,
    around: RegionsAround,
    opened: &[bool],
)
    requires room { HasRoom around.all (item_room (items_of (map item_tree items.now))) }
    requires counted { IsCounted around }
    requires taken { IsSound body.old →
        TakesItems (world_of program.now) (shape_tree shape.now) (outward (names_of locals.old)) 0 (items_of (map item_tree items.now)) }
    ensures writes { let w = world_of program.now in
        let names = outward (names_of locals.old) in
        let inside = items_of (map item_tree items.entry.now) in
        Writes body.old body.new
        (core.Block (locals_of w (block_shapes w names 0 inside))
        (all_of (items_code w (shape_tree shape.now) names (regions_tree around opened.now) 0 (next_of body.old) inside)) ∷ [])
        (item_values w names 0 inside) }
    ensures kept { IsSound body.new → locals.new ≡ locals.old }
{
    let outer = body.begin();
    let mut declared_here = Vec::new(body.alloc);
    enter(locals, body);
    lower_items(
        program,
        shape,
        locals,
        items,
        &mut declared_here,
        body,
        around,
        opened,
    );
    locals.leave();
    let inside = body.end(outer);
    lower_inside(program, &declared_here, body, inside);
}

/// Adds what a further local is.
fn add<'p>(declared_here: &mut Vec<Stored<'p>>, stored: Stored<'p>, body: &mut Body<'_>)
    ensures stays { Stays body.old body.new }
    ensures added { IsSound body.new → map stored_tree declared_here.new.items ≡ map stored_tree declared_here.old.items ++ stored_tree stored.entry ∷ [] }
    ensures grows { IsSound body.new → length declared_here.new.items ≡ suc (length declared_here.old.items) }
{
    if let Err(_) = add_stored(declared_here, stored) {
        body.fail();
    }
}

/// Declares a further local of the innermost block by its name.
fn bind<'p>(
    locals: &mut Locals<'p>,
    name: &'p Name,
    stored: Stored<'p>,
    index: usize,
    body: &mut Body<'_>,
)
    ensures stays { Stays body.old body.new }
    ensures declared { IsSound body.new → locals.new ≡ Some (declared_as (name_tree name.entry.now).text stored.entry index) ∷ locals.old }
{
    if let Err(_) = locals.declare(name, stored, index) {
        body.fail();
    }
}

/// Declares a further local of the innermost block, which has this number in it.
pub fn declare<'p>(
    locals: &mut Locals<'p>,
    declared_here: &mut Vec<Stored<'p>>,
    name: &'p Name,
    stored: Stored<'p>,
    index: usize,
    body: &mut Body<'_>,
)
    ensures stays { Stays body.old body.new }
    ensures declared { IsSound body.new → locals.new ≡ Some (declared_as (name_tree name.entry.now).text stored.entry index) ∷ locals.old }
    ensures added { IsSound body.new → map stored_tree declared_here.new.items ≡ map stored_tree declared_here.old.items ++ stored_tree stored.entry ∷ [] }
    ensures grows { IsSound body.new → length declared_here.new.items ≡ suc (length declared_here.old.items) }
{
    add(declared_here, stored, body);
    bind(locals, name, stored, index, body);
}

/// Declares a further local of the innermost block, and appends what gives it its first value, which comes into a temporary; appends the
/// shapes of the temporary objects. The local's number is how many there are.
fn lower_declared<'p>(
    program: &Table<'p>,
    locals: &mut Locals<'p>,
    declaration: &'p Declaration,
    declared_here: &mut Vec<Stored<'p>>,
    body: &mut Body<'p>,
    to: Temporary,
)
    requires room { HasRoom to.0 (declaration_room (declaration_tree declaration.now)) }
    requires taken { IsSound body.old → TakesDeclaration (world_of program.now) (names_of locals.old) (declaration_tree declaration.now) }
    ensures writes { let w = world_of program.now in
        let names = names_of locals.old in
        let d = declaration_tree declaration.entry.now in
        Writes body.old body.new (declaration_code w names d to.0 (length declared_here.old.items) (next_of body.old)) (declaration_values w names d) }
    ensures names { IsSound body.new →
        names_of locals.new ≡
        names_behind (world_of program.now) (names_of locals.old) (length declared_here.old.items) (declaration_tree declaration.entry.now) }
    ensures left { IsSound body.new → left locals.new ≡ left locals.old }
    ensures shapes { IsSound body.new →
        map stored_tree declared_here.new.items ≡
        map stored_tree declared_here.old.items ++ local_shape (world_of program.now) (names_of locals.old) (declaration_tree declaration.entry.now) ∷ [] }
    ensures grows { IsSound body.new → length declared_here.new.items ≡ suc (length declared_here.old.items) }
{
    let index = declared_here.len();
    let scope = Scope {
        alloc: body.alloc,
        program,
        locals,
        numbers: &[],
    };
    let stored = declared(&scope, declaration, body);
    lower_declaration(&scope, declaration, body, to, index);
    declare(
        locals,
        declared_here,
        declaration.local(),
        stored,
        index,
        body,
    );
}

/// Appends what the items of a block do, the locals that they declare, and the shapes of the temporary objects. The next local's
/// number is how many there are, and so is the next temporary object's. The regions that the items declare are left at the end.
#[cycle(statement)]
pub fn lower_items<'p>(
    program: &Table<'p>,
    shape: &Shape<'_>,
    locals: &mut Locals<'p>,
    items: &'p [BlockItem],
    declared_here: &mut Vec<Stored<'p>>,
    body: &mut Body<'p>,
    around: RegionsAround,
    opened: &[bool],
)
    requires room { HasRoom around.all (item_room (items_of (map item_tree items.now))) }
    requires counted { IsCounted around }
    requires taken { let index = length declared_here.old.items in
        IsSound body.old → TakesItems (world_of program.now) (shape_tree shape.now) (names_of locals.old) index (items_of (map item_tree items.now)) }
    ensures writes { let w = world_of program.now in
        let names = names_of locals.old in
        let index = length declared_here.old.items in
        let inside = items_of (map item_tree items.entry.now) in
        Writes body.old body.new (items_code w (shape_tree shape.now) names (regions_tree around opened.now) index (next_of body.old) inside)
        (item_values w names index inside) }
    ensures shapes { IsSound body.new →
        map stored_tree declared_here.new.items ≡ map stored_tree declared_here.old.items ++
        block_shapes (world_of program.now) (names_of locals.old) (length declared_here.old.items) (items_of (map item_tree items.entry.now)) }
    ensures left { IsSound body.new → left locals.new ≡ left locals.old }
{
    let mut regions = around;
    let mut all = opened_outside(body, opened);
    'each: for item in items {
        match item {
            BlockItem::Declare(declaration) => {
                let to = regions.value();
                lower_declared(program, locals, declaration, declared_here, body, to);
                regions = regions.with(body, &mut all, declaration);
            }
            BlockItem::Execute(statement) => {
                lower_statement(program, shape, locals, statement, body, regions, &all);
            }
        }
    }
    let count = regions.all.saturating_sub(around.all);
    lower_leaving(body, &all, regions.all, count);
}
