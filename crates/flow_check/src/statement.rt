// What statements and blocks do to locals that can't be copied.

ghost use Rattle.std.specs.Prelude.{◌≡◌, ◌≤◌, IfOk, None, OnOk, length, map, option_map, ℕ};
ghost use Rattle.cyc_tree.specs.View.{clause_tree, clauses_of, expression_tree, item_tree, items_of, name_tree, statement_tree};
ghost use Rattle.flow_summaries.specs.Exits.{either_exits, ends_after, exits, loop_exits, switch_left, with_passage};
ghost use Rattle.flow_summaries.specs.Expressions.{uses_of};
ghost use Rattle.flow_summaries.specs.Passages.{in_turn};
ghost use Rattle.flow_summaries.specs.Statements as rules;
ghost use Rattle.flow_summaries.specs.Statements.{freed_local, passage_of_result};
ghost use Rattle.flow_summaries.specs.Uses.{number_of};
ghost use Rattle.source_typing.specs.Expressions.{judge};
ghost use Rattle.source_typing.specs.Scope.{Env, block_entered};
ghost use Rattle.source_typing.specs.Statements.{chosen, in_a_loop, in_a_switch};
ghost use Rattle.check_scopes.specs.Changes.{left};
ghost use Rattle.check_scopes.specs.Knows.{Knows};
ghost use Rattle.check_scopes.specs.Matching.{AreLocals};
ghost use Rattle.check_regions.specs.declared.scope.RegionMark.{RegionMark};
ghost use Rattle.check_declarations.specs.Contexts.{kept_to};
ghost use Rattle.check_declarations.specs.Switching.{HasParts, switched_in};
ghost use Rattle.flow_effects.specs.Exits.{exits_of};
ghost use Rattle.flow_check.specs.Standing.{Follows, Stands};
ghost use Rattle.flow_check.specs.Switched.{clause_exits};

use crate::declared::{begun, declared};
use crate::expressions::{freed, given, looked, result_given};
use check_declarations::{Context, SwitchedUnion, bind, next_region, union_of};
use check_expressions::judge;
use check_regions::RegionNames;
use check_scopes::Scope;
use cyc_tree::{BlockItem, Clause, Expression, Name, Pattern, Statement};
use flow_effects::{Exits, Step, add_step, all_before};
use std::alloc::{AllocError, Global};

/// The summary of an expression statement.
fn run_exits(scope: &Scope<'_, '_>, alloc: Global, value: &Expression) -> Result<Exits, AllocError>
    ensures { (g : Env) → Knows scope.now g → AreLocals scope.now.locals g.locals
        → IfOk result (λ w. exits_of w ≡ ends_after (uses_of g (expression_tree value.now)).value) }
{
    Ok(Exits::ends_after(given(scope, alloc, value)?))
}

/// The summary of an exchange of two places.
fn exchange_exits(
    scope: &Scope<'_, '_>,
    alloc: Global,
    left: &Expression,
    right: &Expression,
) -> Result<Exits, AllocError>
    ensures { (g : Env) → Knows scope.now g → AreLocals scope.now.locals g.locals → IfOk result (λ w. exits_of w
        ≡ ends_after (in_turn (uses_of g (expression_tree left.now)).look (uses_of g (expression_tree right.now)).look)) }
{
    let left = looked(scope, alloc, left)?;
    let right = looked(scope, alloc, right)?;
    Ok(Exits::ends_after(left.in_turn(right)))
}

/// The summary of a `return`.
fn return_exits(
    scope: &Scope<'_, '_>,
    alloc: Global,
    value: &Option<Expression>,
) -> Result<Exits, AllocError>
    ensures { (g : Env) → Knows scope.now g → AreLocals scope.now.locals g.locals → IfOk result (λ w. exits_of w
        ≡ exits None None None (passage_of_result g (option_map expression_tree value.now)).faults) }
{
    Ok(Exits::returns(result_given(scope, alloc, value)?))
}

/// The summary of a `free` of a local.
fn free_exits(
    scope: &Scope<'_, '_>,
    alloc: Global,
    at: u32,
    name: &Name,
) -> Result<Exits, AllocError>
    ensures { (g : Env) → AreLocals scope.now.locals g.locals → IfOk result (λ w. exits_of w
        ≡ ends_after (freed_local at (name_tree name.now) (number_of g.locals (name_tree name.now).text))) }
{
    Ok(Exits::ends_after(freed(scope, alloc, at, name)?))
}

/// The summary of a statement before which a value is looked at.
fn after_look(
    scope: &Scope<'_, '_>,
    alloc: Global,
    value: &Expression,
    ways: Exits,
) -> Result<Exits, AllocError>
    ensures { (g : Env) → Knows scope.now g → AreLocals scope.now.locals g.locals → IfOk result (λ w. exits_of w
        ≡ with_passage (uses_of g (expression_tree value.now)).look (exits_of ways)) }
{
    let passed = looked(scope, alloc, value)?;
    ways.after(alloc, passed)
}

/// The summary of an `if`, from those of its branches.
fn either_after(
    scope: &Scope<'_, '_>,
    alloc: Global,
    condition: &Expression,
    body: Exits,
    otherwise: Exits,
) -> Result<Exits, AllocError>
    ensures { (g : Env) → Knows scope.now g → AreLocals scope.now.locals g.locals → IfOk result (λ w. exits_of w
        ≡ with_passage (uses_of g (expression_tree condition.now)).look (either_exits (exits_of body) (exits_of otherwise))) }
{
    let ways = body.either(alloc, otherwise)?;
    after_look(scope, alloc, condition, ways)
}

/// The summary of a `switch`, from that of its clauses.
fn switch_after(
    scope: &Scope<'_, '_>,
    alloc: Global,
    place: &Expression,
    clauses: Exits,
) -> Result<Exits, AllocError>
    ensures { (g : Env) → Knows scope.now g → AreLocals scope.now.locals g.locals → IfOk result (λ w. exits_of w
        ≡ with_passage (uses_of g (expression_tree place.now)).look (switch_left (exits_of clauses))) }
{
    let ways = clauses.switch_left(alloc)?;
    after_look(scope, alloc, place, ways)
}

/// The summary of a statement. The scope is the same after the call as before it.
#[cycle(exits)]
fn exits<'p>(
    scope: &mut Scope<'_, 'p>,
    names: &mut RegionNames<'p>,
    alloc: Global,
    context: Context<'_, 'p>,
    statement: &'p Statement,
) -> Result<Exits, AllocError>
    ensures exits { (g : Env) → Follows context.entry names.old scope.old g
        → IfOk result (λ w. exits_of w ≡ rules.exits_of g (statement_tree statement.entry.now)) }
    ensures scope { OnOk result (scope.new ≡ scope.old) }
    ensures kept { OnOk result (names.new ≡ names.old) }
{
    match statement {
        Statement::Empty(_) => Ok(Exits::ends()),
        Statement::Block(_, items) => block(scope, names, alloc, context, items),
        Statement::Run(value) => run_exits(scope, alloc, value),
        Statement::Exchange(left, right) => exchange_exits(scope, alloc, left, right),
        Statement::If(_, condition, body) => {
            if_exits(scope, names, alloc, context, body, condition, Exits::ends())
        }
        Statement::IfElse(_, condition, body, otherwise) => {
            let otherwise = exits(scope, names, alloc, context, otherwise)?;
            if_exits(scope, names, alloc, context, body, condition, otherwise)
        }
        Statement::While(_, condition, body) => {
            while_exits(scope, names, alloc, context, body, condition)
        }
        Statement::Switch(_, place, clauses) => {
            switch_exits(scope, names, alloc, context, clauses, place)
        }
        Statement::Break(_) => Ok(Exits::breaks()),
        Statement::Continue(_) => Ok(Exits::continues()),
        Statement::Return(_, value) => return_exits(scope, alloc, value),
        Statement::FreeUnique(at, pointer) => free_exits(scope, alloc, *at, pointer),
        Statement::FreeKey(at, key) => free_exits(scope, alloc, *at, key),
    }
}

/// The summary of an `if`, given that of its `else` branch.
#[cycle(exits)]
fn if_exits<'p>(
    scope: &mut Scope<'_, 'p>,
    names: &mut RegionNames<'p>,
    alloc: Global,
    context: Context<'_, 'p>,
    body: &'p Statement,
    condition: &Expression,
    otherwise: Exits,
) -> Result<Exits, AllocError>
    ensures exits { (g : Env) → Follows context.entry names.old scope.old g → IfOk result (λ w. exits_of w
        ≡ with_passage (uses_of g (expression_tree condition.now)).look
        (either_exits (rules.exits_of g (statement_tree body.entry.now)) (exits_of otherwise))) }
    ensures scope { OnOk result (scope.new ≡ scope.old) }
    ensures kept { OnOk result (names.new ≡ names.old) }
{
    let body = exits(scope, names, alloc, context, body)?;
    either_after(scope, alloc, condition, body, otherwise)
}

/// The summary of a `while`.
#[cycle(exits)]
fn while_exits<'p>(
    scope: &mut Scope<'_, 'p>,
    names: &mut RegionNames<'p>,
    alloc: Global,
    context: Context<'_, 'p>,
    body: &'p Statement,
    condition: &Expression,
) -> Result<Exits, AllocError>
    ensures exits { (g : Env) → Follows context.entry names.old scope.old g → IfOk result (λ w. exits_of w
        ≡ loop_exits (uses_of g (expression_tree condition.now)).look (rules.exits_of (in_a_loop g) (statement_tree body.entry.now))) }
    ensures scope { OnOk result (scope.new ≡ scope.old) }
    ensures kept { OnOk result (names.new ≡ names.old) }
{
    let condition = looked(scope, alloc, condition)?;
    let body = exits(scope, names, alloc, context.looping(), body)?;
    body.loop_of(alloc, condition)
}

/// The summary of a `switch`.
#[cycle(exits)]
fn switch_exits<'p>(
    scope: &mut Scope<'_, 'p>,
    names: &mut RegionNames<'p>,
    alloc: Global,
    context: Context<'_, 'p>,
    clauses: &'p [Clause],
    place: &Expression,
) -> Result<Exits, AllocError>
    ensures exits { (g : Env) → Follows context.entry names.old scope.old g → let e = expression_tree place.now in
        IfOk result (λ w. exits_of w ≡ with_passage (uses_of g e).look
        (switch_left (rules.exits_of_clauses (in_a_switch g) (chosen (judge g e)) (clauses_of (map clause_tree clauses.entry.now))))) }
    ensures scope { OnOk result (scope.new ≡ scope.old) }
    ensures kept { OnOk result (names.new ≡ names.old) }
{
    let judged = judge(scope, alloc, place)?;
    let union = union_of(scope.tables, &judged);
    let ways = switched(scope, names, alloc, context.switching(), &union, clauses)?;
    switch_after(scope, alloc, place, ways)
}

/// The summary of a block.
#[cycle(exits)]
fn block<'p>(
    scope: &mut Scope<'_, 'p>,
    names: &mut RegionNames<'p>,
    alloc: Global,
    context: Context<'_, 'p>,
    items: &'p [BlockItem],
) -> Result<Exits, AllocError>
    ensures exits { (g : Env) → Follows context.entry names.old scope.old g → IfOk result (λ w. exits_of w
        ≡ rules.exits_of_items (block_entered g) (items_of (map item_tree items.entry.now))) }
    ensures scope { OnOk result (scope.new ≡ scope.old) }
    ensures kept { OnOk result (names.new ≡ names.old) }
{
    let outer = scope.locals.len();
    let known = names.len();
    let mark = scope.regions.mark();
    let frame = next_region(scope.regions.names())?;
    scope.regions.begin_block()?;
    let found = items_exits(scope, names, alloc, context.in_block(frame), outer, items)?;
    scope.regions.leave(mark);
    scope.locals.leave(outer);
    names.leave(known);
    Ok(found)
}

/// The summary of the items of a block, whose own locals come after the first `outer` ones. What they declare stays in scope.
#[cycle(exits)]
pub(crate) fn items_exits<'p>(
    scope: &mut Scope<'_, 'p>,
    names: &mut RegionNames<'p>,
    alloc: Global,
    context: Context<'_, 'p>,
    outer: usize,
    items: &'p [BlockItem],
) -> Result<Exits, AllocError>
    ensures exits { (g : Env) → Stands context.entry names.old outer scope.old g → IfOk result (λ w. exits_of w
        ≡ rules.exits_of_items g (items_of (map item_tree items.entry.now))) }
    ensures left { OnOk result ((count : ℕ) (mark : RegionMark) → count ≤ length scope.old.locals → mark.names ≤ length scope.old.regions.begun
        → mark.opened ≤ length scope.old.regions.opened → left count mark scope.new ≡ left count mark scope.old) }
    ensures kept { OnOk result ((count : ℕ) → count ≤ length names.old → kept_to count names.new ≡ kept_to count names.old) }
{
    let mut steps = Vec::new(alloc);
    'each: for item in items {
        let step = match item {
            BlockItem::Declare(declaration) => {
                Step::Declared(declared(scope, names, alloc, context, outer, declaration)?)
            }
            BlockItem::Execute(statement) => {
                Step::Executed(exits(scope, names, alloc, context, statement)?)
            }
        };
        add_step(&mut steps, step)?;
    }
    all_before(alloc, steps, Exits::ends())
}

/// The summary of the clauses of a `switch`: a choice between them.
#[cycle(exits)]
fn switched<'p>(
    scope: &mut Scope<'_, 'p>,
    names: &mut RegionNames<'p>,
    alloc: Global,
    context: Context<'_, 'p>,
    union: &Option<SwitchedUnion<'_, 'p>>,
    clauses: &'p [Clause],
) -> Result<Exits, AllocError>
    ensures exits { (g : Env) → Follows context.entry names.old scope.old g → HasParts g union.now → IfOk result (λ w. exits_of w
        ≡ rules.exits_of_clauses g (option_map switched_in union.now) (clauses_of (map clause_tree clauses.entry.now))) }
    ensures scope { OnOk result (scope.new ≡ scope.old) }
    ensures kept { OnOk result (names.new ≡ names.old) }
{
    let mut ways = Vec::new(alloc);
    'each: for clause in clauses {
        let way = clause_exits(scope, names, alloc, context, union, clause)?;
        ways.push(Step::Way(way))?;
    }
    all_before(alloc, ways, Exits::nowhere())
}

/// The summary of a clause of a `switch`, which is a block with the name that its pattern binds.
#[cycle(exits)]
fn clause_exits<'p>(
    scope: &mut Scope<'_, 'p>,
    names: &mut RegionNames<'p>,
    alloc: Global,
    context: Context<'_, 'p>,
    union: &Option<SwitchedUnion<'_, 'p>>,
    clause: &'p Clause,
) -> Result<Exits, AllocError>
    ensures exits { (g : Env) → Follows context.entry names.old scope.old g → HasParts g union.now → IfOk result (λ w. exits_of w
        ≡ clause_exits g (option_map switched_in union.now) (clause_tree clause.entry.now)) }
    ensures scope { OnOk result (scope.new ≡ scope.old) }
    ensures kept { OnOk result (names.new ≡ names.old) }
{
    let outer = scope.locals.len();
    let known = names.len();
    let mark = scope.regions.mark();
    let frame = next_region(scope.regions.names())?;
    scope.regions.begin_block()?;
    bind(scope, union, frame, &clause.pattern)?;
    let begun = match &clause.pattern {
        Pattern::Case(_, name) => begun(scope, outer, &name.text),
        Pattern::Default => None,
    };
    let inner = context.in_block(frame);
    let found = items_exits(scope, names, alloc, inner, outer, &clause.body)?;
    scope.regions.leave(mark);
    scope.locals.leave(outer);
    names.leave(known);
    Ok(found.leaving(outer, begun))
}
