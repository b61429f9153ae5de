// Statements and blocks.

ghost use Rattle.std.specs.Prelude.{◌≡◌, ◌≤◌, Bool, IfOk, List, OnOk, length, map, option_map, true, ℕ};
ghost use Rattle.cyc_tree.specs.View.{clause_tree, clauses_of, item_tree, items_of, statement_tree};
ghost use Rattle.source_typing.specs.Faults.{earliest};
ghost use Rattle.source_typing.specs.Scope.{Env, block_entered};
ghost use Rattle.source_typing.specs.Statements.{clauses_faults, items_faults, statement_faults};
ghost use Rattle.source_typing.specs.Written.{RegionNamed};
ghost use Rattle.check_faults.specs.Faults.{faults_of};
ghost use Rattle.check_scopes.specs.Changes.{AllAround, left};
ghost use Rattle.check_scopes.specs.Knows.{Knows};
ghost use Rattle.check_regions.specs.declared.scope.RegionMark.{RegionMark};
ghost use Rattle.check_declarations.specs.Contexts.{StandsIn, Suits, kept_to};
ghost use Rattle.check_statements.specs.Plain.{is_plain};
ghost use Rattle.check_declarations.specs.Switching.{HasParts, switched_in};
ghost use Rattle.check_statements.specs.Switching.{clause_faults};

use crate::exchange::exchange_fault;
use crate::returning::{condition_fault, expression_fault, return_fault, unless};
use crate::switch::{clause_found, switch_fault};
use crate::ways::reached_after;
use check_declarations::{
    Context, Kind, SwitchedUnion, bind, declare, next_region, operand_fault, union_of,
};
use check_expressions::judge;
use check_faults::{Fault, sooner};
use check_regions::RegionNames;
use check_scopes::Scope;
use cyc_tree::{BlockItem, Clause, Statement};
use std::alloc::{AllocError, Global};

/// The earliest fault of a statement without others in it.
fn plain_fault<'p>(
    scope: &Scope<'_, 'p>,
    alloc: Global,
    context: Context<'_, 'p>,
    statement: &Statement,
) -> Result<Option<Fault>, AllocError>
    ensures { (g : Env) (ns : List RegionNamed) (reached : Bool) → Knows scope.now g → Suits context.entry ns g
        → is_plain (statement_tree statement.now) ≡ true
        → IfOk result (λ f. faults_of f ≡ earliest (statement_faults g reached (statement_tree statement.now))) }
{
    match statement {
        Statement::Empty(_) => Ok(None),
        Statement::Run(value) => expression_fault(scope, alloc, value),
        Statement::Exchange(left, right) => exchange_fault(scope, alloc, left, right),
        Statement::Break(at) => Ok(unless(context.can_break(), *at)),
        Statement::Continue(at) => Ok(unless(context.in_loop, *at)),
        Statement::Return(at, value) => return_fault(scope, alloc, *at, context.result, value),
        Statement::FreeUnique(_, pointer) => operand_fault(scope, alloc, Kind::Unique, pointer),
        Statement::FreeKey(_, key) => operand_fault(scope, alloc, Kind::Key, key),
        Statement::Block(_, _)
        | Statement::If(_, _, _)
        | Statement::IfElse(_, _, _, _)
        | Statement::While(_, _, _)
        | Statement::Switch(_, _, _) => Ok(None),
    }
}

/// The earliest fault of a statement, by whether its start is reached. What is in scope is the same before and after it.
#[cycle(statement)]
fn statement_fault<'p>(
    scope: &mut Scope<'_, 'p>,
    names: &mut RegionNames<'p>,
    alloc: Global,
    context: Context<'_, 'p>,
    reached: bool,
    statement: &'p Statement,
) -> Result<Option<Fault>, AllocError>
    ensures fault { (g : Env) → Knows scope.old g → Suits context.entry names.old g → AllAround g.block g.locals
        → IfOk result (λ f. faults_of f
        ≡ earliest (statement_faults g reached (statement_tree statement.entry.now))) }
    ensures scope { OnOk result (scope.new ≡ scope.old) }
    ensures kept { OnOk result (names.new ≡ names.old) }
{
    match statement {
        Statement::Block(_, items) => block_fault(scope, names, alloc, context, reached, items),
        Statement::If(_, condition, body) => {
            let first = condition_fault(scope, alloc, condition)?;
            let second = statement_fault(scope, names, alloc, context, reached, body)?;
            Ok(sooner(first, second))
        }
        Statement::IfElse(_, condition, body, otherwise) => {
            let first = condition_fault(scope, alloc, condition)?;
            let second = statement_fault(scope, names, alloc, context, reached, body)?;
            let third = statement_fault(scope, names, alloc, context, reached, otherwise)?;
            Ok(sooner(sooner(first, second), third))
        }
        Statement::While(_, condition, body) => {
            let first = condition_fault(scope, alloc, condition)?;
            let second = statement_fault(scope, names, alloc, context.looping(), reached, body)?;
            Ok(sooner(first, second))
        }
        Statement::Switch(at, place, clauses) => {
            let place = judge(scope, alloc, place)?;
            let union = union_of(scope.tables, &place);
            let inner = context.switching();
            let inside = clauses_fault(scope, names, alloc, inner, reached, &union, clauses)?;
            switch_fault(scope.tables, alloc, *at, &place, clauses, inside)
        }
        Statement::Empty(_)
        | Statement::Run(_)
        | Statement::Exchange(_, _)
        | Statement::Break(_)
        | Statement::Continue(_)
        | Statement::Return(_, _)
        | Statement::FreeUnique(_, _)
        | Statement::FreeKey(_, _) => plain_fault(scope, alloc, context, statement),
    }
}

/// The earliest fault of a block. What is in scope is the same before and after it.
#[cycle(statement)]
fn block_fault<'p>(
    scope: &mut Scope<'_, 'p>,
    names: &mut RegionNames<'p>,
    alloc: Global,
    context: Context<'_, 'p>,
    reached: bool,
    items: &'p [BlockItem],
) -> Result<Option<Fault>, AllocError>
    ensures fault { (g : Env) → Knows scope.old g → Suits context.entry names.old g → AllAround g.block g.locals
        → IfOk result (λ f. faults_of f
        ≡ earliest (items_faults (block_entered g) reached (items_of (map item_tree items.entry.now)))) }
    ensures scope { OnOk result (scope.new ≡ scope.old) }
    ensures kept { OnOk result (names.new ≡ names.old) }
{
    let outer = scope.locals.len();
    let known = names.len();
    let mark = scope.regions.mark();
    let frame = next_region(scope.regions.names())?;
    scope.regions.begin_block()?;
    let inner = context.in_block(frame);
    let found = items_fault(scope, names, alloc, inner, outer, reached, items)?;
    scope.regions.leave(mark);
    scope.locals.leave(outer);
    names.leave(known);
    Ok(found)
}

/// The earliest fault of a block's items, where the block's own locals come after the first `outer` ones, by whether the start is reached.
/// What was in scope before is so again where the block is left.
#[cycle(statement)]
pub fn items_fault<'p>(
    scope: &mut Scope<'_, 'p>,
    names: &mut RegionNames<'p>,
    alloc: Global,
    context: Context<'_, 'p>,
    outer: usize,
    reached: bool,
    items: &'p [BlockItem],
) -> Result<Option<Fault>, AllocError>
    ensures fault { (g : Env) → StandsIn context.entry names.old outer scope.old g
        → IfOk result (λ f. faults_of f
        ≡ earliest (items_faults g reached (items_of (map item_tree items.entry.now)))) }
    ensures left { OnOk result ((count : ℕ) (mark : RegionMark) → count ≤ length scope.old.locals → mark.names ≤ length scope.old.regions.begun
        → mark.opened ≤ length scope.old.regions.opened → left count mark scope.new ≡ left count mark scope.old) }
    ensures kept { OnOk result ((count : ℕ) → count ≤ length names.old → kept_to count names.new ≡ kept_to count names.old) }
{
    let mut found = None;
    let mut reached = reached;
    'each: for item in items {
        let fault = match item {
            BlockItem::Declare(declaration) => {
                declare(scope, names, alloc, context, outer, declaration)?
            }
            BlockItem::Execute(statement) => {
                statement_fault(scope, names, alloc, context, reached, statement)?
            }
        };
        found = sooner(found, fault);
        reached = reached_after(reached, item);
    }
    Ok(found)
}

/// The earliest fault of the clauses of a `switch`. What is in scope is the same before and after them.
#[cycle(statement)]
fn clauses_fault<'p>(
    scope: &mut Scope<'_, 'p>,
    names: &mut RegionNames<'p>,
    alloc: Global,
    context: Context<'_, 'p>,
    reached: bool,
    union: &Option<SwitchedUnion<'_, 'p>>,
    clauses: &'p [Clause],
) -> Result<Option<Fault>, AllocError>
    ensures fault { (g : Env) → Knows scope.old g → Suits context.entry names.old g → AllAround g.block g.locals → HasParts g union.now
        → IfOk result (λ f. faults_of f ≡ earliest (clauses_faults g reached (option_map switched_in union.now)
        (clauses_of (map clause_tree clauses.entry.now)))) }
    ensures scope { OnOk result (scope.new ≡ scope.old) }
    ensures kept { OnOk result (names.new ≡ names.old) }
{
    let mut found = None;
    'each: for clause in clauses {
        let fault = clause_fault(scope, names, alloc, context, reached, union, clause)?;
        found = sooner(found, fault);
    }
    Ok(found)
}

/// The earliest fault of a clause of a `switch`, which is a block with its name. What is in scope is the same before and after it.
#[cycle(statement)]
fn clause_fault<'p>(
    scope: &mut Scope<'_, 'p>,
    names: &mut RegionNames<'p>,
    alloc: Global,
    context: Context<'_, 'p>,
    reached: bool,
    union: &Option<SwitchedUnion<'_, 'p>>,
    clause: &'p Clause,
) -> Result<Option<Fault>, AllocError>
    ensures fault { (g : Env) → Knows scope.old g → Suits context.entry names.old g → AllAround g.block g.locals → HasParts g union.now
        → IfOk result (λ f. faults_of f ≡ earliest (clause_faults g reached (option_map switched_in union.now)
        (clause_tree clause.entry.now))) }
    ensures scope { OnOk result (scope.new ≡ scope.old) }
    ensures kept { OnOk result (names.new ≡ names.old) }
{
    let outer = scope.locals.len();
    let known = names.len();
    let mark = scope.regions.mark();
    let frame = next_region(scope.regions.names())?;
    scope.regions.begin_block()?;
    bind(scope, union, frame, &clause.pattern)?;
    let inner = context.in_block(frame);
    let found = items_fault(scope, names, alloc, inner, outer, reached, &clause.body)?;
    scope.regions.leave(mark);
    scope.locals.leave(outer);
    names.leave(known);
    Ok(clause_found(reached, union, clause, found))
}
