// What declarations do to locals that can't be copied.

ghost use Rattle.std.specs.Prelude.{◌≡◌, ◌≤◌, IfOk, OnOk, Some, length, ℕ};
ghost use Rattle.cyc_tree.specs.View.{declaration_tree, initializer_tree, name_tree};
ghost use Rattle.cyc_types.specs.Sameness.{HasTags};
ghost use Rattle.flow_summaries.specs.Exits as rules;
ghost use Rattle.flow_summaries.specs.Exits.{lent_in, with_passage};
ghost use Rattle.flow_summaries.specs.Uses.{number_of};
ghost use Rattle.flow_summaries.specs.Statements.{exits_of_declared, passage_of_initial};
ghost use Rattle.source_typing.specs.Declarations.{declare};
ghost use Rattle.source_typing.specs.Left.{added_by, begins_as};
ghost use Rattle.source_typing.specs.Scope.{Env};
ghost use Rattle.source_typing.specs.Tables.{What as TheWhat};
ghost use Rattle.check_scopes.specs.Changes.{left};
ghost use Rattle.check_scopes.specs.Knows.{Knows};
ghost use Rattle.check_scopes.specs.Matching.{AreLocals};
ghost use Rattle.check_scopes.specs.Means.{WhatIs};
ghost use Rattle.check_regions.specs.declared.scope.RegionMark.{RegionMark};
ghost use Rattle.check_declarations.specs.Contexts.{kept_to};
ghost use Rattle.flow_check.specs.Declarations.{Adds, initial_before, loan_before};
ghost use Rattle.flow_check.specs.Standing.{Stands};
ghost use Rattle.flow_effects.specs.Passed.{added_of, state_of};
ghost use Rattle.flow_effects.specs.Steps.{declared_before, lent_if, passed_if};

use crate::expressions::given;
use check_declarations::{Context, declare};
use check_regions::RegionNames;
use check_scopes::{Scope, What};
use cyc_tree::{Declaration, Initializer, Name};
use cyc_types::{Tables, is_copyable};
use flow_effects::{Begun, Declared, Loan, Passed};
use std::alloc::{AllocError, Global};

/// The summary of an initializer that is a value, if it is one.
#[tactic(auto, using(flow_effects::proofs::Turns::nothing_before))]
fn value_given(
    scope: &Scope<'_, '_>,
    alloc: Global,
    initializer: &Initializer,
) -> Result<Option<Passed>, AllocError>
    ensures { (g : Env) (rest : rules.Exits) → Knows scope.now g → AreLocals scope.now.locals g.locals
        → IfOk result (λ p. passed_if p rest ≡ with_passage (passage_of_initial g (initializer_tree initializer.now)) rest) }
{
    match initializer {
        Initializer::Value(value) => Ok(Some(given(scope, alloc, value)?)),
        Initializer::None | Initializer::Array(_) => Ok(None),
    }
}

/// The summary of a declaration's initializer, if it has one that is a value.
#[tactic(auto, using(flow_effects::proofs::Turns::nothing_before))]
fn initial(
    scope: &Scope<'_, '_>,
    alloc: Global,
    declaration: &Declaration,
) -> Result<Option<Passed>, AllocError>
    ensures { (g : Env) (rest : rules.Exits) → Knows scope.now g → AreLocals scope.now.locals g.locals → IfOk result (λ p. passed_if p rest
        ≡ initial_before g (declaration_tree declaration.now) rest) }
{
    match declaration {
        Declaration::Local(_, _, initializer) => value_given(scope, alloc, initializer),
        _ => Ok(None),
    }
}

/// The loan of the local that is named here.
fn loan_of(scope: &Scope<'_, '_>, at: u32, name: &Name) -> Loan
    ensures { (g : Env) (rest : rules.Exits) → AreLocals scope.now.locals g.locals
        → lent_if (Some result) rest ≡ lent_in at (name_tree name.now) (number_of g.locals (name_tree name.now).text) rest }
{
    Loan {
        at,
        name_at: name.at,
        number: scope.locals.position(&name.text),
    }
}

/// The loan that begins with a declaration, if one does: of a key that is opened, or of the source of an alias.
fn loan(scope: &Scope<'_, '_>, declaration: &Declaration) -> Option<Loan>
    ensures { (g : Env) (rest : rules.Exits) → AreLocals scope.now.locals g.locals → lent_if result rest
        ≡ loan_before g (declaration_tree declaration.now) rest }
{
    match declaration {
        Declaration::Open(at, _, _, key) => Some(loan_of(scope, *at, key)),
        Declaration::Alias(at, _, _, _, source) => Some(loan_of(scope, *at, source)),
        _ => None,
    }
}

/// The state in which a local begins, by what it is.
fn begins(tables: &Tables<'_>, what: &What<'_>) -> Begun
    ensures { (g : Env) (w : TheWhat) → HasTags tables.now g.tables → WhatIs w what.now → state_of result ≡ begins_as g w }
{
    match what {
        What::Variable(of, _) => {
            if is_copyable(of, tables) {
                Begun::Plain
            } else {
                Begun::Held
            }
        }
        What::Array(_, _) => Begun::Plain,
        What::Counter => Begun::Plain,
        What::Untyped => Begun::Plain,
        What::NotKnown => Begun::Plain,
    }
}

/// The state in which the local of this name begins, if one was added to the first `around` locals.
pub(crate) fn begun(scope: &Scope<'_, '_>, around: usize, name: &[u8]) -> Option<Begun>
    ensures { (outer inside : Env) → around ≡ length outer.locals → Adds name.now outer.locals inside.locals → Knows scope.now inside
        → AreLocals scope.now.locals inside.locals → added_of result ≡ added_by outer inside }
{
    if scope.locals.len() <= around {
        return None;
    }
    match scope.locals.find(name) {
        Some(what) => Some(begins(scope.tables, what)),
        None => None,
    }
}

/// Declares the local of a declaration, and answers the declaration's summary. The innermost block's own locals come after the first
/// `outer` ones.
pub(crate) fn declared<'p>(
    scope: &mut Scope<'_, 'p>,
    names: &mut RegionNames<'p>,
    alloc: Global,
    context: Context<'_, 'p>,
    outer: usize,
    declaration: &'p Declaration,
) -> Result<Declared, AllocError>
    ensures before { (g : Env) (rest : rules.Exits) → Stands context.entry names.old outer scope.old g
        → let d = declaration_tree declaration.entry.now in IfOk result (λ step. declared_before step rest ≡ exits_of_declared g (declare g d).scope d rest) }
    ensures known { (g : Env) → Stands context.entry names.old outer scope.old g
        → OnOk result (Stands context.entry names.new outer scope.new
        (declare g (declaration_tree declaration.entry.now)).scope) }
    ensures left { OnOk result ((count : ℕ) (mark : RegionMark) → count ≤ length scope.old.locals → mark.names ≤ length scope.old.regions.begun
        → mark.opened ≤ length scope.old.regions.opened → left count mark scope.new ≡ left count mark scope.old) }
    ensures kept { OnOk result ((count : ℕ) → count ≤ length names.old → kept_to count names.new ≡ kept_to count names.old) }
{
    let initial = initial(scope, alloc, declaration)?;
    let loan = loan(scope, declaration);
    let around = scope.locals.len();
    declare(scope, names, alloc, context, outer, declaration)?;
    let begun = begun(scope, around, &declaration.local().text);
    Ok(Declared {
        initial,
        loan,
        around,
        begun,
    })
}
