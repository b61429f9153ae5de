// Declarations in blocks.

ghost use Rattle.std.specs.Prelude.{◌≡◌, ◌≤◌, ◌++◌, IfOk, List, OnOk, length, ℕ};
ghost use Rattle.cyc_tree.specs.View.{declaration_tree, name_tree};
ghost use Rattle.source_typing.specs.Declarations.{declare};
ghost use Rattle.source_typing.specs.Faults.{earliest};
ghost use Rattle.source_typing.specs.Scope.{Env, second, with_local};
ghost use Rattle.source_typing.specs.Tables.{What as TheWhat};
ghost use Rattle.source_typing.specs.Written.{RegionNamed};
ghost use Rattle.check_faults.specs.Faults.{faults_of};
ghost use Rattle.check_scopes.specs.Changes.{IsBlock, left};
ghost use Rattle.check_scopes.specs.Knows.{Knows};
ghost use Rattle.check_scopes.specs.Matching.{AreLocals};
ghost use Rattle.check_regions.specs.declared.scope.RegionMark.{RegionMark};
ghost use Rattle.check_declarations.specs.Contexts.{StandsIn, Suits, kept_to};
ghost use Rattle.check_declarations.specs.Declaring.{Matches, own_faults, own_scope, own_what};
ghost use Rattle.check_declarations.specs.declared.context.Context.{Context as TheContext};
ghost use Rattle.source_typing.specs.Faults as rules;

use crate::alias::{Alias, own_alias};
use crate::context::Context;
use crate::local::{Judged, local};
use crate::opening::own_open;
use crate::regions::{own_key, own_region};
use check_faults::{Fault, FaultKind, sooner};
use check_regions::RegionNames;
use check_scopes::Scope;
use cyc_tree::{Declaration, Name};
use std::alloc::{AllocError, Global};

/// A declaration, apart from its local: its earliest fault, and what the local is. The region begins that it declares, or is opened.
fn declared_own<'p>(
    scope: &mut Scope<'_, 'p>,
    names: &mut RegionNames<'p>,
    alloc: Global,
    context: Context<'_, 'p>,
    declaration: &'p Declaration,
) -> Result<Judged<'p>, AllocError>
    ensures judged { (g : Env) → Knows scope.old g → Suits context.entry names.old g
        → let d = declaration_tree declaration.entry.now in
        IfOk result (Matches (own_faults g d) (own_what g d)) }
    ensures stands { (g : Env) (outer : ℕ) → StandsIn context.entry names.old outer scope.old g
        → OnOk result (StandsIn context.entry names.new outer scope.new
        (own_scope g (declaration_tree declaration.entry.now))) }
    ensures locals { OnOk result (scope.new.locals ≡ scope.old.locals) }
    ensures left { OnOk result ((count : ℕ) (mark : RegionMark) → mark.names ≤ length scope.old.regions.begun → mark.opened ≤ length scope.old.regions.opened
        → left count mark scope.new ≡ left count mark scope.old) }
    ensures kept { OnOk result ((count : ℕ) → count ≤ length names.old → kept_to count names.new ≡ kept_to count names.old) }
{
    match declaration {
        Declaration::Local(of, _, initializer) => {
            local(scope, names, alloc, context, of, initializer)
        }
        Declaration::Region(_, region, _) => own_region(scope, names, alloc, context, region),
        Declaration::Open(_, region, _, key) => {
            own_open(scope, names, alloc, context, region, key)
        }
        Declaration::Alias(_, region, of, _, source) => {
            let alias = Alias { region, of, source };
            own_alias(scope, names, alloc, context, alias)
        }
        Declaration::NewKey(_, region, _) => own_key(scope, names, alloc, context, region),
    }
}

/// Declares a local of this name in the innermost block, whose own locals come after the first `outer` ones, and answers the earliest
/// fault: a second one of a name leaves the first.
fn add_local<'p>(
    scope: &mut Scope<'_, 'p>,
    outer: usize,
    name: &'p Name,
    local: Judged<'p>,
) -> Result<Option<Fault>, AllocError>
    ensures fault { (g : Env) (fs : List rules.Fault) (w : TheWhat) → IsBlock outer scope.old g → Matches fs w local.entry
        → IfOk result (λ f. faults_of f ≡ earliest (fs ++ second g (name_tree name.entry.now))) }
    ensures stands { (c : TheContext) (known : List RegionNamed) (g : Env) (fs : List rules.Fault) (w : TheWhat) → StandsIn c known outer scope.old g
        → Matches fs w local.entry → OnOk result (StandsIn c known outer scope.new (with_local (name_tree name.entry.now) w g)) }
    ensures locals { (g : Env) (fs : List rules.Fault) (w : TheWhat) → IsBlock outer scope.old g → Matches fs w local.entry → AreLocals scope.old.locals g.locals
        → OnOk result (AreLocals scope.new.locals (with_local (name_tree name.entry.now) w g).locals) }
    ensures left { OnOk result ((count : ℕ) (mark : RegionMark) → count ≤ length scope.old.locals → left count mark scope.new ≡ left count mark scope.old) }
{
    if scope.locals.is_second(outer, &name.text) {
        let second = Fault {
            kind: FaultKind::Name,
            at: name.at,
        };
        return Ok(sooner(local.fault, Some(second)));
    }
    scope.locals.declare(&name.text, local.what)?;
    Ok(local.fault)
}

/// Declares a local in the innermost block, whose own locals come after the first `outer` ones, and answers the earliest fault of its
/// declaration. One whose declaration has a fault is declared as one of no known type, apart from a handle, and a second one of a name
/// leaves the first.
pub fn declare<'p>(
    scope: &mut Scope<'_, 'p>,
    names: &mut RegionNames<'p>,
    alloc: Global,
    context: Context<'_, 'p>,
    outer: usize,
    declaration: &'p Declaration,
) -> Result<Option<Fault>, AllocError>
    ensures fault { (g : Env) → StandsIn context.entry names.old outer scope.old g
        → IfOk result (λ f. faults_of f
        ≡ earliest (declare g (declaration_tree declaration.entry.now)).faults) }
    ensures known { (g : Env) → StandsIn context.entry names.old outer scope.old g
        → OnOk result (StandsIn context.entry names.new outer scope.new
        (declare g (declaration_tree declaration.entry.now)).scope) }
    ensures locals { (g : Env) → StandsIn context.entry names.old outer scope.old g → AreLocals scope.old.locals g.locals
        → OnOk result (AreLocals scope.new.locals
        (declare g (declaration_tree declaration.entry.now)).scope.locals) }
    // where the block is left, what was in scope before is so again
    ensures left { OnOk result ((count : ℕ) (mark : RegionMark) → count ≤ length scope.old.locals
        → mark.names ≤ length scope.old.regions.begun → mark.opened ≤ length scope.old.regions.opened
        → left count mark scope.new ≡ left count mark scope.old) }
    ensures kept { OnOk result ((count : ℕ) → count ≤ length names.old → kept_to count names.new ≡ kept_to count names.old) }
{
    let local = declared_own(scope, names, alloc, context, declaration)?;
    add_local(scope, outer, declaration.local(), local)
}
