// Locals, by their types and their initializers.

ghost use Rattle.std.specs.Prelude.{◌≡◌, IfOk, List, None, Option, Some, false, true};
ghost use Rattle.cyc_tree.specs.View.{expression_tree, initializer_tree, type_tree};
ghost use Rattle.cyc_types.specs.Bases.{base_type};
ghost use Rattle.cyc_types.specs.Regions.{region_of};
ghost use Rattle.cyc_types.specs.Types.{static_type};
ghost use Rattle.source_typing.specs.Declarations.{converted_to, set_faults, set_type, unset_type, what_after, what_of};
ghost use Rattle.source_typing.specs.Expressions.{judge};
ghost use Rattle.source_typing.specs.Faults.{earliest};
ghost use Rattle.source_typing.specs.Scope.{Env};
ghost use Rattle.source_typing.specs.Tables.{Stored, Unknown};
ghost use Rattle.source_typing.specs.Types.{StaticType};
ghost use Rattle.check_faults.specs.Faults.{fault_of, faults_of};
ghost use Rattle.check_faults.specs.Verdicts.{short_of, shortened};
ghost use Rattle.check_operators.specs.Values.{value_of};
ghost use Rattle.check_scopes.specs.Knows.{Knows};
ghost use Rattle.check_scopes.specs.Means.{WhatIs};
ghost use Rattle.check_declarations.specs.Contexts.{Suits};
ghost use Rattle.check_declarations.specs.Declaring.{Matches, own_faults, own_what};
ghost use Rattle.cyc_tree.specs.Tree as tree;
ghost use Rattle.source_typing.specs.Faults as rules;
ghost use Rattle.source_typing.specs.Scope as judged;
ghost use Rattle.source_typing.specs.Verdicts as verdict;

use crate::context::Context;
use crate::local_types::{set_type, unset_type};
use check_expressions::judge;
use check_faults::{Fault, Verdict, sooner};
use check_operators::{Value, converted};
use check_regions::RegionNames;
use check_scopes::{Scope, What};
use cyc_tree::{Expression, Initializer, TypeName};
use cyc_types::{BaseType, CType, RegionId};
use std::alloc::{AllocError, Global};

/// A local as it is declared: the earliest fault of its declaration, and what it is.
#[derive(Drop)]
pub(crate) struct Judged<'p> {
    pub(crate) fault: Option<Fault>,
    pub(crate) what: What<'p>,
}

/// The fault of an initializer that is converted to its local's type.
fn conversion(
    scope: &Scope,
    value: &Verdict<Value<'_>>,
    of: &Verdict<CType<'_>>,
) -> Result<Option<Fault>, AllocError>
    ensures { (g : Env) (v : verdict.Verdict judged.Value) (t : verdict.Verdict StaticType) → Knows scope.now g
        → short_of value_of value.now ≡ shortened v → short_of static_type of.now ≡ shortened t
        → IfOk result (λ f. faults_of f ≡ earliest (converted_to g v t)) }
{
    match (value, of) {
        (Verdict::Of(value), Verdict::Of(of)) => converted(scope, value, of),
        _ => Ok(None),
    }
}

/// The earliest fault of a local's type and its initializer.
pub fn set_fault(
    scope: &Scope,
    value: &Verdict<Value<'_>>,
    of: &Verdict<CType<'_>>,
) -> Result<Option<Fault>, AllocError>
    ensures { (g : Env) (v : verdict.Verdict judged.Value) (t : verdict.Verdict StaticType) → Knows scope.now g
        → short_of value_of value.now ≡ shortened v → short_of static_type of.now ≡ shortened t
        → IfOk result (λ f. faults_of f ≡ earliest (set_faults g v t)) }
{
    let conversion = conversion(scope, value, of)?;
    Ok(sooner(sooner(of.fault(), value.fault()), conversion))
}

/// A variable of a type, or an array of `count` elements of it.
fn what_of_type<'p>(frame: RegionId, count: Option<u32>, of: CType<'p>) -> What<'p>
    ensures { WhatIs (what_of (region_of frame) count (verdict.Of (static_type of.entry))) result }
{
    match count {
        Some(_) => What::Array(of, frame),
        None => What::Variable(of, frame),
    }
}

/// What a local is by its type.
pub(crate) fn what_of<'p>(frame: RegionId, count: Option<u32>, of: Verdict<CType<'p>>) -> What<'p>
    ensures { (t : verdict.Verdict StaticType) → short_of static_type of.entry ≡ shortened t → WhatIs (what_of (region_of frame) count t) result }
{
    match of {
        Verdict::Of(of) => what_of_type(frame, count, of),
        Verdict::Wrong(_) => What::NotKnown,
        Verdict::NotJudged => What::Untyped,
    }
}

/// A local by its fault and its type.
fn judged_as<'p>(
    fault: Option<Fault>,
    frame: RegionId,
    count: Option<u32>,
    of: Verdict<CType<'p>>,
) -> Judged<'p>
    ensures { (fs : List rules.Fault) (t : verdict.Verdict StaticType) → faults_of fault ≡ earliest fs → short_of static_type of.entry ≡ shortened t
        → Matches fs (what_after fs (what_of (region_of frame) count t)) result }
{
    match fault {
        Some(fault) => Judged {
            fault: Some(fault),
            what: What::NotKnown,
        },
        None => Judged {
            fault: None,
            what: what_of(frame, count, of),
        },
    }
}

/// A local without an initializer, or an array of `count` elements.
fn unset<'p>(
    scope: &Scope<'_, 'p>,
    names: &RegionNames<'_>,
    alloc: Global,
    context: Context<'_, 'p>,
    of: &'p TypeName,
    count: Option<u32>,
) -> Result<Judged<'p>, AllocError>
    ensures { (g : Env) → Knows scope.now g → Suits context.entry names.now g
        → let t = unset_type g (type_tree of.entry.now) count in
        IfOk result (Matches (verdict.faults_of t) (what_of g.frame count t)) }
{
    let found = unset_type(scope, names, alloc, context, of, count)?;
    Ok(judged_as(found.fault(), context.frame, count, found))
}

/// A local with an initializer.
fn set<'p>(
    scope: &Scope<'_, 'p>,
    names: &RegionNames<'_>,
    alloc: Global,
    context: Context<'_, 'p>,
    of: &'p TypeName,
    initial: &Expression,
) -> Result<Judged<'p>, AllocError>
    ensures { (g : Env) → Knows scope.now g → Suits context.entry names.now g
        → let v = judge g (expression_tree initial.now) in
        let t = set_type g (type_tree of.entry.now) v in
        IfOk result (Matches (set_faults g v t) (what_after (set_faults g v t) (what_of g.frame None t))) }
{
    let value = judge(scope, alloc, initial)?;
    let found = set_type(scope, names, alloc, context, of, &value)?;
    let fault = set_fault(scope, &value, &found)?;
    Ok(judged_as(fault, context.frame, None, found))
}

/// A local of a type that is no pointer.
pub(crate) fn plain_local<'p>(
    alloc: Global,
    context: Context<'_, 'p>,
    fault: Option<Fault>,
    of: BaseType<'p>,
) -> Judged<'p>
    ensures { (fs : List rules.Fault) → faults_of fault ≡ earliest fs
        → Matches fs (Stored (base_type of.entry) (region_of context.entry.frame)) result }
{
    Judged {
        fault,
        what: What::Variable(CType::plain(alloc, of), context.frame),
    }
}

/// A local whose declaration has this fault.
pub(crate) fn faulty_local<'p>(fault: Fault) -> Judged<'p>
    ensures { (fs : List rules.Fault) → Some (fault_of fault) ≡ earliest fs → Matches fs (Unknown false) result }
{
    Judged {
        fault: Some(fault),
        what: What::NotKnown,
    }
}

/// A local of no known type, whose declaration has no fault.
pub(crate) fn untyped_local<'p>() -> Judged<'p>
    ensures { (fs : List rules.Fault) → None ≡ earliest fs → Matches fs (Unknown true) result }
{
    Judged {
        fault: None,
        what: What::Untyped,
    }
}

/// A local by its type and its initializer.
pub(crate) fn local<'p>(
    scope: &Scope<'_, 'p>,
    names: &RegionNames<'_>,
    alloc: Global,
    context: Context<'_, 'p>,
    of: &'p TypeName,
    initializer: &Initializer,
) -> Result<Judged<'p>, AllocError>
    ensures { (g : Env) (x : tree.Name) → Knows scope.now g → Suits context.entry names.now g
        → let d = tree.Local (type_tree of.entry.now) x (initializer_tree initializer.now) in
        IfOk result (Matches (own_faults g d) (own_what g d)) }
{
    match initializer {
        Initializer::None => unset(scope, names, alloc, context, of, None),
        Initializer::Array(count) => unset(scope, names, alloc, context, of, Some(*count)),
        Initializer::Value(initial) => set(scope, names, alloc, context, of, initial),
    }
}
