// What a `switch` takes: a union's place, and clauses that fit the union.

ghost use Rattle.std.specs.Prelude.{◌≡◌, ◌++◌, ◌&&◌, IfOk, List, None, Some, map, not, option_map};
ghost use Rattle.cyc_tree.specs.View.{clause_tree, clauses_of, name_tree, pattern_tree};
ghost use Rattle.cyc_types.specs.Sameness.{HasTags};
ghost use Rattle.source_typing.specs.Faults.{earliest, own_after, test, type_rule};
ghost use Rattle.source_typing.specs.Scope.{Env};
ghost use Rattle.source_typing.specs.Statements.{chosen, clause_names, clause_scope, items_faults, switched};
ghost use Rattle.check_faults.specs.Faults.{faults_of};
ghost use Rattle.check_faults.specs.Verdicts.{short_of, shortened};
ghost use Rattle.source_typing.specs.Ways.{ways_of_items};
ghost use Rattle.check_operators.specs.Values.{value_of};
ghost use Rattle.check_declarations.specs.Switching.{HasParts, switched_in};
ghost use Rattle.check_statements.specs.Switching.{clause_faults};
ghost use Rattle.cyc_tree.specs.Tree as tree;
ghost use Rattle.source_typing.specs.Faults as rules;
ghost use Rattle.source_typing.specs.Scope as judged;
ghost use Rattle.source_typing.specs.Verdicts as verdict;

use crate::named_members::clauses_fit;
use crate::returning::unless;
use crate::ways::items_fall;
use check_declarations::{SwitchedUnion, place_union};
use check_faults::{Fault, FaultKind, Verdict, sooner};
use check_operators::Value;
use cyc_tree::{Clause, Name, Pattern};
use cyc_types::Tables;
use std::alloc::{AllocError, Global};

/// The fault of a clause's pattern: an unknown member of the union, where that is known.
fn pattern_fault(union: &Option<SwitchedUnion<'_, '_>>, pattern: &Pattern) -> Option<Fault>
    ensures { (g : Env) → HasParts g union.now
        → faults_of result ≡ earliest (clause_names g (option_map switched_in union.now) (pattern_tree pattern.now)) }
{
    match (pattern, union) {
        (Pattern::Case(field, _), Some(union)) => unknown_fault(union, field),
        _ => None,
    }
}

/// The fault of an unknown member.
fn unknown_fault(union: &SwitchedUnion<'_, '_>, field: &Name) -> Option<Fault>
    ensures { (g : Env) → HasParts g (Some union.now)
        → faults_of result ≡ earliest (clause_names g (Some (switched_in union.now)) (tree.Case (name_tree field.now) (name_tree field.now))) }
{
    if union.member(&field.text).is_some() {
        None
    } else {
        Some(Fault {
            kind: FaultKind::Name,
            at: field.at,
        })
    }
}

/// The fault of a clause whose end is reached.
fn end_fault(reached: bool, clause: &Clause) -> Option<Fault>
    ensures { let c = clause_tree clause.now in
        faults_of result ≡ earliest (test (not (reached && (ways_of_items c.body).falls)) type_rule c.at) }
{
    let falls = reached && items_fall(&clause.body);
    unless(!falls, clause.at)
}

/// The fault of a phrase: that of its parts, or else its own.
fn first_or(parts: Option<Fault>, own: Option<Fault>) -> Option<Fault>
    ensures { (fs gs : List rules.Fault) → faults_of parts ≡ earliest fs → faults_of own ≡ earliest gs → faults_of result ≡ earliest (own_after gs fs) }
{
    match parts {
        Some(fault) => Some(fault),
        None => own,
    }
}

/// The earliest fault of a clause, by that of its block.
pub(crate) fn clause_found(
    reached: bool,
    union: &Option<SwitchedUnion<'_, '_>>,
    clause: &Clause,
    inside: Option<Fault>,
) -> Option<Fault>
    ensures { (g : Env) → HasParts g union.now
        → let c = clause_tree clause.now in
        let u = option_map switched_in union.now in
        faults_of inside ≡ earliest (items_faults (clause_scope g u c.pattern) reached c.body) → faults_of result ≡ earliest (clause_faults g reached u c) }
{
    let pattern = pattern_fault(union, &clause.pattern);
    let end = end_fault(reached, clause);
    first_or(sooner(pattern, inside), end)
}

/// The fault of a `switch` on what is in order: that is no union's place, or the clauses don't fit.
fn value_fault(
    tables: &Tables<'_>,
    alloc: Global,
    at: u32,
    value: &Value<'_>,
    clauses: &[Clause],
) -> Result<Option<Fault>, AllocError>
    ensures { (g : Env) → HasTags tables.now g.tables → IfOk result (λ f. faults_of f
        ≡ earliest (verdict.faults_of (switched g at (clauses_of (map clause_tree clauses.now)) (value_of value.now)))) }
{
    match place_union(value) {
        Some(union) => {
            let fit = clauses_fit(tables, alloc, union, clauses)?;
            Ok(unless(fit, at))
        }
        None => Ok(unless(false, at)),
    }
}

/// The fault of a `switch` whose parts have none.
fn own_fault(
    tables: &Tables<'_>,
    alloc: Global,
    at: u32,
    place: &Verdict<Value<'_>>,
    clauses: &[Clause],
) -> Result<Option<Fault>, AllocError>
    ensures { (g : Env) (v : verdict.Verdict judged.Value) → HasTags tables.now g.tables → short_of value_of place.now ≡ shortened v
        → None ≡ earliest (verdict.faults_of v) → IfOk result (λ f. faults_of f
        ≡ earliest (verdict.faults_of (verdict.after v (switched g at (clauses_of (map clause_tree clauses.now)))))) }
{
    match place {
        Verdict::Of(value) => value_fault(tables, alloc, at, value, clauses),
        _ => Ok(None),
    }
}

/// The fault of a `switch`, by what was judged of its place and the earliest fault of its clauses.
pub(crate) fn switch_fault(
    tables: &Tables<'_>,
    alloc: Global,
    at: u32,
    place: &Verdict<Value<'_>>,
    clauses: &[Clause],
    inside: Option<Fault>,
) -> Result<Option<Fault>, AllocError>
    ensures { (g : Env) (v : verdict.Verdict judged.Value) (fs : List rules.Fault) → HasTags tables.now g.tables
        → short_of value_of place.now ≡ shortened v → faults_of inside ≡ earliest fs → IfOk result (λ f. faults_of f
        ≡ earliest (own_after (verdict.faults_of (verdict.after v (switched g at (clauses_of (map clause_tree clauses.now)))))
        (verdict.faults_of v ++ fs))) }
{
    match sooner(place.fault(), inside) {
        Some(fault) => Ok(Some(fault)),
        None => own_fault(tables, alloc, at, place, clauses),
    }
}
