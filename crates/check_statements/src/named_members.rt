// Whether the clauses of a `switch` name the members of its union.

ghost use Rattle.std.specs.Prelude.{◌≡◌, ◌+◌, ◌&&◌, IfOk, List, OnOk, Some, false, is_some, map, nat_eq, nat_le, ℕ};
ghost use Rattle.cyc_tree.specs.View.{clause_tree, clauses_of, pattern_tree};
ghost use Rattle.cyc_types.specs.Sameness.{HasTags};
ghost use Rattle.cyc_types.specs.Tables.{tables_of};
ghost use Rattle.cyc_types.specs.Tags.{members_of};
ghost use Rattle.source_typing.specs.Scope.{Env};
ghost use Rattle.source_typing.specs.Statements.{all_named, clauses_fit, defaults, named_times, one_if, parts_of_chosen};
ghost use Rattle.source_typing.specs.Tables.{part_in, parts_in};
ghost use Rattle.check_statements.specs.Switching.{all_counted, is_default, is_once, names_part, none_repeated, times_of};
ghost use Rattle.check_declarations.specs.Switching.{chosen_in};

use crate::name_times::NameTimes;
use check_declarations::Chosen;
use cyc_tree::{Clause, Pattern};
use cyc_types::{Member, Tables};
use std::alloc::{AllocError, Global};

/// Counts the member that a clause names, if it names one.
fn count_named<'c>(times: &mut NameTimes<'c>, clause: &'c Clause) -> Result<(), AllocError>
    ensures { OnOk result ((x : List ℕ)
        → times_of times.new x ≡ one_if (names_part (pattern_tree clause.entry.now.pattern) x) + times_of times.old x) }
{
    match &clause.pattern {
        Pattern::Case(field, _) => times.add(&field.text),
        Pattern::Default => Ok(()),
    }
}

/// Whether a clause is a `default`.
fn is_default(clause: &Clause) -> bool
    ensures { result ≡ is_default (pattern_tree clause.now.pattern) }
{
    match &clause.pattern {
        Pattern::Case(_, _) => false,
        Pattern::Default => true,
    }
}

/// How often each member stands in the clauses.
#[tactic(auto, using(crate::proofs::Clauses::times_more))]
fn clause_times<'c>(alloc: Global, clauses: &'c [Clause]) -> Result<NameTimes<'c>, AllocError>
    ensures { IfOk result (λ times. (x : List ℕ) → times_of times x ≡ named_times x (clauses_of (map clause_tree clauses.entry.now))) }
{
    let mut times = NameTimes::new(alloc);
    'each: for clause in clauses {
        count_named(&mut times, clause)?;
    }
    Ok(times)
}

/// How often `default` stands in the clauses.
#[tactic(auto, using(crate::proofs::Clauses::defaults_more))]
fn defaults(clauses: &[Clause]) -> usize
    ensures { result ≡ defaults (clauses_of (map clause_tree clauses.now)) }
{
    let mut times = 0;
    'each: for clause in clauses {
        if is_default(clause) {
            times += 1;
        }
    }
    times
}

/// Whether a member that was counted so often stands in the clauses once.
fn is_counted_once(times: usize) -> bool
    ensures { result ≡ (nat_le times 1 && nat_eq times 1) }
{
    times == 1
}

/// Whether each of these members was counted once. It stops at the first that was not, so it looks at no more than one member more than
/// clauses name.
fn all_counted(members: &[Member], times: &NameTimes<'_>) -> bool
    ensures { result ≡ all_counted (times_of times.now) (members_of members.now) false }
{
    'each: for member in members {
        if !is_counted_once(times.of(member.name)) {
            return false;
        }
    }
    true
}

/// Whether each member of the union of a tag was counted once.
fn all_once(tables: &Tables<'_>, tag: &[u8], times: &NameTimes<'_>) -> bool
    ensures { result ≡ all_counted (times_of times.now) (parts_in (tables_of tables.now) tag.now) false }
{
    match tables.tag(tag) {
        Some(found) => all_counted(&found.members, times),
        None => true,
    }
}

/// Whether the union of a tag has a member of a name.
fn has_member(tables: &Tables<'_>, tag: &[u8], name: &[u8]) -> bool
    ensures { result ≡ is_some (part_in (parts_in (tables_of tables.now) tag.now) name.now) }
{
    tables.member(tag, name).is_some()
}

/// Whether a clause names a member that was counted at most once, or no member of the union of a tag.
fn is_once(tables: &Tables<'_>, tag: &[u8], times: &NameTimes<'_>, clause: &Clause) -> bool
    ensures { result ≡ is_once (times_of times.now) (parts_in (tables_of tables.now) tag.now) (pattern_tree clause.now.pattern) }
{
    match &clause.pattern {
        Pattern::Case(field, _) => {
            let name = field.text.as_slice();
            times.of(name) <= 1 || !has_member(tables, tag, name)
        }
        Pattern::Default => true,
    }
}

/// Whether each clause names a member that was counted at most once, or no member of the union of a tag.
#[tactic(auto, using(crate::proofs::Repeated::once_more))]
fn none_repeated(tables: &Tables<'_>, tag: &[u8], times: &NameTimes<'_>, clauses: &[Clause]) -> bool
    ensures { result ≡ none_repeated (times_of times.now) (parts_in (tables_of tables.now) tag.now) (clauses_of (map clause_tree clauses.now)) }
{
    'each: for clause in clauses {
        if !is_once(tables, tag, times, clause) {
            return false;
        }
    }
    true
}

/// Whether each member of the union of a tag stands in the clauses once, or where there is a `default`, at most once. `times` is how often
/// each name does. With a `default` it looks only at members that clauses name: there may be far more others.
fn all_named(
    tables: &Tables<'_>,
    tag: &[u8],
    times: &NameTimes<'_>,
    clauses: &[Clause],
    has_default: bool,
) -> bool
    ensures { let cs = clauses_of (map clause_tree clauses.now) in ((x : List ℕ) → times_of times.now x ≡ named_times x cs)
        → result ≡ all_named (parts_in (tables_of tables.now) tag.now) cs has_default }
{
    if has_default {
        none_repeated(tables, tag, times, clauses)
    } else {
        all_once(tables, tag, times)
    }
}

/// Whether the clauses name the members of a union, each once, or where there is a `default`, at most once.
fn union_named(
    tables: &Tables<'_>,
    alloc: Global,
    union: Chosen<'_>,
    clauses: &[Clause],
    has_default: bool,
) -> Result<bool, AllocError>
    ensures { (g : Env) → HasTags tables.now g.tables → IfOk result (λ all. all
        ≡ all_named (parts_of_chosen g (Some (chosen_in union.entry))) (clauses_of (map clause_tree clauses.now)) has_default) }
{
    let times = clause_times(alloc, clauses)?;
    Ok(all_named(tables, union.tag, &times, clauses, has_default))
}

/// Whether the clauses fit a union.
pub(crate) fn clauses_fit(
    tables: &Tables<'_>,
    alloc: Global,
    union: Chosen<'_>,
    clauses: &[Clause],
) -> Result<bool, AllocError>
    ensures { (g : Env) → HasTags tables.now g.tables
        → IfOk result (λ fit. fit ≡ clauses_fit g (chosen_in union.entry) (clauses_of (map clause_tree clauses.now))) }
{
    let count = defaults(clauses);
    let all = union_named(tables, alloc, union, clauses, count == 1)?;
    Ok(count <= 1 && all)
}
