// The types of locals.

ghost use Rattle.std.specs.Prelude.{◌≡◌, IfOk, None, Option, option_map, true};
ghost use Rattle.cyc_tree.specs.View.{type_tree};
ghost use Rattle.cyc_types.specs.Types.{static_type};
ghost use Rattle.source_typing.specs.Declarations.{fitting_local, local_type, set_type, taken_from, unset_type};
ghost use Rattle.source_typing.specs.Scope.{Env};
ghost use Rattle.source_typing.specs.Scope as judged;
ghost use Rattle.source_typing.specs.Types.{PartialType, StaticType};
ghost use Rattle.source_typing.specs.Verdicts as verdict;
ghost use Rattle.check_faults.specs.Verdicts.{short_of, shortened};
ghost use Rattle.check_operators.specs.Values.{value_of};
ghost use Rattle.check_scopes.specs.Knows.{Knows};
ghost use Rattle.check_types.specs.Written.{partial_type};
ghost use Rattle.check_declarations.specs.Contexts.{Suits};

use crate::context::Context;
use crate::fitting::{fitted, local_tag};
use check_faults::Verdict;
use check_operators::Value;
use check_regions::RegionNames;
use check_scopes::Scope;
use check_types::{WrittenType, misses_region_in, settled, written_in};
use cyc_tree::TypeName;
use cyc_types::CType;
use std::alloc::{AllocError, Global};

/// The type of a local, or of the elements of an array of `count`, by its settled type.
fn fitting<'p>(
    scope: &Scope<'_, 'p>,
    item: u32,
    of: Verdict<CType<'p>>,
    at: u32,
    count: Option<u32>,
    set: bool,
) -> Verdict<CType<'p>>
    ensures { (g : Env) (t : verdict.Verdict StaticType) → Knows scope.now g → item ≡ g.item
        → short_of static_type of.entry ≡ shortened t
        → short_of static_type result ≡ shortened (verdict.after t (fitting_local g at count set)) }
{
    match of {
        Verdict::Of(of) => fitted(scope.tables, item, of, at, count, set),
        Verdict::Wrong(fault) => Verdict::Wrong(fault),
        Verdict::NotJudged => Verdict::NotJudged,
    }
}

/// The same, with its missing regions from that of its initializer.
fn local_type<'p>(
    scope: &Scope<'_, 'p>,
    item: u32,
    of: Verdict<WrittenType<'p>>,
    at: u32,
    count: Option<u32>,
    set: bool,
    source: Option<&CType<'_>>,
) -> Result<Verdict<CType<'p>>, AllocError>
    ensures { (g : Env) (w : verdict.Verdict PartialType) → Knows scope.now g → item ≡ g.item
        → short_of partial_type of.entry ≡ shortened w
        → IfOk result (λ v. short_of static_type v
        ≡ shortened (verdict.after w (local_type g at count set (option_map (λ s. static_type s.now) source.entry)))) }
{
    match of {
        Verdict::Of(of) => {
            let settled = settled(of, at, source)?;
            Ok(fitting(scope, item, settled, at, count, set))
        }
        Verdict::Wrong(fault) => Ok(Verdict::Wrong(fault)),
        Verdict::NotJudged => Ok(Verdict::NotJudged),
    }
}

/// The type of a local without an initializer, or of the elements of an array of `count`.
pub(crate) fn unset_type<'p>(
    scope: &Scope<'_, 'p>,
    names: &RegionNames<'_>,
    alloc: Global,
    context: Context<'_, 'p>,
    of: &'p TypeName,
    count: Option<u32>,
) -> Result<Verdict<CType<'p>>, AllocError>
    ensures { (g : Env) → Knows scope.now g → Suits context.entry names.now g
        → IfOk result (λ v. short_of static_type v ≡ shortened (unset_type g (type_tree of.entry.now) count)) }
{
    let tag = local_tag(scope, of);
    let written = written_in(alloc, tag, names, of)?;
    local_type(scope, context.item, written, of.at, count, false, None)
}

/// A type whose missing regions aren't known: its fault, or else it isn't checked.
#[tactic(auto, using(crate::proofs::LocalTypes::unsettled_is))]
fn unsettled<'p>(of: &Verdict<WrittenType<'p>>) -> Verdict<CType<'p>>
    ensures { (w : verdict.Verdict PartialType) → short_of partial_type of.now ≡ shortened w
        → short_of static_type result ≡ shortened (verdict.after w (λ p. verdict.Unjudged)) }
{
    Verdict::wrong_if(of.fault())
}

/// The type of a local that takes missing regions from its initializer.
fn taken_from<'p>(
    scope: &Scope<'_, 'p>,
    item: u32,
    of: Verdict<WrittenType<'p>>,
    at: u32,
    value: &Verdict<Value<'_>>,
) -> Result<Verdict<CType<'p>>, AllocError>
    ensures { (g : Env) (w : verdict.Verdict PartialType) (v : verdict.Verdict judged.Value) → Knows scope.now g → item ≡ g.item
        → short_of partial_type of.entry ≡ shortened w → short_of value_of value.now ≡ shortened v
        → IfOk result (λ found. short_of static_type found ≡ shortened (verdict.after w (taken_from g at true v))) }
{
    match value {
        Verdict::Of(value) => local_type(scope, item, of, at, None, true, Some(&value.of)),
        Verdict::Wrong(_) => Ok(unsettled(&of)),
        Verdict::NotJudged => Ok(unsettled(&of)),
    }
}

/// The type of a local with an initializer.
pub(crate) fn set_type<'p>(
    scope: &Scope<'_, 'p>,
    names: &RegionNames<'_>,
    alloc: Global,
    context: Context<'_, 'p>,
    of: &'p TypeName,
    value: &Verdict<Value<'_>>,
) -> Result<Verdict<CType<'p>>, AllocError>
    ensures { (g : Env) (v : verdict.Verdict judged.Value) → Knows scope.now g → Suits context.entry names.now g → short_of value_of value.now ≡ shortened v
        → IfOk result (λ found. short_of static_type found ≡ shortened (set_type g (type_tree of.entry.now) v)) }
{
    let tag = local_tag(scope, of);
    let written = written_in(alloc, tag, names, of)?;
    if misses_region_in(tag, of) {
        taken_from(scope, context.item, written, of.at, value)
    } else {
        local_type(scope, context.item, written, of.at, None, true, None)
    }
}
