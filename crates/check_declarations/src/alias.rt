// Aliases of unique pointers.

ghost use Rattle.std.specs.Prelude.{◌≡◌, ◌≤◌, IfOk, OnOk, length, ℕ};
ghost use Rattle.cyc_tree.specs.Tree as tree;
ghost use Rattle.cyc_types.specs.Regions.{region_of};
ghost use Rattle.cyc_types.specs.Types.{static_type};
ghost use Rattle.source_typing.specs.Declarations.{alias_fits, alias_type, aliased};
ghost use Rattle.source_typing.specs.Scope.{Env};
ghost use Rattle.source_typing.specs.Scope as judged;
ghost use Rattle.source_typing.specs.Types.{PartialType, StaticType};
ghost use Rattle.source_typing.specs.Verdicts as verdict;
ghost use Rattle.check_faults.specs.Verdicts.{short_of, shortened};
ghost use Rattle.check_operators.specs.Values.{value_of};
ghost use Rattle.check_scopes.specs.Changes.{left};
ghost use Rattle.check_scopes.specs.Knows.{Knows};
ghost use Rattle.check_regions.specs.declared.scope.RegionMark.{RegionMark};
ghost use Rattle.check_types.specs.Written.{partial_type};
ghost use Rattle.check_declarations.specs.Contexts.{StandsIn, Suits, kept_to};
ghost use Rattle.check_declarations.specs.Declaring.{Matches, own_faults, own_scope, own_what};
ghost use Rattle.check_declarations.specs.Aliases.{declared_alias};

use crate::context::Context;
use crate::fitting::local_tag;
use crate::local::{Judged, what_of};
use crate::operand::{Kind, operand};
use crate::regions::next_named;
use check_faults::{Fault, FaultKind, Verdict, sooner};
use check_operators::Value;
use check_regions::RegionNames;
use check_scopes::Scope;
use check_types::{WrittenType, misses_region_in, settled, written_in};
use cyc_tree::{Name, RegionName, TypeName};
use cyc_types::{CType, Layer, Reach, RegionId};
use std::alloc::{AllocError, Global};

/// An alias, its name apart: its region, its type and the pointer that it is one of.
#[derive(Clone, Copy)]
pub(crate) struct Alias<'p> {
    pub(crate) region: &'p RegionName,
    pub(crate) of: &'p TypeName,
    pub(crate) source: &'p Name,
}

/// A unique pointer's type with this region for its outermost one; any other type stays as it is.
fn aliased<'p>(region: RegionId, of: CType<'p>) -> Result<CType<'p>, AllocError>
    ensures { IfOk result (λ t. static_type t ≡ aliased (region_of region) (static_type of.entry)) }
{
    match of.outer() {
        Some(Layer::Unique(may_be_null)) => {
            let bound = Reach::single(may_be_null);
            of.into_pointee().under(Layer::Thin(bound, region))
        }
        Some(Layer::Thin(_, _)) => Ok(of),
        Some(Layer::Fat(_)) => Ok(of),
        None => Ok(of),
    }
}

/// The type of an alias, which has to be that of its pointer with the alias's region.
fn fitting<'p>(
    of: Verdict<CType<'p>>,
    at: u32,
    region: RegionId,
    source: &CType<'_>,
) -> Result<Verdict<CType<'p>>, AllocError>
    ensures { (t : verdict.Verdict StaticType) → short_of static_type of.entry ≡ shortened t → IfOk result (λ v. short_of static_type v
        ≡ shortened (verdict.after t (alias_fits at (aliased (region_of region) (static_type source.now))))) }
{
    match of {
        Verdict::Of(of) => {
            let wanted = aliased(region, source.try_clone()?)?;
            if of.is_same(&wanted) {
                Ok(Verdict::Of(of))
            } else {
                Ok(Verdict::Wrong(Fault {
                    kind: FaultKind::Region,
                    at,
                }))
            }
        }
        Verdict::Wrong(fault) => Ok(Verdict::Wrong(fault)),
        Verdict::NotJudged => Ok(Verdict::NotJudged),
    }
}

/// The type of an alias as it is written, by what was judged of its pointer.
fn settled_by<'p>(
    written: WrittenType<'p>,
    at: u32,
    region: RegionId,
    misses_region: bool,
    source: &Verdict<Value<'_>>,
) -> Result<Verdict<CType<'p>>, AllocError>
    ensures { (v : verdict.Verdict judged.Value) → short_of value_of source.now ≡ shortened v → IfOk result (λ t. short_of static_type t
        ≡ shortened (alias_type at (region_of region) misses_region v (partial_type written.entry))) }
{
    match source {
        Verdict::Of(value) => {
            let found = settled(written, at, Some(&value.of))?;
            fitting(found, at, region, &value.of)
        }
        _ if misses_region => Ok(Verdict::NotJudged),
        _ => settled(written, at, None),
    }
}

/// The type of an alias.
fn alias_type<'p>(
    written: Verdict<WrittenType<'p>>,
    at: u32,
    region: RegionId,
    misses_region: bool,
    source: &Verdict<Value<'_>>,
) -> Result<Verdict<CType<'p>>, AllocError>
    ensures { (w : verdict.Verdict PartialType) (v : verdict.Verdict judged.Value) → short_of partial_type written.entry ≡ shortened w
        → short_of value_of source.now ≡ shortened v
        → IfOk result (λ t. short_of static_type t ≡ shortened (verdict.after w (alias_type at (region_of region) misses_region v))) }
{
    match written {
        Verdict::Of(written) => settled_by(written, at, region, misses_region, source),
        Verdict::Wrong(fault) => Ok(Verdict::Wrong(fault)),
        Verdict::NotJudged => Ok(Verdict::NotJudged),
    }
}

/// The declaration of an alias, apart from its name: its earliest fault, and what it is. Its region begins.
pub(crate) fn own_alias<'p>(
    scope: &mut Scope<'_, 'p>,
    names: &mut RegionNames<'p>,
    alloc: Global,
    context: Context<'_, 'p>,
    alias: Alias<'p>,
) -> Result<Judged<'p>, AllocError>
    ensures judged { (g : Env) (at : ℕ) (x : tree.Name) → Knows scope.old g → Suits context.entry names.old g
        → let d = declared_alias at alias.entry x in
        IfOk result (Matches (own_faults g d) (own_what g d)) }
    ensures stands { (g : Env) (at : ℕ) (x : tree.Name) (outer : ℕ) → StandsIn context.entry names.old outer scope.old g
        → OnOk result (StandsIn context.entry names.new outer scope.new
        (own_scope g (declared_alias at alias.entry x))) }
    ensures locals { OnOk result (scope.new.locals ≡ scope.old.locals) }
    ensures left { OnOk result ((count : ℕ) (mark : RegionMark) → mark.names ≤ length scope.old.regions.begun
        → left count mark scope.new ≡ left count mark scope.old) }
    ensures kept { OnOk result ((count : ℕ) → count ≤ length names.old → kept_to count names.new ≡ kept_to count names.old) }
{
    let source = operand(scope, alloc, Kind::Unique, alias.source)?;
    let tag = local_tag(scope, alias.of);
    let misses_region = misses_region_in(tag, alias.of);
    let next = next_named(scope, names, alias.region)?;
    scope.regions.begin_name(true)?;
    let written = written_in(alloc, tag, names, alias.of)?;
    let of = alias_type(written, alias.of.at, next.id, misses_region, &source)?;
    let fault = sooner(sooner(next.fault, source.fault()), of.fault());
    Ok(Judged {
        fault,
        what: what_of(context.frame, None, of),
    })
}
