// Regions that are opened by their keys.

ghost use Rattle.std.specs.Prelude.{◌≡◌, ◌≤◌, ◌++◌, IfOk, List, OnOk, length, option_map, ℕ};
ghost use Rattle.cyc_tree.specs.View.{name_tree, region_tree};
ghost use Rattle.cyc_types.specs.Bases.{base_type};
ghost use Rattle.cyc_types.specs.Regions.{region_of};
ghost use Rattle.cyc_types.specs.Types.{static_type};
ghost use Rattle.source_typing.specs.Declarations.{key_region, named_region, opened_region, opens, unknown_region};
ghost use Rattle.source_typing.specs.Faults.{earliest};
ghost use Rattle.source_typing.specs.Scope.{Env};
ghost use Rattle.source_typing.specs.Scope as judged;
ghost use Rattle.source_typing.specs.Verdicts as verdict;
ghost use Rattle.check_faults.specs.Faults.{faults_of};
ghost use Rattle.check_faults.specs.Verdicts.{short_of, shortened};
ghost use Rattle.check_operators.specs.Values.{value_of};
ghost use Rattle.check_scopes.specs.Changes.{left};
ghost use Rattle.check_scopes.specs.Knows.{Knows};
ghost use Rattle.check_regions.specs.declared.scope.RegionMark.{RegionMark};
ghost use Rattle.check_declarations.specs.Contexts.{StandsIn, Suits};
ghost use Rattle.check_declarations.specs.Declaring.{Matches, own_faults, own_scope, own_what};
ghost use Rattle.cyc_tree.specs.Tree as tree;
ghost use Rattle.source_typing.specs.Faults as rules;

use crate::context::Context;
use crate::local::{Judged, faulty_local, plain_local, untyped_local};
use crate::operand::{Kind, operand};
use check_faults::{Fault, FaultKind, Verdict, sooner};
use check_operators::Value;
use check_regions::RegionNames;
use check_scopes::Scope;
use cyc_tree::{Name, RegionName};
use cyc_types::{BaseType, CType, RegionId};
use std::alloc::{AllocError, Global};

/// The region of a key; of any other type the heap.
#[tactic(auto, using(crate::proofs::Operands::plain_key, crate::proofs::Operands::pointer_key))]
fn key_region(of: &CType) -> RegionId
    ensures { region_of result ≡ key_region (static_type of.now) }
{
    match of.outer() {
        Some(_) => RegionId::Heap,
        None => base_region(&of.base),
    }
}

/// The same of what is no pointer.
fn base_region(of: &BaseType) -> RegionId
    ensures { region_of result ≡ key_region (base_type of.now) }
{
    match of {
        BaseType::Key(region) => *region,
        _ => RegionId::Heap,
    }
}

/// Which region a name is, the unique one apart.
fn named_region(names: &RegionNames<'_>, region: &RegionName) -> Option<RegionId>
    ensures { (g : Env) → names.now ≡ g.names → option_map region_of result ≡ named_region g (region_tree region.now) }
{
    match region {
        RegionName::Heap(_) => Some(RegionId::Heap),
        RegionName::Unique(_) => None,
        RegionName::Named(name) => names.find(&name.text),
    }
}

/// The fault of an unknown region name.
fn unknown_fault(names: &RegionNames<'_>, region: &RegionName) -> Option<Fault>
    ensures { (g : Env) → names.now ≡ g.names → faults_of result ≡ earliest (unknown_region g (region_tree region.now)) }
{
    match region {
        RegionName::Named(name) => {
            if names.find(&name.text).is_some() {
                None
            } else {
                Some(Fault {
                    kind: FaultKind::Region,
                    at: name.at,
                })
            }
        }
        RegionName::Heap(_) | RegionName::Unique(_) => None,
    }
}

/// The region of a name at this position, which has to be that of the key.
fn opens(at: u32, named: Option<RegionId>, key: &CType) -> Verdict<RegionId>
    ensures { (v : judged.Value) → v.type ≡ static_type key.now → short_of region_of result ≡ shortened (opens at (option_map region_of named) v) }
{
    match named {
        Some(region) if region.is_same(key_region(key)) => Verdict::Of(region),
        _ => Verdict::Wrong(Fault {
            kind: FaultKind::Region,
            at,
        }),
    }
}

/// The region that a key opens, by what was judged of the key and the fault of the region's name.
fn opened_by(
    at: u32,
    named: Option<RegionId>,
    key: &Verdict<Value<'_>>,
    unknown: Option<Fault>,
) -> Verdict<RegionId>
    ensures { (v : verdict.Verdict judged.Value) (fs : List rules.Fault) → short_of value_of key.now ≡ shortened v → faults_of unknown ≡ earliest fs
        → short_of region_of result
        ≡ shortened (verdict.unless_faulty (verdict.faults_of v ++ fs) (verdict.after v (opens at (option_map region_of named)))) }
{
    match (sooner(key.fault(), unknown), key) {
        (Some(fault), _) => Verdict::Wrong(fault),
        (None, Verdict::Of(value)) => opens(at, named, &value.of),
        (None, _) => Verdict::NotJudged,
    }
}

/// The region that is opened by a key.
fn opened_region(
    scope: &Scope<'_, '_>,
    names: &RegionNames<'_>,
    alloc: Global,
    region: &RegionName,
    key: &Name,
) -> Result<Verdict<RegionId>, AllocError>
    ensures { (g : Env) → Knows scope.now g → names.now ≡ g.names
        → IfOk result (λ v. short_of region_of v ≡ shortened (opened_region g (region_tree region.now) (name_tree key.now))) }
{
    let value = operand(scope, alloc, Kind::Key, key)?;
    let unknown = unknown_fault(names, region);
    let named = named_region(names, region);
    Ok(opened_by(region.place(), named, &value, unknown))
}

/// The declaration of a region that is opened, apart from its handle: its earliest fault, and what the handle is. The region is live from
/// here on.
pub(crate) fn own_open<'p>(
    scope: &mut Scope<'_, 'p>,
    names: &RegionNames<'_>,
    alloc: Global,
    context: Context<'_, 'p>,
    region: &RegionName,
    key: &Name,
) -> Result<Judged<'p>, AllocError>
    ensures judged { (g : Env) (at : ℕ) (x : tree.Name) → Knows scope.old g → Suits context.entry names.now g
        → let d = tree.Open at (region_tree region.now) x (name_tree key.now) in
        IfOk result (Matches (own_faults g d) (own_what g d)) }
    ensures stands { (g : Env) (at : ℕ) (x : tree.Name) (outer : ℕ) → StandsIn context.entry names.now outer scope.old g
        → OnOk result (StandsIn context.entry names.now outer scope.new
        (own_scope g (tree.Open at (region_tree region.now) x (name_tree key.now)))) }
    ensures locals { OnOk result (scope.new.locals ≡ scope.old.locals) }
    ensures left { OnOk result ((count : ℕ) (mark : RegionMark) → mark.opened ≤ length scope.old.regions.opened
        → left count mark scope.new ≡ left count mark scope.old) }
{
    let opened = opened_region(scope, names, alloc, region, key)?;
    match opened {
        Verdict::Of(opened) => {
            scope.regions.open(opened)?;
            let handle = BaseType::Handle(opened);
            Ok(plain_local(alloc, context, None, handle))
        }
        Verdict::Wrong(fault) => Ok(faulty_local(fault)),
        Verdict::NotJudged => Ok(untyped_local()),
    }
}
