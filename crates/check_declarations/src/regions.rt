// Regions that begin, and their names.

ghost use Rattle.std.specs.Prelude.{◌≡◌, ◌≤◌, IfOk, OnOk, length, ℕ};
ghost use Rattle.cyc_tree.specs.View.{region_tree};
ghost use Rattle.cyc_types.specs.Regions.{region_of};
ghost use Rattle.source_typing.specs.Declarations.{is_visible, region_declared, with_region};
ghost use Rattle.source_typing.specs.Faults.{earliest};
ghost use Rattle.source_typing.specs.Regions.{Level, Regions};
ghost use Rattle.source_typing.specs.Scope.{Env, next_region};
ghost use Rattle.check_faults.specs.Faults.{faults_of};
ghost use Rattle.check_scopes.specs.Changes.{left};
ghost use Rattle.check_scopes.specs.Knows.{Knows};
ghost use Rattle.check_regions.specs.declared.scope.RegionMark.{RegionMark};
ghost use Rattle.check_declarations.specs.Contexts.{StandsIn, Suits, kept_to};
ghost use Rattle.check_declarations.specs.Declaring.{Matches, own_faults, own_scope, own_what};
ghost use Rattle.cyc_tree.specs.Tree as tree;

use crate::context::Context;
use crate::local::{Judged, plain_local};
use check_faults::{Fault, FaultKind};
use check_regions::RegionNames;
use check_scopes::Scope;
use cyc_tree::RegionName;
use cyc_types::{BaseType, RegionId};
use std::alloc::{AllocError, Global};

/// A region that begins: its number, and the fault of its name.
#[derive(Clone, Copy)]
pub(crate) struct NextRegion {
    pub(crate) id: RegionId,
    pub(crate) fault: Option<Fault>,
}

/// The region that begins if `names` region names are in scope. If their number is over a u32, memory has run out.
pub fn next_region(names: usize) -> Result<RegionId, AllocError>
    ensures { IfOk result (λ r. region_of r ≡ Level names) }
{
    match u32::try_from(names) {
        Ok(level) => Ok(RegionId::Level(level)),
        Err(_) => Err(AllocError),
    }
}

/// Whether a region name is visible.
fn is_visible(names: &RegionNames<'_>, region: &RegionName) -> bool
    ensures { (g : Env) → names.now ≡ g.names → result ≡ is_visible g (region_tree region.now) }
{
    match region {
        RegionName::Named(name) => names.find(&name.text).is_some(),
        RegionName::Heap(_) | RegionName::Unique(_) => true,
    }
}

/// The fault of a region name that is declared: one of that name is visible.
fn visible_fault(names: &RegionNames<'_>, region: &RegionName) -> Option<Fault>
    ensures { (g : Env) → names.now ≡ g.names → faults_of result ≡ earliest (region_declared g (region_tree region.now)) }
{
    if is_visible(names, region) {
        Some(Fault {
            kind: FaultKind::Region,
            at: region.place(),
        })
    } else {
        None
    }
}

/// Adds the name of a region, where none of its spelling is visible.
fn add_region<'p>(
    names: &mut RegionNames<'p>,
    region: &'p RegionName,
    id: RegionId,
) -> Result<(), AllocError>
    ensures added { (g : Env) (next : Regions → Regions) → names.old ≡ g.names → region_of id ≡ next_region g
        → OnOk result (names.new ≡ (with_region (region_tree region.entry.now) next g).names) }
    ensures kept { OnOk result ((count : ℕ) → count ≤ length names.old → kept_to count names.new ≡ kept_to count names.old) }
{
    match region {
        RegionName::Named(name) => {
            names.add(&name.text, id)?;
            Ok(())
        }
        RegionName::Heap(_) | RegionName::Unique(_) => Ok(()),
    }
}

/// The region of a name that is declared: its number, and the fault of the name, which is in scope from here on.
pub(crate) fn next_named<'p>(
    scope: &Scope<'_, 'p>,
    names: &mut RegionNames<'p>,
    region: &'p RegionName,
) -> Result<NextRegion, AllocError>
    ensures next { (g : Env) → Knows scope.now g → IfOk result (λ r. region_of r.id ≡ next_region g) }
    ensures fault { (g : Env) → names.old ≡ g.names → IfOk result (λ r. faults_of r.fault ≡ earliest (region_declared g (region_tree region.entry.now))) }
    ensures named { (g : Env) (next : Regions → Regions) → Knows scope.now g → names.old ≡ g.names
        → OnOk result (names.new ≡ (with_region (region_tree region.entry.now) next g).names) }
    ensures kept { OnOk result ((count : ℕ) → count ≤ length names.old → kept_to count names.new ≡ kept_to count names.old) }
{
    let id = next_region(scope.regions.names())?;
    let fault = visible_fault(names, region);
    add_region(names, region, id)?;
    Ok(NextRegion { id, fault })
}

/// The declaration of a lexical region, apart from its local: its earliest fault, and what the local is. The region begins.
pub(crate) fn own_region<'p>(
    scope: &mut Scope<'_, 'p>,
    names: &mut RegionNames<'p>,
    alloc: Global,
    context: Context<'_, 'p>,
    region: &'p RegionName,
) -> Result<Judged<'p>, AllocError>
    ensures judged { (g : Env) (at : ℕ) (x : tree.Name) → Knows scope.old g → Suits context.entry names.old g
        → let d = tree.Region at (region_tree region.entry.now) x in
        IfOk result (Matches (own_faults g d) (own_what g d)) }
    ensures stands { (g : Env) (at : ℕ) (x : tree.Name) (outer : ℕ) → StandsIn context.entry names.old outer scope.old g
        → OnOk result (StandsIn context.entry names.new outer scope.new
        (own_scope g (tree.Region at (region_tree region.entry.now) x))) }
    ensures locals { OnOk result (scope.new.locals ≡ scope.old.locals) }
    ensures left { OnOk result ((count : ℕ) (mark : RegionMark) → mark.names ≤ length scope.old.regions.begun
        → left count mark scope.new ≡ left count mark scope.old) }
    ensures kept { OnOk result ((count : ℕ) → count ≤ length names.old → kept_to count names.new ≡ kept_to count names.old) }
{
    let next = next_named(scope, names, region)?;
    scope.regions.begin_block()?;
    let handle = BaseType::Handle(next.id);
    Ok(plain_local(alloc, context, next.fault, handle))
}

/// The declaration of a dynamic region, apart from its key. The region begins, and isn't live yet.
pub(crate) fn own_key<'p>(
    scope: &mut Scope<'_, 'p>,
    names: &mut RegionNames<'p>,
    alloc: Global,
    context: Context<'_, 'p>,
    region: &'p RegionName,
) -> Result<Judged<'p>, AllocError>
    ensures judged { (g : Env) (at : ℕ) (x : tree.Name) → Knows scope.old g → Suits context.entry names.old g
        → let d = tree.NewKey at (region_tree region.entry.now) x in
        IfOk result (Matches (own_faults g d) (own_what g d)) }
    ensures stands { (g : Env) (at : ℕ) (x : tree.Name) (outer : ℕ) → StandsIn context.entry names.old outer scope.old g
        → OnOk result (StandsIn context.entry names.new outer scope.new
        (own_scope g (tree.NewKey at (region_tree region.entry.now) x))) }
    ensures locals { OnOk result (scope.new.locals ≡ scope.old.locals) }
    ensures left { OnOk result ((count : ℕ) (mark : RegionMark) → mark.names ≤ length scope.old.regions.begun
        → left count mark scope.new ≡ left count mark scope.old) }
    ensures kept { OnOk result ((count : ℕ) → count ≤ length names.old → kept_to count names.new ≡ kept_to count names.old) }
{
    let next = next_named(scope, names, region)?;
    scope.regions.begin_name(false)?;
    let key = BaseType::Key(next.id);
    Ok(plain_local(alloc, context, next.fault, key))
}
