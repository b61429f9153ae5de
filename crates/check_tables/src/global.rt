// Globals.

ghost use Rattle.std.specs.Prelude.{◌≡◌, Bool, IfOk, List, None, Some, if◌then◌else◌, is_some};
ghost use Rattle.cyc_tree.specs.View.{global_tree, initial_tree};
ghost use Rattle.cyc_types.specs.Types.{static_type};
ghost use Rattle.source_typing.specs.Faults.{Fault as TheFault, earliest};
ghost use Rattle.source_meaning.specs.Sizes.{rounded_up};
ghost use Rattle.source_typing.specs.Globals.{count_of, global_entry, global_faults, global_size, if_clean};
ghost use Rattle.source_typing.specs.Declarations.{what_after, what_of};
ghost use Rattle.source_typing.specs.Regions.{TheHeap};
ghost use Rattle.source_typing.specs.Scope.{at_item};
ghost use Rattle.source_typing.specs.Tables.{OfValue};
ghost use Rattle.source_typing.specs.Tables as rules_tables;
ghost use Rattle.source_typing.specs.Types.{StaticType};
ghost use Rattle.check_faults.specs.Faults.{faults_of};
ghost use Rattle.check_faults.specs.Verdicts.{short_of, shortened};
ghost use Rattle.check_scopes.specs.Means.{Means};
ghost use Rattle.check_tables.specs.Globals.{bytes_by, meaning_by, untyped_by};
ghost use Rattle.check_tables.specs.Structs.{KnowsStructs};
ghost use Rattle.check_scopes.specs.declared.meaning.Meaning.TheVariants.{NotKnown};
ghost use Rattle.source_typing.specs.Verdicts as rules;

use crate::constant::initial_fault;
use crate::global_types::{global_type, type_bytes};
use crate::structs::Structs;
use check_faults::{Fault, Verdict};
use check_scopes::Meaning;
use cyc_tree::{Global as GlobalItem, Initial};
use cyc_types::{CType, RegionId};
use std::alloc::{AllocError, Global};

/// What a global is: its earliest fault, what its name means, and how many bytes it has in the data.
#[derive(Drop)]
pub struct JudgedGlobal<'p> {
    pub fault: Option<Fault>,
    pub meaning: Meaning<'p>,
    /// The size rounded up to 8, or 0 if the global has a fault or isn't checked.
    pub bytes: u64,
}

/// How many elements a global has, if it is an array.
fn count_of(initial: &Initial) -> Option<u32>
    ensures { result ≡ count_of (initial_tree initial.now) }
{
    match initial {
        Initial::Array(count) => Some(*count),
        Initial::None | Initial::Constant(_) => None,
    }
}

/// A global whose name isn't known, by its fault if it has one.
fn unknown<'p>(fault: Option<Fault>) -> JudgedGlobal<'p>
    ensures fault { result.fault ≡ fault }
    ensures meaning { result.meaning ≡ NotKnown }
    ensures bytes { result.bytes ≡ 0 }
{
    JudgedGlobal {
        fault,
        meaning: Meaning::NotKnown,
        bytes: 0,
    }
}

/// The meaning of a global's name: a variable of a type, or an array of `count` elements of it.
fn meaning_of<'p>(count: Option<u32>, of: CType<'p>) -> Meaning<'p>
    ensures { result ≡ meaning_by None count of.entry }
{
    match count {
        Some(_) => Meaning::Array(of, RegionId::Heap),
        None => Meaning::Variable(of, RegionId::Heap),
    }
}

/// A global of this type and size, by its fault.
fn of_type<'p>(
    count: Option<u32>,
    of: CType<'p>,
    bytes: u64,
    fault: Option<Fault>,
) -> JudgedGlobal<'p>
    ensures fault { result.fault ≡ fault }
    ensures meaning { result.meaning ≡ meaning_by fault count of.entry }
    ensures bytes { result.bytes ≡ (if is_some fault then 0 else bytes) }
{
    match fault {
        None => JudgedGlobal {
            fault: None,
            meaning: meaning_of(count, of),
            bytes,
        },
        Some(fault) => unknown(Some(fault)),
    }
}

/// A global whose type isn't checked, by its fault.
fn of_no_type<'p>(fault: Option<Fault>) -> JudgedGlobal<'p>
    ensures fault { result.fault ≡ fault }
    ensures meaning { result.meaning ≡ untyped_by fault }
    ensures bytes { result.bytes ≡ 0 }
{
    match fault {
        None => JudgedGlobal {
            fault: None,
            meaning: Meaning::Untyped,
            bytes: 0,
        },
        Some(fault) => unknown(Some(fault)),
    }
}

/// A global, by its type and size and its earliest fault.
fn by_type<'p>(
    count: Option<u32>,
    of: Verdict<CType<'p>>,
    bytes: u64,
    fault: Option<Fault>,
) -> JudgedGlobal<'p>
    ensures fault { result.fault ≡ fault }
    ensures meaning { (fs : List TheFault) (v : rules.Verdict StaticType) → short_of static_type of.entry ≡ shortened v → faults_of fault ≡ earliest fs
        → Means (Some (OfValue (what_after fs (what_of TheHeap count v)))) (Some result.meaning) }
    ensures bytes { (fs : List TheFault) (g : rules_tables.Tables) (v : rules.Verdict StaticType) → short_of static_type of.entry ≡ shortened v
        → faults_of fault ≡ earliest fs → bytes ≡ bytes_by g count v → result.bytes ≡ if_clean fs (bytes_by g count v) }
{
    match of {
        Verdict::Wrong(_) => unknown(fault),
        Verdict::NotJudged => of_no_type(fault),
        Verdict::Of(of) => of_type(count, of, bytes, fault),
    }
}

/// The global that is the program's item number `item`, by its type and its constant.
pub fn judged_global<'p>(
    alloc: Global,
    structs: Structs<'_, 'p>,
    item: u32,
    global: &'p GlobalItem,
) -> Result<JudgedGlobal<'p>, AllocError>
    ensures fault { (lenient : Bool) (g : rules_tables.Tables) → KnowsStructs structs.entry g → IfOk result (λ j. faults_of j.fault
        ≡ earliest (global_faults (at_item lenient g item) (global_tree global.entry.now))) }
    ensures meaning { (lenient : Bool) (g : rules_tables.Tables) → KnowsStructs structs.entry g → IfOk result (λ j.
        Means (Some (global_entry (at_item lenient g item) (global_tree global.entry.now))) (Some j.meaning)) }
    ensures bytes { (lenient : Bool) (g : rules_tables.Tables) → KnowsStructs structs.entry g → IfOk result (λ j. j.bytes
        ≡ rounded_up (global_size (at_item lenient g item) (global_tree global.entry.now)) 8) }
{
    let count = count_of(&global.initial);
    let of = global_type(alloc, structs, item, count, &global.of)?;
    let fault = initial_fault(alloc, &global.initial, &of)?;
    let bytes = type_bytes(structs, count, &of);
    Ok(by_type(count, of, bytes, fault))
}
