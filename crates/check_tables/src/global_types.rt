// The types and sizes of globals.

ghost use Rattle.std.specs.Prelude.{◌≡◌, ◌≤◌, Bool, IfOk};
ghost use Rattle.cyc_tree.specs.View.{type_tree};
ghost use Rattle.cyc_types.specs.Types.{static_type};
ghost use Rattle.source_meaning.specs.Sizes.{rounded_up};
ghost use Rattle.source_typing.specs.Globals.{count_of, fitting_global, global_type};
ghost use Rattle.source_typing.specs.Scope.{at_item};
ghost use Rattle.source_typing.specs.Tables as rules_tables;
ghost use Rattle.source_typing.specs.Types.{StaticType};
ghost use Rattle.check_faults.specs.Verdicts.{short_of, shortened};
ghost use Rattle.check_tables.specs.Globals.{IsSized, bytes_by, bytes_of};
ghost use Rattle.check_tables.specs.Structs.{KnowsStructs};
ghost use Rattle.cyc_tree.specs.Tree as tree;
ghost use Rattle.source_typing.specs.Verdicts as rules;

use crate::foreign::{foreign_names, names_none};
use crate::structs::Structs;
use check_declarations::fitted;
use check_faults::{Fault, FaultKind, Verdict};
use check_types::{settled_alone, tag_of_type, written_in};
use cyc_tree::TypeName;
use cyc_types::CType;
use std::alloc::{AllocError, Global};

/// The type, or the fault at this position if the global number `item`, or an array of `count` elements, can't have it, as if the type
/// names a region.
fn fitted_global<'p>(
    structs: Structs<'_, 'p>,
    item: u32,
    count: Option<u32>,
    of: CType<'p>,
    at: u32,
    is_unnamed: bool,
) -> Verdict<CType<'p>>
    ensures { (lenient : Bool) (g : rules_tables.Tables) → KnowsStructs structs.entry g
        → short_of static_type result ≡ shortened (fitting_global (at_item lenient g item) at count is_unnamed (static_type of.entry)) }
{
    if is_unnamed {
        fitted(structs.tables, item, of, at, count, false)
    } else {
        Verdict::Wrong(Fault {
            kind: FaultKind::Typing,
            at,
        })
    }
}

/// The type, or the fault at this position if the global number `item`, or an array of `count` elements, can't have it.
fn fitting<'p>(
    structs: Structs<'_, 'p>,
    item: u32,
    count: Option<u32>,
    of: Verdict<CType<'p>>,
    at: u32,
    is_unnamed: bool,
) -> Verdict<CType<'p>>
    ensures { (lenient : Bool) (g : rules_tables.Tables) (w : rules.Verdict StaticType) → KnowsStructs structs.entry g
        → short_of static_type of.entry ≡ shortened w
        → short_of static_type result ≡ shortened (rules.after w (fitting_global (at_item lenient g item) at count is_unnamed)) }
{
    match of {
        Verdict::Of(of) => fitted_global(structs, item, count, of, at, is_unnamed),
        Verdict::Wrong(fault) => Verdict::Wrong(fault),
        Verdict::NotJudged => Verdict::NotJudged,
    }
}

/// The type of the global number `item`, or of the elements of an array of `count`. It names no region but the heap and the unique one.
pub(crate) fn global_type<'p>(
    alloc: Global,
    structs: Structs<'_, 'p>,
    item: u32,
    count: Option<u32>,
    of: &'p TypeName,
) -> Result<Verdict<CType<'p>>, AllocError>
    ensures { (lenient : Bool) (g : rules_tables.Tables) (x : tree.Global) → KnowsStructs structs.entry g → x.of ≡ type_tree of.entry.now
        → count_of x.initial ≡ count → IfOk result (λ v. short_of static_type v ≡ shortened (global_type (at_item lenient g item) x)) }
{
    let names = foreign_names(alloc, of)?;
    let tag = tag_of_type(structs.tags, of);
    let found = written_in(alloc, tag, &names, of)?;
    let settled = settled_alone(found, of.at)?;
    let is_unnamed = names_none(of);
    Ok(fitting(structs, item, count, settled, of.at, is_unnamed))
}

/// The bytes of one element, or of `count` elements.
fn bytes_of(count: Option<u32>, size: u32) -> u64
    ensures bytes { result ≡ bytes_of count size }
    ensures within { result ≤ 18446744065119617025 }
{
    match count {
        Some(count) => u64::from(count) * u64::from(size),
        None => u64::from(size),
    }
}

/// The bytes of one element, or of `count` elements, rounded up to 8.
fn padded(count: Option<u32>, size: u32) -> u64
    ensures { result ≡ rounded_up (bytes_of count size) 8 }
{
    (bytes_of(count, size) + 7) / 8 * 8
}

/// The bytes of a global of a type, or of an array of `count` elements of it, rounded up to 8; 0 if the type isn't known.
pub(crate) fn type_bytes(
    structs: Structs<'_, '_>,
    count: Option<u32>,
    of: &Verdict<CType<'_>>,
) -> u64
    ensures { (g : rules_tables.Tables) (v : rules.Verdict StaticType) → KnowsStructs structs.entry g → short_of static_type of.now ≡ shortened v
        → IsSized g count v → result ≡ bytes_by g count v }
{
    match of {
        Verdict::Of(of) => match structs.tables.extent(of) {
            Some(extent) => padded(count, extent.size()),
            None => 0,
        },
        Verdict::Wrong(_) | Verdict::NotJudged => 0,
    }
}
