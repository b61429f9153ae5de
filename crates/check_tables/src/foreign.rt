// The regions that the type of a global names.

ghost use Rattle.std.specs.Prelude.{◌≡◌, ◌++◌, ◌∷◌, Bool, IfOk, List, None, OnOk, Some, map, option_map, true, ℕ};
ghost use Rattle.std.specs.List.{list_all};
ghost use Rattle.cyc_tree.specs.View.{base_tree, name_tree, pointer_tree, region_tree, type_tree};
ghost use Rattle.source_typing.specs.Written.{Spot, find_region, spot};
ghost use Rattle.check_types.specs.Arguments.{named_spots};
ghost use Rattle.check_tables.specs.Globals.{base_regions, foreign_in, is_unnamed, named_region, names_none, or_region, spots_in, type_spots};

use check_regions::RegionNames;
use cyc_tree::{Base, Name, Pointer, RegionName, TypeName};
use cyc_types::RegionId;
use std::alloc::{AllocError, Global};

/// Whether a region has no name, as the heap and the unique one.
fn is_unnamed(region: &RegionName) -> bool
    ensures { result ≡ is_unnamed (Some (region_tree region.now)) }
{
    !matches!(region, RegionName::Named(_))
}

/// Whether none of some regions has a name.
#[tactic(auto, using(crate::proofs::GlobalTypes::each_argument))]
fn are_unnamed(arguments: &[RegionName]) -> bool
    ensures { result ≡ names_none (named_spots (map region_tree arguments.now)) }
{
    each_unnamed(arguments)
}

/// Whether each region has no name.
fn each_unnamed(arguments: &[RegionName]) -> bool
    ensures { result ≡ list_all (λ r. is_unnamed (Some (region_tree r))) arguments.now }
{
    arguments.iter().all(is_unnamed)
}

/// Whether a pointer isn't into a region of a name.
fn is_into_unnamed(pointer: &Pointer) -> bool
    ensures { result ≡ is_unnamed (pointer_tree pointer.now).region }
{
    !matches!(pointer.region, Some(RegionName::Named(_)))
}

/// Whether none of some pointers is into a region of a name.
#[tactic(auto, using(crate::proofs::GlobalTypes::each_pointer))]
fn are_into_unnamed(pointers: &[Pointer]) -> bool
    ensures { result ≡ names_none (spots_in (map pointer_tree pointers.now)) }
{
    each_into_unnamed(pointers)
}

/// Whether each pointer isn't into a region of a name.
fn each_into_unnamed(pointers: &[Pointer]) -> bool
    ensures { result ≡ list_all (λ p. is_unnamed (pointer_tree p).region) pointers.now }
{
    pointers.iter().all(is_into_unnamed)
}

/// The regions that a base writes: the arguments of a struct or union, and the region of a handle or key.
fn base_regions(base: &Base) -> &[RegionName]
    ensures { map region_tree result.now ≡ base_regions (base_tree base.now) }
{
    match base {
        Base::Struct(_, arguments) | Base::Union(_, arguments) => arguments.as_slice(),
        Base::Handle(region) | Base::Key(region) => std::slice::from_ref(region),
        _ => &[],
    }
}

/// Whether a type names no region but the heap and the unique one.
pub(crate) fn names_none(of: &TypeName) -> bool
    ensures { result ≡ names_none (type_spots (type_tree of.now)) }
{
    are_unnamed(base_regions(&of.base)) && are_into_unnamed(&of.pointers)
}

/// The name of a region, if it is neither the heap nor the unique one.
fn region_name(region: &RegionName) -> Option<&Name>
    ensures { option_map (λ n. name_tree n.now) result ≡ named_region (Some (region_tree region.now)) }
{
    match region {
        RegionName::Named(name) => Some(name),
        RegionName::Heap(_) | RegionName::Unique(_) => None,
    }
}

/// Adds the name of a region, if it has one, as the heap.
fn add_name<'a>(names: &mut RegionNames<'a>, region: &'a RegionName) -> Result<(), AllocError>
    ensures { OnOk result ((p : Bool) (ss : List Spot) (x : List ℕ) → or_region (find_region names.new x) (foreign_in ss x)
        ≡ or_region (find_region names.old x) (foreign_in (spot p (Some (region_tree region.entry.now)) ∷ ss) x)) }
{
    if let Some(name) = region_name(region) {
        names.add(&name.text, RegionId::Heap)?;
    }
    Ok(())
}

/// Adds the names of regions, each as the heap.
fn add_names<'a>(names: &mut RegionNames<'a>, arguments: &'a [RegionName]) -> Result<(), AllocError>
    ensures { OnOk result ((ss : List Spot) (x : List ℕ) → or_region (find_region names.new x) (foreign_in ss x)
        ≡ or_region (find_region names.old x) (foreign_in (named_spots (map region_tree arguments.entry.now) ++ ss) x)) }
{
    'each: for argument in arguments {
        add_name(names, argument)?;
    }
    Ok(())
}

/// Adds the name of the region that a pointer has, if it has one, as the heap.
fn add_region<'a>(names: &mut RegionNames<'a>, pointer: &'a Pointer) -> Result<(), AllocError>
    ensures { OnOk result ((ss : List Spot) (x : List ℕ) → or_region (find_region names.new x) (foreign_in ss x)
        ≡ or_region (find_region names.old x) (foreign_in (spot true (pointer_tree pointer.entry.now).region ∷ ss) x)) }
{
    match &pointer.region {
        Some(region) => {
            add_name(names, region)?;
            Ok(())
        }
        None => Ok(()),
    }
}

/// Adds the names of the regions that pointers have, each as the heap.
fn add_regions<'a>(names: &mut RegionNames<'a>, pointers: &'a [Pointer]) -> Result<(), AllocError>
    ensures { OnOk result ((x : List ℕ) → find_region names.new x
        ≡ or_region (find_region names.old x) (foreign_in (spots_in (map pointer_tree pointers.entry.now)) x)) }
{
    'each: for pointer in pointers {
        add_region(names, pointer)?;
    }
    Ok(())
}

/// The names of regions that a type has, each as the heap.
pub(crate) fn foreign_names<'a>(
    alloc: Global,
    of: &'a TypeName,
) -> Result<RegionNames<'a>, AllocError>
    ensures { IfOk result (λ names. (x : List ℕ) → find_region names x ≡ foreign_in (type_spots (type_tree of.entry.now)) x) }
{
    let mut names = RegionNames::new(alloc);
    add_names(&mut names, base_regions(&of.base))?;
    add_regions(&mut names, &of.pointers)?;
    Ok(names)
}
