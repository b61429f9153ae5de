// Names that nothing uses, and the warnings of a whole program.

use crate::leaks::leak_of;
use crate::names::{Named, Names, Sort};
use crate::statements::pass_function;
use crate::walk::Walk;
use crate::warning::{Warning, WarningKind};
use cyc_tree::{
    Base, Function, Global as Variable, Initial, Item, Member, Name, Pointer, Program, RegionName,
    Structure, TypeName,
};
use indexmap::IndexMap;
use std::alloc::{AllocError, Global};

/// What to write instead of a name that nothing uses.
const CURE: &str = "Delete it, or begin its name with _ if it is meant.";

/// Whether nothing is said of a name: it begins with `_`, or it is of another part of the program.
fn is_passed_over(name: &Name, own: u32) -> bool {
    name.at >= own || name.text.first().copied() == Some(b'_')
}

/// The warning of a name that nothing uses.
fn unused<'p>(name: &'p Name, words: &'static str) -> Warning<'p> {
    Warning {
        kind: WarningKind::Unused,
        at: name.at,
        name: &name.text,
        words,
        cure: CURE,
    }
}

/// Declares a global. Of one with a constant nothing is said: it may be one name among the constants of a set.
fn declare_global<'p>(walk: &mut Walk<'p>, global: &'p Variable) {
    let (sort, count) = match global.initial {
        Initial::None => (Sort::Variable, None),
        Initial::Array(count) => (Sort::Variable, Some(count)),
        Initial::Constant(_) => (Sort::Required, None),
    };
    walk.declare(Named {
        count,
        ..Named::new(&global.name, sort, Some(&global.of))
    });
}

/// Whether a function is called without a call in the text: `main` by each run, and by `cycc test` those whose names begin with `test_`.
fn is_called(function: &Function) -> bool {
    let name = function.name.text.as_slice();
    name == b"main".as_slice() || name.starts_with(b"test_")
}

/// Declares a function.
fn declare_function<'p>(walk: &mut Walk<'p>, function: &'p Function) {
    walk.declare(Named {
        is_used: is_called(function),
        ..Named::new(&function.name, Sort::Function, None)
    });
}

/// Declares the names of a program, each of which is visible in the whole text.
fn declare_items<'p>(walk: &mut Walk<'p>, items: &'p [Item]) {
    for item in items {
        match item {
            Item::Global(global) => declare_global(walk, global),
            Item::Function(function) => declare_function(walk, function),
            Item::Struct(structure) | Item::Union(structure) => {
                walk.declare(Named::new(&structure.tag, Sort::Required, None));
            }
        }
    }
}

/// Goes over the functions of a program.
fn pass_items<'p>(walk: &mut Walk<'p>, items: &'p [Item]) {
    for item in items {
        if let Item::Function(function) = item {
            pass_function(walk, function);
        }
    }
}

/// What a walk over a program finds.
fn walked<'p>(
    alloc: Global,
    items: &'p [Item],
) -> Result<(Names<'p>, Vec<Warning<'p>>), AllocError> {
    let mut walk = Walk::new(alloc);
    declare_items(&mut walk, items);
    pass_items(&mut walk, items);
    walk.into_parts()
}

/// The warning of a name by what became of it.
fn warning_of<'p>(named: &Named<'p>) -> Option<Warning<'p>> {
    if named.is_used {
        return leak_of(named);
    }
    match named.sort {
        Sort::Variable => Some(unused(named.name, " is never used")),
        Sort::Function => Some(unused(named.name, " is never called")),
        Sort::Required => None,
    }
}

/// Adds the warnings of names. Fails only where no host memory is left, as all of these.
fn add_names<'p>(
    found: &mut Vec<Warning<'p>>,
    all: &[Named<'p>],
    items: usize,
    own: u32,
) -> Result<(), AllocError> {
    for (number, named) in all.iter().enumerate() {
        let own = if number < items { own } else { u32::MAX };
        if !is_passed_over(named.name, own) {
            if let Some(warning) = warning_of(named) {
                found.push(warning)?;
            }
        }
    }
    Ok(())
}

/// Adds a region's name to some.
fn add_region<'p>(
    named: &mut IndexMap<&'p [u8], ()>,
    region: &'p RegionName,
) -> Result<(), AllocError> {
    if let RegionName::Named(name) = region {
        named.insert(&name.text, ())?;
    }
    Ok(())
}

/// Adds the regions' names that pointers name.
fn add_pointers<'p>(
    named: &mut IndexMap<&'p [u8], ()>,
    pointers: &'p [Pointer],
) -> Result<(), AllocError> {
    for pointer in pointers {
        if let Some(region) = &pointer.region {
            add_region(named, region)?;
        }
    }
    Ok(())
}

/// Adds regions' names to some.
fn add_regions<'p>(
    named: &mut IndexMap<&'p [u8], ()>,
    regions: &'p [RegionName],
) -> Result<(), AllocError> {
    for region in regions {
        add_region(named, region)?;
    }
    Ok(())
}

/// Adds the regions' names that a type names.
fn add_type<'p>(named: &mut IndexMap<&'p [u8], ()>, of: &'p TypeName) -> Result<(), AllocError> {
    match &of.base {
        Base::Struct(_, regions) | Base::Union(_, regions) => {
            add_regions(named, regions.as_slice())?;
        }
        Base::Handle(region) | Base::Key(region) => add_region(named, region)?,
        Base::Int | Base::Unsigned | Base::Char | Base::Void => {}
    }
    add_pointers(named, &of.pointers)
}

/// The regions' names that members name.
fn named_by<'p>(
    alloc: Global,
    members: &'p [Member],
) -> Result<IndexMap<&'p [u8], ()>, AllocError> {
    let mut named = IndexMap::new(alloc);
    for member in members {
        add_type(&mut named, &member.of)?;
    }
    Ok(named)
}

/// Adds the warnings of the region parameters of a struct or a union.
fn add_parameters<'p>(
    found: &mut Vec<Warning<'p>>,
    alloc: Global,
    structure: &'p Structure,
    own: u32,
) -> Result<(), AllocError> {
    let named = named_by(alloc, &structure.members)?;
    for region in structure.regions.as_slice() {
        if let RegionName::Named(name) = region {
            if !is_passed_over(name, own) && named.get(name.text.as_slice()).is_none() {
                found.push(unused(name, " is a region that no member names"))?;
            }
        }
    }
    Ok(())
}

/// Adds the warnings of members that nothing names.
fn add_members<'p>(
    found: &mut Vec<Warning<'p>>,
    names: &Names<'p>,
    members: &'p [Member],
    own: u32,
) -> Result<(), AllocError> {
    for member in members {
        if !is_passed_over(&member.name, own) && !names.has_member(&member.name.text) {
            found.push(unused(&member.name, " is never used"))?;
        }
    }
    Ok(())
}

/// Adds the warnings of structs and unions.
fn add_structures<'p>(
    found: &mut Vec<Warning<'p>>,
    alloc: Global,
    names: &Names<'p>,
    items: &'p [Item],
    own: u32,
) -> Result<(), AllocError> {
    for item in items {
        if let Item::Struct(structure) | Item::Union(structure) = item {
            add_parameters(found, alloc, structure, own)?;
            add_members(found, names, &structure.members, own)?;
        }
    }
    Ok(())
}

/// The warnings of a program, in the order of the text. Of functions, globals and members that begin at the offset `own` or behind it, none
/// is called unused. Fails only where no host memory is left.
pub fn warnings_of<'p>(
    alloc: Global,
    program: &'p Program,
    own: u32,
) -> Result<Vec<Warning<'p>>, AllocError> {
    let items = program.items();
    let (names, mut found) = walked(alloc, items)?;
    add_structures(&mut found, alloc, &names, items, own)?;
    add_names(&mut found, &names.all, items.len(), own)?;
    found
        .as_mut_slice()
        .sort_by_key(alloc, |warning| warning.at)?;
    Ok(found)
}
