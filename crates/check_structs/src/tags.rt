// The structs and unions of a program, as they are judged.

ghost use Rattle.std.specs.Prelude.{◌≡◌, ◌++◌, ◌∷◌, IfOk, List, None, OnOk, Some, [], false, if◌then◌else◌, true};
ghost use Rattle.cyc_tree.specs.View.{program_item_tree, program_tree};
ghost use Rattle.cyc_types.specs.Known.{has_declared};
ghost use Rattle.cyc_types.specs.Sameness.{HasTags};
ghost use Rattle.cyc_types.specs.Tables.{tables_of};
ghost use Rattle.cyc_types.specs.Tags.{members_of, named_tag};
ghost use Rattle.source_typing.specs.Faults.{earliest};
ghost use Rattle.source_typing.specs.Programs.{Judged, all_tag_faults, builtins, entries, judged_tag, judged_tags};
ghost use Rattle.source_typing.specs.Tables.{Tables as TheTables, each_part, tag_in};
ghost use Rattle.check_faults.specs.Faults.{faults_of};
ghost use Rattle.check_types.specs.Naming.{AreTagNames, has_tag_name};
ghost use Rattle.check_types.specs.Tagged.{tag_name_of};
ghost use Rattle.check_structs.specs.FirstKnown.{AreNames, first_tags};
ghost use Rattle.check_structs.specs.Tags.{AreAllJudged, AreJudged, IsFound, StandsAt, found_parts, tag_if};

use crate::heads::{bare_names, builtin_names, head_names, item_name};
use crate::parameters::next_number;
use crate::structure::{JudgedTag, Known, judged_structure};
use check_faults::{Fault, sooner};
use check_types::{TagName, TagNames};
use cyc_tree::Item;
use cyc_types::{TableFault, Tables, Tag};
use std::alloc::{AllocError, Global};

/// The structs and unions of a program, as they are judged.
#[derive(Drop)]
pub struct JudgedTags<'p> {
    /// What the names of the program mean.
    pub names: TagNames<'p>,
    /// Its structs and unions.
    pub tables: Tables<'p>,
    /// The earliest fault of their declarations.
    pub fault: Option<Fault>,
}

/// Declares a struct or union with a new name and declared members.
fn declare<'p>(tables: &mut Tables<'p>, name: &'p [u8], tag: Tag<'p>) -> Result<(), AllocError>
    // its name is new
    requires new { tag_in (tables_of tables.old) name.now ≡ None }
    // the structs and unions that its members are were declared before it
    requires declared { each_part (has_declared (tables_of tables.old)) (members_of tag.members.items) ≡ true }
    ensures { OnOk result (tables_of tables.new ≡ tables_of tables.old ++ named_tag name.entry.now tag.entry ∷ []) }
{
    match tables.add(name, tag) {
        Ok(()) => Ok(()),
        Err(TableFault::Memory) => Err(AllocError),
        // its name is new, and its members are declared
        Err(TableFault::Again | TableFault::Undeclared) => unreachable!(),
    }
}

/// What the name of an item means.
fn found_name(found: &Option<JudgedTag<'_>>) -> TagName
    ensures { (j : Judged) → IsFound j found.now → result ≡ tag_name_of (Some j.entry.entry) }
{
    match found {
        Some(found) => {
            if found.tag.sound {
                TagName::Tag {
                    is_union: found.tag.is_union,
                    regions: found.tag.regions,
                }
            } else {
                TagName::NotJudged(found.tag.regions)
            }
        }
        None => TagName::Other,
    }
}

/// Declares a struct or union with declared members, where its name is new.
fn declare_new<'p>(
    tables: &mut Tables<'p>,
    is_new: bool,
    name: &'p [u8],
    tag: Tag<'p>,
) -> Result<(), AllocError>
    // a name that is new is no struct's or union's
    requires new { is_new ≡ true → tag_in (tables_of tables.old) name.now ≡ None }
    // the structs and unions that its members are were declared before it
    requires declared { each_part (has_declared (tables_of tables.old)) (members_of tag.members.items) ≡ true }
    ensures { OnOk result (tables_of tables.new
        ≡ tables_of tables.old ++ (if is_new then named_tag name.entry.now tag.entry ∷ [] else [])) }
{
    if !is_new {
        return Ok(());
    }
    declare(tables, name, tag)?;
    Ok(())
}

/// Declares what was found of an item, where its name is new, and tells its fault.
fn declare_found<'p>(
    tables: &mut Tables<'p>,
    is_new: bool,
    name: &'p [u8],
    found: Option<JudgedTag<'p>>,
) -> Result<Option<Fault>, AllocError>
    // a name that is new is no struct's or union's
    requires new { is_new ≡ true → tag_in (tables_of tables.old) name.now ≡ None }
    // the structs and unions that its members are were declared before it
    requires declared { each_part (has_declared (tables_of tables.old)) (found_parts found) ≡ true }
    ensures tables { (j : Judged) → IsFound j found.entry → name.entry.now ≡ j.entry.name
        → OnOk result (tables_of tables.new ≡ tables_of tables.old ++ tag_if is_new j.entry) }
    ensures fault { (j : Judged) → IsFound j found.entry → IfOk result (λ f. faults_of f ≡ earliest j.faults) }
{
    match found {
        Some(found) => {
            let JudgedTag { tag, fault } = found;
            declare_new(tables, is_new, name, tag)?;
            Ok(fault)
        }
        None => Ok(None),
    }
}

impl<'p> JudgedTags<'p> {
    /// Adds an item.
    fn add(&mut self, name: &'p [u8], found: Option<JudgedTag<'p>>) -> Result<(), AllocError>
        // a name that isn't known is no struct's or union's
        requires new { has_tag_name self.old.names name.now ≡ false → tag_in (tables_of self.old.tables) name.now ≡ None }
        // the structs and unions that its members are were declared before it
        requires declared { each_part (has_declared (tables_of self.old.tables)) (found_parts found) ≡ true }
        ensures { (js : List Judged) (j : Judged) → AreJudged js self.old → IsFound j found.entry → name.entry.now ≡ j.entry.name
            → OnOk result (AreJudged (js ++ j ∷ []) self.new) }
    {
        let is_new = self.names.add(name, found_name(&found))?;
        let fault = declare_found(&mut self.tables, is_new, name, found)?;
        self.fault = sooner(self.fault, fault);
        Ok(())
    }
}

/// What is found of an item, where it is a struct or union.
fn judged_item<'p>(
    alloc: Global,
    known: Known<'_, 'p>,
    order: u32,
    item: &'p Item,
) -> Result<Option<JudgedTag<'p>>, AllocError>
    ensures { (g : TheTables) → StandsAt known.entry.judged.now known.entry.first.now (tables_of known.entry.tables.now) order g
        → IfOk result (IsFound (judged_tag g order (program_item_tree item.entry.now))) }
{
    match item {
        Item::Struct(structure) => {
            let judged = judged_structure(alloc, false, known, order, structure)?;
            Ok(Some(judged))
        }
        Item::Union(structure) => {
            let judged = judged_structure(alloc, true, known, order, structure)?;
            Ok(Some(judged))
        }
        Item::Global(_) | Item::Function(_) => Ok(None),
    }
}

/// No item, with the functions that every program has.
fn no_tags<'p>(alloc: Global) -> Result<JudgedTags<'p>, AllocError>
    ensures { IfOk result (AreJudged []) }
{
    let names = builtin_names(alloc)?;
    Ok(JudgedTags {
        names,
        tables: Tables::new(alloc),
        fault: None,
    })
}

/// The structs and unions of items, by what is first known of their names.
fn judged_items<'p>(
    alloc: Global,
    first: &TagNames<'p>,
    items: &'p [Item],
) -> Result<JudgedTags<'p>, AllocError>
    // these are the names that are first known
    requires first { AreNames first.now (first_tags (program_tree items.now)) }
    ensures { IfOk result (λ done. AreAllJudged (program_tree items.entry.now) done) }
{
    let mut done = no_tags(alloc)?;
    let mut order = 0;
    'each: for item in items {
        let known = Known {
            judged: &done.names,
            first,
            tables: &done.tables,
        };
        let found = judged_item(alloc, known, order, item)?;
        done.add(&item_name(item).text, found)?;
        order = next_number(order)?;
    }
    Ok(done)
}

/// The structs and unions of a program, as they are judged: what its names mean where a tag is wanted, the structs and unions by
/// name, and the earliest fault of their declarations. Fails only where no host memory is left, or an
/// item's number is over the greatest u32.
pub fn judged_tags<'p>(alloc: Global, items: &'p [Item]) -> Result<JudgedTags<'p>, AllocError>
    ensures fault { IfOk result (λ done. faults_of done.fault ≡ earliest (all_tag_faults (judged_tags (program_tree items.entry.now)))) }
    ensures names { IfOk result (λ done. AreTagNames done.names (builtins (entries (judged_tags (program_tree items.entry.now))))) }
    ensures tables { IfOk result (λ done. HasTags done.tables (builtins (entries (judged_tags (program_tree items.entry.now))))) }
{
    let bare = bare_names(alloc, items)?;
    let first = head_names(alloc, &bare, items)?;
    let done = judged_items(alloc, &first, items)?;
    Ok(done)
}
