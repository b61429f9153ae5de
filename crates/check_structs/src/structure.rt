// A struct or union, as it is judged.

ghost use Rattle.std.specs.Prelude.{◌≡◌, ◌++◌, ◌∷◌, ◌&&◌, IfOk, OnOk, [], false, is_some, map, option_map, true, ℕ};
ghost use Rattle.std.specs.List.{list_all};
ghost use Rattle.cyc_tree.specs.Tree.{Structure as TheStructure};
ghost use Rattle.cyc_tree.specs.View.{member_tree, name_tree, structure_tree, type_tree};
ghost use Rattle.cyc_types.specs.Known.{has_declared};
ghost use Rattle.cyc_types.specs.Tables.{tables_of};
ghost use Rattle.cyc_types.specs.Tags.{member_of, members_of};
ghost use Rattle.cyc_types.specs.Types.{static_type};
ghost use Rattle.source_typing.specs.Faults.{earliest};
ghost use Rattle.source_typing.specs.Tables.{Tables as TheTables};
ghost use Rattle.source_typing.specs.Tags.{all_typed, member_faults, member_type, parts_by, struct_sized};
ghost use Rattle.check_faults.specs.Faults.{faults_of, first_of};
ghost use Rattle.check_faults.specs.Verdicts.{fault_in, short_of, shortened};
ghost use Rattle.check_types.specs.Tagged.{TagIs};
ghost use Rattle.check_structs.specs.Members.{scoped};
ghost use Rattle.check_structs.specs.Tags.{AreKnown, IsTag, StandsAt, fits_as, known_name, known_short, member_by, or_own};

use crate::member::{fits_member, repeated_fault, type_alone};
use crate::parameters::region_parameters;
use check_faults::{Fault, FaultKind, Verdict, sooner};
use check_regions::RegionNames;
use check_types::{TagName, TagNames, type_tag};
use cyc_tree::{Member, Name, Structure, TypeName};
use cyc_types::{CType, Member as TagMember, Tables, Tag};
use std::alloc::{AllocError, Global};

/// What a name means: what is judged of it, or else what is first known of it.
fn known_name(judged: &TagNames<'_>, first: &TagNames<'_>, name: &[u8]) -> TagName
    ensures { result ≡ known_name judged.now first.now name.now }
{
    match judged.of(name) {
        TagName::NoName => first.of(name),
        found => found,
    }
}

/// What the tag means that a type of structs or unions has.
fn known_tag(judged: &TagNames<'_>, first: &TagNames<'_>, of: &TypeName) -> TagName
    ensures { (g : TheTables) → AreKnown judged.now first.now g → TagIs g (type_tree of.now) result }
{
    match type_tag(of) {
        Some(name) => known_name(judged, first, &name.text),
        None => TagName::NoName,
    }
}

/// A member's type: a fault at this place where no union, or else no struct, has such a member, or where it is a struct or union that
/// isn't declared.
fn fitting_member<'p>(
    of: CType<'p>,
    at: u32,
    is_union: bool,
    tables: &Tables<'p>,
) -> Verdict<CType<'p>>
    ensures { short_of static_type result ≡ shortened (fits_as is_union (has_declared (tables_of tables.now)) at (static_type of.entry)) }
{
    if fits_member(is_union, &of) && tables.declares(&of) {
        Verdict::Of(of)
    } else {
        Verdict::Wrong(Fault {
            kind: FaultKind::Typing,
            at,
        })
    }
}

/// A member's type, by what its tag means and by the structs and unions that are declared, where these region names are in scope.
fn type_by_tag<'p>(
    alloc: Global,
    is_union: bool,
    tag: TagName,
    names: &RegionNames<'_>,
    tables: &Tables<'p>,
    of: &'p TypeName,
) -> Result<Verdict<CType<'p>>, AllocError>
    ensures { (g : TheTables) → TagIs g (type_tree of.entry.now) tag → IfOk result (λ v. short_of static_type v
        ≡ shortened (member_by is_union (has_declared (tables_of tables.now)) g names.now (type_tree of.entry.now))) }
{
    let found = type_alone(alloc, tag, names, of)?;
    match found {
        Verdict::Of(member) => Ok(fitting_member(member, of.at, is_union, tables)),
        Verdict::Wrong(fault) => Ok(Verdict::Wrong(fault)),
        Verdict::NotJudged => Ok(Verdict::NotJudged),
    }
}

/// The type of a member of a union, or else of a struct, where these region names are in scope.
fn member_type<'p>(
    alloc: Global,
    is_union: bool,
    known: Known<'_, 'p>,
    names: &RegionNames<'_>,
    of: &'p TypeName,
) -> Result<Verdict<CType<'p>>, AllocError>
    ensures { (g : TheTables) (i : ℕ) → StandsAt known.entry.judged.now known.entry.first.now (tables_of known.entry.tables.now) i g
        → IfOk result (λ v. short_of static_type v ≡ shortened (member_type (scoped g i names.now) is_union (type_tree of.entry.now))) }
{
    let tag = known_tag(known.judged, known.first, of);
    let found = type_by_tag(alloc, is_union, tag, names, known.tables, of)?;
    Ok(found)
}

/// What is known where a struct or union is judged.
#[derive(Clone, Copy)]
pub(crate) struct Known<'a, 'p> {
    /// What the names mean of the items that stand before it.
    pub(crate) judged: &'a TagNames<'p>,
    /// What is first known of all names.
    pub(crate) first: &'a TagNames<'p>,
    /// The structs and unions that stand before it.
    pub(crate) tables: &'a Tables<'p>,
}

/// The type that is known of what is judged.
fn known_type<'p>(of: Verdict<CType<'p>>) -> Option<CType<'p>>
    ensures { option_map static_type result ≡ known_short (short_of static_type of.entry) }
{
    match of {
        Verdict::Of(of) => Some(of),
        Verdict::Wrong(_) | Verdict::NotJudged => None,
    }
}

/// What was found of members.
#[derive(Drop)]
struct JudgedMembers<'p> {
    members: Vec<TagMember<'p>>,
    fault: Option<Fault>,
}

impl<'p> JudgedMembers<'p> {
    /// Adds a member.
    fn add(&mut self, name: &'p [u8], of: Verdict<CType<'p>>) -> Result<(), AllocError>
        ensures parts { OnOk result (members_of self.new.members.items
            ≡ members_of self.old.members.items ++ record { name = name.entry.now; type = known_short (short_of static_type of.entry) } ∷ []) }
        ensures fault { OnOk result (faults_of self.new.fault ≡ first_of (faults_of self.old.fault) (fault_in (short_of static_type of.entry))) }
    {
        self.fault = sooner(self.fault, of.fault());
        self.members.push(TagMember {
            name,
            of: known_type(of),
        })?;
        Ok(())
    }
}

/// The members of a union, or else of a struct, where these region names are in scope.
fn judged_members<'p>(
    alloc: Global,
    is_union: bool,
    known: Known<'_, 'p>,
    names: &RegionNames<'_>,
    members: &'p [Member],
) -> Result<JudgedMembers<'p>, AllocError>
    ensures parts { (g : TheTables) (i : ℕ) → StandsAt known.entry.judged.now known.entry.first.now (tables_of known.entry.tables.now) i g → IfOk result (λ r.
        members_of r.members.items ≡ parts_by (scoped g i names.now) is_union (map member_tree members.entry.now)) }
    ensures fault { (g : TheTables) (i : ℕ) → StandsAt known.entry.judged.now known.entry.first.now (tables_of known.entry.tables.now) i g → IfOk result (λ r.
        faults_of r.fault ≡ earliest (member_faults (scoped g i names.now) is_union (map member_tree members.entry.now))) }
{
    let mut judged = JudgedMembers {
        members: Vec::new(alloc),
        fault: None,
    };
    'each: for member in members {
        let of = member_type(alloc, is_union, known, names, &member.of)?;
        judged.add(&member.name.text, of)?;
    }
    Ok(judged)
}

/// Whether the type of each member is known.
fn all_typed(members: &[TagMember<'_>]) -> bool
    ensures { result ≡ list_all (λ m. is_some (member_of m).type) members.now }
{
    members.iter().all(|member| member.of.is_some())
}

/// Whether the type of each member is known.
#[tactic(auto, using(crate::proofs::Judging::each_typed))]
fn are_typed(members: &[TagMember<'_>]) -> bool
    ensures { result ≡ all_typed (members_of members.now) }
{
    all_typed(members)
}

/// The fault that was found, or else that of too many bytes of a struct.
fn or_size(
    is_union: bool,
    tables: &Tables<'_>,
    members: &[TagMember<'_>],
    tag: &Name,
    found: Option<Fault>,
) -> Option<Fault>
    ensures { (s : TheStructure) → s.tag ≡ name_tree tag.now → faults_of result
        ≡ or_own (faults_of found) (earliest (struct_sized (tables_of tables.now) is_union s (members_of members.now))) }
{
    if is_union || found.is_some() || !are_typed(members) || tables.struct_fits(members) {
        found
    } else {
        Some(Fault {
            kind: FaultKind::Size,
            at: tag.at,
        })
    }
}

/// A struct or union that was judged.
#[derive(Drop)]
pub(crate) struct JudgedTag<'p> {
    pub(crate) tag: Tag<'p>,
    /// The earliest fault of its declaration.
    pub(crate) fault: Option<Fault>,
}

/// A union, or else a struct. Fails only where no host memory is left, or it has 2^32 region parameters.
pub(crate) fn judged_structure<'p>(
    alloc: Global,
    is_union: bool,
    known: Known<'_, 'p>,
    order: u32,
    structure: &'p Structure,
) -> Result<JudgedTag<'p>, AllocError>
    ensures { (g : TheTables) → StandsAt known.entry.judged.now known.entry.first.now (tables_of known.entry.tables.now) order g
        → IfOk result (λ r. IsTag g order is_union (structure_tree structure.entry.now) r) }
{
    let parameters = region_parameters(alloc, &structure.regions)?;
    let names = &parameters.names;
    let judged = judged_members(alloc, is_union, known, names, &structure.members)?;
    let second = repeated_fault(alloc, &structure.members)?;
    let JudgedMembers { members, fault } = judged;
    let parts = sooner(parameters.fault, sooner(fault, second));
    let fault = or_size(is_union, known.tables, &members, &structure.tag, parts);
    let tag = Tag {
        is_union,
        order,
        regions: parameters.count,
        members,
        sound: fault.is_none(),
    };
    Ok(JudgedTag { tag, fault })
}
