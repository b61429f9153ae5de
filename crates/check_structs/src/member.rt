// The members of structs and unions.

ghost use Rattle.std.specs.Prelude.{◌≡◌, IfOk, [], false, map};
ghost use Rattle.cyc_tree.specs.View.{member_tree, type_tree};
ghost use Rattle.cyc_types.specs.Types.{static_type};
ghost use Rattle.source_typing.specs.Faults.{earliest};
ghost use Rattle.source_typing.specs.Tables.{Tables};
ghost use Rattle.source_typing.specs.Tags.{fits_member, repeated};
ghost use Rattle.source_typing.specs.Types.{is_unique};
ghost use Rattle.check_faults.specs.Faults.{faults_of};
ghost use Rattle.check_faults.specs.Verdicts.{short_of, shortened};
ghost use Rattle.check_types.specs.Tagged.{TagIs};
ghost use Rattle.check_structs.specs.Members.{type_alone};

use crate::parameters::unless_new;
use check_faults::{Fault, FaultKind, Verdict, sooner};
use check_regions::RegionNames;
use check_types::{TagName, TagNames, settled_alone, written_in};
use cyc_tree::{Member, TypeName};
use cyc_types::{CType, Layer};
use std::alloc::{AllocError, Global};

/// The type of a member, by what its tag means, where these region names are in scope.
pub(crate) fn type_alone<'p>(
    alloc: Global,
    tag: TagName,
    names: &RegionNames<'_>,
    of: &'p TypeName,
) -> Result<Verdict<CType<'p>>, AllocError>
    ensures { (g : Tables) → TagIs g (type_tree of.entry.now) tag → IfOk result (λ v. short_of static_type v
        ≡ shortened (type_alone g names.now (type_tree of.entry.now))) }
{
    let found = written_in(alloc, tag, names, of)?;
    let settled = settled_alone(found, of.at)?;
    Ok(settled)
}

/// Whether a type is a unique pointer's.
#[tactic(auto, using(crate::proofs::Members::unique_outer))]
fn is_unique(of: &CType<'_>) -> bool
    ensures { result ≡ is_unique (static_type of.now) }
{
    matches!(of.outer(), Some(Layer::Unique(_)))
}

/// Whether a union, or else a struct, may have a member of a type: a struct's is neither `void` nor a key, and a union's is a scalar that
/// can be copied and is no union.
pub(crate) fn fits_member(is_union: bool, of: &CType<'_>) -> bool
    ensures { result ≡ fits_member is_union (static_type of.now) }
{
    if is_union {
        of.is_scalar() && !of.is_union() && !is_unique(of) && !of.is_key()
    } else {
        !of.is_void() && !of.is_key()
    }
}

/// The earliest fault of second members of a name.
pub(crate) fn repeated_fault(alloc: Global, members: &[Member]) -> Result<Option<Fault>, AllocError>
    ensures { IfOk result (λ f. faults_of f ≡ earliest (repeated [] (map member_tree members.now))) }
{
    let mut names = TagNames::new(alloc);
    let mut found = None;
    'each: for member in members {
        let is_new = names.add(&member.name.text, TagName::Other)?;
        found = sooner(found, unless_new(is_new, FaultKind::Name, member.name.at));
    }
    Ok(found)
}
