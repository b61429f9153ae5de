// What to write where a union that is made belongs to the heap, and is wanted in a region.

use crate::called::declared;
use crate::labels::base_regions;
use crate::printed::say_region;
use crate::used::Told;
use cyc_tree::{Base, Expression, Member, Name, Pointer, RegionName, TypeName};
use cyc_types::{CType, RegionId};
use std::alloc::AllocError;

/// Whether a pointer names a region that has a name.
fn names_region(pointer: &Pointer) -> bool {
    matches!(pointer.region, Some(RegionName::Named(_)))
}

/// Whether a member's type names a region, as a pointer's.
fn has_region(member: &Member) -> bool {
    member.of.pointers.iter().any(names_region)
}

/// Whether the member of a name has a type that names a region.
fn member_has_region(members: &[Member], name: &Name) -> bool {
    for member in members {
        if member.name.text == name.text {
            return has_region(member);
        }
    }
    false
}

/// The region that is wanted in place of the heap, of a union's type.
fn wanted_region(found: &CType<'_>, wanted: &CType<'_>) -> Option<RegionId> {
    let pairs = base_regions(&found.base)
        .iter()
        .zip(base_regions(&wanted.base).iter());
    for (one, other) in pairs {
        if one.is_heap() && !other.is_heap() {
            return Some(*other);
        }
    }
    None
}

impl<'m, 'w, 'g, 'p> Told<'m, 'w, 'g, 'p> {
    /// Says how to make a union in a region. Fails only where no host memory is left, as all of these.
    fn say_making(&mut self, tag: &Name, field: &Name, region: RegionId) -> Result<(), AllocError> {
        let by_local = match declared(self.items, &tag.text) {
            Some(members) => member_has_region(members, field),
            None => false,
        };
        self.words.say(if by_local {
            "Put the value first into a local whose type names "
        } else {
            "Make it by `rnew` of the handle of "
        })?;
        say_region(self.words, &self.walk.labels, region)?;
        self.words.say(if by_local {
            ", and make the union of that local.\n"
        } else {
            ", and read it at once: `*rnew(h)` before it.\n"
        })
    }

    /// Says how to make a union that a local of a written type begins with, where it is made for the heap.
    pub(crate) fn say_begun_cure(
        &mut self,
        value: &Expression,
        of: &TypeName,
    ) -> Result<(), AllocError> {
        match (value, self.written_union(of)) {
            (Expression::MakeUnion(tag, field, _), Some(region)) if self.is_order => {
                self.say_making(tag, field, region)
            }
            _ => Ok(()),
        }
    }

    /// The first region of a name that a union's type names.
    fn written_union(&self, of: &TypeName) -> Option<RegionId> {
        let Base::Union(_, regions) = &of.base else {
            return None;
        };
        for region in regions.iter() {
            if let RegionName::Named(name) = region {
                return self.walk.known.find(&name.text);
            }
        }
        None
    }

    /// Says how to make a union in a region, where it is made for the heap.
    pub(crate) fn say_union_cure(
        &mut self,
        value: &Expression,
        found: &CType<'p>,
        wanted: &CType<'p>,
    ) -> Result<(), AllocError> {
        match (value, wanted_region(found, wanted)) {
            (Expression::MakeUnion(tag, field, _), Some(region)) if self.is_order => {
                self.say_making(tag, field, region)
            }
            _ => Ok(()),
        }
    }
}
