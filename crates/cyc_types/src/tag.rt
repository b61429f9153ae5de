// Structs and unions.

ghost use Rattle.std.specs.Prelude.{◌≡◌, IfOk, option_map};
ghost use Rattle.source_typing.specs.Tables.{part_in};
ghost use Rattle.cyc_types.specs.MemberNames.{AreNamed};
ghost use Rattle.cyc_types.specs.Tags.{member_of, members_of};

use crate::ctype::CType;
use crate::extent::Extent;
use crate::member_names::{MemberNames, positions};
use std::alloc::{AllocError, Global};

/// A member of a struct or union. Its type isn't known where it has a fault.
#[derive(Drop)]
pub struct Member<'p> {
    pub name: &'p [u8],
    pub of: Option<CType<'p>>,
}

/// A struct or union.
#[derive(Drop)]
pub struct Tag<'p> {
    pub is_union: bool,
    /// How many items stand before it.
    pub order: u32,
    /// How many region parameters it has.
    pub regions: u32,
    pub members: Vec<Member<'p>>,
    /// Whether its declaration has no fault.
    pub sound: bool,
}

/// A struct or union, with what was found of it when it was declared.
#[derive(Drop)]
pub struct Known<'p> {
    pub tag: Tag<'p>,
    /// Its members by their names.
    names: MemberNames<'p>,
    /// Whether all members are copied.
    pub copyable: bool,
    /// Whether all members have a beginning.
    pub begins: bool,
    /// Its bytes. None: too many.
    pub extent: Option<Extent>,
    ghost named: { AreNamed names tag.members.items },
}

impl<'p> Known<'p> {
    /// What is known of a struct or union of which this was found. Fails only where no host memory is left.
    pub(crate) fn of(
        alloc: Global,
        tag: Tag<'p>,
        copyable: bool,
        begins: bool,
        extent: Option<Extent>,
    ) -> Result<Self, AllocError>
        ensures tag { IfOk result (λ k. k.tag ≡ tag.entry) }
        ensures copyable { IfOk result (λ k. k.copyable ≡ copyable) }
        ensures begins { IfOk result (λ k. k.begins ≡ begins) }
        ensures extent { IfOk result (λ k. k.extent ≡ extent) }
    {
        let names = positions(alloc, tag.members.as_slice())?;
        Ok(Known {
            tag,
            names,
            copyable,
            begins,
            extent,
        })
    }

    /// The member of a name.
    pub(crate) fn member(&self, name: &[u8]) -> Option<&Member<'p>>
        ensures { option_map (λ m. member_of m.now) result ≡ part_in (members_of self.now.tag.members.items) name.now }
    {
        match self.names.of(name) {
            Some(position) => match self.tag.members.get(position) {
                Some(member) => Some(member),
                None => None,
            },
            None => None,
        }
    }
}
