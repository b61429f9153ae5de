// How many bytes types have.

ghost use Rattle.std.specs.Prelude.{◌≡◌, ◌≤◌, Some};
ghost use Rattle.source_meaning.specs.Sizes.{extent_by, largest, no_extent};
ghost use Rattle.cyc_tree.specs.Tree.{Structure};
ghost use Rattle.source_typing.specs.Extents.{fits_bytes, part_shapes};
ghost use Rattle.source_typing.specs.Tags.{struct_bytes};
ghost use Rattle.cyc_types.specs.Bases.{base_type};
ghost use Rattle.cyc_types.specs.Measures.{
  extent_in,
  limited,
  measured,
  part_extent,
  quick_measure,
  quick_tag,
  scalar_bytes,
  stored,
  struct_if,
  struct_measure,
  union_bytes,
  union_if,
};
ghost use Rattle.cyc_types.specs.Known.{found};
ghost use Rattle.cyc_types.specs.Tables.{tables_of};
ghost use Rattle.cyc_types.specs.Tags.{member_of, members_of};
ghost use Rattle.cyc_types.specs.Types.{static_type};

use crate::base::BaseType;
use crate::ctype::CType;
use crate::extent::{Alignment, Extent};
use crate::tables::Tables;
use crate::tag::{Member, Tag};

/// How many bytes a base has in a union; a struct or union, which no union holds, counts as nothing.
fn base_bytes(base: &BaseType) -> u32
    ensures { result ≡ scalar_bytes (Some (base_type base.now)) }
{
    match base {
        BaseType::Char => 1,
        BaseType::Void | BaseType::Struct(_, _) | BaseType::Union(_, _) => 0,
        _ => 4,
    }
}

/// The same of a type.
fn type_bytes(of: &CType) -> u32
    ensures { result ≡ scalar_bytes (Some (static_type of.now)) }
{
    match of.outer() {
        Some(pointer) => pointer.extent().size(),
        None => base_bytes(&of.base),
    }
}

/// The same of a member; one of no known type counts as nothing.
fn member_bytes(member: &Member) -> u32
    ensures bytes { result ≡ scalar_bytes (member_of member.now).type }
    ensures most { result ≤ 12 }
{
    match &member.of {
        Some(of) => type_bytes(of),
        None => 0,
    }
}

/// The bytes of the largest member.
fn largest_member(members: &[Member]) -> u32
    ensures bytes { result ≡ largest (extent_by no_extent no_extent) 0 (part_shapes (members_of members.now)) }
    ensures most { result ≤ 12 }
{
    let mut most = 0;
    'each: for member in members {
        most = most.max(member_bytes(member));
    }
    most
}

/// The bytes of a union.
fn union_extent(members: &[Member]) -> Option<Extent>
    ensures { measured result ≡ Some (union_bytes (members_of members.now)) }
{
    Extent::limited((largest_member(members) + 7) / 4 * 4, Alignment::Word)
}

impl<'p> Tables<'p> {
    /// The bytes of a struct by its tag; there are none of what isn't declared as one.
    fn bytes_of_struct(&self, tag: &[u8]) -> Option<Extent>
        ensures { measured result ≡ struct_if stored (found self.now.tags.entries tag.now) }
    {
        match self.known(tag) {
            Some(known) => {
                if known.tag.is_union {
                    Some(Extent::none())
                } else {
                    known.extent
                }
            }
            None => Some(Extent::none()),
        }
    }

    /// The bytes of a union by its tag; what isn't declared as one has those of its number alone.
    fn bytes_of_union(&self, tag: &[u8]) -> Option<Extent>
        ensures { measured result ≡ union_if stored (found self.now.tags.entries tag.now) }
    {
        match self.known(tag) {
            Some(known) => {
                if known.tag.is_union {
                    known.extent
                } else {
                    Some(Extent::word())
                }
            }
            None => Some(Extent::word()),
        }
    }

    /// The bytes of what is no pointer. None: too many.
    fn base_extent(&self, base: &BaseType) -> Option<Extent>
        ensures { measured result ≡ quick_measure self.now.tags.entries (base_type base.now) }
    {
        match base {
            BaseType::Char => Some(Extent::char()),
            BaseType::Void => Some(Extent::none()),
            BaseType::Struct(tag, _) => self.bytes_of_struct(*tag),
            BaseType::Union(tag, _) => self.bytes_of_union(*tag),
            _ => Some(Extent::word()),
        }
    }

    /// The bytes of a type. None: too many.
    fn measure(&self, of: &CType) -> Option<Extent>
        ensures { measured result ≡ quick_measure self.now.tags.entries (static_type of.now) }
    {
        match of.outer() {
            Some(pointer) => Some(pointer.extent()),
            None => self.base_extent(&of.base),
        }
    }

    /// The bytes of a member; one of no known type has none.
    pub(crate) fn member_extent(&self, member: &Member) -> Option<Extent>
        ensures { measured result ≡ part_extent (quick_measure self.now.tags.entries) (member_of member.now).type }
    {
        match &member.of {
            Some(of) => self.measure(of),
            None => Some(Extent::none()),
        }
    }

    /// The bytes of a struct. None: too many.
    fn struct_extent(&self, members: &[Member]) -> Option<Extent>
        ensures { measured result ≡ struct_measure self.now.tags.entries (members_of members.now) }
    {
        let mut so_far = Extent::none();
        'each: for member in members {
            so_far = so_far.then(self.member_extent(member)?)?;
        }
        so_far.padded()
    }

    /// Whether a struct of these members has no more bytes than a type may have.
    pub fn struct_fits(&self, members: &[Member]) -> bool
        ensures { (s : Structure) → result ≡ fits_bytes (struct_bytes (tables_of self.now) s (members_of members.now)) }
    {
        self.struct_extent(members).is_some()
    }

    /// The bytes of a struct or union whose members are declared. None: too many.
    pub(crate) fn tag_extent(&self, tag: &Tag) -> Option<Extent>
        ensures { measured result ≡ quick_tag self.now.tags.entries tag.now }
    {
        if tag.is_union {
            union_extent(&tag.members)
        } else {
            self.struct_extent(&tag.members)
        }
    }

    /// The bytes of a type, at most 4,096, where each struct's members lie in order, each at its alignment. None: the type has more.
    pub fn extent(&self, of: &CType) -> Option<Extent>
        ensures { measured result ≡ limited (extent_in (tables_of self.now) (static_type of.now)) }
    {
        self.measure(of)
    }
}
