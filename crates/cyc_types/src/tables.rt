// The structs and unions of a program.

ghost use Rattle.std.specs.Prelude.{◌≡◌, ℕ, true, [], List, option_map};
ghost use Rattle.cyc_types.specs.InOrder.{are_known};

use crate::base::BaseType;
use crate::ctype::CType;
use crate::fault::TableFault;
use crate::layer::Layer;
use crate::tag::{Known, Member, Tag};
use indexmap::IndexMap;
use std::alloc::Global;

/// The structs and unions of a program, in the order of their declarations.
#[derive(Drop)]
pub struct Tables<'p> {
    tags: IndexMap<&'p [u8], Known<'p>>,
    ghost known: { are_known [] tags.entries ≡ true },
}

impl<'p> Tables<'p> {
    ghost use Rattle.std.specs.Prelude.{IsErrOf, IsOkUnless, IsSome, OnOk, OnErr, ◌++◌, ◌∷◌, None, false, is_some, option_copied};
    ghost use Rattle.std.specs.List.{list_all};
    ghost use Rattle.source_typing.specs.Tables.{each_part, if_known, is_copyable, has_beginning, part_in, parts_in, tag_in};
    ghost use Rattle.cyc_types.specs.Known.{found, has_declared, is_declared, quick_copies, quick_begins, known_tag};
    ghost use Rattle.cyc_types.specs.Tags.{member_of, members_of, named_tag, tag_of};
    ghost use Rattle.cyc_types.specs.Tables.{tables_of};
    ghost use Rattle.cyc_types.specs.Types.{static_type};
    ghost use Rattle.cyc_types.specs.Bases.{base_type};

    /// No struct and no union.
    pub fn new(alloc: Global) -> Self
        ensures { tables_of result ≡ [] }
    {
        Tables {
            tags: IndexMap::new(alloc),
        }
    }

    /// The struct or union of a name.
    pub fn tag(&self, name: &[u8]) -> Option<&Tag<'p>>
        ensures { known_tag name.now result ≡ tag_in (tables_of self.now) name.now }
    {
        match self.tags.get(name) {
            Some(known) => Some(&known.tag),
            None => None,
        }
    }

    /// The struct or union of a name, with the name as it was declared.
    pub fn named(&self, name: &[u8]) -> Option<(&'p [u8], &Tag<'p>)>
        ensures { option_map (λ p. tag_of p.0.now p.1.now) result ≡ tag_in (tables_of self.now) name.now }
    {
        match self.tags.get_key_value(name) {
            Some((declared, known)) => Some((*declared, &known.tag)),
            None => None,
        }
    }

    /// The member of a name of the struct or union of another name, where there are both: of members of one name, the first.
    pub fn member(&self, tag: &[u8], name: &[u8]) -> Option<&Member<'p>>
        ensures { option_map (λ m. member_of m.now) result ≡ part_in (parts_in (tables_of self.now) tag.now) name.now }
    {
        match self.known(tag) {
            Some(known) => known.member(name),
            None => None,
        }
    }

    /// What is known of a struct or union of a name.
    pub(crate) fn known(&self, name: &[u8]) -> Option<&Known<'p>>
        ensures { option_copied result ≡ found self.now.tags.entries name.now }
    {
        self.tags.get(name)
    }

    /// Whether what is no pointer is copied.
    fn base_is_copyable(&self, base: &BaseType) -> bool
        ensures { result ≡ quick_copies self.now.tags.entries (base_type base.now) }
    {
        match base {
            BaseType::Key(_) => false,
            BaseType::Struct(tag, _) => match self.known(*tag) {
                Some(known) => known.copyable,
                None => true,
            },
            _ => true,
        }
    }

    /// Whether a value is copied: no unique pointer, no key, and no struct with a member that isn't.
    fn copies(&self, of: &CType) -> bool
        ensures { result ≡ quick_copies self.now.tags.entries (static_type of.now) }
    {
        match of.outer() {
            Some(pointer) => pointer.is_copyable(),
            None => self.base_is_copyable(&of.base),
        }
    }

    /// Whether what is no pointer has a beginning.
    fn base_begins(&self, base: &BaseType) -> bool
        ensures { result ≡ quick_begins self.now.tags.entries (base_type base.now) }
    {
        match base {
            BaseType::Int | BaseType::Unsigned | BaseType::Char => true,
            BaseType::Struct(tag, _) => match self.known(*tag) {
                Some(known) => known.begins,
                None => true,
            },
            _ => false,
        }
    }

    /// Whether a variable without initializer has a beginning.
    fn begins(&self, of: &CType) -> bool
        ensures { result ≡ quick_begins self.now.tags.entries (static_type of.now) }
    {
        match of.outer() {
            Some(pointer) => pointer.has_beginning(),
            None => self.base_begins(&of.base),
        }
    }

    /// Whether what is no pointer is declared.
    fn has_base(&self, base: &BaseType) -> bool
        ensures { result ≡ is_declared self.now.tags.entries (base_type base.now) }
    {
        match base {
            BaseType::Struct(tag, _) | BaseType::Union(tag, _) => self.known(*tag).is_some(),
            _ => true,
        }
    }

    /// Whether the struct or union is declared that a type is, where it is one.
    fn has(&self, of: &CType) -> bool
        ensures { result ≡ is_declared self.now.tags.entries (static_type of.now) }
    {
        match of.outer() {
            Some(_) => true,
            None => self.has_base(&of.base),
        }
    }

    /// Whether the struct or union is declared that a type is, where it is one.
    #[tactic(auto, using(crate::proofs::InOrder::declared_same))]
    pub fn declares(&self, of: &CType) -> bool
        ensures { result ≡ has_declared (tables_of self.now) (static_type of.now) }
    {
        self.has(of)
    }

    /// Whether a member is copied; one of no known type is.
    fn member_copies(&self, member: &Member) -> bool
        ensures { result ≡ if_known (quick_copies self.now.tags.entries) (member_of member.now).type }
    {
        match &member.of {
            Some(of) => self.copies(of),
            None => true,
        }
    }

    /// Whether a member has a beginning; one of no known type has.
    fn member_begins(&self, member: &Member) -> bool
        ensures { result ≡ if_known (quick_begins self.now.tags.entries) (member_of member.now).type }
    {
        match &member.of {
            Some(of) => self.begins(of),
            None => true,
        }
    }

    /// Whether all members are copied.
    fn all_copied(&self, members: &[Member]) -> bool
        ensures { result ≡ list_all (λ m. if_known (quick_copies self.now.tags.entries) (member_of m).type) members.now }
    {
        members.iter().all(|member| self.member_copies(member))
    }

    /// Whether all members have a beginning.
    fn all_begin(&self, members: &[Member]) -> bool
        ensures { result ≡ list_all (λ m. if_known (quick_begins self.now.tags.entries) (member_of m).type) members.now }
    {
        members.iter().all(|member| self.member_begins(member))
    }

    /// Whether what a member is is declared, where it is known and a struct or union.
    fn has_member(&self, member: &Member) -> bool
        ensures { result ≡ if_known (is_declared self.now.tags.entries) (member_of member.now).type }
    {
        match &member.of {
            Some(of) => self.has(of),
            None => true,
        }
    }

    /// Whether the structs and unions are declared that members are.
    fn has_members(&self, members: &[Member]) -> bool
        ensures { result ≡ list_all (λ m. if_known (is_declared self.now.tags.entries) (member_of m).type) members.now }
    {
        members.iter().all(|member| self.has_member(member))
    }

    /// Whether the structs and unions are declared that members are.
    fn declares_members(&self, members: &[Member]) -> bool
        ensures { result ≡ each_part (has_declared (tables_of self.now)) (members_of members.now) }
    {
        self.has_members(members)
    }

    /// Whether a struct or union of a name is declared.
    #[tactic(auto, using(crate::proofs::InOrder::some_found))]
    fn has_tag(&self, name: &[u8]) -> bool
        ensures { result ≡ is_some (tag_in (tables_of self.now) name.now) }
    {
        self.known(name).is_some()
    }

    /// Declares a struct or union with a new name and declared members. Fails only where no host memory is left.
    fn add_known(&mut self, name: &'p [u8], tag: Tag<'p>) -> Result<(), TableFault>
        // its name is new
        requires new { tag_in (tables_of self.old) name.now ≡ None }
        // the structs and unions that its members are were declared before it
        requires declared { each_part (has_declared (tables_of self.old)) (members_of tag.members.items) ≡ true }
        ensures added { OnOk result (tables_of self.new ≡ tables_of self.old ++ named_tag name.entry.now tag.entry ∷ []) }
        ensures memory { IsOkUnless result TableFault.Memory }
        ensures kept { OnErr result (tables_of self.new ≡ tables_of self.old) }
    {
        let copyable = self.all_copied(&tag.members);
        let begins = self.all_begin(&tag.members);
        let extent = self.tag_extent(&tag);
        let alloc = *self.tags.allocator();
        let known = Known::of(alloc, tag, copyable, begins, extent)?;
        self.tags.insert(name, known)?;
        Ok(())
    }

    /// Declares a struct or union. A name can be declared once, and after the structs and unions that its members are. After a
    /// fault the tables are as they were.
    pub fn add(&mut self, name: &'p [u8], tag: Tag<'p>) -> Result<(), TableFault>
        ensures added { OnOk result (tables_of self.new ≡ tables_of self.old ++ named_tag name.entry.now tag.entry ∷ []) }
        // its name isn't new
        ensures again { IsSome (tag_in (tables_of self.old) name.now) → IsErrOf result TableFault.Again }
        // its name is new, and a member is of a struct or union that isn't declared
        ensures undeclared { tag_in (tables_of self.old) name.now ≡ None
            → each_part (has_declared (tables_of self.old)) (members_of tag.entry.members.items) ≡ false
            → IsErrOf result TableFault.Undeclared }
        // its name is new, and all its members are declared
        ensures memory { tag_in (tables_of self.old) name.now ≡ None
            → each_part (has_declared (tables_of self.old)) (members_of tag.entry.members.items) ≡ true
            → IsOkUnless result TableFault.Memory }
        ensures kept { OnErr result (tables_of self.new ≡ tables_of self.old) }
    {
        if self.has_tag(name) {
            return Err(TableFault::Again);
        }
        if !self.declares_members(&tag.members) {
            return Err(TableFault::Undeclared);
        }
        self.add_known(name, tag)
    }

    /// Whether a value of a type is copied: it is no unique pointer and no key, and no struct that holds one.
    #[tactic(auto, using(crate::proofs::InOrder::copies_known))]
    pub(crate) fn copies_value(&self, of: &CType) -> bool
        ensures { result ≡ is_copyable (tables_of self.now) (static_type of.now) }
    {
        self.copies(of)
    }

    /// Whether a variable of a type without initializer has a beginning: 0, `NULL`, or a struct of such.
    #[tactic(auto, using(crate::proofs::InOrder::begins_known))]
    pub fn has_beginning(&self, of: &CType) -> bool
        ensures { result ≡ has_beginning (tables_of self.now) (static_type of.now) }
    {
        self.begins(of)
    }
}
