// What names mean where the tag of a struct or union is wanted.

ghost use Rattle.std.specs.Prelude.{◌≡◌, ◌&&◌, ◌||◌, IfOk, List, OnErr, bytes_eq, false, if◌then◌else◌, not, ℕ};
ghost use Rattle.cyc_tree.specs.View.{type_tree};
ghost use Rattle.source_typing.specs.Tables.{Tables};
ghost use Rattle.check_types.specs.Naming.{AreTagNames, has_tag_name, tag_named};
ghost use Rattle.check_types.specs.Tagged.{TagIs};
ghost use Rattle.check_types.specs.declared.tagged.TagName.TheVariants.{NoName};

use crate::tagged::{TagName, type_tag};
use cyc_tree::TypeName;
use indexmap::IndexMap;
use std::alloc::{AllocError, Global};

/// What the names of a program mean where the tag of a struct or union is wanted.
pub struct TagNames<'p> {
    entries: IndexMap<&'p [u8], TagName>,
}

// Written out, so that a caller's proof sees one call and not the drop of each field.
impl Drop for TagNames<'_> {
    fn drop(self) {
        let TagNames { entries: _entries } = self;
    }
}

impl<'p> TagNames<'p> {
    /// No name means anything.
    pub fn new(alloc: Global) -> Self
        ensures named { (x : List ℕ) → tag_named result x ≡ NoName }
        ensures known { (x : List ℕ) → has_tag_name result x ≡ false }
    {
        TagNames {
            entries: IndexMap::new(alloc),
        }
    }

    /// Adds a name that isn't there, and tells whether it was added: one that is there stays what it is. Fails only where no
    /// host memory is left, and then each name is what it was.
    pub fn add(&mut self, name: &'p [u8], tag: TagName) -> Result<bool, AllocError>
        ensures is_new { IfOk result (λ is_new. is_new ≡ not (has_tag_name self.old name.entry.now)) }
        ensures names { IfOk result (λ is_new. (x : List ℕ)
            → tag_named self.new x ≡ (if is_new && bytes_eq name.entry.now x then tag else tag_named self.old x)) }
        ensures known { IfOk result (λ is_new. (x : List ℕ)
            → has_tag_name self.new x ≡ (bytes_eq name.entry.now x || has_tag_name self.old x)) }
        ensures kept { OnErr result ((x : List ℕ) → tag_named self.new x ≡ tag_named self.old x) }
    {
        if self.entries.contains_key(name) {
            return Ok(false);
        }
        self.entries.insert(name, tag)?;
        Ok(true)
    }

    /// What a name means.
    pub fn of(&self, name: &[u8]) -> TagName
        ensures { result ≡ tag_named self.now name.now }
    {
        match self.entries.get(name) {
            Some(tag) => *tag,
            None => TagName::NoName,
        }
    }
}

/// What the tag means that a type of structs or unions has.
pub fn tag_of_type(names: &TagNames<'_>, of: &TypeName) -> TagName
    ensures { (g : Tables) → AreTagNames names.now g → TagIs g (type_tree of.now) result }
{
    match type_tag(of) {
        Some(name) => names.of(&name.text),
        None => TagName::NoName,
    }
}
