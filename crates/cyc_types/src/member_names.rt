// Where the members of a struct or union stand, by their names.

ghost use Rattle.std.specs.Prelude.{◌≡◌, IfOk, List, None, OnOk, Some, bytes_eq, if◌then◌else◌, ℕ};
ghost use Rattle.source_meaning.specs.Places.{or_else};
ghost use Rattle.cyc_types.specs.MemberNames.{AreNamed, position_named};

use crate::tag::Member;
use indexmap::IndexMap;
use std::alloc::{AllocError, Global};

/// The positions of members by their names: of those of one name, that of the first.
pub struct MemberNames<'p> {
    by_name: IndexMap<&'p [u8], usize>,
}

// Written out, so that a caller's proof sees one call and not the drop of each field.
impl Drop for MemberNames<'_> {
    fn drop(self) {
        let MemberNames { by_name: _by_name } = self;
    }
}

impl<'p> MemberNames<'p> {
    /// No members.
    fn new(alloc: Global) -> Self
        ensures { (x : List ℕ) → position_named result x ≡ None }
    {
        MemberNames {
            by_name: IndexMap::new(alloc),
        }
    }

    /// The position of the member of a name.
    pub(crate) fn of(&self, name: &[u8]) -> Option<usize>
        ensures { result ≡ position_named self.now name.now }
    {
        match self.by_name.get(name) {
            Some(position) => Some(*position),
            None => None,
        }
    }

    /// Adds the name of a member at a position, unless there is one of its name.
    fn add(&mut self, name: &'p [u8], position: usize) -> Result<(), AllocError>
        ensures { OnOk result ((x : List ℕ)
            → position_named self.new x ≡ or_else (position_named self.old x) (if bytes_eq name.entry.now x then Some position else None)) }
    {
        if !self.by_name.contains_key(name) {
            self.by_name.insert(name, position)?;
        }
        Ok(())
    }
}

/// The positions of these members by their names. Fails only where no host memory is left.
pub(crate) fn positions<'p>(
    alloc: Global,
    members: &[Member<'p>],
) -> Result<MemberNames<'p>, AllocError>
    ensures { IfOk result (λ names. AreNamed names members.now) }
{
    let mut names = MemberNames::new(alloc);
    let mut position = 0;
    'each: for member in members {
        names.add(member.name, position)?;
        position += 1;
    }
    Ok(names)
}
