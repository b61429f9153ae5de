// The region names in scope, with the regions that they name.

ghost use Rattle.std.specs.Prelude.{◌≡◌, ◌-◌, IfOk, OnErr, OnOk, [], drop, is_none, is_some, length, option_map};
ghost use Rattle.cyc_tree.specs.Tree.{Name};
ghost use Rattle.cyc_types.specs.Regions.{region_of};
ghost use Rattle.source_typing.specs.Declarations.{name_added};
ghost use Rattle.source_typing.specs.Written.{find_region};

use cyc_types::RegionId;
use indexmap::IndexMap;
use std::alloc::{AllocError, Global};
use std::marker::Model;

/// The region names in scope, with the regions that they name. No two have the same spelling. A contract sees them as the rules list them,
/// the latest first.
pub struct RegionNames<'p> {
    names: IndexMap<&'p [u8], RegionId>,
}

// Written out, so that a caller's proof sees one call and not the drop of each field.
impl Drop for RegionNames<'_> {
    fn drop(self) {
        let RegionNames { names: _names } = self;
    }
}

impl<'p> Model for RegionNames<'p> {
    ghost use Rattle.std.specs.Prelude.{List};
    ghost use Rattle.source_typing.specs.Written.{RegionNamed};
    ghost use Rattle.check_regions.specs.Names.{AreDistinct, names_of};

    ghost Value = { List RegionNamed };

    ghost view = { λ s. names_of s.names.entries };

    ghost invariant = { λ s. AreDistinct s.names.entries };
}

impl<'p> RegionNames<'p> {
    /// No names.
    pub fn new(alloc: Global) -> Self
        ensures { result ≡ [] }
    {
        RegionNames {
            names: IndexMap::new(alloc),
        }
    }

    /// The number of names.
    pub fn len(&self) -> usize
        ensures { result ≡ length self.now }
    {
        self.names.len()
    }

    /// The region of a name, if one of that spelling is in scope.
    pub fn find(&self, name: &[u8]) -> Option<RegionId>
        ensures { option_map region_of result ≡ find_region self.now name.now }
    {
        self.names.get(name).copied()
    }

    /// Adds a name, unless one of that spelling is in scope, and tells whether it did. If it fails, no name is added.
    pub fn add(&mut self, name: &'p [u8], region: RegionId) -> Result<bool, AllocError>
        ensures added { OnOk result ((n : Name) → n.text ≡ name.entry.now
            → self.new ≡ name_added (is_some (find_region self.old n.text)) n (region_of region) self.old) }
        ensures whether { IfOk result (λ b. b ≡ is_none (find_region self.old name.entry.now)) }
        ensures kept { OnErr result (self.new ≡ self.old) }
    {
        if self.find(name).is_some() {
            return Ok(false);
        }
        self.names.insert(name, region)?;
        Ok(true)
    }

    /// Leaves a block: the first `count` names stay.
    pub fn leave(&mut self, count: usize)
        ensures { self.new ≡ drop (length self.old - count) self.old }
    {
        self.names.truncate(count);
    }
}
