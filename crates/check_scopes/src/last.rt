// The last local of each name.

ghost use Rattle.std.specs.Prelude.{◌≡◌, ℕ, List, Some, None, bytes_eq, if◌then◌else◌, IsSome, OnOk, OnErr};
ghost use Rattle.check_scopes.specs.Linked.{last_in};

use indexmap::IndexMap;
use std::alloc::{AllocError, Global};

/// The last local of each name, as its position among the locals.
pub(crate) struct LastLocals<'p> {
    /// None: the scopes of all locals of the name were left.
    by_name: IndexMap<&'p [u8], Option<usize>>,
}

// Written out, so that a caller's proof sees one call and not the drop of each field.
impl Drop for LastLocals<'_> {
    fn drop(self) {
        let LastLocals { by_name: _by_name } = self;
    }
}

impl<'p> LastLocals<'p> {
    /// No name has a local.
    pub(crate) fn new(alloc: Global) -> Self
        ensures { (name : List ℕ) → last_in result name ≡ None }
    {
        LastLocals {
            by_name: IndexMap::new(alloc),
        }
    }

    /// The position of the name's last local.
    pub(crate) fn of(&self, name: &[u8]) -> Option<usize>
        ensures { result ≡ last_in self.now name.now }
    {
        match self.by_name.get(name) {
            Some(position) => *position,
            None => None,
        }
    }

    /// Makes a new local the last one of its name. If it fails, nothing changes.
    pub(crate) fn add(&mut self, name: &'p [u8], position: usize) -> Result<(), AllocError>
        ensures added { OnOk result ((other : List ℕ) → last_in self.new other ≡ (if bytes_eq name.now other then Some position else last_in self.old other)) }
        ensures kept { OnErr result ((other : List ℕ) → last_in self.new other ≡ last_in self.old other) }
    {
        self.by_name.insert(name, Some(position))?;
        Ok(())
    }

    /// Makes another local, or none, the last one of a name that has one.
    pub(crate) fn set(&mut self, name: &[u8], position: Option<usize>)
        requires { IsSome (last_in self.old name.now) }
        ensures { (other : List ℕ) → last_in self.new other ≡ (if bytes_eq name.now other then position else last_in self.old other) }
    {
        if let Some(last) = self.by_name.get_mut(name) {
            *last = position;
        }
    }
}
