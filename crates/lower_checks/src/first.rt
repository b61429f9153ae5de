// The first of each name.

ghost use Rattle.std.specs.Prelude.{◌≡◌, ℕ, List, Some, None, if◌then◌else◌, OnOk};
ghost use Rattle.std.specs.Str.{bytes_eq};
ghost use Rattle.source_meaning.specs.Places.{or_else};
ghost use Rattle.lower_checks.specs.Firsts.{first_in};

use indexmap::IndexMap;
use std::alloc::{AllocError, Global};

/// The first of each name.
pub struct Firsts<'p, V> {
    by_name: IndexMap<&'p [u8], V>,
}

// Written out, so that a caller's proof sees one call and not the drop of each field.
impl<V: Drop> Drop for Firsts<'_, V> {
    fn drop(self) {
        let Firsts { by_name: _by_name } = self;
    }
}

impl<'p, V: Copy> Firsts<'p, V> {
    /// No name has one.
    pub fn new(alloc: Global) -> Self
        ensures { (name : List ℕ) → first_in result name ≡ None }
    {
        Firsts {
            by_name: IndexMap::new(alloc),
        }
    }

    /// The first of the name.
    pub fn of(&self, name: &[u8]) -> Option<V>
        ensures { result ≡ first_in self.now name.now }
    {
        match self.by_name.get(name) {
            Some(first) => Some(*first),
            None => None,
        }
    }

    /// Adds one of the name, which is the first where the name has none. Fails only where no host memory is left.
    pub fn add(&mut self, name: &'p [u8], value: V) -> Result<(), AllocError>
        ensures { OnOk result ((other : List ℕ) → first_in self.new other ≡ or_else (first_in self.old other) (if bytes_eq name.now other then Some value else None)) }
    {
        if !self.by_name.contains_key(name) {
            self.by_name.insert(name, value)?;
        }
        Ok(())
    }
}
