// The last of each name.

ghost use Rattle.std.specs.Prelude.{◌≡◌, ℕ, List, Some, None, if◌then◌else◌, IsSome, OnOk, OnErr};
ghost use Rattle.std.specs.Str.{bytes_eq};
ghost use Rattle.lower_checks.specs.Marks.{last_in};

use indexmap::IndexMap;
use std::alloc::{AllocError, Global};

/// The last of each name.
#[derive(Drop)]
pub(crate) struct Lasts<'p, V> {
    /// A name whose last one was left has none.
    by_name: IndexMap<&'p [u8], Option<V>>,
}

impl<'p, V: Copy> Lasts<'p, V> {
    /// No name has one.
    pub(crate) fn new(alloc: Global) -> Self
        ensures { (name : List ℕ) → last_in result name ≡ None }
    {
        Lasts {
            by_name: IndexMap::new(alloc),
        }
    }

    /// The last of the name.
    pub(crate) fn of(&self, name: &[u8]) -> Option<V>
        ensures { result ≡ last_in self.now name.now }
    {
        match self.by_name.get(name) {
            Some(last) => *last,
            None => None,
        }
    }

    /// Makes a new one the last of a name. Fails only where no host memory is left, and then it isn't.
    pub(crate) fn add(&mut self, name: &'p [u8], value: V) -> Result<(), AllocError>
        ensures added { OnOk result ((other : List ℕ) → last_in self.new other ≡ (if bytes_eq name.now other then Some value else last_in self.old other)) }
        ensures kept { OnErr result ((other : List ℕ) → last_in self.new other ≡ last_in self.old other) }
    {
        self.by_name.insert(name, Some(value))?;
        Ok(())
    }

    /// Makes another one, or none, the last of a name that has one.
    pub(crate) fn set(&mut self, name: &[u8], value: Option<V>)
        requires { IsSome (last_in self.old name.now) }
        ensures { (other : List ℕ) → last_in self.new other ≡ (if bytes_eq name.now other then value else last_in self.old other) }
    {
        if let Some(last) = self.by_name.get_mut(name) {
            *last = value;
        }
    }
}
