// How often members stand in the clauses of a `switch`.

ghost use Rattle.std.specs.Prelude.{◌≡◌, ◌+◌, List, OnOk, bytes_eq, ℕ};
ghost use Rattle.source_typing.specs.Statements.{one_if};
ghost use Rattle.check_statements.specs.Switching.{times_of};

use indexmap::IndexMap;
use std::alloc::{AllocError, Global};

/// How often each name stands in clauses.
pub(crate) struct NameTimes<'c> {
    by_name: IndexMap<&'c [u8], usize>,
}

// Written out, so that a caller's proof sees one call and not the drop of each field.
impl Drop for NameTimes<'_> {
    fn drop(self) {
        let NameTimes { by_name: _by_name } = self;
    }
}

impl<'c> NameTimes<'c> {
    /// No name does.
    pub(crate) fn new(alloc: Global) -> Self
        ensures { (x : List ℕ) → times_of result x ≡ 0 }
    {
        NameTimes {
            by_name: IndexMap::new(alloc),
        }
    }

    /// How often a name does.
    pub(crate) fn of(&self, name: &[u8]) -> usize
        ensures { result ≡ times_of self.now name.now }
    {
        match self.by_name.get(name) {
            Some(times) => *times,
            None => 0,
        }
    }

    /// Counts a name once more. If the number is over a usize, memory has run out: no text has as many names as that.
    pub(crate) fn add(&mut self, name: &'c [u8]) -> Result<(), AllocError>
        ensures { OnOk result ((x : List ℕ) → times_of self.new x ≡ one_if (bytes_eq name.entry.now x) + times_of self.old x) }
    {
        match self.of(name).checked_add(1) {
            Some(times) => {
                self.by_name.insert(name, times)?;
                Ok(())
            }
            None => Err(AllocError),
        }
    }
}
