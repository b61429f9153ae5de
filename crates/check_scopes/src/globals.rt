// The functions and globals of a program.

ghost use Rattle.std.specs.Prelude.{◌≡◌, ◌&&◌, IfOk, List, None, OnErr, Some, bytes_eq, if◌then◌else◌, is_some, not, option_copied, ℕ};
ghost use Rattle.check_scopes.specs.Globals.{global_meaning};

use crate::meaning::Meaning;
use indexmap::IndexMap;
use std::alloc::{AllocError, Global};

/// The functions and globals of a program, by their names.
pub struct Globals<'p> {
    entries: IndexMap<&'p [u8], Meaning<'p>>,
}

// Written out, so that a caller's proof sees one call and not the drop of each field.
impl Drop for Globals<'_> {
    fn drop(self) {
        let Globals { entries: _entries } = self;
    }
}

impl<'p> Globals<'p> {
    /// No functions and globals.
    pub fn new(alloc: Global) -> Self
        ensures { (x : List ℕ) → global_meaning result x ≡ None }
    {
        Globals {
            entries: IndexMap::new(alloc),
        }
    }

    /// Adds a name that isn't there, and tells whether it did. A name that is there keeps its meaning. If it fails, each name has the
    /// meaning that it had.
    pub fn add(&mut self, name: &'p [u8], meaning: Meaning<'p>) -> Result<bool, AllocError>
        ensures is_new { IfOk result (λ is_new. is_new ≡ not (is_some (global_meaning self.old name.entry.now))) }
        ensures names { IfOk result (λ is_new. (x : List ℕ)
            → global_meaning self.new x ≡ (if is_new && bytes_eq name.entry.now x then Some meaning.entry else global_meaning self.old x)) }
        ensures kept { OnErr result ((x : List ℕ) → global_meaning self.new x ≡ global_meaning self.old x) }
    {
        if self.entries.contains_key(name) {
            return Ok(false);
        }
        self.entries.insert(name, meaning)?;
        Ok(true)
    }

    /// The meaning of a name.
    pub fn meaning(&self, name: &[u8]) -> Option<&Meaning<'p>>
        ensures { option_copied result ≡ global_meaning self.now name.now }
    {
        self.entries.get(name)
    }
}
