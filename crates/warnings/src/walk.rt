// The walk over a program: the names that are visible, and what was found.

use crate::names::{Named, Names};
use crate::warning::{Warning, WarningKind};
use std::alloc::{AllocError, Global};

/// What is known where the walk has come to. Whether memory was wanting on the way is known at the end.
pub(crate) struct Walk<'p> {
    pub names: Names<'p>,
    pub found: Vec<Warning<'p>>,
    /// Whether a `break` leaves the innermost loop or `switch`.
    pub has_break: bool,
    pub failed: bool,
}

// Written out, so that a caller's proof sees one call and not the drop of each field.
impl Drop for Walk<'_> {
    fn drop(self) {
        let Walk {
            names: _names,
            found: _found,
            has_break: _,
            failed: _,
        } = self;
    }
}

impl<'p> Walk<'p> {
    /// Nothing is known.
    pub(crate) fn new(alloc: Global) -> Walk<'p> {
        Walk {
            names: Names::new(alloc),
            found: Vec::new(alloc),
            has_break: false,
            failed: false,
        }
    }

    /// Notes whether memory was wanting.
    fn note(&mut self, done: Result<(), AllocError>) {
        if done.is_err() {
            self.failed = true;
        }
    }

    /// Warns.
    pub(crate) fn warn(&mut self, warning: Warning<'p>) {
        if self.found.push(warning).is_err() {
            self.failed = true;
        }
    }

    /// Warns of what has no name.
    pub(crate) fn warn_at(
        &mut self,
        kind: WarningKind,
        at: u32,
        words: &'static str,
        cure: &'static str,
    ) {
        self.warn(Warning {
            kind,
            at,
            name: b"",
            words,
            cure,
        });
    }

    /// Declares a name of the program.
    pub(crate) fn declare(&mut self, named: Named<'p>) {
        if self.names.add(named).is_err() {
            self.failed = true;
        }
    }

    /// Declares a local.
    pub(crate) fn declare_local(&mut self, named: Named<'p>) {
        let done = self.names.add_local(named);
        self.note(done);
    }

    /// Enters a loop or a `switch`, and says whether a `break` leaves the one around so far.
    pub(crate) fn enter(&mut self) -> bool {
        let outer = self.has_break;
        self.has_break = false;
        outer
    }

    /// Leaves a loop or a `switch`, and says whether a `break` does.
    pub(crate) fn leave(&mut self, outer: bool) -> bool {
        let has_break = self.has_break;
        self.has_break = outer;
        has_break
    }

    /// Notes that a member is named.
    pub(crate) fn mention_member(&mut self, name: &'p [u8]) {
        let done = self.names.mention_member(name);
        self.note(done);
    }
}

impl<'p> Walk<'p> {
    /// The names, and what was found. Fails where memory was wanting on the way.
    pub(crate) fn into_parts(self) -> Result<(Names<'p>, Vec<Warning<'p>>), AllocError> {
        let Walk {
            names,
            found,
            has_break: _,
            failed,
        } = self;
        if failed {
            return Err(AllocError);
        }
        Ok((names, found))
    }
}
