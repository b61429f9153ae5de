// The locals that are visible at a point.

ghost use Rattle.std.specs.Prelude.{◌≡◌, ◌∷◌, [], OnErr, OnOk, length, option_copied};
ghost use Rattle.check_scopes.specs.Linked.{position_of};
ghost use Rattle.check_scopes.specs.Locals.{dropped_to, find_what, is_after, known};

use crate::last::LastLocals;
use cyc_types::{CType, RegionId};
use std::alloc::{AllocError, Global};
use std::marker::Model;

/// What a local is.
pub enum What<'p> {
    /// A variable of a type, in a region.
    Variable(CType<'p>, RegionId),
    /// An array of elements of a type, in a region.
    Array(CType<'p>, RegionId),
    /// The index of an array comprehension.
    Counter,
    /// A variable whose type isn't known, though its own declaration has no error: a struct or union that it names has one.
    Untyped,
    /// A local whose declaration has an error.
    NotKnown,
}

// Written out, so that a caller's proof sees one call and not the drop of each field.
impl Drop for What<'_> {
    fn drop(self) {
        match self {
            What::Variable(_of, _) | What::Array(_of, _) => {}
            What::Counter | What::Untyped | What::NotKnown => {}
        }
    }
}

/// A local by its name, and the position of the one of that name that it hides.
#[derive(Drop)]
struct Local<'p> {
    name: &'p [u8],
    what: What<'p>,
    hidden: Option<usize>,
}

/// The locals that are visible at a point, in the order of their declarations. A contract sees them as a list of what each name is, the
/// latest first.
pub struct Locals<'p> {
    all: Vec<Local<'p>>,
    last: LastLocals<'p>,
}

// Written out, so that a caller's proof sees one call and not the drop of each field.
impl Drop for Locals<'_> {
    fn drop(self) {
        let Locals {
            all: _all,
            last: _last,
        } = self;
    }
}

impl<'p> Model for Locals<'p> {
    ghost use Rattle.std.specs.Prelude.{List};
    ghost use Rattle.check_scopes.specs.Linked.{position_of};
    ghost use Rattle.check_scopes.specs.Locals.{Known};
    ghost use Rattle.check_scopes.specs.Linked.{AreLinked, known_of};

    ghost Value = { List Known };

    ghost view = { λ s. known_of s.all.items };

    ghost invariant = { λ s. AreLinked s.all.items s.last };
}

impl<'p> Locals<'p> {
    /// No locals.
    pub fn new(alloc: Global) -> Self
        ensures { result ≡ [] }
    {
        Locals {
            all: Vec::new(alloc),
            last: LastLocals::new(alloc),
        }
    }

    /// The number of locals.
    pub fn len(&self) -> usize
        ensures { result ≡ length self.now }
    {
        self.all.len()
    }

    /// Declares a local. If it fails, none is added.
    pub fn declare(&mut self, name: &'p [u8], what: What<'p>) -> Result<(), AllocError>
        ensures declared { OnOk result (self.new ≡ known name.entry.now what.entry ∷ self.old) }
        ensures kept { OnErr result (self.new ≡ self.old) }
    {
        let position = self.all.len();
        let hidden = self.last.of(name);
        self.all.push(Local { name, what, hidden })?;
        match self.last.add(name, position) {
            Ok(()) => Ok(()),
            Err(refused) => {
                self.all.pop();
                Err(refused)
            }
        }
    }

    /// Leaves a block: the first `count` locals stay.
    pub fn leave(&mut self, count: usize)
        ensures { self.new ≡ dropped_to count self.old }
    {
        'each: while count < self.all.len() {
            if let Some(local) = self.all.pop() {
                self.last.set(local.name, local.hidden);
            }
        }
    }

    /// What the latest local of a name is, if there is one.
    pub fn find(&self, name: &[u8]) -> Option<&What<'p>>
        ensures { option_copied result ≡ find_what self.now name.now }
    {
        match self.last.of(name) {
            Some(position) => match self.all.get(position) {
                Some(local) => Some(&local.what),
                None => None,
            },
            None => None,
        }
    }

    /// The position of the latest local of a name, if there is one.
    pub fn position(&self, name: &[u8]) -> Option<usize>
        ensures { result ≡ position_of self.now name.now }
    {
        self.last.of(name)
    }

    /// Whether there is a local of a name after the first `outer` ones.
    pub fn is_second(&self, outer: usize, name: &[u8]) -> bool
        ensures { result ≡ is_after self.now outer name.now }
    {
        match self.last.of(name) {
            Some(position) => outer <= position,
            None => false,
        }
    }
}
