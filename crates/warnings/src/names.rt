// The names of a program, and what became of each.

use cyc_tree::{Name, TypeName};
use indexmap::IndexMap;
use std::alloc::{AllocError, Global};

/// What a name is of.
#[derive(Clone, Copy)]
pub(crate) enum Sort {
    /// A local, a parameter or a global.
    Variable,
    Function,
    /// A name that the grammar asks for: nothing is said where it isn't used.
    Required,
}

/// A name that is declared, and what became of it.
#[derive(Clone, Copy)]
pub(crate) struct Named<'p> {
    pub name: &'p Name,
    pub sort: Sort,
    /// Its type, or that of its elements.
    pub of: Option<&'p TypeName>,
    /// How many elements it has, where it is an array.
    pub count: Option<u32>,
    /// Whether it begins with a block that it alone owns.
    pub owns: bool,
    pub is_used: bool,
    /// Whether its value is given away, or its block freed.
    pub is_taken: bool,
    /// The branch in which it was given a block of its own that it still has where the walk has come to.
    pub held: Option<u32>,
    /// The one of the same name that it hides, by its number.
    pub hidden: Option<usize>,
}

impl<'p> Named<'p> {
    /// A name that nothing has used so far.
    pub(crate) fn new(name: &'p Name, sort: Sort, of: Option<&'p TypeName>) -> Named<'p> {
        Named {
            name,
            sort,
            of,
            count: None,
            owns: false,
            is_used: false,
            is_taken: false,
            held: None,
            hidden: None,
        }
    }
}

/// All names that were declared so far, in their order, and which of them are visible.
pub(crate) struct Names<'p> {
    pub all: Vec<Named<'p>>,
    /// The visible one of each name; none: its scope was left.
    visible: IndexMap<&'p [u8], Option<usize>>,
    /// The members that were named.
    members: IndexMap<&'p [u8], ()>,
    /// Those of the blocks around, by their numbers.
    locals: Vec<usize>,
    /// The innermost branch around, and how many there were: of two the inner one has the greater number.
    branch: u32,
    branches: u32,
}

// Written out, so that a caller's proof sees one call and not the drop of each field.
impl Drop for Names<'_> {
    fn drop(self) {
        let Names {
            all: _all,
            visible: _visible,
            members: _members,
            locals: _locals,
            branch: _,
            branches: _,
        } = self;
    }
}

impl<'p> Names<'p> {
    /// No names.
    pub(crate) fn new(alloc: Global) -> Names<'p> {
        Names {
            all: Vec::new(alloc),
            visible: IndexMap::new(alloc),
            members: IndexMap::new(alloc),
            locals: Vec::new(alloc),
            branch: 0,
            branches: 0,
        }
    }

    /// The number of the visible one of a name.
    fn number_of(&self, name: &[u8]) -> Option<usize> {
        match self.visible.get(name) {
            Some(number) => *number,
            None => None,
        }
    }

    /// The visible one of a name.
    pub(crate) fn find(&self, name: &[u8]) -> Option<Named<'p>> {
        self.all.get(self.number_of(name)?).copied()
    }

    /// How many locals the blocks around have.
    pub(crate) fn depth(&self) -> usize {
        self.locals.len()
    }

    /// Declares a name of the program. Fails only where no host memory is left, as all of these.
    pub(crate) fn add(&mut self, named: Named<'p>) -> Result<usize, AllocError> {
        let name = named.name.text.as_slice();
        let number = self.all.len();
        let hidden = self.number_of(name);
        self.all.push(Named { hidden, ..named })?;
        self.visible.insert(name, Some(number))?;
        Ok(number)
    }

    /// Declares a local, which has a block of its own from the beginning where it owns one.
    pub(crate) fn add_local(&mut self, named: Named<'p>) -> Result<(), AllocError> {
        let held = if named.owns { Some(self.branch) } else { None };
        let number = self.add(Named { held, ..named })?;
        self.locals.push(number)?;
        Ok(())
    }

    /// Makes visible again what a local hides.
    fn hide(&mut self, number: usize) {
        let Some(named) = self.all.get(number).copied() else {
            return;
        };
        if let Some(visible) = self.visible.get_mut(named.name.text.as_slice()) {
            *visible = named.hidden;
        }
    }

    /// Leaves a block: the first locals stay, as many as are given.
    pub(crate) fn leave(&mut self, depth: usize) {
        for _ in depth..self.locals.len() {
            if let Some(number) = self.locals.pop() {
                self.hide(number);
            }
        }
    }

    /// Notes that a name is used, and whether its value is given away.
    pub(crate) fn mention(&mut self, name: &[u8], takes: bool) {
        let Some(number) = self.number_of(name) else {
            return;
        };
        if let Some(named) = self.all.get_mut(number) {
            named.is_used = true;
            if takes {
                named.is_taken = true;
                named.held = None;
            }
        }
    }

    /// Whether a number is that of a visible local.
    fn is_local(&self, number: usize) -> bool {
        for local in self.locals.iter() {
            if *local == number {
                return true;
            }
        }
        false
    }

    /// Notes that a name is given a value, which is a block of its own or not, and answers whether it is a local that still has one.
    pub(crate) fn assign(&mut self, name: &[u8], owns: bool) -> bool {
        self.mention(name, false);
        let Some(number) = self.number_of(name) else {
            return false;
        };
        if !self.is_local(number) {
            return false;
        }
        let branch = self.branch;
        match self.all.get_mut(number) {
            Some(named) => {
                let was_held = named.held.is_some();
                named.held = if owns { Some(branch) } else { None };
                named.owns = named.owns || owns;
                named.is_taken = named.is_taken || (was_held && !owns);
                was_held
            }
            None => false,
        }
    }

    /// Enters a branch, which is run or isn't, and answers the one around.
    pub(crate) fn enter_branch(&mut self) -> u32 {
        let outer = self.branch;
        self.branches = self.branches.saturating_add(1);
        self.branch = self.branches;
        outer
    }

    /// Whether a local was given its block in a branch within another one.
    fn is_held_within(&self, number: usize, outer: u32) -> bool {
        match self.all.get(number) {
            Some(named) => match named.held {
                Some(branch) => outer < branch,
                None => false,
            },
            None => false,
        }
    }

    /// Leaves a branch: whether locals have the blocks that they were given there isn't known.
    pub(crate) fn leave_branch(&mut self, outer: u32) {
        for index in 0..self.locals.len() {
            let number = self.locals.get(index).copied().unwrap_or(0);
            if self.is_held_within(number, outer) {
                if let Some(named) = self.all.get_mut(number) {
                    named.held = None;
                }
            }
        }
        self.branch = outer;
    }

    /// Notes that a member is named.
    pub(crate) fn mention_member(&mut self, name: &'p [u8]) -> Result<(), AllocError> {
        self.members.insert(name, ())?;
        Ok(())
    }

    /// Whether a member is named anywhere.
    pub(crate) fn has_member(&self, name: &[u8]) -> bool {
        self.members.get(name).is_some()
    }
}
