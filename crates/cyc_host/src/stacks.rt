// The stacks of calls that a run has had, and how many instructions were executed with each.

use indexmap::IndexMap;
use std::alloc::{AllocError, Global};

/// A stack of calls: the stack around the innermost call, and that call.
#[derive(Clone, Copy)]
pub struct Stack {
    /// The number of the stack around the innermost call; its own of the stack of no calls, which has the number 0.
    pub around: u32,
    /// The address of the innermost call; 0 of the stack of no calls.
    pub at: u32,
    /// How many instructions were executed with just these calls active.
    pub executed: u64,
}

impl Stack {
    /// With this call inside that stack, and no instruction executed.
    fn new(around: u32, at: u32) -> Stack {
        Stack {
            around,
            at,
            executed: 0,
        }
    }

    /// What finds the stack with this call inside that one.
    fn key(around: u32, at: u32) -> u64 {
        (u64::from(around) << 32) | u64::from(at)
    }
}

/// The stacks of calls that a run has had, and the one that it has.
#[derive(Drop)]
pub struct Stacks {
    all: Vec<Stack>,
    numbers: IndexMap<u64, u32>,
    /// The number of the stack of the active calls, without the `lost` innermost ones, for which no host memory was left.
    now: u32,
    lost: u64,
}

impl Stacks {
    /// None, of a run that isn't watched.
    pub fn none(alloc: Global) -> Stacks {
        Stacks {
            all: Vec::new(alloc),
            numbers: IndexMap::new(alloc),
            now: 0,
            lost: 0,
        }
    }

    /// That of no calls.
    pub fn new(alloc: Global) -> Result<Stacks, AllocError> {
        let mut stacks = Stacks::none(alloc);
        stacks.all.push(Stack::new(0, 0))?;
        Ok(stacks)
    }

    /// The stacks, each behind the one around its innermost call.
    pub fn all(&self) -> &[Stack] {
        &self.all
    }

    /// Counts an instruction.
    pub fn count(&mut self) {
        if let Some(stack) = self.all.get_mut(self.now as usize) {
            stack.executed = stack.executed.saturating_add(1);
        }
    }

    /// Adds the stack with this call inside the present one, and returns its number.
    fn add(&mut self, at: u32) -> Result<u32, AllocError> {
        let Ok(number) = u32::try_from(self.all.len()) else {
            return Err(AllocError);
        };
        self.all.push(Stack::new(self.now, at))?;
        self.numbers.insert(Stack::key(self.now, at), number)?;
        Ok(number)
    }

    /// The number of the stack with this call inside the present one.
    fn with(&mut self, at: u32) -> Result<u32, AllocError> {
        match self.numbers.get(&Stack::key(self.now, at)) {
            Some(number) => Ok(*number),
            None => self.add(at),
        }
    }

    /// Enters a call.
    pub fn enter(&mut self, at: u32) {
        if self.lost > 0 {
            self.lost = self.lost.saturating_add(1);
            return;
        }
        match self.with(at) {
            Ok(number) => self.now = number,
            Err(_) => self.lost = 1,
        }
    }

    /// Leaves the innermost active call.
    pub fn leave(&mut self) {
        if self.lost > 0 {
            self.lost -= 1;
        } else if let Some(stack) = self.all.get(self.now as usize) {
            self.now = stack.around;
        }
    }
}
