// The steps of a block or a `switch`, one after another.

ghost use Rattle.std.specs.Prelude.{◌≡◌, ◌++◌, ◌∷◌, [], IfOk, OnOk, true};
ghost use Rattle.flow_summaries.specs.Exits.{Exits as Summary};
ghost use Rattle.flow_effects.specs.Exits.{exits_of};
ghost use Rattle.flow_effects.specs.Steps.{all_before, declared_before, lent_if, step_before};

use crate::exits::Exits;
use crate::passed::{Begun, Passed};
use std::alloc::{AllocError, Global};

/// A local that is lent until the end of the block.
#[derive(Clone, Copy)]
pub struct Loan {
    /// Where the declaration begins.
    pub at: u32,
    /// Where the local's name stands in the declaration.
    pub name_at: u32,
    /// The local's number. None: it is no local, and can't be lent.
    pub number: Option<usize>,
}

/// A declaration.
#[derive(Drop)]
pub struct Declared {
    /// The summary of the initializer.
    pub initial: Option<Passed>,
    pub loan: Option<Loan>,
    /// How many locals there are before it.
    pub around: usize,
    /// The state of the local that it adds, if it adds one.
    pub begun: Option<Begun>,
}

/// A step: it stands before the rest of a block, or before the later clauses of a `switch`.
#[derive(Drop)]
pub enum Step {
    Executed(Exits),
    Declared(Declared),
    /// A clause of a `switch`.
    Way(Exits),
}

/// The summary of the rest of a block, after a loan if there is one.
fn lent(alloc: Global, loan: Option<Loan>, rest: Exits) -> Result<Exits, AllocError>
    ensures { IfOk result (λ w. exits_of w ≡ lent_if loan (exits_of rest)) }
{
    match loan {
        None => Ok(rest),
        Some(loan) => rest.lent(alloc, loan.at, loan.name_at, loan.number),
    }
}

impl Declared {
    /// The summary of this declaration and then the rest of its block.
    fn before(self, alloc: Global, rest: Exits) -> Result<Exits, AllocError>
        ensures { IfOk result (λ w. exits_of w ≡ declared_before self (exits_of rest)) }
    {
        let inside = rest.leaving(self.around, self.begun);
        let lent = lent(alloc, self.loan, inside)?;
        match self.initial {
            None => Ok(lent),
            Some(initial) => lent.after(alloc, initial),
        }
    }
}

impl Step {
    /// Whether it is a statement that does nothing, as far as its parts show at once.
    fn does_nothing(&self) -> bool
        ensures { result ≡ true → (w : Summary) → step_before self.now w ≡ w }
    {
        match self {
            Step::Executed(exits) => exits.does_nothing(),
            Step::Declared(_) | Step::Way(_) => false,
        }
    }

    /// The summary of this step and what comes after it.
    fn before(self, alloc: Global, rest: Exits) -> Result<Exits, AllocError>
        ensures { IfOk result (λ w. exits_of w ≡ step_before self (exits_of rest)) }
    {
        match self {
            Step::Executed(first) => first.in_sequence(alloc, rest),
            Step::Declared(first) => first.before(alloc, rest),
            Step::Way(first) => first.either(alloc, rest),
        }
    }
}

/// Adds a step, where it does anything: an empty statement takes no space.
pub fn add_step(steps: &mut Vec<Step>, step: Step) -> Result<(), AllocError>
    ensures { OnOk result ((w : Summary) → all_before steps.new.items w ≡ all_before (steps.old.items ++ step ∷ []) w) }
{
    if step.does_nothing() {
        return Ok(());
    }
    Ok(steps.push(step)?)
}

/// The summary of all steps in order, and `last` after them.
pub fn all_before(alloc: Global, steps: Vec<Step>, last: Exits) -> Result<Exits, AllocError>
    ensures { IfOk result (λ w. exits_of w ≡ all_before steps.items (exits_of last)) }
{
    let mut steps = steps;
    let mut rest = last;
    'each: while let Some(step) = steps.pop() {
        rest = step.before(alloc, rest)?;
    }
    Ok(rest)
}
