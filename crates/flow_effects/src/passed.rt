// Summaries of phrases with one exit.

ghost use Rattle.std.specs.Prelude.{◌≡◌, ◌+◌, IfOk, length, map, reverse};
ghost use Rattle.flow_summaries.specs.Exits.{lent_from};
ghost use Rattle.flow_summaries.specs.Passages as rules;
ghost use Rattle.flow_summaries.specs.Passages.{caused_by, copied_if, faults_after, found_in, in_turn, in_turn_or_not, repeated, unchanged, used};
ghost use Rattle.check_faults.specs.Faults.{sooner_found};
ghost use Rattle.flow_effects.specs.Passed.{IsMetBy, added_of, left_after, lent_within, looped_from, passage_of, state_of};
ghost use Rattle.flow_effects.specs.Tables.{effects_in, passage_in, table_at, way_of};
ghost use Rattle.flow_effects.specs.Touches.{caused_of, effect_of, joined};

use crate::table::Table;
use crate::touch::{Caused, Effect, How, Touch};
use check_faults::{Fault, FaultKind, sooner};
use std::alloc::{AllocError, Global};

/// What a phrase with one exit does to the locals, and its earliest fault that depends on no local.
#[derive(Drop)]
pub struct Passed {
    pub table: Table,
    pub always: Option<Fault>,
}

/// The state of a local at its declaration: held if its type can't be copied, else plain.
#[derive(Clone, Copy)]
pub enum Begun {
    Plain,
    Held,
}

impl Passed {
    /// A phrase that does nothing.
    pub fn nothing() -> Passed
        ensures { passage_of result ≡ unchanged }
    {
        Passed {
            table: Table::nothing(),
            always: None,
        }
    }

    /// A phrase with the fault Copy, if `copied`, and without an effect.
    pub fn copied_if(copied: bool, at: u32) -> Passed
        ensures { passage_of result ≡ copied_if copied at }
    {
        let mut passed = Passed::nothing();
        if copied {
            passed.always = Some(Fault {
                kind: FaultKind::Copy,
                at,
            });
        }
        passed
    }

    /// A use of a local with this effect and these faults. Without a number it is no local, and nothing is done.
    fn used(
        alloc: Global,
        number: Option<usize>,
        effect: Effect,
        caused: Caused,
    ) -> Result<Passed, AllocError>
        ensures { IfOk result (λ p. passage_of p ≡ used (effect_of effect) (caused_of caused) number) }
    {
        let Some(number) = number else {
            return Ok(Passed::nothing());
        };
        let table = Table::nothing().with(alloc, number, Touch { effect, caused })?;
        Ok(Passed {
            table,
            always: None,
        })
    }

    /// A move of a local's value.
    pub fn moved(alloc: Global, at: u32, number: Option<usize>) -> Result<Passed, AllocError>
        ensures { IfOk result (λ p. passage_of p ≡ rules.moved at number) }
    {
        Passed::used(alloc, number, Effect::Loses, unless_held(at))
    }

    /// A use that only looks at a local.
    pub fn looked_at(alloc: Global, at: u32, number: Option<usize>) -> Result<Passed, AllocError>
        ensures { IfOk result (λ p. passage_of p ≡ rules.looked_at at number) }
    {
        Passed::used(alloc, number, Effect::Holds, unless_held(at))
    }

    /// An assignment to a whole local.
    pub fn assigned(alloc: Global, at: u32, number: Option<usize>) -> Result<Passed, AllocError>
        ensures { IfOk result (λ p. passage_of p ≡ rules.assigned at number) }
    {
        Passed::used(alloc, number, Effect::Holds, if_lent(at))
    }

    /// The summary of this phrase and then the next one.
    pub fn in_turn(self, next: Passed) -> Passed
        ensures { passage_of result ≡ in_turn (passage_of self) (passage_of next) }
    {
        Passed {
            table: self.table.turn(next.table),
            always: sooner(self.always, next.always),
        }
    }

    /// The summary of this phrase and then one that may be skipped.
    pub fn in_turn_or_not(self, next: Passed) -> Passed
        ensures { passage_of result ≡ in_turn_or_not (passage_of self) (passage_of next) }
    {
        let maybe = next.table.joined_to_nothing(How::Meet);
        Passed {
            table: self.table.turn(maybe),
            always: sooner(self.always, next.always),
        }
    }

    /// The fault that a local causes if it begins in this state.
    fn caused(&self, number: usize, state: Begun) -> Option<Fault>
        ensures { result ≡ caused_by (state_of state) ((passage_of self.now).faults.caused number) }
    {
        let caused = self.table.at(number).caused;
        match state {
            Begun::Plain => caused.plain,
            Begun::Held => caused.held,
        }
    }

    /// The earlier of the fault that a local causes, if it begins in this state, and of the fault that depends on no local.
    pub fn begun(&self, number: usize, state: Begun) -> Option<Fault>
        ensures { result ≡ sooner_found (caused_by (state_of state) ((passage_of self.now).faults.caused number)) self.now.always }
    {
        sooner(self.caused(number, state), self.always)
    }

    /// The earliest fault if the first locals begin in these states and there are no others.
    pub fn found(&self, states: &[Begun]) -> Option<Fault>
        ensures { result ≡ found_in (length states.now) (passage_of self.now).faults (reverse (map state_of states.now)) }
    {
        let mut found = None;
        let mut number = 0;
        'each: for state in states {
            found = sooner(self.caused(number, *state), found);
            number += 1;
        }
        sooner(found, self.always)
    }

    /// The summary of an array comprehension whose element is this. Its index is the local number `around`.
    pub fn repeated(self, around: usize) -> Passed
        ensures { passage_of result ≡ repeated around (passage_of self) }
    {
        let always = self.begun(around, Begun::Plain);
        let inside = self.table.below(around);
        Passed {
            table: inside.joined_to_nothing(How::Head),
            always,
        }
    }

    /// Joins the summaries of two paths. `how` tells which of their ends are reached.
    pub fn met(self, alloc: Global, how: How, other: Passed) -> Result<Passed, AllocError>
        ensures { IfOk result (λ p. passage_of p
            ≡ passage_in (λ i. joined how (table_at self.table i) (table_at other.table i)) (sooner_found self.always other.always)) }
    {
        let table = other.table.joined(alloc, how, &self.table)?;
        Ok(Passed {
            table,
            always: sooner(self.always, other.always),
        })
    }

    /// This phrase after these effects, with its own faults alone.
    pub fn after_effects(self, alloc: Global, first: &Table) -> Result<Passed, AllocError>
        ensures { IfOk result (λ p. (passage_of p).faults ≡ faults_after (effects_in (table_at first.now)) (passage_of self).faults) }
    {
        let table = self.table.joined(alloc, How::After, first)?;
        Ok(Passed {
            table,
            always: self.always,
        })
    }

    /// Joins the effects of another path to this one's, if that path is reached.
    pub fn met_by(self, alloc: Global, way: Option<Table>) -> Result<Passed, AllocError>
        ensures { IfOk result (λ p. IsMetBy (passage_of self) (way_of way) (passage_of p)) }
    {
        match way {
            None => Ok(self),
            Some(way) => {
                let table = self.table.joined(alloc, How::MetBy, &way)?;
                Ok(Passed {
                    table,
                    always: self.always,
                })
            }
        }
    }

    /// The summary of a loop with this body. It is left from its head with the effects `left`.
    pub fn looped(self, alloc: Global, left: &Table) -> Result<Passed, AllocError>
        ensures { IfOk result (λ p. passage_of p ≡ looped_from (passage_of self) (effects_in (table_at left.now))) }
    {
        let head = self.table.joined_to_nothing(How::Head);
        let table = head.joined(alloc, How::Before, left)?;
        Ok(Passed {
            table,
            always: self.always,
        })
    }

    /// Replaces the effects, and keeps the faults.
    pub fn with_effects(self, alloc: Global, effects: &Table) -> Result<Passed, AllocError>
        ensures { IfOk result (λ p. passage_of p ≡ record (passage_of self) { effects = effects_in (table_at effects.now) }) }
    {
        let table = self.table.joined(alloc, How::Pair, effects)?;
        Ok(Passed {
            table,
            always: self.always,
        })
    }

    /// Forgets the locals from number `around` on. The first of them, if there is one, begins in the state `begun`.
    pub fn leaving(self, around: usize, begun: Option<Begun>) -> Passed
        ensures { passage_of result ≡ left_after around (length (added_of begun) + around) (added_of begun) (passage_of self) }
    {
        let always = match begun {
            Some(state) => self.begun(around, state),
            None => self.always,
        };
        Passed {
            table: self.table.below(around),
            always,
        }
    }

    /// The summary of this phrase where a local is lent throughout. The loan names the local at `at`.
    pub fn lent(self, alloc: Global, at: u32, number: usize) -> Result<Passed, AllocError>
        ensures { IfOk result (λ p. passage_of p ≡ lent_within at number (passage_of self)) }
    {
        let lent = self.table.at(number).caused.lent;
        let touch = Touch {
            effect: Effect::Holds,
            caused: lent_from(at, lent),
        };
        let table = self.table.with(alloc, number, touch)?;
        Ok(Passed {
            table,
            always: self.always,
        })
    }
}

/// A fault of this kind.
fn fault(kind: FaultKind, at: u32) -> Option<Fault>
    ensures { result ≡ rules.fault_of_kind kind at }
{
    Some(Fault { kind, at })
}

/// The faults of a use that needs the local to be held.
fn unless_held(at: u32) -> Caused
    ensures { caused_of result ≡ rules.unless_held at }
{
    Caused {
        plain: None,
        held: None,
        gone: fault(FaultKind::Consumed, at),
        lent: fault(FaultKind::Lent, at),
    }
}

/// The faults of a use that needs the local not to be lent.
fn if_lent(at: u32) -> Caused
    ensures { caused_of result ≡ rules.if_lent at }
{
    Caused {
        plain: None,
        held: None,
        gone: None,
        lent: fault(FaultKind::Lent, at),
    }
}

/// The faults of a loan, which needs the local to be held. `lent` is the fault of what follows while the local is lent.
fn lent_from(at: u32, lent: Option<Fault>) -> Caused
    ensures { caused_of result ≡ lent_from at lent }
{
    Caused {
        plain: lent,
        held: lent,
        gone: sooner(fault(FaultKind::Consumed, at), lent),
        lent: sooner(fault(FaultKind::Lent, at), lent),
    }
}
