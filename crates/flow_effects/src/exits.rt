// Summaries of statements, which have several exits.

ghost use Rattle.std.specs.Prelude.{◌≡◌, ◌+◌, IfOk, None, Some, length, true};
ghost use Rattle.cyc_tree.specs.Tree as tree;
ghost use Rattle.flow_summaries.specs.Effects.{met_ways, no_effects, to_head};
ghost use Rattle.flow_summaries.specs.Exits.{either_exits, ends, ends_after, entered, exits, exits_in_sequence, lent_in, loop_exits, looped, no_exits};
ghost use Rattle.flow_summaries.specs.Exits.{switch_left, with_passage};
ghost use Rattle.flow_summaries.specs.Passages as rules;
ghost use Rattle.flow_summaries.specs.Passages.{faults_always};
ghost use Rattle.flow_effects.specs.Exits.{exits_of, met_by};
ghost use Rattle.flow_effects.specs.Passed.{added_of, passage_of};
ghost use Rattle.flow_effects.specs.Tables.{effects_in, table_at, way_of};

use crate::passed::{Begun, Passed};
use crate::table::Table;
use crate::touch::How;
use crate::ways::{after, below, effects_of, held_again, met};
use std::alloc::{AllocError, Global};

/// What a statement does to the locals on each path out of it, and its faults.
#[derive(Drop)]
pub struct Exits {
    /// Whether the statement's end is reached.
    pub falls: bool,
    /// The effects up to the end, if it is reached, and the faults of all paths.
    pub whole: Passed,
    /// The effects up to a `break`, if one is reached.
    pub breaks: Option<Table>,
    /// The effects up to a `continue`, if one is reached.
    pub continues: Option<Table>,
}

impl Exits {
    /// A statement of which no exit is reached, without a fault.
    pub fn nowhere() -> Exits
        ensures { exits_of result ≡ no_exits }
    {
        Exits {
            falls: false,
            whole: Passed::nothing(),
            breaks: None,
            continues: None,
        }
    }

    /// A statement that ends after an expression.
    pub fn ends_after(passed: Passed) -> Exits
        ensures { exits_of result ≡ ends_after (passage_of passed) }
    {
        Exits {
            falls: true,
            whole: passed,
            breaks: None,
            continues: None,
        }
    }

    /// A statement that does nothing.
    pub fn ends() -> Exits
        ensures { exits_of result ≡ ends }
    {
        Exits::ends_after(Passed::nothing())
    }

    /// Whether it is that of a statement that does nothing, as far as its parts show at once.
    pub fn does_nothing(&self) -> bool
        ensures { result ≡ true → exits_of self.now ≡ ends }
    {
        self.falls
            && self.whole.table.count == 0
            && self.whole.always.is_none()
            && self.breaks.is_none()
            && self.continues.is_none()
    }

    /// A `break`.
    pub fn breaks() -> Exits
        ensures { exits_of result ≡ exits None (Some no_effects) None (faults_always None) }
    {
        Exits {
            falls: false,
            whole: Passed::nothing(),
            breaks: Some(Table::nothing()),
            continues: None,
        }
    }

    /// A `continue`.
    pub fn continues() -> Exits
        ensures { exits_of result ≡ exits None None (Some no_effects) (faults_always None) }
    {
        Exits {
            falls: false,
            whole: Passed::nothing(),
            breaks: None,
            continues: Some(Table::nothing()),
        }
    }

    /// A `return` of an expression.
    pub fn returns(passed: Passed) -> Exits
        ensures { exits_of result ≡ exits None None None (passage_of passed).faults }
    {
        Exits {
            falls: false,
            whole: passed,
            breaks: None,
            continues: None,
        }
    }

    /// The summary of an expression and then this statement.
    pub fn after(self, alloc: Global, passed: Passed) -> Result<Exits, AllocError>
        ensures { IfOk result (λ w. exits_of w ≡ with_passage (passage_of passed) (exits_of self)) }
    {
        let breaks = after(alloc, &passed.table, self.breaks)?;
        let continues = after(alloc, &passed.table, self.continues)?;
        Ok(Exits {
            falls: self.falls,
            whole: passed.in_turn(self.whole),
            breaks,
            continues,
        })
    }

    /// The summary of this statement and then the next one.
    pub fn in_sequence(self, alloc: Global, next: Exits) -> Result<Exits, AllocError>
        ensures { IfOk result (λ w. exits_of w ≡ exits_in_sequence (exits_of self) (exits_of next)) }
    {
        if !self.falls {
            return Ok(self);
        }
        let breaks = after(alloc, &self.whole.table, next.breaks)?;
        let continues = after(alloc, &self.whole.table, next.continues)?;
        Ok(Exits {
            falls: next.falls,
            whole: self.whole.in_turn(next.whole),
            breaks: met(alloc, self.breaks, breaks)?,
            continues: met(alloc, self.continues, continues)?,
        })
    }

    /// The summary of a choice between this statement and another one.
    pub fn either(self, alloc: Global, other: Exits) -> Result<Exits, AllocError>
        ensures { IfOk result (λ w. exits_of w ≡ either_exits (exits_of self) (exits_of other)) }
    {
        let how = met_by(self.falls, other.falls);
        let breaks = met(alloc, self.breaks, other.breaks)?;
        let continues = met(alloc, self.continues, other.continues)?;
        Ok(Exits {
            falls: self.falls || other.falls,
            whole: self.whole.met(alloc, how, other.whole)?,
            breaks,
            continues,
        })
    }

    /// The summary of a `switch` with these clauses: a `break` in them ends it.
    pub fn switch_left(self, alloc: Global) -> Result<Exits, AllocError>
        ensures { IfOk result (λ w. exits_of w ≡ switch_left (exits_of self)) }
    {
        let Exits {
            whole,
            breaks,
            continues,
            ..
        } = self;
        match breaks {
            Some(breaks) => Ok(Exits {
                falls: true,
                whole: whole.with_effects(alloc, &breaks)?,
                breaks: None,
                continues,
            }),
            None => Ok(Exits {
                falls: false,
                whole,
                breaks: None,
                continues,
            }),
        }
    }

    /// The summary of a loop whose body, with the condition before it, is this, in case the body's end is reached. `condition` has the
    /// effects of the condition alone.
    fn come_round(self, alloc: Global, condition: Table) -> Result<Exits, AllocError>
        ensures { (p : rules.Passage) → p.effects ≡ effects_in (table_at condition) → self.falls ≡ true
            → IfOk result (λ w. exits_of w ≡ looped p (exits_of self)) }
    {
        let Exits {
            whole,
            breaks,
            continues,
            ..
        } = self;
        let left = left_by(alloc, condition, breaks)?;
        let turn = whole.met_by(alloc, continues)?;
        let round = turn.looped(alloc, &left)?;
        Ok(Exits::ends_after(round))
    }

    /// The summary of a loop whose body, with the condition before it, is this. `condition` has the effects of the condition alone.
    fn looped(self, alloc: Global, condition: Table) -> Result<Exits, AllocError>
        ensures { (p : rules.Passage) → p.effects ≡ effects_in (table_at condition) → IfOk result (λ w. exits_of w ≡ looped p (exits_of self)) }
    {
        if self.falls {
            return self.come_round(alloc, condition);
        }
        let head = head_by(alloc, &self.continues)?;
        let Exits { whole, breaks, .. } = self;
        let left = left_by(alloc, condition, breaks)?.joined(alloc, How::After, &head)?;
        let turn = whole.after_effects(alloc, &head)?;
        Ok(Exits::ends_after(turn.with_effects(alloc, &left)?))
    }

    /// The summary of a loop with this condition and this body.
    pub fn loop_of(self, alloc: Global, condition: Passed) -> Result<Exits, AllocError>
        ensures { IfOk result (λ w. exits_of w ≡ loop_exits (passage_of condition) (exits_of self)) }
    {
        let effects = effects_of(alloc, &condition.table)?;
        let turn = self.after(alloc, condition)?;
        turn.looped(alloc, effects)
    }

    /// Leaves the scope of a declaration: forgets the locals from number `around` on. The first of them, if there is one, begins in the
    /// state `begun`.
    pub fn leaving(self, around: usize, begun: Option<Begun>) -> Exits
        ensures { exits_of result ≡ entered around (length (added_of begun) + around) (added_of begun) (exits_of self) }
    {
        let breaks = below(around, self.breaks);
        let continues = below(around, self.continues);
        Exits {
            falls: self.falls,
            whole: self.whole.leaving(around, begun),
            breaks,
            continues,
        }
    }

    /// The summary of the rest of a block in which a local is lent. The declaration stands at `at`, and the local's name in it at
    /// `name_at`. Without a number it is no local, and can't be lent.
    pub fn lent(
        self,
        alloc: Global,
        at: u32,
        name_at: u32,
        number: Option<usize>,
    ) -> Result<Exits, AllocError>
        ensures { (x : tree.Name) → x.at ≡ name_at → IfOk result (λ w. exits_of w ≡ lent_in at x number (exits_of self)) }
    {
        let Some(number) = number else {
            return self.after(alloc, Passed::copied_if(true, at));
        };
        let breaks = held_again(alloc, number, self.breaks)?;
        let continues = held_again(alloc, number, self.continues)?;
        Ok(Exits {
            falls: self.falls,
            whole: self.whole.lent(alloc, name_at, number)?,
            breaks,
            continues,
        })
    }
}

/// How the ends of two paths join, by which of the ends are reached.
fn met_by(one: bool, other: bool) -> How
    ensures { result ≡ met_by one other }
{
    match (one, other) {
        (true, true) => How::EachWay,
        (true, false) => How::FirstWay,
        (false, _) => How::LastWay,
    }
}

/// The effects at a loop's head if the body's end isn't reached: none on entry, joined with those up to a `continue` if one is reached.
fn head_by(alloc: Global, continues: &Option<Table>) -> Result<Table, AllocError>
    ensures { IfOk result (λ t. effects_in (table_at t) ≡ to_head (way_of continues.now)) }
{
    match continues {
        None => Ok(Table::nothing()),
        Some(way) => {
            let head = effects_of(alloc, way)?;
            Ok(head.joined_to_nothing(How::Meet))
        }
    }
}

/// The effects with which a loop is left: those of its condition, joined with those up to a `break` if one is reached.
fn left_by(alloc: Global, condition: Table, breaks: Option<Table>) -> Result<Table, AllocError>
    ensures { IfOk result (λ t. Some (effects_in (table_at t)) ≡ met_ways (Some (effects_in (table_at condition))) (way_of breaks)) }
{
    match breaks {
        None => Ok(condition),
        Some(breaks) => {
            let met = breaks.joined(alloc, How::Meet, &condition)?;
            Ok(met)
        }
    }
}
