// Operations on tables.

ghost use Rattle.std.specs.Prelude.{◌≡◌, IfOk};
ghost use Rattle.flow_summaries.specs.Effects.{below, with_number};
ghost use Rattle.flow_effects.specs.Tables.{table_at};
ghost use Rattle.flow_effects.specs.Touches.{idle_touch, joined, touch_of};
ghost use Rattle.flow_effects.specs.declared.touch.How.TheVariants as how;

use crate::table::Table;
use crate::touch::{How, Touch};
use crate::touches::{Touches, forget, join, join_nothing, set_touch, touch_at};
use std::alloc::{AllocError, Global};

impl Table {
    /// The table of a phrase that does nothing.
    pub fn nothing() -> Table
        ensures { table_at result ≡ (λ i. idle_touch) }
    {
        Table {
            count: 0,
            touches: Touches::Nothing,
        }
    }

    /// What is done to a local.
    pub fn at(&self, number: usize) -> Touch
        ensures { touch_of result ≡ table_at self.now number }
    {
        touch_at(&self.touches, number)
    }

    /// Sets what is done to a local.
    pub fn with(self, alloc: Global, number: usize, touch: Touch) -> Result<Table, AllocError>
        ensures { IfOk result (λ t. table_at t ≡ with_number number (touch_of touch) (table_at self)) }
    {
        let Some(count) = number.checked_add(1) else {
            return Err(AllocError);
        };
        let mut touches = self.touches;
        set_touch(alloc, number, touch, &mut touches)?;
        Ok(Table {
            count: self.count.max(count),
            touches,
        })
    }

    /// Forgets the locals from number `count` on.
    pub fn below(self, count: usize) -> Table
        ensures { table_at result ≡ below count idle_touch (table_at self) }
    {
        let mut reach = self.count;
        let mut touches = self.touches;
        'each: while count < reach {
            reach -= 1;
            forget(reach, &mut touches);
        }
        Table {
            count: reach,
            touches,
        }
    }

    /// The table of this phrase and then the next one.
    pub fn turn(self, next: Table) -> Table
        ensures { table_at result ≡ (λ i. joined how.Turn (table_at self i) (table_at next i)) }
    {
        let mut touches = next.touches;
        self.touches.turn(&mut touches);
        Table {
            count: self.count.max(next.count),
            touches,
        }
    }

    /// Joins the table of a first phrase to this one, local by local.
    pub fn joined(self, alloc: Global, how: How, first: &Table) -> Result<Table, AllocError>
        ensures { IfOk result (λ t. table_at t ≡ (λ i. joined how (table_at first.now i) (table_at self i))) }
    {
        let mut touches = self.touches;
        join(alloc, how, &first.touches, &mut touches)?;
        Ok(Table {
            count: self.count.max(first.count),
            touches,
        })
    }

    /// Joins the table of a first phrase that does nothing to this one.
    pub fn joined_to_nothing(self, how: How) -> Table
        ensures { table_at result ≡ (λ i. joined how idle_touch (table_at self i)) }
    {
        let mut touches = self.touches;
        join_nothing(how, &mut touches);
        Table {
            count: self.count,
            touches,
        }
    }
}
