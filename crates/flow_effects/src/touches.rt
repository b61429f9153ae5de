// Trees of what a phrase does to the locals, by their numbers.

ghost use Rattle.std.specs.Prelude.{◌≡◌, OnOk, IfOk, ℕ};
ghost use Rattle.flow_summaries.specs.Effects.{with_number};
ghost use Rattle.flow_effects.specs.Touches.{idle_touch, joined, touch_at, touch_of};
ghost use Rattle.flow_effects.specs.declared.touch.How.TheVariants as how;

use crate::touch::{How, Touch};
use std::alloc::{AllocError, Global};

/// A map from the locals' numbers to what a phrase does to them, as a binary tree. The local 0 is at the root. The odd number 2n + 1 is n
/// on the left, and the even number 2n + 2 is n on the right. Nothing is done to a local that isn't in the tree.
pub enum Touches {
    Nothing,
    Fork(Box<Touches>, Touch, Box<Touches>),
}

// Written out, so that a caller's proof sees one call and not the drop of each field.
impl Drop for Touches {
    fn drop(self) {
        match self {
            Touches::Nothing => {}
            Touches::Fork(_odd, _, _even) => {}
        }
    }
}

/// The tree of a first phrase, joined with a next one that does nothing.
fn copied(alloc: Global, how: How, first: &Touches) -> Result<Touches, AllocError>
    ensures { IfOk result (λ t. (i : ℕ) → touch_at t i ≡ joined how (touch_at first.now i) idle_touch) }
{
    match first {
        Touches::Nothing => Ok(Touches::Nothing),
        Touches::Fork(left, here, right) => {
            let left = Box::new(alloc, copied(alloc, how, left)?)?;
            let right = Box::new(alloc, copied(alloc, how, right)?)?;
            let here = how.joined(*here, Touch::none());
            Ok(Touches::Fork(left, here, right))
        }
    }
}

/// Joins the tree of a phrase that does nothing to this one, node by node.
fn each_joined(how: How, next: &mut Touches)
    ensures { (i : ℕ) → touch_at next.new i ≡ joined how idle_touch (touch_at next.old i) }
{
    match next {
        Touches::Nothing => {}
        Touches::Fork(left, here, right) => {
            each_joined(how, left);
            *here = how.joined(Touch::none(), *here);
            each_joined(how, right);
        }
    }
}

/// Joins the tree of a phrase that does nothing to this one. Where that changes no node, none is visited.
pub fn join_nothing(how: How, next: &mut Touches)
    ensures { (i : ℕ) → touch_at next.new i ≡ joined how idle_touch (touch_at next.old i) }
{
    match how {
        How::Turn | How::After | How::Before | How::LastWay => {}
        How::Meet | How::MetBy | How::EachWay | How::FirstWay | How::Pair | How::Head =>
            each_joined(how, next),
    }
}

impl Touches {
    /// Joins the trees of two phrases that follow each other. A subtree that the second one lacks is moved.
    pub fn turn(self, next: &mut Touches)
        ensures { (i : ℕ) → touch_at next.new i ≡ joined how.Turn (touch_at self i) (touch_at next.old i) }
    {
        match self {
            Touches::Nothing => {}
            Touches::Fork(first_left, first_here, first_right) => match next {
                Touches::Nothing => *next = Touches::Fork(first_left, first_here, first_right),
                Touches::Fork(left, here, right) => {
                    Box::into_inner(first_left).turn(left);
                    *here = How::Turn.joined(first_here, *here);
                    Box::into_inner(first_right).turn(right);
                }
            },
        }
    }
}

/// Joins the tree of a first phrase to that of a next one, local by local.
pub fn join(alloc: Global, how: How, first: &Touches, next: &mut Touches) -> Result<(), AllocError>
    ensures { OnOk result ((i : ℕ) → touch_at next.new i ≡ joined how (touch_at first.now i) (touch_at next.old i)) }
{
    match first {
        Touches::Nothing => {
            join_nothing(how, next);
            Ok(())
        }
        Touches::Fork(first_left, first_here, first_right) => match next {
            Touches::Nothing => {
                *next = copied(alloc, how, first)?;
                Ok(())
            }
            Touches::Fork(left, here, right) => {
                join(alloc, how, first_left, left)?;
                *here = how.joined(*first_here, *here);
                join(alloc, how, first_right, right)
            }
        },
    }
}

/// A tree with one local.
fn placed(alloc: Global, number: usize, touch: Touch) -> Result<Touches, AllocError>
    ensures { IfOk result (λ t. (i : ℕ) → touch_at t i ≡ with_number number (touch_of touch) (λ j. idle_touch) i) }
{
    if number == 0 {
        let left = Box::new(alloc, Touches::Nothing)?;
        let right = Box::new(alloc, Touches::Nothing)?;
        Ok(Touches::Fork(left, touch, right))
    } else if number % 2 == 1 {
        let left = Box::new(alloc, placed(alloc, number / 2, touch)?)?;
        let right = Box::new(alloc, Touches::Nothing)?;
        Ok(Touches::Fork(left, Touch::none(), right))
    } else {
        let left = Box::new(alloc, Touches::Nothing)?;
        let right = Box::new(alloc, placed(alloc, number / 2 - 1, touch)?)?;
        Ok(Touches::Fork(left, Touch::none(), right))
    }
}

/// What is done to a local.
pub fn touch_at(touches: &Touches, number: usize) -> Touch
    ensures { touch_of result ≡ touch_at touches.now number }
{
    match touches {
        Touches::Nothing => Touch::none(),
        Touches::Fork(left, here, right) => {
            if number == 0 {
                *here
            } else if number % 2 == 1 {
                touch_at(left, number / 2)
            } else {
                touch_at(right, number / 2 - 1)
            }
        }
    }
}

/// Sets what is done to a local.
pub fn set_touch(
    alloc: Global,
    number: usize,
    touch: Touch,
    touches: &mut Touches,
) -> Result<(), AllocError>
    ensures { OnOk result ((i : ℕ) → touch_at touches.new i ≡ with_number number (touch_of touch) (touch_at touches.old) i) }
{
    match touches {
        Touches::Nothing => {
            *touches = placed(alloc, number, touch)?;
            Ok(())
        }
        Touches::Fork(left, here, right) => {
            if number == 0 {
                *here = touch;
                Ok(())
            } else if number % 2 == 1 {
                set_touch(alloc, number / 2, touch, left)
            } else {
                set_touch(alloc, number / 2 - 1, touch, right)
            }
        }
    }
}

/// Sets that nothing is done to a local.
pub fn forget(number: usize, touches: &mut Touches)
    ensures { (i : ℕ) → touch_at touches.new i ≡ with_number number idle_touch (touch_at touches.old) i }
{
    match touches {
        Touches::Nothing => {}
        Touches::Fork(left, here, right) => {
            if number == 0 {
                *here = Touch::none();
            } else if number % 2 == 1 {
                forget(number / 2, left);
            } else {
                forget(number / 2 - 1, right);
            }
        }
    }
}
