//! What the tokens around a fault tell of it, in words.
//!
//! `wanted` says what could stand at a fault of the grammar, `hint` what to write for a construct of C and `unclosed` which bracket isn't
//! closed. `given_away` and `lent` say where a local was given away or lent, and `Nearest` which of several names is nearest to another one.
//! `body_at` finds a function's body, and `emptied` leaves it out. Nothing rests on what they answer: no more is claimed than that each
//! answers. Stands on `cyc_lexer`.
#![tactic(auto)]

mod angles;
mod bodies;
mod braces;
mod follow;
mod hints;
mod loops;
mod missing;
mod moves;
mod near;
mod operands;
mod seen;
mod taken;

pub use bodies::{
    Body, body_at, body_within, count_outside, emptied, emptied_all, emptied_behind, emptied_up_to,
};
pub use follow::wanted;
pub use hints::hint;
pub use missing::{end_before, unclosed};
pub use moves::{given_away, given_later, lent};
pub use near::Nearest;
pub use seen::{declared_before, index_at, is_declared, kind_before};
pub use taken::{is_freed, taken_at, without_statement};
