//! What the expressions of a program are.
//!
//! Each function that answers a `Result` fails only where no host memory is left.
#![tactic(auto)]

mod around;
mod expression;
mod making;
mod parts;
mod suffixes;

pub use around::{Around, is_counter, with_counter};
pub use expression::{judge, judge_inside};
pub use making::{array_parts, goal_part, is_unique_region, made_parts};
pub use parts::{
    applied_parts, assigned_parts, call_part, counted_part, given_after, prefixed_part,
    tested_parts, union_parts,
};
pub use suffixes::{arrow_part, indexed_parts, member_part};
