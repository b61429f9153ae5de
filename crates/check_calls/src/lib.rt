//! Calls: what is called, what its region variables stand for, the conversions of its arguments, and what the callee asks for.
//!
//! The verdict on a call is that of the rules of `source_typing`.
//!
//! Each function that answers a `Result` fails only where no host memory is left.
#![tactic(auto)]

mod arguments;
mod call;
mod enclosing;
mod fixing;
mod known;
mod making;
mod nulls;
mod target;
mod unions;

pub use call::called;
pub use enclosing::Enclosing;
pub use target::{Target, called_target};
pub use unions::{UnionMember, union_made, union_tag};
