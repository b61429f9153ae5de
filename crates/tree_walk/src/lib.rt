//! The one walk over a program's tree: it lists the string literals and the names that calls name, in the order of the text.
//!
//! `strings_of` lists a program's literals, each with its place and its bytes; a literal's number in the list is its number among the
//! program's strings. `callees_of` lists the names that the calls of a block name. Stands on `cyc_tree` and on the definitions of `source_meaning`.
#![tactic(auto)]

mod bodies;
mod expressions;
mod found;
mod items;
mod places;

pub use found::{Callee, Literal};
pub use items::{callees_of, strings_of};
pub use places::{Numbered, Strings};
