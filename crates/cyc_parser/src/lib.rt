//! From tokens to the syntax tree.
//!
//! `parse` reads by recursive descent, one function for each phrase of the grammar; it goes no deeper
//! than the nesting bound, and reads chains and lists in loops. It answers the one program that the tokens
//! spell by the grammar of `source_grammar`, and refuses where specs/Refusals.antt says. Stands on
//! `source_grammar`, `cyc_lexer`, `cyc_tree` and `thiserror`.
#![tactic(auto)]

mod cursor;
mod declaration;
mod expression;
mod fault;
mod first;
mod function;
mod item;
mod level;
mod lists;
mod literal;
mod operator;
mod statement;
mod type_name;

pub use fault::ParseFault;
pub use function::NESTING_LIMIT;
pub use item::{one_place, one_program, parse};
