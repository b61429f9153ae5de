//! The earliest fault of flow of a program: a local is needed after it was moved or freed, or while it is lent, or what can't be copied
//! would be.
//!
//! `flow_fault` visits each phrase once and answers what the rules of `source_typing` find, also in a program with other faults. It
//! computes what each phrase does to the locals (`flow_summaries`, in code `flow_effects`), and asks `check_expressions` for the types of
//! parts.
//!
//! Each function that answers a `Result` fails only where no host memory is left.
#![tactic(auto)]

mod declared;
mod expression;
mod expressions;
mod facts;
mod function;
mod joining;
mod making;
mod name;
mod parts;
mod pointing;
mod program;
mod seen;
mod statement;
mod suffixed;

pub use program::flow_fault;
