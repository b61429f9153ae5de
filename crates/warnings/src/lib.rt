//! What an accepted program surely or likely has wrong: the warnings of `cycc check --warn`.
//!
//! `warnings_of` walks over a program once and answers its warnings in the order of the text: names that nothing uses, conditions that assign,
//! statements behind which no run comes, comparisons and indexes whose outcome is known, and blocks that are never freed. `with_places` leaves out
//! those that a comment allows, and gives the others their lines and columns. No more is claimed than that each answers, or that no host
//! memory is left. Stands on `cyc_tree` and `cyc_lexer`.
#![tactic(auto)]

mod allowed;
mod always;
mod assigned;
mod expressions;
mod leaks;
mod names;
mod placed;
mod raises;
mod reached;
mod statements;
mod unused;
mod walk;
mod warning;

pub use placed::{Placed, with_places};
pub use unused::warnings_of;
pub use warning::{Warning, WarningKind};
