//! The meaning of a source: what a run of a program shows to the world, and how it ends.
//!
//! The definitions are in specs/, by subject: shapes of types, memory, steps, values, expressions,
//! statements and programs. `laws` has what holds of all runs: more fuel changes no run that was
//! over and only adds to what is seen, and a raise ends a run at once. Stands on the pure tree of
//! `cyc_tree`, on the trees of steps of `step_trees`, and on the arithmetic and events of
//! `cyc_words`.
#![tactic(auto)]

mod laws;

pub use laws::{ends_at_once, only_grows, stays_over};
