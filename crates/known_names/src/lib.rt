//! What is known of a name where it stands: its type with its regions, its size, what a call instantiates, and what is held or lent there.
//!
//! `known_at` says it in words, by the checker's own judgements. No more is claimed than that it answers, or that no host memory is left. Stands on
//! `fault_words` and on the checker.
#![tactic(auto)]

mod held;
mod hovered;
mod instantiated;
mod spots;

pub use hovered::known_at;
