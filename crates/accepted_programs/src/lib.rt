//! The programs that are accepted (`Checked`).
//!
//! Stands on the rules of `source_typing`.
#![tactic(auto)]

mod checked;

pub use checked::Checked;
