//! What `cycc explain` says of faults, endings, exit statuses and words of C.
//!
//! `explain` finds what is said of a name, and `NAMES` lists the names; `c_word` finds what to write in place of a word of C. The texts are those
//! of docs/FAULTS.md and of a table in docs/FROM_C.md, from which `tools/explain --write` makes the files of `texts`.
#![tactic(auto)]

mod explanation;
mod texts;

pub use explanation::{Explanation, c_word, explain};
pub use texts::NAMES;
