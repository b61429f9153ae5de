//! Which names of a source live in registers: the first twelve integers, thin pointers, handles and keys of a function to which
//! `&` is never applied.
//!
//! specs/Names says it of the source: which names a function has in the order of its text, and which of them may have a register.
//! `select` gives registers to Core's locals whose address no operation takes (`core_lines/specs/Homes`); this law says that
//! those are the same. There is no code but the law. Stands on `source_lowering`, `selectable_proof` and `core_lines`, and on
//! `accepted_proof`.
#![tactic(auto)]

mod laws;

pub use laws::homes_are_of_names;
