//! Accepted programs are never stuck.
//!
//! specs/Judged and specs/Programs say which programs are in order, by the judgement of each of
//! their expressions, specs/Flat what the cells of a type are, and specs/Structs how structs are
//! laid out. proofs/Invariant says, once for the whole language, when a memory is well formed: each
//! cell holds a value of its type, and each right is held once. Above it stand the steps that keep
//! it so, and the runs that are never stuck. This is proved of the whole language.
//! Stands on the rules of `source_typing` and on the meaning of `source_meaning`.
#![tactic(auto)]

mod laws;

pub use laws::never_stuck;
