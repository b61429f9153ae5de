//! The Core that a program is lowered to names only what there is, and lays its objects out so that their parts lie apart.
//!
//! `core_meaning/specs/Selectable` says of which programs of Core that is so. specs/Naming has what code names beside its
//! temporaries, and proofs/Selectable puts the proof together: the code of each expression, statement and function that
//! lowering takes names temporaries, locals, temporary objects and objects of the data that its function and its program have.
//! There is no code but the law. Stands on `source_lowering` and `core_meaning`.
#![tactic(auto)]

mod laws;

pub use laws::lowered_are_selectable;
