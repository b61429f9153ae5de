//! A program that is accepted is in order: it is never stuck, lowering takes it and it has its `main`.
//!
//! `source_typing` says which faults there are, `type_proof` which programs are never stuck, by a judgement of its own, and
//! `source_lowering` which programs lowering takes. Here the first gives the two others.
//! Beside them stands that the rules of regions and of flow are needed (specs/Refused): of each there is a program whose only fault it is, and
//! that does get stuck; so no program in order is stuck for another reason than that none ever were. Five laws and no other code.
#![tactic(auto)]

mod laws;

pub use laws::{
    accepted_are_judged, accepted_are_lowerable, accepted_are_never_stuck, accepted_have_main,
    refused_get_stuck,
};
