//! Live regions and effects.
//!
//! `effects` answers the earliest fault of names, types, regions, effects and sizes, as `typed` found it, or the program without one;
//! `effect_fault` answers the fault alone. The rules are those of `source_typing`; `check_programs` finds the fault. Stands on these and on
//! `region_types`.
//!
//! Each function that answers a `Result` with `AllocError` fails only where no host memory is left.
#![tactic(auto)]

mod effected;
mod fault;

pub use effected::{Effected, effect_fault, effects};
pub use fault::CheckFault;
