//! The check of unique pointers, which is the last: what it accepts is an accepted program.
//!
//! `flow` answers the earliest fault of flow, or the program as `Checked`, which breaks no rule. If another check has found a fault,
//! `first_broken` answers the earliest fault by all rules. `flow_check` finds the faults of flow; that these are Consumed, Lent and Copy
//! alone is proved here. Stands on `flow_check` and `effect_check`.
#![tactic(auto)]

mod checked;
mod fault;

pub use accepted_programs::Checked;
pub use checked::{first_broken, flow};
pub use fault::FlowFault;
