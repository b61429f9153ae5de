//! Summaries: what each phrase does to the locals that can't be copied, from any states before it.
//!
//! The rules of flow follow a phrase from the states of the locals before it, and a loop iteration by
//! iteration. A summary (specs/Passages) covers all states at once: it has an effect on each local, and
//! the earliest fault that each state of a local causes. specs/Uses and specs/Exits make it from the
//! summaries of the parts, and that of a loop from one iteration; specs/Expressions and
//! specs/Statements have one line for each construct. The laws say that the rules and the summaries
//! agree, up to the fault of flow that a program is answered with (`flow_is_passed`). There is no code
//! but the laws. Stands on the rules of `source_typing` and the faults of `check_faults`.
#![tactic(auto)]

mod laws;

pub use laws::{expressions_do_as_told, flow_is_passed, loops_turn_once, statements_leave_as_told};
