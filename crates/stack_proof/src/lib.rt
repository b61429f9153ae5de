//! Stack: where `main` fits so many bytes, no run of the program takes more at any call.
//!
//! specs/Fits says when a function fits a number of bytes: its own frame, and beside it each function that its body calls, by a
//! plain walk over the tree (specs/Callees). That is no run, and holds of no function from which a recursion is reached.
//! specs/Laws has what is promised. There is no code but the law. Stands on `source_meaning`, which says what a run shows, and
//! on `rv32_machine`, which says when a call has no frame.
#![tactic(auto)]

mod laws;

pub use laws::{cuts_are_requests, never_out_of_stack, room_is_pages, stack_suffices};
