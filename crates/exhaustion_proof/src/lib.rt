//! Exhaustion is exact: over a store that refuses for lack of space exactly where its counts do, a machine that does what a
//! program means stops as exhausted exactly where the program's own events want more pages than there are, or a frame that
//! the stack hasn't.
//!
//! specs/Room has what events want of the pages, by births alone, and specs/Laws what is promised. There is no code but the law.
//! Stands on `rv32_machine`, which says what a run is and when a machine does what a meaning says, and on the counts of
//! `arena_laws`.
#![tactic(auto)]

mod laws;

pub use laws::exhaustion_is_exact;
