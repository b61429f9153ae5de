//! How much stack the calls of a program need, whatever its input.
//!
//! `stack_needs` answers of each function the bytes that it fits with all that it calls, by the frames that its code has, and None where it
//! fits none. By `stack_proof` no run takes more than `main` fits. `recursion_of` answers the recursion that is reached. Calls are listed from the tree
//! by `tree_walk`, named by numbers (`numbers`, `calls`), and gone over in rounds (`rounds`), which is what specs/Graph defines.
//! Stands on `core_lines`, which defines the frames, on `compile_proof`, by which machines have them, on `stack_proof`, and on `tree_walk`.
#![tactic(auto)]

mod calls;
mod laws;
mod need;
mod numbers;
mod recursion;
mod rounds;
mod sites;

pub use laws::answered_stack_suffices;
pub use need::{StackNeeds, recursion_of, stack_needs};
pub use recursion::Recursion;
pub use sites::{call_site, function_names};
