//! The declarations in a function's body, and its parameters.
//!
//! What is said of them are the rules of `source_typing`: `declare` answers the earliest of the faults that these find in a declaration, and
//! the scope in code stays known as the rules' one is; so it does where a parameter is declared, or the name of a clause of a `switch`.
//!
//! Each function that answers a `Result` fails only where no host memory is left.
#![tactic(auto)]

mod alias;
mod context;
mod declaration;
mod fitting;
mod local;
mod local_types;
mod members;
mod opening;
mod operand;
mod parameter;
mod regions;

pub use context::Context;
pub use declaration::declare;
pub use fitting::fitted;
pub use local::set_fault;
pub use members::{Chosen, SwitchedUnion, bind, place_union, union_of};
pub use operand::{Kind, is_unique, operand_fault};
pub use parameter::declare_parameter;
pub use regions::next_region;
