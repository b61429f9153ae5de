//! What expressions are, by what their operands are: operators, places, conversions and assignments.
//!
//! What is said of them are the rules of `source_typing`, each as it stands there.
//!
//! Each function that answers a `Result` fails only where no host memory is left.
#![tactic(auto)]

mod array;
mod assignment;
mod comparison;
mod conversion;
mod kind;
mod literal;
mod making;
mod members;
mod name;
mod operator;
mod prefix;
mod renaming;
mod value;

pub use array::{counted, indexed, string};
pub use assignment::assigned;
pub use conversion::converted;
pub use literal::{character, heap_region, null, number};
pub use making::{Goal, array_made, handled, made};
pub use members::{arrow, member};
pub use name::variable;
pub use operator::{applied, condition, tested_both};
pub use prefix::prefixed;
pub use renaming::{argument, renamed_type};
pub use value::{Seat, Value, grouped};
