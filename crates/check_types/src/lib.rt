//! Types as a text writes them, and what they are once their missing regions are found.
//!
//! What is said of them are the definitions of `source_typing`, on which it stands: a function here answers the verdict that the rules have.
//!
//! Each function that answers a `Result` fails only where no host memory is left.
#![tactic(auto)]

mod arguments;
mod base;
mod handles;
mod heading;
mod layer;
mod layers;
mod parameter;
mod reading;
mod settling;
mod tag_names;
mod tagged;
mod variables;

pub use arguments::written_arguments;
pub use base::{WrittenArguments, WrittenBase};
pub use heading::settled_alone;
pub use layer::WrittenLayer;
pub use settling::{WrittenLayers, WrittenType, settled};
pub use tag_names::{TagNames, tag_of_type};
pub use tagged::{TagName, misses_region_in, result_type_in, type_tag, written_in};
pub use variables::RegionVariables;
