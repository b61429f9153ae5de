//! What was found at a fault and what was wanted, in words: by the checker's own judgements around a place.
//!
//! `walk_to` goes through a function up to a place, with the names and regions that are in scope there. `Told` says of a fault what the types of the
//! parts are, with their regions, and what would fit; `say_name` the nearest known name; `say_head`, `say_grammar` and `say_bytes` what is wrong in a head,
//! in the order of tokens and in bytes. All write `Words`, with the edits that these tell and the places that they name. `push_marked` shows a line
//! with a mark below a position. Nothing rests on the words. No more is claimed than that each answers, or that no host memory is left. Stands on
//! `token_reasons` and on the checker.
#![tactic(auto)]

mod called;
mod cures;
mod grammar;
mod heads;
mod labels;
mod lexical;
mod marked;
mod near_names;
mod nodes;
mod order;
mod paired;
mod placed;
mod printed;
mod redeclared;
mod related;
mod suffixed;
mod unions;
mod used;
mod walk;
mod words;

pub use cures::{Cure, Edit};
pub use grammar::say_grammar;
pub use heads::say_head;
pub use labels::Labels;
pub use lexical::say_bytes;
pub use marked::push_marked;
pub use near_names::say_name;
pub use printed::{say_region, say_type};
pub use related::{Related, RelatedPlaces};
pub use used::Told;
pub use walk::{Here, Walk, item_at, walk_behind, walk_to};
pub use words::{Reason, Words};
