//! Where in its text a watched run stopped, and in which calls; and where in its code a text's functions, checks and calls are.
//!
//! `trace` gives the lines of `run --where`, `eval_trace` those of `eval --where`, `image_trace` those of an image without its text, and `map`
//! those of `compile --map`. A text is lowered once more for it: `positions` of `rv32_layout` says where in the code its statements, raises and calls begin,
//! and `Points` finds the functions, raises and calls of the code by their instructions. `values_of` says what an active function held: what it was passed is
//! what its caller stored behind the first word of its frame, and its names, in the order of `locals_of`, are in the registers and the words of its frame
//! that `spots_of` gives. No clause says that a position or a value is the right one. `Moved` lists the
//! words of an image that are addresses of its data or stack.
#![tactic(auto)]

mod causes;
mod evaluations;
mod exhausted;
mod extents;
mod held;
mod lines;
mod locals;
mod mapping;
mod moved;
mod naming;
mod nulls;
mod points;
mod positions;
mod program;
mod spots;
mod text;
mod told;
mod values;

pub use evaluations::{End, eval_trace};
pub use exhausted::Arena;
pub use held::held_lines;
pub use lines::{Stopped, image_trace, trace};
pub use mapping::map;
