//! What an editor and its server write to one another: the frames of the base protocol, the messages of JSON-RPC, and positions in texts.
//!
//! `frame_at` finds the first message in bytes that were read, `read` says what a message is, and `Message::framed` writes one with its header.
//! `offset_at` and `position_at` turn positions, which count in UTF-16, into offsets and back, and `replaced` does an edit. `JsonText` writes
//! values of JSON piece by piece. Stands on `serde_json`.
#![tactic(auto)]

mod edits;
mod frames;
mod incoming;
mod json_text;
mod messages;
mod positions;

pub use edits::replaced;
pub use frames::{Frame, LONGEST_BODY, frame_at};
pub use incoming::{Incoming, read};
pub use json_text::JsonText;
pub use messages::{Code, Message, Outcome};
pub use positions::{Position, line_begin, offset_at, position_at};
