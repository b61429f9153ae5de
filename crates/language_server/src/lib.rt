//! The language server: what it answers to each message of an editor.
//!
//! `Server::serve` answers one message. A request gets one response with its id, which is a result or an error of the protocol; a notification
//! gets none, and what is no message one error. Only notifications change texts. `Server::wanted` names
//! a file that a text's source has, and `Server::supply` takes it. What it says of texts is of `editor_features`, and how messages are written of
//! `editor_protocol`.
#![tactic(auto)]

mod methods;
mod notes;
mod server;

pub use editor_features::{Document, File, Method};
pub use methods::Phase;
pub use server::Server;
