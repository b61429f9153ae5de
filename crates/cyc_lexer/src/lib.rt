//! From a text to its tokens.
//!
//! `tokens` answers the one list of tokens of a text, each the longest at its place, or the place of
//! the first token or comment that is none. `place_of` turns an offset into a line and a column.
//! The rules are in specs/. Stands on `thiserror`.
#![tactic(auto)]

mod bytes;
mod characters;
mod fault;
mod gaps;
mod number;
mod place;
mod scan;
mod signs;
mod string;
mod text;
mod token;
mod words;

pub use fault::LexFault;
pub use place::place_of;
pub use string::{bytes_are_meant, string_bytes};
pub use text::tokens;
pub use token::{Keyword, Sign, Token, TokenKind};
