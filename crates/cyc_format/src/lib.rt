//! The text of a program in one layout.
//!
//! `format` lays a text out, and promises that it is the same text but for its white space: the tokens are the same, and so are the comments.
#![tactic(auto)]

mod class;
mod comments;
mod gaps;
mod laws;
mod layout;
mod lines;
mod mark;
mod measure;
mod pieces;
mod printer;
mod same;
mod scanner;
mod spaces;

pub use laws::kinds_are_spelled;
pub use layout::format;
