//! The names of a text by its tokens: what declares them, where they are visible, and where they are used.
//!
//! Works on texts that are no programs too, as they are while someone writes. `declaration_of` finds the token that declares the name at a
//! token, `uses_of` all tokens that a declaration has, `candidates` the names that may stand somewhere, `items` the items of a text, and
//! `pieces` its tokens also around what is none. Nothing rests on what they answer: no more is claimed than that each answers. Stands on
//! `cyc_lexer` and `token_reasons`.
#![tactic(auto)]

mod brackets;
mod declared;
mod displayed;
mod item_ranges;
mod lexed;
mod member_names;
mod resolved;
mod roles;
mod visible;

pub use brackets::{Fold, folds};
pub use declared::role_of;
pub use displayed::{Declaration, shown};
pub use item_ranges::{ItemRange, item_at, items, name_in};
pub use lexed::pieces;
pub use member_names::members;
pub use resolved::{declaration_of, uses_of};
pub use roles::Role;
pub use visible::candidates;
