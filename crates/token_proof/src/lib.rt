//! What the grammar says of a program's tree, beyond the tree: how many tokens it takes at least, and
//! that operators have their operands.
//!
//! `tokens_pay` says that a text has a token for each piece that the bound on its code counts, and
//! `spelled_has_operands` that no text's tree is refused for lack of operands. There is no code but
//! these laws. Stands on the grammar of `source_grammar` and the bounds of `source_lowering`.
#![tactic(auto)]

mod laws;

pub use laws::{spelled_has_operands, tokens_pay};
