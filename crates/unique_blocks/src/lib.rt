//! Unique blocks over a pool of regions: a block that is freed alone, in a slot of one of eight
//! lengths from 32 to 4,096 bytes.
//!
//! `UniqueBlocks` takes whole pages of a `Pool` and cuts them into slots. It takes no memory of its
//! own: which slots are live is kept in the pages' headers. Blocks never meet, nor do they meet a
//! region's; a page of slots stays with its length. The pool's own calls go on beside. Each call's
//! contract is its law in `arena_laws`; docs/STORES.md has the rules and the layout of a header.
//! Stands on `region_runtime`, `raw_pages`, `arena_laws` and `thiserror`.
#![tactic(auto)]

mod blocks;
mod class;
mod refusal;
mod slots;

pub use blocks::UniqueBlocks;
pub use refusal::UniqueRefusal;
