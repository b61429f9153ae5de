//! Dynamic regions and their keys, over regions that each have a tag: a key is closed when it is
//! made, is opened and closed, and is freed with its blocks and pages while it is closed.
//!
//! `Keys` is over anything that has `Regions`, as `region_runtime`'s `Pool` does, and passes unique
//! blocks on where there are `Blocks`, as `unique_blocks`' `UniqueBlocks` has them. It takes no
//! memory of its own: a key's state is its region's tag. Each call's contract is its law in
//! `arena_laws`, and a refused call changes nothing. Stands on `unique_blocks`, `region_runtime`,
//! `arena_laws` and `thiserror`.
#![tactic(auto)]

mod blocks;
mod key;
mod keys;
mod refusal;
mod regions;
mod unique;

pub use blocks::Blocks;
pub use key::Key;
pub use keys::Keys;
pub use refusal::KeyRefusal;
pub use regions::Regions;
