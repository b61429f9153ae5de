//! The laws of a store of regions over an arena, as definitions: what a store holds, as numbers
//! alone, and what each call makes of it.
//!
//! specs/Lawful has what any lawful store may do, specs/Laws the same with Full exactly where the
//! counts of pages say so. `refused_by_count` and `live_blocks` are laws on lists of calls, and
//! `room_for` and `class_for` say how many bytes a block takes. `BASE` is the arena's first address,
//! and `PAGE` the bytes of a page. Who stands on this crate meets no store. Stands on nothing but
//! `thiserror`.
#![tactic(auto)]

mod laws;
mod owner;
mod refusal;
mod sizes;
mod standing;

pub use laws::{live_blocks, refused_by_count};
pub use owner::Owner;
pub use refusal::StoreRefusal;
pub use sizes::{BASE, LIMIT, PAGE, class_for, room_for, run_for};
pub use standing::Standing;
