//! A store of regions over an arena: the trait with the laws of each call, and a plain store that
//! is read like them.
//!
//! `BlockStore` says what each call does, by the laws of `arena_laws`. `PlainStore` meets them by
//! tables that each call looks through, and `PagedStore` by keys over regions with unique blocks,
//! whose state is in headers of pages. Stands on `arena_laws`, `dynamic_region`, `unique_blocks`,
//! `region_runtime`, and on `raw_pages` for `PagesFault`.
#![tactic(auto)]

mod paged;
mod plain;
mod store;
mod tables;

pub use arena_laws::StoreRefusal;
pub use paged::PagedStore;
pub use plain::PlainStore;
pub use raw_pages::PagesFault;
pub use store::BlockStore;
