//! Pages of memory: sixteen header words each, and one payload of 4,096 bytes a page.
//!
//! A write changes its word, byte or range alone; `slice` is the payload's part. The payload is one
//! list of bytes, whose places are counted from 0. All lies in one block of the allocator, which is
//! cut by raw pointers in `block` and nowhere else. Stands on `thiserror` and std's `std_alloc`.
#![tactic(auto)]

mod block;
mod fault;
mod pages;

#[doc(hidden)]
pub use block::Block;
pub use fault::PagesFault;
pub use pages::RawPages;
