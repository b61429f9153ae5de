//! Regions of memory over a fixed number of pages, for firmware and runtimes: a region is made,
//! blocks are cut from it, and all of them are freed at once by two writes.
//!
//! `Pool::new` takes all memory that it ever takes, so no later call runs out of memory: a
//! call is refused where no page is free or a handle isn't live, and then nothing has changed. No
//! two live blocks meet, a freed page is never live, and no call but `store8` changes a byte. Whole
//! pages can be taken for a layer above, with twelve header words of its own each. Each call's
//! contract is its law in `arena_laws`; docs/STORES.md has the rules and the layout of a header.
//! Stands on `raw_pages`, `arena_laws` and `thiserror`.
#![tactic(auto)]

mod book;
mod handle;
mod joining;
mod pool;
mod refusal;
mod walk;

pub use handle::Handle;
pub use pool::Pool;
pub use refusal::Refusal;
