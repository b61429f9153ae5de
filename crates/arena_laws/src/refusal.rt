// Why a store's call was refused.

use thiserror::Error;

/// Why a call was refused. After a refusal the store is as it was.
#[derive(Clone, Copy, Debug, Drop, Error)]
pub enum StoreRefusal {
    /// The block is too long (a region's above 1,048,576 bytes, a unique one above 4,096), a page is
    /// needed and none is free, or a run of pages and too few were never used.
    #[error("Full")]
    Full,
    /// The number is no handle: of no live region, nor of an open key where a block is asked for.
    #[error("BadHandle")]
    BadHandle,
    /// No live unique block begins at the address.
    #[error("NotABlock")]
    NotABlock,
    /// The number is no live key's.
    #[error("BadKey")]
    BadKey,
    /// The key is open.
    #[error("Open")]
    Open,
    /// The key isn't open.
    #[error("NotOpen")]
    NotOpen,
    /// The store lacks host memory.
    #[error("Memory")]
    Memory,
}
