// Why a pool's call was refused.

use thiserror::Error;

/// Why a call was refused. After a refusal the pool is as it was.
#[derive(Clone, Copy, PartialEq, Eq, Debug, Drop, Error)]
pub enum Refusal {
    /// The block is above 1,048,576 bytes, a page is needed and none is free, or a run of pages and too
    /// few were never used.
    #[error("Full")]
    Full,
    /// The handle is of no live region. Looked for first.
    #[error("BadHandle")]
    BadHandle,
}
