// Why a unique block's call was refused.

use thiserror::Error;

/// Why a call was refused. After a refusal everything is as it was.
#[derive(Clone, Copy, PartialEq, Eq, Debug, Drop, Error)]
pub enum UniqueRefusal {
    /// The block is above 4,096 bytes, or a page is needed and none is free.
    #[error("Full")]
    Full,
    /// No live unique block begins at the address.
    #[error("NotABlock")]
    NotABlock,
}
