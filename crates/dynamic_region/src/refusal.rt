// Why a call on a key was refused.

use thiserror::Error;

/// Why a call on a key was refused. After a refusal what is held is as it was.
#[derive(Clone, Copy, PartialEq, Eq, Debug, Drop, Error)]
pub enum KeyRefusal {
    /// No page is free.
    #[error("Full")]
    Full,
    /// The number is no live key's. Looked for first.
    #[error("BadKey")]
    BadKey,
    /// The key is open.
    #[error("Open")]
    Open,
    /// The key isn't open.
    #[error("NotOpen")]
    NotOpen,
}
