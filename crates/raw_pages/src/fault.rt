// Why no pages were made.

use thiserror::Error;

/// Why no pages were made.
#[derive(Clone, Copy, Debug, Drop, Error)]
pub enum PagesFault {
    /// The allocator refused.
    #[error("Memory")]
    Memory,
    /// The number of pages isn't 1 to 4,096. Looked for first.
    #[error("Pages")]
    Pages,
}
