// Why a program is refused for its flow.

use thiserror::Error;

/// Why `flow` refuses a program. Positions are offsets in the text.
#[derive(Clone, Copy, Debug, Error)]
pub enum FlowFault {
    /// A local is used after its value was moved.
    #[error("the local at byte {0} was moved from")]
    Consumed(u32),
    /// A local is used while it is lent.
    #[error("the local at byte {0} is lent")]
    Lent(u32),
    /// A noncopyable value would be copied.
    #[error("the value at byte {0} can't be copied")]
    Copy(u32),
    /// No host memory is left.
    #[error("out of memory")]
    Memory,
}
