// Why a program is refused before its flow is looked at.

use check_faults::Fault;
use thiserror::Error;

/// Why `effects` refuses a program.
#[derive(Clone, Copy, Debug, Error)]
pub enum CheckFault {
    /// The earliest fault of names, types, regions and effects.
    #[error("{kind} at byte {at}", kind = .0.kind, at = .0.at)]
    Broken(Fault),
    /// No host memory is left.
    #[error("out of memory")]
    Memory,
}
