// Why lines or globals have no bytes.

ghost use Rattle.std.specs.Prelude.{◌≡◌};
ghost use Rattle.rv32_layout.specs.declared.fault.LayoutFault.TheVariants.{Memory};

use std::alloc::AllocError;
use thiserror::Error;

/// Why `place` refuses lines, or `data` globals.
#[derive(Clone, Copy, Debug, Error)]
pub enum LayoutFault {
    /// There would be over 1,048,576 bytes.
    #[error("the code or the data would be over 1,048,576 bytes")]
    TooLarge,
    /// No host memory is left.
    #[error("out of memory")]
    Memory,
}

impl From<AllocError> for LayoutFault {
    ghost from_gives = { λ _ fault. fault ≡ Memory };

    fn from(_error: AllocError) -> LayoutFault {
        LayoutFault::Memory
    }
}
