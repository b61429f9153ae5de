// Why a struct or union isn't declared, and why a type has no layout.

ghost use Rattle.std.specs.Prelude.{◌≡◌};
ghost use Rattle.cyc_types.specs.declared.fault.SizeFault.TheVariants as size;
ghost use Rattle.cyc_types.specs.declared.fault.TableFault.TheVariants.{Memory};

use std::alloc::{AllocError, AllocFailed};
use thiserror::Error;

/// Why `Tables::add` refuses a struct or union.
#[derive(Clone, Copy, Debug, Error)]
pub enum TableFault {
    /// A struct or union of the name is declared already.
    #[error("the name is declared already")]
    Again,
    /// A member is a struct or union that isn't declared.
    #[error("a member isn't declared")]
    Undeclared,
    /// No host memory is left.
    #[error("out of memory")]
    Memory,
}

impl<T: Drop> From<AllocFailed<T>> for TableFault {
    ghost from_gives = { λ _ fault. fault ≡ Memory };

    fn from(_error: AllocFailed<T>) -> TableFault {
        TableFault::Memory
    }
}

impl From<AllocError> for TableFault {
    ghost from_gives = { λ _ fault. fault ≡ Memory };

    fn from(_error: AllocError) -> TableFault {
        TableFault::Memory
    }
}

/// Why `layout` refuses a type.
#[derive(Clone, Copy, Debug, Error)]
pub enum SizeFault {
    /// The type has over 4,096 bytes.
    #[error("the type is too large")]
    Size,
    /// No host memory is left.
    #[error("out of memory")]
    Memory,
}

impl From<AllocError> for SizeFault {
    ghost from_gives = { λ _ fault. fault ≡ size.Memory };

    fn from(_error: AllocError) -> SizeFault {
        SizeFault::Memory
    }
}
