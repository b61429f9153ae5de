// Why tokens are no program.

ghost use Rattle.std.specs.Prelude.{◌≡◌};
ghost use Rattle.cyc_parser.specs.declared.fault.ParseFault.TheVariants.{Memory};

use std::alloc::{AllocError, AllocFailed};
use thiserror::Error;

/// Why `parse` refuses tokens. Positions are offsets in the text; the end of the text is 4,294,967,295.
#[derive(Clone, Copy, Debug, Error)]
pub enum ParseFault {
    /// The first token with which the tokens so far begin no program, or the end of the text; if there are more tokens than a text has,
    /// the first one after these.
    #[error("Parse")]
    Parse(u32),
    /// The first token that over 256 phrases contain.
    #[error("TooDeep")]
    TooDeep(u32),
    /// No host memory is left.
    #[error("out of memory")]
    Memory,
}

/// What reading a phrase gives: its tree, or why there is none.
pub type Parsed<T> = Result<T, ParseFault>;

impl From<AllocError> for ParseFault {
    ghost from_gives = { λ _ fault. fault ≡ Memory };

    fn from(_error: AllocError) -> ParseFault {
        ParseFault::Memory
    }
}

impl<T: Drop> From<AllocFailed<T>> for ParseFault {
    ghost from_gives = { λ _ fault. fault ≡ Memory };

    fn from(_error: AllocFailed<T>) -> ParseFault {
        ParseFault::Memory
    }
}
