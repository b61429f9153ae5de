// Why a text has no tokens.

ghost use Rattle.std.specs.Prelude.{◌≡◌};
ghost use Rattle.cyc_lexer.specs.declared.fault.LexFault.TheVariants.{Memory};

use std::alloc::AllocFailed;
use thiserror::Error;

/// Why `tokens` refuses a text.
#[derive(Clone, Copy, Debug, Error)]
pub enum LexFault {
    /// The first token or comment that is none, by the offset of its first byte. Offset 0 for a text
    /// of over 1,048,576 bytes.
    #[error("Lex")]
    Lex(u32),
    /// No host memory is left.
    #[error("out of memory")]
    Memory,
}

impl<T: Drop> From<AllocFailed<T>> for LexFault {
    ghost from_gives = { λ _ fault. fault ≡ Memory };

    fn from(_failed: AllocFailed<T>) -> LexFault {
        LexFault::Memory
    }
}
