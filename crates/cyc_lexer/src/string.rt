// What a string means.

ghost use Rattle.std.specs.Prelude.{◌≡◌, ℕ, List, IfOk};
ghost use Rattle.cyc_lexer.specs.Spelling.{IsText, text_bytes};

use crate::characters::character_at;
use std::alloc::{AllocError, Global};

/// The bytes that a string means, without the final 0, from its spelling with both quotes. Of bytes that
/// spell no string, what its characters mean up to the first that is none.
///
/// Fails only where no host memory is left.
pub fn string_bytes(alloc: Global, spelling: &[u8]) -> Result<Vec<u8>, AllocError>
    ensures read { IfOk result (λ v. v.items ≡ text_bytes spelling.now) }
    ensures meant { (meant : List ℕ) → IsText spelling.now meant → IfOk result (λ v. v.items ≡ meant) }
{
    let mut bytes = Vec::new(alloc);
    let end = spelling.len().saturating_sub(1);
    let mut at = 1usize;
    while at < end {
        let Some((byte, length)) = character_at(b'"', &spelling[at..end]) else {
            break;
        };
        bytes.push(byte)?;
        at += length;
    }
    Ok(bytes)
}

/// A law, with nothing to run: the bytes of a string's spelling are those that the spelling means.
pub fn bytes_are_meant()
    ensures { (spelling bytes : List ℕ) → IsText spelling bytes → text_bytes spelling ≡ bytes }
{}
