// The words that the system gives, also those that are no text.

ghost use Rattle.std.specs.Prelude.{◌≡◌, ◌∷◌, ◌++◌, [], IfOk, IsUtf8, string_bytes};
ghost use Rattle.std.specs.Str.Lossy.{utf8_lossy};

use clap::Error;
use std::alloc::{AllocError, AllocGlobal, Global};
use std::env::{Env, FillError};

/// The mark at the end of a word that is no text. The system gives no word with this character, and has no file with it.
const NO_TEXT: char = '\0';

/// How many bytes of a word are asked for at first.
const FIRST_BYTES: usize = 256;

/// The bytes of a word by its number; none after the last word.
fn bytes_of<R: Env + AllocGlobal>(rt: &R, number: usize) -> Result<Option<Vec<u8>>, AllocError> {
    let mut room = FIRST_BYTES;
    for _ in 0..usize::BITS {
        let mut bytes = vec![in rt.alloc(); 0u8; room]?;
        match rt.arg(number, bytes.as_mut_slice()) {
            Ok(length) => {
                bytes.truncate(length);
                return Ok(Some(bytes));
            }
            Err(FillError::NotPresent) => return Ok(None),
            Err(FillError::TooLong) => room = room.saturating_mul(2),
        }
    }
    Err(AllocError)
}

/// The text of a word. Of bytes that are no UTF-8 it has U+FFFD for each wrong sequence, and the mark at its end, so that it
/// is no other word's and no file's.
fn word_of(alloc: Global, bytes: &[u8]) -> Result<String, AllocError>
    ensures text { IfOk result (λ word. IsUtf8 bytes.now → string_bytes word ≡ bytes.now) }
    ensures marked { IfOk result (λ word. (IsUtf8 bytes.now → ⊥) → string_bytes word ≡ utf8_lossy bytes.now ++ 0 ∷ []) }
{
    let mut text = String::from_utf8_lossy(alloc, bytes)?;
    if std::str::from_utf8(bytes).is_err() {
        text.push(NO_TEXT)?;
    }
    Ok(text)
}

/// The words of the command line, of which the first is the program's name. Each is taken, whatever its bytes are: one that is
/// no UTF-8 is no number, no command, no option, and no file's path. Fails only where no host memory is left.
pub fn words_of<R: Env + AllocGlobal>(rt: &R) -> Result<Vec<String>, AllocError> {
    let mut words = Vec::new(rt.alloc());
    for number in 0..usize::MAX {
        match bytes_of(rt, number)? {
            Some(bytes) => words.push(word_of(rt.alloc(), &bytes)?)?,
            None => break,
        }
    }
    Ok(words)
}

/// A word as it is shown.
pub fn shown(word: &str) -> &str {
    word.trim_end_matches(NO_TEXT)
}

/// What is said behind a word that can't be a file's name since it is no UTF-8; nothing of another word.
pub fn why_no_name(word: &str) -> &str {
    if word.ends_with(NO_TEXT) {
        ": its name is no UTF-8"
    } else {
        ""
    }
}

/// Help, or what is wrong with the words, as it is shown.
pub fn shown_error(alloc: Global, error: &Error) -> Result<String, AllocError> {
    let text = format!(in alloc; "{error}")?;
    text.as_str().replace(alloc, NO_TEXT, "")
}
