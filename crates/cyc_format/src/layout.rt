// Layout that is checked.

ghost use Rattle.std.specs.Prelude.{◌≡◌, ℕ, ◌⊎◌, map, true, IfOk, MatchResult};
ghost use Rattle.cyc_lexer.specs.Lexing.{AreTokens};
ghost use Rattle.cyc_lexer.specs.Tokens.{token_tree, IsRefusedAt};
ghost use Rattle.cyc_format.specs.Layout.{IsLaidOut};

use crate::measure::measures_of;
use crate::pieces::pieces_of;
use crate::printer::{Pieces, printed};
use crate::same::is_same;
use crate::scanner::marks_of;
use cyc_lexer::{LexFault, Token, tokens};
use std::alloc::{AllocError, Global};

/// A new layout of a text with these tokens. Nothing is promised of it.
fn laid_out(alloc: Global, text: &[u8], found: &[Token<'_>]) -> Result<Vec<u8>, AllocError> {
    let pieces = pieces_of(alloc, text, found)?;
    let marks = marks_of(alloc, &pieces)?;
    let measures = measures_of(alloc, &pieces, &marks)?;
    let given = Pieces {
        pieces: &pieces,
        marks: &marks,
        measures: &measures,
    };
    printed(alloc, given)
}

/// Whether a text is another one with these tokens in a new layout.
fn is_layout(
    alloc: Global,
    text: &[u8],
    found: &[Token<'_>],
    out: &[u8],
) -> Result<bool, AllocError>
    requires { AreTokens text.now (map token_tree found.now) }
    ensures { IfOk result (λ same. same ≡ true → IsLaidOut text.now out.now) }
{
    match tokens(alloc, out) {
        Ok(others) => Ok(is_same(text, found, out, &others)),
        Err(LexFault::Memory) => Err(AllocError),
        Err(LexFault::Lex(_)) => Ok(false),
    }
}

/// A text with these tokens laid out, or as it is.
fn checked(alloc: Global, text: &[u8], found: &[Token<'_>]) -> Result<Vec<u8>, AllocError>
    requires { AreTokens text.now (map token_tree found.now) }
    ensures { IfOk result (λ out. IsLaidOut text.now out.items) }
{
    let out = laid_out(alloc, text, found)?;
    if is_layout(alloc, text, found, &out)? {
        Ok(out)
    } else {
        text.to_vec(alloc)
    }
}

/// The text in the one layout: the same tokens, and between them the same comments, but for white space at the ends of `//` comments.
///
/// The layout is made by code of which nothing is proved but that it ends and is safe. What comes of it is read again and compared with the text. Where
/// it is another text, or too long to be read, the text is answered as it was: `tools/format_check` looks whether that ever happens.
///
/// A token of the same spelling is of the same kind (`kinds_are_spelled`).
///
/// Fails as `tokens` does: with `Lex` at the first token or comment that is none, and with `Memory` where no host memory is left.
pub fn format(alloc: Global, text: &[u8]) -> Result<Vec<u8>, LexFault>
    ensures laid_out { IfOk result (λ out. IsLaidOut text.now out.items) }
    ensures fault { (at : ℕ) → result ≡ Err (LexFault.Lex at) → IsRefusedAt text.now at }
    ensures refused { (at : ℕ) → IsRefusedAt text.now at
        → MatchResult result (λ out. ⊥) (λ fault. (fault ≡ LexFault.Lex at) ⊎ (fault ≡ LexFault.Memory)) }
{
    let found = tokens(alloc, text)?;
    match checked(alloc, text, &found) {
        Ok(out) => Ok(out),
        Err(AllocError) => Err(LexFault::Memory),
    }
}
