// The tokens of a text.

ghost use Rattle.std.specs.Prelude.{◌≡◌, ℕ, ◌≤◌, ◌⊎◌, List, length, map, IfOk, MatchResult};
ghost use Rattle.cyc_lexer.specs.Lexing.{Token as TokenTree, AreTokens, text_limit};
ghost use Rattle.cyc_lexer.specs.Tokens.{token_tree, IsRefusedAt};

use crate::fault::LexFault;
use crate::gaps::gap_length;
use crate::scan::next_token;
use crate::token::Token;
use std::alloc::Global;

// A text of more bytes is refused whole.
const TEXT_LIMIT: usize = 1_048_576;

/// The tokens of a text, in order: spaces and comments stand between them, and each is the longest that
/// begins at its place. Offsets are in bytes, from 0 on, and each token's bytes are a part of the text.
///
/// Fails with `Lex` at the first token or comment that is none, by the offset of its first byte, and with
/// `Lex(0)` for a text of over 1,048,576 bytes; with `Memory` where no host memory is left.
pub fn tokens<'a>(alloc: Global, text: &'a [u8]) -> Result<Vec<Token<'a>>, LexFault>
    ensures found { IfOk result (λ v. AreTokens text.now (map token_tree v.items) × (length text.now ≤ text_limit)) }

    // The list of tokens that a text has is answered, unless no memory is left.
    ensures only { (ts : List TokenTree) → length text.now ≤ text_limit → AreTokens text.now ts
        → MatchResult result (λ v. map token_tree v.items ≡ ts) (λ fault. fault ≡ LexFault.Memory) }
    ensures fault { (at : ℕ) → result ≡ Err (LexFault.Lex at) → IsRefusedAt text.now at }

    // The place where a text is refused is answered, unless no memory is left.
    ensures refused { (at : ℕ) → IsRefusedAt text.now at
        → MatchResult result (λ v. ⊥) (λ fault. (fault ≡ LexFault.Lex at) ⊎ (fault ≡ LexFault.Memory)) }
{
    if text.len() > TEXT_LIMIT {
        return Err(LexFault::Lex(0));
    }
    let mut found = Vec::new(alloc);
    let mut at = 0usize;
    while at < text.len() {
        let rest = &text[at..];
        if let Some(length) = gap_length(rest) {
            at += length;
        } else if let Some((kind, length)) = next_token(rest) {
            found.push(Token {
                kind,
                at: at as u32,
                text: &rest[..length],
            })?;
            at += length;
        } else {
            return Err(LexFault::Lex(at as u32));
        }
    }
    Ok(found)
}
