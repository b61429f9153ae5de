// Whether two texts are one but for their layout.

ghost use Rattle.std.specs.Prelude.{◌≡◌, ◌-◌, true, map, take, drop, IfSome};
ghost use Rattle.cyc_lexer.specs.Tokens.{token_tree};
ghost use Rattle.cyc_format.specs.Comments.{comments_of, comments_around};
ghost use Rattle.cyc_format.specs.Layout.{spellings};

use crate::comments::{are_same, are_same_comments};
use cyc_lexer::Token;

/// The bytes of a text from one offset to another; none where the text has no such.
fn between(text: &[u8], at: usize, end: usize) -> Option<&[u8]>
    ensures { IfSome result (λ gap. gap.now ≡ take (end - at) (drop at text.now)) }
{
    if at <= end && end <= text.len() {
        Some(&text[at..end])
    } else {
        None
    }
}

/// Whether the same comments stand in two texts from one offset to another.
fn are_same_between(text: &[u8], at: usize, end: usize, out: &[u8], to: usize, stop: usize) -> bool
    ensures { result ≡ true → comments_of (take (end - at) (drop at text.now)) ≡ comments_of (take (stop - to) (drop to out.now)) }
{
    match (between(text, at, end), between(out, to, stop)) {
        (Some(gap), Some(space)) => are_same_comments(gap, space),
        _ => false,
    }
}

/// Whether the same comments stand in two texts from an offset to the end.
fn are_same_after(text: &[u8], at: usize, out: &[u8], to: usize) -> bool
    ensures { result ≡ true → comments_of (drop at text.now) ≡ comments_of (drop to out.now) }
{
    at <= text.len() && to <= out.len() && are_same_comments(&text[at..], &out[to..])
}

/// Whether two texts with these tokens have the same tokens and comments.
pub(crate) fn is_same(text: &[u8], found: &[Token<'_>], out: &[u8], others: &[Token<'_>]) -> bool
    ensures tokens { result ≡ true → spellings (map token_tree found.now) ≡ spellings (map token_tree others.now) }
    ensures comments { result ≡ true → comments_around 0 text.now (map token_tree found.now) ≡ comments_around 0 out.now (map token_tree others.now) }
{
    if found.len() != others.len() {
        return false;
    }
    let mut at = 0usize;
    let mut to = 0usize;
    'tokens: for i in 0..found.len() {
        let token = &found[i];
        let other = &others[i];
        if !are_same(token.text, other.text)
            || !are_same_between(text, at, token.at as usize, out, to, other.at as usize)
        {
            return false;
        }
        at = token.at as usize + token.text.len();
        to = other.at as usize + other.text.len();
    }
    are_same_after(text, at, out, to)
}
