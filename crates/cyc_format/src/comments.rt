// The comments among white space.

ghost use Rattle.std.specs.Prelude.{◌≡◌, ◌∷◌, [], ◌<◌, true, length, MatchOption};
ghost use Rattle.cyc_format.specs.Comments.{stripped, comments_of};

use crate::gaps::{gap_length, is_space};

/// A comment without the white space at its end.
pub(crate) fn stripped(comment: &[u8]) -> &[u8]
    ensures { result.now ≡ stripped comment.now }
{
    let mut end = 0usize;
    for (i, byte) in comment.iter().enumerate() {
        if !is_space(*byte) {
            end = i + 1;
        }
    }
    &comment[..end]
}

/// The first comment among white space and comments, stripped, and the bytes after it.
fn first_comment(bytes: &[u8]) -> Option<(&[u8], &[u8])>
    ensures listed { MatchOption result (comments_of bytes.now ≡ []) (λ p. comments_of bytes.now ≡ p.0.now ∷ comments_of p.1.now) }
    ensures shorter { MatchOption result (Unit {0}) (λ p. length p.1.now < length bytes.now) }
{
    for (i, byte) in bytes.iter().enumerate() {
        if !is_space(*byte) {
            let rest = &bytes[i..];
            return match gap_length(rest) {
                Some(length) => Some((stripped(&rest[..length]), &rest[length..])),
                None => None,
            };
        }
    }
    None
}

/// Whether bytes are the same.
pub(crate) fn are_same(bytes: &[u8], others: &[u8]) -> bool
    ensures { result ≡ true → bytes.now ≡ others.now }
{
    bytes == others
}

/// Whether the same comments stand among white space here and there.
pub(crate) fn are_same_comments(here: &[u8], there: &[u8]) -> bool
    ensures { result ≡ true → comments_of here.now ≡ comments_of there.now }
{
    let mut rest = here;
    let mut other = there;
    'comments: loop {
        match (first_comment(rest), first_comment(other)) {
            (None, None) => return true,
            (Some((comment, after)), Some((twin, behind))) => {
                if !are_same(comment, twin) {
                    return false;
                }
                rest = after;
                other = behind;
            }
            _ => return false,
        }
    }
}
