// Comments at the front of bytes.

ghost use Rattle.std.specs.Prelude.{◌≡◌, ◌+◌, ◌≤◌, ◌<◌, length, IfSome};
ghost use Rattle.cyc_lexer.specs.Bytes.{is_space};
ghost use Rattle.cyc_lexer.specs.Reading.{run, is_no_line_end, comment_end, gap_at};

/// Whether a byte is white space: a space, or one of 9 to 13.
pub(crate) fn is_space(byte: u8) -> bool
    ensures { result ≡ is_space byte }
{
    byte == b' ' || (9 <= byte && byte <= 13)
}

/// How many bytes stand before the end of the line.
fn line_run(bytes: &[u8]) -> usize
    ensures run { result ≡ run is_no_line_end bytes.now }
    ensures within { result ≤ length bytes.now }
{
    for (i, byte) in bytes.iter().enumerate() {
        if *byte == b'\n' {
            return i;
        }
    }
    bytes.len()
}

/// The length up to and with the next `*/`.
fn comment_end(bytes: &[u8]) -> Option<usize>
    ensures length { result ≡ comment_end bytes.now }
    ensures within { IfSome result (λ n. n ≤ length bytes.now) }
{
    for i in 1..bytes.len() {
        if bytes[i - 1] == b'*' && bytes[i] == b'/' {
            return Some(i + 1);
        }
    }
    None
}

/// The length of the space or the comment at the front.
pub(crate) fn gap_length(bytes: &[u8]) -> Option<usize>
    ensures length { result ≡ gap_at bytes.now }
    ensures within { IfSome result (λ n. n ≤ length bytes.now) }
{
    match bytes {
        [b'/', b'/', rest @ ..] => Some(line_run(rest) + 2),
        [b'/', b'*', rest @ ..] => Some(comment_end(rest)? + 2),
        [first, ..] if is_space(*first) => Some(1),
        _ => None,
    }
}
