// Bytes by their kinds.

ghost use Rattle.std.specs.Prelude.{◌≡◌, ◌≤◌, length};
ghost use Rattle.cyc_lexer.specs.Bytes.{is_space, is_letter, is_digit, is_octal_digit, is_hexadecimal_digit, is_word_byte, digit_value};
ghost use Rattle.cyc_lexer.specs.Reading.{run};

/// Whether a byte is white space: a space, or one of 9 to 13.
pub(crate) fn is_space(byte: u8) -> bool
    ensures { result ≡ is_space byte }
{
    byte == b' ' || (9 <= byte && byte <= 13)
}

/// Whether a byte is a letter or an underscore.
pub(crate) fn is_letter(byte: u8) -> bool
    ensures { result ≡ is_letter byte }
{
    byte == b'_' || (b'A' <= byte && byte <= b'Z') || (b'a' <= byte && byte <= b'z')
}

/// Whether a byte is a decimal digit.
pub(crate) fn is_digit(byte: u8) -> bool
    ensures { result ≡ is_digit byte }
{
    b'0' <= byte && byte <= b'9'
}

/// Whether a byte is an octal digit.
pub(crate) fn is_octal_digit(byte: u8) -> bool
    ensures { result ≡ is_octal_digit byte }
{
    b'0' <= byte && byte <= b'7'
}

/// Whether a byte is a hexadecimal digit.
pub(crate) fn is_hexadecimal_digit(byte: u8) -> bool
    ensures { result ≡ is_hexadecimal_digit byte }
{
    is_digit(byte) || (b'A' <= byte && byte <= b'F') || (b'a' <= byte && byte <= b'f')
}

/// Whether a byte may stand in a name.
fn is_word_byte(byte: u8) -> bool
    ensures { result ≡ is_word_byte byte }
{
    is_letter(byte) || is_digit(byte)
}

/// What a digit stands for.
pub(crate) fn digit_value(byte: u8) -> u8
    ensures { result ≡ digit_value byte }
{
    if is_digit(byte) {
        byte - b'0'
    } else if b'A' <= byte && byte <= b'F' {
        byte - 55
    } else {
        byte.saturating_sub(87)
    }
}

/// How many bytes at the front may stand in a name.
pub(crate) fn word_run(bytes: &[u8]) -> usize
    ensures run { result ≡ run is_word_byte bytes.now }
    ensures within { result ≤ length bytes.now }
{
    for (i, byte) in bytes.iter().enumerate() {
        if !is_word_byte(*byte) {
            return i;
        }
    }
    bytes.len()
}
