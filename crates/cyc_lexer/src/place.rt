// Lines and columns.

ghost use Rattle.std.specs.Prelude.{◌≡◌};
ghost use Rattle.cyc_lexer.specs.Places.{line_of, column_of};

/// The line and the column, from 1 on, of the byte at an offset of a text. An offset past the end counts
/// as the end, and a number too large for u32 is 4,294,967,295.
pub fn place_of(text: &[u8], at: u32) -> (u32, u32)
    ensures line { result.0 ≡ line_of text.now at }
    ensures column { result.1 ≡ column_of text.now at }
{
    let end = text.len().min(at as usize);
    let mut line = 1u32;
    let mut column = 1u32;
    for byte in &text[..end] {
        if *byte == b'\n' {
            line = line.saturating_add(1);
            column = 1;
        } else {
            column = column.saturating_add(1);
        }
    }
    (line, column)
}
