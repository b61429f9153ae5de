// Positions: a line and a column, from 0 on. Columns count in units of UTF-16.

ghost use Rattle.std.specs.Prelude.{◌≤◌, length};

/// A line and a column, from 0 on.
#[derive(Clone, Copy)]
pub struct Position {
    pub line: u32,
    pub character: u32,
}

/// How many units of UTF-16 begin at a byte of UTF-8.
fn units(byte: u8) -> u32 {
    match byte {
        0x80..=0xbf => 0,
        0xf0..=0xff => 2,
        _ => 1,
    }
}

/// Where a line begins, by its number from 0 on; the text's end, where there is no such line.
pub fn line_begin(text: &[u8], line: u32) -> usize
    ensures { result ≤ length text.now }
{
    let mut left = line;
    for (index, byte) in text.iter().enumerate() {
        if left == 0 {
            return index;
        }
        if *byte == b'\n' {
            left = left.saturating_sub(1);
        }
    }
    text.len()
}

/// The first byte in a line, given with the rest of its text, at or behind a column; the line's end, where it is shorter.
fn column_offset(rest: &[u8], character: u32) -> usize
    ensures { result ≤ length rest.now }
{
    let mut column = 0u32;
    for (index, byte) in rest.iter().enumerate() {
        let is_end = *byte == b'\n' || *byte == b'\r';
        if is_end || (column >= character && units(*byte) > 0) {
            return index;
        }
        column = column.saturating_add(units(*byte));
    }
    rest.len()
}

/// The offset of a position; past a line's end that of its end, and past the text's end that of its end.
pub fn offset_at(text: &[u8], position: Position) -> usize
    ensures { result ≤ length text.now }
{
    let begin = line_begin(text, position.line);
    begin + column_offset(&text[begin..], position.character)
}

/// The position of an offset.
pub fn position_at(text: &[u8], offset: usize) -> Position {
    let before = text.get(..offset).unwrap_or(text);
    let mut position = Position {
        line: 0,
        character: 0,
    };
    for byte in before {
        if *byte == b'\n' {
            position.line = position.line.saturating_add(1);
            position.character = 0;
        } else {
            position.character = position.character.saturating_add(units(*byte));
        }
    }
    position
}
