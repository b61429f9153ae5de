// Tables, and the parts of their rows.

use std::test::Fail;

/// Refuses a table with a row that isn't so, where there is one.
pub fn refuse(wrong_row: Option<&str>) -> Result<(), Fail> {
    match wrong_row {
        None => Ok(()),
        Some(row) => Err(Fail::new(row)),
    }
}

/// A text up to the first space, and behind it.
pub fn parted(text: &str) -> (&str, &str) {
    text.split_once(' ').unwrap_or((text, ""))
}

/// A number, or the greatest one where a text is none.
pub fn number_of(text: &str) -> u32 {
    text.parse().unwrap_or(u32::MAX)
}
