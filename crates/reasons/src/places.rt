// Positions in a text, as offsets.

use cycc_driver::Place;

/// The offset of a position in a text; the text's end for one behind it.
pub(crate) fn offset_of(text: &[u8], place: Place) -> u32 {
    let mut at = 0u32;
    let mut line = 1u32;
    let mut column = 1u32;
    for byte in text {
        if line == place.line && column == place.column {
            return at;
        }
        if *byte == b'\n' {
            line = line.saturating_add(1);
            column = 1;
        } else {
            column = column.saturating_add(1);
        }
        at = at.saturating_add(1);
    }
    at
}

/// Positions of offsets that ascend: each is found from the one before it.
#[derive(Drop)]
pub(crate) struct Positions<'t> {
    text: &'t [u8],
    at: usize,
    place: Place,
}

/// Where a text begins.
const FIRST: Place = Place { line: 1, column: 1 };

/// The position behind a byte at a position.
fn behind(byte: u8, place: Place) -> Place {
    if byte == b'\n' {
        Place {
            line: place.line.saturating_add(1),
            column: 1,
        }
    } else {
        Place {
            line: place.line,
            column: place.column.saturating_add(1),
        }
    }
}

impl<'t> Positions<'t> {
    /// Those of a text.
    pub(crate) fn of(text: &'t [u8]) -> Self {
        Positions {
            text,
            at: 0,
            place: FIRST,
        }
    }

    /// The position of an offset; that of one past the end is after the last byte.
    pub(crate) fn place_of(&mut self, offset: u32) -> Place {
        let end = self.text.len().min(offset as usize);
        if end < self.at {
            self.at = 0;
            self.place = FIRST;
        }
        let text = self.text;
        for byte in text.get(self.at..end).unwrap_or(&[]) {
            self.place = behind(*byte, self.place);
        }
        self.at = end;
        self.place
    }
}
