// The positions of the offsets of a text.

use cyc_core::Origin;
use cycc_driver::Place;
use std::alloc::{AllocError, Global};

/// Where the lines of a text begin, so that the position of an offset is found without reading the text again.
#[derive(Drop)]
pub struct Positions {
    starts: Vec<u32>,
}

impl Positions {
    /// Those of a text.
    pub fn of(alloc: Global, text: &[u8]) -> Result<Positions, AllocError> {
        let mut starts = vec![in alloc; 0u32; 1]?;
        let mut next = 0u32;
        for byte in text {
            next = next.wrapping_add(1);
            if *byte == b'\n' {
                starts.push(next)?;
            }
        }
        Ok(Positions { starts })
    }

    /// The position of an offset.
    pub fn place(&self, origin: Origin) -> Place {
        let offset = origin.0;
        let line = match self.starts.binary_search(&offset) {
            Ok(line) => line,
            Err(next) => next.saturating_sub(1),
        };
        let start = self.starts.get(line).copied().unwrap_or(0);
        Place {
            line: u32::try_from(line).unwrap_or(u32::MAX).saturating_add(1),
            column: offset.wrapping_sub(start).wrapping_add(1),
        }
    }
}
