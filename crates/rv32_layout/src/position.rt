// Where in the code the statements of the source begin.

use crate::fault::LayoutFault;
use crate::length::size;
use crate::relaxed::relax;
use core_lines::Line;
use cyc_core::Origin;
use rv32_select::{Labelled, Start};
use std::alloc::{AllocError, Global};

/// Where in the code that begins which stands at an origin of the text: it goes on to where the next one begins.
#[derive(Clone, Copy)]
pub struct Position {
    /// The offset of its first instruction, in bytes from the first of the code on.
    pub offset: u32,
    pub origin: Origin,
}

/// The walk over the lines: the starts to come, and the offset of the next line.
#[derive(Clone, Copy)]
struct Walk<'s> {
    starts: &'s [Start],
    offset: u32,
}

impl Walk<'_> {
    /// The origin of what begins at a line, if something does. It is gone then.
    fn begun(&mut self, line: usize) -> Option<Origin> {
        let (first, others) = self.starts.split_first()?;
        if first.line != line {
            return None;
        }
        self.starts = others;
        Some(first.origin)
    }
}

/// Where in the code of lines what begins there does.
fn walked(alloc: Global, lines: &[Line], starts: &[Start]) -> Result<Vec<Position>, AllocError> {
    let mut walk = Walk { starts, offset: 0 };
    let mut positions = Vec::new(alloc);
    for (number, line) in lines.iter().enumerate() {
        if let Some(origin) = walk.begun(number) {
            let offset = walk.offset;
            positions.push(Position { offset, origin })?;
        }
        walk.offset = walk.offset.saturating_add(size(*line));
    }
    Ok(positions)
}

/// Where in the code of these lines the statements of the source, raises and calls begin, in the order of the code. Fails where the code is over the limit, as
/// `place` does, or no host memory is left.
pub fn positions(alloc: Global, labelled: &Labelled) -> Result<Vec<Position>, LayoutFault> {
    let relaxed = relax(alloc, labelled)?;
    Ok(walked(alloc, relaxed.lines.as_slice(), labelled.starts())?)
}
