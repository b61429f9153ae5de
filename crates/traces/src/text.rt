// A text, with the positions of its offsets and the names of its functions.

use crate::positions::Positions;
use accepted_programs::Checked;
use cyc_core::Origin;
use cyc_tree::{Function, Item};
use cycc_driver::{CompileFault, Place, front};
use std::alloc::{AllocError, Global};

/// An accepted text.
#[derive(Drop)]
pub struct Text {
    checked: Checked,
    positions: Positions,
}

impl Text {
    /// What these bytes are; none where they aren't accepted.
    pub fn of(alloc: Global, bytes: &[u8]) -> Result<Option<Text>, AllocError> {
        let checked = match front(alloc, bytes) {
            Ok(checked) => checked,
            Err(CompileFault::Memory) => return Err(AllocError),
            Err(_) => return Ok(None),
        };
        Ok(Some(Text {
            positions: Positions::of(alloc, bytes)?,
            checked,
        }))
    }

    /// Its program.
    pub fn checked(&self) -> &Checked {
        &self.checked
    }

    /// The position of an offset.
    pub fn place(&self, origin: Origin) -> Place {
        self.positions.place(origin)
    }

    /// The function with a number.
    pub fn function(&self, number: usize) -> Option<&Function> {
        let mut left = number;
        for item in self.checked.program().items() {
            if let Item::Function(declared) = item {
                if left == 0 {
                    return Some(declared);
                }
                left -= 1;
            }
        }
        None
    }

    /// The names of the functions, by their numbers.
    pub fn names(&self, alloc: Global) -> Result<Vec<&str>, AllocError> {
        let mut names = Vec::new(alloc);
        for item in self.checked.program().items() {
            if let Item::Function(declared) = item {
                names.push(std::str::from_utf8(&declared.name.text).unwrap_or(""))?;
            }
        }
        Ok(names)
    }
}

/// The name of the function with a number.
pub fn name_of<'a>(names: &[&'a str], function: usize) -> &'a str {
    names.get(function).copied().unwrap_or("")
}
