// Edits that mend a fault.

use std::alloc::{AllocError, Global};

/// An edit of a text: what stands between two offsets is replaced.
#[derive(Clone, Copy)]
pub struct Edit {
    pub begin: u32,
    pub end: u32,
    /// Where the new text begins and ends among those of its cure.
    from: usize,
    to: usize,
}

/// The edits that mend a fault together; none, where it isn't known what does.
pub struct Cure {
    pub edits: Vec<Edit>,
    /// The new texts, one behind another.
    texts: Vec<u8>,
}

// Written out, so that a caller's proof sees one call and not the drop of each field.
impl Drop for Cure {
    fn drop(self) {
        let Cure {
            edits: _edits,
            texts: _texts,
        } = self;
    }
}

impl Cure {
    /// No edits.
    pub fn none(alloc: Global) -> Cure {
        Cure {
            edits: Vec::new(alloc),
            texts: Vec::new(alloc),
        }
    }

    /// What an edit puts in place of what stood there.
    pub fn text_of(&self, edit: Edit) -> &[u8] {
        self.texts.get(edit.from..edit.to).unwrap_or(&[])
    }

    /// Adds an edit. Fails only where no host memory is left.
    pub fn add(&mut self, begin: u32, end: u32, text: &[u8]) -> Result<(), AllocError> {
        let from = self.texts.len();
        self.texts.extend_from_slice(text)?;
        let to = self.texts.len();
        self.edits.push(Edit {
            begin,
            end,
            from,
            to,
        })?;
        Ok(())
    }

    /// Takes back all edits: one that goes with them isn't known.
    pub fn give_up(&mut self) {
        self.edits.clear();
    }
}
