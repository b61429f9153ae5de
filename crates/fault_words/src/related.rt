// Places that have to do with a fault.

use std::alloc::{AllocError, Global};

/// A place that has to do with a fault: an offset of the text, where a name is declared or a bracket stands.
#[derive(Clone, Copy)]
pub struct Related {
    pub at: u32,
    /// Where what it is begins and ends among the words of all.
    from: usize,
    to: usize,
}

/// The places that the words on a fault name, each once, with what they are.
pub struct RelatedPlaces {
    pub all: Vec<Related>,
    /// What they are, one behind another.
    words: Vec<u8>,
}

// Written out, so that a caller's proof sees one call and not the drop of each field.
impl Drop for RelatedPlaces {
    fn drop(self) {
        let RelatedPlaces {
            all: _all,
            words: _words,
        } = self;
    }
}

impl RelatedPlaces {
    /// None.
    pub(crate) fn none(alloc: Global) -> RelatedPlaces {
        RelatedPlaces {
            all: Vec::new(alloc),
            words: Vec::new(alloc),
        }
    }

    /// What a place is.
    pub fn words_of(&self, place: Related) -> &[u8] {
        self.words.get(place.from..place.to).unwrap_or(&[])
    }

    /// Whether a place is among them.
    fn has(&self, at: u32) -> bool {
        for place in self.all.iter() {
            if place.at == at {
                return true;
            }
        }
        false
    }

    /// Adds a place, where it isn't among them: what it is are words and a name behind them. Fails only where no host memory is left.
    pub(crate) fn add(&mut self, at: u32, said: &str, name: &[u8]) -> Result<(), AllocError> {
        if self.has(at) {
            return Ok(());
        }
        let from = self.words.len();
        self.words.extend_from_slice(said.as_bytes())?;
        self.words.extend_from_slice(name)?;
        let to = self.words.len();
        self.all.push(Related { at, from, to })?;
        Ok(())
    }
}
