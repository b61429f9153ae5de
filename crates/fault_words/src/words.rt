// Words on a text.

use crate::cures::Cure;
use crate::marked::push_marked;
use crate::related::RelatedPlaces;
use cyc_lexer::place_of;
use std::alloc::{AllocError, Global};

/// The most bytes of a text that are shown in a line of words.
const MOST_SHOWN: usize = 100;

/// What is known of a fault: words, the edits that they tell, and the places that they name.
pub struct Reason {
    pub words: Vec<u8>,
    pub cure: Cure,
    pub related: RelatedPlaces,
}

// Written out, so that a caller's proof sees one call and not the drop of each field.
impl Drop for Reason {
    fn drop(self) {
        let Reason {
            words: _words,
            cure: _cure,
            related: _related,
        } = self;
    }
}

impl Reason {
    /// The words alone.
    pub fn into_words(self) -> Vec<u8> {
        let Reason {
            words,
            cure: _cure,
            related: _related,
        } = self;
        words
    }

    /// The edits alone.
    pub fn into_cure(self) -> Cure {
        let Reason {
            words: _words,
            cure,
            related: _related,
        } = self;
        cure
    }
}

/// Words on a text, as they are written so far, with the edits that they tell and the places that they name.
pub struct Words<'a> {
    alloc: Global,
    text: &'a [u8],
    out: Vec<u8>,
    cure: Cure,
    related: RelatedPlaces,
}

// Written out, so that a caller's proof sees one call and not the drop of each field.
impl Drop for Words<'_> {
    fn drop(self) {
        let Words {
            alloc: _,
            text: _,
            out: _out,
            cure: _cure,
            related: _related,
        } = self;
    }
}

impl<'a> Words<'a> {
    /// None.
    pub fn new(alloc: Global, text: &'a [u8]) -> Self {
        Words {
            alloc,
            text,
            out: Vec::new(alloc),
            cure: Cure::none(alloc),
            related: RelatedPlaces::none(alloc),
        }
    }

    /// All words, with the edits and the places.
    pub fn into_reason(self) -> Reason {
        let Words {
            alloc: _,
            text: _,
            out,
            cure,
            related,
        } = self;
        Reason {
            words: out,
            cure,
            related,
        }
    }

    /// How many bytes of words there are.
    pub fn len(&self) -> usize {
        self.out.len()
    }

    /// Tells an edit by its new text. Fails only where no host memory is left, as all that tell one.
    pub fn mend(&mut self, begin: u32, end: u32, text: &[u8]) -> Result<(), AllocError> {
        self.cure.add(begin, end, text)
    }

    /// Tells an edit whose new text are the last words, from so many bytes on.
    pub fn mend_as_said(&mut self, begin: u32, end: u32, from: usize) -> Result<(), AllocError> {
        let text = self.out.get(from..).unwrap_or(&[]);
        self.cure.add(begin, end, text)
    }

    /// Tells the edit of a sign that stands before an offset, with no more than white space between.
    pub fn mend_before(&mut self, at: u32, old: &[u8], new: &[u8]) -> Result<(), AllocError> {
        let before = self.text.get(..at as usize).unwrap_or(&[]);
        let Some(rest) = before.trim_ascii_end().strip_suffix(old) else {
            return Ok(());
        };
        let begin = u32::try_from(rest.len()).unwrap_or(u32::MAX);
        let length = u32::try_from(old.len()).unwrap_or(u32::MAX);
        self.cure.add(begin, begin.saturating_add(length), new)
    }

    /// Tells no edit: one that goes with those that were told isn't known.
    pub fn mend_nothing(&mut self) {
        self.cure.give_up();
    }

    /// Tells a place that has to do with the fault: what it is are words and a name behind them, or as much as is shown of it. Fails only where no host
    /// memory is left.
    pub fn relate(&mut self, at: u32, said: &str, name: &[u8]) -> Result<(), AllocError> {
        let name = name.get(..MOST_SHOWN).unwrap_or(name);
        self.related.add(at, said, name)
    }

    /// Adds words. Fails only where no host memory is left, as all that add some.
    pub fn say(&mut self, words: &str) -> Result<(), AllocError> {
        self.out.extend_from_slice(words.as_bytes())
    }

    /// Adds a name, or as much as is shown of it.
    pub fn name(&mut self, name: &[u8]) -> Result<(), AllocError> {
        self.out
            .extend_from_slice(name.get(..MOST_SHOWN).unwrap_or(name))
    }

    /// Adds a number.
    pub fn number(&mut self, number: u32) -> Result<(), AllocError> {
        let digits = format!(in self.alloc; "{number}")?;
        self.say(digits.as_str())
    }

    /// Adds a number of bytes, as a size.
    pub fn size(&mut self, bytes: u32) -> Result<(), AllocError> {
        self.say("Size: ")?;
        self.number(bytes)?;
        self.say(if bytes == 1 { " byte\n" } else { " bytes\n" })
    }

    /// Adds the line and the column of an offset.
    pub fn position(&mut self, at: u32) -> Result<(), AllocError> {
        let (line, column) = place_of(self.text, at);
        let position = format!(in self.alloc; "{line}:{column}")?;
        self.say(position.as_str())
    }

    /// Adds the line of an offset, with a mark below it.
    pub fn marked(&mut self, at: u32) -> Result<(), AllocError> {
        let (line, column) = place_of(self.text, at);
        push_marked(&mut self.out, self.text, line, column)
    }

    /// The line of an offset.
    pub fn line(&self, at: u32) -> u32 {
        let (line, _) = place_of(self.text, at);
        line
    }

    /// Whether the text has this byte at an offset.
    pub fn has(&self, at: u32, byte: u8) -> bool {
        match self.text.get(at as usize) {
            Some(other) => *other == byte,
            None => false,
        }
    }

    /// Adds what the text has from an offset on and before another one, in one line.
    pub fn written(&mut self, begin: u32, end: u32) -> Result<(), AllocError> {
        let text = self.text;
        let rest = text.get(begin as usize..).unwrap_or(text);
        let length = end.saturating_sub(begin) as usize;
        let part = rest.get(..length.min(MOST_SHOWN)).unwrap_or(rest);
        for byte in part.trim_ascii_end() {
            self.out.push(if *byte < b' ' { b' ' } else { *byte })?;
        }
        Ok(())
    }
}
