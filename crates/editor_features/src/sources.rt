// Sources: the parts of a program, joined to one text.

use crate::documents::{Document, File};
use crate::keys::{folder_of, uri_of};
use crate::named_parts::{commented, has_key, list_of, listed};
use std::alloc::{AllocError, Global};

/// A part of a source: the name of its text, and where it stands.
#[derive(Drop)]
pub(crate) struct Part {
    pub uri: Vec<u8>,
    pub begin: usize,
    pub end: usize,
}

/// The parts of a source, joined to one text.
#[derive(Drop)]
pub(crate) struct Source {
    pub text: Vec<u8>,
    pub parts: Vec<Part>,
    /// Which of the parts is the text that is looked at.
    pub own: usize,
    /// Whether the client takes the places that have to do with a fault.
    pub relates: bool,
}

impl Source {
    /// The part that has an offset: the last one, where it is past the end.
    pub(crate) fn index_at(&self, offset: usize) -> usize {
        for (index, part) in self.parts.iter().enumerate() {
            if offset < part.end {
                return index;
            }
        }
        self.parts.len().saturating_sub(1)
    }

    /// The text of the part of an index.
    pub(crate) fn text_at(&self, index: usize) -> &[u8] {
        let text = self.text.as_slice();
        match self.parts.get(index) {
            Some(part) => text.get(part.begin..part.end).unwrap_or(text),
            None => text,
        }
    }

    /// Where the part of an index begins.
    pub(crate) fn begin_at(&self, index: usize) -> usize {
        match self.parts.get(index) {
            Some(part) => part.begin,
            None => 0,
        }
    }

    /// The name of the part of an index.
    pub(crate) fn uri_at(&self, index: usize) -> &[u8] {
        match self.parts.get(index) {
            Some(part) => part.uri.as_slice(),
            None => b"",
        }
    }

    /// The text of an open text alone. Fails only where no host memory is left.
    pub(crate) fn alone(alloc: Global, document: &Document) -> Result<Source, AllocError> {
        let mut source = Source {
            text: Vec::new(alloc),
            parts: Vec::new(alloc),
            own: 0,
            relates: false,
        };
        let uri = Vec::from_slice(alloc, document.uri.as_bytes())?;
        source.add(uri, document.text.as_slice(), false)?;
        Ok(source)
    }

    /// Adds a part. Where others follow or stand before it, it gets a line's end. Fails only where no host memory is left.
    fn add(&mut self, uri: Vec<u8>, text: &[u8], is_joined: bool) -> Result<(), AllocError> {
        let begin = self.text.len();
        self.text.extend_from_slice(text)?;
        if is_joined && !text.is_empty() && !text.ends_with(b"\n") {
            self.text.push(b'\n')?;
        }
        let end = self.text.len();
        self.parts.push(Part { uri, begin, end })?;
        Ok(())
    }
}

/// The texts that are open, and the files that are known beside them.
#[derive(Clone, Copy)]
pub struct Texts<'a> {
    pub alloc: Global,
    pub open: &'a [Document],
    pub files: &'a [File],
    /// Whether the client takes the places that have to do with a fault.
    pub relates: bool,
}

impl<'a> Texts<'a> {
    /// The open text with a key.
    pub(crate) fn open_text(self, key: &[u8]) -> Option<&'a Document> {
        for document in self.open {
            if document.key.as_slice() == key {
                return Some(document);
            }
        }
        None
    }

    /// The file with a key.
    fn file(self, key: &[u8]) -> Option<&'a File> {
        for file in self.files {
            if file.key.as_slice() == key {
                return Some(file);
            }
        }
        None
    }

    /// Whether it is known what the text with a key has, or that it isn't there.
    fn is_known(self, key: &[u8]) -> bool {
        self.open_text(key).is_some() || self.file(key).is_some()
    }

    /// What the text with a key has; none, where it isn't there or isn't known.
    fn text(self, key: &[u8]) -> Option<&'a [u8]> {
        match self.open_text(key) {
            Some(document) => Some(document.text.as_slice()),
            None => match &self.file(key)?.bytes {
                Some(bytes) => Some(bytes.as_slice()),
                None => None,
            },
        }
    }

    /// The keys of the parts that the list of a text's folder names, where it is one of them. Fails only where no host memory is left, as all of
    /// these.
    fn listed_with(self, key: &[u8]) -> Result<Option<Vec<Vec<u8>>>, AllocError> {
        let (Some(folder), Some(list)) = (folder_of(key), list_of(self.alloc, key)?) else {
            return Ok(None);
        };
        let Some(text) = self.text(list.as_slice()) else {
            return Ok(None);
        };
        let keys = listed(self.alloc, folder, text)?;
        if has_key(keys.as_slice(), key) {
            Ok(Some(keys))
        } else {
            Ok(None)
        }
    }

    /// The keys of the parts that the comment of another open text names, where a text is one of them.
    fn commented_with(self, key: &[u8]) -> Result<Option<Vec<Vec<u8>>>, AllocError> {
        for other in self.open {
            if let Some(keys) = commented(self.alloc, other.key.as_slice(), &other.text)? {
                if has_key(keys.as_slice(), key) {
                    return Ok(Some(keys));
                }
            }
        }
        Ok(None)
    }

    /// The keys of the parts of an open text's source: those that its comment names, else those that the list of its folder has, else those of
    /// an open text whose comment names it, else it alone.
    pub(crate) fn keys_of(self, document: &Document) -> Result<Vec<Vec<u8>>, AllocError> {
        let key = document.key.as_slice();
        if let Some(keys) = commented(self.alloc, key, &document.text)? {
            return Ok(keys);
        }
        if let Some(keys) = self.listed_with(key)? {
            return Ok(keys);
        }
        if let Some(keys) = self.commented_with(key)? {
            return Ok(keys);
        }
        let mut keys = Vec::new(self.alloc);
        keys.push(Vec::from_slice(self.alloc, key)?)?;
        Ok(keys)
    }

    /// The key of a file that has to be known for an open text's source: the list of its folder, or a part.
    pub fn wanted_for(self, document: &Document) -> Result<Option<Vec<u8>>, AllocError> {
        if let Some(list) = list_of(self.alloc, document.key.as_slice())? {
            if !self.is_known(list.as_slice()) {
                return Ok(Some(list));
            }
        }
        let keys = self.keys_of(document)?;
        for key in keys.iter() {
            if !self.is_known(key.as_slice()) {
                return Ok(Some(Vec::from_slice(self.alloc, key.as_slice())?));
            }
        }
        Ok(None)
    }

    /// The name of the text with a key.
    fn uri(self, key: &[u8]) -> Result<Vec<u8>, AllocError> {
        match self.open_text(key) {
            Some(document) => Vec::from_slice(self.alloc, document.uri.as_bytes()),
            None => uri_of(self.alloc, key),
        }
    }

    /// The source that an open text is a part of. Parts that aren't there are left out.
    pub(crate) fn source_of(self, document: &Document) -> Result<Source, AllocError> {
        let keys = self.keys_of(document)?;
        let is_joined = keys.len() > 1;
        let mut source = Source {
            text: Vec::new(self.alloc),
            parts: Vec::new(self.alloc),
            own: 0,
            relates: self.relates,
        };
        for key in keys.iter() {
            if let Some(text) = self.text(key.as_slice()) {
                if key.as_slice() == document.key.as_slice() {
                    source.own = source.parts.len();
                }
                source.add(self.uri(key.as_slice())?, text, is_joined)?;
            }
        }
        Ok(source)
    }
}
