// The texts that an editor has open.

ghost use Rattle.std.specs.Prelude.{◌<◌, length, IfSome};

use crate::keys::key_of;
use cycc_driver::CompileFault;
use serde_json::Value;
use std::alloc::{AllocError, Global};

/// A text that is open: its name, its version, its bytes, and the faults of the source that it is a part of.
#[derive(Drop)]
pub struct Document {
    pub uri: String,
    /// The name without escapes.
    pub key: Vec<u8>,
    pub version: Option<i64>,
    pub text: Vec<u8>,
    pub faults: Vec<CompileFault>,
    /// Whether its source has other parts.
    pub is_joined: bool,
    /// Whether its source has changed since it was checked.
    pub is_due: bool,
}

/// A file beside the open texts: its name without escapes, and its bytes, where it is there.
#[derive(Drop)]
pub struct File {
    pub key: Vec<u8>,
    pub bytes: Option<Vec<u8>>,
}

impl Document {
    /// A text that was not checked yet. Fails only where no host memory is left, as all of these.
    pub fn new(
        alloc: Global,
        uri: &str,
        version: Option<i64>,
        text: Vec<u8>,
    ) -> Result<Document, AllocError> {
        let key = key_of(alloc, uri.as_bytes())?;
        Ok(Document {
            uri: String::from_str(alloc, uri)?,
            key,
            version,
            text,
            faults: Vec::new(alloc),
            is_joined: false,
            is_due: true,
        })
    }

    /// The same text.
    fn copy(&self, alloc: Global) -> Result<Document, AllocError> {
        let faults = Vec::from_slice(alloc, self.faults.as_slice())?;
        Ok(Document {
            uri: String::from_str(alloc, self.uri.as_str())?,
            key: Vec::from_slice(alloc, self.key.as_slice())?,
            version: self.version,
            text: Vec::from_slice(alloc, self.text.as_slice())?,
            faults,
            is_joined: self.is_joined,
            is_due: self.is_due,
        })
    }
}

impl File {
    /// The same file. Fails only where no host memory is left.
    fn copy(&self, alloc: Global) -> Result<File, AllocError> {
        let bytes = match &self.bytes {
            Some(bytes) => Some(Vec::from_slice(alloc, bytes.as_slice())?),
            None => None,
        };
        Ok(File {
            key: Vec::from_slice(alloc, self.key.as_slice())?,
            bytes,
        })
    }
}

/// The name of the text that a message is about.
pub fn uri_in(body: &Value) -> Option<&str> {
    body.pointer("/params/textDocument/uri")
        .and_then(Value::as_str)
}

/// The version that a message gives to its text.
pub fn version_in(body: &Value) -> Option<i64> {
    body.pointer("/params/textDocument/version")
        .and_then(Value::as_i64)
}

/// The index of the text of a name.
pub(crate) fn index_of(texts: &[Document], uri: &str) -> Option<usize>
    ensures { IfSome result (λ index. index < length texts.now) }
{
    for (index, document) in texts.iter().enumerate() {
        if document.uri.as_str() == uri {
            return Some(index);
        }
    }
    None
}

/// The text of a name.
pub fn document_of<'d>(texts: &'d [Document], uri: &str) -> Option<&'d Document> {
    texts.get(index_of(texts, uri)?)
}

/// Whether a version may follow another one.
pub fn is_later(old: Option<i64>, new: Option<i64>) -> bool {
    match (old, new) {
        (Some(old), Some(new)) => old < new,
        _ => true,
    }
}

/// The same texts. Fails only where no host memory is left, as all of these.
pub fn copies(alloc: Global, texts: &[Document]) -> Result<Vec<Document>, AllocError> {
    let mut copies = Vec::new(alloc);
    for document in texts {
        copies.push(document.copy(alloc)?)?;
    }
    Ok(copies)
}

/// The same texts, with another one in the place of that of its name.
pub fn with_text(
    alloc: Global,
    texts: &[Document],
    document: Document,
) -> Result<Vec<Document>, AllocError> {
    let mut copies = copies(alloc, texts)?;
    match index_of(copies.as_slice(), document.uri.as_str()) {
        Some(index) => copies[index] = document,
        None => copies.push(document)?,
    }
    Ok(copies)
}

/// The same texts, but for that of a name.
pub fn without_text(
    alloc: Global,
    texts: &[Document],
    uri: &str,
) -> Result<Vec<Document>, AllocError> {
    let mut copies = copies(alloc, texts)?;
    if let Some(index) = index_of(copies.as_slice(), uri) {
        let _closed = copies.remove(index);
    }
    Ok(copies)
}

/// The files but for that of a key.
pub fn without_file(alloc: Global, files: &[File], key: &[u8]) -> Result<Vec<File>, AllocError> {
    let mut copies = Vec::new(alloc);
    for file in files {
        if file.key.as_slice() != key {
            copies.push(file.copy(alloc)?)?;
        }
    }
    Ok(copies)
}
