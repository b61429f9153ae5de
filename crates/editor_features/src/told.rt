// What is told of texts that are due: their faults, each in the part that has it.

use crate::documents::{Document, File};
use crate::faults::{faultless, faults_of, params_of};
use crate::sources::{Source, Texts};
use cycc_driver::CompileFault;
use reasons::reasons_of;
use std::alloc::{AllocError, Global};
use token_names::pieces;

/// The faults of an open text's source, and what is told of them.
#[derive(Drop)]
struct Checked {
    faults: Vec<CompileFault>,
    is_joined: bool,
    /// The parameters of the notifications, one for each part that is told of.
    told: Vec<Vec<u8>>,
}

/// Whether the faults of a part are told with those of an open text: it is that text, or no text that is open.
fn is_told(texts: Texts<'_>, source: &Source, index: usize, uri: &[u8]) -> bool {
    if index == source.own {
        return true;
    }
    for document in texts.open {
        if document.uri.as_bytes() == uri {
            return false;
        }
    }
    true
}

/// What is told of the faults of a source. Fails only where no host memory is left, as all of these.
fn told_of(
    texts: Texts<'_>,
    document: &Document,
    source: &Source,
    faults: &[CompileFault],
) -> Result<Vec<Vec<u8>>, AllocError> {
    let alloc = texts.alloc;
    let text = source.text.as_slice();
    let tokens = pieces(alloc, text)?;
    let reasons = reasons_of(alloc, text, faults)?;
    let mut told = Vec::new(alloc);
    for (index, part) in source.parts.iter().enumerate() {
        if is_told(texts, source, index, part.uri.as_slice()) {
            let version = if index == source.own {
                document.version
            } else {
                None
            };
            let params = params_of(alloc, version, source, &tokens, index, faults, &reasons)?;
            told.push(params)?;
        }
    }
    Ok(told)
}

/// Checks the source of an open text.
fn check_of(texts: Texts<'_>, document: &Document) -> Result<Checked, AllocError> {
    let source = texts.source_of(document)?;
    let faults = faults_of(texts.alloc, source.text.as_slice())?;
    let told = told_of(texts, document, &source, faults.as_slice())?;
    Ok(Checked {
        faults,
        is_joined: source.parts.len() > 1,
        told,
    })
}

/// Checks the source of the open text of an index, where that is due and its files are known.
fn checked_at(texts: Texts<'_>, index: usize) -> Result<Option<Checked>, AllocError> {
    let Some(document) = texts.open.get(index) else {
        return Ok(None);
    };
    if !document.is_due || texts.wanted_for(document)?.is_some() {
        return Ok(None);
    }
    Ok(Some(check_of(texts, document)?))
}

impl Checked {
    /// Notes what was found of the open text of an index, and answers what is told of it.
    fn noted(self, open: &mut Vec<Document>, index: usize) -> Vec<Vec<u8>> {
        let Checked {
            faults,
            is_joined,
            told,
        } = self;
        if let Some(document) = open.get_mut(index) {
            document.faults = faults;
            document.is_joined = is_joined;
            document.is_due = false;
        }
        told
    }
}

/// What is told where an open text is closed: it has no faults any more, nor have the parts of its source that aren't open.
pub fn closed(texts: Texts<'_>, document: &Document) -> Result<Vec<Vec<u8>>, AllocError> {
    let source = texts.source_of(document)?;
    let mut told = Vec::new(texts.alloc);
    for (index, part) in source.parts.iter().enumerate() {
        if is_told(texts, &source, index, part.uri.as_slice()) {
            told.push(faultless(texts.alloc, part.uri.as_slice())?)?;
        }
    }
    Ok(told)
}

/// Whether the source of the open text of an index has other parts, or had some when it was checked.
fn is_joined_at(texts: Texts<'_>, index: usize) -> Result<bool, AllocError> {
    match texts.open.get(index) {
        Some(document) if document.is_joined => Ok(true),
        Some(document) => Ok(texts.keys_of(document)?.len() > 1),
        None => Ok(false),
    }
}

/// Makes all texts due whose sources have other parts: one of these may have changed.
pub fn make_due(alloc: Global, open: &mut Vec<Document>, files: &[File]) -> Result<(), AllocError> {
    for index in 0..open.len() {
        let texts = Texts {
            alloc,
            open: open.as_slice(),
            files,
            relates: false,
        };
        let is_joined = is_joined_at(texts, index)?;
        if let Some(document) = open.get_mut(index) {
            document.is_due = document.is_due || is_joined;
        }
    }
    Ok(())
}

/// Checks all sources that are due and whose files are known: what is told of them, as the parameters of notifications, behind what is told
/// already. The places that have to do with a fault are told where the client takes them.
pub fn check_due(
    alloc: Global,
    open: &mut Vec<Document>,
    files: &[File],
    relates: bool,
    told: &mut Vec<Vec<u8>>,
) -> Result<(), AllocError> {
    for index in 0..open.len() {
        let texts = Texts {
            alloc,
            open: open.as_slice(),
            files,
            relates,
        };
        if let Some(checked) = checked_at(texts, index)? {
            let more = checked.noted(open, index);
            for params in more.iter() {
                told.push(Vec::from_slice(alloc, params.as_slice())?)?;
            }
        }
    }
    Ok(())
}
