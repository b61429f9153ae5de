// Which parts a source has: a comment of a text names them, or the file `cycc.parts` of its folder.

use crate::keys::{folder_of, key_at};
use std::alloc::{AllocError, Global};

/// How a comment begins that names the other parts of a source.
const COMMENT: &[u8] = b"// parts:";

/// The name of the file that has the parts of a source, a line each.
const LIST: &[u8] = b"cycc.parts";

/// Whether a byte stands between names.
fn is_between(byte: u8) -> bool {
    byte == b' ' || byte == b',' || byte == b'\t' || byte == b'\r'
}

/// The names in the comment of a text that names parts.
fn named_in(text: &[u8]) -> Option<&[u8]> {
    for line in text.split(|byte| *byte == b'\n') {
        if let Some(names) = line.strip_prefix(COMMENT) {
            return Some(names);
        }
    }
    None
}

/// The keys of the parts that the comment of a text with a key names, behind its own; none, where it has no such comment. Fails only where no
/// host memory is left, as all of these.
pub(crate) fn commented(
    alloc: Global,
    key: &[u8],
    text: &[u8],
) -> Result<Option<Vec<Vec<u8>>>, AllocError> {
    let (Some(folder), Some(names)) = (folder_of(key), named_in(text)) else {
        return Ok(None);
    };
    let mut keys = Vec::new(alloc);
    keys.push(Vec::from_slice(alloc, key)?)?;
    for name in names.split(|byte| is_between(*byte)) {
        if !name.is_empty() {
            keys.push(key_at(alloc, folder, name)?)?;
        }
    }
    Ok(Some(keys))
}

/// Whether a line of a list names no file.
fn is_passed_over(line: &[u8]) -> bool {
    line.is_empty() || line.starts_with(b"#") || line.starts_with(b"//")
}

/// The keys of the files that a list in a folder names, a line each.
pub(crate) fn listed(
    alloc: Global,
    folder: &[u8],
    list: &[u8],
) -> Result<Vec<Vec<u8>>, AllocError> {
    let mut keys = Vec::new(alloc);
    for line in list.split(|byte| *byte == b'\n') {
        let line = line.trim_ascii();
        if !is_passed_over(line) {
            keys.push(key_at(alloc, folder, line)?)?;
        }
    }
    Ok(keys)
}

/// The key of the list in the folder of the file with a key; none of what is no file.
pub(crate) fn list_of(alloc: Global, key: &[u8]) -> Result<Option<Vec<u8>>, AllocError> {
    match folder_of(key) {
        Some(folder) => Ok(Some(key_at(alloc, folder, LIST)?)),
        None => Ok(None),
    }
}

/// Whether a key is among some.
pub(crate) fn has_key(keys: &[Vec<u8>], key: &[u8]) -> bool {
    for other in keys {
        if other.as_slice() == key {
            return true;
        }
    }
    false
}
