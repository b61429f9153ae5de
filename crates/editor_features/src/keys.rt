// Names of texts as keys: without the escapes of bytes that an editor may write or leave out.

use std::alloc::{AllocError, Global};

/// The digits of a number of base 16.
const DIGITS: &[u8; 16] = b"0123456789ABCDEF";

/// The digit of the lowest four bits.
fn digit(number: u8) -> u8 {
    DIGITS[usize::from(number % 16)]
}

/// The number of a digit of base 16.
fn number_of(digit: u8) -> Option<u8> {
    match digit {
        b'0'..=b'9' => Some(digit.saturating_sub(b'0')),
        b'a'..=b'f' => Some(digit.saturating_sub(b'a').saturating_add(10)),
        b'A'..=b'F' => Some(digit.saturating_sub(b'A').saturating_add(10)),
        _ => None,
    }
}

/// The byte that is escaped where these bytes begin.
fn escaped(bytes: &[u8]) -> Option<u8> {
    let [b'%', high, low, ..] = bytes else {
        return None;
    };
    let high = number_of(*high)?;
    Some(high.saturating_mul(16).saturating_add(number_of(*low)?))
}

/// The key of a text's name. Fails only where no host memory is left, as all of these.
pub fn key_of(alloc: Global, uri: &[u8]) -> Result<Vec<u8>, AllocError> {
    let mut key = Vec::new(alloc);
    let mut passed = 0usize;
    for (index, byte) in uri.iter().enumerate() {
        if index >= passed {
            match escaped(uri.get(index..).unwrap_or(&[])) {
                Some(byte) => {
                    key.push(byte)?;
                    passed = index.saturating_add(3);
                }
                None => key.push(*byte)?,
            }
        }
    }
    Ok(key)
}

/// Whether a byte stands in a name as it is.
fn is_plain(byte: u8) -> bool {
    byte.is_ascii_alphanumeric() || matches!(byte, b'-' | b'.' | b'_' | b'~' | b'/' | b':')
}

/// The name of the text with a key.
pub(crate) fn uri_of(alloc: Global, key: &[u8]) -> Result<Vec<u8>, AllocError> {
    let mut uri = Vec::new(alloc);
    for byte in key {
        if is_plain(*byte) {
            uri.push(*byte)?;
        } else {
            uri.extend_from_slice(&[b'%', digit(*byte / 16), digit(*byte)])?;
        }
    }
    Ok(uri)
}

/// The bytes before the last `/`; none, where there is no `/`.
fn before_slash(bytes: &[u8]) -> Option<&[u8]> {
    let mut found = None;
    for (index, byte) in bytes.iter().enumerate() {
        if *byte == b'/' {
            found = Some(index);
        }
    }
    bytes.get(..found?)
}

/// The folder of the file with a key; none of what is no file.
pub(crate) fn folder_of(key: &[u8]) -> Option<&[u8]> {
    if key.starts_with(b"file://") {
        before_slash(key)
    } else {
        None
    }
}

/// Goes on to a part of a path.
fn go_on(alloc: Global, key: Vec<u8>, part: &[u8]) -> Result<Vec<u8>, AllocError> {
    match part {
        [] | [b'.'] => Ok(key),
        [b'.', b'.'] => Vec::from_slice(alloc, before_slash(key.as_slice()).unwrap_or(&[])),
        _ => {
            let mut further = key;
            further.push(b'/')?;
            further.extend_from_slice(part)?;
            Ok(further)
        }
    }
}

/// The key of the file at a path, which is one from a folder or from the root.
pub(crate) fn key_at(alloc: Global, folder: &[u8], path: &[u8]) -> Result<Vec<u8>, AllocError> {
    let begin = match path {
        [b'/', ..] => b"file://".as_slice(),
        _ => folder,
    };
    let mut key = Vec::from_slice(alloc, begin)?;
    for part in path.split(|byte| *byte == b'/') {
        key = go_on(alloc, key, part)?;
    }
    Ok(key)
}
