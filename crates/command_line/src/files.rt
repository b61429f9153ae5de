// Files that the words name.

use std::fs::{File, metadata};
use std::io;
use std::io::Read;
use std::os::unix::fs::MetadataExt;
use std::path::Path;
use std::rt::Files;

/// Whether two paths lead to one regular file, also through links. Where one of them can't be followed, they don't.
pub fn is_same_file<F: Files>(files: &F, path: &str, other: &str) -> bool {
    match (metadata(files, path), metadata(files, other)) {
        (Ok(found), Ok(other)) => {
            found.is_file() && found.dev() == other.dev() && found.ino() == other.ino()
        }
        _ => false,
    }
}

/// The folder that a path stands in.
fn folder_of(path: &str) -> &str {
    match Path::new(path).parent() {
        Some(folder) if !folder.as_str().is_empty() => folder.as_str(),
        _ => ".",
    }
}

/// Whether two paths end in one name, and their folders are one, so that a file written to the one stands at the other too.
pub fn is_same_entry<F: Files>(files: &F, path: &str, other: &str) -> bool {
    let folders = (
        metadata(files, folder_of(path)),
        metadata(files, folder_of(other)),
    );
    match folders {
        (Ok(found), Ok(folder)) => {
            Path::new(path).file_name() == Path::new(other).file_name()
                && found.dev() == folder.dev()
                && found.ino() == folder.ino()
        }
        _ => false,
    }
}

/// Whether a file begins with the same four bytes as these bytes.
fn begins_as<F: Files>(files: &F, path: &str, bytes: &[u8]) -> io::Result<bool> {
    let mut first = [0u8; 4];
    File::open(files, path)?.read_exact(&mut first)?;
    Ok(bytes.get(..4) == Some(first.as_slice()))
}

/// Whether bytes may be written over what a path leads to: nothing, no regular file, an empty one, or one that begins with the same four
/// bytes. So a source that stands in the place of an image or of a map is kept.
pub fn is_replaceable<F: Files>(files: &F, path: &str, bytes: &[u8]) -> bool {
    match metadata(files, path) {
        Ok(found) if found.is_file() && found.len() > 0 => {
            begins_as(files, path, bytes).unwrap_or(false)
        }
        _ => true,
    }
}
