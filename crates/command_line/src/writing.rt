// Files that are written whole, or stay as they were.

use std::alloc::{AllocGlobal, Global};
use std::fs::{File, OpenFile, metadata, symlink_metadata};
use std::io::Write;
use std::rt::Files;
use std::{fs, io};

/// How many names are tried for a new file.
const NAMES: u32 = 64;

/// A file that was just made, and its path.
struct New<F> {
    path: String,
    file: F,
}

/// Makes a file beside a path, by a name that none has. None where its folder takes no file.
fn new_beside<R: Files>(alloc: Global, files: &R, path: &str) -> io::Result<Option<New<R::File>>> {
    for number in 0..NAMES {
        let name = format!(in alloc; "{path}.{number}.new")?;
        match File::create_new(files, name.as_str()) {
            Ok(file) => return Ok(Some(New { path: name, file })),
            Err(error) if error.kind() == io::ErrorKind::AlreadyExists => {}
            Err(_) => return Ok(None),
        }
    }
    Ok(None)
}

/// Writes all bytes into a new file, with the permissions of the one whose place it is to take.
fn fill<R: Files>(files: &R, file: R::File, path: &str, bytes: &[u8]) -> io::Result<()> {
    let mut file = file;
    file.write_all(bytes)?;
    match metadata(files, path) {
        Ok(old) => file.set_permissions(old.permissions()),
        Err(_) => Ok(()),
    }
}

/// Has a new file with these bytes take the place of a path. Where that fails, the new file is gone and the path is as it was.
fn replace<R: Files>(files: &R, new: New<R::File>, path: &str, bytes: &[u8]) -> io::Result<()> {
    let New { path: name, file } = new;
    let mut put = fill(files, file, path, bytes);
    if put.is_ok() {
        put = fs::rename(files, name.as_str(), path);
    }
    if put.is_err() {
        let _ = fs::remove_file(files, name.as_str());
    }
    put
}

/// Writes a plain file by a new one beside it; where its folder takes none, as it stands.
fn put<R: Files + AllocGlobal>(rt: &R, path: &str, bytes: &[u8]) -> io::Result<()> {
    match new_beside(rt.alloc(), rt, path)? {
        Some(new) => replace(rt, new, path, bytes),
        None => fs::write(rt, path, bytes),
    }
}

/// Writes a file whole, or leaves what is there: a plain file, or one that isn't there yet, is written beside its place, behind a link beside its target, and
/// then takes that place, with the permissions of what was there. An Err has left nothing behind, and all as it was. What is no plain file, as a device or a
/// pipe, is written as it stands, and so is a file in a folder that takes no new one.
pub fn write_whole<R: Files + AllocGlobal>(rt: &R, path: &str, bytes: &[u8]) -> io::Result<()> {
    match metadata(rt, path) {
        Ok(found) if found.is_file() => {
            let target = fs::canonicalize(rt, path)?;
            put(rt, target.as_str(), bytes)
        }
        Ok(_) => fs::write(rt, path, bytes),
        Err(_) => match symlink_metadata(rt, path) {
            Ok(_) => fs::write(rt, path, bytes),
            Err(_) => put(rt, path, bytes),
        },
    }
}
