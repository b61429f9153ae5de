// Files, whole or as they were.

use command_line::status::{FILE_FAULT, MEMORY, SUCCESS};
use command_line::{shown, why_no_name};
use std::fs::{File, Permissions};
use std::io::{Read, Write};
use std::{fs, io, process};

/// A text of more bytes is refused, so no more are read.
pub(crate) const MOST: u64 = 1_048_577;

/// The bytes of a file, or of standard input where the path is `-`.
pub(crate) fn bytes_of(rt: &HostRuntime, path: &str) -> io::Result<Vec<u8>> {
    let mut bytes = Vec::new(rt.alloc());
    if path == "-" {
        rt.stdin().take(MOST).read_to_end(&mut bytes)?;
    } else {
        File::open(rt, path)?.take(MOST).read_to_end(&mut bytes)?;
    }
    Ok(bytes)
}

/// What is said where a file can't be read or written, and the status.
pub(crate) fn file_fault(rt: &HostRuntime, what: &str, path: &str, error: &io::Error) -> u8 {
    if error.kind() == io::ErrorKind::OutOfMemory {
        let _ = eprintln!(rt; "out of memory");
        return MEMORY;
    }
    let why = why_no_name(path);
    let path = shown(path);
    let _ = eprintln!(rt; "cannot {what} {path}{why}");
    FILE_FAULT
}

/// Writes bytes to a new file with these permissions.
fn make(rt: &HostRuntime, path: &str, bytes: &[u8], permissions: Permissions) -> io::Result<()> {
    let mut file = File::create_new(rt, path)?;
    file.write_all(bytes)?;
    file.set_permissions(permissions)?;
    file.sync_all()
}

/// Puts bytes in the place of a file: all of them, or the file stays as it was. They are written to a file beside it, which then takes its name.
fn put_in_place(rt: &HostRuntime, path: &str, bytes: &[u8]) -> io::Result<()> {
    let target = fs::canonicalize(rt, path)?;
    let permissions = fs::metadata(rt, &target)?.permissions();
    let target = target.as_str();
    let number = process::id(rt.process());
    let beside = format!(in rt.alloc(); "{target}.{number}.new")?;
    let made = make(rt, beside.as_str(), bytes, permissions);
    let done = match made {
        Ok(()) => fs::rename(rt, beside.as_str(), target),
        Err(error) => Err(error),
    };
    if done.is_err() {
        let _ = fs::remove_file(rt, beside.as_str());
    }
    done
}

/// Puts bytes in the place of a file, and answers the status.
pub(crate) fn replace(rt: &HostRuntime, path: &str, bytes: &[u8]) -> u8 {
    match put_in_place(rt, path, bytes) {
        Ok(()) => SUCCESS,
        Err(error) => file_fault(rt, "write", path, &error),
    }
}

/// Writes bytes to standard output, and answers the status.
pub(crate) fn print(rt: &HostRuntime, bytes: &[u8]) -> u8 {
    match rt.stdout().write_all(bytes) {
        Ok(()) => SUCCESS,
        Err(error) => file_fault(rt, "write", "standard output", &error),
    }
}
