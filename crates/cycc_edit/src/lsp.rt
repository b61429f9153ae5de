// The language server over the standard streams: it ends when it is told to, or when nothing more comes.

use crate::files::bytes_of;
use crate::frames_read::{Arrived, Received};
use command_line::status::{ENDED, FILE_FAULT, MEMORY, SUCCESS};
use editor_protocol::Message;
use language_server::Server;
use std::io::{Read, Write};
use std::{io, str};

/// How many bytes are read at once.
const PART: usize = 8192;

/// The most files that are read behind one message.
const MOST_FILES: u32 = 10_000;

/// Writes messages.
fn write_all(rt: &HostRuntime, messages: &[Message]) -> io::Result<()> {
    let mut out = rt.stdout();
    for message in messages {
        let frame = message.framed(rt.alloc())?;
        out.write_all(&frame)?;
    }
    out.flush()
}

/// The path of the file that a key names; none of what is no file.
fn path_of(key: &[u8]) -> Option<&str> {
    match key.strip_prefix(b"file://")? {
        [b'/', ..] => {}
        _ => return None,
    }
    str::from_utf8(key.strip_prefix(b"file://")?).ok()
}

/// The bytes of the file that a key names; none, where it can't be read.
fn file_of(rt: &HostRuntime, key: &[u8]) -> io::Result<Option<Vec<u8>>> {
    let Some(path) = path_of(key) else {
        return Ok(None);
    };
    match bytes_of(rt, path) {
        Ok(bytes) => Ok(Some(bytes)),
        Err(error) if error.kind() == io::ErrorKind::OutOfMemory => Err(error),
        Err(_) => Ok(None),
    }
}

/// Gives the server the files that it wants.
fn supply_all(rt: &HostRuntime, server: &mut Server) -> io::Result<()> {
    for _ in 0..MOST_FILES {
        let Some(key) = server.wanted()? else {
            break;
        };
        let bytes = file_of(rt, key.as_slice())?;
        let messages = server.supply(key, bytes)?;
        write_all(rt, messages.as_slice())?;
    }
    Ok(())
}

/// Answers what arrived.
fn answer(rt: &HostRuntime, server: &mut Server, arrived: Arrived) -> io::Result<()> {
    let messages = match arrived {
        Arrived::Body(body) => server.serve(body.as_slice())?,
        Arrived::Fault(code) => server.refuse(code)?,
    };
    write_all(rt, messages.as_slice())?;
    supply_all(rt, server)
}

/// Answers all that arrived whole. Each step takes at least one byte.
fn answer_all(rt: &HostRuntime, server: &mut Server, received: &mut Received) -> io::Result<()> {
    for _ in 0..received.len() {
        if server.ending().is_some() {
            break;
        }
        match received.take()? {
            Some(arrived) => answer(rt, server, arrived)?,
            None => break,
        }
    }
    Ok(())
}

/// Reads more, and answers whether there was something.
fn read_more(rt: &HostRuntime, received: &mut Received) -> io::Result<bool> {
    let mut part = [0u8; PART];
    let count = rt.stdin().read(&mut part)?;
    received.add(part.get(..count).unwrap_or(&[]))?;
    Ok(count > 0)
}

/// Reads and answers until the session has ended, and answers the status.
fn served(rt: &HostRuntime) -> io::Result<u8> {
    let mut server = Server::new(rt.alloc());
    let mut received = Received::new(rt.alloc());
    for _ in 0..u64::MAX {
        if !read_more(rt, &mut received)? {
            break;
        }
        answer_all(rt, &mut server, &mut received)?;
        if let Some(as_asked) = server.ending() {
            return Ok(if as_asked { SUCCESS } else { ENDED });
        }
    }
    Ok(ENDED)
}

/// Serves, and answers the status.
pub fn run(rt: &HostRuntime) -> u8 {
    match served(rt) {
        Ok(status) => status,
        Err(error) if error.kind() == io::ErrorKind::OutOfMemory => MEMORY,
        Err(_) => FILE_FAULT,
    }
}
