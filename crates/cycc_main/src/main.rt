//! `cycc`: checks, compiles and runs a source file, runs and prints an image, and says what a fault means.
//!
//! `main` reads the words, the file and the standard streams, and writes OUT and the map. All else is in `answer` of `cycc_answer`:
//! what is printed, and the exit status. The words are read by `command_line`.
#![tactic(auto)]

use command_line::status::{FILE_FAULT, MEMORY, SUCCESS, usage_status};
use command_line::{
    Command, command_of, is_replaceable, is_same_entry, is_same_file, shown, shown_error,
    why_no_name, words_of, write_whole,
};
use cyc_words::Counted;
use cycc_answer::{longest_file, printed};
pub use cycc_answer::{Answer, answer};
use std::alloc::AllocError;
use std::fs::File;
use std::io;
use std::io::Read;
use std::process::ExitCode;

/// The bytes of a file, at most `most` of them.
fn bytes_of(rt: &HostRuntime, path: &str, most: u64) -> io::Result<Vec<u8>> {
    let mut bytes = Vec::new(rt.alloc());
    File::open(rt, path)?.take(most).read_to_end(&mut bytes)?;
    Ok(bytes)
}

/// Whether reading or writing failed because memory is out.
fn is_memory(error: &io::Error) -> bool {
    error.kind() == io::ErrorKind::OutOfMemory
}

/// Says that no host memory is left, and answers the status.
fn out_of_memory(rt: &HostRuntime) -> u8 {
    let _ = eprintln!(rt; "out of memory");
    MEMORY
}

/// Says that a file can't be read or written, and answers the status.
fn refused(rt: &HostRuntime, what: &str, path: &str) -> u8 {
    let why = why_no_name(path);
    let path = shown(path);
    let _ = eprintln!(rt; "cannot {what} {path}{why}");
    FILE_FAULT
}

/// What is said where a file can't be read or written, and the status.
fn file_fault(rt: &HostRuntime, what: &str, path: &str, error: &io::Error) -> u8 {
    if is_memory(error) {
        out_of_memory(rt)
    } else {
        refused(rt, what, path)
    }
}

/// A file that a `compile` writes: its path, and the bytes for it.
#[derive(Clone, Copy)]
struct Written<'a> {
    path: &'a str,
    bytes: &'a [u8],
}

impl Written<'_> {
    /// Whether it may be written: it isn't the source's file, and replaces no file of another kind.
    fn is_allowed(self, rt: &HostRuntime, input: &str) -> bool {
        !is_same_file(rt, input, self.path) && is_replaceable(rt, self.path, self.bytes)
    }

    /// Whether it is the same file as another one, or would be.
    fn is_same(self, rt: &HostRuntime, other: &str) -> bool {
        is_same_entry(rt, self.path, other) || is_same_file(rt, self.path, other)
    }

    /// Writes it, and answers the status.
    fn put(self, rt: &HostRuntime) -> u8 {
        match write_whole(rt, self.path, self.bytes) {
            Ok(()) => SUCCESS,
            Err(error) => file_fault(rt, "write", self.path, &error),
        }
    }
}

/// Writes OUT, and answers the status. Where it may not be written, nothing is.
fn put_image(rt: &HostRuntime, input: &str, image: Written<'_>) -> u8 {
    if image.is_allowed(rt, input) {
        image.put(rt)
    } else {
        refused(rt, "write", image.path)
    }
}

/// Writes OUT and the map, and answers the status. Where one of them may not be written, or both are one file, nothing is.
fn put_both(rt: &HostRuntime, input: &str, image: Written<'_>, map: Written<'_>) -> u8 {
    if !map.is_allowed(rt, input) || map.is_same(rt, image.path) {
        return refused(rt, "write", map.path);
    }
    let status = put_image(rt, input, image);
    if status != SUCCESS {
        return status;
    }
    // a link to nothing may lead to the file that was just written
    if map.is_same(rt, image.path) {
        return refused(rt, "write", map.path);
    }
    map.put(rt)
}

/// Writes what a command has for files, and answers the status.
fn kept(rt: &HostRuntime, command: &Command<'_>, answer: &Answer) -> u8 {
    let Command::Compile {
        input,
        output,
        map,
        ..
    } = *command
    else {
        return answer.status;
    };
    let Some(image) = &answer.image else {
        return answer.status;
    };
    let image = Written {
        path: output,
        bytes: image.as_slice(),
    };
    match (map, &answer.map) {
        (Some(path), Some(text)) => {
            let bytes = text.as_bytes();
            put_both(rt, input, image, Written { path, bytes })
        }
        _ => put_image(rt, input, image),
    }
}

/// Answers a command on a file that was read, and writes OUT and the map where there are such.
fn answered(rt: &HostRuntime, command: &Command<'_>, file: &[u8]) -> u8 {
    let mut reader = Counted::new(rt.stdin());
    let mut writer = Counted::new(rt.stdout());
    let mut faults = rt.stderr();
    let answer = answer(
        rt.alloc(),
        command,
        file,
        &mut reader,
        &mut writer,
        &mut faults,
    );
    match answer {
        Ok(answer) => kept(rt, command, &answer),
        Err(AllocError) => out_of_memory(rt),
    }
}

/// Shows help, or what is wrong with the words, and answers the status. Help that can't be written is a write fault.
fn explained(rt: &HostRuntime, text: &str, status: u8) -> u8 {
    if status == SUCCESS {
        let succeeded = print!(rt; "{text}").is_ok();
        return printed(succeeded, &mut rt.stderr());
    }
    let _ = eprint!(rt; "{text}");
    status
}

/// Answers the words of the command line with a status.
fn run(rt: &HostRuntime) -> Result<u8, AllocError> {
    let words = words_of(rt)?;
    let command = match command_of(rt.alloc(), words.as_slice()) {
        Ok(command) => command,
        Err(error) => {
            let status = usage_status(&error);
            if status == MEMORY {
                return Ok(out_of_memory(rt));
            }
            let text = shown_error(rt.alloc(), &error)?;
            return Ok(explained(rt, text.as_str(), status));
        }
    };
    let Some(path) = command.input() else {
        return Ok(answered(rt, &command, &[]));
    };
    match bytes_of(rt, path, longest_file(&command)) {
        Ok(file) => Ok(answered(rt, &command, &file)),
        Err(error) => Ok(file_fault(rt, "read", path, &error)),
    }
}

/// Does what the command line says, and exits with its status.
fn main(rt: HostRuntime) -> ExitCode {
    match run(&rt) {
        Ok(status) => ExitCode::from(status),
        Err(AllocError) => ExitCode::from(out_of_memory(&rt)),
    }
}
