// `cycc fmt`.

use crate::files::{bytes_of, file_fault, print, replace};
use command_line::shown;
use command_line::status::{ENDED, MEMORY, REFUSED, SUCCESS, USAGE};
use cyc_format::format;
use cyc_lexer::{LexFault, place_of};

const HELP: &str = "Lays out sources: four columns a block, lines of 100 columns

Usage: cycc fmt [--check] [FILE]..

Arguments:
  [FILE]..  The files; `-` or none: standard input is laid out to standard output

Options:
      --check  Writes nothing, and names the files that would change (status 1)
  -h, --help   Print help

A file is written whole, and only where it changes. Line breaks between statements stay as they are.
A file in which a token is wrong stays as it is: it is named FILE:LINE:COLUMN: Lex (status 8).
";

/// What is done with a text that is laid out otherwise.
#[derive(Clone, Copy)]
enum Then {
    Name,
    Write,
}

/// Names a file that would change, and answers the status.
fn name(rt: &HostRuntime, path: &str) -> u8 {
    match println!(rt; "{path}") {
        Ok(()) => ENDED,
        Err(error) => file_fault(rt, "write", "standard output", &error),
    }
}

/// Says where a text has a wrong token, and answers the status.
fn refuse(rt: &HostRuntime, path: &str, bytes: &[u8], at: u32) -> u8 {
    let (line, column) = place_of(bytes, at);
    let path = shown(path);
    let _ = eprintln!(rt; "{path}:{line}:{column}: Lex");
    REFUSED
}

/// Does what is asked for with a text that was laid out, and answers the status.
fn finish(rt: &HostRuntime, path: &str, was: &[u8], is: &[u8], then: Then) -> u8 {
    match then {
        Then::Write if path == "-" => print(rt, is),
        _ if was == is => SUCCESS,
        Then::Name => name(rt, path),
        Then::Write => replace(rt, path, is),
    }
}

/// Lays out a file, and answers the status.
fn lay_out(rt: &HostRuntime, path: &str, then: Then) -> u8 {
    let bytes = match bytes_of(rt, path) {
        Ok(bytes) => bytes,
        Err(error) => return file_fault(rt, "read", path, &error),
    };
    match format(rt.alloc(), &bytes) {
        Ok(out) => finish(rt, path, &bytes, &out, then),
        Err(LexFault::Lex(at)) => refuse(rt, path, &bytes, at),
        Err(LexFault::Memory) => {
            let _ = eprintln!(rt; "out of memory");
            MEMORY
        }
    }
}

/// Whether a word is an option: it begins with `-`, and is more than that.
fn is_option(word: &str) -> bool {
    word.len() > 1 && word.starts_with("-")
}

/// The status of options that can't be done, or of help; none where there is something to do.
fn look_at_options(rt: &HostRuntime, words: &[String]) -> Option<u8> {
    for word in words {
        let word = word.as_str();
        if word == "--help" || word == "-h" {
            return Some(print(rt, HELP.as_bytes()));
        }
        if is_option(word) && word != "--check" {
            let word = shown(word);
            let _ = eprintln!(rt;
                "error: unexpected argument '{word}' found\n\nusage: cycc fmt [--check] [FILE].."
            );
            return Some(USAGE);
        }
    }
    None
}

/// Does what the words after `fmt` say, and answers the highest status of all files.
pub(crate) fn run(rt: &HostRuntime, words: &[String]) -> u8 {
    if let Some(status) = look_at_options(rt, words) {
        return status;
    }
    let is_check = words.iter().any(|word| word.as_str() == "--check");
    let then = if is_check { Then::Name } else { Then::Write };
    let mut status = SUCCESS;
    let mut has_files = false;
    for word in words {
        if !is_option(word.as_str()) {
            has_files = true;
            status = status.max(lay_out(rt, word.as_str(), then));
        }
    }
    if has_files {
        status
    } else {
        lay_out(rt, "-", then)
    }
}
