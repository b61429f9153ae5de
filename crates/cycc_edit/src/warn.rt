// `cycc check --warn`.

use crate::files::{bytes_of, file_fault, print};
use command_line::shown;
use command_line::status::{MEMORY, REFUSED, SUCCESS, USAGE};
use cyc_lexer::tokens;
use cycc_driver::{CompileFault, front};
use fault_words::push_marked;
use reasons::shown_fault;
use std::alloc::{AllocError, Global};
use std::io::Write;
use warnings::{Placed, warnings_of, with_places};

const HELP: &str = "Checks sources, and warns of what is accepted but surely or likely wrong

Usage: cycc check --warn [--deny] [--why] FILE..

Options:
      --warn  Prints warnings on standard error, each as FILE:LINE:COLUMN: warning: NAME: WORDS
      --deny  Prints them too, and answers status 8 where there is one
      --why   Prints the line of each warning too, and what to write instead; of a fault what `check --why` prints
  -h, --help  Print help

A comment `// allow: NAME` at the end of the line or on the line before silences a warning.
";

/// What is asked for: whether a warning is a fault, whether more than its line is said, and how many bytes the first part of the source has,
/// where it has several.
#[derive(Clone, Copy)]
struct Asked {
    denies: bool,
    shows_why: bool,
    own: u32,
}

/// What is asked for with one more option; none, where there is no such option.
fn with_option(asked: Asked, word: &str) -> Option<Asked> {
    match word {
        "--warn" => Some(asked),
        "--deny" => Some(Asked {
            denies: true,
            ..asked
        }),
        "--why" => Some(Asked {
            shows_why: true,
            ..asked
        }),
        _ => match word.strip_prefix("--own=")?.parse::<u32>() {
            Ok(own) => Some(Asked { own, ..asked }),
            Err(_) => None,
        },
    }
}

/// Whether a word is an option: it begins with `-`, and is more than that.
fn is_option(word: &str) -> bool {
    word.len() > 1 && word.starts_with("-")
}

/// Says that a word is no option, and answers the status.
fn misused(rt: &HostRuntime, word: &str) -> u8 {
    let word = shown(word);
    let _ = eprintln!(rt;
        "error: unexpected argument '{word}' found\n\nusage: cycc check --warn [--deny] [--why] FILE.."
    );
    USAGE
}

/// Says that no file is named, and answers the status.
fn lacks_file(rt: &HostRuntime) -> u8 {
    let _ = eprintln!(rt;
        "error: no FILE is named\n\nusage: cycc check --warn [--deny] [--why] FILE.."
    );
    USAGE
}

/// What the options ask for; the status, where they can't be done or ask for help.
fn asked_by(rt: &HostRuntime, words: &[String]) -> Result<Asked, u8> {
    let mut asked = Asked {
        denies: false,
        shows_why: false,
        own: u32::MAX,
    };
    for word in words {
        let word = word.as_str();
        if word == "--help" || word == "-h" {
            return Err(print(rt, HELP.as_bytes()));
        }
        if is_option(word) {
            match with_option(asked, word) {
                Some(more) => asked = more,
                None => return Err(misused(rt, word)),
            }
        }
    }
    Ok(asked)
}

/// Says that no host memory is left, and answers the status.
fn out_of_memory(rt: &HostRuntime) -> u8 {
    let _ = eprintln!(rt; "out of memory");
    MEMORY
}

/// Says why a source is refused, in more than the fault's line where that is asked for, and answers the status.
fn refuse(
    rt: &HostRuntime,
    path: &str,
    asked: Asked,
    text: &[u8],
    fault: CompileFault,
) -> Result<u8, AllocError> {
    if fault.place().is_none() {
        return Err(AllocError);
    }
    let path = shown(path);
    let more = if asked.shows_why {
        shown_fault(rt.alloc(), text, fault)?
    } else {
        Vec::new(rt.alloc())
    };
    let _ = eprintln!(rt; "{path}:{fault}");
    let _ = rt.stderr().write_all(&more);
    Ok(REFUSED)
}

/// Appends a warning's line, and what else is asked for.
fn push_warning(
    lines: &mut Vec<u8>,
    alloc: Global,
    path: &str,
    asked: Asked,
    placed: &Placed<'_, '_>,
) -> Result<(), AllocError> {
    let path = shown(path);
    let warning = placed.warning;
    let (line, column) = (placed.line, placed.column);
    let kind = warning.kind.name();
    let begin = format!(in alloc; "{path}:{line}:{column}: warning: {kind}: ")?;
    lines.extend_from_slice(begin.as_bytes())?;
    lines.extend_from_slice(warning.name)?;
    lines.extend_from_slice(warning.words.as_bytes())?;
    lines.push(b'\n')?;
    if asked.shows_why {
        push_marked(lines, placed.around, 1, placed.mark)?;
        lines.extend_from_slice(warning.cure.as_bytes())?;
        lines.push(b'\n')?;
    }
    Ok(())
}

/// The lines of the warnings of an accepted source.
fn lines_of(
    alloc: Global,
    path: &str,
    asked: Asked,
    warnings: &[Placed<'_, '_>],
) -> Result<Vec<u8>, AllocError> {
    let mut lines = Vec::new(alloc);
    for placed in warnings {
        push_warning(&mut lines, alloc, path, asked, placed)?;
    }
    Ok(lines)
}

/// Warns of what a source has, and answers the status.
fn warn(rt: &HostRuntime, path: &str, asked: Asked, text: &[u8]) -> Result<u8, AllocError> {
    let alloc = rt.alloc();
    let checked = match front(alloc, text) {
        Ok(checked) => checked,
        Err(fault) => return refuse(rt, path, asked, text, fault),
    };
    let Ok(tokens) = tokens(alloc, text) else {
        return Err(AllocError);
    };
    let found = warnings_of(alloc, checked.program(), asked.own)?;
    let warnings = with_places(alloc, text, &tokens, &found)?;
    let lines = lines_of(alloc, path, asked, &warnings)?;
    let _ = rt.stderr().write_all(&lines);
    if asked.denies && !warnings.is_empty() {
        return Ok(REFUSED);
    }
    Ok(print(rt, b"accepted\n"))
}

/// Checks a file, and answers the status.
fn check_file(rt: &HostRuntime, path: &str, asked: Asked) -> u8 {
    let text = match bytes_of(rt, path) {
        Ok(text) => text,
        Err(error) => return file_fault(rt, "read", path, &error),
    };
    match warn(rt, path, asked, &text) {
        Ok(status) => status,
        Err(AllocError) => out_of_memory(rt),
    }
}

/// Does what the words after `check` say, and answers the highest status of all files.
pub(crate) fn run(rt: &HostRuntime, words: &[String]) -> u8 {
    let asked = match asked_by(rt, words) {
        Ok(asked) => asked,
        Err(status) => return status,
    };
    let mut status = SUCCESS;
    let mut has_files = false;
    for word in words {
        if !is_option(word.as_str()) {
            has_files = true;
            status = status.max(check_file(rt, word.as_str(), asked));
        }
    }
    if has_files { status } else { lacks_file(rt) }
}
