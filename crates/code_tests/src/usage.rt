// The words of the command line.

use crate::texts::{parted, refuse};
use command_line::status::usage_status;
use command_line::{Command, Error, command_of, shown, shown_error, words_of};
use std::alloc::{AllocError, Global};
use std::env::{Env, FillError};
use std::test::Fail;

/// A row's words, and what stands behind them.
fn words_and_rest(row: &str) -> (&str, &str) {
    row.split_once(" -> ").unwrap_or((row, ""))
}

/// Whether a command is shown so.
fn is_shown(alloc: Global, command: &Command<'_>, wanted: &str) -> Result<bool, AllocError> {
    Ok(format!(in alloc; "{command:?}")?.as_str() == wanted)
}

/// Whether the words of a row are its command.
fn is_read(alloc: Global, row: &str) -> Result<bool, Fail> {
    let (words, wanted) = words_and_rest(row);
    let words: Vec<&str> = words.split(' ').collect(alloc)?;
    let command = command_of(alloc, words.as_slice())?;
    Ok(is_shown(alloc, &command, wanted)?)
}

/// Why words are no command.
fn refusal(alloc: Global, words: &str) -> Result<Error, Fail> {
    let words: Vec<&str> = words.split(' ').collect(alloc)?;
    Ok(command_of(alloc, words.as_slice()).err().ok_or("taken")?)
}

/// Whether what is shown of words has this.
fn has_text(alloc: Global, error: &Error, wanted: &str) -> Result<bool, AllocError> {
    Ok(format!(in alloc; "{error}")?.as_str().contains(wanted))
}

/// Whether the words of a row ask for help, which has what stands behind them.
fn is_help(alloc: Global, row: &str) -> Result<bool, Fail> {
    let (words, wanted) = words_and_rest(row);
    let error = refusal(alloc, words)?;
    Ok(usage_status(&error) == 0 && has_text(alloc, &error, wanted)?)
}

// the words that a system gives, a space apart, with `?` for the byte 255
#[derive(Clone, Copy)]
struct Given<'a> {
    line: &'a str,
}

/// Writes a word's bytes into as much room.
fn fill(room: &mut [u8], word: &str) {
    for (place, byte) in room.iter_mut().zip(word.bytes()) {
        *place = if byte == b'?' { 0xff } else { byte };
    }
}

impl Env for Given<'_> {
    fn arg(&self, i: usize, buf: &mut [u8]) -> Result<usize, FillError> {
        let Some(word) = self.line.split(' ').nth(i) else {
            return Err(FillError::NotPresent);
        };
        match buf.get_mut(..word.len()) {
            Some(room) => {
                fill(room, word);
                Ok(word.len())
            }
            None => Err(FillError::TooLong),
        }
    }

    fn var(&self, _name: &str, _buf: &mut [u8]) -> Result<usize, FillError> {
        Err(FillError::NotPresent)
    }

    fn var_at(&self, _i: usize, _buf: &mut [u8]) -> Result<usize, FillError> {
        Err(FillError::NotPresent)
    }
}

/// Whether words that a system gives are a command with this input, which is shown so, and before the mark that stands behind it.
fn has_input(alloc: Global, line: &str, input: &str, mark: &str) -> Result<bool, Fail> {
    let words = words_of(&(Given { line }, alloc))?;
    let command = command_of(alloc, words.as_slice())?;
    let path = command.input().ok_or("no input")?;
    Ok(path.strip_suffix(mark) == Some(input) && shown(path) == input)
}

/// Whether the words of a row, which are no text, are a command whose input is marked.
fn is_shown_marked(alloc: Global, row: &str) -> Result<bool, Fail> {
    let (words, input) = words_and_rest(row);
    has_input(alloc, words, input, "\0")
}

/// Whether the text of words that are no command has the sign of bytes that are no text, and not the mark of these.
fn is_marked(alloc: Global, error: &Error) -> Result<bool, AllocError> {
    let text = shown_error(alloc, error)?;
    Ok(text.as_str().contains('\u{FFFD}') && !text.as_str().contains('\0'))
}

/// Whether the words of a row, which are no text, are no command.
fn is_no_text(alloc: Global, row: &str) -> Result<bool, Fail> {
    let words = words_of(&(Given { line: row }, alloc))?;
    match command_of(alloc, words.as_slice()) {
        Ok(_) => Ok(false),
        Err(error) => Ok(usage_status(&error) == 9 && is_marked(alloc, &error)?),
    }
}

/// Whether it is so what a row says: words are a command, their help has a text, or they are no text and a command, or none.
fn is_so(alloc: Global, row: &str) -> Result<bool, Fail> {
    let (sort, row) = parted(row);
    match sort {
        "command" => is_read(alloc, row),
        "help" => is_help(alloc, row),
        "marked" => is_shown_marked(alloc, row),
        _ => is_no_text(alloc, row),
    }
}

// Words, and the command that they are; what the help of words has to say; a path that is no text, which is shown and marked; and words that are no text.
const WORDS: &str =
    r#"command cycc check a.cyc -> Check { input: "a.cyc", shows_why: false, shows_all: false }
command cycc compile a b --pages 7 -> Compile { input: "a", output: "b", map: None, pages: Pages { number: 7 }, stack_pages: Pages { number: 256 }, shows_why: false }
command cycc compile a b -> Compile { input: "a", output: "b", map: None, pages: Pages { number: 1024 }, stack_pages: Pages { number: 256 }, shows_why: false }
command cycc compile a --map c b -> Compile { input: "a", output: "b", map: Some("c"), pages: Pages { number: 1024 }, stack_pages: Pages { number: 256 }, shows_why: false }
command cycc compile a b --stack-pages=4096 -> Compile { input: "a", output: "b", map: None, pages: Pages { number: 1024 }, stack_pages: Pages { number: 4096 }, shows_why: false }
command cycc run a -> Run { input: "a", pages: Pages { number: 1024 }, stack_pages: Pages { number: 256 }, steps: 4294967295, shows_ending: false, shows_why: false, shows_where: false, shows_values: false, shows_stats: false, shows_counts: false }
command cycc run --ending --pages=4096 a --steps 18446744073709551615 -> Run { input: "a", pages: Pages { number: 4096 }, stack_pages: Pages { number: 256 }, steps: 18446744073709551615, shows_ending: true, shows_why: false, shows_where: false, shows_values: false, shows_stats: false, shows_counts: false }
command cycc run a --pages 2 --stack-pages 1 -> Run { input: "a", pages: Pages { number: 2 }, stack_pages: Pages { number: 1 }, steps: 4294967295, shows_ending: false, shows_why: false, shows_where: false, shows_values: false, shows_stats: false, shows_counts: false }
command cycc eval i -> Eval { input: "i", fuel: 4294967295, depth: None, memory: None, shows_ending: false, shows_why: false, shows_where: false }
command cycc eval i --steps 7 --ending -> Eval { input: "i", fuel: 7, depth: None, memory: None, shows_ending: true, shows_why: false, shows_where: false }
command cycc exec i --steps 2 -> Exec { input: "i", steps: 2, shows_ending: false, shows_where: false, shows_stats: false, shows_counts: false }
command cycc exec i --where --stats --counts -> Exec { input: "i", steps: 4294967295, shows_ending: false, shows_where: true, shows_stats: true, shows_counts: true }
command cycc dump i -> Dump { input: "i" }
command cycc check a --why -> Check { input: "a", shows_why: true, shows_all: false }
command cycc check --all a -> Check { input: "a", shows_why: false, shows_all: true }
command cycc compile --why a b -> Compile { input: "a", output: "b", map: None, pages: Pages { number: 1024 }, stack_pages: Pages { number: 256 }, shows_why: true }
command cycc run a --why -> Run { input: "a", pages: Pages { number: 1024 }, stack_pages: Pages { number: 256 }, steps: 4294967295, shows_ending: false, shows_why: true, shows_where: false, shows_values: false, shows_stats: false, shows_counts: false }
command cycc run a --where --stats -> Run { input: "a", pages: Pages { number: 1024 }, stack_pages: Pages { number: 256 }, steps: 4294967295, shows_ending: false, shows_why: false, shows_where: true, shows_values: false, shows_stats: true, shows_counts: false }
command cycc run a --values -> Run { input: "a", pages: Pages { number: 1024 }, stack_pages: Pages { number: 256 }, steps: 4294967295, shows_ending: false, shows_why: false, shows_where: false, shows_values: true, shows_stats: false, shows_counts: false }
command cycc eval i --depth 9 --memory 2 -> Eval { input: "i", fuel: 4294967295, depth: Some(9), memory: Some(2097152), shows_ending: false, shows_why: false, shows_where: false }
command cycc eval i --why -> Eval { input: "i", fuel: 4294967295, depth: None, memory: None, shows_ending: false, shows_why: true, shows_where: false }
command cycc eval i --where -> Eval { input: "i", fuel: 4294967295, depth: None, memory: None, shows_ending: false, shows_why: false, shows_where: true }
command cycc explain 1 -> Explain { text: "The exit status 1:\nThe run ended with another status.\n" }
command cycc explain status 1 -> Explain { text: "The exit status 1:\nThe run ended with another status.\n" }
command cycc explain break -> Explain { text: "Break, a fault of the machine:\nEBREAK.\n\nCode that comes to it:\n    00100073\n" }
help cycc --help -> 9  the arguments are wrong
help cycc check --help -> Outlives
help cycc compile --help -> TooLarge
help cycc run --help -> TooDeep
help cycc eval --help -> Consumed
help cycc exec --help -> Trailing
help cycc dump --help -> Magic
help cycc explain --help -> <NAME>...
marked cycc check f?.cyc -> f�.cyc
no_text cycc run a --pages=1?
no_text cycc run a --stack-pages=1?
no_text cycc run a --ending?
no_text cycc check? a b"#;

// a path of a thousand letters, behind the words before it
const LONG: &str = "\
cycc check \
aaaaaaaaaaaaaaaaaaaaaaaaaaaaaaaaaaaaaaaaaaaaaaaaaaaaaaaaaaaaaaaaaaaaaaaaaaaaaaaaaaaaaaaaaaaaaaaaaaaaaaaaaaaaaaaaaaaaaaaaaaaaa\
aaaaaaaaaaaaaaaaaaaaaaaaaaaaaaaaaaaaaaaaaaaaaaaaaaaaaaaaaaaaaaaaaaaaaaaaaaaaaaaaaaaaaaaaaaaaaaaaaaaaaaaaaaaaaaaaaaaaaaaaaaaaa\
aaaaaaaaaaaaaaaaaaaaaaaaaaaaaaaaaaaaaaaaaaaaaaaaaaaaaaaaaaaaaaaaaaaaaaaaaaaaaaaaaaaaaaaaaaaaaaaaaaaaaaaaaaaaaaaaaaaaaaaaaaaaa\
aaaaaaaaaaaaaaaaaaaaaaaaaaaaaaaaaaaaaaaaaaaaaaaaaaaaaaaaaaaaaaaaaaaaaaaaaaaaaaaaaaaaaaaaaaaaaaaaaaaaaaaaaaaaaaaaaaaaaaaaaaaaa\
aaaaaaaaaaaaaaaaaaaaaaaaaaaaaaaaaaaaaaaaaaaaaaaaaaaaaaaaaaaaaaaaaaaaaaaaaaaaaaaaaaaaaaaaaaaaaaaaaaaaaaaaaaaaaaaaaaaaaaaaaaaaa\
aaaaaaaaaaaaaaaaaaaaaaaaaaaaaaaaaaaaaaaaaaaaaaaaaaaaaaaaaaaaaaaaaaaaaaaaaaaaaaaaaaaaaaaaaaaaaaaaaaaaaaaaaaaaaaaaaaaaaaaaaaaaa\
aaaaaaaaaaaaaaaaaaaaaaaaaaaaaaaaaaaaaaaaaaaaaaaaaaaaaaaaaaaaaaaaaaaaaaaaaaaaaaaaaaaaaaaaaaaaaaaaaaaaaaaaaaaaaaaaaaaaaaaaaaaaa\
aaaaaaaaaaaaaaaaaaaaaaaaaaaaaaaaaaaaaaaaaaaaaaaaaaaaaaaaaaaaaaaaaaaaaaaaaaaaaaaaaaaaaaaaaaaaaaaaaaaaaaaaaaaaaaaaaaaaaaaaaaaaa";

#[test]
fn words_are_read(rt: HostRuntime) -> Result<(), Fail> {
    for row in WORDS.lines() {
        if !is_so(rt.alloc(), row)? {
            return refuse(Some(row));
        }
    }
    let path = LONG.strip_prefix("cycc check ").unwrap_or("");
    let is_whole = has_input(rt.alloc(), LONG, path, "")?;
    assert!(rt; is_whole && path.len() == 1000);
    Ok(())
}
