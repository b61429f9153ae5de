//! `cycc_edit`: what an editor asks of `cycc`. `cycc fmt` lays out the text of programs, `cycc check --warn` warns, and `cycc lsp` is a language server
//! over the standard streams.
//!
//! `main` reads the first word and goes on with the command of that name. It is a program of its own, so that `cycc check` and the others don't wait
//! until it is proved and built.
#![tactic(auto)]

mod files;
mod fmt;
mod frames_read;
mod lsp;
mod warn;

use command_line::status::{MEMORY, USAGE};
use command_line::words_of;
use std::alloc::AllocError;
use std::process::ExitCode;

/// What is said where the words are no command.
const USAGE_LINE: &str =
    "usage: cycc fmt [--check] [FILE]..\n       cycc check --warn [--deny] [--why] FILE..\n       cycc lsp";

/// Says how the program is called, and answers the status.
fn misused(rt: &HostRuntime) -> u8 {
    let _ = eprintln!(rt; "{USAGE_LINE}");
    USAGE
}

/// Answers the words of the command line with a status.
fn run(rt: &HostRuntime) -> Result<u8, AllocError> {
    let words = words_of(rt)?;
    match words.as_slice() {
        [_, command, rest @ ..] if command.as_str() == "fmt" => Ok(fmt::run(rt, rest)),
        [_, command, rest @ ..] if command.as_str() == "check" => Ok(warn::run(rt, rest)),
        [_, command, ..] if command.as_str() == "lsp" => Ok(lsp::run(rt)),
        _ => Ok(misused(rt)),
    }
}

/// Does what the command line says, and exits with its status.
fn main(rt: HostRuntime) -> ExitCode {
    match run(&rt) {
        Ok(status) => ExitCode::from(status),
        Err(AllocError) => ExitCode::from(MEMORY),
    }
}
