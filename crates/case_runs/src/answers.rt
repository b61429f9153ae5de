// What the commands of cases answer.

use crate::devices::{Calls, Given, Script, Tape};
use crate::homes::homes_found;
use crate::plain::run_over_plain;
use crate::rules;
use command_line::status::{MEMORY, usage_status};
use command_line::{Command, command_of};
use cyc_host::Ending;
use cyc_words::Counted;
use cycc_answer::{answer, ended, refused};
use cycc_driver::CompileFault;
use std::alloc::{AllocError, Global};

/// What a command answers: its status, what it writes on standard output and says on standard error, the pages of an image, and its reads and writes.
#[derive(Drop)]
pub struct Found {
    pub status: u8,
    pub written: Vec<u8>,
    pub said: Vec<u8>,
    pub pages: Option<u32>,
    pub calls: Calls,
}

impl Found {
    /// Nothing, with this status.
    pub fn nothing(alloc: Global, status: u8) -> Found {
        Found {
            status,
            written: Vec::new(alloc),
            said: Vec::new(alloc),
            pages: None,
            calls: Calls::none(),
        }
    }
}

/// What a run between devices gave: its status, the pages of its image, and what it printed. Answers `AllocError` if the status is that of no memory.
pub fn found_between(
    status: u8,
    pages: Option<u32>,
    reader: Counted<Script<'_>>,
    writer: Counted<Tape>,
    said: Vec<u8>,
) -> Result<Found, AllocError> {
    if status == MEMORY {
        return Err(AllocError);
    }
    Ok(Found {
        status,
        calls: Calls::of(&reader, &writer),
        written: writer.into_inner().bytes,
        said,
        pages,
    })
}

/// The pages of an image, as its header has them.
fn pages_of(image: &[u8]) -> Option<u32> {
    let (_, rest) = image.split_at_checked(20)?;
    let (bytes, _) = rest.split_first_chunk::<4>()?;
    Some(u32::from_le_bytes(*bytes))
}

/// What `cycc` answers to a command; a map counts as written.
fn answered(
    alloc: Global,
    command: &Command<'_>,
    source: &[u8],
    given: Given<'_>,
) -> Result<Found, AllocError> {
    let mut reader = given.reader();
    let mut writer = given.writer(alloc);
    let mut said = Vec::new(alloc);
    let answer = answer(alloc, command, source, &mut reader, &mut writer, &mut said)?;
    let pages = match &answer.image {
        Some(image) => pages_of(image),
        None => None,
    };
    let mut found = found_between(answer.status, pages, reader, writer, said)?;
    if let Some(map) = &answer.map {
        found.written.extend_from_slice(map.as_bytes())?;
    }
    Ok(found)
}

/// What `cycc` answers to the words of its command line.
fn cycc(
    alloc: Global,
    command: &str,
    source: &[u8],
    given: Given<'_>,
) -> Result<Found, AllocError> {
    let words: Vec<&str> = command.split(' ').collect(alloc)?;
    match command_of(alloc, &words) {
        Ok(command) => answered(alloc, &command, source, given),
        Err(error) => Ok(Found::nothing(alloc, usage_status(&error))),
    }
}

/// What is said where memory lacks, first for a run and then for a source: both lines, and the status, or 0 where they have two.
fn lacking_found(alloc: Global) -> Result<Found, AllocError> {
    let mut found = Found::nothing(alloc, 0);
    let of_run = ended(alloc, Ending::HostMemory, None, false, &mut found.said)?;
    let of_source = refused(alloc, "IN", CompileFault::Memory, &mut found.said)?;
    if of_run == of_source {
        found.status = of_run;
    }
    Ok(found)
}

/// What a command answers on a source between what is read and what is written: the words of `cycc`, or one of the commands that run nothing.
pub fn answer_to(
    alloc: Global,
    command: &str,
    source: &[u8],
    given: Given<'_>,
) -> Result<Found, AllocError> {
    match command {
        "tokens" => rules::tokens_found(alloc, source),
        "parse" => rules::program_found(alloc, source),
        "judge" => rules::fault_found(alloc, source),
        "homes" => homes_found(alloc, source),
        "lacking" => lacking_found(alloc),
        _ => cycc(alloc, command, source, given),
    }
}

/// The same where it runs over a plain store; none where it runs nothing.
pub fn plain_answer_to(
    alloc: Global,
    command: &str,
    source: &[u8],
    given: Given<'_>,
) -> Result<Option<Found>, AllocError> {
    let words: Vec<&str> = command.split(' ').collect(alloc)?;
    match command_of(alloc, &words) {
        Ok(command) => run_over_plain(alloc, &command, source, given),
        Err(_) => Ok(None),
    }
}
