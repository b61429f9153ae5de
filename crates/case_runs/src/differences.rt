// What a case expects, and how an answer differs.

use crate::answers::Found;
use crate::cases::{Case, Part};
use crate::devices::Calls;
use crate::texts::{Shown, bytes_of, pieced_bytes};
use std::alloc::{AllocError, Global};
use std::fmt;

/// Whether these bytes are what a part of a case means. One line on standard error needs no further mark of its end.
fn are_meant(alloc: Global, case: Case<'_>, key: &str, bytes: &[u8]) -> Result<bool, AllocError> {
    let part = case.part(key);
    let wanted = bytes_of(alloc, part)?;
    let has_lines = matches!(
        part,
        Some(Part {
            has_lines: true,
            ..
        })
    );
    if key == "says" && !wanted.is_empty() && !has_lines {
        return Ok(bytes.strip_suffix(b"\n") == Some(wanted.as_slice()));
    }
    Ok(bytes == wanted.as_slice())
}

/// Whether these bytes are what a case expects to be written.
fn are_written(alloc: Global, case: Case<'_>, bytes: &[u8]) -> Result<bool, AllocError> {
    match case.part("writes_pieces") {
        Some(part) => Ok(pieced_bytes(alloc, part)?.as_slice() == bytes),
        None => are_meant(alloc, case, "writes", bytes),
    }
}

/// Whether a status is the one that the case, or else the head of its file, has, and otherwise 0.
fn is_status(status: u8, head: Case<'_>, case: Case<'_>) -> bool {
    let wanted = case.word("status").or(head.word("status")).unwrap_or("0");
    wanted.parse() == Ok(status)
}

/// Whether the pages of an image are those that the case has; none where no image is answered.
fn are_pages(pages: Option<u32>, case: Case<'_>) -> bool {
    match (pages, case.word("pages")) {
        (Some(pages), Some(wanted)) => wanted.parse() == Ok(pages),
        (None, None) => true,
        _ => false,
    }
}

/// Whether reads and writes are as many as the case has, where it counts them.
fn are_calls(alloc: Global, calls: Calls, case: Case<'_>) -> Result<bool, AllocError> {
    match case.word("calls") {
        Some(wanted) => Ok(format!(in alloc; "{calls}")?.as_str() == wanted),
        None => Ok(true),
    }
}

/// Whether what is answered to a case is what it expects.
pub fn is_as_wanted(
    alloc: Global,
    found: &Found,
    head: Case<'_>,
    case: Case<'_>,
) -> Result<bool, AllocError> {
    Ok(
        is_status(found.status, head, case)
            && are_pages(found.pages, case)
            && are_calls(alloc, found.calls, case)?
            && are_written(alloc, case, &found.written)?
            && are_meant(alloc, case, "says", &found.said)?,
    )
}

/// An answer that isn't what its case expects.
#[derive(Clone, Copy)]
pub struct Difference<'a> {
    pub case: Case<'a>,
    pub command: &'a str,
    pub found: &'a Found,
}

impl<'a> fmt::Display for Difference<'a> {
    fn fmt<W: fmt::Write>(&self, f: &mut fmt::Formatter<W>) -> fmt::Result {
        let name = self.case.name;
        let command = self.command;
        let status = self.found.status;
        let calls = self.found.calls;
        let written = Shown(&self.found.written);
        let said = Shown(&self.found.said);
        writeln!(
            f,
            "== {name}\n-- command: {command}\n-- status: {status}\n-- calls: {calls}"
        )?;
        if let Some(pages) = self.found.pages {
            writeln!(f, "-- pages: {pages}")?;
        }
        write!(f, "-- writes: {written}\n-- says: {said}")
    }
}
