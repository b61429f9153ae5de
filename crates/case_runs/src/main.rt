//! Does the cases of files, and prints each that differs from what it expects, and how many there are.
//!
//! The words of its command line are the files, in the folder that it runs in: the folder `data`, whose files docs/TESTS.md
//! describes. A case gives a source, commands on it, and what each of them has to answer: what `cycc` answers, by `cycc_answer`,
//! the tokens, the grammar or some rules of the language alone, or where locals live. Behind a first word `store` they say which calls of a store
//! are made instead, or which image runs over it, to be timed by `bench/run`.
#![tactic(auto)]

mod answers;
mod cases;
mod devices;
mod differences;
mod homes;
mod plain;
mod rules;
mod stores;
mod texts;

use crate::answers::{Found, answer_to, plain_answer_to};
use crate::cases::{Case, Part};
use crate::devices::Given;
use crate::differences::{Difference, is_as_wanted};
use crate::stores::{is_image_run, makes_calls};
use crate::texts::{bytes_of, pieced_bytes, plain_bytes};
use std::fs::File;
use std::io::Read;
use std::process::ExitCode;
use std::{env, io};

/// The most bytes that are read of a file.
const MOST: u64 = 1048577;

/// How many cases were done, and how many of them differ.
#[derive(Clone, Copy)]
struct Count {
    cases: u64,
    different: u64,
}

/// The bytes of a file.
fn file_bytes(rt: &HostRuntime, path: &str) -> io::Result<Vec<u8>> {
    let mut bytes = Vec::new(rt.alloc());
    File::open(rt, path)?.take(MOST).read_to_end(&mut bytes)?;
    Ok(bytes)
}

/// The bytes of a case's source: the file that it names, or what it gives.
fn source_of(rt: &HostRuntime, case: Case<'_>) -> io::Result<Vec<u8>> {
    if let Some(part) = case.part("file") {
        return file_bytes(rt, part.text);
    }
    if let Some(part) = case.part("source") {
        return Ok(plain_bytes(rt.alloc(), part)?);
    }
    if let Some(part) = case.part("pieces") {
        return Ok(pieced_bytes(rt.alloc(), part)?);
    }
    Ok(bytes_of(rt.alloc(), case.part("bytes"))?)
}

/// Whether what a command answers to a case is what it expects. Where it isn't, that is printed.
fn is_expected(
    rt: &HostRuntime,
    command: &str,
    head: Case<'_>,
    case: Case<'_>,
    found: Found,
) -> io::Result<bool> {
    let holds = is_as_wanted(rt.alloc(), &found, head, case)?;
    if !holds {
        let difference = Difference {
            case,
            command,
            found: &found,
        };
        println!(rt; "{difference}")?;
    }
    Ok(holds)
}

/// Whether a command answers to a case and its source what it expects, over a plain store too where it runs an image.
fn is_answered(
    rt: &HostRuntime,
    command: &str,
    (head, case): (Case<'_>, Case<'_>),
    source: &[u8],
    given: Given<'_>,
) -> io::Result<bool> {
    let found = answer_to(rt.alloc(), command, source, given)?;
    let is_right = is_expected(rt, command, head, case, found)?;
    match plain_answer_to(rt.alloc(), command, source, given)? {
        Some(plain) => Ok(is_expected(rt, command, head, case, plain)? && is_right),
        None => Ok(is_right),
    }
}

/// Whether a command answers to a case what it expects.
fn holds(rt: &HostRuntime, command: &str, head: Case<'_>, case: Case<'_>) -> io::Result<bool> {
    let source = source_of(rt, case)?;
    let input = bytes_of(rt.alloc(), case.part("input"))?;
    let given = Given::of(case, &input);
    is_answered(rt, command, (head, case), &source, given)
}

/// Whether each command of a case answers what it expects, and there is one, and no part that means nothing.
fn is_right(rt: &HostRuntime, head: Case<'_>, case: Case<'_>) -> io::Result<bool> {
    let named = if case.part("command").is_some() {
        case
    } else {
        head
    };
    let mut is_right = named.part("command").is_some() && case.is_known() && head.is_known();
    for text in named.parts.split("\n-- ") {
        let part = Part::of(text);
        if part.key == "command" && !holds(rt, part.text, head, case)? {
            is_right = false;
        }
    }
    Ok(is_right)
}

/// Does the cases of a file's text.
fn do_cases(rt: &HostRuntime, path: &str, text: &str, count: Count) -> io::Result<Count> {
    let mut count = count;
    let mut pieces = text.split("\n== ");
    let head = Case::of(pieces.next().unwrap_or(""));
    for piece in pieces {
        let case = Case::of(piece);
        count.cases = count.cases.saturating_add(1);
        if !is_right(rt, head, case)? {
            count.different = count.different.saturating_add(1);
            let name = case.name;
            println!(rt; "{path}: {name}: differs")?;
        }
    }
    Ok(count)
}

/// Does the cases of a file.
fn do_file(rt: &HostRuntime, path: &str, count: Count) -> io::Result<Count> {
    let mut text = String::new(rt.alloc());
    File::open(rt, path)?.take(MOST).read_to_string(&mut text)?;
    do_cases(rt, path, text.as_str(), count)
}

/// Does the cases of files.
fn do_files(rt: &HostRuntime, paths: &[String]) -> io::Result<()> {
    let mut count = Count {
        cases: 0,
        different: 0,
    };
    for path in paths {
        count = do_file(rt, path.as_str(), count)?;
    }
    let Count { cases, different } = count;
    println!(rt; "{cases} cases, {different} differ")
}

/// Does what these words say: whether nothing was refused.
fn does(rt: &HostRuntime, words: &[String]) -> io::Result<bool> {
    match words {
        [first, store, path] if first.as_str() == "store" => {
            let bytes = file_bytes(rt, path.as_str())?;
            Ok(is_image_run(rt.alloc(), store.as_str(), &bytes))
        }
        [first, calls @ ..] if first.as_str() == "store" => makes_calls(rt, calls),
        paths => {
            do_files(rt, paths)?;
            Ok(true)
        }
    }
}

/// Does what the command line says: whether nothing was refused.
fn run(rt: &HostRuntime) -> io::Result<bool> {
    let words: Vec<String> = env::args(rt)?.skip(1).collect(rt.alloc())?;
    does(rt, &words)
}

/// Does what the command line says, and fails where something was refused or a call failed.
fn main(rt: HostRuntime) -> ExitCode {
    match run(&rt) {
        Ok(true) => ExitCode::SUCCESS,
        _ => ExitCode::FAILURE,
    }
}
