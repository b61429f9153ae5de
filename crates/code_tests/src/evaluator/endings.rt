// How programs of Core end, and what they write.
//
// A table has programs with an empty line between them. Behind a program and a line `--` stand its cases, a line each: the ending, the units of fuel if they
// aren't 10, the input and the output, and behind ` <- ` what stands in the program for its lines `?`. In input and output `?` is the byte 255. What is meant
// stands among the cases, behind a `#`.

use crate::devices::{Script, Tape};
use crate::evaluator::arrays::ARRAYS;
use crate::evaluator::checks::CHECKS;
use crate::evaluator::fuel::FUEL;
use crate::evaluator::keys::KEYS;
use crate::evaluator::leaves::LEFT;
use crate::evaluator::objects::OBJECTS;
use crate::evaluator::pointers::POINTERS;
use crate::evaluator::programs::program_of;
use crate::evaluator::regions::REGIONS;
use crate::evaluator::strings::STRINGS;
use crate::evaluator::unions::UNIONS;
use crate::evaluator::uniques::UNIQUES;
use crate::evaluator::unnamed::UNNAMED;
use crate::texts::parted;
use core_eval::{EvalEnding, evaluate_core};
use cyc_core::Program;
use cyc_words::{Counted, Input, Output};
use std::alloc::{AllocError, Global};
use std::test::Fail;

/// How a program ends on an input, with these units of fuel; none where a call fails, or other bytes are written.
fn ending_of(
    alloc: Global,
    program: &Program,
    fuel: u64,
    (input, output): (&'static str, &'static str),
) -> Option<EvalEnding> {
    let mut reader = Counted::new(Script::new(0, input));
    let mut writer = Counted::new(Tape::new(output));
    let ending = evaluate_core(alloc, program, &mut reader, &mut writer, fuel, &mut None);
    if reader.faults() == 0 && writer.faults() == 0 && writer.get_ref().is_whole() {
        Some(ending)
    } else {
        None
    }
}

/// Whether an ending is shown so.
fn is_shown(alloc: Global, ending: Option<EvalEnding>, wanted: &str) -> Result<bool, AllocError> {
    match ending {
        None => Ok(false),
        Some(ending) => Ok(format!(in alloc; "{ending:?}")?.as_str() == wanted),
    }
}

/// Whether the program of a text ends as a case says.
fn is_ended(alloc: Global, text: &str, case: &'static str) -> Result<bool, AllocError> {
    let (said, given) = case.split_once(" <- ").unwrap_or((case, ""));
    let (wanted, rest) = parted(said);
    let (fuel, devices) = parted(rest);
    match program_of(alloc, text, given) {
        None => Ok(false),
        Some(program) => {
            let fuel = fuel.parse().unwrap_or(10);
            let ending = ending_of(alloc, &program, fuel, parted(devices));
            is_shown(alloc, ending, wanted)
        }
    }
}

/// Refuses a program with a case that isn't so, and shows all of them.
fn expect_cases(alloc: Global, text: &'static str) -> Result<(), Fail> {
    let (program, cases) = text.split_once("\n--\n").unwrap_or((text, "none"));
    for case in cases.lines() {
        if !case.starts_with('#') && !is_ended(alloc, program, case)? {
            return Err(Fail::new(text));
        }
    }
    Ok(())
}

/// Refuses a table with such a program.
fn expect_programs(alloc: Global, table: &'static str) -> Result<(), Fail> {
    for text in table.split("\n\n") {
        expect_cases(alloc, text)?;
    }
    Ok(())
}

const TABLES: [&str; 12] = [
    ARRAYS, CHECKS, FUEL, KEYS, LEFT, OBJECTS, POINTERS, REGIONS, STRINGS, UNIONS, UNIQUES, UNNAMED,
];

#[test]
fn programs_of_core_end_as_they_are_said(rt: HostRuntime) -> Result<(), Fail> {
    for table in TABLES.iter() {
        expect_programs(rt.alloc(), table)?;
    }
    Ok(())
}
