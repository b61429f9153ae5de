// Lines on standard error, and the statuses that go with them.

ghost use Rattle.std.specs.Prelude.{◌≡◌, IfOk, if◌then◌else◌};
ghost use Rattle.cycc_answer.specs.Statuses.{status_of, evaluated_status, refused_status, unloaded_status};

use command_line::Command;
use command_line::status::{
    ENDED, EXHAUSTED, FILE_FAULT, MACHINE_FAULT, MEMORY, RAISED, REFUSED, STEP_LIMIT, SUCCESS,
};
use core_eval::EvalEnding;
use cyc_host::Ending;
use cyc_image::ImageFault;
use cycc_driver::CompileFault;
use std::alloc::{AllocError, Global};
use std::io::Write;

/// What lines tell of a command: the path of its file, whether a run's ending is told, whether a refusal is told in more than its line and
/// whether those behind the first are told, and whether it is told where a run stopped, what its calls held, what it took and how often it executed
/// each instruction.
#[derive(Clone, Copy)]
pub struct Told<'a> {
    pub input: &'a str,
    pub shows_ending: bool,
    pub shows_why: bool,
    pub shows_all: bool,
    pub shows_where: bool,
    pub shows_values: bool,
    pub shows_stats: bool,
    pub shows_counts: bool,
}

impl<'a> Told<'a> {
    /// Of the file at this path no more than what is always told.
    fn little(input: &'a str) -> Told<'a> {
        Told {
            input,
            shows_ending: false,
            shows_why: false,
            shows_all: false,
            shows_where: false,
            shows_values: false,
            shows_stats: false,
            shows_counts: false,
        }
    }

    /// What is told of a command; of one that reads no file nothing.
    pub fn of(command: &Command<'a>) -> Told<'a> {
        let little = Told::little(command.input().unwrap_or(""));
        match *command {
            Command::Check {
                shows_why,
                shows_all,
                ..
            }
            | Command::Stack {
                shows_why,
                shows_all,
                ..
            } => Told {
                shows_why,
                shows_all,
                ..little
            },
            Command::Compile { shows_why, .. } => Told {
                shows_why,
                ..little
            },
            Command::Run {
                shows_ending,
                shows_why,
                shows_where,
                shows_values,
                shows_stats,
                shows_counts,
                ..
            } => Told {
                shows_ending,
                shows_why,
                shows_where: shows_where || shows_values,
                shows_values,
                shows_stats,
                shows_counts,
                ..little
            },
            Command::Eval {
                shows_ending,
                shows_why,
                shows_where,
                ..
            } => Told {
                shows_ending,
                shows_why,
                shows_where,
                ..little
            },
            Command::Exec {
                shows_ending,
                shows_where,
                shows_stats,
                shows_counts,
                ..
            } => Told {
                shows_ending,
                shows_where,
                shows_stats,
                shows_counts,
                ..little
            },
            Command::Dump { .. } | Command::Explain { .. } => little,
        }
    }

    /// Whether a run has to be watched for what is told of it.
    pub fn is_watched(self) -> bool {
        self.shows_where || self.shows_stats || self.shows_counts
    }
}

/// Says a line on standard error. A line that can't be written is lost.
pub fn say<E: Write>(faults: &mut E, line: &str) {
    let _ = faults.write_all(line.as_bytes());
    let _ = faults.write_all(b"\n");
}

/// Says that no host memory is left, and answers the status.
fn out_of_memory<E: Write>(faults: &mut E) -> u8
    ensures { result ≡ 7 }
{
    say(faults, "out of memory");
    MEMORY
}

/// Says why a source is refused, and answers the status.
pub fn refused<E: Write>(
    alloc: Global,
    input: &str,
    fault: CompileFault,
    faults: &mut E,
) -> Result<u8, AllocError>
    ensures { IfOk result (λ status. status ≡ refused_status fault) }
{
    if fault.place().is_none() {
        return Ok(out_of_memory(faults));
    }
    let line = format!(in alloc; "{input}:{fault}")?;
    say(faults, line.as_str());
    Ok(REFUSED)
}

/// Says why an image is refused, and answers the status.
pub fn unloaded<E: Write>(
    alloc: Global,
    input: &str,
    fault: ImageFault,
    faults: &mut E,
) -> Result<u8, AllocError>
    ensures { IfOk result (λ status. status ≡ unloaded_status fault) }
{
    if let ImageFault::Memory = fault {
        return Ok(out_of_memory(faults));
    }
    let line = format!(in alloc; "{input}: {fault}")?;
    say(faults, line.as_str());
    Ok(REFUSED)
}

/// The status of an ending.
fn status_of_ending(ending: Ending) -> u8
    ensures { result ≡ status_of ending }
{
    match ending {
        Ending::Ended(0) => SUCCESS,
        Ending::Ended(_) => ENDED,
        Ending::Raised(_) => RAISED,
        Ending::Exhausted => EXHAUSTED,
        Ending::StepLimit => STEP_LIMIT,
        Ending::Fault(_) => MACHINE_FAULT,
        Ending::ReadFault | Ending::WriteFault => FILE_FAULT,
        Ending::HostMemory => MEMORY,
    }
}

/// The line that says how a run ended; at a machine fault with the program counter, where it is known.
fn line_of(alloc: Global, ending: Ending, pc: Option<u32>) -> Result<String, AllocError> {
    match ending {
        Ending::Ended(status) => format!(in alloc; "ended {status}"),
        Ending::Raised(kind) => format!(in alloc; "raised {kind}"),
        Ending::Exhausted => String::from_str(alloc, "exhausted"),
        Ending::StepLimit => String::from_str(alloc, "step limit"),
        Ending::Fault(fault) => match pc {
            Some(pc) => format!(in alloc; "fault {fault} at 0x{pc:08x}"),
            None => format!(in alloc; "fault {fault}"),
        },
        Ending::ReadFault => String::from_str(alloc, "read fault"),
        Ending::WriteFault => String::from_str(alloc, "write fault"),
        Ending::HostMemory => String::from_str(alloc, "out of memory"),
    }
}

/// Says how a run ended, and answers the status. The lines of faults always appear, the others where they are asked for.
pub fn ended<E: Write>(
    alloc: Global,
    ending: Ending,
    pc: Option<u32>,
    shows_ending: bool,
    faults: &mut E,
) -> Result<u8, AllocError>
    ensures { IfOk result (λ status. status ≡ status_of ending) }
{
    let status = status_of_ending(ending);
    if shows_ending || status >= MACHINE_FAULT {
        say(faults, line_of(alloc, ending, pc)?.as_str());
    }
    Ok(status)
}

/// Says how an evaluation ended, as `ended` does: fuel that is used up is the step limit.
pub fn evaluated<E: Write>(
    alloc: Global,
    ending: EvalEnding,
    shows_ending: bool,
    faults: &mut E,
) -> Result<u8, AllocError>
    ensures { IfOk result (λ status. status ≡ evaluated_status ending) }
{
    let same = match ending {
        EvalEnding::Ended(status) => Ending::Ended(status),
        EvalEnding::Raised(kind) => Ending::Raised(kind),
        EvalEnding::Running => Ending::StepLimit,
        EvalEnding::ReadFault => Ending::ReadFault,
        EvalEnding::WriteFault => Ending::WriteFault,
        EvalEnding::HostMemory => return Ok(out_of_memory(faults)),
        EvalEnding::Stuck => {
            say(faults, "stuck");
            return Ok(MACHINE_FAULT);
        }
    };
    ended(alloc, same, None, shows_ending, faults)
}

/// The status of what was printed on standard output: a failed write is said.
pub fn printed<E: Write>(succeeded: bool, faults: &mut E) -> u8
    ensures { result ≡ (if succeeded then 0 else 6) }
{
    if succeeded {
        SUCCESS
    } else {
        say(faults, "write fault");
        FILE_FAULT
    }
}
