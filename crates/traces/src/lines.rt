// The lines that say where a run stopped.

use crate::causes::cause_of;
use crate::exhausted::{Arena, exhausted};
use crate::points::Sight;
use crate::program::{Called, Traced};
use crate::text::name_of;
use crate::told::{called_at, in_function, limited, push_count, raised_at, shown_of};
use crate::values::{Frame, values_of};
use cyc_host::{Active, Ending, Watch};
use cyc_words::Kind;
use std::alloc::{AllocError, Global};

/// A text that was run, the names of its functions, and whether it is told what the active calls held.
#[derive(Clone, Copy)]
struct Source<'a> {
    text: &'a [u8],
    traced: &'a Traced,
    names: &'a [&'a str],
    shows_values: bool,
}

impl<'a> Source<'a> {
    /// The name of a function.
    fn name(self, function: usize) -> &'a str {
        name_of(self.names, function)
    }
}

/// A run that was watched: the path of its file, what was seen of it, its arena, the address where it stopped, and its text; none of an image
/// alone, of which addresses are told.
#[derive(Clone, Copy)]
struct Run<'a> {
    input: &'a str,
    watch: &'a Watch,
    arena: Arena,
    pc: u32,
    source: Option<Source<'a>>,
}

impl<'a> Run<'a> {
    /// The innermost active function of a text, where its call is known.
    fn innermost(self, source: Source<'a>) -> Option<Called> {
        if self.watch.unkept() > 0 {
            return None;
        }
        source.traced.called(self.watch.active().last()?.at)
    }

    /// The line of what the function that this call made active held, where it had come to this address of the code, with its frame at the stack pointer.
    fn values(
        self,
        alloc: Global,
        call: &Active,
        homes: &[u32],
        address: u32,
        stack: u32,
    ) -> Result<String, AllocError> {
        let none = Ok(String::new(alloc));
        let Some(source) = self.source else {
            return none;
        };
        let Some(called) = source.traced.called(call.at) else {
            return none;
        };
        let frame = Frame {
            function: called.function,
            passed: &call.passed,
            homes,
            watch: self.watch,
            stack,
            at: source.traced.offset_at(called.function, address),
        };
        values_of(alloc, source.traced, source.text, source.names, frame)
    }

    /// The line of what the innermost active function held, where that is told and its call is known.
    fn innermost_values(self, alloc: Global) -> Result<String, AllocError> {
        match self.watch.active().last() {
            Some(call) if self.shows_values() && self.watch.unkept() == 0 => {
                let stack = self.watch.last().stack;
                self.values(alloc, call, self.watch.homes(), self.pc, stack)
            }
            _ => Ok(String::new(alloc)),
        }
    }

    /// Whether it is told what the active calls held.
    fn shows_values(self) -> bool {
        match self.source {
            Some(source) => source.shows_values,
            None => false,
        }
    }

    /// The active calls that have a line, the innermost last. The first call of a text is that of `main`, which has none.
    fn calls(self) -> &'a [Active] {
        let active = self.watch.active();
        if self.source.is_some() {
            active.get(1..).unwrap_or(&[])
        } else {
            active
        }
    }
}

/// Says where a run stopped behind what is said of it: in which function of its text, where that is known, or at which address.
fn inside_of(alloc: Global, run: Run<'_>) -> Result<String, AllocError> {
    let Some(source) = run.source else {
        let pc = run.pc;
        return format!(in alloc; " at 0x{pc:08x}");
    };
    let Some(active) = run.innermost(source) else {
        return Ok(String::new(alloc));
    };
    in_function(alloc, source.name(active.function))
}

/// The line of a raise, with its position or its address.
fn raised(alloc: Global, run: Run<'_>, kind: Kind) -> Result<String, AllocError> {
    let input = run.input;
    let pc = run.pc;
    let Some(source) = run.source else {
        return format!(in alloc; "{input}:0x{pc:08x}: {kind}\n");
    };
    let Some(place) = source.traced.place_at(pc) else {
        return Ok(String::new(alloc));
    };
    let values = if source.shows_values {
        cause_of(alloc, source.traced, source.text, run.watch, kind)?
    } else {
        String::new(alloc)
    };
    raised_at(alloc, input, place, kind, values.as_str())
}

/// The first line: where a raise is, what had no space, or where the steps ended. Of another ending there is none.
fn stop_of(alloc: Global, run: Run<'_>, ending: Ending) -> Result<String, AllocError> {
    if let Ending::Raised(kind) = ending {
        return raised(alloc, run, kind);
    }
    let inside = inside_of(alloc, run)?;
    let inside = inside.as_str();
    match ending {
        Ending::Exhausted => exhausted(alloc, run.watch, run.arena, inside),
        Ending::StepLimit => limited(alloc, "step", inside),
        _ => Ok(String::new(alloc)),
    }
}

/// The line of an active function of a text, with the position of its call; none of `main`.
fn call_in(
    alloc: Global,
    input: &str,
    source: Source<'_>,
    address: u32,
) -> Result<String, AllocError> {
    let Some(active) = source.traced.called(address) else {
        return Ok(String::new(alloc));
    };
    let Some(place) = active.call else {
        return Ok(String::new(alloc));
    };
    called_at(alloc, input, place, source.name(active.function))
}

/// The line of an active call, with its position, or with its address and the one that it calls.
fn call_of(alloc: Global, run: Run<'_>, address: u32) -> Result<String, AllocError> {
    let input = run.input;
    if let Some(source) = run.source {
        return call_in(alloc, input, source, address);
    }
    match Sight::at(run.watch.code(), address) {
        Some(Sight::Call(target)) => {
            format!(in alloc; "{input}:0x{address:08x}: call of 0x{target:08x}\n")
        }
        _ => Ok(String::new(alloc)),
    }
}

/// The line of what the function held that makes this call, by the call that made it active; none where that isn't told.
fn caller_of(
    alloc: Global,
    run: Run<'_>,
    number: usize,
    call: &Active,
) -> Result<String, AllocError> {
    match run.watch.active().get(number) {
        Some(outer) if run.shows_values() => run.values(
            alloc,
            outer,
            &call.homes,
            call.at,
            call.stack,
        ),
        _ => Ok(String::new(alloc)),
    }
}

/// Appends the lines of this number of active calls, the innermost first, without so many of the innermost.
fn push_some(
    alloc: Global,
    run: Run<'_>,
    passed: usize,
    count: usize,
    lines: &mut String,
) -> Result<(), AllocError> {
    let mut number = run.calls().len().saturating_sub(passed);
    for call in run.calls().iter().rev().skip(passed).take(count) {
        // in a text the first active call, that of `main`, has no line, so the call before this one has this one's number
        number = number.saturating_sub(1);
        let line = call_of(alloc, run, call.at)?;
        lines.push_str(line.as_str())?;
        let values = caller_of(alloc, run, number, call)?;
        lines.push_str(values.as_str())?;
    }
    Ok(())
}

/// Appends the lines of the active calls, the innermost first; of many those within and those outside.
fn push_calls(alloc: Global, run: Run<'_>, lines: &mut String) -> Result<(), AllocError> {
    push_count(alloc, lines, run.watch.unkept())?;
    let all = run.calls().len();
    let (first, left_out) = shown_of(all);
    push_some(alloc, run, 0, first, lines)?;
    push_count(alloc, lines, left_out as u64)?;
    push_some(alloc, run, first.saturating_add(left_out), all, lines)
}

/// Whether it is told of an ending where it came.
fn is_told(ending: Ending) -> bool {
    matches!(
        ending,
        Ending::Raised(_) | Ending::Exhausted | Ending::StepLimit | Ending::Fault(_)
    )
}

/// A run that was watched and has ended: the path of its file, what was seen of it, its arena, and its ending.
#[derive(Clone, Copy)]
pub struct Stopped<'a> {
    pub input: &'a str,
    pub watch: &'a Watch,
    pub arena: Arena,
    pub ending: Ending,
}

/// The lines of a run whose ending is told, which stopped at an address of the code of a text, or of an image alone.
fn lines_of<'a>(
    alloc: Global,
    stopped: Stopped<'a>,
    pc: u32,
    source: Option<Source<'a>>,
) -> Result<String, AllocError> {
    let run = Run {
        input: stopped.input,
        watch: stopped.watch,
        arena: stopped.arena,
        pc,
        source,
    };
    let mut lines = stop_of(alloc, run, stopped.ending)?;
    let values = run.innermost_values(alloc)?;
    lines.push_str(values.as_str())?;
    push_calls(alloc, run, &mut lines)?;
    Ok(lines)
}

/// The lines that say where the run of an accepted text stopped: the position of what raised, what had no space, or in which function the
/// steps ended; and behind it the active functions, the innermost first, each with the position of its call. Of another ending nothing. If values
/// are asked for: also the index that was out of bounds or the expression that was NULL, and behind each function's line what it was passed and what
/// its names held.
pub fn trace(
    alloc: Global,
    stopped: Stopped<'_>,
    text: &[u8],
    shows_values: bool,
) -> Result<String, AllocError> {
    if !is_told(stopped.ending) {
        return Ok(String::new(alloc));
    }
    let watch = stopped.watch;
    let Some(traced) = Traced::of(alloc, text, watch.code())? else {
        return Ok(String::new(alloc));
    };
    let names = traced.names(alloc)?;
    let source = Source {
        text,
        traced: &traced,
        names: &names,
        shows_values,
    };
    lines_of(alloc, stopped, watch.last().pc, Some(source))
}

/// The lines that say where the run of an image stopped, whose source isn't at hand: the same by addresses of the code, with the address where
/// the machine stands. Of a machine fault they are the active calls alone.
pub fn image_trace(alloc: Global, stopped: Stopped<'_>, pc: u32) -> Result<String, AllocError> {
    if !is_told(stopped.ending) {
        return Ok(String::new(alloc));
    }
    lines_of(alloc, stopped, pc, None)
}
