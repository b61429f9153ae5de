// The lines that say where a run by the meaning of a source stopped.

use crate::text::{Text, name_of};
use crate::told::{called_at, in_function, limited, push_count, raised_at, shown_of};
use core_eval::{ActiveCall, EvalEnding, Exceeded, Stop};
use std::alloc::{AllocError, Global};

/// How a run by the meaning of a source ended: its ending, and the bound that it passed, if it passed one.
#[derive(Clone, Copy)]
pub struct End {
    pub ending: EvalEnding,
    pub exceeded: Option<Exceeded>,
}

impl End {
    /// The limit that ended it, if one did.
    fn limit(self) -> Option<&'static str> {
        match (self.ending, self.exceeded) {
            (EvalEnding::Running, _) => Some("step"),
            (EvalEnding::HostMemory, Some(Exceeded::Calls)) => Some("depth"),
            (EvalEnding::HostMemory, Some(Exceeded::Bytes)) => Some("memory"),
            _ => None,
        }
    }

    /// Whether it is told where the run stopped.
    fn is_told(self) -> bool {
        matches!(self.ending, EvalEnding::Raised(_)) || self.limit().is_some()
    }
}

/// A text that was run: the path of its file, and the names of its functions.
#[derive(Clone, Copy)]
struct Source<'a> {
    input: &'a str,
    text: &'a Text,
    names: &'a [&'a str],
}

impl Source<'_> {
    /// The line of an active call.
    fn call(self, alloc: Global, call: ActiveCall) -> Result<String, AllocError> {
        let place = self.text.place(call.origin);
        called_at(alloc, self.input, place, name_of(self.names, call.function))
    }

    /// The first line: where a raise is, or in which function what was used up, or which bound was passed. Of another ending there is none.
    fn stop(self, alloc: Global, end: End, stop: &Stop) -> Result<String, AllocError> {
        if let EvalEnding::Raised(kind) = end.ending {
            return raised_at(alloc, self.input, self.text.place(stop.at), kind, "");
        }
        let Some(limit) = end.limit() else {
            return Ok(String::new(alloc));
        };
        let inside = in_function(alloc, name_of(self.names, stop.function))?;
        limited(alloc, limit, inside.as_str())
    }
}

/// Appends the lines of calls.
fn push_some(
    alloc: Global,
    source: Source<'_>,
    calls: &[ActiveCall],
    lines: &mut String,
) -> Result<(), AllocError> {
    for call in calls {
        let line = source.call(alloc, *call)?;
        lines.push_str(line.as_str())?;
    }
    Ok(())
}

/// Appends the lines of the active calls, the innermost first; of many those within and those outside.
fn push_calls(
    alloc: Global,
    source: Source<'_>,
    calls: &[ActiveCall],
    lines: &mut String,
) -> Result<(), AllocError> {
    let (first, left_out) = shown_of(calls.len());
    let within = calls.get(..first).unwrap_or(calls);
    let others = calls.get(first..).unwrap_or(&[]);
    push_some(alloc, source, within, lines)?;
    push_count(alloc, lines, left_out as u64)?;
    push_some(alloc, source, others.get(left_out..).unwrap_or(&[]), lines)
}

/// The lines that say where the run of an accepted text by its meaning stopped, as `trace` has them: the position of what raised, or in which
/// function the fuel was used up or a bound passed; and behind it the active calls. Of another ending nothing. Fails also where `stop` wasn't kept.
pub fn eval_trace(
    alloc: Global,
    input: &str,
    text: &[u8],
    end: End,
    stop: Option<&Stop>,
) -> Result<String, AllocError> {
    if !end.is_told() {
        return Ok(String::new(alloc));
    }
    let Some(stop) = stop else {
        return Err(AllocError);
    };
    let Some(text) = Text::of(alloc, text)? else {
        return Ok(String::new(alloc));
    };
    let names = text.names(alloc)?;
    let source = Source {
        input,
        text: &text,
        names: &names,
    };
    let mut lines = source.stop(alloc, end, stop)?;
    push_calls(alloc, source, &stop.calls, &mut lines)?;
    Ok(lines)
}
