// Runs that are watched, and what is said of them.

ghost use Rattle.std.specs.Prelude.{◌≡◌, ◌≢◌, ◌≤◌, None, IfOk, IfSome};
ghost use Rattle.core_eval.specs.declared.ending.EvalEnding.TheVariants.{HostMemory};
ghost use Rattle.cycc_answer.specs.Answers.{IsRun};
ghost use Rattle.cycc_answer.specs.Devices.{AreCounted};
ghost use Rattle.cycc_answer.specs.Statuses.{IsToldAs, evaluated_status, status_of};

use crate::lines::{Told, ended, evaluated, say};
use crate::why::refused_in;
use arena_laws::LIMIT;
use command_line::MEGABYTE;
use command_line::status::STEP_LIMIT;
use core_eval::{Bounds, EvalEnding, Exceeded, Stop};
use cyc_host::{Comparison, Count, Ending, Stack, Watch};
use cyc_words::{Input, Output};
use cycc_driver::{Limits, execute_watched, stack};
use rv32_machine::{
    CODE_BASE, GETCHAR, KEY_CLOSE, KEY_FREE, KEY_NEW, KEY_OPEN, PUTCHAR, REGION_ALLOC, REGION_FREE,
    REGION_NEW, UNIQUE_ALLOC, UNIQUE_FREE,
};
use std::alloc::{AllocError, Global};
use std::io::Write;
use traces::{Arena, End, Stopped, eval_trace, held_lines, image_trace, trace};

/// The requests that are counted, by their numbers and names.
const REQUESTS: [(u32, &str); 11] = [
    (PUTCHAR, "putchar"),
    (GETCHAR, "getchar"),
    (REGION_NEW, "region_new"),
    (REGION_ALLOC, "region_alloc"),
    (REGION_FREE, "region_free"),
    (UNIQUE_ALLOC, "unique_alloc"),
    (UNIQUE_FREE, "unique_free"),
    (KEY_NEW, "key_new"),
    (KEY_OPEN, "key_open"),
    (KEY_CLOSE, "key_close"),
    (KEY_FREE, "key_free"),
];

/// The line of `--stats` on the bytes of stack that the calls of what was run need: none of an image, whose source isn't known.
fn need_of(alloc: Global, ran: Ran<'_>) -> Result<String, AllocError> {
    let Ran::Text(text, _) = ran else {
        return Ok(String::new(alloc));
    };
    // a text that was run is no refused one, so only memory can be what isn't there
    let Ok(found) = stack(alloc, text) else {
        return Err(AllocError);
    };
    match found.needs.stack() {
        Some(bytes) => format!(in alloc; "stack_need {bytes}\n"),
        None => format!(in alloc; "stack_need none\n"),
    }
}

/// The lines of `--stats`: instructions, calls, the bytes of the stack at its deepest and those that the calls need, the most pages of the arena at
/// once, and each request that was made, with how often.
fn stats_of(alloc: Global, ran: Ran<'_>, watch: &Watch) -> Result<String, AllocError> {
    let steps = watch.steps();
    let calls = watch.calls();
    let deepest = watch.deepest();
    let pages = watch.most_pages();
    let need = need_of(alloc, ran)?;
    let need = need.as_str();
    let mut lines = format!(in alloc;
        "instructions {steps}\ncalls {calls}\nstack {deepest}\n{need}pages {pages}\n"
    )?;
    for (number, name) in REQUESTS {
        let count = watch.requests(number);
        if count > 0 {
            let line = format!(in alloc; "{name} {count}\n")?;
            lines.push_str(line.as_str())?;
        }
    }
    Ok(lines)
}

/// Appends a line of `--counts` for each instruction that was executed: its address, how often it was executed, how often another than the next one came behind
/// it, and how many instructions were executed in the calls that it made and that have returned.
fn push_counts(alloc: Global, watch: &Watch, lines: &mut String) -> Result<(), AllocError> {
    let mut address = CODE_BASE;
    for count in watch.counts() {
        let Count {
            executed,
            left,
            within,
        } = *count;
        if executed > 0 {
            let line = format!(in alloc; "count {address:08x} {executed} {left} {within}\n")?;
            lines.push_str(line.as_str())?;
        }
        address = address.wrapping_add(4);
    }
    Ok(())
}

/// Appends a line of `--counts` for each stack of calls: its number, that of the stack around its innermost call, the call's address, and how many instructions
/// were executed with just these calls active.
fn push_stacks(alloc: Global, watch: &Watch, lines: &mut String) -> Result<(), AllocError> {
    for (number, stack) in watch.stacks().iter().enumerate() {
        let Stack {
            around,
            at,
            executed,
        } = *stack;
        let line = format!(in alloc; "stack {number} {around} {at:08x} {executed}\n")?;
        lines.push_str(line.as_str())?;
    }
    Ok(())
}

/// Appends a line of `--counts` for each active function: what it held, as words; and one of what was compared last, where and which two words.
fn push_held(alloc: Global, watch: &Watch, lines: &mut String) -> Result<(), AllocError> {
    let shown = held_lines(alloc, watch)?;
    lines.push_str(shown.as_str())?;
    if !watch.active().is_empty() {
        let Comparison { pc, left, right } = watch.compared();
        let line = format!(in alloc; "compared {pc:08x} {left:08x} {right:08x}\n")?;
        lines.push_str(line.as_str())?;
    }
    Ok(())
}

/// The lines of `--counts`: those of the instructions, for each active call its address, and how many instructions were executed since, what the active
/// functions held, and those of the stacks of calls.
fn counts_of(alloc: Global, watch: &Watch) -> Result<String, AllocError> {
    let mut lines = String::new(alloc);
    push_counts(alloc, watch, &mut lines)?;
    for call in watch.active() {
        let at = call.at;
        let steps = watch.steps().saturating_sub(call.since);
        let line = format!(in alloc; "active {at:08x} {steps}\n")?;
        lines.push_str(line.as_str())?;
    }
    push_held(alloc, watch, &mut lines)?;
    push_stacks(alloc, watch, &mut lines)?;
    Ok(lines)
}

/// What was run: a text, or an image whose machine then stands at this address; and its arena.
#[derive(Clone, Copy)]
pub enum Ran<'a> {
    Text(&'a [u8], Arena),
    Image(u32, Arena),
}

impl Ran<'_> {
    /// The address at which a machine fault is told.
    fn address(self) -> Option<u32> {
        match self {
            Ran::Text(_, _) => None,
            Ran::Image(pc, _) => Some(pc),
        }
    }
}

impl Ran<'_> {
    /// Its arena.
    fn arena(self) -> Arena {
        match self {
            Ran::Text(_, arena) | Ran::Image(_, arena) => arena,
        }
    }
}

/// The lines that say where a run stopped.
fn where_of(
    alloc: Global,
    told: Told<'_>,
    ran: Ran<'_>,
    ending: Ending,
    watch: &Watch,
) -> Result<String, AllocError> {
    let arena = ran.arena();
    let stopped = Stopped {
        input: told.input,
        watch,
        arena,
        ending,
    };
    match ran {
        Ran::Text(text, _) => trace(alloc, stopped, text, told.shows_values),
        Ran::Image(pc, _) => image_trace(alloc, stopped, pc),
    }
}

/// What is said of a run behind its ending: where it stopped, and what it took.
fn shown_of(
    alloc: Global,
    told: Told<'_>,
    ran: Ran<'_>,
    ending: Ending,
    watch: &Watch,
) -> Result<String, AllocError> {
    let mut shown = String::new(alloc);
    if told.shows_where {
        let lines = where_of(alloc, told, ran, ending, watch)?;
        shown.push_str(lines.as_str())?;
    }
    if told.shows_stats {
        let lines = stats_of(alloc, ran, watch)?;
        shown.push_str(lines.as_str())?;
    }
    if told.shows_counts {
        let lines = counts_of(alloc, watch)?;
        shown.push_str(lines.as_str())?;
    }
    Ok(shown)
}

/// Says the lines that are asked for of a run behind its ending, or that no host memory is left for them.
fn show<E: Write>(lines: Result<String, AllocError>, faults: &mut E) {
    match lines {
        Ok(shown) => {
            let _ = faults.write_all(shown.as_bytes());
        }
        Err(_) => say(faults, "no memory to say more of the run"),
    }
}

/// Says how a run ended, and what is asked for of it, and answers the status.
pub fn told_of<E: Write>(
    alloc: Global,
    told: Told<'_>,
    ran: Ran<'_>,
    ending: Ending,
    watch: &Watch,
    faults: &mut E,
) -> Result<u8, AllocError>
    ensures { IfOk result (λ status. status ≡ status_of ending) }
{
    let status = ended(alloc, ending, ran.address(), told.shows_ending, faults)?;
    show(shown_of(alloc, told, ran, ending, watch), faults);
    Ok(status)
}

/// Says how a run of a text by its meaning ended, and where it stopped if that is asked for, and answers the status.
fn told_of_evaluation<E: Write>(
    alloc: Global,
    told: Told<'_>,
    text: &[u8],
    ending: EvalEnding,
    stop: Option<&Stop>,
    faults: &mut E,
) -> Result<u8, AllocError>
    ensures { IfOk result (λ status. status ≡ evaluated_status ending) }
{
    let status = evaluated(alloc, ending, told.shows_ending, faults)?;
    if told.shows_where {
        let end = End {
            ending,
            exceeded: None,
        };
        show(eval_trace(alloc, told.input, text, end, stop), faults);
    }
    Ok(status)
}

/// The line of a run by the meaning that has passed a bound.
fn bound_line(alloc: Global, bounds: Bounds, exceeded: Exceeded) -> Result<String, AllocError> {
    match exceeded {
        Exceeded::Calls => {
            let most = bounds.calls.unwrap_or(0);
            format!(in alloc; "eval: more than {most} active calls (--depth)")
        }
        Exceeded::Bytes => {
            let most = bounds.bytes.unwrap_or(0) / MEGABYTE;
            format!(in alloc; "eval: more than {most} MB (--memory)")
        }
    }
}

/// Says which bound a run of a text by its meaning has passed, and where it stopped if that is asked for, and answers the status.
fn told_of_bound<E: Write>(
    alloc: Global,
    told: Told<'_>,
    text: &[u8],
    bounds: Bounds,
    exceeded: Exceeded,
    stop: Option<&Stop>,
    faults: &mut E,
) -> Result<u8, AllocError>
    ensures { IfOk result (λ status. status ≡ 4) }
{
    say(faults, bound_line(alloc, bounds, exceeded)?.as_str());
    if told.shows_where {
        let end = End {
            ending: EvalEnding::HostMemory,
            exceeded: Some(exceeded),
        };
        show(eval_trace(alloc, told.input, text, end, stop), faults);
    }
    Ok(STEP_LIMIT)
}

/// The bound that ended a run by the meaning, if one did.
fn bound_of(ending: EvalEnding, exceeded: Option<Exceeded>) -> Option<Exceeded>
    ensures { IfSome result (λ _. (ending ≡ HostMemory) × (exceeded ≢ None)) }
{
    match (ending, exceeded) {
        (EvalEnding::HostMemory, Some(passed)) => Some(passed),
        _ => None,
    }
}

/// Says how a run of a text by its meaning within bounds ended, and where it stopped if that is asked for, and answers the status.
pub fn told_within<E: Write>(
    alloc: Global,
    told: Told<'_>,
    text: &[u8],
    ending: EvalEnding,
    bounds: Bounds,
    exceeded: Option<Exceeded>,
    stop: Option<&Stop>,
    faults: &mut E,
) -> Result<u8, AllocError>
    ensures { IfOk result (IsToldAs ending exceeded) }
{
    match bound_of(ending, exceeded) {
        Some(passed) => told_of_bound(alloc, told, text, bounds, passed, stop, faults),
        None => told_of_evaluation(alloc, told, text, ending, stop, faults),
    }
}

/// A watch of a run of this code, for what is told of the run; one that sees nothing where that needs none.
pub fn watch_of(alloc: Global, told: Told<'_>, code: &[u8]) -> Result<Watch, AllocError> {
    if told.is_watched() {
        Watch::new(alloc, code)
    } else {
        Ok(Watch::idle(alloc))
    }
}

/// Compiles a source and runs its image between a reader and a writer, says what is asked for of the run, and answers the status.
pub fn ran_watched<R: Input, W: Output, E: Write>(
    alloc: Global,
    told: Told<'_>,
    limits: Limits,
    file: &[u8],
    reader: &mut R,
    writer: &mut W,
    faults: &mut E,
) -> Result<u8, AllocError>
    requires some { 1 ≤ limits.pages }
    requires within { limits.pages ≤ 4096 }
    requires some_stack { 1 ≤ limits.stack_pages }
    requires stack_within { limits.stack_pages ≤ 4096 }
    ensures run { IfOk result (IsRun file.now limits.pages limits.stack_pages limits.steps
        (R.remaining reader.old) (R.remaining reader.new) (W.contents writer.old) (W.contents writer.new)) }
    // a refusal leaves the reader and the writer as they were
    ensures untouched { IfOk result (λ status. status ≡ 8 → (reader.new ≡ reader.old) × (writer.new ≡ writer.old)) }
    // where the status is 6 just one call of one device failed, and at every other status none
    ensures devices { IfOk result (λ status. AreCounted status
        (R.fault_count reader.old) (R.fault_count reader.new) (W.fault_count writer.old) (W.fault_count writer.new)) }
{
    match execute_watched(alloc, file, reader, writer, limits) {
        Ok(watched) => {
            let arena = Arena {
                pages: limits.pages,
                longest: LIMIT,
            };
            let ran = Ran::Text(file, arena);
            told_of(alloc, told, ran, watched.ending, &watched.watch, faults)
        }
        Err(fault) => refused_in(alloc, told, file, fault, faults),
    }
}
