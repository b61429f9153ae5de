// Moves, up to the next unit of fuel.

ghost use Rattle.std.specs.Prelude.{◌≡◌, ◌≢◌, ◌⊎◌, ◌∷◌, ◌<◌, ◌-◌, ℕ, List, [], Option, IfOk, OnOk, IfErr, IfSome, IfNone, map};
ghost use Rattle.std.specs.Io.KnownBytes.{Appends};
ghost use Rattle.core_meaning.specs.Core.{Program as CoreProgram};
ghost use Rattle.core_meaning.specs.Operations.{byte_word};
ghost use Rattle.cyc_core.specs.Trees.{body_tree, function_tree, program_tree};
ghost use Rattle.cyc_host.specs.Transfers.{Answers};
ghost use Rattle.core_eval.specs.Pendings.{Body, Follow, Go, next_of, task_of, waits_of};
ghost use Rattle.core_eval.specs.Standing.{StandsStill, known_of};
ghost use Rattle.core_eval.specs.Costs.{IsMove};
ghost use Rattle.core_eval.specs.Resting.{EndsNow, IsAtRest, IsPayable};
ghost use Rattle.core_eval.specs.Evaluated.{IsEvaluated, IsNeverStuck, Wrote, reads_failed, writes_failed};
ghost use Rattle.core_eval.specs.Fetched.{FetchFault, fetch_reads_failed, fetch_writes_failed};
ghost use Rattle.core_eval.specs.Stages.{Stage};

use crate::bounds::{Bounds, Exceeded, passed};
use crate::call::{Call, enter_call, start};
use crate::ending::EvalEnding;
use crate::enter::{follow, follow_statements};
use crate::frame::Frame;
use crate::memory::Memory;
use crate::operation::give;
use crate::pending::{Due, Loop, Now, Pending, Run};
use crate::stop::{Stop, stop_of};
use crate::take::take_flow;
use crate::value::Value;
use cyc_core::{Function, Program, Temporary};
use cyc_host::{Gathered, read};
use cyc_words::{Input, Output};
use std::alloc::{AllocError, Global};

/// One move. Fails only where the first move of a statement does, or no host memory is left.
fn step<'p>(
    alloc: Global,
    now: Now<'p>,
    stack: &mut Vec<Pending<'p>>,
    frame: &mut Frame,
    memory: &mut Memory,
) -> Result<Due<'p>, AllocError>
    ensures { IfOk result (λ due. IsMove (task_of now.entry) (waits_of stack.old.items) (known_of frame.old memory.old)
        (next_of due) (waits_of stack.new.items) (known_of frame.new memory.new)) }
{
    match now {
        Now::Follow(statements) => follow_statements(alloc, statements, stack, frame, memory),
        Now::Leave(flow) => take_flow(flow, stack, frame, memory),
    }
}

/// Moves until a unit is due or the run is over. Fails only where a move does.
fn advance<'p>(
    alloc: Global,
    start: Due<'p>,
    stack: &mut Vec<Pending<'p>>,
    frame: &mut Frame,
    memory: &mut Memory,
) -> Result<Due<'p>, AllocError>
    ensures still { IfOk result (λ due. StandsStill (next_of start.entry) (waits_of stack.old.items) (known_of frame.old memory.old)
        (next_of due) (waits_of stack.new.items) (known_of frame.new memory.new)) }
    ensures rests { IfOk result (λ due. IsAtRest (next_of due)) }
{
    let mut due = start;
    'moves: loop {
        match due {
            Due::Go(now) => due = step(alloc, now, stack, frame, memory)?,
            rest => return Ok(rest),
        }
    }
}

/// The ending of a run that is at rest, with this number of units left, if it is over.
fn ending_of(due: &Due<'_>, left: u64) -> Option<EvalEnding>
    requires { IsAtRest (next_of due.now) }
    ensures over { IfSome result (λ ending. EndsNow ending (next_of due.entry.now) left) }
    ensures payable { IfNone result (IsPayable (next_of due.entry.now) × (0 < left)) }
{
    match due {
        Due::Over(status) => Some(EvalEnding::Ended(status.cast_signed())),
        Due::Raised(kind) => Some(EvalEnding::Raised(*kind)),
        Due::Wrong => Some(EvalEnding::Stuck),
        Due::Go(_) => unreachable!(),
        Due::Getchar(_) | Due::Putchar(..) | Due::Turn(..) | Due::Call(..) => {
            if left == 0 {
                Some(EvalEnding::Running)
            } else {
                None
            }
        }
    }
}

/// The body of a loop is next, when its unit is paid.
fn enter_turn<'p>(
    flag: Temporary,
    both: &'p Loop,
    stack: &mut Vec<Pending<'p>>,
) -> Result<Due<'p>, AllocError>
    ensures next { IfOk result (λ due. next_of due ≡ Go (Follow (body_tree both.entry.now.value.1.items))) }
    ensures waits { OnOk result (waits_of stack.new.items
        ≡ Body (body_tree both.entry.now.value.0.items) flag.0 (body_tree both.entry.now.value.1.items) ∷ waits_of stack.old.items) }
{
    follow(stack, Pending::Body(flag, both), &both.1)
}

/// The byte that was read, or -1 at the input's end.
fn byte_word(answer: Option<u8>) -> u32
    ensures { result ≡ byte_word answer }
{
    match answer {
        Some(byte) => byte as u32,
        None => u32::MAX,
    }
}

/// Writes what is gathered, and then reads a byte or the end of the input. The `Err` is the ending of the run.
fn fetch<R: Input, W: Output>(
    gathered: &mut Gathered,
    reader: &mut R,
    writer: &mut W,
    is_over: &mut bool,
) -> Result<Option<u8>, EvalEnding>
    ensures empty { OnOk result (gathered.new ≡ []) }
    ensures all { OnOk result (Appends (W.contents writer.old) (W.contents writer.new) gathered.old) }
    ensures answer { IfOk result (λ answer. Answers (R.remaining reader.old) (R.remaining reader.new) is_over.old is_over.new answer) }
    ensures fault { IfErr result (λ ending. FetchFault ending (R.remaining reader.old) (R.remaining reader.new) is_over.old
        (W.contents writer.old) (W.contents writer.new) gathered.old) }
    ensures reads { R.fault_count reader.new ≡ fetch_reads_failed result (R.fault_count reader.old) }
    ensures writes { W.fault_count writer.new ≡ fetch_writes_failed result (W.fault_count writer.old) }
{
    if gathered.flush(writer).is_err() {
        return Err(EvalEnding::WriteFault);
    }
    match read(reader, is_over) {
        Ok(answer) => Ok(answer),
        Err(_) => Err(EvalEnding::ReadFault),
    }
}

/// Writes what is gathered, at an ending. A failed write takes the ending's place.
fn finish<W: Output>(gathered: &mut Gathered, writer: &mut W, ending: EvalEnding) -> EvalEnding
    requires { ending ≢ EvalEnding.WriteFault }
    ensures same { (result ≡ ending) ⊎ (result ≡ EvalEnding.WriteFault) }
    ensures written { Wrote result (W.contents writer.old) (W.contents writer.new) gathered.old }
    ensures writes { W.fault_count writer.new ≡ writes_failed result (W.fault_count writer.old) }
{
    match gathered.flush(writer) {
        Ok(()) => ending,
        Err(_) => EvalEnding::WriteFault,
    }
}

/// What a run knows of its reader and its writer.
#[derive(Drop)]
struct Streams {
    /// The output that isn't written yet.
    gathered: Gathered,
    /// Whether the input's end was met.
    is_over: bool,
}

/// Moves until a unit is due, and pays it: what is due then. The `Err` is the ending of the run, and all that it writes is written.
fn pay_unit<'p, R: Input, W: Output>(
    alloc: Global,
    start: Due<'p>,
    run: &mut Run<'p>,
    streams: &mut Streams,
    reader: &mut R,
    writer: &mut W,
    left: u64,
) -> Result<Due<'p>, EvalEnding>
    ensures some { IfOk result (λ due. 0 < left) }
    ensures functions { run.new.functions ≡ run.old.functions }
    ensures goes_on { IfOk result (λ due. (p : CoreProgram) (fuel : ℕ) (read written : Option (List ℕ))
        → map function_tree run.old.functions.now ≡ p.functions
        → Stage p fuel left streams.old.is_over (next_of start.entry) (waits_of run.old.stack.items) (known_of run.old.frame run.old.memory)
        read (R.remaining reader.old) written (W.contents writer.old) streams.old.gathered
        → Stage p fuel (left - 1) streams.new.is_over (next_of due) (waits_of run.new.stack.items) (known_of run.new.frame run.new.memory)
        read (R.remaining reader.new) written (W.contents writer.new) streams.new.gathered) }
    ensures ends { IfErr result (λ ending. (p : CoreProgram) (fuel : ℕ) (read written : Option (List ℕ))
        → Stage p fuel left streams.old.is_over (next_of start.entry) (waits_of run.old.stack.items) (known_of run.old.frame run.old.memory)
        read (R.remaining reader.old) written (W.contents writer.old) streams.old.gathered
        → IsEvaluated ending p fuel read (R.remaining reader.new) written (W.contents writer.new)) }
    ensures reads { R.fault_count reader.new ≡ fetch_reads_failed result (R.fault_count reader.old) }
    ensures writes { W.fault_count writer.new ≡ fetch_writes_failed result (W.fault_count writer.old) }
{
    let Ok(rest) = advance(
        alloc,
        start,
        &mut run.stack,
        &mut run.frame,
        &mut run.memory,
    ) else {
        return Err(finish(&mut streams.gathered, writer, EvalEnding::HostMemory));
    };
    if let Some(ending) = ending_of(&rest, left) {
        return Err(finish(&mut streams.gathered, writer, ending));
    }
    let paid = match rest {
        Due::Getchar(to) => {
            match fetch(&mut streams.gathered, reader, writer, &mut streams.is_over) {
                Ok(answer) => give(&mut run.frame, to, Value::Word(byte_word(answer))),
                Err(ending) => return Err(ending),
            }
        }
        Due::Putchar(to, byte) => {
            if streams.gathered.put(writer, byte).is_err() {
                return Err(EvalEnding::WriteFault);
            }
            give(&mut run.frame, to, Value::Word(byte as u32))
        }
        Due::Turn(flag, both) => enter_turn(flag, both, &mut run.stack),
        Due::Call(to, function, arguments) => {
            let call = Call {
                to,
                function,
                arguments,
            };
            enter_call(alloc, call, run)
        }
        Due::Go(_) | Due::Over(_) | Due::Raised(_) | Due::Wrong => unreachable!(),
    };
    match paid {
        Ok(next) => Ok(next),
        Err(_) => Err(finish(&mut streams.gathered, writer, EvalEnding::HostMemory)),
    }
}

/// The bound that was passed, where that ended the run.
fn passed_at(ending: EvalEnding, which: Exceeded) -> Option<Exceeded>
    ensures { ending ≢ EvalEnding.HostMemory → result ≡ None }
{
    match ending {
        EvalEnding::HostMemory => Some(which),
        _ => None,
    }
}

/// Runs a program of Core by its meaning, with a number of units of fuel.
///
/// Ends as the definition does: with the program's status, with `Running` where a unit is due and none is left, or
/// `Stuck`. `WriteFault` comes in place of any other ending, where a write failed or took no byte; `ReadFault` where a
/// read failed; `HostMemory` where the host has no memory for what is still to be done or for a block of a region,
/// 2^64 - 1 blocks or functions were entered, or a program that no source becomes would lead a pointer to a cell with a
/// number over 2^64 - 1, to a byte behind that, or 2^25 bytes or further into an object of a block or a function that
/// was left, store or return a pointer as a count, an index or a tag, copy or clear a tagged union as what is none or
/// what is none as a tagged union, or reach a byte behind the first part of a cell. After a failed call neither device
/// is called again. Output is written when 4,096 bytes are gathered, before each read and at each ending. Each byte that
/// is taken from the reader was asked for. `stop` gets where the run stopped, unless the host has no memory for it.
pub fn evaluate_core<R: Input, W: Output>(
    alloc: Global,
    program: &Program,
    reader: &mut R,
    writer: &mut W,
    fuel: u64,
    stop: &mut Option<Stop>,
) -> EvalEnding
    // what is written is the output of the program's run on the bytes that the reader gave, and the ending is that run's
    ensures evaluated { IsEvaluated result (program_tree program.now) fuel
        (R.remaining reader.old) (R.remaining reader.new) (W.contents writer.old) (W.contents writer.new) }
    // a program whose run is never stuck is not stuck here
    ensures never_stuck { IsNeverStuck (program_tree program.now) → result ≢ EvalEnding.Stuck }
    // each device's fault comes where just one call of that device failed, and any other ending where none did
    ensures reads { R.fault_count reader.new ≡ reads_failed result (R.fault_count reader.old) }
    ensures writes { W.fault_count writer.new ≡ writes_failed result (W.fault_count writer.old) }
{
    let bounds = Bounds {
        calls: None,
        bytes: None,
    };
    evaluate_core_within(
        alloc, program, reader, writer, fuel, stop, &bounds, &mut None,
    )
}

/// Runs a program as `evaluate_core` does, as long as it keeps no more than these bounds say, and says in `exceeded` which of them it has passed.
///
/// They are tested before each unit of fuel. A run that has passed one ends as one for which the host has no memory.
pub fn evaluate_core_within<R: Input, W: Output>(
    alloc: Global,
    program: &Program,
    reader: &mut R,
    writer: &mut W,
    fuel: u64,
    stop: &mut Option<Stop>,
    bounds: &Bounds,
    exceeded: &mut Option<Exceeded>,
) -> EvalEnding
    // what is written is the output of the program's run on the bytes that the reader gave, and the ending is that run's
    ensures evaluated { IsEvaluated result (program_tree program.now) fuel
        (R.remaining reader.old) (R.remaining reader.new) (W.contents writer.old) (W.contents writer.new) }
    // a program whose run is never stuck is not stuck here
    ensures never_stuck { IsNeverStuck (program_tree program.now) → result ≢ EvalEnding.Stuck }
    // each device's fault comes where just one call of that device failed, and any other ending where none did
    ensures reads { R.fault_count reader.new ≡ reads_failed result (R.fault_count reader.old) }
    ensures writes { W.fault_count writer.new ≡ writes_failed result (W.fault_count writer.old) }
    // a bound was passed only where the run ended so, and there is one
    ensures bounded { result ≢ EvalEnding.HostMemory → exceeded.new ≡ None }
    ensures unbounded { bounds.now.calls ≡ None → bounds.now.bytes ≡ None → exceeded.new ≡ None }
{
    *exceeded = None;
    let begin = start(program);
    let Ok(memory) = Memory::first(alloc, &program.globals, begin.own) else {
        return EvalEnding::HostMemory;
    };
    let mut run = Run {
        functions: &program.functions,
        stack: Vec::new(alloc),
        frame: Frame::new(alloc),
        memory,
    };
    let mut streams = Streams {
        gathered: Gathered::new(),
        is_over: false,
    };
    let mut due = begin.due;
    let mut left = fuel;
    'units: loop {
        if let Some(which) = passed(&run, bounds) {
            *stop = stop_of(alloc, program.main, &run.stack, &run.frame).ok();
            let ending = finish(&mut streams.gathered, writer, EvalEnding::HostMemory);
            *exceeded = passed_at(ending, which);
            return ending;
        }
        match pay_unit(alloc, due, &mut run, &mut streams, reader, writer, left) {
            Ok(next) => due = next,
            Err(ending) => {
                *stop = stop_of(alloc, program.main, &run.stack, &run.frame).ok();
                return ending;
            }
        }
        left -= 1;
    }
}
