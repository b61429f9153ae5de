// Runs of checked programs.

ghost use Rattle.std.specs.Prelude.{◌≡◌, ◌≢◌, None};
ghost use Rattle.core_eval.specs.Evaluated.{reads_failed, writes_failed};
ghost use Rattle.cyc_meaning.specs.Evaluated.{IsEvaluated};

use accepted_programs::Checked;
use core_eval::{Bounds, EvalEnding, Exceeded, Stop, evaluate_core_within};
use cyc_words::{Input, Output};
use lower_checks::lower;
use std::alloc::Global;

/// Runs a checked program by the meaning of its source, with `fuel` units.
///
/// Ends as the definition does: with the program's status, by a raise, or with `Running` where a unit is due and none is
/// left. `WriteFault` comes in place of any other ending, where a write failed or took no byte; `ReadFault` where a read
/// failed; `HostMemory` where the host has no memory for what is still to be done. After a failed call neither device is
/// called again. Output is written when 4,096 bytes are gathered, before each read and at each ending. Each byte that is
/// taken from the reader was asked for. It is never `Stuck`.
pub fn eval<R: Input, W: Output>(
    alloc: Global,
    checked: &Checked,
    reader: &mut R,
    writer: &mut W,
    fuel: u64,
) -> EvalEnding
    // what is written is the output of the source's run on the bytes that the reader gave, and the ending is that run's
    ensures evaluated { IsEvaluated result checked.now fuel
        (R.remaining reader.old) (R.remaining reader.new) (W.contents writer.old) (W.contents writer.new) }
    // no checked program does what no rule gives a meaning
    ensures never_stuck { result ≢ EvalEnding.Stuck }
    // each device's fault comes where just one call of that device failed, and any other ending where none did
    ensures reads { R.fault_count reader.new ≡ reads_failed result (R.fault_count reader.old) }
    ensures writes { W.fault_count writer.new ≡ writes_failed result (W.fault_count writer.old) }
{
    let mut stop = None;
    eval_watched(alloc, checked, reader, writer, fuel, &mut stop)
}

/// Runs a checked program as `eval` does, and says in `stop` where the run stopped, unless the host has no memory for it.
pub fn eval_watched<R: Input, W: Output>(
    alloc: Global,
    checked: &Checked,
    reader: &mut R,
    writer: &mut W,
    fuel: u64,
    stop: &mut Option<Stop>,
) -> EvalEnding
    // what is written is the output of the source's run on the bytes that the reader gave, and the ending is that run's
    ensures evaluated { IsEvaluated result checked.now fuel
        (R.remaining reader.old) (R.remaining reader.new) (W.contents writer.old) (W.contents writer.new) }
    // no checked program does what no rule gives a meaning
    ensures never_stuck { result ≢ EvalEnding.Stuck }
    // each device's fault comes where just one call of that device failed, and any other ending where none did
    ensures reads { R.fault_count reader.new ≡ reads_failed result (R.fault_count reader.old) }
    ensures writes { W.fault_count writer.new ≡ writes_failed result (W.fault_count writer.old) }
{
    let bounds = Bounds {
        calls: None,
        bytes: None,
    };
    eval_within(
        alloc, checked, reader, writer, fuel, stop, &bounds, &mut None,
    )
}

/// Runs a checked program as `eval_watched` does, as long as it keeps no more than these bounds say, and says in `exceeded` which of them it has passed.
/// A run that has passed one ends as one for which the host has no memory.
pub fn eval_within<R: Input, W: Output>(
    alloc: Global,
    checked: &Checked,
    reader: &mut R,
    writer: &mut W,
    fuel: u64,
    stop: &mut Option<Stop>,
    bounds: &Bounds,
    exceeded: &mut Option<Exceeded>,
) -> EvalEnding
    // what is written is the output of the source's run on the bytes that the reader gave, and the ending is that run's
    ensures evaluated { IsEvaluated result checked.now fuel
        (R.remaining reader.old) (R.remaining reader.new) (W.contents writer.old) (W.contents writer.new) }
    // no checked program does what no rule gives a meaning
    ensures never_stuck { result ≢ EvalEnding.Stuck }
    // each device's fault comes where just one call of that device failed, and any other ending where none did
    ensures reads { R.fault_count reader.new ≡ reads_failed result (R.fault_count reader.old) }
    ensures writes { W.fault_count writer.new ≡ writes_failed result (W.fault_count writer.old) }
    // a bound was passed only where the run ended so, and there is one
    ensures bounded { result ≢ EvalEnding.HostMemory → exceeded.new ≡ None }
    ensures unbounded { bounds.now.calls ≡ None → bounds.now.bytes ≡ None → exceeded.new ≡ None }
{
    *exceeded = None;
    // a checked program is an accepted one
    checked.program();
    match lower(alloc, checked) {
        Ok(core) => evaluate_core_within(
            alloc, &core, reader, writer, fuel, stop, bounds, exceeded,
        ),
        Err(_) => EvalEnding::HostMemory,
    }
}
