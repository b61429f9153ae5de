// Evaluations of a text.

ghost use Rattle.std.specs.Prelude.{◌≡◌, ◌≢◌, None, Ok, IfOk, IfErr};
ghost use Rattle.core_eval.specs.declared.ending.EvalEnding.TheVariants.{HostMemory, Stuck};
ghost use Rattle.core_eval.specs.Evaluated.{reads_failed, writes_failed};
ghost use Rattle.cycc_driver.specs.Refusals.{IsRefusedFor};
ghost use Rattle.cycc_driver.specs.Evaluated.{IsTextEvaluated};

use crate::compiling::front;
use crate::fault::CompileFault;
use core_eval::Stop;
use cyc_meaning::{Bounds, EvalEnding, Exceeded, eval_within};
use cyc_words::{Input, Output};
use std::alloc::Global;

/// Runs a text by the meaning of its source, with `fuel` units: an iteration of a loop takes one, and a call.
///
/// Refuses what `check` refuses, before anything is read or written. Otherwise answers how the run ended.
pub fn evaluate<R: Input, W: Output>(
    alloc: Global,
    text: &[u8],
    reader: &mut R,
    writer: &mut W,
    fuel: u64,
) -> Result<EvalEnding, CompileFault>
    // what is written is the output of a program's run on the bytes that the reader gave, and the ending is that run's
    ensures run { IfOk result (λ ending. IsTextEvaluated text.now fuel ending
        (R.remaining reader.old) (R.remaining reader.new) (W.contents writer.old) (W.contents writer.new)) }
    // no accepted program is ever out of order
    ensures never_stuck { result ≢ Ok Stuck }
    // a device's fault comes where just one call of that device failed, and any other ending where none did
    ensures reads { IfOk result (λ ending. R.fault_count reader.new ≡ reads_failed ending (R.fault_count reader.old)) }
    ensures writes { IfOk result (λ ending. W.fault_count writer.new ≡ writes_failed ending (W.fault_count writer.old)) }
    // the fault is that of `check`, and nothing was read or written
    ensures refused { IfErr result (λ fault. IsRefusedFor fault text.now) }
    ensures untouched { IfErr result (λ _. (reader.new ≡ reader.old) × (writer.new ≡ writer.old)) }
{
    let mut stop = None;
    evaluate_watched(alloc, text, reader, writer, fuel, &mut stop)
}

/// Runs a text as `evaluate` does, and says in `stop` where the run stopped, unless the host has no memory for it.
pub fn evaluate_watched<R: Input, W: Output>(
    alloc: Global,
    text: &[u8],
    reader: &mut R,
    writer: &mut W,
    fuel: u64,
    stop: &mut Option<Stop>,
) -> Result<EvalEnding, CompileFault>
    // what is written is the output of a program's run on the bytes that the reader gave, and the ending is that run's
    ensures run { IfOk result (λ ending. IsTextEvaluated text.now fuel ending
        (R.remaining reader.old) (R.remaining reader.new) (W.contents writer.old) (W.contents writer.new)) }
    // no accepted program is ever out of order
    ensures never_stuck { result ≢ Ok Stuck }
    // a device's fault comes where just one call of that device failed, and any other ending where none did
    ensures reads { IfOk result (λ ending. R.fault_count reader.new ≡ reads_failed ending (R.fault_count reader.old)) }
    ensures writes { IfOk result (λ ending. W.fault_count writer.new ≡ writes_failed ending (W.fault_count writer.old)) }
    // the fault is that of `check`, and nothing was read or written
    ensures refused { IfErr result (λ fault. IsRefusedFor fault text.now) }
    ensures untouched { IfErr result (λ _. (reader.new ≡ reader.old) × (writer.new ≡ writer.old)) }
{
    let bounds = Bounds {
        calls: None,
        bytes: None,
    };
    evaluate_within(alloc, text, reader, writer, fuel, stop, &bounds, &mut None)
}

/// Runs a text as `evaluate_watched` does, as long as the run keeps no more than these bounds say, and says in `exceeded` which of them it has passed.
/// A run that has passed one ends as one for which the host has no memory.
pub fn evaluate_within<R: Input, W: Output>(
    alloc: Global,
    text: &[u8],
    reader: &mut R,
    writer: &mut W,
    fuel: u64,
    stop: &mut Option<Stop>,
    bounds: &Bounds,
    exceeded: &mut Option<Exceeded>,
) -> Result<EvalEnding, CompileFault>
    // what is written is the output of a program's run on the bytes that the reader gave, and the ending is that run's
    ensures run { IfOk result (λ ending. IsTextEvaluated text.now fuel ending
        (R.remaining reader.old) (R.remaining reader.new) (W.contents writer.old) (W.contents writer.new)) }
    // no accepted program is ever out of order
    ensures never_stuck { result ≢ Ok Stuck }
    // a device's fault comes where just one call of that device failed, and any other ending where none did
    ensures reads { IfOk result (λ ending. R.fault_count reader.new ≡ reads_failed ending (R.fault_count reader.old)) }
    ensures writes { IfOk result (λ ending. W.fault_count writer.new ≡ writes_failed ending (W.fault_count writer.old)) }
    // the fault is that of `check`, and nothing was read or written
    ensures refused { IfErr result (λ fault. IsRefusedFor fault text.now) }
    ensures untouched { IfErr result (λ _. (reader.new ≡ reader.old) × (writer.new ≡ writer.old)) }
    // a bound was passed only where the run ended so, and there is one
    ensures bounded { result ≢ Ok HostMemory → exceeded.new ≡ None }
    ensures unbounded { bounds.now.calls ≡ None → bounds.now.bytes ≡ None → exceeded.new ≡ None }
{
    *exceeded = None;
    let checked = match front(alloc, text) {
        Ok(checked) => checked,
        Err(fault) => return Err(fault),
    };
    Ok(eval_within(
        alloc, &checked, reader, writer, fuel, stop, bounds, exceeded,
    ))
}
