// The loop of a run.

ghost use Rattle.std.specs.Prelude.{◌≡◌, ◌≢◌, ◌<◌, ◌⊎◌, false, true};
ghost use Rattle.rv32_machine.specs.Arrays.{areas_of, arrays, state_of};
ghost use Rattle.rv32_machine.specs.State.{Runs};
ghost use Rattle.rv32_machine.specs.Served.{lacks};
ghost use Rattle.cyc_host.specs.Failures.{reads_failed, writes_failed};
ghost use Rattle.cyc_host.specs.Hosted.{IsHosted, Written};
ghost use Rattle.cyc_host.specs.Watched.{IsWatched, known_of, tally_of};

use crate::ending::Ending;
use crate::pace::{Gliding, Pace};
use crate::transfer::{Gathered, read};
use crate::watch::Watch;
use cyc_arena::BlockStore;
use cyc_words::{Input, Output};
use rv32_machine::{Event, Machine};

/// Writes what is gathered, at an ending. A failed write takes the ending's place.
fn finish<W: Output>(gathered: &mut Gathered, writer: &mut W, ending: Ending) -> Ending
    requires { ending ≢ Ending.WriteFault }
    ensures same { (result ≡ ending) ⊎ (result ≡ Ending.WriteFault) }
    ensures written { Written result (W.contents writer.old) (W.contents writer.new) gathered.old }
    ensures writes { W.fault_count writer.new ≡ writes_failed result (W.fault_count writer.old) }
{
    match gathered.flush(writer) {
        Ok(()) => ending,
        Err(_) => Ending::WriteFault,
    }
}

/// Runs a machine for at most `limit` steps at this pace.
fn run_at<P: Pace, S: BlockStore, R: Input, W: Output>(
    pace: &mut P,
    machine: &mut Machine<S>,
    reader: &mut R,
    writer: &mut W,
    steps: u64,
) -> Ending
    // what is written is the output of the machine's run on the bytes that the reader gave and with the answers that its store
    // gave, and the ending is the machine's
    ensures hosted { let seen = arrays S.holdings S.byte_at in
        IsHosted result (areas_of (seen machine.old)) steps (state_of (seen machine.old)) (state_of (seen machine.new))
        (R.remaining reader.old) (R.remaining reader.new) (W.contents writer.old) (W.contents writer.new) }
    // at the step limit the machine runs on
    ensures goes_on { result ≡ Ending.StepLimit → 0 < steps → (state_of (arrays S.holdings S.byte_at machine.new)).mode ≡ Runs }
    // over a store that never runs out of host memory, no run stops because of that, if the machine isn't stopped so before
    ensures memory { let seen = arrays S.holdings S.byte_at in S.may_lack ≡ false → lacks (seen machine.old).mode ≡ false →
        (result ≢ Ending.HostMemory) × (lacks (seen machine.new).mode ≡ false) }
    ensures areas { let seen = arrays S.holdings S.byte_at in areas_of (seen machine.new) ≡ areas_of (seen machine.old) }
    // each device's fault comes where just one call of that device failed, and any other ending where none did
    ensures reads { R.fault_count reader.new ≡ reads_failed result (R.fault_count reader.old) }
    ensures writes { W.fault_count writer.new ≡ writes_failed result (W.fault_count writer.old) }
    // a pace that sees takes in each instruction that begins
    ensures watched { let seen = arrays S.holdings S.byte_at in P.sees pace.old ≡ true → (P.sees pace.new ≡ true) ×
        IsWatched result (areas_of (seen machine.old)) steps (state_of (seen machine.old)) (state_of (seen machine.new))
        (R.remaining reader.old) (R.remaining reader.new) (W.contents writer.old) (W.contents writer.new) (P.tally pace.old) (P.tally pace.new)
        (P.known pace.old) (P.known pace.new) }
{
    let mut gathered = Gathered::new();
    let mut is_over = false;
    let mut left = steps;
    'steps: while left > 0 {
        // what goes ahead shows nothing, and then comes one step by itself
        left -= pace.advance(machine, left - 1) + 1;
        match machine.step() {
            Event::Next => {}
            Event::Put(byte) => {
                if gathered.put(writer, byte).is_err() {
                    return Ending::WriteFault;
                }
            }
            Event::Get => {
                if gathered.flush(writer).is_err() {
                    return Ending::WriteFault;
                }
                match read(reader, &mut is_over) {
                    Ok(answer) => {
                        machine.give(answer);
                    }
                    Err(_) => return Ending::ReadFault,
                }
            }
            Event::Ended(status) => return finish(&mut gathered, writer, Ending::Ended(status)),
            Event::Raised(kind) => return finish(&mut gathered, writer, Ending::Raised(kind)),
            Event::Exhausted => return finish(&mut gathered, writer, Ending::Exhausted),
            Event::HostMemory => return finish(&mut gathered, writer, Ending::HostMemory),
            Event::Fault(fault) => return finish(&mut gathered, writer, Ending::Fault(fault)),
        }
    }
    finish(&mut gathered, writer, Ending::StepLimit)
}

/// Runs a machine for at most `limit` steps.
///
/// Output is written when 4,096 bytes are gathered, before each read and at each ending. `WriteFault` comes in place of any
/// other ending, where a write failed or took no byte; `ReadFault` where a read failed. After a failed call neither device is
/// called again. A byte that is asked for at the last step is still answered. Takes no memory but what the store takes.
pub fn run<S: BlockStore, R: Input, W: Output>(
    machine: &mut Machine<S>,
    reader: &mut R,
    writer: &mut W,
    steps: u64,
) -> Ending
    // what is written is the output of the machine's run on the bytes that the reader gave and with the answers that its store
    // gave, and the ending is the machine's
    ensures hosted { let seen = arrays S.holdings S.byte_at in
        IsHosted result (areas_of (seen machine.old)) steps (state_of (seen machine.old)) (state_of (seen machine.new))
        (R.remaining reader.old) (R.remaining reader.new) (W.contents writer.old) (W.contents writer.new) }
    // at the step limit the machine runs on
    ensures goes_on { result ≡ Ending.StepLimit → 0 < steps → (state_of (arrays S.holdings S.byte_at machine.new)).mode ≡ Runs }
    // over a store that never runs out of host memory, no run stops because of that, if the machine isn't stopped so before
    ensures memory { let seen = arrays S.holdings S.byte_at in S.may_lack ≡ false → lacks (seen machine.old).mode ≡ false →
        (result ≢ Ending.HostMemory) × (lacks (seen machine.new).mode ≡ false) }
    ensures areas { let seen = arrays S.holdings S.byte_at in areas_of (seen machine.new) ≡ areas_of (seen machine.old) }
    // each device's fault comes where just one call of that device failed, and any other ending where none did
    ensures reads { R.fault_count reader.new ≡ reads_failed result (R.fault_count reader.old) }
    ensures writes { W.fault_count writer.new ≡ writes_failed result (W.fault_count writer.old) }
{
    run_at(&mut Gliding, machine, reader, writer, steps)
}

/// Runs a machine as `run` does, and takes in each instruction before it is executed, one step at a time, and what the locals hold at the end. The watch
/// is of the machine's code, or sees none of its instructions: then this is `run`.
pub fn run_watched<S: BlockStore, R: Input, W: Output>(
    machine: &mut Machine<S>,
    watch: &mut Watch,
    reader: &mut R,
    writer: &mut W,
    steps: u64,
) -> Ending
    // what is written is the output of the machine's run on the bytes that the reader gave and with the answers that its store
    // gave, and the ending is the machine's
    ensures hosted { let seen = arrays S.holdings S.byte_at in
        IsHosted result (areas_of (seen machine.old)) steps (state_of (seen machine.old)) (state_of (seen machine.new))
        (R.remaining reader.old) (R.remaining reader.new) (W.contents writer.old) (W.contents writer.new) }
    // at the step limit the machine runs on
    ensures goes_on { result ≡ Ending.StepLimit → 0 < steps → (state_of (arrays S.holdings S.byte_at machine.new)).mode ≡ Runs }
    // over a store that never runs out of host memory, no run stops because of that, if the machine isn't stopped so before
    ensures memory { let seen = arrays S.holdings S.byte_at in S.may_lack ≡ false → lacks (seen machine.old).mode ≡ false →
        (result ≢ Ending.HostMemory) × (lacks (seen machine.new).mode ≡ false) }
    ensures areas { let seen = arrays S.holdings S.byte_at in areas_of (seen machine.new) ≡ areas_of (seen machine.old) }
    // each device's fault comes where just one call of that device failed, and any other ending where none did
    ensures reads { R.fault_count reader.new ≡ reads_failed result (R.fault_count reader.old) }
    ensures writes { W.fault_count writer.new ≡ writes_failed result (W.fault_count writer.old) }
    // a watch that sees counts the instructions that begin, the calls and the requests, and knows the address of the last of them and the active calls
    ensures watched { let seen = arrays S.holdings S.byte_at in watch.old.sees ≡ true → (watch.new.sees ≡ true) ×
        IsWatched result (areas_of (seen machine.old)) steps (state_of (seen machine.old)) (state_of (seen machine.new))
        (R.remaining reader.old) (R.remaining reader.new) (W.contents writer.old) (W.contents writer.new)
        (tally_of watch.old) (tally_of watch.new) (known_of watch.old) (known_of watch.new) }
{
    let ending = run_at(watch, machine, reader, writer, steps);
    watch.end(machine);
    ending
}
