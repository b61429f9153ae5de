// Runs of a text.

ghost use Rattle.std.specs.Prelude.{◌≡◌, ◌≢◌, ◌≤◌, IfOk, IfErr, true};
ghost use Rattle.cyc_host.specs.Failures.{reads_failed, writes_failed};
ghost use Rattle.cyc_host.specs.Watched.{known_of, no_calls, nothing, tally_of};
ghost use Rattle.cycc_driver.specs.Refusals.{HasNoImageFor};
ghost use Rattle.cycc_driver.specs.Outcome.{IsTextRun};
ghost use Rattle.cycc_driver.specs.WatchedRun.{IsTextWatched};

use crate::compiling::compile;
use crate::fault::CompileFault;
use cyc_arena::PagedStore;
use cyc_host::{Ending, Watch, run_watched};
use cyc_image::{ImageFault, load};
use cyc_words::{Input, Output};
use raw_pages::PagesFault;
use rv32_machine::Machine;
use std::alloc::{AllocError, Global};

/// What a run may use.
#[derive(Clone, Copy)]
pub struct Limits {
    /// The pages of the arena, of 4,096 bytes each.
    pub pages: u32,
    /// The number of steps.
    pub steps: u64,
    /// The pages of the stack, of 4,096 bytes each.
    pub stack_pages: u32,
}

/// How a run ended, and what was seen of it.
#[derive(Drop)]
pub struct Watched {
    pub ending: Ending,
    pub watch: Watch,
}

/// A watch of a run of this code; one that sees nothing where the run isn't watched.
fn watch_of(alloc: Global, is_watched: bool, code: &[u8]) -> Result<Watch, AllocError>
    ensures { IfOk result (λ watch. is_watched ≡ true → (watch.sees ≡ true) ×
        ((tally_of watch ≡ nothing code.now) × (known_of watch ≡ no_calls))) }
{
    if is_watched {
        Watch::new(alloc, code)
    } else {
        Ok(Watch::idle(alloc))
    }
}

/// Compiles a text and runs its image, watched or not.
fn executed<R: Input, W: Output>(
    alloc: Global,
    text: &[u8],
    is_watched: bool,
    reader: &mut R,
    writer: &mut W,
    limits: Limits,
) -> Result<Watched, CompileFault>
    requires some { 1 ≤ limits.pages }
    requires within { limits.pages ≤ 4096 }
    requires some_stack { 1 ≤ limits.stack_pages }
    requires stack_within { limits.stack_pages ≤ 4096 }
    // what is written is the program's output on the bytes that the reader gave, and the ending is its; or the run was stopped after a beginning of it
    ensures run { IfOk result (λ watched. IsTextRun text.now limits.pages limits.stack_pages limits.steps watched.ending
        (R.remaining reader.old) (R.remaining reader.new) (W.contents writer.old) (W.contents writer.new)) }
    // a run that has begun lacks no host memory
    ensures memory { IfOk result (λ watched. watched.ending ≢ Ending.HostMemory) }
    // a device's fault comes where just one call of that device failed, and any other ending where none did
    ensures reads { IfOk result (λ watched. R.fault_count reader.new ≡ reads_failed watched.ending (R.fault_count reader.old)) }
    ensures writes { IfOk result (λ watched. W.fault_count writer.new ≡ writes_failed watched.ending (W.fault_count writer.old)) }
    // what is watched is the run of the image that `compile` gives: the watch counts the instructions that begin, of each word of the code, the calls
    // and the requests, and knows the address of the last instruction and the active calls
    ensures watched { is_watched ≡ true → IfOk result (λ watched. IsTextWatched text.now limits.pages limits.stack_pages limits.steps watched.ending
        (R.remaining reader.old) (R.remaining reader.new) (W.contents writer.old) (W.contents writer.new) (tally_of watched.watch)
        (known_of watched.watch)) }
    // the fault is that of `compile`, and nothing was read or written
    ensures refused { IfErr result (λ fault. HasNoImageFor fault text.now) }
    ensures untouched { IfErr result (λ _. (reader.new ≡ reader.old) × (writer.new ≡ writer.old)) }
{
    let bytes = compile(alloc, text, limits.pages, limits.stack_pages)?;
    let image = match load(alloc, &bytes) {
        Ok(image) => image,
        Err(ImageFault::Memory) => return Err(CompileFault::Memory),
        Err(_) => unreachable!(),
    };
    let store = match PagedStore::new(alloc, limits.pages) {
        Ok(store) => store,
        Err(PagesFault::Memory) => return Err(CompileFault::Memory),
        Err(PagesFault::Pages) => unreachable!(),
    };
    let Ok(mut machine) = Machine::new(alloc, &image, store) else {
        return Err(CompileFault::Memory);
    };
    let Ok(mut watch) = watch_of(alloc, is_watched, image.code()) else {
        return Err(CompileFault::Memory);
    };
    let ending = run_watched(&mut machine, &mut watch, reader, writer, limits.steps);
    Ok(Watched { ending, watch })
}

/// Compiles a text and runs its image.
///
/// Refuses what `compile` refuses, before anything is read or written, and with `Memory` also where
/// no host memory is left for the machine and its store, a `PagedStore`. Otherwise answers how the run ended,
/// which is never HostMemory: the store takes all its memory before the run.
pub fn execute<R: Input, W: Output>(
    alloc: Global,
    text: &[u8],
    reader: &mut R,
    writer: &mut W,
    limits: Limits,
) -> Result<Ending, CompileFault>
    requires some { 1 ≤ limits.pages }
    requires within { limits.pages ≤ 4096 }
    requires some_stack { 1 ≤ limits.stack_pages }
    requires stack_within { limits.stack_pages ≤ 4096 }
    // what is written is the program's output on the bytes that the reader gave, and the ending is its; or the run was stopped after a beginning of it
    ensures run { IfOk result (λ ending. IsTextRun text.now limits.pages limits.stack_pages limits.steps ending
        (R.remaining reader.old) (R.remaining reader.new) (W.contents writer.old) (W.contents writer.new)) }
    // a run that has begun lacks no host memory
    ensures memory { IfOk result (λ ending. ending ≢ Ending.HostMemory) }
    // a device's fault comes where just one call of that device failed, and any other ending where none did
    ensures reads { IfOk result (λ ending. R.fault_count reader.new ≡ reads_failed ending (R.fault_count reader.old)) }
    ensures writes { IfOk result (λ ending. W.fault_count writer.new ≡ writes_failed ending (W.fault_count writer.old)) }
    // the fault is that of `compile`, and nothing was read or written
    ensures refused { IfErr result (λ fault. HasNoImageFor fault text.now) }
    ensures untouched { IfErr result (λ _. (reader.new ≡ reader.old) × (writer.new ≡ writer.old)) }
{
    let watched = executed(alloc, text, false, reader, writer, limits)?;
    Ok(watched.ending)
}

/// Compiles a text and runs its image as `execute` does, one step at a time, and says what was seen of the run. Takes memory for the watch
/// also while it runs; where none is left for the address of a call, only that address is lost.
pub fn execute_watched<R: Input, W: Output>(
    alloc: Global,
    text: &[u8],
    reader: &mut R,
    writer: &mut W,
    limits: Limits,
) -> Result<Watched, CompileFault>
    requires some { 1 ≤ limits.pages }
    requires within { limits.pages ≤ 4096 }
    requires some_stack { 1 ≤ limits.stack_pages }
    requires stack_within { limits.stack_pages ≤ 4096 }
    // what is written is the program's output on the bytes that the reader gave, and the ending is its; or the run was stopped after a beginning of it
    ensures run { IfOk result (λ watched. IsTextRun text.now limits.pages limits.stack_pages limits.steps watched.ending
        (R.remaining reader.old) (R.remaining reader.new) (W.contents writer.old) (W.contents writer.new)) }
    // a run that has begun lacks no host memory
    ensures memory { IfOk result (λ watched. watched.ending ≢ Ending.HostMemory) }
    // a device's fault comes where just one call of that device failed, and any other ending where none did
    ensures reads { IfOk result (λ watched. R.fault_count reader.new ≡ reads_failed watched.ending (R.fault_count reader.old)) }
    ensures writes { IfOk result (λ watched. W.fault_count writer.new ≡ writes_failed watched.ending (W.fault_count writer.old)) }
    // the watch counts the instructions that begin in the run of the image that `compile` gives, its calls and its requests, and knows the address of the last
    // instruction and the active calls
    ensures watched { IfOk result (λ watched. IsTextWatched text.now limits.pages limits.stack_pages limits.steps watched.ending
        (R.remaining reader.old) (R.remaining reader.new) (W.contents writer.old) (W.contents writer.new) (tally_of watched.watch)
        (known_of watched.watch)) }
    // the fault is that of `compile`, and nothing was read or written
    ensures refused { IfErr result (λ fault. HasNoImageFor fault text.now) }
    ensures untouched { IfErr result (λ _. (reader.new ≡ reader.old) × (writer.new ≡ writer.old)) }
{
    executed(alloc, text, true, reader, writer, limits)
}
