// Commands on sources.

ghost use Rattle.std.specs.Prelude.{◌≡◌, ◌≤◌, IfOk};
ghost use Rattle.std.specs.Option.{option_map};
ghost use Rattle.cycc_answer.specs.Answers.{IsChecked, IsCompiled, IsRun, IsEvalWithin};
ghost use Rattle.cycc_answer.specs.Devices.{AreCounted};

use crate::lines::{Told, ended, printed};
use crate::result::Answer;
use crate::watching::told_within;
use crate::why::refused_in;
use command_line::Pages;
use command_line::status::SUCCESS;
use core_eval::Bounds;
use cyc_image::load;
use cyc_words::{Input, Output};
use cycc_driver::{Limits, check, compile, evaluate_within, execute};
use std::alloc::{AllocError, Global};
use std::io::Write;
use traces::map;

/// Says whether a source is accepted, and answers the status.
pub fn checked<W: Output, E: Write>(
    alloc: Global,
    told: Told<'_>,
    file: &[u8],
    writer: &mut W,
    faults: &mut E,
) -> Result<u8, AllocError>
    ensures checked { IfOk result (IsChecked file.now (W.contents writer.old) (W.contents writer.new)) }
    // a refusal leaves the writer as it was
    ensures untouched { IfOk result (λ status. status ≡ 8 → writer.new ≡ writer.old) }
{
    match check(alloc, file) {
        Ok(()) => {
            let succeeded = writer.write_all(b"accepted\n").is_ok();
            Ok(printed(succeeded, faults))
        }
        Err(fault) => refused_in(alloc, told, file, fault, faults),
    }
}

/// The map of a source with this image, if it is asked for.
fn map_of(
    alloc: Global,
    has_map: bool,
    file: &[u8],
    image: &[u8],
) -> Result<Option<String>, AllocError> {
    if !has_map {
        return Ok(None);
    }
    let Ok(image) = load(alloc, image) else {
        return Err(AllocError);
    };
    Ok(Some(map(alloc, file, &image)?))
}

/// Compiles a source, and answers with its image, and its map if it is asked for.
pub fn compiled<E: Write>(
    alloc: Global,
    told: Told<'_>,
    pages: Pages,
    stack_pages: Pages,
    has_map: bool,
    file: &[u8],
    faults: &mut E,
) -> Result<Answer, AllocError>
    ensures { IfOk result (λ a. IsCompiled file.now pages stack_pages (option_map (λ bytes. bytes.items) a.image) a.status) }
{
    match compile(alloc, file, pages.number(), stack_pages.number()) {
        Ok(image) => Ok(Answer {
            status: SUCCESS,
            map: map_of(alloc, has_map, file, &image)?,
            image: Some(image),
        }),
        Err(fault) => Ok(Answer::plain(refused_in(alloc, told, file, fault, faults)?)),
    }
}

/// Compiles a source and runs its image between a reader and a writer, and answers the status.
pub fn ran<R: Input, W: Output, E: Write>(
    alloc: Global,
    told: Told<'_>,
    limits: Limits,
    file: &[u8],
    reader: &mut R,
    writer: &mut W,
    faults: &mut E,
) -> Result<u8, AllocError>
    requires some { 1 ≤ limits.pages }
    requires within { limits.pages ≤ 4096 }
    requires some_stack { 1 ≤ limits.stack_pages }
    requires stack_within { limits.stack_pages ≤ 4096 }
    ensures run { IfOk result (IsRun file.now limits.pages limits.stack_pages limits.steps
        (R.remaining reader.old) (R.remaining reader.new) (W.contents writer.old) (W.contents writer.new)) }
    // a refusal leaves the reader and the writer as they were
    ensures untouched { IfOk result (λ status. status ≡ 8 → (reader.new ≡ reader.old) × (writer.new ≡ writer.old)) }
    // where the status is 6 just one call of one device failed, and at every other status none
    ensures devices { IfOk result (λ status. AreCounted status
        (R.fault_count reader.old) (R.fault_count reader.new) (W.fault_count writer.old) (W.fault_count writer.new)) }
{
    match execute(alloc, file, reader, writer, limits) {
        Ok(ending) => ended(alloc, ending, None, told.shows_ending, faults),
        Err(fault) => refused_in(alloc, told, file, fault, faults),
    }
}

/// Runs a source by its meaning between a reader and a writer, within bounds, says what is asked for of the run, and answers the status.
pub fn interpreted<R: Input, W: Output, E: Write>(
    alloc: Global,
    told: Told<'_>,
    fuel: u64,
    bounds: Bounds,
    file: &[u8],
    reader: &mut R,
    writer: &mut W,
    faults: &mut E,
) -> Result<u8, AllocError>
    ensures evaluated { IfOk result (IsEvalWithin bounds.calls bounds.bytes file.now fuel
        (R.remaining reader.old) (R.remaining reader.new) (W.contents writer.old) (W.contents writer.new)) }
    // a refusal leaves the reader and the writer as they were
    ensures untouched { IfOk result (λ status. status ≡ 8 → (reader.new ≡ reader.old) × (writer.new ≡ writer.old)) }
    // where the status is 6 just one call of one device failed, and at every other status none
    ensures devices { IfOk result (λ status. AreCounted status
        (R.fault_count reader.old) (R.fault_count reader.new) (W.fault_count writer.old) (W.fault_count writer.new)) }
{
    let mut stop = None;
    let mut exceeded = None;
    match evaluate_within(
        alloc,
        file,
        reader,
        writer,
        fuel,
        &mut stop,
        &bounds,
        &mut exceeded,
    ) {
        Ok(ending) => told_within(
            alloc,
            told,
            file,
            ending,
            bounds,
            exceeded,
            stop.as_ref(),
            faults,
        ),
        Err(fault) => refused_in(alloc, told, file, fault, faults),
    }
}
