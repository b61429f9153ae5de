// Commands on images.

ghost use Rattle.std.specs.Prelude.{◌≡◌, ◌≢◌, ◌⊎◌, IfOk, IfErr, length};
ghost use Rattle.cyc_image.specs.Format.{IsImage};
ghost use Rattle.cycc_answer.specs.Answers.{IsExec, IsDumped, IsNoImageFor};
ghost use Rattle.cycc_answer.specs.Devices.{AreCounted};

use crate::lines::{Told, printed, unloaded};
use crate::watching::{Ran, told_of, watch_of};
use byteorder::{ByteOrder, LittleEndian};
use cyc_arena::PagedStore;
use cyc_host::{GATHERED_BYTES, run_watched};
use cyc_image::{BLOCK_LIMIT, Image, ImageFault, load};
use cyc_words::{Input, Output};
use raw_pages::PagesFault;
use rv32_isa::decode;
use rv32_machine::{CODE_BASE, Machine};
use std::alloc::{AllocError, Global};
use std::io::Write;
use traces::Arena;

/// The image that the bytes are.
fn loaded(alloc: Global, file: &[u8]) -> Result<Image, ImageFault>
    ensures found { IfOk result (λ image. IsImage file.now image) }
    ensures refused { IfErr result (IsNoImageFor file.now) }
{
    load(alloc, file)
}

/// Runs an image between a reader and a writer, says what is asked for of the run, and answers the status.
pub fn exec<R: Input, W: Output, E: Write>(
    alloc: Global,
    told: Told<'_>,
    steps: u64,
    file: &[u8],
    reader: &mut R,
    writer: &mut W,
    faults: &mut E,
) -> Result<u8, AllocError>
    ensures run { IfOk result (IsExec file.now steps
        (R.remaining reader.old) (R.remaining reader.new) (W.contents writer.old) (W.contents writer.new)) }
    // a refusal leaves the reader and the writer as they were
    ensures untouched { IfOk result (λ status. status ≡ 8 → (reader.new ≡ reader.old) × (writer.new ≡ writer.old)) }
    // where the status is 6 just one call of one device failed, and at every other status none
    ensures devices { IfOk result (λ status. AreCounted status
        (R.fault_count reader.old) (R.fault_count reader.new) (W.fault_count writer.old) (W.fault_count writer.new)) }
{
    let image = match loaded(alloc, file) {
        Ok(image) => image,
        Err(fault) => return unloaded(alloc, told.input, fault, faults),
    };
    let mut watch = watch_of(alloc, told, image.code())?;
    let store = match PagedStore::new(alloc, image.pages()) {
        Ok(store) => store,
        Err(PagesFault::Memory) => return Err(AllocError),
        Err(PagesFault::Pages) => unreachable!(),
    };
    let Ok(mut machine) = Machine::new(alloc, &image, store) else {
        return Err(AllocError);
    };
    let ending = run_watched(&mut machine, &mut watch, reader, writer, steps);
    let arena = Arena {
        pages: image.pages(),
        longest: image.block_limit(),
    };
    let ran = Ran::Image(machine.pc(), arena);
    told_of(alloc, told, ran, ending, &watch, faults)
}

/// Prints an image's header and its code, and answers the status.
pub fn dump<W: Output, E: Write>(
    alloc: Global,
    input: &str,
    file: &[u8],
    writer: &mut W,
    faults: &mut E,
) -> Result<u8, AllocError>
    ensures dumped { IfOk result (IsDumped file.now) }
    // a refusal leaves the writer as it was
    ensures untouched { IfOk result (λ status. status ≡ 8 → writer.new ≡ writer.old) }
{
    let image = match loaded(alloc, file) {
        Ok(image) => image,
        Err(fault) => return unloaded(alloc, input, fault, faults),
    };
    let header = header_of(alloc, &image)?;
    let succeeded = writer.write_all(header.as_bytes()).is_ok();
    if !succeeded {
        return Ok(printed(false, faults));
    }
    let succeeded = print_code(alloc, image.code(), writer)?;
    Ok(printed(succeeded, faults))
}

/// The first line of a dump. It has the stack's pages for version 2 alone, which its longer blocks tell.
fn header_of(alloc: Global, image: &Image) -> Result<String, AllocError> {
    let entry = image.entry();
    let code = image.code().len();
    let data = image.statics().len();
    let pages = image.pages();
    if image.block_limit() != BLOCK_LIMIT {
        return format!(in alloc; "entry {entry} code {code} data {data} pages {pages}\n");
    }
    let stack = image.stack_pages();
    format!(in alloc; "entry {entry} code {code} data {data} pages {pages} stack {stack}\n")
}

/// Prints code a line a word. False where a write failed.
fn print_code<W: Output>(alloc: Global, code: &[u8], writer: &mut W) -> Result<bool, AllocError> {
    let mut text = String::new(alloc);
    let mut at = CODE_BASE;
    for bytes in code.chunks_exact(4) {
        text.push_str(line_of(alloc, at, LittleEndian::read_u32(bytes))?.as_str())?;
        if text.len() >= GATHERED_BYTES {
            if writer.write_all(text.as_bytes()).is_err() {
                return Ok(false);
            }
            text.clear();
        }
        at = at.wrapping_add(4);
    }
    Ok(writer.write_all(text.as_bytes()).is_ok())
}

/// The line of a word: its address, the word and its text.
fn line_of(alloc: Global, at: u32, word: u32) -> Result<String, AllocError> {
    match decode(word) {
        Some(instruction) => format!(in alloc; "{at:08x} {word:08x} {instruction}\n"),
        None => format!(in alloc; "{at:08x} {word:08x} illegal\n"),
    }
}
