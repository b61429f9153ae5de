// Short images on a machine over either store, worked out by hand.
//
// A row says what is done with a machine, and what has to be so then; behind ` <- ` the words of its code, or the name of a program; and behind ` | ` its
// pages, where they aren't 1. `step` says the event of a step, `until` that of the next step that is not Next, `give` and `refuse` what becomes of an answer,
// `pc` and `x` with a number what the machine has, in hexadecimal. `input`, `output` and `run` are told in runs.rt.

use crate::machines::programs::{PROGRAMS, program_of};
use crate::machines::rows::hex;
use crate::machines::runs::Devices;
use crate::texts::{number_of, parted};
use cyc_arena::{BlockStore, PagedStore, PlainStore};
use cyc_image::{Image, Parts, load, write};
use rv32_machine::{Event, Machine};
use std::alloc::{AllocError, Global};
use std::test::Fail;

// the data of images
const DATA: &[u8] = &[0x80, 0x81, 0x82, 0x83];

/// The code of words in hexadecimal, one space apart.
fn code_of(alloc: Global, text: &str) -> Result<Vec<u8>, AllocError> {
    let mut code = Vec::new(alloc);
    for digits in text.split(' ') {
        code.extend_from_slice(&hex(digits).to_le_bytes())?;
    }
    Ok(code)
}

/// The image of parts.
fn loaded(alloc: Global, parts: &Parts<'_>) -> Result<Image, Fail> {
    if parts.fits() {
        Ok(load(alloc, &write(alloc, parts)?)?)
    } else {
        Err(Fail::new("the parts do not fit"))
    }
}

/// The image with this code and this number of pages.
fn image_of(alloc: Global, words: &str, pages: u32) -> Result<Image, Fail> {
    let code = code_of(alloc, words)?;
    let parts = Parts {
        entry: 0,
        code: &code,
        statics: DATA,
        pages,
        stack_pages: 256,
    };
    loaded(alloc, &parts)
}

/// The event that is not Next, of at most 20 steps.
fn event_of<S: BlockStore>(machine: &mut Machine<S>) -> Event {
    for _ in 0..20 {
        let event = machine.step();
        if !matches!(event, Event::Next) {
            return event;
        }
    }
    Event::Next
}

/// Whether an event is shown so.
fn is_event(alloc: Global, event: Event, wanted: &str) -> Result<bool, AllocError> {
    Ok(format!(in alloc; "{event:?}")?.as_str() == wanted)
}

/// Whether a machine has this in a register, or as the address of its instruction.
fn has<S: BlockStore>(machine: &Machine<S>, place: &str, wanted: &str) -> bool {
    let found = match place.strip_prefix("x") {
        Some(register) => machine.reg(register.parse().unwrap_or(0)),
        None => machine.pc(),
    };
    found == hex(wanted)
}

/// Whether it is so what a part of a row says.
fn is_so<S: BlockStore>(
    alloc: Global,
    machine: &mut Machine<S>,
    devices: &mut Devices,
    text: &'static str,
) -> Result<bool, AllocError> {
    let (name, rest) = parted(text);
    match name {
        "step" => is_event(alloc, machine.step(), rest),
        "until" => is_event(alloc, event_of(machine), rest),
        "give" => Ok(machine.give(rest.parse().ok())),
        "refuse" => Ok(!machine.give(rest.parse().ok())),
        "input" => Ok(devices.read(rest)),
        "output" => Ok(devices.write(rest)),
        "run" => devices.run(alloc, machine, rest),
        _ => Ok(has(machine, name, rest)),
    }
}

/// Whether all is so that a row says of a machine.
fn are_so<S: BlockStore>(
    alloc: Global,
    machine: &mut Machine<S>,
    row: &'static str,
) -> Result<bool, AllocError> {
    let mut devices = Devices::new();
    for text in row.split("; ") {
        if !is_so(alloc, machine, &mut devices, text)? {
            return Ok(false);
        }
    }
    Ok(true)
}

/// Whether it is so what a row says of an image's machine over a store.
fn is_done_over<S: BlockStore + Drop>(
    alloc: Global,
    row: &'static str,
    image: &Image,
    store: S,
) -> Result<bool, Fail> {
    match Machine::new(alloc, image, store) {
        Ok(mut machine) => Ok(are_so(alloc, &mut machine, row)?),
        Err(_) => Err(Fail::new("no memory for the machine")),
    }
}

/// Whether it is so over both stores.
fn is_done_over_both(alloc: Global, row: &'static str, image: &Image) -> Result<bool, Fail> {
    let plain = is_done_over(alloc, row, image, PlainStore::new(alloc, image.pages())?)?;
    let paged = is_done_over(alloc, row, image, PagedStore::new(alloc, image.pages())?)?;
    Ok(plain && paged)
}

/// Whether it is so what a row says of a machine, which is made of what stands behind it.
pub fn is_done(alloc: Global, wanted: &'static str, image: &str) -> Result<bool, Fail> {
    let (words, pages) = image.split_once(" | ").unwrap_or((image, "1"));
    let image = image_of(alloc, program_of(&PROGRAMS, words), number_of(pages))?;
    is_done_over_both(alloc, wanted, &image)
}

/// How a machine stops and where, what x10 has then, and that it stays so: the smallest image of each fault; loads from the arena, stores to it and jumps
/// there; calls of the store, in order or not; and frames, as long as the stack, which fits, of one byte more, and of the most bytes.
///
/// Then a machine that goes on step by step: a program that ends; getchar, and again; loads from the data, which extend the sign; what is stored is loaded
/// again, and nothing stands behind the stack;
/// putchar, and a raise. In the last one a region, a block of 8 bytes in it, whose address goes to x5, and 0x12345000 stored there; the region is freed, and
/// the
/// next one made; then bytes 0 to 2 of what stands there go to x12 to x14, and byte 4 to x15.
pub const STEPS: &str = "\
until Fault(Access); pc 10004; x10 0; step Fault(Access); pc 10004 <- 00000893
until Fault(Illegal); pc 10000; x10 0; step Fault(Illegal); pc 10000 <- 00000000
until Fault(Break); pc 10000; x10 0; step Fault(Break); pc 10000 <- 00100073
until Fault(Misaligned); pc 10000; x10 0; step Fault(Misaligned); pc 10000; x1 0 <- 00102083
until Fault(Access); pc 10000; x10 0; step Fault(Access); pc 10000; x1 0 <- 00002083
until Fault(Misaligned); pc 10000; x10 0; step Fault(Misaligned); pc 10000 <- 0020006F
until Ended(0); pc 10008; x10 0; step Ended(0); pc 10008 <- 00001163 00000893 00000073
until Fault(BadCall); pc 10008; x10 3; step Fault(BadCall); pc 10008 <- 00300893 00300513 00000073
until Exhausted; pc 10008; x10 ffffffff; step Exhausted; pc 10008 <- 00D00893 FFF00513 00000073
until Fault(BadCall); pc 10008; x10 1; step Fault(BadCall); pc 10008 <- 00D00893 00100513 00000073
until Fault(BadCall); pc 10004; x10 0; step Fault(BadCall); pc 10004 <- 00E00893 00000073
until Fault(Access); pc 10008; x10 0; step Fault(Access); pc 10008 <- 100012B7 FE028FA3 00028023
until Fault(Access); pc 10000000; x10 0; step Fault(Access); pc 10000000 <- 100002B7 00028067
until Fault(Access); pc 10004; x10 0; step Fault(Access); pc 10004; x1 0 <- 100002B7 FFF28083
until Fault(Misaligned); pc 10004; x10 0; step Fault(Misaligned); pc 10004; x1 0 <- 100002B7 0022A083
until Fault(Access); pc 10004; x10 0; step Fault(Access); pc 10004; x1 0 <- 100012B7 0002D083
until Fault(Access); pc 1000c; x10 500000; step Fault(Access); pc 1000c; x1 0 <- 100012B7 FE22AE23 FFC2A503 0002A083
until Exhausted; pc 10008; x10 1; step Exhausted; pc 10008 <- 00400893 00000073 00000073 00000073
until Exhausted; pc 10008; x10 1; step Exhausted; pc 10008 <- 00400893 00000073 00000073
until Exhausted; pc 10008; x10 1; step Exhausted; pc 10008 <- 00900893 00000073 00000073
until Fault(BadCall); pc 1000c; x10 9; step Fault(BadCall); pc 1000c <- 00500893 00900513 00800593 00000073
until Fault(BadCall); pc 10010; x10 9; step Fault(BadCall); pc 10010 <- 00500893 00900513 000015B7 00158593 00000073
until Exhausted; pc 1000c; x10 0; step Exhausted; pc 1000c <- 00500893 000015B7 00158593 00000073
until Exhausted; pc 1000c; x10 1001; step Exhausted; pc 1000c <- 00700893 00001537 00150513 00000073
until Fault(BadCall); pc 10004; x10 0; step Fault(BadCall); pc 10004 <- 00600893 00000073
until Fault(BadCall); pc 10008; x10 9; step Fault(BadCall); pc 10008 <- 00600893 00900513 00000073
until Fault(BadCall); pc 10010; x10 1; step Fault(BadCall); pc 10010 <- 00400893 00000073 00600893 00000073 00000073
until Fault(BadCall); pc 10018; x10 1; step Fault(BadCall); pc 10018 <- 00400893 00000073 00600893 00000073 00500893 00800593 00000073
until Fault(BadCall); pc 10008; x10 10000000; step Fault(BadCall); pc 10008 <- 00800893 10000537 00000073
until Fault(BadCall); pc 10014; x10 10000000; step Fault(BadCall); pc 10014 <- 00700893 00800513 00000073 00800893 00000073 00000073
until Fault(BadCall); pc 10014; x10 10000008; step Fault(BadCall); pc 10014 <- 00700893 00800513 00000073 00850513 00800893 00000073
until Fault(BadCall); pc 10008; x10 1; step Fault(BadCall); pc 10008 <- 00A00893 00100513 00000073
until Fault(BadCall); pc 10008; x10 1; step Fault(BadCall); pc 10008 <- 00B00893 00100513 00000073
until Fault(BadCall); pc 10008; x10 1; step Fault(BadCall); pc 10008 <- 00C00893 00100513 00000073
until Fault(BadCall); pc 1000c; x10 1; step Fault(BadCall); pc 1000c <- 00900893 00000073 00600893 00000073
until Fault(BadCall); pc 1000c; x10 1; step Fault(BadCall); pc 1000c <- 00900893 00000073 00B00893 00000073
until Fault(BadCall); pc 10010; x10 1; step Fault(BadCall); pc 10010 <- 00900893 00000073 00500893 00800593 00000073
until Fault(BadCall); pc 10010; x10 1; step Fault(BadCall); pc 10010 <- 00900893 00000073 00A00893 00000073 00000073
until Fault(BadCall); pc 10014; x10 1; step Fault(BadCall); pc 10014 <- 00900893 00000073 00A00893 00000073 00C00893 00000073
until Ended(1); pc 10014; x10 1; step Ended(1); pc 10014 <- 00900893 00000073 00C00893 00000073 00000893 00000073
until Fault(BadCall); pc 10008; x10 100000; step Fault(BadCall); pc 10008 <- 00D00893 00100537 00000073
until Exhausted; pc 1000c; x10 100001; step Exhausted; pc 1000c <- 00D00893 00100537 00150513 00000073
until Exhausted; pc 10008; x10 ffffffff; step Exhausted; pc 10008 <- 00D00893 FFF00513 00000073
until Exhausted; pc 1000c; x10 2; step Exhausted; pc 1000c <- 00400893 00000073 00000073 00000073 | 2
step Next; step Next; step Ended(7); step Ended(7); pc 10008; x10 7; x2 500000; x32 0 <- 00000893 00700513 00000073
refuse 1; until Get; step Get; pc 10004; give 200; pc 10008; x10 c8; refuse none; step Get; give none; x10 ffffffff <- 00200893 00000073 00000073
until Fault(Access); x2 ffffff80; x3 ffff8180; x4 80; x5 8180; x6 83828180 <- 002000B7 00008103 00009183 0000C203 0000D283 0000A303
until Fault(Access); x3 ff00; pc 10014 <- FFE00093 FE112E23 FE010E23 FE011F23 FFC12183 00012023
until Put(65); x10 41; until Raised(ArrayBounds); pc 10014 <- 14100513 00100893 00000073 00200513 00300893 00000073
until Fault(Break); x12 0; x13 50; x14 34; x15 0 <- 00400893 00000073 00050313 00500893 00800593 00000073 00050293 123453B7 0072A023 \
00030513 00600893 00000073 00400893 00000073 0002C603 0012C683 0022C703 0042C783 00100073";

/// Whether a machine is made over a store that holds a byte, or where memory lacks, as under rt try --test --fail-alloc, its store comes back as it was.
fn is_made_or_given_back(alloc: Global, image: &Image, mut store: PlainStore) -> bool {
    let is_stored = store.store8(0x1000_0000, 7);
    match Machine::new(alloc, image, store) {
        Ok(machine) => is_stored && machine.pc() == 0x0001_0000 && machine.reg(2) == 0x0050_0000,
        Err(back) => back.load8(0x1000_0000) == Some(7),
    }
}

#[test]
fn where_memory_lacks_the_store_comes_back(rt: HostRuntime) -> Result<(), Fail> {
    let image = image_of(rt.alloc(), "00100073", 1)?;
    let store = PlainStore::new(rt.alloc(), 1)?;
    let is_right = is_made_or_given_back(rt.alloc(), &image, store);
    assert!(rt; is_right);
    Ok(())
}
