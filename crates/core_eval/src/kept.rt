// How many bytes are kept of a run, as an estimate.

use crate::blocks::Block;
use crate::long_block::LongBlock;
use crate::pending::{Pending, Run};
use crate::value::{Object, Slot, Value};
use cyc_core::Layout;
use std::mem::size_of;

/// How many bytes the host's allocator takes for a block, beside what was asked for, at most.
pub const BESIDE: u64 = 16;

/// How many bytes so many items of a size take.
pub fn bytes_of(items: u64, size: usize) -> u64 {
    items.saturating_mul(size as u64)
}

/// Of a vector of temporaries, with the room that it has for more.
pub fn kept_of_temps(temps: &Vec<Value>) -> u64 {
    bytes_of(temps.capacity() as u64, size_of::<Value>()).saturating_add(BESIDE)
}

/// Of a vector that had objects: the room that it has for others.
pub fn kept_of_room(objects: &Vec<Object>) -> u64 {
    bytes_of(objects.capacity() as u64, size_of::<Object>()).saturating_add(BESIDE)
}

/// Of a block of a number of elements of a layout, as if all of them were made.
pub fn kept_of_block(layout: &Layout, count: u32) -> u64 {
    let element = bytes_of(layout.cells.len() as u64, size_of::<Slot>());
    let own = bytes_of(1, size_of::<Object>());
    element.saturating_mul(u64::from(count)).saturating_add(own)
}

/// Of an object, as if all elements of a block were made.
fn kept_of_object(object: &Object) -> u64 {
    let own = bytes_of(1, size_of::<Object>());
    match object {
        Object::Word(_) => own,
        Object::Scalar(_) => bytes_of(1, size_of::<Slot>()).saturating_add(own),
        Object::Whole(slots) => bytes_of(slots.len() as u64, size_of::<Slot>()).saturating_add(own),
        Object::Begun(begun) => kept_of_block(begun.layout.as_ref(), begun.count),
    }
}

/// Of these objects.
pub fn kept_of_objects(objects: &[Object]) -> u64 {
    let mut bytes: u64 = 0;
    for object in objects {
        bytes = bytes.saturating_add(kept_of_object(object));
    }
    bytes
}

/// Of a run: of what waits, of the temporaries and objects of all calls, of globals, regions and their blocks, and of vectors that are used again.
pub fn kept_of_run(run: &Run<'_>) -> u64 {
    let memory = &run.memory;
    let active = (memory.blocks.len() as u64).saturating_add(memory.owns.len() as u64);
    let mut bytes = memory.spare.bytes();
    bytes = bytes.saturating_add(kept_of_temps(&run.frame.temps));
    bytes = bytes.saturating_add(bytes_of(run.stack.len() as u64, size_of::<Pending<'_>>()));
    bytes = bytes.saturating_add(bytes_of(active, size_of::<Block>()));
    bytes = bytes.saturating_add(active.saturating_mul(BESIDE));
    bytes = bytes.saturating_add(memory.regions.kept_of_chunks());
    bytes.saturating_add(bytes_of(memory.long_blocks.len() as u64, size_of::<LongBlock>()))
}
