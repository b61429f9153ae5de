// Where an address lies.

ghost use Rattle.std.specs.Prelude.{◌≡◌, ◌≤◌, ◌-◌, ◌^◌, Some, None, if◌then◌else◌};
ghost use Rattle.rv32_machine.specs.State.{is_within};
ghost use Rattle.rv32_machine.specs.Arrays.{longest_stack};
ghost use Rattle.rv32_machine.specs.Places.{Locates};

use arena_laws::{BASE, PAGE};

/// Where the code begins.
pub const CODE_BASE: u32 = 0x0001_0000;

/// Where the data begins.
pub const DATA_BASE: u32 = 0x0020_0000;

/// Where the stack begins.
pub const STACK_BASE: u32 = 0x0040_0000;

/// The area that an address lies in, and its offset there.
#[derive(Clone, Copy)]
pub enum Place {
    /// In the code.
    Code(usize),
    /// In the data.
    Statics(usize),
    /// In the stack.
    Stack(usize),
    /// In the arena, whose bytes the store has by their addresses.
    Arena,
}

/// The offset of an address in the area of this base and length, if `width` bytes from there on lie in it.
pub fn offset_in(base: u32, length: usize, at: u32, width: usize) -> Option<usize>
    requires length { length ≤ 2 ^ 24 }
    requires width { width ≤ 4 }
    ensures { result ≡ (if is_within base length at width then Some (at - base) else None) }
{
    if at < base {
        return None;
    }
    let offset = (at - base) as usize;
    if offset + width <= length {
        Some(offset)
    } else {
        None
    }
}

/// The area and the offset of `width` bytes from an address on, if they lie in one area.
pub fn locate(
    code: usize,
    statics: usize,
    stack: usize,
    pages: u32,
    at: u32,
    width: usize,
) -> Option<Place>
    requires code { code ≤ 2 ^ 20 }
    requires statics { statics ≤ 2 ^ 20 }
    requires stack { stack ≤ longest_stack }
    requires pages { pages ≤ 4096 }
    requires width { width ≤ 4 }
    ensures { Locates record { code = code; statics = statics; stack = stack; pages = pages; block_limit = 0 } at width result }
{
    if let Some(offset) = offset_in(STACK_BASE, stack, at, width) {
        return Some(Place::Stack(offset));
    }
    if let Some(offset) = offset_in(DATA_BASE, statics, at, width) {
        return Some(Place::Statics(offset));
    }
    if let Some(offset) = offset_in(CODE_BASE, code, at, width) {
        return Some(Place::Code(offset));
    }
    if offset_in(BASE, (pages * PAGE) as usize, at, width).is_some() {
        return Some(Place::Arena);
    }
    None
}
