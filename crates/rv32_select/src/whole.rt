// Instructions that copy and clear whole objects, and ask for blocks of them.

ghost use Rattle.std.specs.Prelude.{◌≡◌, true, ◌++◌, drop, OnOk};
ghost use Rattle.core_meaning.specs.Core as core;
ghost use Rattle.core_lines.specs.Held.{with_answer};
ghost use Rattle.core_lines.specs.Homes.{flag_at};
ghost use Rattle.core_lines.specs.Loops.{are_word_parts, are_words, copy_loop, clear_loop};
ghost use Rattle.core_lines.specs.Selected.{further_code, bytes_in, bytes_code, operation_code, holding};
ghost use Rattle.cyc_core.specs.Trees.{cell_parts, layout_tree};
ghost use Rattle.rv32_select.specs.Places.{surroundings, saves_left};

use crate::answers::hold_answer;
use crate::emit::{ADDRESS, FIRST, SECOND, put_environment, put_further, put_lines, put_word};
use crate::operands::{put_from, put_into, put_kept};
use crate::place::Place;
use core_lines::Line;
use cyc_core::{CellLayout, Layout, Temporary, Width};
use rv32_isa::{BranchOffset, Instr, Register, Signed12};
use rv32_machine::{REGION_ALLOC, UNIQUE_ALLOC};
use std::alloc::AllocError;

/// The register by way of which each unit is copied.
const UNIT: Register = Register::TEMPORARY_3;

/// Whether a cell is words and no bytes more.
fn is_word(cell: CellLayout) -> bool
    ensures { result ≡ are_word_parts (cell_parts cell) }
{
    match cell.cell.width() {
        Width::Byte => false,
        Width::Word => cell.padding == 0,
    }
}

/// Whether all cells of a layout are words, so that its objects are copied and cleared word by word.
fn are_words(layout: &Layout) -> bool
    ensures { result ≡ are_words (layout_tree layout.now) }
{
    let cells: &[CellLayout] = &layout.cells;
    'each: for cell in cells {
        if !is_word(*cell) {
            return false;
        }
    }
    true
}

/// Appends what puts the end of this number of bytes, which begin where the first operand says, into the register that ends are compared with.
fn put_end(lines: &mut Vec<Line>, bytes: u32) -> Result<(), AllocError>
    ensures { OnOk result (lines.new.items ≡ lines.old.items ++ further_code 7 5 bytes) }
{
    put_further(lines, ADDRESS, FIRST, u64::from(bytes))
}

/// Appends the loop that copies an object, from its first word or byte on to its last.
fn put_copy_loop(lines: &mut Vec<Line>, words: bool) -> Result<(), AllocError>
    ensures { OnOk result (lines.new.items ≡ lines.old.items ++ copy_loop words) }
{
    let (to, from) = (FIRST, SECOND);
    let (here, back) = (Signed12::new(0), BranchOffset::new(-16));
    if words {
        let unit = Signed12::new(4);
        let load = Line::Plain(Instr::Lw(UNIT, from, here));
        let store = Line::Plain(Instr::Sw(to, UNIT, here));
        let to_next = Line::Plain(Instr::Addi(to, to, unit));
        let from_next = Line::Plain(Instr::Addi(from, from, unit));
        let again = Line::Plain(Instr::Bne(to, ADDRESS, back));
        put_lines(lines, &[load, store, to_next, from_next, again])
    } else {
        let unit = Signed12::new(1);
        let load = Line::Plain(Instr::Lbu(UNIT, from, here));
        let store = Line::Plain(Instr::Sb(to, UNIT, here));
        let to_next = Line::Plain(Instr::Addi(to, to, unit));
        let from_next = Line::Plain(Instr::Addi(from, from, unit));
        let again = Line::Plain(Instr::Bne(to, ADDRESS, back));
        put_lines(lines, &[load, store, to_next, from_next, again])
    }
}

/// Appends the loop that clears an object, from its first word or byte on to its last.
fn put_clear_loop(lines: &mut Vec<Line>, words: bool) -> Result<(), AllocError>
    ensures { OnOk result (lines.new.items ≡ lines.old.items ++ clear_loop words) }
{
    let (here, back) = (Signed12::new(0), BranchOffset::new(-8));
    if words {
        let store = Line::Plain(Instr::Sw(FIRST, Register::ZERO, here));
        let next = Line::Plain(Instr::Addi(FIRST, FIRST, Signed12::new(4)));
        let again = Line::Plain(Instr::Bne(FIRST, ADDRESS, back));
        put_lines(lines, &[store, next, again])
    } else {
        let store = Line::Plain(Instr::Sb(FIRST, Register::ZERO, here));
        let next = Line::Plain(Instr::Addi(FIRST, FIRST, Signed12::new(1)));
        let again = Line::Plain(Instr::Bne(FIRST, ADDRESS, back));
        put_lines(lines, &[store, next, again])
    }
}

/// Appends what gives the object of a layout that a temporary points to what another's holds: nothing for an object of no bytes.
pub fn put_copy(
    lines: &mut Vec<Line>,
    place: &Place,
    to: Temporary,
    from: Temporary,
    layout: &Layout,
) -> Result<(), AllocError>
    ensures { OnOk result (lines.new.items ≡ lines.old.items
        ++ operation_code true (surroundings place.now) (core.Copy to.0 from.0 (layout_tree layout.now))) }
{
    if layout.bytes == 0 {
        return Ok(());
    }
    put_from(lines, place, FIRST, to)?;
    put_from(lines, place, SECOND, from)?;
    put_end(lines, layout.bytes)?;
    put_copy_loop(lines, are_words(layout))
}

/// The bytes of this number of elements of a layout, as a word.
fn bytes_in(layout: &Layout, count: u32) -> u32
    ensures { result ≡ bytes_in (layout_tree layout.now) count }
{
    count.wrapping_mul(layout.bytes)
}

/// Appends what gives this number of elements of a layout, from where a temporary points on, what they begin as: nothing where they have no bytes.
pub fn put_clear(
    lines: &mut Vec<Line>,
    place: &Place,
    pointer: Temporary,
    layout: &Layout,
    count: u32,
) -> Result<(), AllocError>
    ensures { OnOk result (lines.new.items ≡ lines.old.items
        ++ operation_code true (surroundings place.now) (core.Clear pointer.0 (layout_tree layout.now) count)) }
{
    let bytes = bytes_in(layout, count);
    if bytes == 0 {
        return Ok(());
    }
    put_from(lines, place, FIRST, pointer)?;
    put_end(lines, bytes)?;
    put_clear_loop(lines, are_words(layout))
}

/// Appends what puts the bytes of as many objects as the first operand says into the register of the second argument: all ones where a word can't say
/// that number.
fn put_bytes(lines: &mut Vec<Line>, bytes: u32) -> Result<(), AllocError>
    ensures { OnOk result (lines.new.items ≡ lines.old.items ++ bytes_code bytes) }
{
    let (asked, none) = (Register::ARGUMENT_1, Register::ZERO);
    put_word(lines, SECOND, u64::from(bytes))?;
    let high = Line::Plain(Instr::Mulhu(asked, FIRST, SECOND));
    let low = Line::Plain(Instr::Mul(FIRST, FIRST, SECOND));
    let over = Line::Plain(Instr::Sltu(asked, none, asked));
    let ones = Line::Plain(Instr::Sub(asked, none, asked));
    let both = Line::Plain(Instr::Or(asked, asked, FIRST));
    put_lines(lines, &[high, low, over, ones, both])
}

/// Appends what asks a region for a block of as many objects of a layout as a temporary says.
fn put_region_alloc(
    lines: &mut Vec<Line>,
    place: &Place,
    keeps: bool,
    to: Temporary,
    handle: Temporary,
    count: Temporary,
    layout: &Layout,
) -> Result<(), AllocError>
    ensures { OnOk result (lines.new.items ≡ lines.old.items
        ++ operation_code keeps (surroundings place.now) (core.RegionAlloc to.0 handle.0 count.0 (layout_tree layout.now))) }
{
    put_into(lines, place, FIRST, count)?;
    put_into(lines, place, Register::ARGUMENT_0, handle)?;
    put_bytes(lines, layout.bytes)?;
    put_environment(lines, REGION_ALLOC)?;
    put_kept(lines, place, keeps, Register::ARGUMENT_0, to)
}

/// The same, and goes on behind it.
pub fn put_region_request(
    lines: &mut Vec<Line>,
    place: &mut Place,
    to: Temporary,
    handle: Temporary,
    count: Temporary,
    layout: &Layout,
) -> Result<(), AllocError>
    ensures code { OnOk result (lines.new.items ≡ lines.old.items ++ operation_code (flag_at (saves_left place.old) 0) (surroundings place.old)
        (core.RegionAlloc to.0 handle.0 count.0 (layout_tree layout.now))) }
    ensures same { OnOk result (surroundings place.new ≡ holding (with_answer to.0 place.old.held) (surroundings place.old)) }
    ensures saves { OnOk result (saves_left place.new ≡ drop 1 (saves_left place.old)) }
{
    let keeps = place.is_saved();
    put_region_alloc(lines, place, keeps, to, handle, count, layout)?;
    place.pass_result();
    hold_answer(place, to)
}

/// Appends what asks for a unique block of an object of a layout.
fn put_unique_alloc(
    lines: &mut Vec<Line>,
    place: &Place,
    keeps: bool,
    to: Temporary,
    layout: &Layout,
) -> Result<(), AllocError>
    ensures { OnOk result (lines.new.items ≡ lines.old.items
        ++ operation_code keeps (surroundings place.now) (core.UniqueAlloc to.0 (layout_tree layout.now))) }
{
    put_word(lines, Register::ARGUMENT_0, u64::from(layout.bytes))?;
    put_environment(lines, UNIQUE_ALLOC)?;
    put_kept(lines, place, keeps, Register::ARGUMENT_0, to)
}

/// The same, and goes on behind it.
pub fn put_unique_request(
    lines: &mut Vec<Line>,
    place: &mut Place,
    to: Temporary,
    layout: &Layout,
) -> Result<(), AllocError>
    ensures code { OnOk result (lines.new.items ≡ lines.old.items ++ operation_code (flag_at (saves_left place.old) 0) (surroundings place.old)
        (core.UniqueAlloc to.0 (layout_tree layout.now))) }
    ensures same { OnOk result (surroundings place.new ≡ holding (with_answer to.0 place.old.held) (surroundings place.old)) }
    ensures saves { OnOk result (saves_left place.new ≡ drop 1 (saves_left place.old)) }
{
    let keeps = place.is_saved();
    put_unique_alloc(lines, place, keeps, to, layout)?;
    place.pass_result();
    hold_answer(place, to)
}
