// The bytes of globals and strings.

ghost use Rattle.std.specs.Prelude.{◌≡◌, ◌-◌, ◌<◌, ◌≤◌, ◌↔◌, ◌++◌, ◌∷◌, [], ◌+◌, ◌*◌, ◌%◌, ◌^◌, Err, IfOk, IfSome, IfNone, OnOk, IsTrue, length, map, vec_len};
ghost use Rattle.cyc_image.specs.Format.{data_limit};
ghost use Rattle.rv32_machine.specs.State.{data_base};
ghost use Rattle.cyc_core.specs.Trees.{datum_tree, program_tree};
ghost use Rattle.cyc_core.specs.declared.program.Datum.TheVariants as datum;
ghost use Rattle.core_lines.specs.Selected.{rounded, nth};
ghost use Rattle.core_lines.specs.Running.{data_offsets};
ghost use Rattle.core_lines.specs.Statics.{zeros, datum_bytes, data_bytes};
ghost use Rattle.rv32_layout.specs.Chars.{AreChars};
ghost use Rattle.rv32_layout.specs.Sizes.{cell_size, cells_size, datum_size};

use crate::fault::LayoutFault;
use crate::words::word_bytes;
use cyc_core::{CellLayout, Datum, Layout, Program};
use cyc_image::DATA_LIMIT;
use rv32_select::{DATA_BASE, statics};
use std::alloc::{AllocError, Global};

/// How many bytes a cell takes, with those behind it that hold nothing.
fn cell_size(cell: CellLayout) -> usize
    ensures size { result ≡ cell_size cell }
    ensures small { result < 2 ^ 33 }
{
    cell.cell.bytes() as usize + cell.padding as usize
}

/// An offset, if it is within the limit.
fn within(offset: usize) -> Option<usize>
    ensures some { IfSome result (λ end. (end ≡ offset) × (end ≤ data_limit)) }
    ensures none { IfNone result (data_limit < offset) }
{
    if offset <= DATA_LIMIT {
        Some(offset)
    } else {
        None
    }
}

/// Where cells end that lie in order from an offset on, if that is within the limit.
fn cells_end(start: usize, cells: &[CellLayout]) -> Option<usize>
    requires { start ≤ data_limit }
    ensures some { IfSome result (λ end. (end ≡ start + cells_size cells.now) × (end ≤ data_limit)) }
    ensures none { IfNone result (data_limit < start + cells_size cells.now) }
{
    let mut at = start;
    'each: for cell in cells {
        at += cell_size(*cell);
        if at > DATA_LIMIT {
            return None;
        }
    }
    Some(at)
}

/// Where `count` elements of a layout end that lie in order from an offset on, if that is within the limit.
#[tactic(auto, using(crate::proofs::Elements::one_or_more, crate::proofs::Elements::product_small))]
fn elements_end(start: usize, layout: &Layout, count: u32) -> Option<usize>
    requires { start ≤ data_limit }
    ensures some { IfSome result (λ end. (end ≡ start + count * cells_size layout.now.cells.items) × (end ≤ data_limit)) }
    ensures none { IfNone result (data_limit < start + count * cells_size layout.now.cells.items) }
{
    if count == 0 {
        return Some(start);
    }
    let Some(element) = cells_end(0, &layout.cells) else {
        return None;
    };
    within(start + count as usize * element)
}

/// Where a global or a string ends that begins at an offset, if that is within the limit.
fn global_end(start: usize, global: &Datum) -> Option<usize>
    requires { start ≤ data_limit }
    ensures some { IfSome result (λ end. (end ≡ start + datum_size global.now) × (end ≤ data_limit)) }
    ensures none { IfNone result (data_limit < start + datum_size global.now) }
{
    match global {
        Datum::Byte(_) => within(start + 1),
        Datum::Word(_) | Datum::Null | Datum::Address(_) => within(start + 4),
        Datum::Text(bytes) => within(start + bytes.len() + 1),
        Datum::Bounds(_, _) => within(start + 12),
        Datum::Whole(layout, count) => elements_end(start, layout.as_ref(), *count),
    }
}

/// Up to the next multiple of 4.
fn rounded(offset: usize) -> usize
    requires { offset ≤ data_limit }
    ensures { result ≡ rounded offset }
{
    (offset + 3) / 4 * 4
}

/// Whether the globals and strings take more bytes than the limit.
fn are_too_large(globals: &[Datum]) -> bool
    ensures { IsTrue result ↔ (data_limit < length (data_bytes (data_offsets (map datum_tree globals.now)) 0 (map datum_tree globals.now))) }
{
    let mut at = 0;
    'each: for global in globals {
        let Some(end) = global_end(rounded(at), global) else {
            return true;
        };
        at = end;
    }
    false
}

/// Appends `count` zeros.
fn put_zeros(bytes: &mut Vec<u8>, count: usize) -> Result<(), AllocError>
    ensures { OnOk result (bytes.new.items ≡ bytes.old.items ++ zeros count) }
{
    'each: for _ in 0..count {
        bytes.push(0)?;
    }
    Ok(())
}

/// Appends a zero for each byte of `count` elements of a layout, which are within the limit.
fn put_whole(bytes: &mut Vec<u8>, layout: &Layout, count: u32) -> Result<(), AllocError>
    requires { count * cells_size layout.now.cells.items ≤ data_limit }
    ensures { OnOk result (bytes.new.items ≡ bytes.old.items ++ zeros (count * cells_size layout.now.cells.items)) }
{
    match elements_end(0, layout, count) {
        Some(size) => put_zeros(bytes, size),
        None => unreachable!(),
    }
}

/// Appends a string's bytes, and a 0 behind them.
fn put_text(bytes: &mut Vec<u8>, text: &[u8]) -> Result<(), AllocError>
    ensures bytes { OnOk result (bytes.new.items ≡ bytes.old.items ++ (text.now ++ 0 ∷ [])) }
    ensures chars { OnOk result (AreChars text.now) }
{
    'each: for byte in text {
        bytes.push(*byte)?;
    }
    bytes.push(b'\0')?;
    Ok(())
}

/// Where the global or string of a number begins, or 0 where there is none.
#[tactic(auto, using(rv32_select::proofs::Numbers::nth_some, rv32_select::proofs::Numbers::nth_none))]
fn offset_of(offsets: &[u64], object: usize) -> u64
    ensures { result ≡ nth offsets.now object }
{
    match offsets.get(object) {
        Some(offset) => *offset,
        None => 0,
    }
}

/// The address of the global or string of a number, as a word.
fn address(offsets: &[u64], object: usize) -> u32
    ensures { result ≡ (data_base + nth offsets.now object) % 2 ^ 32 }
{
    (DATA_BASE.wrapping_add(offset_of(offsets, object)) % 0x1_0000_0000) as u32
}

/// Appends a pointer to the global or string of a number.
#[tactic(auto, using(crate::proofs::Strings::address_bytes))]
fn put_address(bytes: &mut Vec<u8>, offsets: &[u64], object: usize) -> Result<(), AllocError>
    ensures { OnOk result (bytes.new.items ≡ bytes.old.items ++ datum_bytes offsets.now (datum_tree (datum.Address object))) }
{
    bytes.extend_from_slice(&word_bytes(address(offsets, object)))?;
    Ok(())
}

/// Appends a fat pointer to the first element of the global or string of a number, and how many elements that has.
fn put_bounds(
    bytes: &mut Vec<u8>,
    offsets: &[u64],
    object: usize,
    count: u32,
) -> Result<(), AllocError>
    ensures { OnOk result (bytes.new.items ≡ bytes.old.items ++ datum_bytes offsets.now (datum_tree (datum.Bounds object count))) }
{
    bytes.extend_from_slice(&word_bytes(address(offsets, object)))?;
    bytes.extend_from_slice(&word_bytes(count))?;
    put_zeros(bytes, 4)?;
    Ok(())
}

/// Appends what a global or a string within the limit holds at the start: numbers, addresses of objects, or zeros.
fn put_datum(bytes: &mut Vec<u8>, offsets: &[u64], global: &Datum) -> Result<(), AllocError>
    requires { datum_size global.now ≤ data_limit }
    ensures { OnOk result (bytes.new.items ≡ bytes.old.items ++ datum_bytes offsets.now (datum_tree global.now)) }
{
    match global {
        Datum::Byte(byte) => bytes.push(*byte)?,
        Datum::Word(word) => bytes.extend_from_slice(&word_bytes(*word))?,
        Datum::Null => put_zeros(bytes, 4)?,
        Datum::Text(text) => put_text(bytes, text)?,
        Datum::Address(object) => put_address(bytes, offsets, *object)?,
        Datum::Bounds(object, count) => put_bounds(bytes, offsets, *object, *count)?,
        Datum::Whole(layout, count) => put_whole(bytes, layout.as_ref(), *count)?,
    }
    Ok(())
}

/// Appends a global or a string, from the next multiple of 4 on. The bytes begin at the offset 0.
fn put_global(bytes: &mut Vec<u8>, offsets: &[u64], global: &Datum) -> Result<(), AllocError>
    requires within { vec_len bytes.old ≤ data_limit }
    requires small { datum_size global.now ≤ data_limit }
    ensures { OnOk result
        (bytes.new.items ≡ bytes.old.items ++ (zeros (rounded (vec_len bytes.old) - vec_len bytes.old) ++ datum_bytes offsets.now (datum_tree global.now))) }
{
    let padding = rounded(bytes.len()) - bytes.len();
    put_zeros(bytes, padding)?;
    put_datum(bytes, offsets, global)?;
    Ok(())
}

/// The bytes of globals and strings that aren't too large, of which pointers name those that begin at these offsets.
fn globals_bytes(alloc: Global, offsets: &[u64], globals: &[Datum]) -> Result<Vec<u8>, AllocError>
    requires within { length (data_bytes offsets.now 0 (map datum_tree globals.now)) ≤ data_limit }
    ensures { IfOk result (λ bytes. bytes.items ≡ data_bytes offsets.now 0 (map datum_tree globals.now)) }
{
    let mut bytes = Vec::new(alloc);
    'each: for global in globals {
        put_global(&mut bytes, offsets, global)?;
    }
    Ok(bytes)
}

/// The bytes of a program's globals and strings, each from a multiple of 4 on; a pointer to one of them is its address. An `Err` is
/// `TooLarge` exactly where they would be over 1,048,576 bytes, and else `Memory`: no host memory is left.
pub fn data(alloc: Global, program: &Program) -> Result<Vec<u8>, LayoutFault>
    ensures bytes { let ds = (program_tree program.now).data_objects in IfOk result (λ bytes. bytes.items ≡ data_bytes (data_offsets ds) 0 ds) }
    ensures within { IfOk result (λ bytes. vec_len bytes ≤ data_limit) }
    ensures too_large { let ds = (program_tree program.now).data_objects in
        (result ≡ Err LayoutFault.TooLarge) ↔ (data_limit < length (data_bytes (data_offsets ds) 0 ds)) }
{
    if are_too_large(&program.globals) {
        return Err(LayoutFault::TooLarge);
    }
    let offsets = statics(alloc, &program.globals)?;
    let bytes = globals_bytes(alloc, &offsets, &program.globals)?;
    Ok(bytes)
}
