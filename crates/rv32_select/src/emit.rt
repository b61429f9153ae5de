// Instructions for single steps.

ghost use Rattle.std.specs.Prelude.{◌≡◌, ◌*◌, ◌<◌, [], ◌∷◌, ◌++◌, IfOk, OnOk};
ghost use Rattle.core_lines.specs.declared.line.Line.TheVariants.{Plain};
ghost use Rattle.core_lines.specs.Frames.{upper_of, lower_of, is_short, word_code, load_code, save_code, environment_code};
ghost use Rattle.core_lines.specs.Operands.{number_code, copied_code};
ghost use Rattle.core_lines.specs.Selected.{address_code, further_code, far_code, read_line, read_code, write_line, write_code};
ghost use Rattle.cyc_core.specs.Trees.{bytes_of};
ghost use Rattle.rv32_isa.specs.declared.instruction.Instr.TheVariants.{Lui, Addi};

use core_lines::Line;
use cyc_core::Width;
use rv32_isa::{Instr, Register, Signed12, Upper20};
use std::alloc::AllocError;

/// The spare registers, into which operands are loaded: the first one's, and the one beside it.
pub const FIRST: Register = Register::TEMPORARY_0;

pub const SECOND: Register = Register::TEMPORARY_1;

/// The register that the address of what lies far is computed in.
pub const ADDRESS: Register = Register::TEMPORARY_2;

/// Appends an instruction.
pub fn put(lines: &mut Vec<Line>, instruction: Instr) -> Result<(), AllocError>
    ensures { OnOk result (lines.new.items ≡ lines.old.items ++ Plain instruction ∷ []) }
{
    lines.push(Line::Plain(instruction))?;
    Ok(())
}

/// Appends two instructions.
pub fn put_two(lines: &mut Vec<Line>, first: Instr, second: Instr) -> Result<(), AllocError>
    ensures { OnOk result (lines.new.items ≡ lines.old.items ++ Plain first ∷ Plain second ∷ []) }
{
    lines.extend_from_slice(&[Line::Plain(first), Line::Plain(second)])
}

/// Appends three instructions.
pub fn put_three(
    lines: &mut Vec<Line>,
    first: Instr,
    second: Instr,
    third: Instr,
) -> Result<(), AllocError>
    ensures { OnOk result (lines.new.items ≡ lines.old.items ++ Plain first ∷ Plain second ∷ Plain third ∷ []) }
{
    lines.extend_from_slice(&[Line::Plain(first), Line::Plain(second), Line::Plain(third)])
}

/// Appends lines.
pub fn put_lines(lines: &mut Vec<Line>, more: &[Line]) -> Result<(), AllocError>
    ensures { OnOk result (lines.new.items ≡ lines.old.items ++ more.now) }
{
    lines.extend_from_slice(more)
}

/// The upper 20 bits of a word, for LUI: one more where the lower 12 are negative.
fn upper(word: u64) -> Upper20
    ensures { result ≡ upper_of word }
{
    let low = (word % 0x1_0000_0000) as u32;
    Upper20::new(low.wrapping_add(2048) >> 12)
}

/// The lower 12 bits of a word, with their sign.
pub fn lower(word: u64) -> Signed12
    ensures { result ≡ lower_of word }
{
    let bits = (word % 4096) as i32;
    Signed12::new(if bits < 2048 { bits } else { bits - 4096 })
}

/// Whether the lower part alone is the word, for words below 2^32.
pub fn is_short(word: u64) -> bool
    ensures { result ≡ is_short word }
{
    word < 2048 || word >= 0xffff_f800
}

/// The two instructions that put a word into a register.
pub fn word_instructions(to: Register, word: u64) -> (Instr, Instr)
    ensures upper { result.0 ≡ Lui to (upper_of word) }
    ensures lower { result.1 ≡ Addi to to (lower_of word) }
{
    let (high, low) = (upper(word), lower(word));
    (Instr::Lui(to, high), Instr::Addi(to, to, low))
}

/// Appends what puts a word into a register, by two instructions.
pub fn put_word(lines: &mut Vec<Line>, to: Register, word: u64) -> Result<(), AllocError>
    ensures { OnOk result (lines.new.items ≡ lines.old.items ++ word_code to word) }
{
    let (first, second) = word_instructions(to, word);
    put_two(lines, first, second)
}

/// Appends what puts a word into a register, by one instruction where that is enough.
pub fn put_number(lines: &mut Vec<Line>, to: Register, word: u64) -> Result<(), AllocError>
    ensures { OnOk result (lines.new.items ≡ lines.old.items ++ number_code to word) }
{
    if is_short(word) {
        return put(lines, Instr::Addi(to, Register::ZERO, lower(word)));
    }
    if word % 4096 == 0 {
        put(lines, Instr::Lui(to, upper(word)))
    } else {
        put_word(lines, to, word)
    }
}

/// Appends what puts a register's word into another one, if it is another.
pub fn put_copied(lines: &mut Vec<Line>, to: Register, from: Register) -> Result<(), AllocError>
    ensures { OnOk result (lines.new.items ≡ lines.old.items ++ copied_code to from) }
{
    if from.number() == to.number() {
        Ok(())
    } else {
        put(lines, Instr::Addi(to, from, Signed12::new(0)))
    }
}

/// Appends what puts into a register the address this number of bytes above the stack pointer.
pub fn put_address(lines: &mut Vec<Line>, to: Register, distance: u64) -> Result<(), AllocError>
    ensures { OnOk result (lines.new.items ≡ lines.old.items ++ address_code to distance) }
{
    let pointer = Register::STACK_POINTER;
    if is_short(distance) {
        put(lines, Instr::Addi(to, pointer, lower(distance)))
    } else {
        let (first, second) = word_instructions(to, distance);
        put_three(lines, first, second, Instr::Add(to, to, pointer))
    }
}

/// Appends what puts into a register the address this number of bytes above that in another one.
pub fn put_further(
    lines: &mut Vec<Line>,
    to: Register,
    from: Register,
    bytes: u64,
) -> Result<(), AllocError>
    ensures { OnOk result (lines.new.items ≡ lines.old.items ++ further_code to from bytes) }
{
    if is_short(bytes) {
        put(lines, Instr::Addi(to, from, lower(bytes)))
    } else {
        let (first, second) = word_instructions(ADDRESS, bytes);
        put_three(lines, first, second, Instr::Add(to, ADDRESS, from))
    }
}

/// Appends what computes the base of what lies far from an address in a register, and an instruction on that.
fn put_far(
    lines: &mut Vec<Line>,
    from: Register,
    distance: u64,
    next: Instr,
) -> Result<(), AllocError>
    ensures { OnOk result (lines.new.items ≡ lines.old.items ++ far_code from distance ++ Plain next ∷ []) }
{
    let high = Instr::Lui(ADDRESS, upper(distance));
    put_three(lines, high, Instr::Add(ADDRESS, ADDRESS, from), next)
}

/// Where a slot of a frame begins. Fails where that is over the greatest u64: no memory has that many slots.
pub fn offset_of(slot: u64) -> Result<u64, AllocError>
    ensures { IfOk result (λ n. n ≡ 4 * slot) }
{
    match slot.checked_mul(4) {
        Some(offset) => Ok(offset),
        None => Err(AllocError),
    }
}

/// Appends what loads a register from the slot of a frame.
pub fn put_load(lines: &mut Vec<Line>, to: Register, slot: u64) -> Result<(), AllocError>
    ensures { OnOk result (lines.new.items ≡ lines.old.items ++ load_code to slot) }
{
    let offset = offset_of(slot)?;
    let (pointer, low) = (Register::STACK_POINTER, lower(offset));
    if is_short(offset) {
        put(lines, Instr::Lw(to, pointer, low))
    } else {
        put_far(lines, pointer, offset, Instr::Lw(to, ADDRESS, low))
    }
}

/// Appends what saves a register to the slot of a frame.
pub fn put_save(lines: &mut Vec<Line>, from: Register, slot: u64) -> Result<(), AllocError>
    ensures { OnOk result (lines.new.items ≡ lines.old.items ++ save_code from slot) }
{
    let offset = offset_of(slot)?;
    let (pointer, low) = (Register::STACK_POINTER, lower(offset));
    if is_short(offset) {
        put(lines, Instr::Sw(pointer, from, low))
    } else {
        put_far(lines, pointer, offset, Instr::Sw(ADDRESS, from, low))
    }
}

/// The load of a byte or a word into a register.
fn read(to: Register, width: Width, from: Register, distance: u64) -> Instr
    ensures { Plain result ≡ read_line to (bytes_of width) from distance }
{
    match width {
        Width::Byte => Instr::Lbu(to, from, lower(distance)),
        Width::Word => Instr::Lw(to, from, lower(distance)),
    }
}

/// Appends what loads a byte or a word, this number of bytes above an address in a register, into another one.
pub fn put_read(
    lines: &mut Vec<Line>,
    to: Register,
    width: Width,
    from: Register,
    distance: u64,
) -> Result<(), AllocError>
    ensures { OnOk result (lines.new.items ≡ lines.old.items ++ read_code to (bytes_of width) from distance) }
{
    if is_short(distance) {
        put(lines, read(to, width, from, distance))
    } else {
        put_far(lines, from, distance, read(to, width, ADDRESS, distance))
    }
}

/// The store of a byte or a word of a register.
fn write(value: Register, width: Width, from: Register, distance: u64) -> Instr
    ensures { Plain result ≡ write_line value (bytes_of width) from distance }
{
    match width {
        Width::Byte => Instr::Sb(from, value, lower(distance)),
        Width::Word => Instr::Sw(from, value, lower(distance)),
    }
}

/// Appends what stores a byte or a word of a register, this number of bytes above an address in another one.
pub fn put_write(
    lines: &mut Vec<Line>,
    value: Register,
    width: Width,
    from: Register,
    distance: u64,
) -> Result<(), AllocError>
    ensures { OnOk result (lines.new.items ≡ lines.old.items ++ write_code value (bytes_of width) from distance) }
{
    if is_short(distance) {
        put(lines, write(value, width, from, distance))
    } else {
        put_far(
            lines,
            from,
            distance,
            write(value, width, ADDRESS, distance),
        )
    }
}

/// Appends a call of the environment.
pub fn put_environment(lines: &mut Vec<Line>, number: u32) -> Result<(), AllocError>
    requires { number < 2048 }
    ensures { OnOk result (lines.new.items ≡ lines.old.items ++ environment_code number) }
{
    let number = Signed12::new(number as i32);
    let which = Instr::Addi(Register::ARGUMENT_7, Register::ZERO, number);
    put_two(lines, which, Instr::Ecall)
}
