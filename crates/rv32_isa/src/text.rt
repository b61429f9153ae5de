//! The text of instructions, as an assembler reads them.
ghost use Rattle.std.specs.Prelude.{◌≡◌, Some};
ghost use Rattle.std.specs.Fmt.{DisplaysOnOk};
ghost use Rattle.rv32_isa.specs.Text.{register_text, registers_text, number_text, signed_text, memory_text, upper_text, jump_text, parts_text, operands_in};
ghost use Rattle.rv32_isa.specs.Text.{instr_text};
ghost use Rattle.rv32_isa.specs.Words.{layout};

use crate::immediates::{BranchOffset, JumpOffset, Signed12};
use crate::instruction::Instr;
use crate::operands::{FenceBits, Register, ShiftAmount, Upper20};
use std::fmt;

impl fmt::Display for Register {
    ghost output = { λ r. Some (register_text r) };

    fn fmt<W: fmt::Write>(&self, f: &mut fmt::Formatter<W>) -> fmt::Result {
        let number = self.number();
        write!(f, "x{number}")
    }
}

/// Writes a name and three registers.
fn write_registers<W: fmt::Write>(
    f: &mut fmt::Formatter<W>,
    name: &str,
    a: Register,
    b: Register,
    c: Register,
) -> fmt::Result
    ensures { DisplaysOnOk W.write_str_gives f.old result (Some (registers_text name.now a b c)) f.new }
{
    write!(f, "{name} {a}, {b}, {c}")
}

/// Writes a name, two registers and an unsigned number.
fn write_number<W: fmt::Write>(
    f: &mut fmt::Formatter<W>,
    name: &str,
    a: Register,
    b: Register,
    number: u32,
) -> fmt::Result
    ensures { DisplaysOnOk W.write_str_gives f.old result (Some (number_text name.now a b number)) f.new }
{
    write!(f, "{name} {a}, {b}, {number}")
}

/// Writes a name, two registers and a signed number.
fn write_signed<W: fmt::Write>(
    f: &mut fmt::Formatter<W>,
    name: &str,
    a: Register,
    b: Register,
    number: i32,
) -> fmt::Result
    ensures { DisplaysOnOk W.write_str_gives f.old result (Some (signed_text name.now a b number)) f.new }
{
    write!(f, "{name} {a}, {b}, {number}")
}

/// Writes a name, a register, and an address by its offset and base.
fn write_memory<W: fmt::Write>(
    f: &mut fmt::Formatter<W>,
    name: &str,
    a: Register,
    offset: i32,
    base: Register,
) -> fmt::Result
    ensures { DisplaysOnOk W.write_str_gives f.old result (Some (memory_text name.now a offset base)) f.new }
{
    write!(f, "{name} {a}, {offset}({base})")
}

/// Writes a name, a register and the bits of an upper immediate.
fn write_upper<W: fmt::Write>(
    f: &mut fmt::Formatter<W>,
    name: &str,
    a: Register,
    bits: u32,
) -> fmt::Result
    ensures { DisplaysOnOk W.write_str_gives f.old result (Some (upper_text name.now a bits)) f.new }
{
    write!(f, "{name} {a}, {bits}")
}

/// Writes a name, a register and the offset of a jump.
fn write_jump<W: fmt::Write>(
    f: &mut fmt::Formatter<W>,
    name: &str,
    a: Register,
    offset: i32,
) -> fmt::Result
    ensures { DisplaysOnOk W.write_str_gives f.old result (Some (jump_text name.now a offset)) f.new }
{
    write!(f, "{name} {a}, {offset}")
}

// What stands behind the name in the text of an instruction.
enum Operands {
    Upper(Register, Upper20),
    Jump(Register, JumpOffset),
    Address(Register, Signed12, Register),
    Branch(Register, Register, BranchOffset),
    Immediate(Register, Register, Signed12),
    Shift(Register, Register, ShiftAmount),
    Bits(Register, Register, FenceBits),
    Registers(Register, Register, Register),
    Nothing,
}

/// The name of an instruction.
fn name_of(instr: Instr) -> &'static str
    ensures { parts_text result.now (operands_in (layout instr)) ≡ instr_text instr }
{
    match instr {
        Instr::Lui(..) => "lui",
        Instr::Auipc(..) => "auipc",
        Instr::Jal(..) => "jal",
        Instr::Jalr(..) => "jalr",
        Instr::Beq(..) => "beq",
        Instr::Bne(..) => "bne",
        Instr::Blt(..) => "blt",
        Instr::Bge(..) => "bge",
        Instr::Bltu(..) => "bltu",
        Instr::Bgeu(..) => "bgeu",
        Instr::Lb(..) => "lb",
        Instr::Lh(..) => "lh",
        Instr::Lw(..) => "lw",
        Instr::Lbu(..) => "lbu",
        Instr::Lhu(..) => "lhu",
        Instr::Sb(..) => "sb",
        Instr::Sh(..) => "sh",
        Instr::Sw(..) => "sw",
        Instr::Addi(..) => "addi",
        Instr::Slti(..) => "slti",
        Instr::Sltiu(..) => "sltiu",
        Instr::Xori(..) => "xori",
        Instr::Ori(..) => "ori",
        Instr::Andi(..) => "andi",
        Instr::Slli(..) => "slli",
        Instr::Srli(..) => "srli",
        Instr::Srai(..) => "srai",
        Instr::Add(..) => "add",
        Instr::Sub(..) => "sub",
        Instr::Sll(..) => "sll",
        Instr::Slt(..) => "slt",
        Instr::Sltu(..) => "sltu",
        Instr::Xor(..) => "xor",
        Instr::Srl(..) => "srl",
        Instr::Sra(..) => "sra",
        Instr::Or(..) => "or",
        Instr::And(..) => "and",
        Instr::Fence(..) => "fence",
        Instr::Ecall => "ecall",
        Instr::Ebreak => "ebreak",
        Instr::Mul(..) => "mul",
        Instr::Mulh(..) => "mulh",
        Instr::Mulhsu(..) => "mulhsu",
        Instr::Mulhu(..) => "mulhu",
        Instr::Div(..) => "div",
        Instr::Divu(..) => "divu",
        Instr::Rem(..) => "rem",
        Instr::Remu(..) => "remu",
    }
}

/// What stands behind the name of an instruction.
fn operands_of(instr: Instr) -> Operands
    ensures { result ≡ operands_in (layout instr) }
{
    match instr {
        Instr::Lui(rd, imm) => Operands::Upper(rd, imm),
        Instr::Auipc(rd, imm) => Operands::Upper(rd, imm),
        Instr::Jal(rd, offset) => Operands::Jump(rd, offset),
        Instr::Jalr(rd, rs1, imm) => Operands::Address(rd, imm, rs1),
        Instr::Beq(rs1, rs2, offset) => Operands::Branch(rs1, rs2, offset),
        Instr::Bne(rs1, rs2, offset) => Operands::Branch(rs1, rs2, offset),
        Instr::Blt(rs1, rs2, offset) => Operands::Branch(rs1, rs2, offset),
        Instr::Bge(rs1, rs2, offset) => Operands::Branch(rs1, rs2, offset),
        Instr::Bltu(rs1, rs2, offset) => Operands::Branch(rs1, rs2, offset),
        Instr::Bgeu(rs1, rs2, offset) => Operands::Branch(rs1, rs2, offset),
        Instr::Lb(rd, rs1, imm) => Operands::Address(rd, imm, rs1),
        Instr::Lh(rd, rs1, imm) => Operands::Address(rd, imm, rs1),
        Instr::Lw(rd, rs1, imm) => Operands::Address(rd, imm, rs1),
        Instr::Lbu(rd, rs1, imm) => Operands::Address(rd, imm, rs1),
        Instr::Lhu(rd, rs1, imm) => Operands::Address(rd, imm, rs1),
        Instr::Sb(rs1, rs2, imm) => Operands::Address(rs2, imm, rs1),
        Instr::Sh(rs1, rs2, imm) => Operands::Address(rs2, imm, rs1),
        Instr::Sw(rs1, rs2, imm) => Operands::Address(rs2, imm, rs1),
        Instr::Addi(rd, rs1, imm) => Operands::Immediate(rd, rs1, imm),
        Instr::Slti(rd, rs1, imm) => Operands::Immediate(rd, rs1, imm),
        Instr::Sltiu(rd, rs1, imm) => Operands::Immediate(rd, rs1, imm),
        Instr::Xori(rd, rs1, imm) => Operands::Immediate(rd, rs1, imm),
        Instr::Ori(rd, rs1, imm) => Operands::Immediate(rd, rs1, imm),
        Instr::Andi(rd, rs1, imm) => Operands::Immediate(rd, rs1, imm),
        Instr::Slli(rd, rs1, count) => Operands::Shift(rd, rs1, count),
        Instr::Srli(rd, rs1, count) => Operands::Shift(rd, rs1, count),
        Instr::Srai(rd, rs1, count) => Operands::Shift(rd, rs1, count),
        Instr::Add(rd, rs1, rs2) => Operands::Registers(rd, rs1, rs2),
        Instr::Sub(rd, rs1, rs2) => Operands::Registers(rd, rs1, rs2),
        Instr::Sll(rd, rs1, rs2) => Operands::Registers(rd, rs1, rs2),
        Instr::Slt(rd, rs1, rs2) => Operands::Registers(rd, rs1, rs2),
        Instr::Sltu(rd, rs1, rs2) => Operands::Registers(rd, rs1, rs2),
        Instr::Xor(rd, rs1, rs2) => Operands::Registers(rd, rs1, rs2),
        Instr::Srl(rd, rs1, rs2) => Operands::Registers(rd, rs1, rs2),
        Instr::Sra(rd, rs1, rs2) => Operands::Registers(rd, rs1, rs2),
        Instr::Or(rd, rs1, rs2) => Operands::Registers(rd, rs1, rs2),
        Instr::And(rd, rs1, rs2) => Operands::Registers(rd, rs1, rs2),
        Instr::Fence(rd, rs1, bits) => Operands::Bits(rd, rs1, bits),
        Instr::Ecall => Operands::Nothing,
        Instr::Ebreak => Operands::Nothing,
        Instr::Mul(rd, rs1, rs2) => Operands::Registers(rd, rs1, rs2),
        Instr::Mulh(rd, rs1, rs2) => Operands::Registers(rd, rs1, rs2),
        Instr::Mulhsu(rd, rs1, rs2) => Operands::Registers(rd, rs1, rs2),
        Instr::Mulhu(rd, rs1, rs2) => Operands::Registers(rd, rs1, rs2),
        Instr::Div(rd, rs1, rs2) => Operands::Registers(rd, rs1, rs2),
        Instr::Divu(rd, rs1, rs2) => Operands::Registers(rd, rs1, rs2),
        Instr::Rem(rd, rs1, rs2) => Operands::Registers(rd, rs1, rs2),
        Instr::Remu(rd, rs1, rs2) => Operands::Registers(rd, rs1, rs2),
    }
}

impl fmt::Display for Instr {
    ghost output = { λ i. Some (instr_text i) };

    fn fmt<W: fmt::Write>(&self, f: &mut fmt::Formatter<W>) -> fmt::Result {
        write_parts(f, name_of(*self), operands_of(*self))
    }
}

/// Writes a name and its operands.
fn write_parts<W: fmt::Write>(
    f: &mut fmt::Formatter<W>,
    name: &str,
    operands: Operands,
) -> fmt::Result
    ensures { DisplaysOnOk W.write_str_gives f.old result (Some (parts_text name.now operands)) f.new }
{
    match operands {
        Operands::Upper(a, imm) => write_upper(f, name, a, imm.bits()),
        Operands::Jump(a, offset) => write_jump(f, name, a, offset.value()),
        Operands::Address(a, offset, base) => write_memory(f, name, a, offset.value(), base),
        Operands::Branch(a, b, offset) => write_signed(f, name, a, b, offset.value()),
        Operands::Immediate(a, b, imm) => write_signed(f, name, a, b, imm.value()),
        Operands::Shift(a, b, count) => write_number(f, name, a, b, count.count() as u32),
        Operands::Bits(a, b, bits) => write_number(f, name, a, b, bits.bits()),
        Operands::Registers(a, b, c) => write_registers(f, name, a, b, c),
        Operands::Nothing => f.write_str(name),
    }
}
