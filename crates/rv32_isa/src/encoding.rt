//! From instructions to words.
ghost use Rattle.std.specs.Prelude.{◌≡◌, ℕ, ◌<◌, ◌^◌, Some};
ghost use Rattle.rv32_isa.specs.Table.{decoded};
ghost use Rattle.rv32_isa.specs.Words.{RType, IType, SType, BType, UType, JType, FenceType, assembled, layout, Fits};

use crate::immediates::{BranchOffset, JumpOffset, Signed12};
use crate::instruction::Instr;
use crate::operands::{FenceBits, Register, ShiftAmount, Upper20};

/// The one word that `decode` reads as the instruction.
pub fn encode(instr: Instr) -> u32
    ensures word { decoded result ≡ Some instr }
    ensures alone { (w : ℕ) → w < 2 ^ 32 → decoded w ≡ Some instr → w ≡ result }
{
    word_of(instr)
}

/// The R-type word of these registers, over the bits that the instruction fixes.
fn r_word(value: u32, rd: Register, rs1: Register, rs2: Register) -> u32
    requires { value < 2 ^ 31 }
    ensures word { result ≡ assembled (RType value rd rs1 rs2) }
    ensures operands { Fits (RType value rd rs1 rs2) }
{
    value + rd.number() as u32 * 128 + rs1.number() as u32 * 32768 + rs2.number() as u32 * 1048576
}

/// The word of a shift by an immediate, over the bits that the instruction fixes.
fn shift_word(value: u32, rd: Register, rs1: Register, count: ShiftAmount) -> u32
    requires { value < 2 ^ 31 }
    ensures word { result ≡ assembled (RType value rd rs1 count) }
    ensures operands { Fits (RType value rd rs1 count) }
{
    value + rd.number() as u32 * 128 + rs1.number() as u32 * 32768 + count.count() as u32 * 1048576
}

/// The word of a fence, over the bits that the instruction fixes.
fn fence_word(value: u32, rd: Register, rs1: Register, bits: FenceBits) -> u32
    requires { value < 28800 }
    ensures word { result ≡ assembled (FenceType value rd rs1 bits) }
    ensures operands { Fits (FenceType value rd rs1 bits) }
{
    value + rd.number() as u32 * 128 + rs1.number() as u32 * 32768 + bits.bits() * 1048576
}

/// The I-type word of these operands, over the bits that the instruction fixes.
fn i_word(value: u32, rd: Register, rs1: Register, imm: Signed12) -> u32
    requires { value < 28800 }
    ensures word { result ≡ assembled (IType value rd rs1 imm) }
    ensures operands { Fits (IType value rd rs1 imm) }
{
    value + rd.number() as u32 * 128 + rs1.number() as u32 * 32768 + imm.bits() * 1048576
}

/// The S-type word of these operands, over the bits that the instruction fixes.
fn s_word(value: u32, rs1: Register, rs2: Register, imm: Signed12) -> u32
    requires { value < 28800 }
    ensures word { result ≡ assembled (SType value rs1 rs2 imm) }
    ensures operands { Fits (SType value rs1 rs2 imm) }
{
    let bits = imm.bits();
    value
        + bits % 32 * 128
        + rs1.number() as u32 * 32768
        + rs2.number() as u32 * 1048576
        + bits / 32 * 33554432
}

/// The B-type word of these operands, over the bits that the instruction fixes.
fn b_word(value: u32, rs1: Register, rs2: Register, offset: BranchOffset) -> u32
    requires { value < 28800 }
    ensures word { result ≡ assembled (BType value rs1 rs2 offset) }
    ensures operands { Fits (BType value rs1 rs2 offset) }
{
    let bits = offset.bits();
    let low = bits / 2048 % 2 * 128 + bits / 2 % 16 * 256;
    let high = bits / 32 % 64 * 33554432 + bits / 4096 * 2147483648;
    value + low + rs1.number() as u32 * 32768 + rs2.number() as u32 * 1048576 + high
}

/// The U-type word of these operands, over the bits that the instruction fixes.
fn u_word(value: u32, rd: Register, imm: Upper20) -> u32
    requires { value < 128 }
    ensures word { result ≡ assembled (UType value rd imm) }
    ensures operands { Fits (UType value rd imm) }
{
    value + rd.number() as u32 * 128 + imm.bits() * 4096
}

/// The J-type word of these operands, over the bits that the instruction fixes.
fn j_word(value: u32, rd: Register, offset: JumpOffset) -> u32
    requires { value < 128 }
    ensures word { result ≡ assembled (JType value rd offset) }
    ensures operands { Fits (JType value rd offset) }
{
    let bits = offset.bits();
    let low = bits / 4096 % 256 * 4096 + bits / 2048 % 2 * 1048576;
    let high = bits / 2 % 1024 * 2097152 + bits / 1048576 * 2147483648;
    value + rd.number() as u32 * 128 + low + high
}

/// The word of an instruction: its fixed bits, and its operands in their fields.
fn word_of(instr: Instr) -> u32
    ensures word { result ≡ assembled (layout instr) }
    ensures operands { Fits (layout instr) }
{
    match instr {
        Instr::Lui(rd, imm) => u_word(0x0000_0037, rd, imm),
        Instr::Auipc(rd, imm) => u_word(0x0000_0017, rd, imm),
        Instr::Jal(rd, offset) => j_word(0x0000_006f, rd, offset),
        Instr::Jalr(rd, rs1, imm) => i_word(0x0000_0067, rd, rs1, imm),
        Instr::Beq(rs1, rs2, offset) => b_word(0x0000_0063, rs1, rs2, offset),
        Instr::Bne(rs1, rs2, offset) => b_word(0x0000_1063, rs1, rs2, offset),
        Instr::Blt(rs1, rs2, offset) => b_word(0x0000_4063, rs1, rs2, offset),
        Instr::Bge(rs1, rs2, offset) => b_word(0x0000_5063, rs1, rs2, offset),
        Instr::Bltu(rs1, rs2, offset) => b_word(0x0000_6063, rs1, rs2, offset),
        Instr::Bgeu(rs1, rs2, offset) => b_word(0x0000_7063, rs1, rs2, offset),
        Instr::Lb(rd, rs1, imm) => i_word(0x0000_0003, rd, rs1, imm),
        Instr::Lh(rd, rs1, imm) => i_word(0x0000_1003, rd, rs1, imm),
        Instr::Lw(rd, rs1, imm) => i_word(0x0000_2003, rd, rs1, imm),
        Instr::Lbu(rd, rs1, imm) => i_word(0x0000_4003, rd, rs1, imm),
        Instr::Lhu(rd, rs1, imm) => i_word(0x0000_5003, rd, rs1, imm),
        Instr::Sb(rs1, rs2, imm) => s_word(0x0000_0023, rs1, rs2, imm),
        Instr::Sh(rs1, rs2, imm) => s_word(0x0000_1023, rs1, rs2, imm),
        Instr::Sw(rs1, rs2, imm) => s_word(0x0000_2023, rs1, rs2, imm),
        Instr::Addi(rd, rs1, imm) => i_word(0x0000_0013, rd, rs1, imm),
        Instr::Slti(rd, rs1, imm) => i_word(0x0000_2013, rd, rs1, imm),
        Instr::Sltiu(rd, rs1, imm) => i_word(0x0000_3013, rd, rs1, imm),
        Instr::Xori(rd, rs1, imm) => i_word(0x0000_4013, rd, rs1, imm),
        Instr::Ori(rd, rs1, imm) => i_word(0x0000_6013, rd, rs1, imm),
        Instr::Andi(rd, rs1, imm) => i_word(0x0000_7013, rd, rs1, imm),
        Instr::Slli(rd, rs1, count) => shift_word(0x0000_1013, rd, rs1, count),
        Instr::Srli(rd, rs1, count) => shift_word(0x0000_5013, rd, rs1, count),
        Instr::Srai(rd, rs1, count) => shift_word(0x4000_5013, rd, rs1, count),
        Instr::Add(rd, rs1, rs2) => r_word(0x0000_0033, rd, rs1, rs2),
        Instr::Sub(rd, rs1, rs2) => r_word(0x4000_0033, rd, rs1, rs2),
        Instr::Sll(rd, rs1, rs2) => r_word(0x0000_1033, rd, rs1, rs2),
        Instr::Slt(rd, rs1, rs2) => r_word(0x0000_2033, rd, rs1, rs2),
        Instr::Sltu(rd, rs1, rs2) => r_word(0x0000_3033, rd, rs1, rs2),
        Instr::Xor(rd, rs1, rs2) => r_word(0x0000_4033, rd, rs1, rs2),
        Instr::Srl(rd, rs1, rs2) => r_word(0x0000_5033, rd, rs1, rs2),
        Instr::Sra(rd, rs1, rs2) => r_word(0x4000_5033, rd, rs1, rs2),
        Instr::Or(rd, rs1, rs2) => r_word(0x0000_6033, rd, rs1, rs2),
        Instr::And(rd, rs1, rs2) => r_word(0x0000_7033, rd, rs1, rs2),
        Instr::Fence(rd, rs1, bits) => fence_word(0x0000_000f, rd, rs1, bits),
        Instr::Ecall => 0x0000_0073,
        Instr::Ebreak => 0x0010_0073,
        Instr::Mul(rd, rs1, rs2) => r_word(0x0200_0033, rd, rs1, rs2),
        Instr::Mulh(rd, rs1, rs2) => r_word(0x0200_1033, rd, rs1, rs2),
        Instr::Mulhsu(rd, rs1, rs2) => r_word(0x0200_2033, rd, rs1, rs2),
        Instr::Mulhu(rd, rs1, rs2) => r_word(0x0200_3033, rd, rs1, rs2),
        Instr::Div(rd, rs1, rs2) => r_word(0x0200_4033, rd, rs1, rs2),
        Instr::Divu(rd, rs1, rs2) => r_word(0x0200_5033, rd, rs1, rs2),
        Instr::Rem(rd, rs1, rs2) => r_word(0x0200_6033, rd, rs1, rs2),
        Instr::Remu(rd, rs1, rs2) => r_word(0x0200_7033, rd, rs1, rs2),
    }
}
