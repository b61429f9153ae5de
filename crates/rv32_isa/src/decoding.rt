//! From words to instructions.
ghost use Rattle.std.specs.Prelude.{◌≡◌, ℕ, ◌/◌, ◌<◌, ◌%◌, ◌^◌, bit_and, IsTrue, nat_lt};
ghost use Rattle.rv32_isa.specs.Numbers.{bits};
ghost use Rattle.rv32_isa.specs.Table.{rd, rs1, rs2, i_immediate, s_immediate, b_immediate, j_immediate, decoded, rows, IsApart};

use crate::immediates::{BranchOffset, JumpOffset, Signed12};
use crate::instruction::Instr;
use crate::operands::{FenceBits, Register, ShiftAmount, Upper20};

/// The opcode of a word: its bits 6 to 0.
fn opcode(word: u32) -> u32
    ensures { result ≡ bits word 6 0 }
{
    word & 0x7f
}

/// The field funct3 of a word: its bits 14 to 12.
fn funct3(word: u32) -> u32
    ensures { result ≡ bits word 14 12 }
{
    word >> 12 & 7
}

/// The field funct7 of a word: its bits 31 to 25.
fn funct7(word: u32) -> u32
    ensures { result ≡ bits word 31 25 }
{
    word >> 25
}

/// The register rd of a word: its bits 11 to 7.
fn rd(word: u32) -> Register
    ensures { result ≡ rd word }
{
    Register::new((word >> 7 & 31) as u8)
}

/// The register rs1 of a word: its bits 19 to 15.
fn rs1(word: u32) -> Register
    ensures { result ≡ rs1 word }
{
    Register::new((word >> 15 & 31) as u8)
}

/// The register rs2 of a word: its bits 24 to 20.
fn rs2(word: u32) -> Register
    ensures { result ≡ rs2 word }
{
    Register::new((word >> 20 & 31) as u8)
}

/// The shift amount of a word: its bits 24 to 20.
fn shift_amount(word: u32) -> ShiftAmount
    ensures { result ≡ bits word 24 20 }
{
    ShiftAmount::new((word >> 20 & 31) as u8)
}

/// The immediate of a U-type word: its bits 31 to 12.
fn upper(word: u32) -> Upper20
    ensures { result ≡ bits word 31 12 }
{
    Upper20::new(word >> 12)
}

/// The bits of a fence: its word's bits 31 to 20.
fn fence_bits(word: u32) -> FenceBits
    ensures { result ≡ bits word 31 20 }
{
    FenceBits::new(word >> 20)
}

/// The immediate of an I-type word.
fn i_immediate(word: u32) -> Signed12
    ensures { result ≡ i_immediate word }
{
    Signed12::from_bits(word >> 20)
}

/// The immediate of an S-type word.
fn s_immediate(word: u32) -> Signed12
    ensures { result ≡ s_immediate word }
{
    Signed12::from_bits((word >> 25 << 5) | (word >> 7 & 31))
}

/// The offset of a B-type word.
fn b_immediate(word: u32) -> BranchOffset
    ensures { result ≡ b_immediate word }
{
    BranchOffset::from_bits(
        (word >> 31) * 4096
            + (word >> 7 & 1) * 2048
            + (word >> 25 & 63) * 32
            + (word >> 8 & 15) * 2,
    )
}

/// The offset of a J-type word.
fn j_immediate(word: u32) -> JumpOffset
    ensures { result ≡ j_immediate word }
{
    JumpOffset::from_bits(
        (word >> 31) * 1048576
            + (word >> 12 & 255) * 4096
            + (word >> 20 & 1) * 2048
            + (word >> 21 & 1023) * 2,
    )
}

/// The instruction that a word is, or `None` where it matches no row of the table.
#[tactic(auto, using(crate::proofs::Fields::lui_rows, crate::proofs::Fields::auipc_rows, crate::proofs::Fields::jump_rows, crate::proofs::Fields::jump_register_rows, crate::proofs::Fields::fence_rows, crate::proofs::Fields::other_rows))]
pub fn decode(word: u32) -> Option<Instr>
    ensures { result ≡ decoded word }
{
    match opcode(word) {
        0x37 => Some(Instr::Lui(rd(word), upper(word))),
        0x17 => Some(Instr::Auipc(rd(word), upper(word))),
        0x6f => Some(Instr::Jal(rd(word), j_immediate(word))),
        0x67 if funct3(word) == 0 => Some(Instr::Jalr(rd(word), rs1(word), i_immediate(word))),
        0x63 => decode_branch(word),
        0x03 => decode_load(word),
        0x23 => decode_store(word),
        0x13 => decode_immediate(word),
        0x33 => decode_register(word),
        0x0f if funct3(word) == 0 => Some(Instr::Fence(rd(word), rs1(word), fence_bits(word))),
        0x73 => decode_system(word),
        _ => None,
    }
}

/// The law that no word matches two rows of the table, so that the order of its rows is free.
pub fn rows_are_apart()
    ensures { IsApart rows }
{}

/// The instruction of a word with the opcode of branches, if there is one.
#[tactic(auto, using(crate::proofs::Fields::branch_rows))]
fn decode_branch(word: u32) -> Option<Instr>
    requires { bits word 6 0 ≡ 0x63 }
    ensures { result ≡ decoded word }
{
    let rs1 = rs1(word);
    let rs2 = rs2(word);
    let offset = b_immediate(word);
    match funct3(word) {
        0 => Some(Instr::Beq(rs1, rs2, offset)),
        1 => Some(Instr::Bne(rs1, rs2, offset)),
        4 => Some(Instr::Blt(rs1, rs2, offset)),
        5 => Some(Instr::Bge(rs1, rs2, offset)),
        6 => Some(Instr::Bltu(rs1, rs2, offset)),
        7 => Some(Instr::Bgeu(rs1, rs2, offset)),
        _ => None,
    }
}

/// The instruction of a word with the opcode of loads, if there is one.
#[tactic(auto, using(crate::proofs::Fields::load_rows))]
fn decode_load(word: u32) -> Option<Instr>
    requires { bits word 6 0 ≡ 0x03 }
    ensures { result ≡ decoded word }
{
    let rd = rd(word);
    let rs1 = rs1(word);
    let imm = i_immediate(word);
    match funct3(word) {
        0 => Some(Instr::Lb(rd, rs1, imm)),
        1 => Some(Instr::Lh(rd, rs1, imm)),
        2 => Some(Instr::Lw(rd, rs1, imm)),
        4 => Some(Instr::Lbu(rd, rs1, imm)),
        5 => Some(Instr::Lhu(rd, rs1, imm)),
        _ => None,
    }
}

/// The instruction of a word with the opcode of stores, if there is one.
#[tactic(auto, using(crate::proofs::Fields::store_rows))]
fn decode_store(word: u32) -> Option<Instr>
    requires { bits word 6 0 ≡ 0x23 }
    ensures { result ≡ decoded word }
{
    let rs1 = rs1(word);
    let rs2 = rs2(word);
    let imm = s_immediate(word);
    match funct3(word) {
        0 => Some(Instr::Sb(rs1, rs2, imm)),
        1 => Some(Instr::Sh(rs1, rs2, imm)),
        2 => Some(Instr::Sw(rs1, rs2, imm)),
        _ => None,
    }
}

/// The instruction of a word with the opcode of operations with an immediate, if there is one.
#[tactic(auto, using(crate::proofs::Fields::immediate_rows))]
fn decode_immediate(word: u32) -> Option<Instr>
    requires { bits word 6 0 ≡ 0x13 }
    ensures { result ≡ decoded word }
{
    let rd = rd(word);
    let rs1 = rs1(word);
    let imm = i_immediate(word);
    match funct3(word) {
        0 => Some(Instr::Addi(rd, rs1, imm)),
        1 if funct7(word) == 0 => Some(Instr::Slli(rd, rs1, shift_amount(word))),
        2 => Some(Instr::Slti(rd, rs1, imm)),
        3 => Some(Instr::Sltiu(rd, rs1, imm)),
        4 => Some(Instr::Xori(rd, rs1, imm)),
        5 => decode_shift_right(word),
        6 => Some(Instr::Ori(rd, rs1, imm)),
        7 => Some(Instr::Andi(rd, rs1, imm)),
        _ => None,
    }
}

/// The right shift by an immediate that a word is, if funct7 names one.
#[tactic(auto, using(crate::proofs::Fields::shift_right_rows))]
fn decode_shift_right(word: u32) -> Option<Instr>
    requires opcode { bits word 6 0 ≡ 0x13 }
    requires funct3 { bits word 14 12 ≡ 5 }
    ensures { result ≡ decoded word }
{
    let rd = rd(word);
    let rs1 = rs1(word);
    let count = shift_amount(word);
    match funct7(word) {
        0 => Some(Instr::Srli(rd, rs1, count)),
        32 => Some(Instr::Srai(rd, rs1, count)),
        _ => None,
    }
}

/// The instruction of a word with the opcode of operations on registers, if there is one.
#[tactic(auto, using(crate::proofs::Fields::register_none_rows))]
fn decode_register(word: u32) -> Option<Instr>
    requires { bits word 6 0 ≡ 0x33 }
    ensures { result ≡ decoded word }
{
    match funct7(word) {
        0 => decode_register_base(word),
        1 => decode_register_multiply(word),
        32 => decode_register_other(word),
        _ => None,
    }
}

/// The operation on registers that a word is, where funct7 is 0.
#[tactic(auto, using(crate::proofs::Fields::register_base_rows))]
fn decode_register_base(word: u32) -> Option<Instr>
    requires opcode { bits word 6 0 ≡ 0x33 }
    requires funct7 { bits word 31 25 ≡ 0 }
    ensures { result ≡ decoded word }
{
    let rd = rd(word);
    let rs1 = rs1(word);
    let rs2 = rs2(word);
    match funct3(word) {
        0 => Some(Instr::Add(rd, rs1, rs2)),
        1 => Some(Instr::Sll(rd, rs1, rs2)),
        2 => Some(Instr::Slt(rd, rs1, rs2)),
        3 => Some(Instr::Sltu(rd, rs1, rs2)),
        4 => Some(Instr::Xor(rd, rs1, rs2)),
        5 => Some(Instr::Srl(rd, rs1, rs2)),
        6 => Some(Instr::Or(rd, rs1, rs2)),
        7 => Some(Instr::And(rd, rs1, rs2)),
        _ => None,
    }
}

/// The operation on registers that a word is, where funct7 is 32: `sub` or `sra`.
#[tactic(auto, using(crate::proofs::Fields::register_other_rows))]
fn decode_register_other(word: u32) -> Option<Instr>
    requires opcode { bits word 6 0 ≡ 0x33 }
    requires funct7 { bits word 31 25 ≡ 32 }
    ensures { result ≡ decoded word }
{
    let rd = rd(word);
    let rs1 = rs1(word);
    let rs2 = rs2(word);
    match funct3(word) {
        0 => Some(Instr::Sub(rd, rs1, rs2)),
        5 => Some(Instr::Sra(rd, rs1, rs2)),
        _ => None,
    }
}

/// The operation of the extension M that a word is, where funct7 is 1.
#[tactic(auto, using(crate::proofs::Fields::register_multiply_rows))]
fn decode_register_multiply(word: u32) -> Option<Instr>
    requires opcode { bits word 6 0 ≡ 0x33 }
    requires funct7 { bits word 31 25 ≡ 1 }
    ensures { result ≡ decoded word }
{
    let rd = rd(word);
    let rs1 = rs1(word);
    let rs2 = rs2(word);
    match funct3(word) {
        0 => Some(Instr::Mul(rd, rs1, rs2)),
        1 => Some(Instr::Mulh(rd, rs1, rs2)),
        2 => Some(Instr::Mulhsu(rd, rs1, rs2)),
        3 => Some(Instr::Mulhu(rd, rs1, rs2)),
        4 => Some(Instr::Div(rd, rs1, rs2)),
        5 => Some(Instr::Divu(rd, rs1, rs2)),
        6 => Some(Instr::Rem(rd, rs1, rs2)),
        7 => Some(Instr::Remu(rd, rs1, rs2)),
        _ => None,
    }
}

/// The instruction of a word with the opcode of the system: `ecall` or `ebreak`.
#[tactic(auto, using(crate::proofs::Fields::system_rows))]
fn decode_system(word: u32) -> Option<Instr>
    requires { bits word 6 0 ≡ 0x73 }
    ensures { result ≡ decoded word }
{
    match word {
        0x0000_0073 => Some(Instr::Ecall),
        0x0010_0073 => Some(Instr::Ebreak),
        _ => None,
    }
}
