//! The instructions of RV32I and of its extension M, in the manual's order.

use crate::immediates::{BranchOffset, JumpOffset, Signed12};
use crate::operands::{FenceBits, Register, ShiftAmount, Upper20};

/// An instruction, with its operands in the order that its line names. rd is the register that
/// it writes; rs1 and rs2 are those that it reads. Its text has an address as `imm(rs1)`, and a
/// store's rs2 first.
#[derive(Clone, Copy)]
pub enum Instr {
    /// `lui rd, imm`: the upper 20 bits of rd are imm, the lower 12 are 0.
    Lui(Register, Upper20),
    /// `auipc rd, imm`: the sum of pc and the word whose upper 20 bits are imm.
    Auipc(Register, Upper20),
    /// `jal rd, offset`: to pc + offset; rd is pc + 4.
    Jal(Register, JumpOffset),
    /// `jalr rd, rs1, imm`: to rs1 + imm with bit 0 cleared; rd is pc + 4.
    Jalr(Register, Register, Signed12),
    /// `beq rs1, rs2, offset`: to pc + offset if rs1 = rs2.
    Beq(Register, Register, BranchOffset),
    /// `bne rs1, rs2, offset`: to pc + offset if rs1 is not rs2.
    Bne(Register, Register, BranchOffset),
    /// `blt rs1, rs2, offset`: to pc + offset if rs1 < rs2, signed.
    Blt(Register, Register, BranchOffset),
    /// `bge rs1, rs2, offset`: to pc + offset if rs1 >= rs2, signed.
    Bge(Register, Register, BranchOffset),
    /// `bltu rs1, rs2, offset`: to pc + offset if rs1 < rs2, unsigned.
    Bltu(Register, Register, BranchOffset),
    /// `bgeu rs1, rs2, offset`: to pc + offset if rs1 >= rs2, unsigned.
    Bgeu(Register, Register, BranchOffset),
    /// `lb rd, rs1, imm`: the byte at rs1 + imm, its sign extended.
    Lb(Register, Register, Signed12),
    /// `lh rd, rs1, imm`: the two bytes at rs1 + imm, their sign extended.
    Lh(Register, Register, Signed12),
    /// `lw rd, rs1, imm`: the word at rs1 + imm.
    Lw(Register, Register, Signed12),
    /// `lbu rd, rs1, imm`: the byte at rs1 + imm, zeros above it.
    Lbu(Register, Register, Signed12),
    /// `lhu rd, rs1, imm`: the two bytes at rs1 + imm, zeros above them.
    Lhu(Register, Register, Signed12),
    /// `sb rs1, rs2, imm`: the low byte of rs2 goes to rs1 + imm.
    Sb(Register, Register, Signed12),
    /// `sh rs1, rs2, imm`: the two low bytes of rs2 go to rs1 + imm.
    Sh(Register, Register, Signed12),
    /// `sw rs1, rs2, imm`: rs2 goes to the word at rs1 + imm.
    Sw(Register, Register, Signed12),
    /// `addi rd, rs1, imm`: the sum, modulo 2^32.
    Addi(Register, Register, Signed12),
    /// `slti rd, rs1, imm`: 1 if rs1 < imm, signed, else 0.
    Slti(Register, Register, Signed12),
    /// `sltiu rd, rs1, imm`: 1 if rs1 < the word of imm, unsigned, else 0.
    Sltiu(Register, Register, Signed12),
    /// `xori rd, rs1, imm`: the exclusive or, bit by bit.
    Xori(Register, Register, Signed12),
    /// `ori rd, rs1, imm`: the or, bit by bit.
    Ori(Register, Register, Signed12),
    /// `andi rd, rs1, imm`: the and, bit by bit.
    Andi(Register, Register, Signed12),
    /// `slli rd, rs1, count`: rs1 shifted left, zeros coming in.
    Slli(Register, Register, ShiftAmount),
    /// `srli rd, rs1, count`: rs1 shifted right, zeros coming in.
    Srli(Register, Register, ShiftAmount),
    /// `srai rd, rs1, count`: rs1 shifted right, its sign coming in.
    Srai(Register, Register, ShiftAmount),
    /// `add rd, rs1, rs2`: the sum, modulo 2^32.
    Add(Register, Register, Register),
    /// `sub rd, rs1, rs2`: the difference, modulo 2^32.
    Sub(Register, Register, Register),
    /// `sll rd, rs1, rs2`: rs1 shifted left by the low 5 bits of rs2.
    Sll(Register, Register, Register),
    /// `slt rd, rs1, rs2`: 1 if rs1 < rs2, signed, else 0.
    Slt(Register, Register, Register),
    /// `sltu rd, rs1, rs2`: 1 if rs1 < rs2, unsigned, else 0.
    Sltu(Register, Register, Register),
    /// `xor rd, rs1, rs2`: the exclusive or, bit by bit.
    Xor(Register, Register, Register),
    /// `srl rd, rs1, rs2`: rs1 shifted right by the low 5 bits of rs2, zeros coming in.
    Srl(Register, Register, Register),
    /// `sra rd, rs1, rs2`: rs1 shifted right by the low 5 bits of rs2, its sign coming in.
    Sra(Register, Register, Register),
    /// `or rd, rs1, rs2`: the or, bit by bit.
    Or(Register, Register, Register),
    /// `and rd, rs1, rs2`: the and, bit by bit.
    And(Register, Register, Register),
    /// `fence rd, rs1, bits`: orders memory accesses; its operands are kept and ignored.
    Fence(Register, Register, FenceBits),
    /// `ecall`: a request to the environment.
    Ecall,
    /// `ebreak`: a call of the debugger.
    Ebreak,
    /// `mul rd, rs1, rs2`: the product, modulo 2^32.
    Mul(Register, Register, Register),
    /// `mulh rd, rs1, rs2`: the upper 32 bits of the product, both signed.
    Mulh(Register, Register, Register),
    /// `mulhsu rd, rs1, rs2`: the upper 32 bits of the product, rs1 signed, rs2 unsigned.
    Mulhsu(Register, Register, Register),
    /// `mulhu rd, rs1, rs2`: the upper 32 bits of the product, both unsigned.
    Mulhu(Register, Register, Register),
    /// `div rd, rs1, rs2`: the quotient, signed, rounded towards 0; -1 for a divisor 0.
    Div(Register, Register, Register),
    /// `divu rd, rs1, rs2`: the quotient, unsigned; 2^32 - 1 for a divisor 0.
    Divu(Register, Register, Register),
    /// `rem rd, rs1, rs2`: the remainder of `div`, with the sign of rs1; rs1 for a divisor 0.
    Rem(Register, Register, Register),
    /// `remu rd, rs1, rs2`: the remainder of `divu`; rs1 for a divisor 0.
    Remu(Register, Register, Register),
}
