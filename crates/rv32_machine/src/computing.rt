// The values that instructions give registers.

ghost use Rattle.std.specs.Prelude.{◌≡◌, true};
ghost use Rattle.cyc_words.specs.Words.{word};
ghost use Rattle.rv32_machine.specs.Making.{Makes, is_arithmetic, is_making, is_product};
ghost use Rattle.rv32_machine.specs.Arrays.{arrays, state_of};

use crate::machine::Machine;
use cyc_arena::BlockStore;
use cyc_words::{
    add32, div32, divu32, lt32, ltu32, mul32, mulh32, mulhsu32, mulhu32, rem32, remu32, sar32,
    shl32, shr32, sub32,
};
use rv32_isa::{Instr, Register, Signed12};

impl<S: BlockStore> Machine<S> {
    /// The register and the value of an instruction that does no more than give it.
    pub(crate) fn computed(&self, instr: Instr) -> (Register, u32)
        ensures { is_making instr ≡ true → Makes instr (state_of (arrays S.holdings S.byte_at self.now)) result.0 result.1 }
    {
        match instr {
            Instr::Lui(rd, upper) => (rd, upper.bits() << 12),
            Instr::Auipc(rd, upper) => (rd, add32(self.pc, upper.bits() << 12)),
            Instr::Addi(rd, a, immediate) => (rd, add32(self.register(a), word_of(immediate))),
            Instr::Slti(rd, a, immediate) => {
                (rd, u32::from(lt32(self.register(a), word_of(immediate))))
            }
            Instr::Sltiu(rd, a, immediate) => {
                (rd, u32::from(ltu32(self.register(a), word_of(immediate))))
            }
            Instr::Xori(rd, a, immediate) => (rd, self.register(a) ^ word_of(immediate)),
            Instr::Ori(rd, a, immediate) => (rd, self.register(a) | word_of(immediate)),
            Instr::Andi(rd, a, immediate) => (rd, self.register(a) & word_of(immediate)),
            Instr::Slli(rd, a, count) => (rd, shl32(self.register(a), u32::from(count.count()))),
            Instr::Srli(rd, a, count) => (rd, shr32(self.register(a), u32::from(count.count()))),
            Instr::Srai(rd, a, count) => (rd, sar32(self.register(a), u32::from(count.count()))),
            _ => self.of_registers(instr),
        }
    }

    /// The same of an instruction on two registers.
    fn of_registers(&self, instr: Instr) -> (Register, u32)
        ensures { is_arithmetic instr ≡ true → Makes instr (state_of (arrays S.holdings S.byte_at self.now)) result.0 result.1 }
    {
        match instr {
            Instr::Add(rd, a, b) => (rd, add32(self.register(a), self.register(b))),
            Instr::Sub(rd, a, b) => (rd, sub32(self.register(a), self.register(b))),
            Instr::Sll(rd, a, b) => (rd, shl32(self.register(a), self.register(b))),
            Instr::Slt(rd, a, b) => (rd, u32::from(lt32(self.register(a), self.register(b)))),
            Instr::Sltu(rd, a, b) => (rd, u32::from(ltu32(self.register(a), self.register(b)))),
            Instr::Xor(rd, a, b) => (rd, self.register(a) ^ self.register(b)),
            Instr::Srl(rd, a, b) => (rd, shr32(self.register(a), self.register(b))),
            Instr::Sra(rd, a, b) => (rd, sar32(self.register(a), self.register(b))),
            Instr::Or(rd, a, b) => (rd, self.register(a) | self.register(b)),
            Instr::And(rd, a, b) => (rd, self.register(a) & self.register(b)),
            _ => self.product(instr),
        }
    }

    /// The same of a multiplication or a division.
    fn product(&self, instr: Instr) -> (Register, u32)
        ensures { is_product instr ≡ true → Makes instr (state_of (arrays S.holdings S.byte_at self.now)) result.0 result.1 }
    {
        match instr {
            Instr::Mul(rd, a, b) => (rd, mul32(self.register(a), self.register(b))),
            Instr::Mulh(rd, a, b) => (rd, mulh32(self.register(a), self.register(b))),
            Instr::Mulhsu(rd, a, b) => (rd, mulhsu32(self.register(a), self.register(b))),
            Instr::Mulhu(rd, a, b) => (rd, mulhu32(self.register(a), self.register(b))),
            Instr::Div(rd, a, b) => (rd, div32(self.register(a), self.register(b))),
            Instr::Divu(rd, a, b) => (rd, divu32(self.register(a), self.register(b))),
            Instr::Rem(rd, a, b) => (rd, rem32(self.register(a), self.register(b))),
            Instr::Remu(rd, a, b) => (rd, remu32(self.register(a), self.register(b))),
            _ => (Register::new(0), 0),
        }
    }
}

/// The word of an immediate.
pub(crate) fn word_of(immediate: Signed12) -> u32
    ensures { result ≡ word immediate }
{
    immediate.value().cast_unsigned()
}
