//! The registers, and the operands without a sign, each in its range.
ghost use Rattle.std.specs.Prelude.{◌≡◌, ℕ, ◌<◌, ◌^◌, ◌↔◌, IsSome, IfSome};

use std::marker::Model;

/// One of the registers x0 to x31.
#[derive(Clone, Copy)]
pub struct Register {
    number: u8,
}

impl Model for Register {
    ghost Value = { ℕ };

    ghost view = { λ a. a.number };

    ghost invariant = { λ a. a.number < 32 };

    ghost inverse = { λ n. record { number = n } };
}

impl Register {
    /// x0, `zero`: it reads 0 and keeps no write.
    pub const ZERO: Register = Register { number: 0 };
    /// x1, `ra`: where a call is to return to.
    pub const RETURN_ADDRESS: Register = Register { number: 1 };
    /// x2, `sp`: the end of the stack.
    pub const STACK_POINTER: Register = Register { number: 2 };
    /// x5, `t0`, which a call need not keep.
    pub const TEMPORARY_0: Register = Register { number: 5 };
    /// x6, `t1`, which a call need not keep.
    pub const TEMPORARY_1: Register = Register { number: 6 };
    /// x7, `t2`, which a call need not keep.
    pub const TEMPORARY_2: Register = Register { number: 7 };
    /// x8, `s0`, which a call keeps.
    pub const SAVED_0: Register = Register { number: 8 };
    /// x9, `s1`, which a call keeps.
    pub const SAVED_1: Register = Register { number: 9 };
    /// x10, `a0`, an argument and a result.
    pub const ARGUMENT_0: Register = Register { number: 10 };
    /// x11, `a1`, an argument and a result.
    pub const ARGUMENT_1: Register = Register { number: 11 };
    /// x12, `a2`, an argument.
    pub const ARGUMENT_2: Register = Register { number: 12 };
    /// x13, `a3`, an argument.
    pub const ARGUMENT_3: Register = Register { number: 13 };
    /// x14, `a4`, an argument.
    pub const ARGUMENT_4: Register = Register { number: 14 };
    /// x15, `a5`, an argument.
    pub const ARGUMENT_5: Register = Register { number: 15 };
    /// x16, `a6`, an argument.
    pub const ARGUMENT_6: Register = Register { number: 16 };
    /// x17, `a7`, an argument.
    pub const ARGUMENT_7: Register = Register { number: 17 };
    /// x18, `s2`, which a call keeps.
    pub const SAVED_2: Register = Register { number: 18 };
    /// x19, `s3`, which a call keeps.
    pub const SAVED_3: Register = Register { number: 19 };
    /// x20, `s4`, which a call keeps.
    pub const SAVED_4: Register = Register { number: 20 };
    /// x21, `s5`, which a call keeps.
    pub const SAVED_5: Register = Register { number: 21 };
    /// x22, `s6`, which a call keeps.
    pub const SAVED_6: Register = Register { number: 22 };
    /// x23, `s7`, which a call keeps.
    pub const SAVED_7: Register = Register { number: 23 };
    /// x24, `s8`, which a call keeps.
    pub const SAVED_8: Register = Register { number: 24 };
    /// x25, `s9`, which a call keeps.
    pub const SAVED_9: Register = Register { number: 25 };
    /// x26, `s10`, which a call keeps.
    pub const SAVED_10: Register = Register { number: 26 };
    /// x27, `s11`, which a call keeps.
    pub const SAVED_11: Register = Register { number: 27 };
    /// x28, `t3`, which a call need not keep.
    pub const TEMPORARY_3: Register = Register { number: 28 };
    /// x29, `t4`, which a call need not keep.
    pub const TEMPORARY_4: Register = Register { number: 29 };
    /// x30, `t5`, which a call need not keep.
    pub const TEMPORARY_5: Register = Register { number: 30 };
    /// x31, `t6`, which a call need not keep.
    pub const TEMPORARY_6: Register = Register { number: 31 };

    /// The register of that number.
    pub fn new(number: u8) -> Self
        requires { number < 32 }
        ensures { result ≡ number }
    {
        Register { number }
    }

    /// The same, or `None` where the number is too large.
    pub fn try_new(number: u8) -> Option<Self>
        ensures fits { IsSome result ↔ (number < 32) }
        ensures value { IfSome result (λ a. a ≡ number) }
    {
        if number < 32 {
            Some(Register { number })
        } else {
            None
        }
    }

    /// Its number, 0 to 31.
    pub fn number(self) -> u8
        ensures value { result ≡ self }
        ensures in_range { result < 32 }
    {
        self.number
    }
}

/// The distance of a shift by a constant, 0 to 31.
#[derive(Clone, Copy)]
pub struct ShiftAmount {
    count: u8,
}

impl Model for ShiftAmount {
    ghost Value = { ℕ };

    ghost view = { λ a. a.count };

    ghost invariant = { λ a. a.count < 32 };

    ghost inverse = { λ n. record { count = n } };
}

impl ShiftAmount {
    /// A shift by `count` bits.
    pub fn new(count: u8) -> Self
        requires { count < 32 }
        ensures { result ≡ count }
    {
        ShiftAmount { count }
    }

    /// The same, or `None` where the number is too large.
    pub fn try_new(count: u8) -> Option<Self>
        ensures fits { IsSome result ↔ (count < 32) }
        ensures value { IfSome result (λ a. a ≡ count) }
    {
        if count < 32 {
            Some(ShiftAmount { count })
        } else {
            None
        }
    }

    /// How many bits, 0 to 31.
    pub fn count(self) -> u8
        ensures value { result ≡ self }
        ensures in_range { result < 32 }
    {
        self.count
    }
}

/// The upper 20 bits of a word.
#[derive(Clone, Copy)]
pub struct Upper20 {
    bits: u32,
}

impl Model for Upper20 {
    ghost Value = { ℕ };

    ghost view = { λ a. a.bits };

    ghost invariant = { λ a. a.bits < 2 ^ 20 };

    ghost inverse = { λ n. record { bits = n } };
}

impl Upper20 {
    /// Those bits, as a number.
    pub fn new(bits: u32) -> Self
        requires { bits < 2 ^ 20 }
        ensures { result ≡ bits }
    {
        Upper20 { bits }
    }

    /// The same, or `None` where the number is too large.
    pub fn try_new(bits: u32) -> Option<Self>
        ensures fits { IsSome result ↔ (bits < 2 ^ 20) }
        ensures value { IfSome result (λ a. a ≡ bits) }
    {
        if bits < 1 << 20 {
            Some(Upper20 { bits })
        } else {
            None
        }
    }

    /// The bits as a number, 0 to 2^20 - 1.
    pub fn bits(self) -> u32
        ensures value { result ≡ self }
        ensures in_range { result < 2 ^ 20 }
    {
        self.bits
    }
}

/// The 12 upper bits of a fence, which are kept and ignored.
#[derive(Clone, Copy)]
pub struct FenceBits {
    bits: u32,
}

impl Model for FenceBits {
    ghost Value = { ℕ };

    ghost view = { λ a. a.bits };

    ghost invariant = { λ a. a.bits < 2 ^ 12 };

    ghost inverse = { λ n. record { bits = n } };
}

impl FenceBits {
    /// Those bits, as a number.
    pub fn new(bits: u32) -> Self
        requires { bits < 2 ^ 12 }
        ensures { result ≡ bits }
    {
        FenceBits { bits }
    }

    /// The same, or `None` where the number is too large.
    pub fn try_new(bits: u32) -> Option<Self>
        ensures fits { IsSome result ↔ (bits < 2 ^ 12) }
        ensures value { IfSome result (λ a. a ≡ bits) }
    {
        if bits < 1 << 12 {
            Some(FenceBits { bits })
        } else {
            None
        }
    }

    /// The bits as a number, 0 to 2^12 - 1.
    pub fn bits(self) -> u32
        ensures value { result ≡ self }
        ensures in_range { result < 2 ^ 12 }
    {
        self.bits
    }
}
