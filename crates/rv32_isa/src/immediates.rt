//! The immediates with a sign, each in its range.
ghost use Rattle.std.specs.Prelude.{◌≡◌, ℕ, ℤ, ◌<◌, ◌^◌, ◌%◌, ◌≤ℤ◌, ◌↔◌, pos, negsuc, unsigned_abs, IsSome, IfSome};
ghost use Rattle.rv32_isa.specs.Numbers.{signed, unsigned};

use std::marker::Model;

/// The immediate of a computation, a load, a store or `jalr`, -2048 to 2047.
#[derive(Clone, Copy)]
pub struct Signed12 {
    value: i32,
}

impl Model for Signed12 {
    ghost Value = { ℤ };

    ghost view = { λ a. a.value };

    ghost invariant = { λ a. (negsuc 2047 ≤ℤ a.value) × (a.value ≤ℤ pos 2047) };

    ghost inverse = { λ z. record { value = z } };
}

impl Signed12 {
    /// The immediate of that number.
    pub fn new(value: i32) -> Self
        requires low { negsuc 2047 ≤ℤ value }
        requires high { value ≤ℤ pos 2047 }
        ensures { result ≡ value }
    {
        Signed12 { value }
    }

    /// The same, or `None` for a number out of range.
    pub fn try_new(value: i32) -> Option<Self>
        ensures fits { IsSome result ↔ ((negsuc 2047 ≤ℤ value) × (value ≤ℤ pos 2047)) }
        ensures value { IfSome result (λ a. a ≡ value) }
    {
        if value >= -2048 && value < 2048 {
            Some(Signed12 { value })
        } else {
            None
        }
    }

    /// The signed number.
    pub fn value(self) -> i32
        ensures value { result ≡ self }
        ensures low { negsuc 2047 ≤ℤ result }
        ensures high { result ≤ℤ pos 2047 }
    {
        self.value
    }

    /// The number whose two's complement in 12 bits is `bits`.
    pub(crate) fn from_bits(bits: u32) -> Self
        requires { bits < 2 ^ 12 }
        ensures { result ≡ signed 12 bits }
    {
        let value = bits as i32;
        Signed12 {
            value: if bits < 2048 { value } else { value - 4096 },
        }
    }

    /// Its two's complement in 12 bits.
    pub fn bits(self) -> u32
        ensures value { result ≡ unsigned 12 self }
        ensures in_range { result < 2 ^ 12 }
        ensures back { signed 12 result ≡ self }
    {
        if self.value < 0 {
            (self.value + 4096) as u32
        } else {
            self.value as u32
        }
    }
}

/// How far a branch goes in bytes, an even number from -4096 to 4094.
#[derive(Clone, Copy)]
pub struct BranchOffset {
    value: i32,
}

impl Model for BranchOffset {
    ghost Value = { ℤ };

    ghost view = { λ a. a.value };

    ghost invariant = { λ a. (negsuc 4095 ≤ℤ a.value) × (a.value ≤ℤ pos 4095) × (unsigned_abs a.value % 2 ≡ 0) };

    ghost inverse = { λ z. record { value = z } };
}

impl BranchOffset {
    /// The offset of `value` bytes.
    pub fn new(value: i32) -> Self
        requires low { negsuc 4095 ≤ℤ value }
        requires high { value ≤ℤ pos 4095 }
        requires even { unsigned_abs value % 2 ≡ 0 }
        ensures { result ≡ value }
    {
        BranchOffset { value }
    }

    /// The same, or `None` for a number that is odd or out of range.
    pub fn try_new(value: i32) -> Option<Self>
        ensures fits { IsSome result ↔ ((negsuc 4095 ≤ℤ value) × (value ≤ℤ pos 4095) × (unsigned_abs value % 2 ≡ 0)) }
        ensures value { IfSome result (λ a. a ≡ value) }
    {
        if value >= -4096 && value < 4096 && value.unsigned_abs() % 2 == 0 {
            Some(BranchOffset { value })
        } else {
            None
        }
    }

    /// The signed number.
    pub fn value(self) -> i32
        ensures value { result ≡ self }
        ensures low { negsuc 4095 ≤ℤ result }
        ensures high { result ≤ℤ pos 4095 }
        ensures even { unsigned_abs result % 2 ≡ 0 }
    {
        self.value
    }

    /// The number whose two's complement in 13 bits is `bits`.
    pub(crate) fn from_bits(bits: u32) -> Self
        requires room { bits < 2 ^ 13 }
        requires even { bits % 2 ≡ 0 }
        ensures { result ≡ signed 13 bits }
    {
        let value = bits as i32;
        BranchOffset {
            value: if bits < 4096 { value } else { value - 8192 },
        }
    }

    /// Its two's complement in 13 bits.
    pub fn bits(self) -> u32
        ensures value { result ≡ unsigned 13 self }
        ensures in_range { result < 2 ^ 13 }
        ensures even { result % 2 ≡ 0 }
        ensures back { signed 13 result ≡ self }
    {
        if self.value < 0 {
            (self.value + 8192) as u32
        } else {
            self.value as u32
        }
    }
}

/// How far a jump goes in bytes, an even number from -1048576 to 1048574.
#[derive(Clone, Copy)]
pub struct JumpOffset {
    value: i32,
}

impl Model for JumpOffset {
    ghost Value = { ℤ };

    ghost view = { λ a. a.value };

    ghost invariant = { λ a. (negsuc 1048575 ≤ℤ a.value) × (a.value ≤ℤ pos 1048575) × (unsigned_abs a.value % 2 ≡ 0) };

    ghost inverse = { λ z. record { value = z } };
}

impl JumpOffset {
    /// The offset of `value` bytes.
    pub fn new(value: i32) -> Self
        requires low { negsuc 1048575 ≤ℤ value }
        requires high { value ≤ℤ pos 1048575 }
        requires even { unsigned_abs value % 2 ≡ 0 }
        ensures { result ≡ value }
    {
        JumpOffset { value }
    }

    /// The same, or `None` for a number that is odd or out of range.
    pub fn try_new(value: i32) -> Option<Self>
        ensures fits { IsSome result ↔ ((negsuc 1048575 ≤ℤ value) × (value ≤ℤ pos 1048575) × (unsigned_abs value % 2 ≡ 0)) }
        ensures value { IfSome result (λ a. a ≡ value) }
    {
        if value >= -1048576 && value < 1048576 && value.unsigned_abs() % 2 == 0 {
            Some(JumpOffset { value })
        } else {
            None
        }
    }

    /// The signed number.
    pub fn value(self) -> i32
        ensures value { result ≡ self }
        ensures low { negsuc 1048575 ≤ℤ result }
        ensures high { result ≤ℤ pos 1048575 }
        ensures even { unsigned_abs result % 2 ≡ 0 }
    {
        self.value
    }

    /// The number whose two's complement in 21 bits is `bits`.
    pub(crate) fn from_bits(bits: u32) -> Self
        requires room { bits < 2 ^ 21 }
        requires even { bits % 2 ≡ 0 }
        ensures { result ≡ signed 21 bits }
    {
        let value = bits as i32;
        JumpOffset {
            value: if bits < 1048576 {
                value
            } else {
                value - 2097152
            },
        }
    }

    /// Its two's complement in 21 bits.
    pub fn bits(self) -> u32
        ensures value { result ≡ unsigned 21 self }
        ensures in_range { result < 2 ^ 21 }
        ensures even { result % 2 ≡ 0 }
        ensures back { signed 21 result ≡ self }
    {
        if self.value < 0 {
            (self.value + 2097152) as u32
        } else {
            self.value as u32
        }
    }
}
