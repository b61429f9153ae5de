// Arithmetic on words.

ghost use Rattle.std.specs.Prelude.{◌≡◌, IsTrue, ◌↔◌, ◌<ℤ◌, ◌<◌};
ghost use Rattle.cyc_words.specs.Words.{signed, sum_of, difference_of, product_of, upper_signed, upper_mixed, upper_unsigned, quotient, unsigned_quotient};
ghost use Rattle.cyc_words.specs.Words.{remainder, unsigned_remainder, shifted_left, shifted_right, shifted_right_signed};

/// The sum of two words, modulo 2^32 (ADD).
pub fn add32(a: u32, b: u32) -> u32
    ensures { result ≡ sum_of a b }
{
    a.wrapping_add(b)
}

/// The first word less the second, modulo 2^32 (SUB).
pub fn sub32(a: u32, b: u32) -> u32
    ensures { result ≡ difference_of a b }
{
    a.wrapping_sub(b)
}

/// The lower 32 bits of the product (MUL).
pub fn mul32(a: u32, b: u32) -> u32
    ensures { result ≡ product_of a b }
{
    a.wrapping_mul(b)
}

/// The upper 32 bits of the product of two signed numbers (MULH).
pub fn mulh32(a: u32, b: u32) -> u32
    ensures { result ≡ upper_signed a b }
{
    let product = i64::from(a.cast_signed()) * i64::from(b.cast_signed());
    (product.cast_unsigned() >> 32) as u32
}

/// The upper 32 bits of the product of a signed number and an unsigned one (MULHSU).
pub fn mulhsu32(a: u32, b: u32) -> u32
    ensures { result ≡ upper_mixed a b }
{
    let product = i64::from(a.cast_signed()) * i64::from(b);
    (product.cast_unsigned() >> 32) as u32
}

/// The upper 32 bits of the product of two unsigned numbers (MULHU).
pub fn mulhu32(a: u32, b: u32) -> u32
    ensures { result ≡ upper_unsigned a b }
{
    (u64::from(a) * u64::from(b) >> 32) as u32
}

/// The quotient of two signed numbers, rounded towards zero (DIV). Division by zero gives all ones,
/// and -2^31 by -1 gives -2^31.
pub fn div32(a: u32, b: u32) -> u32
    ensures { result ≡ quotient a b }
{
    if b == 0 {
        u32::MAX
    } else {
        a.cast_signed()
            .wrapping_div(b.cast_signed())
            .cast_unsigned()
    }
}

/// The quotient of two unsigned numbers, rounded down (DIVU). Division by zero gives all ones.
pub fn divu32(a: u32, b: u32) -> u32
    ensures { result ≡ unsigned_quotient a b }
{
    if b == 0 { u32::MAX } else { a / b }
}

/// What the division of two signed numbers leaves, with the sign of the first (REM). Division by
/// zero leaves the first, and -2^31 by -1 leaves 0.
pub fn rem32(a: u32, b: u32) -> u32
    ensures { result ≡ remainder a b }
{
    if b == 0 {
        a
    } else {
        a.cast_signed()
            .wrapping_rem(b.cast_signed())
            .cast_unsigned()
    }
}

/// What the division of two unsigned numbers leaves (REMU). Division by zero leaves the first.
pub fn remu32(a: u32, b: u32) -> u32
    ensures { result ≡ unsigned_remainder a b }
{
    if b == 0 { a } else { a % b }
}

/// The first word shifted to the left by the second modulo 32 (SLL).
pub fn shl32(a: u32, b: u32) -> u32
    ensures { result ≡ shifted_left a b }
{
    a.wrapping_shl(b)
}

/// The first word shifted to the right by the second modulo 32, filled with zeros (SRL).
pub fn shr32(a: u32, b: u32) -> u32
    ensures { result ≡ shifted_right a b }
{
    a.wrapping_shr(b)
}

/// The first word shifted to the right by the second modulo 32, filled with its sign (SRA).
pub fn sar32(a: u32, b: u32) -> u32
    ensures { result ≡ shifted_right_signed a b }
{
    a.cast_signed().wrapping_shr(b).cast_unsigned()
}

/// Whether the first is below the second, both signed (SLT).
pub fn lt32(a: u32, b: u32) -> bool
    ensures { IsTrue result ↔ (signed a <ℤ signed b) }
{
    a.cast_signed() < b.cast_signed()
}

/// Whether the first is below the second, both unsigned (SLTU).
pub fn ltu32(a: u32, b: u32) -> bool
    ensures { IsTrue result ↔ (a < b) }
{
    a < b
}
