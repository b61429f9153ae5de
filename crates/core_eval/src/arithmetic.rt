// What the operations on two words give.

ghost use Rattle.std.specs.Prelude.{◌≡◌};
ghost use Rattle.core_meaning.specs.Words.{truth, two};
ghost use Rattle.cyc_core.specs.Trees.{binary_tree};

use cyc_core::Binary;
use cyc_words::{
    add32, div32, divu32, lt32, ltu32, mul32, rem32, remu32, sar32, shl32, shr32, sub32,
};

/// What an operation on two words gives.
pub fn apply(operation: Binary, x: u32, y: u32) -> u32
    ensures { result ≡ two (binary_tree operation) x y }
{
    let is_true = match operation {
        Binary::Add => return add32(x, y),
        Binary::Subtract => return sub32(x, y),
        Binary::Multiply => return mul32(x, y),
        Binary::Divide => return div32(x, y),
        Binary::DivideUnsigned => return divu32(x, y),
        Binary::Remainder => return rem32(x, y),
        Binary::RemainderUnsigned => return remu32(x, y),
        Binary::And => return x & y,
        Binary::Or => return x | y,
        Binary::Xor => return x ^ y,
        Binary::ShiftLeft => return shl32(x, y),
        Binary::ShiftRight => return sar32(x, y),
        Binary::ShiftRightUnsigned => return shr32(x, y),
        Binary::Equal => x == y,
        Binary::NotEqual => x != y,
        Binary::Less => lt32(x, y),
        Binary::LessEqual => !lt32(y, x),
        Binary::LessUnsigned => ltu32(x, y),
        Binary::LessEqualUnsigned => !ltu32(y, x),
    };
    truth(is_true)
}

/// The word of a truth: 1 or 0.
pub fn truth(is_true: bool) -> u32
    ensures { result ≡ truth is_true }
{
    if is_true { 1 } else { 0 }
}
