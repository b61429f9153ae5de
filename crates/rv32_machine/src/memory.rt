// Numbers in bytes, the lowest byte first.

ghost use Rattle.std.specs.Prelude.{◌≡◌, ◌+◌, ◌<◌, ◌≤◌, ◌%◌, ◌^◌, length, slice_index, slice_set};
ghost use Rattle.rv32_machine.specs.State.{half_at, word_at};
ghost use Rattle.rv32_machine.specs.Arrays.{half_put, word_put};

use byteorder::{ByteOrder, LittleEndian};

/// The byte at an offset.
pub fn byte_in(bytes: &[u8], at: usize) -> u32
    requires { at < length bytes.now }
    ensures value { result ≡ slice_index bytes.now at }
    ensures small { result < 2 ^ 8 }
{
    u32::from(bytes[at])
}

/// The number in the two bytes from an offset on.
pub fn half_in(bytes: &[u8], at: usize) -> u32
    requires { at + 2 ≤ length bytes.now }
    ensures value { result ≡ half_at (λ k. slice_index bytes.now k) at }
    ensures small { result < 2 ^ 16 }
{
    u32::from(LittleEndian::read_u16(&bytes[at..]))
}

/// The number in the four bytes from an offset on.
pub fn word_in(bytes: &[u8], at: usize) -> u32
    requires { at + 4 ≤ length bytes.now }
    ensures { result ≡ word_at (λ k. slice_index bytes.now k) at }
{
    LittleEndian::read_u32(&bytes[at..])
}

/// Writes the low byte of a word.
pub fn put_byte(bytes: &mut [u8], at: usize, value: u32)
    requires { at < length bytes.old }
    ensures { bytes.new ≡ slice_set bytes.old at (value % 2 ^ 8) }
{
    bytes[at] = (value % 0x100) as u8;
}

/// Writes the two low bytes of a word.
pub fn put_half(bytes: &mut [u8], at: usize, value: u32)
    requires { at + 2 ≤ length bytes.old }
    ensures { bytes.new ≡ half_put bytes.old at value }
{
    LittleEndian::write_u16(&mut bytes[at..at + 2], (value % 0x1_0000) as u16);
}

/// Writes the four bytes of a word.
pub fn put_word(bytes: &mut [u8], at: usize, value: u32)
    requires { at + 4 ≤ length bytes.old }
    ensures { bytes.new ≡ word_put bytes.old at value }
{
    LittleEndian::write_u32(&mut bytes[at..at + 4], value);
}
