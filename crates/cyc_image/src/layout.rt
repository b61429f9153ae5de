// Where the fields of an image stand, and how its numbers are read and written.

ghost use Rattle.std.specs.Prelude.{◌≡◌, ◌+◌, ◌++◌, ◌≤◌, OnOk, length};
ghost use Rattle.cyc_image.specs.Format.{field, u32_bytes};

use byteorder::{ByteOrder, LittleEndian};
use std::alloc::AllocError;

/// The first bytes of each image.
pub const MAGIC: &[u8] = b"CYI1";

/// The version before.
pub const FIRST_VERSION: u32 = 1;

/// The version that is written.
pub const VERSION: u32 = 2;

/// The header's length in version 1, in bytes.
pub const FIRST_HEADER_LENGTH: usize = 24;

/// The header's length in version 2, in bytes.
pub const HEADER_LENGTH: usize = 28;

/// The offset of the version.
pub const VERSION_AT: usize = 4;

/// The offset of the entry.
pub const ENTRY_AT: usize = 8;

/// The offset of the code's length.
pub const CODE_LENGTH_AT: usize = 12;

/// The offset of the data's length.
pub const DATA_LENGTH_AT: usize = 16;

/// The offset of the number of pages of the arena.
pub const PAGES_AT: usize = 20;

/// The offset of the number of pages of the stack, in version 2.
pub const STACK_PAGES_AT: usize = 24;

/// The greatest length of the code, in bytes.
pub const CODE_LIMIT: usize = 1_048_576;

/// The greatest length of the data, in bytes.
pub const DATA_LIMIT: usize = 1_048_576;

/// The greatest number of pages of the arena.
pub const PAGE_LIMIT: u32 = 4096;

/// The greatest number of pages of the stack.
pub const STACK_PAGE_LIMIT: u32 = 4096;

/// The pages of the stack of an image of version 1.
pub const FIRST_STACK_PAGES: u32 = 256;

/// The longest block of a region for an image of version 1, in bytes.
pub const FIRST_BLOCK_LIMIT: u32 = 4096;

/// The longest block of a region for an image of version 2, in bytes.
pub const BLOCK_LIMIT: u32 = 1_048_576;

/// The number in the four bytes from an offset on, the lowest byte first.
pub fn field_at(bytes: &[u8], at: usize) -> u32
    requires { at + 4 ≤ length bytes.now }
    ensures { result ≡ field bytes.now at }
{
    LittleEndian::read_u32(&bytes[at..])
}

/// Appends the four bytes of a number, the lowest first. Fails only where no memory is left.
pub fn push_number(bytes: &mut Vec<u8>, number: u32) -> Result<(), AllocError>
    ensures { OnOk result (bytes.new.items ≡ bytes.old.items ++ u32_bytes number) }
{
    let mut four = [0; 4];
    LittleEndian::write_u32(&mut four, number);
    bytes.extend_from_slice(&four)
}
