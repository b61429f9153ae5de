// The numbers of ECALL, which stand in x17.

/// Ends with the status in x10.
pub const EXIT: u32 = 0;

/// Writes the low byte of x10.
pub const PUTCHAR: u32 = 1;

/// Asks for a byte, for x10.
pub const GETCHAR: u32 = 2;

/// Stops with the failed check of the source that x10 names.
pub const RAISE: u32 = 3;

/// Makes a region, whose handle x10 gets.
pub const REGION_NEW: u32 = 4;

/// A block in the region whose handle is in x10, of as many bytes as x11 says; x10 gets its address.
pub const REGION_ALLOC: u32 = 5;

/// Frees the region whose handle is in x10.
pub const REGION_FREE: u32 = 6;

/// A unique block of as many bytes as x10 says; x10 gets its address.
pub const UNIQUE_ALLOC: u32 = 7;

/// Frees the unique block at the address in x10.
pub const UNIQUE_FREE: u32 = 8;

/// Makes a dynamic region, whose key x10 gets.
pub const KEY_NEW: u32 = 9;

/// Opens the key in x10, which gets the handle.
pub const KEY_OPEN: u32 = 10;

/// Closes the key in x10.
pub const KEY_CLOSE: u32 = 11;

/// Frees the dynamic region whose key is in x10.
pub const KEY_FREE: u32 = 12;

/// Stops where the stack has no room for as many bytes as x10 says.
pub const STACK_REFUSED: u32 = 13;
