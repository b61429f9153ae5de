// What depends on the version: each number but 2 is looked at as version 1.

ghost use Rattle.std.specs.Prelude.{◌≡◌, ◌≤◌, length, nat_eq};
ghost use Rattle.cyc_image.specs.Format.{first_header_length, header_of, limit_of, stack_of, version_field};

use crate::layout::{
    BLOCK_LIMIT, FIRST_BLOCK_LIMIT, FIRST_HEADER_LENGTH, FIRST_STACK_PAGES, HEADER_LENGTH,
    STACK_PAGES_AT, VERSION, VERSION_AT, field_at,
};

/// Version 2.
fn is_second(bytes: &[u8]) -> bool
    requires { first_header_length ≤ length bytes.now }
    ensures { result ≡ nat_eq (version_field bytes.now) 2 }
{
    field_at(bytes, VERSION_AT) == VERSION
}

/// The header's length in bytes.
pub fn header_length_of(bytes: &[u8]) -> usize
    requires { first_header_length ≤ length bytes.now }
    ensures { result ≡ header_of bytes.now }
{
    if is_second(bytes) {
        HEADER_LENGTH
    } else {
        FIRST_HEADER_LENGTH
    }
}

/// The pages of the stack.
pub fn stack_pages_of(bytes: &[u8]) -> u32
    requires some { first_header_length ≤ length bytes.now }
    requires whole { header_of bytes.now ≤ length bytes.now }
    ensures { result ≡ stack_of bytes.now }
{
    if is_second(bytes) {
        field_at(bytes, STACK_PAGES_AT)
    } else {
        FIRST_STACK_PAGES
    }
}

/// The longest block of a region, in bytes.
pub fn block_limit_of(bytes: &[u8]) -> u32
    requires { first_header_length ≤ length bytes.now }
    ensures { result ≡ limit_of bytes.now }
{
    if is_second(bytes) {
        BLOCK_LIMIT
    } else {
        FIRST_BLOCK_LIMIT
    }
}
