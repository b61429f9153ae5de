// Whether bytes are an image of some parts, and if not why.

ghost use Rattle.std.specs.Prelude.{◌≡◌, ◌↔◌, ◌≤◌, IsTrue, length, take};
ghost use Rattle.cyc_image.specs.Format.{HasBadEntry, HasOtherVersion, HasTrailing, IsPastLimit, IsShort, first_header_length, header_of, magic};
ghost use Rattle.cyc_image.specs.Refusal.{IsVerdict};

use crate::fault::ImageFault;
use crate::layout::{
    CODE_LENGTH_AT, CODE_LIMIT, DATA_LENGTH_AT, DATA_LIMIT, ENTRY_AT, FIRST_HEADER_LENGTH,
    FIRST_VERSION, MAGIC, PAGE_LIMIT, PAGES_AT, STACK_PAGE_LIMIT, VERSION, VERSION_AT, field_at,
};
use crate::version::{header_length_of, stack_pages_of};

/// No whole header, or fewer bytes than it speaks of.
fn is_short(bytes: &[u8]) -> bool
    ensures { IsTrue result ↔ IsShort bytes.now }
{
    if bytes.len() < FIRST_HEADER_LENGTH {
        return true;
    }
    let code_length = field_at(bytes, CODE_LENGTH_AT) as usize;
    let data_length = field_at(bytes, DATA_LENGTH_AT) as usize;
    bytes.len() < header_length_of(bytes) + code_length + data_length
}

/// The first bytes of an image.
fn has_magic(bytes: &[u8]) -> bool
    requires { first_header_length ≤ length bytes.now }
    ensures { IsTrue result ↔ (take 4 bytes.now ≡ magic) }
{
    &bytes[..4] == MAGIC
}

/// Another version.
fn has_other_version(bytes: &[u8]) -> bool
    requires { first_header_length ≤ length bytes.now }
    ensures { IsTrue result ↔ HasOtherVersion bytes.now }
{
    let version = field_at(bytes, VERSION_AT);
    version != FIRST_VERSION && version != VERSION
}

/// A length or a number of pages that no image has.
fn is_past_limit(bytes: &[u8]) -> bool
    requires some { first_header_length ≤ length bytes.now }
    requires whole { header_of bytes.now ≤ length bytes.now }
    ensures { IsTrue result ↔ IsPastLimit bytes.now }
{
    let code_length = field_at(bytes, CODE_LENGTH_AT) as usize;
    let data_length = field_at(bytes, DATA_LENGTH_AT) as usize;
    let pages = field_at(bytes, PAGES_AT);
    let stack_pages = stack_pages_of(bytes);
    code_length == 0
        || CODE_LIMIT < code_length
        || code_length % 4 != 0
        || DATA_LIMIT < data_length
        || pages == 0
        || PAGE_LIMIT < pages
        || stack_pages == 0
        || STACK_PAGE_LIMIT < stack_pages
}

/// An entry that is no word of the code.
fn has_bad_entry(bytes: &[u8]) -> bool
    requires { first_header_length ≤ length bytes.now }
    ensures { IsTrue result ↔ HasBadEntry bytes.now }
{
    let entry = field_at(bytes, ENTRY_AT);
    entry % 4 != 0 || field_at(bytes, CODE_LENGTH_AT) <= entry
}

/// Bytes after the data.
fn has_trailing(bytes: &[u8]) -> bool
    requires { first_header_length ≤ length bytes.now }
    ensures { IsTrue result ↔ HasTrailing bytes.now }
{
    let code_length = field_at(bytes, CODE_LENGTH_AT) as usize;
    let data_length = field_at(bytes, DATA_LENGTH_AT) as usize;
    header_length_of(bytes) + code_length + data_length < bytes.len()
}

/// The first refusal that applies to the bytes, or none.
pub fn refusal(bytes: &[u8]) -> Option<ImageFault>
    ensures { IsVerdict bytes.now result }
{
    if is_short(bytes) {
        Some(ImageFault::Short)
    } else if !has_magic(bytes) {
        Some(ImageFault::Magic)
    } else if has_other_version(bytes) {
        Some(ImageFault::Version)
    } else if is_past_limit(bytes) {
        Some(ImageFault::Limit)
    } else if has_bad_entry(bytes) {
        Some(ImageFault::Entry)
    } else if has_trailing(bytes) {
        Some(ImageFault::Trailing)
    } else {
        None
    }
}
