// The parts of an image, and its bytes.

ghost use Rattle.std.specs.Prelude.{◌≡◌, ◌↔◌, IsTrue, IfOk};
ghost use Rattle.cyc_image.specs.Format.{Fits, IsImage, version_field};

use crate::layout::{
    CODE_LIMIT, DATA_LIMIT, HEADER_LENGTH, MAGIC, PAGE_LIMIT, STACK_PAGE_LIMIT, VERSION,
    push_number,
};
use std::alloc::{AllocError, Global};
use std::marker::Model;

/// What an image is made of.
#[derive(Drop)]
pub struct Parts<'a> {
    /// Where a run begins: an offset in the code, in bytes.
    pub entry: u32,
    /// The code's bytes.
    pub code: &'a [u8],
    /// The data's bytes.
    pub statics: &'a [u8],
    /// The pages of the arena, of 4,096 bytes each.
    pub pages: u32,
    /// The pages of the stack, of 4,096 bytes each: 1 to 4,096.
    pub stack_pages: u32,
}

impl<'a> Model for Parts<'a> {
    ghost use Rattle.cyc_image.specs.Format.{Contents, second_block_limit};

    ghost Value = { Contents };

    ghost view = { λ p. record {
      entry = p.entry;
      code = p.code.now;
      statics = p.statics.now;
      pages = p.pages;
      stack_pages = p.stack_pages;
      block_limit = second_block_limit;
    } };
}

impl<'a> Parts<'a> {
    /// Whether there is an image of these parts: the code's length is a multiple of 4 from 4 to
    /// 1,048,576, the data's at most 1,048,576, the pages are 1 to 4,096, those of the stack too, and
    /// the entry is a multiple of 4 below the code's length.
    pub fn fits(&self) -> bool
        ensures { IsTrue result ↔ Fits self.now }
    {
        let code_length = self.code.len();
        code_length != 0
            && code_length <= CODE_LIMIT
            && code_length % 4 == 0
            && self.statics.len() <= DATA_LIMIT
            && self.pages != 0
            && self.pages <= PAGE_LIMIT
            && self.stack_pages != 0
            && self.stack_pages <= STACK_PAGE_LIMIT
            && self.entry % 4 == 0
            && (self.entry as usize) < code_length
    }
}

/// The bytes of the image of these parts, of version 2, whose limits `Parts::fits` tests. `load` gives the parts
/// back. Fails only where no memory is left.
pub fn write(alloc: Global, parts: &Parts<'_>) -> Result<Vec<u8>, AllocError>
    requires { Fits parts.now }
    ensures image { IfOk result (λ bytes. IsImage bytes.items parts.now) }
    ensures second { IfOk result (λ bytes. version_field bytes.items ≡ 2) }
{
    let length = HEADER_LENGTH + parts.code.len() + parts.statics.len();
    let mut bytes = Vec::with_capacity(alloc, length)?;
    bytes.extend_from_slice(MAGIC)?;
    push_number(&mut bytes, VERSION)?;
    push_number(&mut bytes, parts.entry)?;
    push_number(&mut bytes, parts.code.len() as u32)?;
    push_number(&mut bytes, parts.statics.len() as u32)?;
    push_number(&mut bytes, parts.pages)?;
    push_number(&mut bytes, parts.stack_pages)?;
    bytes.extend_from_slice(parts.code)?;
    bytes.extend_from_slice(parts.statics)?;
    Ok(bytes)
}
