// An image that was loaded.

ghost use Rattle.std.specs.Prelude.{◌≡◌};
ghost use Rattle.cyc_image.specs.Format.{Fits, IsOfVersion};

use std::marker::Model;

/// An image: its parts are within the limits, and its stack and its longest block are those of its version.
#[derive(Drop)]
pub struct Image {
    pub(crate) entry: u32,
    pub(crate) code: Vec<u8>,
    pub(crate) statics: Vec<u8>,
    pub(crate) pages: u32,
    pub(crate) stack_pages: u32,
    pub(crate) block_limit: u32,
}

impl Model for Image {
    ghost use Rattle.cyc_image.specs.Format.{Contents, Fits, IsOfVersion};

    ghost Value = { Contents };

    ghost view = { λ i. record {
      entry = i.entry;
      code = i.code.items;
      statics = i.statics.items;
      pages = i.pages;
      stack_pages = i.stack_pages;
      block_limit = i.block_limit;
    } };

    ghost invariant = { λ i. let parts : Contents = record {
      entry = i.entry;
      code = i.code.items;
      statics = i.statics.items;
      pages = i.pages;
      stack_pages = i.stack_pages;
      block_limit = i.block_limit;
    } in Fits parts × IsOfVersion parts };
}

impl Image {
    /// Where a run begins: an offset in the code, in bytes, a multiple of 4 below the code's length.
    pub fn entry(&self) -> u32
        ensures entry { result ≡ self.now.entry }
        ensures fits { Fits self.now }
    {
        self.entry
    }

    /// The code's bytes: 4 to 1,048,576 of them, in whole words of 4.
    pub fn code(&self) -> &[u8]
        ensures code { result.now ≡ self.now.code }
        ensures fits { Fits self.now }
    {
        &self.code
    }

    /// The data's bytes: at most 1,048,576 of them.
    pub fn statics(&self) -> &[u8]
        ensures statics { result.now ≡ self.now.statics }
        ensures fits { Fits self.now }
    {
        &self.statics
    }

    /// The pages of the arena, of 4,096 bytes each: 1 to 4,096 of them.
    pub fn pages(&self) -> u32
        ensures pages { result ≡ self.now.pages }
        ensures fits { Fits self.now }
    {
        self.pages
    }

    /// The pages of the stack, of 4,096 bytes each: 1 to 4,096 of them, 256 for version 1.
    pub fn stack_pages(&self) -> u32
        ensures stack_pages { result ≡ self.now.stack_pages }
        ensures fits { Fits self.now }
        ensures version { IsOfVersion self.now }
    {
        self.stack_pages
    }

    /// The longest block of a region, in bytes: 4,096 for version 1, and 1,048,576 for version 2.
    pub fn block_limit(&self) -> u32
        ensures block_limit { result ≡ self.now.block_limit }
        ensures fits { Fits self.now }
        ensures version { IsOfVersion self.now }
    {
        self.block_limit
    }
}
