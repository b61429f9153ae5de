// One block of memory: a row of words, and behind it a row of bytes.

ghost use Rattle.raw_pages.specs.Block.{block_owns};

use std::alloc::Allocator;
use std::marker::{Model, PhantomData};

mod rows;

pub(crate) use rows::{allocate, filled, free};

/// The right to give back a block of pages whose rows are out.
pub struct Block<A: Allocator> {
    start: *mut u8,
    pages: usize,
    by: PhantomData<A>,
    ghost alloc: { A },
}

impl<A: Allocator> Model for Block<A> {
    ghost also_owns = { λ b. block_owns (A.dealloc_token b.alloc) b.start b.pages };
}
