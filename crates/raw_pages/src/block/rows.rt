// A block is cut into its rows, and given back with them.

ghost use Rattle.std.specs.Prelude.{[], ◌≡◌, ◌*◌, ◌<◌, ◌≤◌, IfOk, replicate};
ghost use Rattle.std.specs.Vec.{vec_capacity, vec_ptr};
ghost use Rattle.raw_pages.specs.Seated.{IsSeated};

use super::Block;
use std::alloc::{AllocError, Allocator};
use std::marker::PhantomData;
use std_alloc::vec::{Lodged, lodge};

/// A block of `pages` pages: sixteen words for each page, then 4,096 bytes for each page.
/// None of them is written.
pub(crate) fn allocate<A: Allocator>(
    alloc: &A,
    pages: usize,
) -> Result<(Vec<u32, Lodged>, Vec<u8, Lodged>, Block<A>), AllocError>
    requires { (0 < pages) × (pages ≤ 4096) }
    ensures { IfOk result (λ r. (r.0.items ≡ []) × (r.1.items ≡ []) × IsSeated r.0 r.1 r.2 × (r.2.pages ≡ pages) × (r.2.alloc ≡ alloc.now)) }
{
    match alloc.allocate(4160 * pages, 4) {
        Ok(start) => unsafe {
            let words = lodge(start as *mut u32, 0, 16 * pages);
            let bytes = lodge(start.add(64 * pages), 0, 4096 * pages);
            let by = PhantomData;
            Ok((words, bytes, Block { start, pages, by }))
        },
        Err(refused) => Err(refused),
    }
}

/// Gives a block back with its rows.
pub(crate) fn free<A: Allocator>(
    alloc: &A,
    words: Vec<u32, Lodged>,
    bytes: Vec<u8, Lodged>,
    block: Block<A>,
)
    requires { IsSeated words bytes block × (block.alloc ≡ alloc.now) }
{
    let Block {
        start,
        pages,
        by: _,
    } = block;
    let _words = words.dislodge();
    let _bytes = bytes.dislodge();
    unsafe {
        alloc.deallocate(start, 4160 * pages, 4);
    }
}

/// The row, with a value in each of its places.
pub(crate) fn filled<T: Copy>(mut row: Vec<T, Lodged>, value: T) -> Vec<T, Lodged>
    requires { row.items ≡ [] }
    ensures items { result.items ≡ replicate (vec_capacity row) value }
    ensures place { vec_ptr result ≡ vec_ptr row }
    ensures room { vec_capacity result ≡ vec_capacity row }
{
    'places: while row.len() < row.capacity() {
        let end = row.len();
        row.insert_reserved(end, value);
    }
    row
}
