// Requests and frees: regions that are made, opened, closed and freed, and their blocks.

ghost use Rattle.std.specs.Prelude.{◌≡◌, List, IfOk, if◌then◌else◌};
ghost use Rattle.core_meaning.specs.Core as core;
ghost use Rattle.core_meaning.specs.Steps.{Falls};
ghost use Rattle.cyc_core.specs.Trees.{layout_tree};
ghost use Rattle.core_eval.specs.Pendings.{Execute, Go, Leave, Wait, Wrong, next_of};
ghost use Rattle.core_eval.specs.Standing.{known_of};
ghost use Rattle.core_eval.specs.Costs.{IsMove};

use crate::frame::Frame;
use crate::long_block::keep_block;
use crate::memory::Memory;
use crate::operation::give;
use crate::pending::{Due, Flow, Now};
use crate::region::{Standing, push_block};
use crate::value::{Area, Place, Value};
use cyc_core::{Layout, Temporary};
use std::alloc::{AllocError, Global};
use std::rc::Rc;

/// Gives a temporary the handle of a new region.
pub fn make_region<'p>(
    alloc: Global,
    frame: &mut Frame,
    memory: &mut Memory,
    to: Temporary,
) -> Result<Due<'p>, AllocError>
    ensures { IfOk result (λ due. (ws : List Wait) →
        IsMove (Execute (core.Do (core.RegionNew to.0))) ws (known_of frame.old memory.old) (next_of due) ws (known_of frame.new memory.new)) }
{
    let birth = memory.make_region(alloc, Standing::Lexical, Vec::new(alloc))?;
    give(frame, to, Value::Birth(birth))
}

/// Gives a temporary the key of a new region, which is closed.
pub fn make_key<'p>(
    alloc: Global,
    frame: &mut Frame,
    memory: &mut Memory,
    to: Temporary,
) -> Result<Due<'p>, AllocError>
    ensures { IfOk result (λ due. (ws : List Wait) →
        IsMove (Execute (core.Do (core.KeyNew to.0))) ws (known_of frame.old memory.old) (next_of due) ws (known_of frame.new memory.new)) }
{
    let birth = memory.make_region(alloc, Standing::Closed, Vec::new(alloc))?;
    give(frame, to, Value::Birth(birth))
}

/// The move that follows a free, an opening or a closing, which was done or can't be.
fn done<'p>(is_done: bool) -> Due<'p>
    ensures { next_of result ≡ (if is_done then Go (Leave Falls) else Wrong) }
{
    if is_done {
        Due::Go(Now::Leave(Flow::Falls))
    } else {
        Due::Wrong
    }
}

/// Frees the region whose handle a temporary holds.
pub fn free_region<'p>(frame: &Frame, memory: &mut Memory, region: Temporary) -> Due<'p>
    ensures { (ws : List Wait) →
        IsMove (Execute (core.Do (core.RegionFree region.0))) ws (known_of frame.now memory.old) (next_of result) ws (known_of frame.now memory.new) }
{
    match frame.temp(region) {
        Value::Birth(birth) => done(memory.turn_region(birth, Standing::Lexical, None)),
        _ => Due::Wrong,
    }
}

/// Frees the unique block that a temporary points to.
pub fn free_unique<'p>(frame: &Frame, memory: &mut Memory, place: Temporary) -> Due<'p>
    ensures { (ws : List Wait) →
        IsMove (Execute (core.Do (core.UniqueFree place.0))) ws (known_of frame.now memory.old) (next_of result) ws (known_of frame.now memory.new) }
{
    match frame.temp(place) {
        Value::Pointer(place) if place.byte == 0 => done(memory.free_single(place.area)),
        _ => Due::Wrong,
    }
}

/// Opens the region whose key a temporary holds.
pub fn open_key<'p>(frame: &Frame, memory: &mut Memory, key: Temporary) -> Due<'p>
    ensures { (ws : List Wait) →
        IsMove (Execute (core.Do (core.KeyOpen key.0))) ws (known_of frame.now memory.old) (next_of result) ws (known_of frame.now memory.new) }
{
    match frame.temp(key) {
        Value::Birth(birth) => {
            done(memory.turn_region(birth, Standing::Closed, Some(Standing::Opened)))
        }
        _ => Due::Wrong,
    }
}

/// Closes the region whose key a temporary holds.
pub fn close_key<'p>(frame: &Frame, memory: &mut Memory, key: Temporary) -> Due<'p>
    ensures { (ws : List Wait) →
        IsMove (Execute (core.Do (core.KeyClose key.0))) ws (known_of frame.now memory.old) (next_of result) ws (known_of frame.now memory.new) }
{
    match frame.temp(key) {
        Value::Birth(birth) => {
            done(memory.turn_region(birth, Standing::Opened, Some(Standing::Closed)))
        }
        _ => Due::Wrong,
    }
}

/// Frees the region whose key a temporary holds.
pub fn free_key<'p>(frame: &Frame, memory: &mut Memory, key: Temporary) -> Due<'p>
    ensures { (ws : List Wait) →
        IsMove (Execute (core.Do (core.KeyFree key.0))) ws (known_of frame.now memory.old) (next_of result) ws (known_of frame.now memory.new) }
{
    match frame.temp(key) {
        Value::Birth(birth) => done(memory.turn_region(birth, Standing::Closed, None)),
        _ => Due::Wrong,
    }
}

/// Gives a temporary a pointer to a new block of the region whose handle another one holds. The block has a number of elements of a
/// layout: the number is a third one's word.
pub fn allocate<'p>(
    alloc: Global,
    frame: &mut Frame,
    memory: &mut Memory,
    to: Temporary,
    region: Temporary,
    count: Temporary,
    layout: &Rc<Layout>,
) -> Result<Due<'p>, AllocError>
    ensures { IfOk result (λ due. (ws : List Wait) →
        IsMove (Execute (core.Do (core.RegionAlloc to.0 region.0 count.0 (layout_tree layout.now.value)))) ws (known_of frame.old memory.old)
        (next_of due) ws (known_of frame.new memory.new)) }
{
    let Value::Birth(birth) = frame.temp(region) else {
        return Ok(Due::Wrong);
    };
    let Value::Word(count) = frame.temp(count) else {
        return Ok(Due::Wrong);
    };
    match memory.allocate(alloc, birth, layout, count)? {
        Some(place) => give(frame, to, Value::Pointer(place)),
        None => Ok(Due::Wrong),
    }
}

/// Gives a temporary a pointer to a new unique block, an element of a layout, in a region of its own.
pub fn allocate_unique<'p>(
    alloc: Global,
    frame: &mut Frame,
    memory: &mut Memory,
    to: Temporary,
    layout: &Rc<Layout>,
) -> Result<Due<'p>, AllocError>
    ensures { IfOk result (λ due. (ws : List Wait) →
        IsMove (Execute (core.Do (core.UniqueAlloc to.0 (layout_tree layout.now.value)))) ws (known_of frame.old memory.old)
        (next_of due) ws (known_of frame.new memory.new)) }
{
    let mut objects = Vec::new(alloc);
    let object = push_block(alloc, &mut objects, layout, 1)?;
    let birth = memory.make_region(alloc, Standing::Single, objects)?;
    keep_block(
        alloc,
        &mut memory.long_blocks,
        birth - 1,
        object,
        layout.as_ref(),
        1,
    )?;
    let place = Place {
        area: Area::Region(birth - 1),
        object,
        byte: 0,
        cell: 0,
    };
    give(frame, to, Value::Pointer(place))
}
