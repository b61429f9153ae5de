// What each operation does to what is known.

ghost use Rattle.std.specs.Prelude.{◌≡◌, ℕ, List, IfOk, OnOk};
ghost use Rattle.core_meaning.specs.Core as core;
ghost use Rattle.core_meaning.specs.Steps.{Falls};
ghost use Rattle.cyc_core.specs.Trees.{binary_tree, bytes_of, distance_tree, operation_tree};
ghost use Rattle.core_eval.specs.declared.memory.Memory.{Memory as TheMemory};
ghost use Rattle.core_eval.specs.Values.{content_of};
ghost use Rattle.core_eval.specs.Pendings.{Execute, Go, Leave, Wait, next_of};
ghost use Rattle.core_eval.specs.Standing.{Gives, known_of};
ghost use Rattle.core_eval.specs.Costs.{IsMove};

use crate::arithmetic::{apply, truth};
use crate::frame::Frame;
use crate::memory::Memory;
use crate::pending::{Due, Flow, Now};
use crate::pointer::{is_null, lead_on, same_place};
use crate::request::{
    close_key, free_key, free_region, free_unique, make_key, make_region, open_key,
};
use crate::value::{Area, Part, Place, Value, further, is_kept, value_of};
use cyc_core::{Binary, Distance, Operation, Temporary, Variable, Width};
use std::alloc::{AllocError, Global};

/// Gives a temporary a value, which is all that the operation does. Fails only where no host memory is left.
pub fn give<'p>(frame: &mut Frame, to: Temporary, value: Value) -> Result<Due<'p>, AllocError>
    ensures next { IfOk result (λ due. next_of due ≡ Go (Leave Falls)) }
    ensures gives { OnOk result (Gives to.0 (content_of value) frame.old.temps.items frame.new.temps.items) }
    ensures base { OnOk result (frame.new.base ≡ frame.old.base) }
{
    frame.set_temp(to, value)?;
    Ok(Due::Go(Now::Leave(Flow::Falls)))
}

/// Gives a temporary the lowest byte of another one's word.
fn narrow<'p>(frame: &mut Frame, to: Temporary, from: Temporary) -> Result<Due<'p>, AllocError>
    ensures { IfOk result (λ due. (ws : List Wait) (memory : TheMemory) →
        IsMove (Execute (core.Do (core.Narrow to.0 from.0))) ws (known_of frame.old memory) (next_of due) ws (known_of frame.new memory)) }
{
    match frame.temp(from) {
        Value::Word(word) => give(frame, to, Value::Word(word % 256)),
        _ => Ok(Due::Wrong),
    }
}

/// Gives a temporary an operation's result on two other ones' words.
fn compute<'p>(
    frame: &mut Frame,
    operation: Binary,
    to: Temporary,
    left: Temporary,
    right: Temporary,
) -> Result<Due<'p>, AllocError>
    ensures { IfOk result (λ due. (ws : List Wait) (memory : TheMemory) →
        IsMove (Execute (core.Do (core.Apply (binary_tree operation) to.0 left.0 right.0))) ws (known_of frame.old memory) (next_of due) ws
        (known_of frame.new memory)) }
{
    let Value::Word(x) = frame.temp(left) else {
        return Ok(Due::Wrong);
    };
    let Value::Word(y) = frame.temp(right) else {
        return Ok(Due::Wrong);
    };
    give(frame, to, Value::Word(apply(operation, x, y)))
}

/// Gives a temporary a pointer to a global.
fn global_address<'p>(
    frame: &mut Frame,
    to: Temporary,
    object: usize,
) -> Result<Due<'p>, AllocError>
    ensures { IfOk result (λ due. (ws : List Wait) (memory : TheMemory) →
        IsMove (Execute (core.Do (core.DataAddress to.0 object))) ws (known_of frame.old memory) (next_of due) ws (known_of frame.new memory)) }
{
    let place = Place {
        area: Area::Globals,
        object,
        byte: 0,
        cell: 0,
    };
    give(frame, to, Value::Pointer(place))
}

/// Gives a temporary a pointer to a local.
fn address<'p>(
    frame: &mut Frame,
    memory: &Memory,
    to: Temporary,
    of: Variable,
) -> Result<Due<'p>, AllocError>
    ensures { IfOk result (λ due. (ws : List Wait) →
        IsMove (Execute (core.Do (core.LocalAddress to.0 of.out of.index))) ws (known_of frame.old memory.now) (next_of due) ws
        (known_of frame.new memory.now)) }
{
    match memory.address(frame.base, of) {
        Some(place) => give(frame, to, place),
        None => Ok(Due::Wrong),
    }
}

/// Gives a temporary a pointer to a temporary object of its function.
fn own_address<'p>(
    frame: &mut Frame,
    memory: &Memory,
    to: Temporary,
    object: usize,
) -> Result<Due<'p>, AllocError>
    ensures { IfOk result (λ due. (ws : List Wait) →
        IsMove (Execute (core.Do (core.OwnAddress to.0 object))) ws (known_of frame.old memory.now) (next_of due) ws (known_of frame.new memory.now)) }
{
    match memory.own_address(object) {
        Some(place) => give(frame, to, place),
        None => Ok(Due::Wrong),
    }
}

/// Gives a temporary what a local holds.
fn get<'p>(
    frame: &mut Frame,
    memory: &Memory,
    to: Temporary,
    from: Variable,
    width: Width,
) -> Result<Due<'p>, AllocError>
    ensures { IfOk result (λ due. (ws : List Wait) →
        IsMove (Execute (core.Do (core.Get to.0 from.out from.index (bytes_of width)))) ws (known_of frame.old memory.now) (next_of due) ws
        (known_of frame.new memory.now)) }
{
    match memory.local(frame.base, from, width) {
        Some(value) => give(frame, to, value),
        None => Ok(Due::Wrong),
    }
}

/// Stores what a temporary holds to a local. Fails only where no host memory is left, or that is a pointer or a handle, and would be a tag.
fn put<'p>(
    frame: &Frame,
    memory: &mut Memory,
    to: Variable,
    width: Width,
    from: Temporary,
) -> Result<Due<'p>, AllocError>
    ensures { IfOk result (λ due. (ws : List Wait) →
        IsMove (Execute (core.Do (core.Put to.out to.index (bytes_of width) from.0))) ws (known_of frame.now memory.old) (next_of due) ws
        (known_of frame.now memory.new)) }
{
    let value = frame.temp(from);
    let is_put = memory.set_local(frame.base, to, width, value)?;
    if is_put {
        return Ok(Due::Go(Now::Leave(Flow::Falls)));
    }
    match memory.local(frame.base, to, width) {
        Some(_) => Err(AllocError),
        None => Ok(Due::Wrong),
    }
}

/// Gives a temporary a pointer that leads these numbers of cells and bytes further than another one's.
fn offset<'p>(
    frame: &mut Frame,
    memory: &Memory,
    to: Temporary,
    from: Temporary,
    cells: u32,
    bytes: u32,
) -> Result<Due<'p>, AllocError>
    ensures { IfOk result (λ due. (ws : List Wait) →
        IsMove (Execute (core.Do (core.Offset to.0 from.0 cells bytes))) ws (known_of frame.old memory.now) (next_of due) ws
        (known_of frame.new memory.now)) }
{
    let Value::Pointer(place) = frame.temp(from) else {
        return Ok(Due::Wrong);
    };
    match lead_on(memory, place, u64::from(cells), u64::from(bytes))? {
        Some(there) => give(frame, to, Value::Pointer(there)),
        None => Ok(Due::Wrong),
    }
}

/// Gives a temporary a pointer to an element of these numbers of cells and bytes, from the one on to which another one's pointer leads: to that which a
/// third one's word says.
fn element<'p>(
    frame: &mut Frame,
    memory: &Memory,
    to: Temporary,
    from: Temporary,
    index: Temporary,
    cells: u32,
    bytes: u32,
) -> Result<Due<'p>, AllocError>
    ensures { IfOk result (λ due. (ws : List Wait) →
        IsMove (Execute (core.Do (core.Element to.0 from.0 index.0 cells bytes))) ws (known_of frame.old memory.now) (next_of due) ws
        (known_of frame.new memory.now)) }
{
    let Value::Pointer(place) = frame.temp(from) else {
        return Ok(Due::Wrong);
    };
    let Value::Word(count) = frame.temp(index) else {
        return Ok(Due::Wrong);
    };
    let cells = u64::from(count) * u64::from(cells);
    let bytes = u64::from(count) * u64::from(bytes);
    match lead_on(memory, place, cells, bytes)? {
        Some(there) => give(frame, to, Value::Pointer(there)),
        None => Ok(Due::Wrong),
    }
}

/// Gives a temporary the part at a distance from where another one points. Fails only where no host memory is left, there would be a cell
/// with a number over 2^64 - 1 or a byte behind that, or the part is a byte behind the first part of its cell, of which nothing is kept.
fn load<'p>(
    frame: &mut Frame,
    memory: &Memory,
    to: Temporary,
    place: Temporary,
    distance: Distance,
) -> Result<Due<'p>, AllocError>
    ensures { IfOk result (λ due. (ws : List Wait) →
        IsMove (Execute (core.Do (core.Load to.0 place.0 (distance_tree distance)))) ws (known_of frame.old memory.now) (next_of due) ws
        (known_of frame.new memory.now)) }
{
    let Value::Pointer(place) = frame.temp(place) else {
        return Ok(Due::Wrong);
    };
    if !is_kept(distance.part, distance.width) {
        return Err(AllocError);
    }
    let cell = further(place.cell, distance.cells)?;
    let byte = further(place.byte, distance.bytes)?;
    match value_of(
        memory.slot(place.area, place.object, cell),
        byte,
        distance.part,
        distance.width,
    ) {
        Some(value) => give(frame, to, value),
        None => Ok(Due::Wrong),
    }
}

/// Stores what a temporary holds to the part at a distance from where another one points. Fails only where no host memory is left, there
/// would be a cell with a number over 2^64 - 1, the part is a byte behind the first part of its cell, of which nothing is kept, or it is a
/// count, an index or a tag and would get a pointer or a handle.
fn store<'p>(
    frame: &Frame,
    memory: &mut Memory,
    place: Temporary,
    distance: Distance,
    from: Temporary,
) -> Result<Due<'p>, AllocError>
    ensures { IfOk result (λ due. (ws : List Wait) →
        IsMove (Execute (core.Do (core.Store place.0 (distance_tree distance) from.0))) ws (known_of frame.now memory.old) (next_of due) ws
        (known_of frame.now memory.new)) }
{
    let value = frame.temp(from);
    let Value::Pointer(place) = frame.temp(place) else {
        return Ok(Due::Wrong);
    };
    if !is_kept(distance.part, distance.width) {
        return Err(AllocError);
    }
    let cell = further(place.cell, distance.cells)?;
    let byte = further(place.byte, distance.bytes)?;
    let part = Part {
        cell,
        byte,
        number: distance.part,
        width: distance.width,
    };
    let is_put = memory.put_to(place, part, value)?;
    if is_put {
        return Ok(Due::Go(Now::Leave(Flow::Falls)));
    }
    match value_of(
        memory.slot(place.area, place.object, cell),
        byte,
        distance.part,
        distance.width,
    ) {
        Some(_) => Err(AllocError),
        None => Ok(Due::Wrong),
    }
}

/// Gives a temporary whether another one holds NULL.
fn test_null<'p>(frame: &mut Frame, to: Temporary, from: Temporary) -> Result<Due<'p>, AllocError>
    ensures { IfOk result (λ due. (ws : List Wait) (memory : TheMemory) →
        IsMove (Execute (core.Do (core.IsNull to.0 from.0))) ws (known_of frame.old memory) (next_of due) ws (known_of frame.new memory)) }
{
    match is_null(frame.temp(from)) {
        Some(is_null) => give(frame, to, Value::Word(truth(is_null))),
        None => Ok(Due::Wrong),
    }
}

/// Gives a temporary whether two others hold the same pointer.
fn test_same<'p>(
    frame: &mut Frame,
    memory: &Memory,
    to: Temporary,
    left: Temporary,
    right: Temporary,
) -> Result<Due<'p>, AllocError>
    ensures { IfOk result (λ due. (ws : List Wait) →
        IsMove (Execute (core.Do (core.SamePlace to.0 left.0 right.0))) ws (known_of frame.old memory.now) (next_of due) ws
        (known_of frame.new memory.now)) }
{
    let (first, second) = (frame.temp(left), frame.temp(right));
    match same_place(memory, first, second) {
        Some(is_same) => give(frame, to, Value::Word(truth(is_same))),
        None => Ok(Due::Wrong),
    }
}

/// A unit is due for a byte that is written: the lowest one of a temporary's word.
fn putchar<'p>(frame: &Frame, to: Temporary, from: Temporary) -> Due<'p>
    ensures { (ws : List Wait) (memory : TheMemory) →
        IsMove (Execute (core.Do (core.Putchar to.0 from.0))) ws (known_of frame.now memory) (next_of result) ws (known_of frame.now memory) }
{
    match frame.temp(from) {
        Value::Word(word) => Due::Putchar(to, (word % 256) as u8),
        _ => Due::Wrong,
    }
}

/// The move of an operation. Fails only where no host memory is left, over 2^64 - 1 cells or bytes would lie before a place, a pointer would lead
/// 2^25 bytes or further into an object of a block or a function that is left, or a part is read or stored of which nothing is kept.
pub fn operate<'p>(
    alloc: Global,
    operation: Operation,
    frame: &mut Frame,
    memory: &mut Memory,
) -> Result<Due<'p>, AllocError>
    ensures { IfOk result (λ due. (ws : List Wait) →
        IsMove (Execute (core.Do (operation_tree operation))) ws (known_of frame.old memory.old) (next_of due) ws
        (known_of frame.new memory.new)) }
{
    match operation {
        Operation::Constant(to, word) => give(frame, to, Value::Word(word)),
        Operation::NullPointer(to) => give(frame, to, Value::Null),
        Operation::Move(to, from) => {
            let value = frame.temp(from);
            give(frame, to, value)
        }
        Operation::Narrow(to, from) => narrow(frame, to, from),
        Operation::Apply(operation, to, left, right) => compute(frame, operation, to, left, right),
        Operation::LocalAddress(to, of) => address(frame, memory, to, of),
        Operation::OwnAddress(to, object) => own_address(frame, memory, to, object),
        Operation::DataAddress(to, object) => global_address(frame, to, object),
        Operation::Offset(to, from, cells, bytes) => {
            offset(frame, memory, to, from, cells, bytes)
        }
        Operation::Element(to, from, index, cells, bytes) => {
            element(frame, memory, to, from, index, cells, bytes)
        }
        Operation::Get(width, to, from) => get(frame, memory, to, from, width),
        Operation::Put(width, from, to) => put(frame, memory, to, width, from),
        Operation::Load(to, place, distance) => load(frame, memory, to, place, distance),
        Operation::Store(place, distance, from) => store(frame, memory, place, distance, from),
        Operation::IsNull(to, from) => test_null(frame, to, from),
        Operation::SamePlace(to, left, right) => test_same(frame, memory, to, left, right),
        Operation::Getchar(to) => Ok(Due::Getchar(to)),
        Operation::Putchar(to, from) => Ok(putchar(frame, to, from)),
        Operation::HeapHandle(to) => give(frame, to, Value::Birth(0)),
        Operation::RegionNew(to) => make_region(alloc, frame, memory, to),
        Operation::RegionFree(region) => Ok(free_region(frame, memory, region)),
        Operation::UniqueFree(place) => Ok(free_unique(frame, memory, place)),
        Operation::KeyNew(to) => make_key(alloc, frame, memory, to),
        Operation::KeyOpen(key) => Ok(open_key(frame, memory, key)),
        Operation::KeyClose(key) => Ok(close_key(frame, memory, key)),
        Operation::KeyFree(key) => Ok(free_key(frame, memory, key)),
    }
}
