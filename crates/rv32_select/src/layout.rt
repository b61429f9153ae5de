// Where the temporary objects of functions, the locals of blocks and the globals lie.

ghost use Rattle.std.specs.Prelude.{◌≡◌, ◌+◌, ◌*◌, ◌<◌, ◌^◌, [], ◌∷◌, ◌++◌, IfOk, OnOk, drop, map, length};
ghost use Rattle.core_meaning.specs.Core as core;
ghost use Rattle.core_lines.specs.Homes.{saved_slot};
ghost use Rattle.core_lines.specs.Selected as selected;
ghost use Rattle.core_lines.specs.Selected.{rounded, offsets_from, end_from, greater, highest, highest_of, datum_local, datum_locals};
ghost use Rattle.core_lines.specs.Selected.{shrink, shrunk, shrunk_in, shrunk_of, names_after, names_after_all};
ghost use Rattle.cyc_core.specs.Trees.{local_tree, datum_tree, statement_tree, body_tree, function_tree};

use crate::flags::behind;
use crate::homes::{home_at, named_behind};
use cyc_core::{Datum, Function, Layout, Local, Statement};
use rv32_isa::Register;
use std::alloc::{AllocError, Global};

/// The bytes of this number of elements of a layout.
fn whole_bytes(layout: &Layout, count: u32) -> u64
    ensures { result ≡ count * layout.now.bytes }
{
    u64::from(count) * u64::from(layout.bytes)
}

/// The bytes of a local.
fn local_bytes(local: &Local) -> u64
    ensures { result ≡ selected.bytes_of (local_tree local.now) }
{
    match local {
        Local::Scalar(cell) => u64::from(cell.bytes()),
        Local::Whole(layout, count) => whole_bytes(layout.as_ref(), *count),
    }
}

/// The bytes of a global or a string.
fn datum_bytes(global: &Datum) -> u64
    ensures { result ≡ selected.bytes_of (datum_local (datum_tree global.now)) }
{
    match global {
        Datum::Byte(_) => 1,
        Datum::Word(_) | Datum::Null | Datum::Address(_) => 4,
        Datum::Text(bytes) => bytes.len() as u64 + 1,
        Datum::Bounds(_, _) => 12,
        Datum::Whole(layout, count) => whole_bytes(layout.as_ref(), *count),
    }
}

/// The sum of two numbers of bytes, slots or labels. Fails where that is over the greatest u64: no host's memory has that many.
pub fn sum(first: u64, second: u64) -> Result<u64, AllocError>
    ensures { IfOk result (λ n. n ≡ first + second) }
{
    match first.checked_add(second) {
        Some(sum) => Ok(sum),
        None => Err(AllocError),
    }
}

/// Up to the next multiple of 4.
fn rounded(offset: u64) -> Result<u64, AllocError>
    ensures { IfOk result (λ n. n ≡ rounded offset) }
{
    Ok(sum(offset, 3)? / 4 * 4)
}

/// The bytes that a local takes of a frame: none where it has a home.
#[tactic(auto, using(crate::proofs::Shrinking::bytes_without, crate::proofs::Shrinking::bytes_with))]
fn frame_bytes_of(home: Register, local: &Local) -> u64
    ensures { result ≡ selected.bytes_of (shrink home (local_tree local.now)) }
{
    if home.number() == 0 {
        local_bytes(local)
    } else {
        0
    }
}

/// Where locals with these homes end that lie one behind the other from an offset on, each at a multiple of 4.
pub fn end_from(low: u64, locals: &[Local], homes: &[Register]) -> Result<u64, AllocError>
    ensures { IfOk result (λ n. n ≡ end_from low (shrunk (map local_tree locals.now) homes.now)) }
{
    let mut at = low;
    'each: for (index, local) in locals.iter().enumerate() {
        at = sum(rounded(at)?, frame_bytes_of(home_at(homes, index), local))?;
    }
    Ok(at)
}

/// Appends where an object of this number of bytes begins that lies behind an offset. Answers where it ends.
fn lay(offsets: &mut Vec<u64>, at: u64, bytes: u64) -> Result<u64, AllocError>
    ensures begin { OnOk result (offsets.new.items ≡ offsets.old.items ++ rounded at ∷ []) }
    ensures end { IfOk result (λ n. n ≡ rounded at + bytes) }
{
    let offset = rounded(at)?;
    offsets.push(offset)?;
    sum(offset, bytes)
}

/// Where each of these locals with these homes begins.
pub fn offsets_from(
    alloc: Global,
    low: u64,
    locals: &[Local],
    homes: &[Register],
) -> Result<Vec<u64>, AllocError>
    ensures { IfOk result (λ offsets. offsets.items ≡ offsets_from low (shrunk (map local_tree locals.now) homes.now)) }
{
    let mut offsets = Vec::new(alloc);
    let mut at = low;
    'each: for (index, local) in locals.iter().enumerate() {
        at = lay(
            &mut offsets,
            at,
            frame_bytes_of(home_at(homes, index), local),
        )?;
    }
    Ok(offsets)
}

/// Where each global and string begins, from the first byte of the data on.
pub fn statics(alloc: Global, globals: &[Datum]) -> Result<Vec<u64>, AllocError>
    ensures { IfOk result (λ offsets. offsets.items ≡ offsets_from 0 (datum_locals (map datum_tree globals.now))) }
{
    let mut offsets = Vec::new(alloc);
    let mut at = 0;
    'each: for global in globals {
        at = lay(&mut offsets, at, datum_bytes(global))?;
    }
    Ok(offsets)
}

/// The greater of two offsets.
fn greater(first: u64, second: u64) -> u64
    ensures { result ≡ greater first second }
{
    if first <= second { second } else { first }
}

/// How high the locals of all blocks of a statement reach that begins at an offset, of a function whose locals have these homes. `named` says how
/// many of them are named before it, and then before what comes behind it.
#[cycle(highest)]
fn highest(
    low: u64,
    homes: &[Register],
    named: &mut usize,
    statement: &Statement,
) -> Result<u64, AllocError>
    ensures most { IfOk result (λ n. n ≡ highest low (shrunk_in (drop named.old homes.now) (statement_tree statement.now))) }
    ensures names { OnOk result (drop named.new homes.now ≡ names_after (statement_tree statement.now) (drop named.old homes.now)) }
{
    match statement {
        Statement::Check(..) => Ok(low),
        Statement::If(_, both) | Statement::While(_, both) => {
            let first = highest_of(low, homes, named, &both.0)?;
            let second = highest_of(low, homes, named, &both.1)?;
            Ok(greater(first, second))
        }
        Statement::Block(block) => highest_in(low, homes, named, &block.0, &block.1),
        Statement::Leave(body) => highest_of(low, homes, named, body),
        _ => Ok(low),
    }
}

/// The same of a block with these locals.
#[cycle(highest)]
fn highest_in(
    low: u64,
    homes: &[Register],
    named: &mut usize,
    locals: &[Local],
    body: &[Statement],
) -> Result<u64, AllocError>
    ensures most { IfOk result (λ n. n ≡ highest low (shrunk_in (drop named.old homes.now) (core.Block (map local_tree locals.now) (body_tree body.now)))) }
    ensures names { OnOk result (drop named.new homes.now
        ≡ names_after (core.Block (map local_tree locals.now) (body_tree body.now)) (drop named.old homes.now)) }
{
    let end = end_from(low, locals, behind(homes, *named))?;
    let inner = named_behind(*named, locals)?;
    *named = inner;
    highest_of(end, homes, named, body)
}

/// The same of statements, one after the other.
#[cycle(highest)]
#[tactic(auto, using(crate::proofs::Greatest::greater_joined, crate::proofs::Greatest::nothing_below))]
pub fn highest_of(
    low: u64,
    homes: &[Register],
    named: &mut usize,
    statements: &[Statement],
) -> Result<u64, AllocError>
    ensures most { IfOk result (λ n. n ≡ highest_of low (shrunk_of (drop named.old homes.now) (body_tree statements.now))) }
    ensures names { OnOk result (drop named.new homes.now ≡ names_after_all (body_tree statements.now) (drop named.old homes.now)) }
{
    let mut most = 0;
    'each: for statement in statements {
        most = greater(most, highest(low, homes, named, statement)?);
    }
    Ok(greater(most, low))
}

/// The first slot behind a function's temporaries, where it keeps the registers that it saves.
pub fn saved_slot(function: &Function) -> u64
    ensures slot { result ≡ saved_slot (function_tree function.now) }
    ensures small { result < 2 ^ 60 }
{
    let (passed, temporaries) = (function.passed, function.temporaries);
    1 + u64::from(passed) + u64::from(temporaries)
}
