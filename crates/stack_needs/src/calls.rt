// Which functions each function calls.

ghost use Rattle.std.specs.Prelude.{◌≡◌, IfOk, map};
ghost use Rattle.cyc_tree.specs.View.{function_tree, program_tree};
ghost use Rattle.source_meaning.specs.Programs.{functions_of};
ghost use Rattle.source_meaning.specs.Callees.{items_callees};
ghost use Rattle.stack_needs.specs.Graph.{rows_of};
ghost use Rattle.stack_needs.specs.Numbers.{calls_among, numbers_among};
ghost use Rattle.tree_walk.specs.Listing.{name_of};

use crate::numbers::Functions;
use cyc_tree::{Function, Item};
use std::alloc::{AllocError, Global};
use tree_walk::{Callee, callees_of};

/// The numbers of the functions that are named.
fn numbers_among(
    alloc: Global,
    functions: &Functions<'_>,
    callees: &[Callee<'_>],
) -> Result<Vec<usize>, AllocError>
    ensures { IfOk result (λ found. found.items ≡ numbers_among (functions_of functions.now) (map name_of callees.now)) }
{
    let mut found = Vec::new(alloc);
    'each: for callee in callees {
        if let Some(number) = functions.number(callee.name) {
            found.push(number)?;
        }
    }
    Ok(found)
}

/// The numbers of the functions that a function calls.
fn calls_in(
    alloc: Global,
    functions: &Functions<'_>,
    function: &Function,
) -> Result<Vec<usize>, AllocError>
    ensures { IfOk result (λ found. found.items ≡ numbers_among (functions_of functions.now) (items_callees (function_tree function.now).body)) }
{
    let callees = callees_of(alloc, &function.body)?;
    let found = numbers_among(alloc, functions, callees.as_slice())?;
    Ok(found)
}

/// For each function of a program, the numbers of those that it calls. Fails only where no host memory is left.
pub(crate) fn calls_of(
    alloc: Global,
    functions: &Functions<'_>,
    items: &[Item],
) -> Result<Vec<Vec<usize>>, AllocError>
    ensures { IfOk result (λ calls. rows_of calls.items ≡ calls_among (functions_of functions.now) (functions_of (program_tree items.now))) }
{
    let mut calls = Vec::new(alloc);
    'each: for item in items {
        if let Item::Function(function) = item {
            calls.push(calls_in(alloc, functions, function)?)?;
        }
    }
    Ok(calls)
}
