// Where calls stand, and what functions are called.

ghost use Rattle.std.specs.Prelude.{◌≡◌, IfOk, map};
ghost use Rattle.cyc_tree.specs.View.{function_tree, program_tree};
ghost use Rattle.source_meaning.specs.Programs.{functions_of};

use crate::numbers::Functions;
use cyc_tree::{Function, Item};
use std::alloc::{AllocError, Global};
use tree_walk::{Callee, callees_of};

/// A function's name.
fn name_of(function: &Function) -> Result<Vec<u8>, AllocError>
    ensures { IfOk result (λ name. name.items ≡ (function_tree function.now).name.text) }
{
    function.name.text.clone()
}

/// The names of a program's functions, in the order of the text. Fails only where no host memory is left.
pub fn function_names(alloc: Global, items: &[Item]) -> Result<Vec<Vec<u8>>, AllocError>
    ensures { IfOk result (λ names. map (λ name. name.items) names.items ≡ map (λ f. f.name) (functions_of (program_tree items.now))) }
{
    let mut names = Vec::new(alloc);
    'each: for item in items {
        if let Item::Function(function) = item {
            names.push(name_of(function)?)?;
        }
    }
    Ok(names)
}

/// The function of a number, if there is one.
fn function_at(items: &[Item], number: usize) -> Option<&Function> {
    let mut before = 0;
    for item in items {
        if let Item::Function(function) = item {
            if before == number {
                return Some(function);
            }
            before = before.saturating_add(1);
        }
    }
    None
}

/// The offset of the first of these that names the function of a number.
fn site_among(functions: &Functions<'_>, callees: &[Callee<'_>], number: usize) -> Option<u32> {
    for callee in callees {
        if functions.number(callee.name) == Some(number) {
            return Some(callee.at);
        }
    }
    None
}

/// The offset in the text of the name in the first call by which one function, by its number, calls another one; None where it doesn't. Fails only where no
/// host memory is left.
pub fn call_site(
    alloc: Global,
    items: &[Item],
    caller: usize,
    called: usize,
) -> Result<Option<u32>, AllocError> {
    let Some(function) = function_at(items, caller) else {
        return Ok(None);
    };
    let functions = Functions::of(alloc, items)?;
    let callees = callees_of(alloc, &function.body)?;
    Ok(site_among(&functions, &callees, called))
}
