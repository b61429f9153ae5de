// What is in scope where a function's body begins.

ghost use Rattle.std.specs.Prelude.{◌≡◌, IfOk, [], ℕ};
ghost use Rattle.cyc_tree.specs.Tree as tree;
ghost use Rattle.source_typing.specs.Functions.{function_scope};
ghost use Rattle.source_typing.specs.Functions as rules;
ghost use Rattle.source_typing.specs.Tables as known;
ghost use Rattle.check_scopes.specs.Knows.{Knows};
ghost use Rattle.check_heads.specs.Bodies.{KnowsNames};
ghost use Rattle.check_heads.specs.Heads.{IsHead};

use crate::head::Head;
use check_regions::RegionScope;
use check_scopes::{Globals, Locals, Scope};
use check_types::TagNames;
use cyc_types::Tables;
use std::alloc::{AllocError, Global};

/// What the names of a program mean: as values, and where the tag of a struct or union is wanted.
#[derive(Clone, Copy)]
pub struct Names<'g, 'p> {
    pub globals: &'g Globals<'p>,
    pub tags: &'g TagNames<'p>,
    /// The structs and unions.
    pub tables: &'g Tables<'p>,
}

/// What is in scope where a function's body begins, without its parameters.
pub fn entered<'g, 'p>(
    alloc: Global,
    names: Names<'g, 'p>,
    lenient: bool,
    head: &Head<'p>,
) -> Result<Scope<'g, 'p>, AllocError>
    ensures known { (g : known.Tables) (i : ℕ) (f : tree.Function) (h : rules.Head) → KnowsNames names.entry g → IsHead head.now f h
        → IfOk result (λ s. Knows s (function_scope lenient g i h)) }
    ensures alone { IfOk result (λ s. s.locals ≡ []) }
{
    let mut regions = RegionScope::of_function(
        alloc,
        head.variables.count(),
        head.effect.as_slice(),
        head.bounds.as_slice(),
    )?;
    regions.begin_block()?;
    Ok(Scope {
        globals: names.globals,
        tables: names.tables,
        locals: Locals::new(alloc),
        regions,
        lenient,
    })
}
