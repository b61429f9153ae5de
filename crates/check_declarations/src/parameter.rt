// Parameters as locals of the body's block.

ghost use Rattle.std.specs.Prelude.{◌≡◌, IfOk, List, OnOk};
ghost use Rattle.cyc_tree.specs.Tree as tree;
ghost use Rattle.cyc_types.specs.Regions.{region_of};
ghost use Rattle.source_typing.specs.Functions.{what_of_known};
ghost use Rattle.source_typing.specs.Scope.{Env, with_local};
ghost use Rattle.source_typing.specs.Written.{RegionNamed};
ghost use Rattle.check_scopes.specs.Matching.{AreLocals};
ghost use Rattle.check_scopes.specs.Means.{WhatIs};
ghost use Rattle.check_declarations.specs.Contexts.{StandsIn};
ghost use Rattle.check_heads.specs.Heads.{known_static};

use crate::context::Context;
use check_faults::Verdict;
use check_heads::{Parameter, known_type};
use check_scopes::{Scope, What};
use cyc_types::{CType, RegionId};
use std::alloc::AllocError;

/// What a parameter of a type is as a local of the block with this stack region.
fn local_of<'p>(frame: RegionId, of: &Verdict<CType<'p>>) -> Result<What<'p>, AllocError>
    ensures { IfOk result (λ w. WhatIs (what_of_known (region_of frame) (known_static of.now)) w) }
{
    match known_type(of) {
        Some(of) => Ok(What::Variable(of.try_clone()?, frame)),
        None => Ok(What::Untyped),
    }
}

/// Declares a parameter in the body's block; a second one of a name leaves the first.
pub fn declare_parameter<'p>(
    scope: &mut Scope<'_, 'p>,
    context: Context<'_, 'p>,
    parameter: &Parameter<'p>,
) -> Result<(), AllocError>
    ensures stands { (ns : List RegionNamed) (g : Env) (x : tree.Name) → x.text ≡ parameter.now.name.now → StandsIn context.entry ns 0 scope.old g
        → OnOk result (StandsIn context.entry ns 0 scope.new (with_local x (what_of_known g.frame (known_static parameter.now.of)) g)) }
    ensures locals { (ns : List RegionNamed) (g : Env) (x : tree.Name) → x.text ≡ parameter.now.name.now → StandsIn context.entry ns 0 scope.old g
        → AreLocals scope.old.locals g.locals
        → OnOk result (AreLocals scope.new.locals (with_local x (what_of_known g.frame (known_static parameter.now.of)) g).locals) }
{
    if scope.locals.is_second(0, parameter.name) {
        return Ok(());
    }
    let what = local_of(context.frame, &parameter.of)?;
    scope.locals.declare(parameter.name, what)?;
    Ok(())
}
