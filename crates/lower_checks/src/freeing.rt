// Unique pointers and keys are freed.

ghost use Rattle.std.specs.Prelude.{◌∷◌, ◌++◌, []};
ghost use Rattle.cyc_tree.specs.View.{name_tree};
ghost use Rattle.core_meaning.specs.Core as core;
ghost use Rattle.source_lowering.specs.Lowered.{get_code};
ghost use Rattle.source_lowering.specs.Programs.{unique_free};
ghost use Rattle.lower_checks.specs.Room.{HasRoom};
ghost use Rattle.lower_checks.specs.Scoped.{names_in, world_in};
ghost use Rattle.lower_checks.specs.Writing.{Emits};

use crate::body::Body;
use crate::scope::Scope;
use crate::variable::lower_get;
use cyc_core::{Operation, Temporary};
use cyc_tree::Name;

/// Appends what frees the block of the unique pointer of a name, which comes into a temporary, if it isn't NULL.
pub fn lower_free(scope: &Scope<'_, '_>, pointer: &Name, body: &mut Body<'_>, to: Temporary)
    requires room { HasRoom to.0 2 }
    ensures { Emits body.old body.new (get_code (world_in scope.now) (names_in scope.now) (name_tree pointer.now).text to.0 ++ unique_free to.0) }
{
    lower_get(scope, body, &pointer.text, to);
    let outer = body.begin();
    body.operation(Operation::UniqueFree(to));
    let free = body.end(outer);
    body.branch(to, free, Vec::new(body.alloc));
}

/// Appends what frees the region of the key of a name, which comes into a temporary.
pub fn lower_free_key(scope: &Scope<'_, '_>, key: &Name, body: &mut Body<'_>, to: Temporary)
    requires room { HasRoom to.0 2 }
    ensures { let names = names_in scope.now in
        Emits body.old body.new (get_code (world_in scope.now) names (name_tree key.now).text to.0 ++ core.Do (core.KeyFree to.0) ∷ []) }
{
    lower_get(scope, body, &key.text, to);
    body.operation(Operation::KeyFree(to));
}
