// Statements without statements in them.

ghost use Rattle.std.specs.Prelude.{◌≡◌, true};
ghost use Rattle.cyc_tree.specs.View.{statement_tree as source_tree};
ghost use Rattle.source_lowering.specs.Programs.{statement_code, statement_values};
ghost use Rattle.source_lowering.specs.Lowerable.{TakesStatement};
ghost use Rattle.cyc_tree.specs.Room.{statement_room};
ghost use Rattle.lower_checks.specs.Room.{HasRoom};
ghost use Rattle.lower_checks.specs.Scoped.{names_in, world_in};
ghost use Rattle.lower_checks.specs.Simple.{is_simple};
ghost use Rattle.lower_checks.specs.Views.{regions_tree, shape_tree};
ghost use Rattle.lower_checks.specs.Writing.{IsSound, Writes, next_of};

use crate::assigned::lower_run;
use crate::body::Body;
use crate::exchange::lower_exchange;
use crate::freeing::{lower_free, lower_free_key};
use crate::leaving::{RegionsAround, lower_left, lower_return};
use crate::scope::Scope;
use crate::shape::Shape;
use cyc_core::{Origin, Statement};
use cyc_tree::Statement as Source;

/// Appends what a statement without statements in it does, in a function with a result of this shape, among regions; appends the shapes of
/// the temporary objects.
fn lower_plain<'p>(
    scope: &Scope<'_, 'p>,
    shape: &Shape<'_>,
    statement: &'p Source,
    body: &mut Body<'p>,
    around: RegionsAround,
    opened: &[bool],
)
    requires room { HasRoom around.all (statement_room (source_tree statement.now)) }
    requires simple { is_simple (source_tree statement.now) ≡ true }
    requires taken { IsSound body.old → TakesStatement (world_in scope.now) (shape_tree shape.now) (names_in scope.now) (source_tree statement.now) }
    ensures { let w = world_in scope.now in
        let names = names_in scope.now in
        let s = source_tree statement.entry.now in
        Writes body.old body.new (statement_code w (shape_tree shape.now) names (regions_tree around opened.now) (next_of body.old) s)
        (statement_values w names s) }
{
    let to = around.value();
    match statement {
        Source::Empty(_) => {}
        Source::Run(value) => lower_run(scope, value, body, to),
        Source::Break(at) => lower_left(
            body,
            around,
            opened,
            around.broken,
            Statement::Break(Origin(*at)),
        ),
        Source::Continue(at) => lower_left(
            body,
            around,
            opened,
            around.continued,
            Statement::Continue(Origin(*at)),
        ),
        Source::Return(at, None) => lower_left(
            body,
            around,
            opened,
            around.all,
            Statement::Return(None, Origin(*at)),
        ),
        Source::Return(_, Some(value)) => lower_return(scope, shape, value, body, around, opened),
        Source::Exchange(left, right) => lower_exchange(scope, left, right, body, to),
        Source::FreeUnique(_, pointer) => lower_free(scope, pointer, body, to),
        Source::FreeKey(_, key) => lower_free_key(scope, key, body, to),
        Source::Block(_, _)
        | Source::If(_, _, _)
        | Source::IfElse(_, _, _, _)
        | Source::While(_, _, _)
        | Source::Switch(_, _, _) => unreachable!(),
    }
}

/// The same, of operations that stand where the statement does.
pub fn lower_simple<'p>(
    scope: &Scope<'_, 'p>,
    shape: &Shape<'_>,
    statement: &'p Source,
    body: &mut Body<'p>,
    around: RegionsAround,
    opened: &[bool],
)
    requires room { HasRoom around.all (statement_room (source_tree statement.now)) }
    requires simple { is_simple (source_tree statement.now) ≡ true }
    requires taken { IsSound body.old → TakesStatement (world_in scope.now) (shape_tree shape.now) (names_in scope.now) (source_tree statement.now) }
    ensures { let w = world_in scope.now in
        let names = names_in scope.now in
        let s = source_tree statement.entry.now in
        Writes body.old body.new (statement_code w (shape_tree shape.now) names (regions_tree around opened.now) (next_of body.old) s)
        (statement_values w names s) }
{
    body.go_to(Origin(statement.place()));
    lower_plain(scope, shape, statement, body, around, opened);
}
