// Expressions without expressions in them.

ghost use Rattle.std.specs.Prelude.{◌≡◌, true};
ghost use Rattle.cyc_tree.specs.View.{expression_tree};
ghost use Rattle.source_lowering.specs.Lowered.{expression_code, expression_values, static_shape};
ghost use Rattle.source_lowering.specs.Lowerable.{Takes};
ghost use Rattle.cyc_tree.specs.Room.{room};
ghost use Rattle.lower_checks.specs.Room.{HasRoom};
ghost use Rattle.lower_checks.specs.Scoped.{names_in, world_in};
ghost use Rattle.lower_checks.specs.Simple.{is_leaf};
ghost use Rattle.lower_checks.specs.Views.{shape_tree};
ghost use Rattle.lower_checks.specs.Writing.{IsSound, Writes, next_of};

use crate::body::Body;
use crate::scope::Scope;
use crate::shape::Shape;
use crate::shaped::number_shape;
use crate::text::lower_text;
use crate::variable::lower_get;
use cyc_core::{Operation, Temporary};
use cyc_tree::Expression;

/// Appends what leaves the value of an expression without expressions in it in a temporary, and gives the shape of its type.
pub fn lower_leaf<'p>(
    scope: &Scope<'_, 'p>,
    expression: &'p Expression,
    body: &mut Body<'p>,
    to: Temporary,
) -> Shape<'p>
    requires room { HasRoom to.0 (room (expression_tree expression.now)) }
    requires leaf { is_leaf (expression_tree expression.now) ≡ true }
    requires taken { IsSound body.old → Takes (world_in scope.now) (names_in scope.now) (expression_tree expression.now) }
    ensures writes { let w = world_in scope.now in
        let names = names_in scope.now in
        let e = expression_tree expression.entry.now in
        Writes body.old body.new (expression_code w names e to.0 (next_of body.old)) (expression_values w names e) }
    ensures shape { IsSound body.new →
        shape_tree result ≡ static_shape (world_in scope.now) (names_in scope.now) (expression_tree expression.entry.now) }
{
    match expression {
        Expression::Number(_, value, suffix) => {
            body.operation(Operation::Constant(to, *value));
            number_shape(*value, *suffix)
        }
        Expression::Character(_, byte) => {
            body.operation(Operation::Constant(to, u32::from(*byte)));
            Shape::Char
        }
        Expression::Text(at, _) => {
            lower_text(scope.program, body, *at, to);
            Shape::text()
        }
        Expression::Null(_) => {
            body.operation(Operation::NullPointer(to));
            Shape::null()
        }
        Expression::HeapRegion(_) => {
            body.operation(Operation::HeapHandle(to));
            Shape::Handle
        }
        Expression::Variable(name) => lower_get(scope, body, &name.text, to),
        Expression::UniqueRegion(_) => Shape::Void,
        _ => {
            body.never();
            Shape::Void
        }
    }
}
