// Arrays: subscripts, the count of elements, and strings.

ghost use Rattle.std.specs.Prelude.{◌≡◌, ◌&&◌, IfOk};
ghost use Rattle.cyc_types.specs.Types.{static_type};
ghost use Rattle.check_operators.specs.Values.{value_of};
ghost use Rattle.check_scopes.specs.Knows.{Sees};
ghost use Rattle.source_typing.specs.Operators.{counted, is_fat, string};
ghost use Rattle.source_typing.specs.Places.{indexed};
ghost use Rattle.source_typing.specs.Scope.{Env};
ghost use Rattle.source_typing.specs.Types.{is_integer};
ghost use Rattle.check_faults.specs.Verdicts.{short_of, shortened};

use crate::kind::is_fat;
use crate::prefix::contents;
use crate::value::{Value, fitting, plain, refused};
use check_faults::{FaultKind, Verdict};
use check_scopes::Scope;
use cyc_types::{BaseType, CType, Layer, MOST_BYTES, RegionId};
use std::alloc::{AllocError, Global};

/// A subscript of a pointer or an array, whose region has to be live, by an integer.
#[tactic(auto, using(crate::proofs::Indexing::indexed_is))]
pub fn indexed<'p>(scope: &Scope, operand: Value<'p>, index: &Value) -> Verdict<Value<'p>>
    ensures { (g : Env) → Sees scope.now g → short_of value_of result ≡ shortened (indexed g (value_of operand.entry) (value_of index.now)) }
{
    if index.of.is_integer() {
        contents(scope, operand.at, operand)
    } else {
        refused(FaultKind::Typing, operand.at)
    }
}

/// `numelts`: a fat pointer.
pub fn counted<'p>(alloc: Global, at: u32, operand: &Value) -> Verdict<Value<'p>>
    ensures { short_of value_of result ≡ shortened (counted at (value_of operand.now)) }
{
    fitting(
        is_fat(&operand.of),
        at,
        CType::plain(alloc, BaseType::Unsigned),
    )
}

/// A string of these bytes: a fat pointer to them and a final 0.
pub fn string<'p>(alloc: Global, at: u32, bytes: &[u8]) -> Result<Verdict<Value<'p>>, AllocError>
    ensures { IfOk result (λ v. short_of value_of v ≡ shortened (string at bytes.now)) }
{
    if bytes.len() < MOST_BYTES as usize {
        let character = CType::plain(alloc, BaseType::Char);
        Ok(plain(at, character.under(Layer::Fat(RegionId::Heap))?))
    } else {
        Ok(refused(FaultKind::Size, at))
    }
}
