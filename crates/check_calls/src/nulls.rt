// Calls all of whose arguments are `NULL`. None of them instantiates a region variable, so all variables become one region, however many they are.

ghost use Rattle.std.specs.Prelude.{◌≡◌, ◌&&◌, IfOk, IfSome, List, [], map, option_map, true};
ghost use Rattle.cyc_types.specs.Bases.{base_type};
ghost use Rattle.cyc_types.specs.Types.{static_type};
ghost use Rattle.check_operators.specs.Values.{value_of};
ghost use Rattle.check_scopes.specs.Knows.{Sees};
ghost use Rattle.check_scopes.specs.Means.{signature_of};
ghost use Rattle.source_typing.specs.Calls.{ToFunction, called};
ghost use Rattle.source_typing.specs.Regions.{Region};
ghost use Rattle.source_typing.specs.Scope.{Env};
ghost use Rattle.source_typing.specs.Tables.{argument};
ghost use Rattle.source_typing.specs.Types.{renamed};
ghost use Rattle.check_faults.specs.Verdicts.{short_of, shortened};
ghost use Rattle.check_calls.specs.Enclosings.{enclosing_of};
ghost use Rattle.check_calls.specs.Fitted.{parameter_types};
ghost use Rattle.check_calls.specs.Nulls.{AreNulls, IsLiveAround, is_null_to, takes_null};
ghost use Rattle.check_regions.specs.Once.{HaveSame};

use crate::call::given;
use crate::enclosing::Enclosing;
use check_faults::Verdict;
use check_operators::Value;
use check_scopes::{Scope, Signature};
use cyc_types::{BaseType, CType, RegionId};
use std::alloc::AllocError;

/// Whether a parameter is a pointer that `NULL` converts to.
fn takes_null(parameter: &Option<CType>) -> bool
    ensures { result ≡ takes_null (option_map static_type parameter.now) }
{
    match parameter {
        Some(of) => match of.outer() {
            Some(pointer) => pointer.has_beginning(),
            None => false,
        },
        None => false,
    }
}

/// Whether an argument is `NULL`, and its parameter takes it.
fn is_null_to(parameter: &Option<CType>, argument: &Value) -> bool
    ensures { result ≡ is_null_to (parameter.now, argument.now) }
{
    takes_null(parameter) && argument.of.is_null()
}

/// Whether the arguments are `NULL`, one for each parameter, and each parameter takes it.
fn are_nulls(parameters: &[Option<CType>], arguments: &[Value]) -> bool
    ensures { result ≡ true → AreNulls (parameter_types parameters.now) (map value_of arguments.now) }
{
    if parameters.len() != arguments.len() {
        return false;
    }
    'each: for index in 0..parameters.len() {
        if !is_null_to(&parameters[index], &arguments[index]) {
            return false;
        }
    }
    true
}

/// Whether the region that all variables become is live, and the heap too.
fn is_live_around(scope: &Scope, enclosing: Enclosing) -> bool
    ensures { (g : Env) → Sees scope.now g → result ≡ true → IsLiveAround g (enclosing_of enclosing) }
{
    match enclosing {
        Enclosing::In(region) => scope.is_live(region) && scope.is_live(RegionId::Heap),
        Enclosing::Unique | Enclosing::NotKnown => false,
    }
}

/// Whether a type that is no pointer has no regions.
fn has_no_region(base: &BaseType) -> bool
    ensures { result ≡ true → (rs : List Region) → renamed (argument rs) (base_type base.now) ≡ base_type base.now }
{
    match base {
        BaseType::Int | BaseType::Unsigned | BaseType::Char | BaseType::Void => true,
        _ => false,
    }
}

/// Whether it is known that a type has no region variable.
fn is_closed(of: &CType) -> bool
    ensures { result ≡ true → (rs : List Region) → renamed (argument rs) (static_type of.now) ≡ static_type of.now }
{
    of.layers.is_closed() && has_no_region(&of.base)
}

/// Whether a call of a function of the program has no fault: all its arguments are `NULL`, which its parameters take, what its variables become is
/// live, and it has no bounds.
fn is_in_order(
    scope: &Scope,
    enclosing: Enclosing,
    signature: &Signature,
    arguments: &[Value],
) -> bool
    ensures live { (g : Env) → Sees scope.now g → result ≡ true → IsLiveAround g (enclosing_of enclosing) }
    ensures free { result ≡ true → HaveSame [] signature.now.bounds }
    ensures nulls { result ≡ true → AreNulls (parameter_types signature.now.parameters.items) (map value_of arguments.now) }
{
    is_live_around(scope, enclosing)
        && signature.bounds.once().is_empty()
        && are_nulls(signature.parameters.as_slice(), arguments)
}

/// The value of a call of a function of the program all of whose arguments are `NULL`, if it is in order and of a type without region variables.
/// If it isn't, this answers nothing, and the call has to be looked at in full.
pub(crate) fn null_called<'p>(
    scope: &Scope,
    enclosing: Enclosing,
    at: u32,
    signature: &Signature<'p>,
    arguments: &[Value],
) -> Result<Option<Verdict<Value<'p>>>, AllocError>
    ensures { (g : Env) → Sees scope.now g → g.enclosing ≡ enclosing_of enclosing → IfOk result (λ found. IfSome found (λ v.
        short_of value_of v ≡ shortened (called g at (ToFunction (signature_of signature.now)) (map value_of arguments.now)))) }
{
    match &signature.result {
        Some(of) => {
            if is_closed(of) && is_in_order(scope, enclosing, signature, arguments) {
                let same = of.try_clone()?;
                return Ok(Some(given(at, same)));
            }
            Ok(None)
        }
        None => Ok(None),
    }
}
