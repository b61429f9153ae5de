// Literals.

ghost use Rattle.std.specs.Prelude.{◌≡◌};
ghost use Rattle.check_operators.specs.Values.{value_of};
ghost use Rattle.source_typing.specs.Expressions.{number_typed};
ghost use Rattle.source_typing.specs.Regions.{TheHeap};
ghost use Rattle.source_typing.specs.Scope.{value};
ghost use Rattle.source_typing.specs.Types.{Char, Handle, Null};
ghost use Rattle.check_faults.specs.Verdicts.{short_of, shortened};

use crate::value::{Value, plain};
use check_faults::Verdict;
use cyc_types::{BaseType, CType, RegionId};
use std::alloc::Global;

/// A number, and whether it has the suffix `u`: an `int`, if it has none and is one.
pub fn number<'p>(alloc: Global, at: u32, number: u32, suffix: bool) -> Verdict<Value<'p>>
    ensures { short_of value_of result ≡ shortened (value at (number_typed number suffix)) }
{
    let base = if !suffix && number < 0x8000_0000 {
        BaseType::Int
    } else {
        BaseType::Unsigned
    };
    plain(at, CType::plain(alloc, base))
}

/// A character.
pub fn character<'p>(alloc: Global, at: u32) -> Verdict<Value<'p>>
    ensures { short_of value_of result ≡ shortened (value at Char) }
{
    plain(at, CType::plain(alloc, BaseType::Char))
}

/// `NULL`
pub fn null<'p>(alloc: Global, at: u32) -> Verdict<Value<'p>>
    ensures { short_of value_of result ≡ shortened (value at Null) }
{
    plain(at, CType::plain(alloc, BaseType::Null))
}

/// `heap_region`
pub fn heap_region<'p>(alloc: Global, at: u32) -> Verdict<Value<'p>>
    ensures { short_of value_of result ≡ shortened (value at (Handle TheHeap)) }
{
    plain(at, CType::plain(alloc, BaseType::Handle(RegionId::Heap)))
}
