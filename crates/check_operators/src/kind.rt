// Kinds of types that operators and assignments ask for.

ghost use Rattle.std.specs.Prelude.{◌≡◌};
ghost use Rattle.cyc_types.specs.Types.{static_type};
ghost use Rattle.check_operators.specs.TypeKinds.{is_char, is_unsigned, keeps_value};
ghost use Rattle.source_typing.specs.Operators.{common, is_fat, promoted};

use cyc_types::{BaseType, CType, Layer};
use std::alloc::Global;

/// Whether it is `char`.
#[tactic(auto, using(crate::proofs::KindsOfTypes::char_kind))]
pub(crate) fn is_char(of: &CType) -> bool
    ensures { result ≡ is_char (static_type of.now) }
{
    !of.is_pointer() && matches!(of.base, BaseType::Char)
}

/// Whether it is `unsigned int`.
#[tactic(auto, using(crate::proofs::KindsOfTypes::unsigned_kind))]
pub(crate) fn is_unsigned(of: &CType) -> bool
    ensures { result ≡ is_unsigned (static_type of.now) }
{
    !of.is_pointer() && matches!(of.base, BaseType::Unsigned)
}

/// Whether it is a fat pointer.
#[tactic(auto, using(crate::proofs::KindsOfTypes::fat_kind))]
pub(crate) fn is_fat(of: &CType) -> bool
    ensures { result ≡ is_fat (static_type of.now) }
{
    matches!(of.outer(), Some(Layer::Fat(_)))
}

/// Whether an assignment to it has the stored value: it is no struct and no union, and it is copied.
#[tactic(auto, using(crate::proofs::KindsOfTypes::pointer_kept, crate::proofs::KindsOfTypes::base_kept))]
pub(crate) fn keeps_value(of: &CType) -> bool
    ensures { result ≡ keeps_value (static_type of.now) }
{
    match of.outer() {
        Some(pointer) => pointer.is_copyable(),
        None => !matches!(
            of.base,
            BaseType::Struct(_, _) | BaseType::Union(_, _) | BaseType::Key(_)
        ),
    }
}

/// What an integer becomes where it is calculated with: a `char` becomes an `int`.
#[tactic(auto, using(crate::proofs::KindsOfTypes::promoted_is))]
pub(crate) fn promoted<'p>(alloc: Global, of: CType<'p>) -> CType<'p>
    ensures { static_type result ≡ promoted (static_type of.entry) }
{
    if is_char(&of) {
        CType::plain(alloc, BaseType::Int)
    } else {
        of
    }
}

/// What two integers become that are calculated with.
#[tactic(auto, using(crate::proofs::KindsOfTypes::common_is))]
pub(crate) fn common<'p>(alloc: Global, one: &CType, two: &CType) -> CType<'p>
    ensures { static_type result ≡ common (static_type one.now) (static_type two.now) }
{
    if is_unsigned(one) || is_unsigned(two) {
        CType::plain(alloc, BaseType::Unsigned)
    } else {
        CType::plain(alloc, BaseType::Int)
    }
}
