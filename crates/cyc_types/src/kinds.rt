// Kinds of types.

ghost use Rattle.std.specs.Prelude.{◌≡◌};
ghost use Rattle.source_typing.specs.Types.{is_integer, is_pointer, is_testable, is_null, is_scalar, is_union, is_key, is_void, is_makeable, is_element};
ghost use Rattle.source_typing.specs.Types.{is_unique};
ghost use Rattle.cyc_types.specs.Bases.{base_type};
ghost use Rattle.cyc_types.specs.Layers.{is_plain};
ghost use Rattle.cyc_types.specs.Types.{static_type};

use crate::base::BaseType;
use crate::ctype::CType;

impl<'p> BaseType<'p> {
    /// Whether it is a type of integers.
    pub fn is_integer(&self) -> bool
        ensures { result ≡ is_integer (base_type self.now) }
    {
        matches!(self, BaseType::Int | BaseType::Unsigned | BaseType::Char)
    }

    /// Whether it is the type of the literal `NULL` alone.
    pub fn is_null(&self) -> bool
        ensures { result ≡ is_null (base_type self.now) }
    {
        matches!(self, BaseType::Null)
    }

    /// Whether it is a union.
    pub fn is_union(&self) -> bool
        ensures { result ≡ is_union (base_type self.now) }
    {
        matches!(self, BaseType::Union(_, _))
    }

    /// Whether it is a dynamic region's key.
    pub fn is_key(&self) -> bool
        ensures { result ≡ is_key (base_type self.now) }
    {
        matches!(self, BaseType::Key(_))
    }

    /// Whether it is `void`.
    pub fn is_void(&self) -> bool
        ensures { result ≡ is_void (base_type self.now) }
    {
        matches!(self, BaseType::Void)
    }

    /// Whether a condition may be of it: an integer or a pointer.
    pub fn is_testable(&self) -> bool
        ensures { result ≡ is_testable (base_type self.now) }
    {
        self.is_integer()
    }

    /// Whether it is an integer, a pointer, a handle, a key or a union.
    pub fn is_scalar(&self) -> bool
        ensures { result ≡ is_scalar (base_type self.now) }
    {
        !matches!(
            self,
            BaseType::Void | BaseType::Null | BaseType::Struct(_, _)
        )
    }

    /// Whether `new` and `rnew` take a value of it.
    pub fn is_makeable(&self) -> bool
        ensures { result ≡ is_makeable (base_type self.now) }
    {
        !matches!(self, BaseType::Void | BaseType::Null | BaseType::Key(_))
    }

    /// Whether an array may be of it.
    pub fn is_element(&self) -> bool
        ensures { result ≡ is_element (base_type self.now) }
    {
        !matches!(self, BaseType::Void | BaseType::Key(_))
    }
}

impl<'p> CType<'p> {
    /// Whether it is no pointer.
    fn is_plain(&self) -> bool
        ensures { result ≡ is_plain self.now.layers.items }
    {
        self.layers.is_empty()
    }

    /// Whether it is a type of integers.
    #[tactic(auto, using(crate::proofs::KindsUnder::integer_kind))]
    pub fn is_integer(&self) -> bool
        ensures { result ≡ is_integer (static_type self.now) }
    {
        self.is_plain() && self.base.is_integer()
    }

    /// Whether it is the type of the literal `NULL` alone.
    #[tactic(auto, using(crate::proofs::KindsUnder::null_kind))]
    pub fn is_null(&self) -> bool
        ensures { result ≡ is_null (static_type self.now) }
    {
        self.is_plain() && self.base.is_null()
    }

    /// Whether it is a union.
    #[tactic(auto, using(crate::proofs::KindsUnder::union_kind))]
    pub fn is_union(&self) -> bool
        ensures { result ≡ is_union (static_type self.now) }
    {
        self.is_plain() && self.base.is_union()
    }

    /// Whether it is a dynamic region's key.
    #[tactic(auto, using(crate::proofs::KindsUnder::key_kind))]
    pub fn is_key(&self) -> bool
        ensures { result ≡ is_key (static_type self.now) }
    {
        self.is_plain() && self.base.is_key()
    }

    /// Whether it is `void`.
    #[tactic(auto, using(crate::proofs::KindsUnder::void_kind))]
    pub fn is_void(&self) -> bool
        ensures { result ≡ is_void (static_type self.now) }
    {
        self.is_plain() && self.base.is_void()
    }

    /// Whether it is a pointer's type.
    #[tactic(auto, using(crate::proofs::KindsUnder::pointer_kind))]
    pub fn is_pointer(&self) -> bool
        ensures { result ≡ is_pointer (static_type self.now) }
    {
        !self.is_plain()
    }

    /// Whether a condition may be of it: an integer or a pointer.
    #[tactic(auto, using(crate::proofs::KindsUnder::testable_kind))]
    pub fn is_testable(&self) -> bool
        ensures { result ≡ is_testable (static_type self.now) }
    {
        !self.is_plain() || self.base.is_testable()
    }

    /// Whether it is an integer, a pointer, a handle, a key or a union.
    #[tactic(auto, using(crate::proofs::KindsUnder::scalar_kind))]
    pub fn is_scalar(&self) -> bool
        ensures { result ≡ is_scalar (static_type self.now) }
    {
        !self.is_plain() || self.base.is_scalar()
    }

    /// Whether `new` and `rnew` take a value of it.
    #[tactic(auto, using(crate::proofs::KindsUnder::makeable_kind))]
    pub fn is_makeable(&self) -> bool
        ensures { result ≡ is_makeable (static_type self.now) }
    {
        !self.is_plain() || self.base.is_makeable()
    }

    /// Whether an array may be of it.
    #[tactic(auto, using(crate::proofs::KindsUnder::element_kind))]
    pub fn is_element(&self) -> bool
        ensures { result ≡ is_element (static_type self.now) }
    {
        !self.is_plain() || self.base.is_element()
    }
}
