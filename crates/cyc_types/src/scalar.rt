// Which scalar a value is.

ghost use Rattle.std.specs.Prelude.{◌≡◌, option_map};
ghost use Rattle.cyc_types.specs.Bases.{base_type};
ghost use Rattle.cyc_types.specs.Scalars.{kind_of, layer_kind, only_kind};
ghost use Rattle.cyc_types.specs.Types.{static_type};

use crate::base::BaseType;
use crate::ctype::CType;
use crate::layer::Layer;

/// What one cell holds, without what a pointer leads to.
#[derive(Clone, Copy)]
pub enum Scalar<'p> {
    Int,
    Unsigned,
    Char,
    /// A pointer to a number of elements; whether it may be `NULL`.
    Thin(bool),
    /// A pointer to one object that nothing else points to; whether it may be `NULL`.
    Unique(bool),
    /// A pointer with bounds.
    Fat,
    Handle,
    Key,
    /// A union by its tag.
    Union(&'p [u8]),
}

/// Which scalar a pointer is.
pub(crate) fn of_layer<'p>(layer: Layer) -> Scalar<'p>
    ensures { kind_of result ≡ layer_kind layer }
{
    match layer {
        Layer::Thin(bound, _) => Scalar::Thin(bound.may_be_null()),
        Layer::Unique(may_be_null) => Scalar::Unique(may_be_null),
        Layer::Fat(_) => Scalar::Fat,
    }
}

/// Which scalar a base is.
pub(crate) fn of_base<'p>(base: &BaseType<'p>) -> Option<Scalar<'p>>
    ensures { option_map kind_of result ≡ only_kind (base_type base.now) }
{
    match base {
        BaseType::Int => Some(Scalar::Int),
        BaseType::Unsigned => Some(Scalar::Unsigned),
        BaseType::Char => Some(Scalar::Char),
        BaseType::Null => Some(Scalar::Thin(true)),
        BaseType::Handle(_) => Some(Scalar::Handle),
        BaseType::Key(_) => Some(Scalar::Key),
        BaseType::Union(tag, _) => Some(Scalar::Union(*tag)),
        BaseType::Void | BaseType::Struct(_, _) => None,
    }
}

impl<'p> CType<'p> {
    /// Which scalar a value of the type is, whose one cell it is. None: it is a struct, or there are no values.
    pub fn scalar(&self) -> Option<Scalar<'p>>
        ensures { option_map kind_of result ≡ only_kind (static_type self.now) }
    {
        match self.outer() {
            Some(pointer) => Some(of_layer(pointer)),
            None => of_base(&self.base),
        }
    }
}
