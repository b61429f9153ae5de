// What converts to what.

ghost use Rattle.std.specs.Prelude.{◌≡◌, ◌-◌, length, take, Some, None};
ghost use Rattle.source_typing.specs.Conversions.{conversion, ordered, unless_differs, equal_types};
ghost use Rattle.source_typing.specs.Regions.{Regions};
ghost use Rattle.source_typing.specs.Types.{compare};
ghost use Rattle.cyc_types.specs.Bases.{base_type};
ghost use Rattle.cyc_types.specs.Conversions.{bounded_rule, rule_of, number_of, null_rule, pointer_rule, outer_ordered};
ghost use Rattle.cyc_types.specs.Layers.{outermost, pointed};
ghost use Rattle.cyc_types.specs.Likeness.{match_of, likeness_of};
ghost use Rattle.cyc_types.specs.Types.{static_type};

use crate::base::BaseType;
use crate::ctype::{CType, alike};
use crate::layer::Layer;
use crate::likeness::Likeness;

/// The rule that a conversion breaks.
#[derive(Clone, Copy)]
pub enum Broken {
    /// The types are different.
    Typing,
    /// A unique pointer to or from another region.
    Region,
    /// Regions that aren't in order, or types that differ in regions alone.
    Outlives,
}

/// Where types are equal, this; where they differ in regions alone, the other rule.
fn unless_different(alike: Likeness, same: Option<Broken>, other: Broken) -> Option<Broken>
    ensures { rule_of result ≡ unless_differs (match_of alike) (rule_of same) (Some (number_of other)) }
{
    match alike {
        Likeness::Equal => same,
        Likeness::ByRegions => Some(other),
        Likeness::Different => Some(Broken::Typing),
    }
}

/// The rule that a pointer to a longer-lived region breaks.
fn ordered(outlives: bool) -> Option<Broken>
    ensures { rule_of result ≡ ordered outlives }
{
    if outlives {
        None
    } else {
        Some(Broken::Outlives)
    }
}

/// `NULL` to a pointer.
fn null_conversion(to: Layer) -> Option<Broken>
    ensures { rule_of result ≡ null_rule to }
{
    if to.has_beginning() {
        None
    } else {
        Some(Broken::Typing)
    }
}

/// A pointer to a pointer that leads to no more elements.
fn bounded_conversion(from: Layer, to: Layer, inner: Likeness, outlives: bool) -> Option<Broken>
    ensures { rule_of result ≡ bounded_rule from to (match_of inner) outlives }
{
    match (from, to) {
        (Layer::Unique(_), Layer::Unique(_)) => unless_different(inner, None, Broken::Outlives),
        (Layer::Unique(_), _) | (_, Layer::Unique(_)) => {
            unless_different(inner, Some(Broken::Region), Broken::Region)
        }
        _ => unless_different(inner, ordered(outlives), Broken::Outlives),
    }
}

/// A pointer to a pointer.
fn pointer_conversion(from: Layer, to: Layer, inner: Likeness, outlives: bool) -> Option<Broken>
    ensures { rule_of result ≡ pointer_rule from to (match_of inner) outlives }
{
    if from.has_enough(to) {
        bounded_conversion(from, to, inner, outlives)
    } else {
        Some(Broken::Typing)
    }
}

/// What is no pointer to what is none.
fn base_conversion(from: &BaseType, to: &BaseType) -> Option<Broken>
    ensures { (g : Regions) → rule_of result ≡ conversion g (base_type from.now) (base_type to.now) }
{
    match from {
        BaseType::Int | BaseType::Unsigned | BaseType::Char => {
            if to.is_integer() {
                None
            } else {
                Some(Broken::Typing)
            }
        }
        BaseType::Void | BaseType::Null => Some(Broken::Typing),
        BaseType::Handle(_) | BaseType::Key(_) | BaseType::Struct(_, _) | BaseType::Union(_, _) => {
            unless_different(from.compare(to), None, Broken::Outlives)
        }
    }
}

impl<'p> CType<'p> {
    /// How alike the types are that two pointers lead to.
    fn inner_likeness(&self, other: &CType) -> Likeness
        ensures { result ≡ likeness_of (compare (pointed (base_type self.now.base) (take (length self.now.layers.items - 1) self.now.layers.items))
            (pointed (base_type other.now.base) (take (length other.now.layers.items - 1) other.now.layers.items))) }
    {
        alike(
            &self.base,
            self.layers.inner_pointed(),
            &other.base,
            other.layers.inner_pointed(),
        )
    }

    /// The rule that a conversion to another type breaks, if any. Where both are pointers with regions, `outlives` is whether the
    /// region of this one outlives that of the other.
    pub fn conversion(&self, to: &CType, outlives: bool) -> Option<Broken>
        ensures { (g : Regions) → outer_ordered g outlives (outermost self.now.layers.items) (outermost to.now.layers.items) ≡ outlives
            → rule_of result ≡ conversion g (static_type self.now) (static_type to.now) }
    {
        match (self.outer(), to.outer()) {
            (Some(mine), Some(theirs)) => {
                pointer_conversion(mine, theirs, self.inner_likeness(to), outlives)
            }
            (None, Some(pointer)) => {
                if self.base.is_null() {
                    null_conversion(pointer)
                } else {
                    Some(Broken::Typing)
                }
            }
            (Some(_), None) => Some(Broken::Typing),
            (None, None) => base_conversion(&self.base, &to.base),
        }
    }
}
