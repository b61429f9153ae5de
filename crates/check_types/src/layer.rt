// Pointers as a text writes them.

ghost use Rattle.std.specs.Prelude.{◌≡◌, Some, option_map};
ghost use Rattle.source_typing.specs.Missing.{thin_with};
ghost use Rattle.source_typing.specs.Types.{StaticType};
ghost use Rattle.source_typing.specs.Written.{IsUnique};
ghost use Rattle.cyc_types.specs.Layers.{pointer_to};
ghost use Rattle.cyc_types.specs.Reaches.{reach_of};
ghost use Rattle.check_types.specs.Settling.{layer_from, outer_found};

use cyc_types::{Layer, Reach, RegionId};

/// A pointer as a text writes it, without the type that it leads to. None: its region is missing.
#[derive(Clone, Copy)]
pub enum WrittenLayer {
    /// To a number of elements.
    Thin(Reach, Option<RegionId>),
    /// With bounds.
    Fat(Option<RegionId>),
    /// Into the unique region; whether it may be `NULL`.
    Unique(bool),
}

/// What stands in the unused places of a list: a fat pointer with no region.
impl Default for WrittenLayer {
    fn default() -> Self {
        WrittenLayer::Fat(None)
    }
}

/// A thin pointer into the unique region. None: it leads to more elements than one, or to none.
fn unique_from(bound: Reach) -> Option<Layer>
    ensures { (t : StaticType) → option_map (λ l. pointer_to l t) result ≡ thin_with (reach_of bound) IsUnique (Some t) }
{
    if bound.count() == 1 {
        Some(Layer::Unique(bound.may_be_null()))
    } else {
        None
    }
}

/// A thin pointer with its missing region from another pointer. None: it would be unique, and leads to more elements than one.
fn thin_from(bound: Reach, region: Option<RegionId>, from: Option<Layer>) -> Option<Layer>
    ensures { (t : StaticType) → option_map (λ l. pointer_to l t) result ≡ layer_from (WrittenLayer.Thin bound region) (outer_found from) (Some t) }
{
    match (region, from) {
        (Some(region), _) | (None, Some(Layer::Thin(_, region) | Layer::Fat(region))) => {
            Some(Layer::Thin(bound, region))
        }
        (None, Some(Layer::Unique(_))) => unique_from(bound),
        (None, None) => Some(Layer::Thin(bound, RegionId::Heap)),
    }
}

/// A fat pointer with its missing region from another pointer. None: it would be unique.
fn fat_from(region: Option<RegionId>, from: Option<Layer>) -> Option<Layer>
    ensures { (t : StaticType) → option_map (λ l. pointer_to l t) result ≡ layer_from (WrittenLayer.Fat region) (outer_found from) (Some t) }
{
    match (region, from) {
        (Some(region), _) | (None, Some(Layer::Thin(_, region) | Layer::Fat(region))) => {
            Some(Layer::Fat(region))
        }
        (None, Some(Layer::Unique(_))) => None,
        (None, None) => Some(Layer::Fat(RegionId::Heap)),
    }
}

impl WrittenLayer {
    /// The pointer with its missing region from another one, the heap where there is none. None: a pointer that can't be unique would be:
    /// a fat one, or one to more elements than one.
    pub fn settled(&self, from: Option<Layer>) -> Option<Layer>
        ensures { (t : StaticType) → option_map (λ l. pointer_to l t) result ≡ layer_from self.now (outer_found from) (Some t) }
    {
        match self {
            WrittenLayer::Thin(bound, region) => thin_from(*bound, *region, from),
            WrittenLayer::Fat(region) => fat_from(*region, from),
            WrittenLayer::Unique(may_be_null) => Some(Layer::Unique(*may_be_null)),
        }
    }
}
