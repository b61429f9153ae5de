// Types with regions in place of variables: those of a signature, or of the parameters of a struct.

ghost use Rattle.std.specs.Prelude.{◌≡◌, IfOk, OnOk, map};
ghost use Rattle.cyc_types.specs.Bases.{base_type};
ghost use Rattle.cyc_types.specs.Layers.{pointed, pointer_to};
ghost use Rattle.cyc_types.specs.Regions.{region_of, regions_of};
ghost use Rattle.cyc_types.specs.Types.{static_type};
ghost use Rattle.source_typing.specs.Tables.{argument};
ghost use Rattle.source_typing.specs.Types.{StaticType, renamed};

use cyc_types::{BaseType, CType, Layer, Layers, RegionArguments, RegionId};
use smallvec::SmallVec;
use std::alloc::AllocError;

/// A region of a signature, where its variables stand for these; and of a struct, whose arguments these are.
#[tactic(auto, using(crate::proofs::Renamed::argument_some, crate::proofs::Renamed::argument_none))]
pub fn argument(regions: &[RegionId], region: RegionId) -> RegionId
    ensures { region_of result ≡ argument (regions_of regions.now) (region_of region) }
{
    match region {
        RegionId::Heap => RegionId::Heap,
        RegionId::Level(variable) => match regions.get(variable as usize) {
            Some(stands_for) => *stands_for,
            None => RegionId::Heap,
        },
    }
}

/// The same of region arguments.
fn renamed_arguments(
    regions: &[RegionId],
    of: &RegionArguments,
) -> Result<RegionArguments, AllocError>
    ensures { IfOk result (λ all. regions_of all.items ≡ map (argument (regions_of regions.now)) (regions_of of.now.items)) }
{
    let mut all = SmallVec::new(*of.allocator());
    let old = of.as_slice();
    'each: for region in old {
        all.push(argument(regions, *region))?;
    }
    Ok(all)
}

/// The same of a type that is no pointer.
fn renamed_base<'p>(regions: &[RegionId], of: &BaseType<'p>) -> Result<BaseType<'p>, AllocError>
    ensures { IfOk result (λ base. base_type base ≡ renamed (argument (regions_of regions.now)) (base_type of.now)) }
{
    Ok(match of {
        BaseType::Int => BaseType::Int,
        BaseType::Unsigned => BaseType::Unsigned,
        BaseType::Char => BaseType::Char,
        BaseType::Void => BaseType::Void,
        BaseType::Null => BaseType::Null,
        BaseType::Handle(region) => BaseType::Handle(argument(regions, *region)),
        BaseType::Key(region) => BaseType::Key(argument(regions, *region)),
        BaseType::Struct(tag, all) => BaseType::Struct(*tag, renamed_arguments(regions, all)?),
        BaseType::Union(tag, all) => BaseType::Union(*tag, renamed_arguments(regions, all)?),
    })
}

/// The same of a pointer.
fn renamed_pointer(regions: &[RegionId], of: Layer) -> Layer
    ensures { (t : StaticType) → pointer_to result (renamed (argument (regions_of regions.now)) t)
        ≡ renamed (argument (regions_of regions.now)) (pointer_to of t) }
{
    match of {
        Layer::Thin(bound, region) => Layer::Thin(bound, argument(regions, region)),
        Layer::Fat(region) => Layer::Fat(argument(regions, region)),
        Layer::Unique(may_be_null) => Layer::Unique(may_be_null),
    }
}

/// The same of the next pointers outwards.
fn push_renamed(
    regions: &[RegionId],
    pointers: &[Layer],
    all: &mut Layers,
) -> Result<(), AllocError>
    ensures { OnOk result ((t u : StaticType) → pointed u all.old.items ≡ renamed (argument (regions_of regions.now)) t
        → pointed u all.new.items ≡ renamed (argument (regions_of regions.now)) (pointed t pointers.now)) }
{
    'each: for pointer in pointers {
        all.push(renamed_pointer(regions, *pointer))?;
    }
    Ok(())
}

/// The same of pointers.
fn renamed_pointers(regions: &[RegionId], of: &Layers) -> Result<Layers, AllocError>
    ensures { IfOk result (λ all. (t : StaticType) → pointed (renamed (argument (regions_of regions.now)) t) all.items
        ≡ renamed (argument (regions_of regions.now)) (pointed t of.now.items)) }
{
    let mut all = Layers::new(of.allocator());
    let pointers = of.pointers();
    push_renamed(regions, pointers.inner, &mut all)?;
    push_renamed(regions, pointers.outer, &mut all)?;
    Ok(all)
}

/// The same, at once where no region of them is a variable.
fn renamed_layers(regions: &[RegionId], of: &Layers) -> Result<Layers, AllocError>
    ensures { IfOk result (λ all. (t : StaticType) → pointed (renamed (argument (regions_of regions.now)) t) all.items
        ≡ renamed (argument (regions_of regions.now)) (pointed t of.now.items)) }
{
    if of.is_closed() {
        let same = of.try_clone()?;
        return Ok(same);
    }
    renamed_pointers(regions, of)
}

/// A type of a signature, where its variables stand for these regions, or of a struct, whose arguments these are.
pub fn renamed_type<'p>(regions: &[RegionId], of: &CType<'p>) -> Result<CType<'p>, AllocError>
    ensures { IfOk result (λ t. static_type t ≡ renamed (argument (regions_of regions.now)) (static_type of.now)) }
{
    let base = renamed_base(regions, &of.base)?;
    let layers = renamed_layers(regions, &of.layers)?;
    Ok(CType { base, layers })
}
