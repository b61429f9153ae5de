// What types begin with as a text writes them.

ghost use Rattle.std.specs.Prelude.{◌≡◌, ◌+◌, IfOk, Some, [], bytes_eq, if◌then◌else◌, option_map, slice_get};
ghost use Rattle.source_typing.specs.Missing.{arguments_of, filled_arguments, filled_from};
ghost use Rattle.source_typing.specs.Tables.{or_heap};
ghost use Rattle.cyc_types.specs.Bases.{base_type};
ghost use Rattle.cyc_types.specs.Regions.{region_of, regions_of};
ghost use Rattle.cyc_types.specs.Types.{static_type};
ghost use Rattle.check_types.specs.Reading.{can_lead};
ghost use Rattle.check_types.specs.Settling.{argument_from, reached};
ghost use Rattle.check_types.specs.Written.{partial_base, partial_regions};

use cyc_types::{BaseType, CType, RegionArguments, RegionId};
use smallvec::SmallVec;
use std::alloc::{AllocError, Global};

/// The region arguments of a struct or union as a text writes them. None: it is missing.
pub type WrittenArguments = SmallVec<Option<RegionId>, 2>;

/// A type that is no pointer, as a text writes it.
pub enum WrittenBase<'p> {
    Int,
    Unsigned,
    Char,
    Void,
    /// A region's handle. None: its region is unknown, or the unique one.
    Handle(Option<RegionId>),
    /// A dynamic region's key. None: as of a handle.
    Key(Option<RegionId>),
    /// A struct by its tag.
    Struct(&'p [u8], WrittenArguments),
    /// A union by its tag.
    Union(&'p [u8], WrittenArguments),
}

// Written out, so that a caller's proof sees one call and not the drop of each field.
impl Drop for WrittenBase<'_> {
    fn drop(self) {
        match self {
            WrittenBase::Int | WrittenBase::Unsigned | WrittenBase::Char | WrittenBase::Void => {}
            WrittenBase::Handle(_) | WrittenBase::Key(_) => {}
            WrittenBase::Struct(_, _regions) | WrittenBase::Union(_, _regions) => {}
        }
    }
}

/// Whether a pointer may lead to a base.
pub(crate) fn can_lead(base: &WrittenBase<'_>) -> bool
    ensures { result ≡ can_lead (partial_base base.now) }
{
    !matches!(base, WrittenBase::Void | WrittenBase::Key(_))
}

/// The region arguments of a struct or union, where it has this tag.
fn arguments_if<'a>(tag: &[u8], other: &[u8], arguments: &'a [RegionId]) -> &'a [RegionId]
    ensures { regions_of result.now ≡ (if bytes_eq tag.now other.now then regions_of arguments.now else []) }
{
    if tag == other { arguments } else { &[] }
}

/// The region arguments of a union, or else a struct, of this tag. Of another type there are none.
fn arguments_of<'a>(base: &'a BaseType<'_>, union: bool, tag: &[u8]) -> &'a [RegionId]
    ensures { regions_of result.now ≡ arguments_of union tag.now (Some (base_type base.now)) }
{
    match (base, union) {
        (BaseType::Struct(other, arguments), false) | (BaseType::Union(other, arguments), true) => {
            arguments_if(tag, *other, arguments.as_slice())
        }
        (_, _) => &[],
    }
}

/// The region arguments of this tag's union, or else its struct, where a type leads to it through `depth` pointers. Another type
/// has none.
fn arguments_at<'a>(
    source: Option<&'a CType<'_>>,
    depth: usize,
    union: bool,
    tag: &[u8],
) -> &'a [RegionId]
    ensures { regions_of result.now ≡ arguments_of union tag.now (reached depth (option_map (λ s. static_type s.now) source.entry)) }
{
    match source {
        Some(of) => {
            if of.layers.len() == depth {
                arguments_of(&of.base, union, tag)
            } else {
                &[]
            }
        }
        None => &[],
    }
}

/// An argument, the one at its place of others where it is missing, and the heap where there is none.
fn argument_from(argument: &Option<RegionId>, others: &[RegionId], place: usize) -> RegionId
    ensures { region_of result ≡ argument_from (option_map region_of argument.now) (option_map region_of (slice_get others.now place)) }
{
    match (argument, others.get(place)) {
        (Some(region), _) => *region,
        (None, Some(region)) => *region,
        (None, None) => RegionId::Heap,
    }
}

/// The arguments, with missing ones from others.
fn filled_arguments(
    alloc: Global,
    arguments: &[Option<RegionId>],
    others: &[RegionId],
) -> Result<RegionArguments, AllocError>
    ensures { IfOk result (λ rs. regions_of rs.items ≡ filled_arguments (partial_regions arguments.now) (regions_of others.now)) }
{
    let mut filled = SmallVec::new(alloc);
    let mut place = 0;
    'each: for argument in arguments {
        filled.push(argument_from(argument, others, place))?;
        place += 1;
    }
    Ok(filled)
}

/// A region, the heap where there is none.
fn or_heap(region: Option<RegionId>) -> RegionId
    ensures { region_of result ≡ or_heap (option_map region_of region) }
{
    match region {
        Some(region) => region,
        None => RegionId::Heap,
    }
}

impl<'p> WrittenBase<'p> {
    /// The base, its missing regions taken from what a type leads to through `depth` pointers.
    pub(crate) fn filled(
        &self,
        alloc: Global,
        source: Option<&CType<'_>>,
        depth: usize,
    ) -> Result<BaseType<'p>, AllocError>
        ensures { IfOk result (λ b. Some (base_type b)
            ≡ filled_from (partial_base self.now) (reached depth (option_map (λ s. static_type s.now) source.entry))) }
    {
        Ok(match self {
            WrittenBase::Int => BaseType::Int,
            WrittenBase::Unsigned => BaseType::Unsigned,
            WrittenBase::Char => BaseType::Char,
            WrittenBase::Void => BaseType::Void,
            WrittenBase::Handle(region) => BaseType::Handle(or_heap(*region)),
            WrittenBase::Key(region) => BaseType::Key(or_heap(*region)),
            WrittenBase::Struct(tag, arguments) => {
                let others = arguments_at(source, depth, false, tag);
                let filled = filled_arguments(alloc, arguments.as_slice(), others)?;
                BaseType::Struct(*tag, filled)
            }
            WrittenBase::Union(tag, arguments) => {
                let others = arguments_at(source, depth, true, tag);
                let filled = filled_arguments(alloc, arguments.as_slice(), others)?;
                BaseType::Union(*tag, filled)
            }
        })
    }
}
