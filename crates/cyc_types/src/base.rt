// Types that are no pointers.

ghost use Rattle.std.specs.Prelude.{◌≡◌, IfOk, zip};
ghost use Rattle.std.specs.List.{list_all};
ghost use Rattle.source_typing.specs.Types.{compare, same_ids};
ghost use Rattle.cyc_types.specs.Bases.{base_type};
ghost use Rattle.cyc_types.specs.Likeness.{likeness_of};
ghost use Rattle.cyc_types.specs.Regions.{ids_agree, regions_of};

use crate::likeness::Likeness;
use crate::region::RegionId;
use smallvec::SmallVec;
use std::alloc::AllocError;

/// The region arguments of a struct or union.
pub type RegionArguments = SmallVec<RegionId, 2>;

/// A type that is no pointer.
pub enum BaseType<'p> {
    Int,
    Unsigned,
    Char,
    Void,
    /// The literal `NULL` alone.
    Null,
    /// A region's handle.
    Handle(RegionId),
    /// A dynamic region's key.
    Key(RegionId),
    /// A struct by its tag.
    Struct(&'p [u8], RegionArguments),
    /// A union by its tag.
    Union(&'p [u8], RegionArguments),
}

// Written out, so that a caller's proof sees one call and not the drop of each field.
impl Drop for BaseType<'_> {
    fn drop(self) {
        match self {
            BaseType::Int | BaseType::Unsigned | BaseType::Char => {}
            BaseType::Void | BaseType::Null => {}
            BaseType::Handle(_) | BaseType::Key(_) => {}
            BaseType::Struct(_, _regions) | BaseType::Union(_, _regions) => {}
        }
    }
}

/// Whether the regions are the same, one by one, as far as there are as many of both.
fn agree(here: &[RegionId], there: &[RegionId]) -> bool
    ensures { result ≡ list_all ids_agree (zip here.now there.now) }
{
    here.iter()
        .zip(there.iter())
        .all(|(mine, theirs)| mine.is_same(*theirs))
}

/// Whether the regions are the same, one by one.
fn are_same(here: &[RegionId], there: &[RegionId]) -> bool
    ensures { result ≡ same_ids (regions_of here.now) (regions_of there.now) }
{
    here.len() == there.len() && agree(here, there)
}

impl<'p> BaseType<'p> {
    /// How alike two types are.
    pub fn compare(&self, other: &BaseType) -> Likeness
        ensures { result ≡ likeness_of (compare (base_type self.now) (base_type other.now)) }
    {
        match (self, other) {
            (BaseType::Int, BaseType::Int)
            | (BaseType::Unsigned, BaseType::Unsigned)
            | (BaseType::Char, BaseType::Char)
            | (BaseType::Void, BaseType::Void)
            | (BaseType::Null, BaseType::Null) => Likeness::Equal,
            (BaseType::Handle(here), BaseType::Handle(there))
            | (BaseType::Key(here), BaseType::Key(there)) => {
                Likeness::Equal.with_regions(here.is_same(*there))
            }
            (BaseType::Struct(mine, here), BaseType::Struct(theirs, there))
            | (BaseType::Union(mine, here), BaseType::Union(theirs, there)) => Likeness::Equal
                .with_regions(are_same(here.as_slice(), there.as_slice()))
                .only_if(mine == theirs),
            _ => Likeness::Different,
        }
    }

    /// The same type again. Fails only where no host memory is left.
    pub fn try_clone(&self) -> Result<BaseType<'p>, AllocError>
        ensures { IfOk result (λ copy. base_type copy ≡ base_type self.now) }
    {
        Ok(match self {
            BaseType::Int => BaseType::Int,
            BaseType::Unsigned => BaseType::Unsigned,
            BaseType::Char => BaseType::Char,
            BaseType::Void => BaseType::Void,
            BaseType::Null => BaseType::Null,
            BaseType::Handle(region) => BaseType::Handle(*region),
            BaseType::Key(region) => BaseType::Key(*region),
            BaseType::Struct(tag, regions) => BaseType::Struct(
                *tag,
                SmallVec::from_slice(*regions.allocator(), regions.as_slice())?,
            ),
            BaseType::Union(tag, regions) => BaseType::Union(
                *tag,
                SmallVec::from_slice(*regions.allocator(), regions.as_slice())?,
            ),
        })
    }
}
