// Where the cells of types lie.

ghost use Rattle.std.specs.Prelude.{◌≡◌, ◌++◌, ◌∷◌, ◌-◌, ◌<◌, ◌↔◌, [], Err, IfNone, IfOk, IfSome, OnOk, map};
ghost use Rattle.source_typing.specs.Extents.{most_bytes};
ghost use Rattle.cyc_types.specs.Bases.{base_type};
ghost use Rattle.cyc_types.specs.Cells.{cells_found, cells_in, cells_of, found_cells, moved_by, part_cells};
ghost use Rattle.cyc_types.specs.Known.{found};
ghost use Rattle.cyc_types.specs.Laying.{AreWithin, EndsIn, Goes, IsWithin, found_steps, part_steps, type_steps, waiting_cells, all_steps, waiting_parts};
ghost use Rattle.cyc_types.specs.Measures.{extent_in, extent_of, part_extent, quick_measure, stored, struct_if};
ghost use Rattle.cyc_types.specs.Tables.{tables_of};
ghost use Rattle.cyc_types.specs.Tags.{member_of};
ghost use Rattle.cyc_types.specs.Types.{static_type};

use crate::base::BaseType;
use crate::cell::{Cell, Layout, push_scalar};
use crate::ctype::CType;
use crate::extent::Extent;
use crate::fault::SizeFault;
use crate::scalar::{of_base, of_layer};
use crate::tables::Tables;
use crate::tag::Member;
use std::alloc::{AllocError, Global};

/// The members of a struct whose cells are still to come.
#[derive(Drop)]
pub(crate) struct Waiting<'t, 'p> {
    /// Where the struct begins.
    at: u32,
    /// The bytes of the members before these.
    so_far: Extent,
    members: &'t [Member<'p>],
}

/// The cells of a type as far as they are found, and what is still to come, the next one last.
#[derive(Drop)]
pub(crate) struct Laying<'t, 'p> {
    cells: Vec<Cell<'p>>,
    waiting: Vec<Waiting<'t, 'p>>,
}

/// What comes next, which is taken off.
fn take_next<'t, 'p>(waiting: &mut Vec<Waiting<'t, 'p>>) -> Option<Waiting<'t, 'p>>
    ensures some { IfSome result (λ next. waiting.old.items ≡ waiting.new.items ++ next ∷ []) }
    ensures none { IfNone result (waiting.old.items ≡ []) }
{
    waiting.pop()
}

impl<'p> Tables<'p> {
    /// Goes into a struct by its tag, at an offset in bytes from the type's first; a struct that isn't declared has no cells.
    fn lay_struct<'t>(
        &'t self,
        laying: &mut Laying<'t, 'p>,
        at: u32,
        tag: &[u8],
    ) -> Result<(), AllocError>
        requires { EndsIn at (struct_if stored (found self.now.tags.entries tag.now)) }
        ensures { OnOk result (Goes self.now.tags.entries (map (moved_by at) (found_cells self.now.tags.entries tag.now))
            (found_steps self.now.tags.entries tag.now) laying.old laying.new) }
    {
        match self.known(tag) {
            Some(known) => {
                if !known.tag.is_union {
                    laying.waiting.push(Waiting {
                        at,
                        so_far: Extent::none(),
                        members: &known.tag.members,
                    })?;
                }
            }
            None => {}
        }
        Ok(())
    }

    /// Lays what is no pointer.
    fn lay_base<'t>(
        &'t self,
        laying: &mut Laying<'t, 'p>,
        at: u32,
        base: &BaseType<'p>,
    ) -> Result<(), AllocError>
        requires { EndsIn at (quick_measure self.now.tags.entries (base_type base.now)) }
        ensures { OnOk result (Goes self.now.tags.entries (map (moved_by at) (cells_found self.now.tags.entries (base_type base.now)))
            (type_steps (found_steps self.now.tags.entries) (base_type base.now)) laying.old laying.new) }
    {
        match base {
            BaseType::Struct(tag, _) => self.lay_struct(laying, at, *tag)?,
            _ => match of_base(base) {
                Some(scalar) => push_scalar(&mut laying.cells, at, scalar)?,
                None => {}
            },
        }
        Ok(())
    }

    /// Lays a type, at an offset in bytes from the first.
    fn lay<'t>(
        &'t self,
        laying: &mut Laying<'t, 'p>,
        at: u32,
        of: &CType<'p>,
    ) -> Result<(), AllocError>
        requires { EndsIn at (quick_measure self.now.tags.entries (static_type of.now)) }
        ensures { OnOk result (Goes self.now.tags.entries (map (moved_by at) (cells_found self.now.tags.entries (static_type of.now)))
            (type_steps (found_steps self.now.tags.entries) (static_type of.now)) laying.old laying.new) }
    {
        match of.outer() {
            Some(pointer) => push_scalar(&mut laying.cells, at, of_layer(pointer))?,
            None => self.lay_base(laying, at, &of.base)?,
        }
        Ok(())
    }

    /// Lays a member; one of no known type has no cells.
    fn lay_member<'t>(
        &'t self,
        laying: &mut Laying<'t, 'p>,
        at: u32,
        member: &Member<'p>,
    ) -> Result<(), AllocError>
        requires { EndsIn at (part_extent (quick_measure self.now.tags.entries) (member_of member.now).type) }
        ensures { OnOk result (Goes self.now.tags.entries (map (moved_by at) (part_cells (cells_found self.now.tags.entries) (member_of member.now).type))
            (part_steps (found_steps self.now.tags.entries) (member_of member.now).type) laying.old laying.new) }
    {
        match &member.of {
            Some(of) => self.lay(laying, at, of)?,
            None => {}
        }
        Ok(())
    }

    /// Lays the first of some members, and leaves the others for later.
    fn lay_next<'t>(
        &'t self,
        laying: &mut Laying<'t, 'p>,
        next: Waiting<'t, 'p>,
    ) -> Result<(), AllocError>
        requires { IsWithin self.now.tags.entries next }
        ensures { OnOk result (Goes self.now.tags.entries (waiting_cells self.now.tags.entries next.entry)
            (all_steps (found_steps self.now.tags.entries) (waiting_parts next.entry) - 1) laying.old laying.new) }
    {
        let Some((member, others)) = next.members.split_first() else {
            return Ok(());
        };
        let Some(extent) = self.member_extent(member) else {
            return Ok(());
        };
        let start = next.so_far.start_of(extent);
        let Some(so_far) = next.so_far.then(extent) else {
            return Ok(());
        };
        laying.waiting.push(Waiting {
            at: next.at,
            so_far,
            members: others,
        })?;
        self.lay_member(laying, next.at + start, member)
    }

    /// The cells of a type whose bytes aren't too many.
    fn cells(&self, alloc: Global, of: &CType<'p>) -> Result<Vec<Cell<'p>>, AllocError>
        requires { EndsIn 0 (quick_measure self.now.tags.entries (static_type of.now)) }
        ensures { IfOk result (λ cells. cells_of cells.items ≡ cells_found self.now.tags.entries (static_type of.now)) }
    {
        let mut laying = Laying {
            cells: Vec::new(alloc),
            waiting: Vec::new(alloc),
        };
        self.lay(&mut laying, 0, of)?;
        'each: while let Some(next) = take_next(&mut laying.waiting) {
            self.lay_next(&mut laying, next)?;
        }
        Ok(laying.cells)
    }
}

/// Where the cells of a type lie, each struct's members in order and each at its alignment, how many bytes the type has, and how
/// they are aligned. `Size`: it has over 4,096. `Memory`: no host memory is left.
pub fn layout<'p>(
    alloc: Global,
    of: &CType<'p>,
    tables: &Tables<'p>,
) -> Result<Layout<'p>, SizeFault>
    ensures cells { IfOk result (λ layout. cells_of layout.cells.items ≡ cells_in (tables_of tables.now) (static_type of.now)) }
    ensures extent { IfOk result (λ layout. extent_of layout.extent ≡ extent_in (tables_of tables.now) (static_type of.now)) }
    ensures size { (result ≡ Err SizeFault.Size) ↔ (most_bytes < (extent_in (tables_of tables.now) (static_type of.now)).size) }
{
    let Some(extent) = tables.extent(of) else {
        return Err(SizeFault::Size);
    };
    let cells = tables.cells(alloc, of)?;
    Ok(Layout { cells, extent })
}
