// The types of parameters, by the region variables of their head.

ghost use Rattle.std.specs.Prelude.{◌≡◌, IfOk, OnOk, Some, option_map};
ghost use Rattle.cyc_tree.specs.View.{name_tree, region_tree, type_tree};
ghost use Rattle.cyc_types.specs.Types.{static_type};
ghost use Rattle.source_typing.specs.Functions.{parameter_type, take_spots};
ghost use Rattle.source_typing.specs.Tables.{Tables};
ghost use Rattle.source_typing.specs.Written.{spots_of, type_built};
ghost use Rattle.check_faults.specs.Verdicts.{short_of, shortened};
ghost use Rattle.check_types.specs.Arguments.{written_arguments};
ghost use Rattle.check_types.specs.Handles.{is_key_base, region_base};
ghost use Rattle.check_types.specs.Parameters.{as_parameter};
ghost use Rattle.check_types.specs.Reading.{led_by, plain_of};
ghost use Rattle.check_types.specs.Tagged.{IsNamed, TagIs, is_union_base, tag_base};
ghost use Rattle.check_types.specs.Written.{partial_base};

use crate::arguments::{unique_fault, unique_faults, written_arguments};
use crate::base::WrittenBase;
use crate::handles::region_base;
use crate::heading::{fitting, settled_alone};
use crate::reading::built;
use crate::settling::WrittenLayers;
use crate::tagged::{TagName, tagged_of};
use crate::variables::RegionVariables;
use check_faults::Verdict;
use cyc_tree::{Base, Name, RegionName, TypeName};
use cyc_types::CType;
use std::alloc::{AllocError, Global};

/// The type of a parameter: of these pointers on a base.
fn parameter_of<'p>(
    at: u32,
    base: WrittenBase<'p>,
    layers: Option<WrittenLayers>,
) -> Result<Verdict<CType<'p>>, AllocError>
    ensures { IfOk result (λ v. short_of static_type v
        ≡ shortened (as_parameter at (type_built at (led_by (option_map (λ ls. ls.items) layers) (partial_base base.entry))))) }
{
    let written = built(at, base, layers);
    let settled = settled_alone(written, at)?;
    Ok(fitting(settled, at, false))
}

impl<'p> RegionVariables<'p> {
    /// The type of a parameter of pointers to this base.
    fn on_base(
        &mut self,
        alloc: Global,
        of: &'p TypeName,
        base: WrittenBase<'p>,
    ) -> Result<Verdict<CType<'p>>, AllocError>
        ensures found { (g : Tables) → let t = type_tree of.entry.now in plain_of t.base ≡ Some (partial_base base.entry)
            → IfOk result (λ v. short_of static_type v ≡ shortened (parameter_type g t (take_spots self.old (spots_of g t)))) }
        ensures after { (g : Tables) → let t = type_tree of.entry.now in plain_of t.base ≡ Some (partial_base base.entry)
            → OnOk result (self.new ≡ (take_spots self.old (spots_of g t)).after_all) }
    {
        let layers = self.take_layers(alloc, &of.pointers)?;
        let parameter = parameter_of(of.at, base, layers)?;
        Ok(parameter)
    }

    /// The type of a parameter of pointers to a struct or union, by what its tag means.
    fn on_tagged(
        &mut self,
        alloc: Global,
        tag: TagName,
        of: &'p TypeName,
        name: &'p Name,
    ) -> Result<Verdict<CType<'p>>, AllocError>
        ensures found { (g : Tables) → let t = type_tree of.entry.now in let x = name_tree name.entry.now in
            IsNamed g x.text tag → t.base ≡ tag_base (is_union_base t.base) x (written_arguments t.base)
            → IfOk result (λ v. short_of static_type v ≡ shortened (parameter_type g t (take_spots self.old (spots_of g t)))) }
        ensures after { (g : Tables) → let t = type_tree of.entry.now in let x = name_tree name.entry.now in
            IsNamed g x.text tag → t.base ≡ tag_base (is_union_base t.base) x (written_arguments t.base)
            → OnOk result (self.new ≡ (take_spots self.old (spots_of g t)).after_all) }
    {
        let written = written_arguments(&of.base);
        let arguments = self.take_arguments(alloc, tag.regions(), written)?;
        let layers = self.take_layers(alloc, &of.pointers)?;
        let found = tagged_of(tag, of, name, arguments, layers, unique_faults(written));
        let settled = settled_alone(found, of.at)?;
        Ok(fitting(settled, of.at, false))
    }

    /// The type of a parameter of handles or keys of this region, or of pointers to them.
    fn on_handle(
        &mut self,
        alloc: Global,
        of: &'p TypeName,
        region: &'p RegionName,
    ) -> Result<Verdict<CType<'p>>, AllocError>
        ensures found { (g : Tables) → let t = type_tree of.entry.now in t.base ≡ region_base (is_key_base t.base) (region_tree region.entry.now)
            → IfOk result (λ v. short_of static_type v ≡ shortened (parameter_type g t (take_spots self.old (spots_of g t)))) }
        ensures after { (g : Tables) → let t = type_tree of.entry.now in t.base ≡ region_base (is_key_base t.base) (region_tree region.entry.now)
            → OnOk result (self.new ≡ (take_spots self.old (spots_of g t)).after_all) }
    {
        let found = self.take_argument(region)?;
        let layers = self.take_layers(alloc, &of.pointers)?;
        match unique_fault(region) {
            Some(fault) => Ok(Verdict::Wrong(fault)),
            None => {
                let base = region_base(&of.base, found);
                let parameter = parameter_of(of.at, base, layers)?;
                Ok(parameter)
            }
        }
    }

    /// The type of a parameter, where the tag of a struct or union means this: a scalar other than a union. Its missing regions, and the
    /// first of each name, are fresh variables.
    pub fn parameter_in(
        &mut self,
        alloc: Global,
        tag: TagName,
        of: &'p TypeName,
    ) -> Result<Verdict<CType<'p>>, AllocError>
        ensures found { (g : Tables) → let t = type_tree of.entry.now in TagIs g t tag
            → IfOk result (λ v. short_of static_type v ≡ shortened (parameter_type g t (take_spots self.old (spots_of g t)))) }
        ensures after { (g : Tables) → let t = type_tree of.entry.now in TagIs g t tag
            → OnOk result (self.new ≡ (take_spots self.old (spots_of g t)).after_all) }
    {
        match &of.base {
            Base::Struct(name, _) | Base::Union(name, _) => self.on_tagged(alloc, tag, of, name),
            Base::Handle(region) | Base::Key(region) => self.on_handle(alloc, of, region),
            Base::Int => self.on_base(alloc, of, WrittenBase::Int),
            Base::Unsigned => self.on_base(alloc, of, WrittenBase::Unsigned),
            Base::Char => self.on_base(alloc, of, WrittenBase::Char),
            Base::Void => self.on_base(alloc, of, WrittenBase::Void),
        }
    }
}
