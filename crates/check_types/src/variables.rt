// The region variables of a function's head.

ghost use Rattle.std.specs.Prelude.{◌≡◌, IfOk, None, OnErr, OnOk, Some, [], false, is_none, map, option_map, replicate, suc, true};
ghost use Rattle.cyc_tree.specs.Tree.{Named};
ghost use Rattle.cyc_tree.specs.View.{name_tree, region_tree};
ghost use Rattle.cyc_types.specs.Regions.{region_of};
ghost use Rattle.source_typing.specs.Functions.{take_named, take_spot, take_spots, variables};
ghost use Rattle.source_typing.specs.Regions.{Level};
ghost use Rattle.source_typing.specs.Types.{PartialType};
ghost use Rattle.source_typing.specs.Written.{Is, as_region, find_region, pointers_to, spot};
ghost use Rattle.check_types.specs.Arguments.{named_spots, spots_by};
ghost use Rattle.check_types.specs.Reading.{is_unique_name, led_by, made, pointer_spots, pointer_trees};
ghost use Rattle.check_types.specs.Written.{partial_regions, partial_to};

use crate::base::WrittenArguments;
use crate::layer::WrittenLayer;
use crate::layers::{and_layer, is_unique, layer_of, unique_layer};
use crate::settling::WrittenLayers;
use check_regions::RegionNames;
use cyc_tree::{Name, Pointer, RegionName};
use cyc_types::RegionId;
use smallvec::SmallVec;
use std::alloc::{AllocError, Global};
use std::marker::Model;

/// The region variables of a head while its parameters are read: those with names, and how many there are.
#[derive(Drop)]
pub struct RegionVariables<'p> {
    names: RegionNames<'p>,
    count: u32,
}

impl<'p> Model for RegionVariables<'p> {
    ghost use Rattle.source_typing.specs.Functions.{Variables, variables};

    ghost Value = { Variables };

    ghost view = { λ s. variables s.names s.count };
}

impl<'p> RegionVariables<'p> {
    /// None.
    pub fn new(alloc: Global) -> Self
        ensures { result ≡ variables [] 0 }
    {
        RegionVariables {
            names: RegionNames::new(alloc),
            count: 0,
        }
    }

    /// Those with names.
    pub fn names(&self) -> &RegionNames<'p>
        ensures { result.now ≡ self.now.names }
    {
        &self.names
    }

    /// Those with names, alone.
    pub fn into_names(self) -> RegionNames<'p>
        ensures { result ≡ self.entry.names }
    {
        self.names
    }

    /// How many there are.
    pub fn count(&self) -> u32
        ensures { result ≡ self.now.count }
    {
        self.count
    }

    /// A variable without a name. Fails only where there would be 2^32 variables, more than have numbers, and then there is none more.
    pub fn fresh(&mut self) -> Result<RegionId, AllocError>
        ensures found { IfOk result (λ r. region_of r ≡ Level self.old.count) }
        ensures after { OnOk result (self.new ≡ variables self.old.names (suc self.old.count)) }
        ensures kept { OnErr result (self.new ≡ self.old) }
    {
        match self.count.checked_add(1) {
            Some(count) => {
                let region = RegionId::Level(self.count);
                self.count = count;
                Ok(region)
            }
            None => Err(AllocError),
        }
    }

    /// The region of a name, a fresh variable for the first of a spelling.
    fn take_named(&mut self, name: &'p Name) -> Result<RegionId, AllocError>
        ensures found { IfOk result (λ r. (take_spot self.old (Some (Named (name_tree name.entry.now))) true).found ≡ Is (region_of r)) }
        ensures after { OnOk result (self.new ≡ (take_spot self.old (Some (Named (name_tree name.entry.now))) true).after_it) }
    {
        match self.names.find(&name.text) {
            Some(region) => Ok(region),
            None => self.add_named(name),
        }
    }

    /// The region of a pointer that isn't unique, a fresh variable for a missing one.
    fn take(&mut self, region: &'p Option<RegionName>) -> Result<RegionId, AllocError>
        ensures found { is_unique_name (option_map region_tree region.entry.now) ≡ false
            → IfOk result (λ r. (take_spot self.old (option_map region_tree region.entry.now) true).found ≡ Is (region_of r)) }
        ensures after { OnOk result (self.new ≡ (take_spot self.old (option_map region_tree region.entry.now) true).after_it) }
    {
        match region {
            Some(RegionName::Named(name)) => self.take_named(name),
            Some(RegionName::Heap(_) | RegionName::Unique(_)) => Ok(RegionId::Heap),
            None => self.fresh(),
        }
    }

    /// The region of a name that isn't known yet.
    fn add_named(&mut self, name: &'p Name) -> Result<RegionId, AllocError>
        ensures found { IfOk result (λ r. region_of r ≡ Level self.old.count) }
        ensures after { is_none (find_region self.old.names name.entry.now.text.items) ≡ true
            → OnOk result (self.new ≡ (take_named self.old (name_tree name.entry.now) None).after_it) }
    {
        let region = self.fresh()?;
        self.names.add(&name.text, region)?;
        Ok(region)
    }

    /// A pointer with its region. None: it can't be in that region, or leads to no element.
    fn take_layer(&mut self, pointer: &'p Pointer) -> Result<Option<WrittenLayer>, AllocError>
        ensures found { (t : PartialType) → IfOk result (λ l. option_map (λ l. partial_to l t) l
            ≡ made pointer.entry.now.sign (take_spot self.old (option_map region_tree pointer.entry.now.region) true).found t) }
        ensures after { OnOk result (self.new ≡ (take_spot self.old (option_map region_tree pointer.entry.now.region) true).after_it) }
    {
        let region = self.take(&pointer.region)?;
        if is_unique(&pointer.region) {
            Ok(unique_layer(pointer.sign))
        } else {
            Ok(layer_of(pointer.sign, Some(region)))
        }
    }

    /// The pointers of a type with their regions. None: one of them can't be in its region, or leads to no element.
    pub(crate) fn take_layers(
        &mut self,
        alloc: Global,
        pointers: &'p [Pointer],
    ) -> Result<Option<WrittenLayers>, AllocError>
        ensures found { (b : PartialType) → IfOk result (λ ls.
            pointers_to (pointer_trees pointers.entry.now) (take_spots self.old (pointer_spots pointers.entry.now)).found (Some b)
            ≡ led_by (option_map (λ ls. ls.items) ls) b) }
        ensures after { OnOk result (self.new ≡ (take_spots self.old (pointer_spots pointers.entry.now)).after_all) }
    {
        let mut layers = Some(SmallVec::new(alloc));
        'each: for pointer in pointers {
            let layer = self.take_layer(pointer)?;
            layers = and_layer(layers, layer)?;
        }
        Ok(layers)
    }

    /// The region of a parameter's argument. None: it is the unique one.
    pub(crate) fn take_argument(
        &mut self,
        argument: &'p RegionName,
    ) -> Result<Option<RegionId>, AllocError>
        ensures found { IfOk result (λ r. option_map region_of r ≡ as_region (take_spot self.old (Some (region_tree argument.entry.now)) false).found) }
        ensures after { OnOk result (self.new ≡ (take_spot self.old (Some (region_tree argument.entry.now)) false).after_it) }
    {
        match argument {
            RegionName::Named(name) => {
                let region = self.take_named(name)?;
                Ok(Some(region))
            }
            RegionName::Heap(_) => Ok(Some(RegionId::Heap)),
            RegionName::Unique(_) => Ok(None),
        }
    }

    /// The written arguments of a parameter's struct or union, with their regions.
    fn take_named_arguments(
        &mut self,
        alloc: Global,
        arguments: &'p [RegionName],
    ) -> Result<WrittenArguments, AllocError>
        ensures found { IfOk result (λ found. partial_regions found.items
            ≡ map as_region (take_spots self.old (named_spots (map region_tree arguments.entry.now))).found) }
        ensures after { OnOk result (self.new ≡ (take_spots self.old (named_spots (map region_tree arguments.entry.now))).after_all) }
    {
        let mut found = SmallVec::new(alloc);
        'each: for argument in arguments {
            let region = self.take_argument(argument)?;
            found.push(region)?;
        }
        Ok(found)
    }

    /// So many missing arguments, with fresh variables.
    fn fresh_arguments(&mut self, alloc: Global, count: u32) -> Result<WrittenArguments, AllocError>
        ensures found { IfOk result (λ found. partial_regions found.items ≡ map as_region (take_spots self.old (replicate count (spot false None))).found) }
        ensures after { OnOk result (self.new ≡ (take_spots self.old (replicate count (spot false None))).after_all) }
    {
        let mut found = SmallVec::new(alloc);
        let mut left = count;
        'each: while left > 0 {
            let region = self.fresh()?;
            found.push(Some(region))?;
            left -= 1;
        }
        Ok(found)
    }

    /// The arguments of a parameter's struct or union with their regions, or `count` fresh variables if none is written.
    pub(crate) fn take_arguments(
        &mut self,
        alloc: Global,
        count: u32,
        arguments: &'p [RegionName],
    ) -> Result<WrittenArguments, AllocError>
        ensures found { IfOk result (λ found. partial_regions found.items
            ≡ map as_region (take_spots self.old (spots_by count (map region_tree arguments.entry.now))).found) }
        ensures after { OnOk result (self.new ≡ (take_spots self.old (spots_by count (map region_tree arguments.entry.now))).after_all) }
    {
        if arguments.is_empty() {
            let found = self.fresh_arguments(alloc, count)?;
            Ok(found)
        } else {
            let found = self.take_named_arguments(alloc, arguments)?;
            Ok(found)
        }
    }
}
