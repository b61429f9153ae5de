// What regions without a name are called.

use check_faults::Verdict;
use check_heads::{Head, Parameter};
use check_regions::RegionNames;
use cyc_tree::{Base, Declaration, Function, Name, Pointer, RegionName, TypeName};
use cyc_types::{BaseType, CType, Layer, RegionId};
use std::alloc::AllocError;

/// What a region is called.
#[derive(Clone, Copy)]
pub enum Label<'p> {
    /// A name that the text has, and where.
    Named(&'p [u8], u32),
    /// The region of a parameter that is written without one: the parameter's name, and where it stands.
    Of(&'p [u8], u32),
    /// A region within the type of such a parameter.
    Within(&'p [u8], u32),
    /// That of the locals of a function.
    Locals(&'p [u8]),
    /// That of the locals of a block at an offset.
    Block(u32),
}

/// A region by its level, and what it is called.
#[derive(Clone, Copy)]
struct Labelled<'p> {
    level: u32,
    label: Label<'p>,
}

/// What the regions are called that are in scope.
#[derive(Drop)]
pub struct Labels<'p> {
    all: Vec<Labelled<'p>>,
}

/// The region that a pointer leads into, where it has a name.
pub fn layer_region(layer: Layer) -> Option<RegionId> {
    match layer {
        Layer::Thin(_, region) | Layer::Fat(region) => Some(region),
        Layer::Unique(_) => None,
    }
}

/// The regions of a type that is no pointer.
pub fn base_regions<'a>(base: &'a BaseType<'_>) -> &'a [RegionId] {
    match base {
        BaseType::Struct(_, regions) | BaseType::Union(_, regions) => regions.as_slice(),
        _ => &[],
    }
}

/// The regions that are written at a type's base.
fn written_regions(base: &Base) -> &[RegionName] {
    match base {
        Base::Struct(_, regions) | Base::Union(_, regions) => regions.as_slice(),
        _ => &[],
    }
}

impl<'p> Labels<'p> {
    /// None.
    pub fn new(alloc: std::alloc::Global) -> Self {
        Labels {
            all: Vec::new(alloc),
        }
    }

    /// What a region is called; the heap has its own name.
    pub fn of(&self, region: RegionId) -> Option<Label<'p>> {
        let RegionId::Level(level) = region else {
            return None;
        };
        for labelled in self.all.iter() {
            if labelled.level == level {
                return Some(labelled.label);
            }
        }
        None
    }

    /// Calls a region so that isn't called otherwise. Fails only where no host memory is left.
    pub fn add(&mut self, region: RegionId, label: Label<'p>) -> Result<(), AllocError> {
        if let RegionId::Level(level) = region {
            if self.of(region).is_none() {
                self.all.push(Labelled { level, label })?;
            }
        }
        Ok(())
    }

    /// Whether a region has this name.
    pub fn has_name(&self, name: &[u8]) -> bool {
        for labelled in self.all.iter() {
            if let Label::Named(other, _) = labelled.label {
                if other == name {
                    return true;
                }
            }
        }
        false
    }

    /// Calls a region by its name. Fails only where no host memory is left.
    fn add_name(&mut self, names: &RegionNames<'_>, name: &'p Name) -> Result<(), AllocError> {
        match names.find(&name.text) {
            Some(region) => self.add(region, Label::Named(&name.text, name.at)),
            None => Ok(()),
        }
    }

    /// The same of a name as it is written. Fails only where no host memory is left.
    fn add_written(
        &mut self,
        names: &RegionNames<'_>,
        region: &'p RegionName,
    ) -> Result<(), AllocError> {
        match region {
            RegionName::Named(name) => self.add_name(names, name),
            RegionName::Heap(_) | RegionName::Unique(_) => Ok(()),
        }
    }

    /// Calls the regions so that are written at pointers. Fails only where no host memory is left.
    fn add_pointers(
        &mut self,
        names: &RegionNames<'_>,
        pointers: &'p [Pointer],
    ) -> Result<(), AllocError> {
        for pointer in pointers {
            if let Some(region) = &pointer.region {
                self.add_written(names, region)?;
            }
        }
        Ok(())
    }

    /// Calls the regions so that are written in a type. Fails only where no host memory is left.
    fn add_type(&mut self, names: &RegionNames<'_>, of: &'p TypeName) -> Result<(), AllocError> {
        if let Base::Handle(region) | Base::Key(region) = &of.base {
            self.add_written(names, region)?;
        }
        for region in written_regions(&of.base) {
            self.add_written(names, region)?;
        }
        self.add_pointers(names, &of.pointers)
    }

    /// Calls the regions of a parameter's type that have no name by the parameter. Fails only where no host memory is left.
    fn add_own(&mut self, parameter: &Parameter<'p>, of: &CType<'p>) -> Result<(), AllocError> {
        if let Some(layer) = of.outer() {
            if let Some(region) = layer_region(layer) {
                self.add(region, Label::Of(parameter.name, parameter.at))?;
            }
        }
        let pointers = of.layers.pointers();
        for layer in pointers.inner.iter().chain(pointers.outer.iter()) {
            if let Some(region) = layer_region(*layer) {
                self.add(region, Label::Within(parameter.name, parameter.at))?;
            }
        }
        for region in base_regions(&of.base) {
            self.add(*region, Label::Within(parameter.name, parameter.at))?;
        }
        Ok(())
    }

    /// Calls the regions of parameters by them that have no name. Fails only where no host memory is left.
    fn add_parameters(&mut self, parameters: &[Parameter<'p>]) -> Result<(), AllocError> {
        for parameter in parameters {
            if let Verdict::Of(of) = &parameter.of {
                self.add_own(parameter, of)?;
            }
        }
        Ok(())
    }

    /// Calls the regions of a function's head. Fails only where no host memory is left.
    pub fn add_head(&mut self, head: &Head<'p>, function: &'p Function) -> Result<(), AllocError> {
        for parameter in function.parameters.iter() {
            self.add_type(head.variables.names(), &parameter.of)?;
        }
        self.add_parameters(head.parameters.as_slice())?;
        let frame = RegionId::Level(head.variables.count());
        self.add(frame, Label::Locals(&function.name.text))
    }

    /// Calls the region of a declaration. Fails only where no host memory is left.
    pub fn add_declared(
        &mut self,
        names: &RegionNames<'_>,
        declaration: &'p Declaration,
    ) -> Result<(), AllocError> {
        match declaration {
            Declaration::Local(_, _, _) => Ok(()),
            Declaration::Region(_, region, _)
            | Declaration::Open(_, region, _, _)
            | Declaration::Alias(_, region, _, _, _)
            | Declaration::NewKey(_, region, _) => self.add_written(names, region),
        }
    }
}
