// The region parameters of structs and unions.

ghost use Rattle.std.specs.Prelude.{◌≡◌, ◌+◌, ◌∷◌, IfOk, List, OnOk, [], length, map};
ghost use Rattle.cyc_tree.specs.Tree as tree;
ghost use Rattle.cyc_tree.specs.View.{region_tree};
ghost use Rattle.source_typing.specs.Faults.{earliest, test};
ghost use Rattle.check_faults.specs.Faults.{faults_of, number_of};
ghost use Rattle.check_structs.specs.Parameters.{AreParameters, ParametersLeft, is_new_parameter, with_parameter};

use check_faults::{Fault, FaultKind, sooner};
use check_regions::RegionNames;
use cyc_tree::RegionName;
use cyc_types::RegionId;
use std::alloc::{AllocError, Global};

/// A number more. If it is over a u32, memory has run out.
pub(crate) fn next_number(number: u32) -> Result<u32, AllocError>
    ensures { IfOk result (λ next. next ≡ number + 1) }
{
    match number.checked_add(1) {
        Some(next) => Ok(next),
        None => Err(AllocError),
    }
}

/// The fault of a second name, where it isn't new.
pub(crate) fn unless_new(is_new: bool, kind: FaultKind, at: u32) -> Option<Fault>
    ensures { faults_of result ≡ earliest (test is_new (number_of kind) at) }
{
    if is_new {
        None
    } else {
        Some(Fault { kind, at })
    }
}

/// The region parameters of a struct or union.
#[derive(Drop)]
pub(crate) struct RegionParameters<'p> {
    /// Those that are in scope in its members.
    pub(crate) names: RegionNames<'p>,
    /// How many there are.
    pub(crate) count: u32,
    /// Their earliest fault.
    pub(crate) fault: Option<Fault>,
}

/// Adds a region parameter of this number where it has a name and none of its spelling is there, and tells whether it did.
fn add_name<'p>(
    names: &mut RegionNames<'p>,
    number: u32,
    region: &'p RegionName,
) -> Result<bool, AllocError>
    ensures names { OnOk result (names.new ≡ with_parameter number (region_tree region.entry.now) names.old) }
    ensures is_new { IfOk result (λ is_new. is_new ≡ is_new_parameter (region_tree region.entry.now) names.old) }
{
    match region {
        RegionName::Named(name) => {
            let is_new = names.add(&name.text, RegionId::Level(number))?;
            Ok(is_new)
        }
        RegionName::Heap(_) | RegionName::Unique(_) => Ok(false),
    }
}

impl<'p> RegionParameters<'p> {
    /// Adds one. Fails only where no host memory is left, or there would be 2^32.
    fn add(&mut self, region: &'p RegionName) -> Result<(), AllocError>
        ensures { (all rest : List tree.RegionName) → ParametersLeft all self.old (region_tree region.entry.now ∷ rest)
            → OnOk result (ParametersLeft all self.new rest) }
    {
        let is_new = add_name(&mut self.names, self.count, region)?;
        let fault = unless_new(is_new, FaultKind::Region, region.place());
        let count = next_number(self.count)?;
        self.fault = sooner(self.fault, fault);
        self.count = count;
        Ok(())
    }
}

/// The region parameters of a struct or union, in the order of the text: a second one of a name, and a name that is the heap's or the unique
/// region's, has a fault at it. Fails only where no host memory is left, or there are 2^32.
pub(crate) fn region_parameters<'p>(
    alloc: Global,
    regions: &'p [RegionName],
) -> Result<RegionParameters<'p>, AllocError>
    ensures { IfOk result (λ r. AreParameters (map region_tree regions.entry.now) r) }
{
    let mut parameters = RegionParameters {
        names: RegionNames::new(alloc),
        count: 0,
        fault: None,
    };
    'each: for region in regions {
        parameters.add(region)?;
    }
    Ok(parameters)
}
