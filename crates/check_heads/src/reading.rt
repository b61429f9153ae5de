// The parameters of heads.

ghost use Rattle.std.specs.Prelude.{IfOk, List, OnOk, [], ◌++◌, ◌∷◌, map};
ghost use Rattle.cyc_tree.specs.Tree as tree;
ghost use Rattle.cyc_tree.specs.View.{function_tree, member_tree};
ghost use Rattle.source_typing.specs.Tables.{Tables};
ghost use Rattle.check_types.specs.Naming.{AreTagNames};
ghost use Rattle.check_heads.specs.Reading.{AreRead};

use crate::head::Parameter;
use check_types::{RegionVariables, TagNames, tag_of_type};
use cyc_tree::{Function, Member};
use std::alloc::{AllocError, Global};

/// The parameters of a head as far as they are read, and the region variables of their types.
#[derive(Drop)]
pub(crate) struct Parameters<'p> {
    pub(crate) variables: RegionVariables<'p>,
    pub(crate) items: Vec<Parameter<'p>>,
}

impl<'p> Parameters<'p> {
    /// None.
    fn new(alloc: Global) -> Self
        ensures { (g : Tables) → AreRead g result.variables result.items.items [] }
    {
        Parameters {
            variables: RegionVariables::new(alloc),
            items: Vec::new(alloc),
        }
    }

    /// Reads one more.
    fn add(
        &mut self,
        alloc: Global,
        tags: &TagNames<'_>,
        member: &'p Member,
    ) -> Result<(), AllocError>
        ensures { (g : Tables) (ms : List tree.Member) → AreTagNames tags.now g → AreRead g self.old.variables self.old.items.items ms
            → OnOk result (AreRead g self.new.variables self.new.items.items (ms ++ member_tree member.entry.now ∷ [])) }
    {
        let tag = tag_of_type(tags, &member.of);
        let of = self.variables.parameter_in(alloc, tag, &member.of)?;
        self.items.push(Parameter {
            name: &member.name.text,
            at: member.name.at,
            of,
        })?;
        Ok(())
    }

    /// Reads these.
    fn add_all(
        &mut self,
        alloc: Global,
        tags: &TagNames<'_>,
        members: &'p [Member],
    ) -> Result<(), AllocError>
        ensures { (g : Tables) (ms : List tree.Member) → AreTagNames tags.now g → AreRead g self.old.variables self.old.items.items ms
            → OnOk result (AreRead g self.new.variables self.new.items.items (ms ++ map member_tree members.entry.now)) }
    {
        'each: for member in members {
            self.add(alloc, tags, member)?;
        }
        Ok(())
    }

    /// The parameters of a function.
    pub(crate) fn of(
        alloc: Global,
        tags: &TagNames<'_>,
        function: &'p Function,
    ) -> Result<Parameters<'p>, AllocError>
        ensures { (g : Tables) → AreTagNames tags.now g
            → IfOk result (λ ps. AreRead g ps.variables ps.items.items (function_tree function.entry.now).parameters) }
    {
        let mut parameters = Parameters::new(alloc);
        parameters.add_all(alloc, tags, &function.parameters)?;
        Ok(parameters)
    }
}
