// What a call instantiates the region variables of a function to.

use crate::spots::Spot;
use check_calls::{Target, called};
use check_faults::Verdict;
use check_heads::{Names, head_meaning, read_head};
use check_operators::Value;
use check_scopes::{Meaning, Named, Scope};
use cyc_tree::{Expression, Function, Item, Name};
use cyc_types::{BaseType, CType, RegionId};
use fault_words::{Labels, Words, say_region};
use std::alloc::{AllocError, Global};

/// Where a function is called.
#[derive(Clone, Copy)]
pub(crate) struct Called<'s, 'g, 'p> {
    pub(crate) scope: &'s Scope<'g, 'p>,
    pub(crate) labels: &'s Labels<'p>,
    pub(crate) names: Names<'g, 'p>,
    pub(crate) items: &'p [Item],
    pub(crate) alloc: Global,
}

/// The function of a name.
fn function_of<'p>(items: &'p [Item], name: &[u8]) -> Option<&'p Function> {
    for item in items {
        if let Item::Function(function) = item {
            if function.name.text.as_slice() == name {
                return Some(function);
            }
        }
    }
    None
}

impl<'s, 'g, 'p> Called<'s, 'g, 'p> {
    /// The values of arguments; none, where one has a fault. Fails only where no host memory is left, as all of these.
    fn values(
        self,
        spot: Spot<'_>,
        arguments: &[Expression],
    ) -> Result<Option<Vec<Value<'p>>>, AllocError> {
        let mut values = Vec::new(self.alloc);
        for argument in arguments {
            match spot.judged(self.scope, self.alloc, argument)? {
                Verdict::Of(value) => values.push(value)?,
                Verdict::Wrong(_) | Verdict::NotJudged => return Ok(None),
            }
        }
        Ok(Some(values))
    }

    /// What a region variable stands for in a call: the region that its handle would have, if the function gave that.
    fn region_of(
        self,
        spot: Spot<'_>,
        function: &'p Function,
        at: u32,
        values: &[Value<'p>],
        variable: RegionId,
    ) -> Result<Option<RegionId>, AllocError> {
        let mut head = read_head(self.alloc, self.names.tags, false, function)?;
        head.result = Verdict::Of(CType::plain(self.alloc, BaseType::Handle(variable)));
        let meaning = head_meaning(self.alloc, head)?;
        let Meaning::Function(signature) = &meaning else {
            return Ok(None);
        };
        let target = Target::Function(signature);
        let judged = called(self.scope, self.alloc, spot.enclosing, at, target, values)?;
        match judged {
            Verdict::Of(value) => Ok(handle_region(&value.of)),
            Verdict::Wrong(_) | Verdict::NotJudged => Ok(None),
        }
    }

    /// Says what each region variable of a function stands for in a call.
    fn say_variables(
        self,
        words: &mut Words<'_>,
        spot: Spot<'_>,
        function: &'p Function,
        at: u32,
        values: &[Value<'p>],
    ) -> Result<(), AllocError> {
        let head = read_head(self.alloc, self.names.tags, false, function)?;
        let mut own = Labels::new(self.alloc);
        own.add_head(&head, function)?;
        for level in 0..head.variables.count() {
            let variable = RegionId::Level(level);
            if let Some(region) = self.region_of(spot, function, at, values, variable)? {
                words.say("Here ")?;
                say_region(words, &own, variable)?;
                words.say(" is ")?;
                say_region(words, self.labels, region)?;
                words.say(".\n")?;
            }
        }
        Ok(())
    }

    /// Says what the region variables stand for in a call of a function of the program.
    pub(crate) fn say(
        self,
        words: &mut Words<'_>,
        spot: Spot<'_>,
        name: &Name,
        arguments: &[Expression],
    ) -> Result<(), AllocError> {
        let Some(Named::Function(_)) = self.scope.meaning(&name.text) else {
            return Ok(());
        };
        let Some(function) = function_of(self.items, &name.text) else {
            return Ok(());
        };
        match self.values(spot, arguments)? {
            Some(values) => self.say_variables(words, spot, function, name.at, values.as_slice()),
            None => Ok(()),
        }
    }
}

/// The region of a handle.
fn handle_region(of: &CType<'_>) -> Option<RegionId> {
    match &of.base {
        BaseType::Handle(region) => Some(*region),
        _ => None,
    }
}
