// What the arguments of calls are, and what is wanted of them.

use crate::labels::layer_region;
use crate::used::{Told, end_of};
use check_faults::Verdict;
use check_scopes::Named;
use cyc_tree::{Expression, Item, Member, Name};
use cyc_types::RegionId;
use std::alloc::AllocError;

/// The members of a struct of a name, or the parameters of a function.
pub(crate) fn declared<'p>(items: &'p [Item], name: &[u8]) -> Option<&'p [Member]> {
    for item in items {
        match item {
            Item::Struct(structure) | Item::Union(structure) => {
                if structure.tag.text.as_slice() == name {
                    return Some(structure.members.as_slice());
                }
            }
            Item::Function(function) => {
                if function.name.text.as_slice() == name {
                    return Some(function.parameters.as_slice());
                }
            }
            Item::Global(_) => {}
        }
    }
    None
}

/// The argument at an offset, by its number from 0 on.
fn argument_at(arguments: &[Expression], at: u32) -> Option<usize> {
    for (index, argument) in arguments.iter().enumerate() {
        if argument.place() == at {
            return Some(index);
        }
    }
    None
}

/// A number as it is said.
fn said(number: usize) -> u32 {
    u32::try_from(number).unwrap_or(u32::MAX)
}

impl<'m, 'w, 'g, 'p> Told<'m, 'w, 'g, 'p> {
    /// Says how many arguments a call takes, where it is given others.
    fn say_count(&mut self, name: &Name, given: usize, taken: usize) -> Result<(), AllocError> {
        if given == taken {
            return Ok(());
        }
        self.words.name(&name.text)?;
        self.words.say(" takes ")?;
        self.words.number(said(taken))?;
        self.words.say(if taken == 1 {
            " argument, and "
        } else {
            " arguments, and "
        })?;
        self.words.number(said(given))?;
        self.words.say(if given == 1 {
            " is given.\n"
        } else {
            " are given.\n"
        })
    }

    /// Says what is wanted of a call: its parameter, or the member of the struct that is made.
    fn say_member(&mut self, name: &Name, member: &Member) -> Result<(), AllocError> {
        self.words.say("Wanted: ")?;
        self.words.written(member.of.at, end_of(&member.name))?;
        self.words.say(", of ")?;
        self.words.name(&name.text)?;
        self.words.say(" at ")?;
        self.words.position(member.name.at)?;
        self.words.say("\n")?;
        let declared = &member.name;
        self.words
            .relate(declared.at, "declared here: ", &declared.text)
    }

    /// The region of a function's parameter by its number, where it has no variable: the heap.
    fn parameter_region(&self, name: &Name, index: usize) -> Option<RegionId> {
        let Some(Named::Function(signature)) = self.walk.scope.meaning(&name.text) else {
            return None;
        };
        let Some(Some(parameter)) = signature.parameters.get(index) else {
            return None;
        };
        match layer_region(parameter.outer()?) {
            Some(region) if region.is_heap() => Some(region),
            _ => None,
        }
    }

    /// Says what an argument is, and what is wanted of it.
    fn say_argument(
        &mut self,
        name: &Name,
        member: &Member,
        index: usize,
        argument: &Expression,
    ) -> Result<(), AllocError> {
        if let Verdict::Of(found) = self.judged(argument)? {
            self.say_found(&found)?;
            self.say_member(name, member)?;
            let wanted = self.parameter_region(name, index);
            self.say_outer(&found, wanted)?;
        }
        Ok(())
    }

    /// Says of a call of a function that every program has what is found and wanted.
    fn say_builtin(
        &mut self,
        name: &Name,
        arguments: &[Expression],
        taken: u32,
    ) -> Result<(), AllocError> {
        match arguments {
            [argument] if taken == 1 => {
                if let Verdict::Of(found) = self.judged(argument)? {
                    self.say_found(&found)?;
                    self.words.say("Wanted: an integer\n")?;
                }
                Ok(())
            }
            _ => self.say_count(name, arguments.len(), taken as usize),
        }
    }

    /// Why a name can't be called, where it is known.
    fn uncalled(&self, name: &Name) -> Option<&'static str> {
        match self.walk.scope.meaning(&name.text) {
            Some(Named::Variable(_, _) | Named::Array(_, _) | Named::Counter) => {
                Some(" is no function.\n")
            }
            Some(Named::Tag { is_union: true, .. }) => {
                Some(" is a union: its values are made by a member's name, as U.x(1).\n")
            }
            _ => None,
        }
    }

    /// Why a name is no value, where it is known.
    fn unvalued(&self, name: &Name) -> Option<&'static str> {
        match self.walk.scope.meaning(&name.text) {
            Some(Named::Function(_) | Named::Builtin(_)) => {
                Some(" is a function, and can only be called.\n")
            }
            Some(Named::Tag { .. } | Named::FaultyTag(_)) => {
                Some(" is a struct or union, and no value.\n")
            }
            _ => None,
        }
    }

    /// How many arguments a function takes that every program has, where a name is one.
    fn taken(&self, name: &Name) -> Option<u32> {
        match self.walk.scope.meaning(&name.text) {
            Some(Named::Builtin(taken)) => Some(taken),
            _ => None,
        }
    }

    /// Says a name, and why it isn't used rightly, where that is known.
    fn say_of(&mut self, name: &Name, said: Option<&str>) -> Result<(), AllocError> {
        match said {
            Some(said) => {
                self.words.name(&name.text)?;
                self.words.say(said)
            }
            None => Ok(()),
        }
    }

    /// Says of a name that is used as a value that it is none.
    pub(crate) fn say_variable(&mut self, name: &Name) -> Result<(), AllocError> {
        let said = self.unvalued(name);
        self.say_of(name, said)
    }

    /// Says of a call with a fault what is found and wanted.
    pub(crate) fn say_call(
        &mut self,
        name: &Name,
        arguments: &[Expression],
    ) -> Result<(), AllocError> {
        let said = self.uncalled(name);
        if said.is_some() {
            return self.say_of(name, said);
        }
        match self.taken(name) {
            Some(taken) => self.say_builtin(name, arguments, taken),
            None => self.say_called(name, arguments),
        }
    }

    /// The same of a function of the program, or of a struct that is made.
    fn say_called(&mut self, name: &Name, arguments: &[Expression]) -> Result<(), AllocError> {
        let Some(members) = declared(self.items, &name.text) else {
            return Ok(());
        };
        let Some(index) = argument_at(arguments, self.at) else {
            return self.say_count(name, arguments.len(), members.len());
        };
        match (members.get(index), arguments.get(index)) {
            (Some(member), Some(argument)) => self.say_argument(name, member, index, argument),
            _ => Ok(()),
        }
    }

    /// Says of a union's value that is made what is found and wanted.
    pub(crate) fn say_union(
        &mut self,
        tag: &Name,
        field: &Name,
        value: &Expression,
    ) -> Result<(), AllocError> {
        let Some(members) = declared(self.items, &tag.text) else {
            return Ok(());
        };
        for (index, member) in members.iter().enumerate() {
            if member.name.text == field.text {
                return self.say_argument(tag, member, index, value);
            }
        }
        Ok(())
    }
}
