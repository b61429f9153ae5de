// What is said of `.`, `->` and `[ ]` behind what they don't fit.

use crate::used::{Told, say_typed, type_of};
use check_expressions::{arrow_part, indexed_parts, member_part};
use check_faults::Verdict;
use check_operators::Value;
use cyc_tree::{Expression, Suffix};
use cyc_types::{BaseType, CType};
use std::alloc::AllocError;

/// What is wanted before `.`, where something of this type stands there.
fn before_dot(of: &CType<'_>) -> &'static str {
    if of.outer().is_some() {
        return "Wanted: a struct. Behind a pointer to one write `->`.\n";
    }
    match of.base {
        BaseType::Struct(_, _) =>
            "Wanted: a struct in a variable: give the value to a local first.\n",
        BaseType::Union(_, _) =>
            "Wanted: a struct. Only `switch` reaches the members of a union.\n",
        _ => "Wanted: a struct\n",
    }
}

/// What is wanted before `->`, where something of this type stands there.
fn before_arrow(of: &CType<'_>) -> &'static str {
    match (of.outer(), &of.base) {
        (None, BaseType::Struct(_, _)) => {
            "Wanted: a pointer to a struct. Behind a struct itself write `.`.\n"
        }
        (_, BaseType::Union(_, _)) => {
            "Wanted: a pointer to a struct. Only `switch` reaches the members of a union.\n"
        }
        _ => "Wanted: a pointer to a struct\n",
    }
}

/// What is wanted of a suffix, where something of this type stands before it.
fn wanted_of(suffix: &Suffix, of: &CType<'_>) -> &'static str {
    match suffix {
        Suffix::Dot(_) => before_dot(of),
        Suffix::Arrow(_) => before_arrow(of),
        Suffix::Index(_) if of.outer().is_some() => "Wanted: an integer as the index\n",
        Suffix::Index(_) => "Wanted: an array or a pointer\n",
    }
}

/// Whether a type is a pointer to a struct.
fn leads_to_struct(of: &CType<'_>) -> bool {
    of.layers.len() == 1 && matches!(of.base, BaseType::Struct(_, _))
}

/// Whether a type is a struct.
fn is_struct(of: &CType<'_>) -> bool {
    of.layers.is_empty() && matches!(of.base, BaseType::Struct(_, _))
}

impl<'m, 'w, 'g, 'p> Told<'m, 'w, 'g, 'p> {
    /// Tells the edit of the sign before a member, where the other one is wanted.
    fn mend_sign(&mut self, before: &CType<'p>, suffix: &Suffix) -> Result<(), AllocError> {
        match suffix {
            Suffix::Dot(name) if leads_to_struct(before) => {
                self.words.mend_before(name.at, b".", b"->")
            }
            Suffix::Arrow(name) if is_struct(before) => {
                self.words.mend_before(name.at, b"->", b".")
            }
            _ => Ok(()),
        }
    }

    /// What a suffix gives. Fails only where no host memory is left, as all of these.
    fn suffixed(
        &self,
        operand: Verdict<Value<'p>>,
        suffix: &Suffix,
    ) -> Result<Verdict<Value<'p>>, AllocError> {
        match suffix {
            Suffix::Dot(field) => member_part(self.walk.scope.tables, field, operand),
            Suffix::Arrow(field) => arrow_part(&self.walk.scope, field, operand),
            Suffix::Index(index) => {
                let index = self.judged(index)?;
                Ok(indexed_parts(&self.walk.scope, operand, index))
            }
        }
    }

    /// Says what was found before a suffix, and what was wanted.
    fn say_suffix(&mut self, before: &CType<'p>, suffix: &Suffix) -> Result<(), AllocError> {
        say_typed(self.words, &self.walk.labels, "Found:  ", before)?;
        self.words.say(wanted_of(suffix, before))?;
        self.mend_sign(before, suffix)
    }

    /// Says of the first wrong suffix behind an expression what was found and wanted.
    pub(crate) fn say_suffixed(
        &mut self,
        first: &Expression,
        suffixes: &[Suffix],
    ) -> Result<(), AllocError> {
        let mut judged = self.judged(first)?;
        for suffix in suffixes {
            let before = type_of(&judged)?;
            judged = self.suffixed(judged, suffix)?;
            if let (Some(before), Some(_)) = (&before, judged.fault()) {
                return self.say_suffix(before, suffix);
            }
        }
        Ok(())
    }
}
