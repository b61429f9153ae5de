// What an expression is lowered in.

ghost use Rattle.std.specs.Prelude.{◌≡◌, option_map};
ghost use Rattle.source_lowering.specs.Lowered.{local_named};
ghost use Rattle.lower_checks.specs.Scoped.{names_in};
ghost use Rattle.lower_checks.specs.Views.{named_tree};

use crate::locals::Locals;
use crate::names::Named;
use crate::numbers::Number;
use crate::shape::Shape;
use crate::stored::Stored;
use crate::table::Table;
use std::alloc::Global;

/// A program, the locals that are visible, and the numbers of the elements that are being made, the innermost one first.
#[derive(Clone, Copy)]
pub struct Scope<'s, 'p> {
    pub alloc: Global,
    pub program: &'s Table<'p>,
    pub locals: &'s Locals<'p>,
    pub numbers: &'s [Number<'p>],
}

impl<'s, 'p> Scope<'s, 'p> {
    /// The innermost local of a name: an element's number, or one that was declared before its array.
    pub fn named(&self, name: &[u8]) -> Option<Named<'p>>
        ensures { option_map named_tree result ≡ local_named (names_in self.now) name.now }
    {
        'each: for (out, number) in self.numbers.iter().enumerate() {
            if number.name == name {
                return Some(Named {
                    name: number.name,
                    stored: Stored::One(Shape::Unsigned),
                    out,
                    index: 0,
                });
            }
        }
        match self.locals.named(name) {
            Some(local) => Some(Named {
                name: local.name,
                stored: local.stored,
                out: local.out + self.numbers.len(),
                index: local.index,
            }),
            None => None,
        }
    }
}
