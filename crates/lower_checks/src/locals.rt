// The locals that are visible at a point.

ghost use Rattle.std.specs.Prelude.{◌≡◌, ◌<◌, ◌^◌, ◌∷◌, [], IfSome, OnOk, Some, None, option_map};
ghost use Rattle.cyc_tree.specs.View.{name_tree};
ghost use Rattle.source_lowering.specs.Lowered.{local_named};
ghost use Rattle.lower_checks.specs.Views.{named_tree};
ghost use Rattle.lower_checks.specs.Visible.{declared, left, names_of};

use crate::last::Lasts;
use crate::mark::{Local, Mark};
use crate::names::Named;
use crate::stored::Stored;
use cyc_tree::Name;
use std::alloc::{AllocError, Global};
use std::marker::Model;

/// The locals that are visible at a point. A contract sees them with the beginnings of the open blocks, the last one first.
#[derive(Drop)]
pub struct Locals<'p> {
    marks: Vec<Mark<'p>>,
    last: Lasts<'p, Local<'p>>,
    depth: usize,
}

impl<'p> Model for Locals<'p> {
    ghost use Rattle.std.specs.Prelude.{List, Option, reverse};
    ghost use Rattle.lower_checks.specs.Visible.{Declared};
    ghost use Rattle.lower_checks.specs.Marks.{AreLinked, marks_of};

    ghost Value = { List (Option Declared) };

    ghost view = { λ s. marks_of (reverse s.marks.items) };

    ghost invariant = { λ s. AreLinked (reverse s.marks.items) s.last s.depth };
}

impl<'p> Locals<'p> {
    /// No locals, outside of all blocks.
    pub fn new(alloc: Global) -> Self
        ensures { result ≡ [] }
    {
        Locals {
            marks: Vec::new(alloc),
            last: Lasts::new(alloc),
            depth: 0,
        }
    }

    /// The innermost local of a name, which is fewer than 2^63 blocks out.
    pub fn named(&self, name: &[u8]) -> Option<Named<'p>>
        ensures named { option_map named_tree result ≡ local_named (names_of self.now) name.now }
        ensures near { IfSome result (λ local. local.out < 2 ^ 63) }
    {
        match self.last.of(name) {
            Some(local) => Some(Named {
                name: local.name,
                stored: local.stored,
                out: self.depth.saturating_sub(local.depth),
                index: local.index,
            }),
            None => None,
        }
    }

    /// Declares a local of the innermost block, which has this number in it. Fails only where no host memory is left.
    pub fn declare(
        &mut self,
        name: &'p Name,
        stored: Stored<'p>,
        index: usize,
    ) -> Result<(), AllocError>
        ensures declared { OnOk result (self.new ≡ Some (declared (name_tree name.entry.now).text stored.entry index) ∷ self.old) }
    {
        let local = Local {
            name: &name.text,
            stored,
            index,
            depth: self.depth,
        };
        let hidden = self.last.of(local.name);
        if let Err(_) = self.marks.push(Mark::Declare(local, hidden)) {
            return Err(AllocError);
        }
        match self.last.add(local.name, local) {
            Ok(()) => Ok(()),
            Err(_) => {
                self.marks.pop();
                Err(AllocError)
            }
        }
    }

    /// Begins a block. Fails only where no host memory is left.
    pub fn enter(&mut self) -> Result<(), AllocError>
        ensures entered { OnOk result (self.new ≡ None ∷ self.old) }
    {
        if let Err(_) = self.marks.push(Mark::Begin) {
            return Err(AllocError);
        }
        self.depth += 1;
        Ok(())
    }

    /// Leaves the innermost block.
    pub fn leave(&mut self)
        ensures { self.new ≡ left self.old }
    {
        'marks: while let Some(mark) = self.marks.pop() {
            match mark {
                Mark::Begin => {
                    self.depth = self.depth.saturating_sub(1);
                    return;
                }
                Mark::Declare(local, hidden) => self.last.set(local.name, hidden),
            }
        }
    }
}
