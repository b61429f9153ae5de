// The numbers of functions, by their names.

ghost use Rattle.std.specs.Prelude.{◌≡◌, ℕ, List, Some, None, if◌then◌else◌, IfOk, OnOk};
ghost use Rattle.std.specs.Str.{bytes_eq};
ghost use Rattle.cyc_tree.specs.View.{program_tree};
ghost use Rattle.source_meaning.specs.Places.{or_else};
ghost use Rattle.source_meaning.specs.Programs.{functions_of};
ghost use Rattle.stack_needs.specs.Numbers.{number_from, number_in};

use cyc_tree::Item;
use indexmap::IndexMap;
use std::alloc::{AllocError, Global};
use std::marker::Model;

/// The number of the first function of each name.
#[derive(Drop)]
struct Numbers<'p> {
    by_name: IndexMap<&'p [u8], usize>,
}

impl<'p> Numbers<'p> {
    /// No name has one.
    fn new(alloc: Global) -> Self
        ensures { (name : List ℕ) → number_in result name ≡ None }
    {
        Numbers {
            by_name: IndexMap::new(alloc),
        }
    }

    /// The number that a name has.
    fn of(&self, name: &[u8]) -> Option<usize>
        ensures { result ≡ number_in self.now name.now }
    {
        match self.by_name.get(name) {
            Some(number) => Some(*number),
            None => None,
        }
    }

    /// Gives a name its number, where it has none. Fails only where no host memory is left.
    fn add(&mut self, name: &'p [u8], number: usize) -> Result<(), AllocError>
        ensures { OnOk result ((other : List ℕ) → number_in self.new other ≡ or_else (number_in self.old other) (if bytes_eq name.now other then Some number else None)) }
    {
        if !self.by_name.contains_key(name) {
            self.by_name.insert(name, number)?;
        }
        Ok(())
    }
}

/// The number of the first function of each name. Fails only where no host memory is left.
fn numbers_of<'p>(alloc: Global, items: &'p [Item]) -> Result<Numbers<'p>, AllocError>
    ensures { IfOk result (λ numbers. (name : List ℕ) → number_in numbers name ≡ number_from (functions_of (program_tree items.entry.now)) 0 name) }
{
    let mut numbers = Numbers::new(alloc);
    let mut count = 0;
    'each: for item in items {
        if let Item::Function(function) = item {
            numbers.add(&function.name.text, count)?;
            count += 1;
        }
    }
    Ok(numbers)
}

/// The functions of a program, by their names. A contract sees the program.
#[derive(Drop)]
pub(crate) struct Functions<'p> {
    items: &'p [Item],
    numbers: Numbers<'p>,
}

impl<'p> Model for Functions<'p> {
    ghost use Rattle.cyc_tree.specs.Tree.{Program as Tree};
    ghost use Rattle.cyc_tree.specs.Tree as tree;
    ghost use Rattle.cyc_tree.specs.View.{program_tree};
    ghost use Rattle.cyc_tree.specs.Stored.{coded_program};
    ghost use Rattle.source_meaning.specs.Programs.{functions_of};
    ghost use Rattle.stack_needs.specs.Numbers.{AreNumbersOf};

    ghost Value = { Tree };

    ghost coded = { coded_program };

    ghost view = { λ s. program_tree s.items.now };

    ghost invariant = { λ s. AreNumbersOf (functions_of (program_tree s.items.now)) s.numbers };
}

impl<'p> Functions<'p> {
    /// Those of these items. Fails only where no host memory is left.
    pub(crate) fn of(alloc: Global, items: &'p [Item]) -> Result<Self, AllocError>
        ensures { IfOk result (λ functions. functions ≡ program_tree items.entry.now) }
    {
        let numbers = numbers_of(alloc, items)?;
        Ok(Functions { items, numbers })
    }

    /// The number of the first function of a name.
    pub(crate) fn number(&self, name: &[u8]) -> Option<usize>
        ensures { result ≡ number_from (functions_of self.now) 0 name.now }
    {
        self.numbers.of(name)
    }
}
