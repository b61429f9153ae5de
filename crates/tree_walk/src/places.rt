// The strings of a program, by their places.

ghost use Rattle.std.specs.Prelude.{◌≡◌, ◌<◌, ◌^◌, ℕ, Some, None, IfOk, IfSome, OnOk, if◌then◌else◌, nat_eq, map, option_map};
ghost use Rattle.cyc_tree.specs.View.{program_tree};
ghost use Rattle.source_meaning.specs.Places.{or_else};
ghost use Rattle.source_meaning.specs.Strings.{program_strings};
ghost use Rattle.tree_walk.specs.Listing.{listed, literal_of};
ghost use Rattle.tree_walk.specs.Numbered.{first_at, in_places, numbered};

use crate::found::Literal;
use crate::items::strings_of;
use cyc_tree::Item;
use indexmap::IndexMap;
use std::alloc::{AllocError, Global};
use std::marker::Model;

/// A string: its number among the program's strings, and how many bytes it has with the final 0.
#[derive(Clone, Copy)]
pub struct Numbered {
    pub number: usize,
    pub count: usize,
}

/// The first string of each place.
#[derive(Drop)]
struct Places {
    by_place: IndexMap<u32, Numbered>,
}

/// The strings of a program, by their places. A contract sees them as the literals in the order of the text.
#[derive(Drop)]
pub struct Strings<'p> {
    all: Vec<Literal<'p>>,
    places: Places,
}

impl<'p> Model for Strings<'p> {
    ghost use Rattle.std.specs.Prelude.{List};
    ghost use Rattle.source_meaning.specs.Strings as meaning;
    ghost use Rattle.tree_walk.specs.Listing.{listed};
    ghost use Rattle.tree_walk.specs.Numbered.{AreFirst};

    ghost Value = { List meaning.Literal };

    ghost view = { λ s. listed s.all.items };

    ghost invariant = { λ s. AreFirst (listed s.all.items) s.places };
}

impl Places {
    /// No place has one.
    fn new(alloc: Global) -> Self
        ensures { (at : ℕ) → in_places result at ≡ None }
    {
        Places {
            by_place: IndexMap::new(alloc),
        }
    }

    /// The first of the place.
    fn of(&self, at: u32) -> Option<Numbered>
        ensures { result ≡ in_places self.now at }
    {
        match self.by_place.get(&at) {
            Some(first) => Some(*first),
            None => None,
        }
    }

    /// Adds one of the place, which is the first where the place has none. Fails only where no host memory is left.
    fn add(&mut self, at: u32, value: Numbered) -> Result<(), AllocError>
        ensures { OnOk result ((other : ℕ) → in_places self.new other ≡ or_else (in_places self.old other) (if nat_eq at other then Some value else None)) }
    {
        if !self.by_place.contains_key(&at) {
            self.by_place.insert(at, value)?;
        }
        Ok(())
    }
}

/// A string of this number.
fn number_of(literal: &Literal<'_>, number: usize) -> Numbered
    ensures { result ≡ numbered (literal_of literal.now) number }
{
    Numbered {
        number,
        count: literal.bytes.len() + 1,
    }
}

/// The first string of each place. Fails only where no host memory is left.
fn first_places(alloc: Global, all: &[Literal<'_>]) -> Result<Places, AllocError>
    ensures { IfOk result (λ places. (at : ℕ) → in_places places at ≡ first_at (map literal_of all.now) 0 at) }
{
    let mut places = Places::new(alloc);
    'each: for (number, literal) in all.iter().enumerate() {
        places.add(literal.at, number_of(literal, number))?;
    }
    Ok(places)
}

impl<'p> Strings<'p> {
    /// The strings of a program. Fails only where no host memory is left.
    pub fn of(alloc: Global, items: &'p [Item]) -> Result<Self, AllocError>
        ensures { IfOk result (λ strings. strings ≡ program_strings (program_tree items.entry.now)) }
    {
        let all = strings_of(alloc, items)?;
        let places = first_places(alloc, &all)?;
        Ok(Strings { all, places })
    }

    /// All of them, in the order of the text.
    pub fn all(&self) -> &[Literal<'p>]
        ensures { map literal_of result.now ≡ self.now }
    {
        &self.all
    }

    /// The first string of a place.
    pub fn at(&self, at: u32) -> Option<Numbered>
        ensures first { result ≡ first_at self.now 0 at }
        ensures small { IfSome result (λ n. n.number < 2 ^ 63) }
    {
        self.places.of(at)
    }
}
