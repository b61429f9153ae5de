// The pointers of a type: its own, or those that types share.

ghost use Rattle.std.specs.Prelude.{◌≡◌, ◌++◌, ◌∷◌, ◌-◌, ◌==◌, [], IfOk, OnOk, length, take, true};
ghost use Rattle.std.specs.List.{list_all};
ghost use Rattle.cyc_types.specs.Pointers.{is_closed};
ghost use Rattle.cyc_types.specs.Runs.{IsRun};
ghost use Rattle.cyc_types.specs.Shared.{listed};

use crate::ctype::Pointed;
use crate::layer::Layer;
use crate::pointer_list::PointerList;
use crate::run::{Run, run_of};
use smallvec::SmallVec;
use std::alloc::{AllocError, Global};
use std::marker::Model;
use std::rc::Rc;

/// A type shares its pointers if it has more than so many.
const FEW: usize = 8;

/// The pointers of a type, from the base outwards, the outermost last. A contract sees them as their list.
#[derive(Drop)]
pub struct Layers {
    held: Held,
}

impl Model for Layers {
    ghost use Rattle.cyc_types.specs.Pointers.{Pointers};

    ghost Value = { Pointers };

    ghost use Rattle.cyc_types.specs.Shared.{AreHeld, pointers_of};

    ghost view = { pointers_of };

    ghost invariant = { AreHeld };
}

/// Where the pointers of a type are.
#[derive(Drop)]
enum Held {
    /// In a list of its own.
    Own(SmallVec<Layer, 2>),
    /// So many of the innermost ones of a list that types share, and those that stand on them.
    Shared(Rc<SharedLayers>, usize, SmallVec<Layer, 1>),
}

/// Pointers that types share, and what is known of them.
#[derive(Drop)]
struct SharedLayers {
    all: SmallVec<Layer, 2>,
    /// What they begin with.
    run: Run,
    /// That no region of them is a variable. If it's false, one may be.
    is_closed: bool,
}

/// Whether no region of some pointers is a variable.
fn are_closed(layers: &[Layer]) -> bool
    ensures { result ≡ list_all is_closed layers.now }
{
    layers.iter().all(|layer| layer.is_closed())
}

/// The innermost so many of some pointers.
fn innermost(layers: &[Layer], count: usize) -> &[Layer]
    ensures { result.now ≡ take count layers.now }
{
    &layers[..count.min(layers.len())]
}

impl Layers {
    /// No pointers.
    pub fn new(alloc: Global) -> Layers
        ensures { result.items ≡ [] }
    {
        Layers {
            held: Held::Own(SmallVec::new(alloc)),
        }
    }

    /// The pointers.
    pub fn pointers(&self) -> PointerList<'_>
        ensures { listed result ≡ self.now.items }
    {
        match &self.held {
            Held::Own(own) => PointerList {
                inner: own.as_slice(),
                outer: &[],
            },
            Held::Shared(all, count, outer) => PointerList {
                inner: innermost(all.all.as_slice(), *count),
                outer: outer.as_slice(),
            },
        }
    }

    /// How many they are.
    pub fn len(&self) -> usize
        ensures value { result ≡ length self.now.items }
    {
        self.pointers().len()
    }

    /// Whether there are none.
    pub fn is_empty(&self) -> bool
        ensures { result ≡ (length self.now.items == 0) }
    {
        self.len() == 0
    }

    /// Where the space for more of them comes from.
    pub fn allocator(&self) -> Global {
        match &self.held {
            Held::Own(own) => *own.allocator(),
            Held::Shared(_, _, outer) => *outer.allocator(),
        }
    }

    /// What they begin with, as far as it is known.
    fn run(&self) -> Run
        ensures { IsRun self.now.items result }
    {
        match &self.held {
            Held::Own(_) => Run::none(),
            Held::Shared(all, count, _) => all.run.at_most(*count),
        }
    }

    /// All of them, and what they begin with.
    pub(crate) fn pointed(&self) -> Pointed<'_>
        ensures layers { listed result.layers ≡ self.now.items }
        ensures run { IsRun self.now.items result.run }
    {
        Pointed {
            layers: self.pointers(),
            run: self.run(),
        }
    }

    /// All of them but the outermost, and what they begin with.
    pub(crate) fn inner_pointed(&self) -> Pointed<'_>
        ensures layers { listed result.layers ≡ take (length self.now.items - 1) self.now.items }
        ensures run { IsRun (listed result.layers) result.run }
    {
        let count = self.len().saturating_sub(1);
        Pointed {
            layers: self.pointers().up_to(count),
            run: self.run().at_most(count),
        }
    }

    /// Whether it is known that no region of them is a variable.
    pub fn is_closed(&self) -> bool
        ensures { result ≡ true → list_all is_closed self.now.items ≡ true }
    {
        match &self.held {
            Held::Own(own) => own.len() <= FEW && are_closed(own.as_slice()),
            Held::Shared(all, _, outer) => all.is_closed && are_closed(outer.as_slice()),
        }
    }

    /// The same pointers again. Fails only where no host memory is left.
    pub fn try_clone(&self) -> Result<Layers, AllocError>
        ensures { IfOk result (λ copy. copy.items ≡ self.now.items) }
    {
        let held = match &self.held {
            Held::Own(own) => Held::Own(SmallVec::from_slice(*own.allocator(), own.as_slice())?),
            Held::Shared(all, count, outer) => {
                let outer = SmallVec::from_slice(*outer.allocator(), outer.as_slice())?;
                Held::Shared(all.clone()?, *count, outer)
            }
        };
        Ok(Layers { held })
    }

    /// One pointer more, the outermost. Fails only where no host memory is left.
    pub fn push(&mut self, pointer: Layer) -> Result<(), AllocError>
        ensures ok { OnOk result (self.new.items ≡ self.old.items ++ pointer ∷ []) }
    {
        match &mut self.held {
            Held::Own(own) => own.push(pointer)?,
            Held::Shared(_, _, outer) => outer.push(pointer)?,
        }
        Ok(())
    }

    /// The outermost one goes, if there is one.
    pub fn pop(&mut self)
        ensures rest { self.new.items ≡ take (length self.old.items - 1) self.old.items }
    {
        let rest = self.len().saturating_sub(1);
        match &mut self.held {
            Held::Own(own) => {
                let _outermost = own.pop();
            }
            Held::Shared(_, count, outer) => {
                if outer.pop().is_none() {
                    *count = rest;
                }
            }
        }
    }

    /// The same pointers, in a list that copies share if they are many. Fails only where no host memory is left.
    pub fn into_shared(self) -> Result<Layers, AllocError>
        ensures { IfOk result (λ same. same.items ≡ self.items) }
    {
        if self.len() <= FEW {
            return Ok(self);
        }
        match self.held {
            Held::Own(own) => shared(own),
            Held::Shared(all, count, outer) => Ok(Layers {
                held: Held::Shared(all, count, outer),
            }),
        }
    }
}

/// Pointers in a list that types share. Fails only where no host memory is left.
fn shared(all: SmallVec<Layer, 2>) -> Result<Layers, AllocError>
    ensures { IfOk result (λ same. same.items ≡ all.items) }
{
    let alloc = *all.allocator();
    let count = all.len();
    let run = run_of(all.as_slice());
    let is_closed = are_closed(all.as_slice());
    let list = SharedLayers {
        all,
        run,
        is_closed,
    };
    Ok(Layers {
        held: Held::Shared(Rc::new(alloc, list)?, count, SmallVec::new(alloc)),
    })
}
