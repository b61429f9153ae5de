// Where code stands: its function's frame, the blocks around it, and the program's data.

ghost use Rattle.std.specs.Prelude.{◌≡◌, ◌+◌, ◌<◌, ◌^◌, [], ◌∷◌, map, drop, length, IfOk, OnOk, List, ℕ, if◌then◌else◌};
ghost use Rattle.rv32_machine.specs.State.{data_base};
ghost use Rattle.core_lines.specs.Frames.{slot_of};
ghost use Rattle.core_lines.specs.Choosing.{far};
ghost use Rattle.core_lines.specs.Held.{Holding, raises_only, with_taken};
ghost use Rattle.core_lines.specs.Homes.{flag_at, homes_in, saved_by};
ghost use Rattle.core_lines.specs.Parameters.{parameter_register};
ghost use Rattle.core_lines.specs.Saved.{results_of};
ghost use Rattle.core_lines.specs.Selected.{slots_of, Surroundings, local_offset, local_home, nth, around, holding, naming, within_block};
ghost use Rattle.cyc_core.specs.Trees.{body_tree, local_tree, function_tree, operation_tree};
ghost use Rattle.core_meaning.specs.Core as core;
ghost use Rattle.rv32_select.specs.Places.{surroundings, saves_left};
ghost use Rattle.rv32_select.specs.Starts.{start_at, starting, point_start};

use crate::emit::offset_of;
use crate::flags::behind;
use crate::held::Known;
use crate::homes::{first_homes, home_at, homes_in, named_behind, some_of};
use crate::layout::{end_from, offsets_from, saved_slot, sum};
use crate::raising::raises_only;
use crate::results::result_of;
use cyc_core::{Function, Local, Operation, Statement, Temporary, Variable};
use rv32_isa::Register;
use std::alloc::{AllocError, Global};
use std::mem;

/// The address at which a program's data begin.
pub const DATA_BASE: u64 = 0x0020_0000;

/// The number of the heap, which is its handle.
pub const HEAP: u64 = 0;

/// Where the locals of a block are.
#[derive(Drop)]
pub struct Scope {
    /// Their offsets in the frame.
    pub offsets: Vec<u64>,
    /// Their homes, which are x0 for those that have none.
    pub homes: Vec<Register>,
}

/// Where a statement begins.
#[derive(Drop)]
pub struct Point {
    /// How many locals are of blocks that begin before it.
    pub named: usize,
    /// What is known of temporaries.
    pub held: Known,
}

/// Where code stands.
#[derive(Drop)]
pub struct Place {
    /// Where its lists are kept.
    pub alloc: Global,
    /// The most words that the function passes to a call.
    pub passed: u32,
    /// The label of the function's end.
    pub exit: usize,
    /// The offsets in the frame of the function's temporary objects.
    pub own: Vec<u64>,
    /// The blocks around the code, the innermost block first.
    pub blocks: Vec<Scope>,
    /// The home of each local of the function, or x0: those of a block before those of blocks within it.
    pub homes: Vec<Register>,
    /// How many of these locals are of blocks that begin before the code.
    pub named: usize,
    /// Where the locals of a block within it would begin.
    pub low: u64,
    /// Where each global of the program begins in the data.
    pub statics: Vec<u64>,
    /// Which of the results to come are saved into their temporaries' slots, the last result first.
    pub saves: Vec<bool>,
    /// Where the words of temporaries are known to be besides their slots.
    pub held: Known,
}

impl Place {
    /// The place of code in no function, of a program whose globals begin there.
    pub fn new(alloc: Global, statics: Vec<u64>) -> Self
        ensures { result.statics.items ≡ statics.items }
    {
        Place {
            alloc,
            passed: 0,
            exit: 0,
            own: Vec::new(alloc),
            blocks: Vec::new(alloc),
            homes: Vec::new(alloc),
            named: 0,
            low: 0,
            statics,
            saves: Vec::new(alloc),
            held: Known::new(alloc),
        }
    }

    /// Goes on to the start of a function with this number of slots, whose locals' homes are known here.
    fn settle(&mut self, function: &Function, slots: u64, exit: usize) -> Result<(), AllocError>
        requires slots { slots ≡ slots_of (function_tree function.now) }
        requires homes { self.old.homes.items ≡ homes_in (function_tree function.now) }
        ensures place { OnOk result (surroundings self.new ≡ around far self.old.statics.items exit (function_tree function.now)) }
        ensures homes { self.new.homes.items ≡ self.old.homes.items }
    {
        let first = offset_of(slots)?;
        let low = end_from(first, &function.own, &[])?;
        let own = offsets_from(self.alloc, first, &function.own, &[])?;
        self.own = own;
        self.low = low;
        self.passed = function.passed;
        self.exit = exit;
        self.blocks = Vec::new(self.alloc);
        self.named = 0;
        self.held
            .hold_taken(&self.homes, &function.body, function.parameters)?;
        Ok(())
    }

    /// Goes on to the start of a function, which ends at a label. Answers the registers that it saves.
    pub fn begin(&mut self, function: &Function, exit: usize) -> Result<Vec<Register>, AllocError>
        ensures place { OnOk result (surroundings self.new ≡ around far self.old.statics.items exit (function_tree function.now)) }
        ensures homes { OnOk result (self.new.homes.items ≡ homes_in (function_tree function.now)) }
        ensures saved { IfOk result (λ saved. saved.items ≡ saved_by (function_tree function.now)) }
    {
        let homes = homes_in(self.alloc, function)?;
        self.homes = homes;
        let saved = some_of(self.alloc, &self.homes)?;
        let slots = sum(saved_slot(function), saved.len() as u64)?;
        self.settle(function, slots, exit)?;
        Ok(saved)
    }

    /// Goes back to the start of the function, of which these results are saved.
    pub fn begin_again(&mut self, function: &Function, saves: Vec<bool>) -> Result<(), AllocError>
        ensures place { OnOk result (surroundings self.new ≡ holding (with_taken
            (parameter_register self.old.homes.items (function_tree function.now).body) 0 function.now.parameters [])
            (naming self.old.homes.items (surroundings self.old))) }
        ensures saves { OnOk result (self.new.saves.items ≡ saves.items) }
        ensures homes { OnOk result (self.new.homes.items ≡ self.old.homes.items) }
    {
        self.named = 0;
        self.saves = saves;
        self.held
            .hold_taken(&self.homes, &function.body, function.parameters)
    }

    /// Where the next statement begins.
    pub fn point(&self) -> Result<Point, AllocError>
        ensures { IfOk result (λ point. point_start self.now.homes.items point ≡ start_at (surroundings self.now)) }
    {
        let held = self.known()?;
        Ok(Point {
            named: self.named,
            held,
        })
    }

    /// Goes to where a statement of the same block begins.
    pub fn go_to(&mut self, point: Point)
        ensures place { surroundings self.new ≡ starting (point_start self.old.homes.items point) (surroundings self.old) }
        ensures homes { self.new.homes.items ≡ self.old.homes.items }
    {
        self.named = point.named;
        self.held = point.held;
    }

    /// Goes back to where this number of locals was named. Nothing is known of temporaries there.
    pub fn go_back(&mut self, named: usize)
        ensures place { surroundings self.new ≡ holding [] (naming (drop named self.old.homes.items) (surroundings self.old)) }
        ensures homes { self.new.homes.items ≡ self.old.homes.items }
    {
        self.named = named;
        self.held.forget();
    }

    /// What is known of temporaries.
    pub fn known(&self) -> Result<Known, AllocError>
        ensures { IfOk result (λ known. known ≡ self.now.held) }
    {
        self.held.copied(self.alloc)
    }

    /// Goes on where this is known of temporaries. Answers what was known before.
    pub fn exchange(&mut self, held: Known) -> Known
        ensures before { result ≡ self.old.held }
        ensures place { surroundings self.new ≡ holding held (surroundings self.old) }
        ensures saves { self.new.saves.items ≡ self.old.saves.items }
        ensures homes { self.new.homes.items ≡ self.old.homes.items }
    {
        mem::replace(&mut self.held, held)
    }

    /// Goes on behind a choice: this is known behind its first statements, and the others may only raise an exception.
    pub fn join(&mut self, first: Known, others: &[Statement])
        ensures place { surroundings self.new ≡ holding (if raises_only (body_tree others.now) then first else []) (surroundings self.old) }
        ensures saves { self.new.saves.items ≡ self.old.saves.items }
        ensures homes { self.new.homes.items ≡ self.old.homes.items }
    {
        if raises_only(others) {
            self.held = first;
        } else {
            self.held.forget();
        }
    }

    /// Whether the next result is saved.
    #[tactic(auto, using(crate::proofs::Popping::next_some, crate::proofs::Popping::next_none))]
    pub fn is_saved(&self) -> bool
        ensures { result ≡ flag_at (saves_left self.now) 0 }
    {
        match self.saves.last() {
            Some(saved) => *saved,
            None => false,
        }
    }

    /// Goes on behind the next result.
    pub fn pass_result(&mut self)
        ensures saves { saves_left self.new ≡ drop 1 (saves_left self.old) }
        ensures same { surroundings self.new ≡ surroundings self.old }
        ensures homes { self.new.homes.items ≡ self.old.homes.items }
    {
        let _passed = self.saves.pop();
    }

    /// Goes on behind the result of an operation, if it has one.
    pub fn pass_operation(&mut self, operation: Operation)
        ensures saves { saves_left self.new ≡ drop (length (results_of (operation_tree operation))) (saves_left self.old) }
        ensures same { surroundings self.new ≡ surroundings self.old }
        ensures homes { self.new.homes.items ≡ self.old.homes.items }
    {
        if let Some(_) = result_of(operation) {
            self.pass_result();
        }
    }

    /// The slot of a temporary, counted in words from the frame's first on.
    pub fn slot(&self, temporary: Temporary) -> u64
        ensures { result ≡ slot_of self.now.passed temporary.0 }
    {
        1 + u64::from(self.passed) + u64::from(temporary.0)
    }

    /// The offset of a local in the frame, and its home, or x0 where it has none.
    #[tactic(auto, using(crate::proofs::Numbers::local_some, crate::proofs::Numbers::local_none))]
    pub fn local(&self, variable: Variable) -> (u64, Register)
        ensures offset { result.0 ≡ local_offset (surroundings self.now) variable.out variable.index }
        ensures home { result.1 ≡ local_home (surroundings self.now) variable.out variable.index }
    {
        match self.blocks.get(variable.out) {
            Some(scope) => {
                let offset = nth(&scope.offsets, variable.index);
                (offset, home_at(&scope.homes, variable.index))
            }
            None => (0, Register::ZERO),
        }
    }

    /// The offset of a temporary object in the frame.
    pub fn own_offset(&self, object: usize) -> u64
        ensures { result ≡ nth (surroundings self.now).own object }
    {
        nth(&self.own, object)
    }

    /// The address of a global. Fails where that is over the greatest u64: no memory has that many globals.
    pub fn data_address(&self, object: usize) -> Result<u64, AllocError>
        ensures { IfOk result (λ n. n ≡ data_base + nth (surroundings self.now).statics object) }
    {
        sum(DATA_BASE, nth(&self.statics, object))
    }

    /// Enters a block with these locals. Answers where its locals begin.
    pub fn enter(&mut self, locals: &[Local]) -> Result<u64, AllocError>
        ensures place { IfOk result (λ low. low ≡ self.old.low × (surroundings self.new ≡ within_block (map local_tree locals.now) (surroundings self.old))) }
        ensures saves { self.new.saves.items ≡ self.old.saves.items }
        ensures homes { self.new.homes.items ≡ self.old.homes.items }
    {
        let low = self.low;
        let named = named_behind(self.named, locals)?;
        let homes = first_homes(self.alloc, behind(&self.homes, self.named), locals.len())?;
        let end = end_from(low, locals, &homes)?;
        let offsets = offsets_from(self.alloc, low, locals, &homes)?;
        self.blocks.insert(0, Scope { offsets, homes })?;
        self.named = named;
        self.low = end;
        Ok(low)
    }

    /// Leaves the innermost block, whose locals began at `low`. No temporary is held then.
    #[tactic(auto, using(crate::proofs::Leaving::left_is))]
    pub fn leave(&mut self, low: u64)
        ensures place { (locals : List core.Local) (outer : Surroundings) (names : List ℕ) (held : List Holding)
            → surroundings self.old ≡ holding held (naming names (within_block locals outer)) → low ≡ outer.low
            → surroundings self.new ≡ holding [] (naming names outer) }
        ensures saves { self.new.saves.items ≡ self.old.saves.items }
        ensures homes { self.new.homes.items ≡ self.old.homes.items }
    {
        if !self.blocks.is_empty() {
            self.blocks.remove(0);
        }
        self.low = low;
        self.held.forget();
    }
}

/// A number of a list, or 0 behind its end.
#[tactic(auto, using(crate::proofs::Numbers::nth_some, crate::proofs::Numbers::nth_none))]
fn nth(numbers: &[u64], index: usize) -> u64
    ensures { result ≡ nth numbers.now index }
{
    match numbers.get(index) {
        Some(number) => *number,
        None => 0,
    }
}
