// What is stored: the globals and the blocks of regions, the locals of all blocks that aren't left yet, and the temporary objects of all
// functions that are active.

ghost use Rattle.std.specs.Prelude.{◌≡◌, ◌∷◌, ◌+◌, ℕ, [], Some, None, false, if◌then◌else◌, drop, map, option_map, IfOk, IfSome, OnOk};
ghost use Rattle.core_eval.specs.Values.{cell_in, value_of};
ghost use Rattle.core_eval.specs.Elements.{cells_of};
ghost use Rattle.core_eval.specs.declared.frame.Frame.{Frame as TheFrame};
ghost use Rattle.core_eval.specs.Standing.{first_known, known_of};
ghost use Rattle.core_eval.specs.Whole.{fill_to, is_held};
ghost use Rattle.core_eval.specs.Blocks.{
  AreOrdered,
  activation_of,
  is_there,
  local_address,
  local_slot,
  own_address,
  own_position,
  put_local,
  put_to,
  slot_in,
  stored_of,
};

use crate::blocks::{
    Block, fill_by, object_by, position_of, set_at, set_by, slot_by, value_at, word_at,
};
use crate::held::Held;
use crate::kept::kept_of_objects;
use crate::long_block::LongBlock;
use crate::object::{blank_objects, first_objects};
use crate::objects::{fill_in, object_in, put_in, slot_in};
use crate::regions::Regions;
use crate::spare::Spare;
use crate::value::{Area, Object, Part, Place, Slot, Value};
use cyc_core::{Datum, Local, Variable, Width};
use std::alloc::{AllocError, Global};
use std::collections::VecDeque;

/// What is stored.
#[derive(Drop)]
pub struct Memory {
    /// The blocks that aren't left yet, of all functions that are active, the innermost first.
    pub blocks: VecDeque<Block>,
    /// How many blocks were entered so far.
    pub entered: u64,
    /// The functions that are active, the innermost first, with their temporary objects.
    pub owns: VecDeque<Block>,
    /// How many functions were called so far.
    pub called: u64,
    /// The globals, and behind them the heap's blocks.
    pub globals: Vec<Object>,
    /// The regions that were born, by how many were before each.
    pub regions: Regions,
    /// Where the cells of long blocks of regions lie, also of those that are closed or freed.
    pub long_blocks: Vec<LongBlock>,
    /// Vectors that are done with, and how many bytes are kept. What is known rests on neither.
    pub spare: Spare,
}

impl Memory {
    /// With these globals, the temporary objects of `main`, and no block, at the beginning of a program.
    pub fn first(alloc: Global, globals: &[Datum], own: &[Local]) -> Result<Self, AllocError>
        ensures { IfOk result (λ memory. (frame : TheFrame) → frame.temps.items ≡ [] → frame.base ≡ 0
            → known_of frame memory ≡ first_known globals.now own.now) }
    {
        let globals = first_objects(alloc, globals)?;
        let objects = blank_objects(alloc, own)?;
        let mut owns = VecDeque::new(alloc);
        owns.push_front(Block { number: 0, objects })?;
        let mut spare = Spare::new(alloc);
        spare.count(kept_of_objects(&globals));
        Ok(Memory {
            blocks: VecDeque::new(alloc),
            entered: 0,
            owns,
            called: 1,
            globals,
            regions: Regions::new(alloc),
            long_blocks: Vec::new(alloc),
            spare,
        })
    }

    /// A block with these locals is entered. Fails only where no host memory is left, or 2^64 - 1 blocks were entered.
    pub fn enter_block(&mut self, objects: Vec<Object>) -> Result<(), AllocError>
        ensures blocks { OnOk result (map activation_of self.new.blocks.items
            ≡ record { number = self.old.entered; objects = map cells_of objects.items } ∷ map activation_of self.old.blocks.items) }
        ensures entered { OnOk result (self.new.entered ≡ self.old.entered + 1) }
        ensures owns { OnOk result (self.new.owns ≡ self.old.owns) }
        ensures called { OnOk result (self.new.called ≡ self.old.called) }
        ensures globals { OnOk result (self.new.globals ≡ self.old.globals) }
        ensures regions { OnOk result (self.new.regions ≡ self.old.regions) }
        ensures long_blocks { OnOk result (self.new.long_blocks ≡ self.old.long_blocks) }
    {
        let Some(entered) = self.entered.checked_add(1) else {
            return Err(AllocError);
        };
        self.spare.count(kept_of_objects(&objects));
        self.blocks.push_front(Block {
            number: self.entered,
            objects,
        })?;
        self.entered = entered;
        Ok(())
    }

    /// The innermost block is left, if there is one.
    pub fn leave_block(&mut self)
        ensures blocks { map activation_of self.new.blocks.items ≡ drop 1 (map activation_of self.old.blocks.items) }
        ensures entered { self.new.entered ≡ self.old.entered }
        ensures owns { self.new.owns ≡ self.old.owns }
        ensures called { self.new.called ≡ self.old.called }
        ensures globals { self.new.globals ≡ self.old.globals }
        ensures regions { self.new.regions ≡ self.old.regions }
        ensures long_blocks { self.new.long_blocks ≡ self.old.long_blocks }
    {
        match self.blocks.pop_front() {
            Some(block) => {
                self.spare.uncount(kept_of_objects(&block.objects));
                self.spare.keep_objects(block.objects);
            }
            None => {}
        }
    }

    /// A function with these temporary objects is called. Fails only where no host memory is left, or 2^64 - 1 functions were called.
    pub fn enter_call(&mut self, objects: Vec<Object>) -> Result<(), AllocError>
        ensures blocks { OnOk result (self.new.blocks ≡ self.old.blocks) }
        ensures entered { OnOk result (self.new.entered ≡ self.old.entered) }
        ensures owns { OnOk result (map activation_of self.new.owns.items
            ≡ record { number = self.old.called; objects = map cells_of objects.items } ∷ map activation_of self.old.owns.items) }
        ensures called { OnOk result (self.new.called ≡ self.old.called + 1) }
        ensures globals { OnOk result (self.new.globals ≡ self.old.globals) }
        ensures regions { OnOk result (self.new.regions ≡ self.old.regions) }
        ensures long_blocks { OnOk result (self.new.long_blocks ≡ self.old.long_blocks) }
    {
        let Some(called) = self.called.checked_add(1) else {
            return Err(AllocError);
        };
        self.spare.count(kept_of_objects(&objects));
        self.owns.push_front(Block {
            number: self.called,
            objects,
        })?;
        self.called = called;
        Ok(())
    }

    /// The innermost function is left, if there is one.
    pub fn leave_call(&mut self)
        ensures blocks { self.new.blocks ≡ self.old.blocks }
        ensures entered { self.new.entered ≡ self.old.entered }
        ensures owns { map activation_of self.new.owns.items ≡ drop 1 (map activation_of self.old.owns.items) }
        ensures called { self.new.called ≡ self.old.called }
        ensures globals { self.new.globals ≡ self.old.globals }
        ensures regions { self.new.regions ≡ self.old.regions }
        ensures long_blocks { self.new.long_blocks ≡ self.old.long_blocks }
    {
        match self.owns.pop_front() {
            Some(block) => self.spare.uncount(kept_of_objects(&block.objects)),
            None => {}
        }
    }

    /// Where the block that lies `out` blocks out stands among the blocks, for a function outside of which there are `base` blocks.
    fn own_position(&self, base: usize, out: usize) -> Option<usize>
        ensures { result ≡ own_position base (map activation_of self.now.blocks.items) out }
    {
        match self.blocks.len().checked_sub(base) {
            Some(own) if out < own => Some(out),
            _ => None,
        }
    }

    /// What the first part of a local holds, for a function outside of which there are `base` blocks, if there is one of this width.
    pub fn local(&self, base: usize, variable: Variable, width: Width) -> Option<Value>
        ensures { result ≡ value_of 0 0 width (local_slot base (map activation_of self.now.blocks.items) variable.out variable.index) }
    {
        match self.own_position(base, variable.out) {
            Some(position) => {
                value_at(&self.blocks, position, variable.index, Part::first(width))
            }
            None => None,
        }
    }

    /// The word that a local holds, for a function outside of which there are `base` blocks, if it has this width and is of one cell of one word.
    pub fn word(&self, base: usize, variable: Variable, width: Width) -> Option<u32>
        ensures { IfSome result (λ word. value_of 0 0 width (local_slot base (map activation_of self.now.blocks.items) variable.out variable.index)
            ≡ Some (Value.Word word)) }
    {
        match (width, self.own_position(base, variable.out)) {
            (Width::Word, Some(position)) => word_at(&self.blocks, position, variable.index),
            _ => None,
        }
    }

    /// A pointer to a local, for a function outside of which there are `base` blocks, if there is its block.
    pub fn address(&self, base: usize, variable: Variable) -> Option<Value>
        ensures { result ≡ local_address base (map activation_of self.now.blocks.items) variable.out variable.index }
    {
        match self.own_position(base, variable.out) {
            Some(position) => match self.blocks.get(position) {
                Some(block) => Some(Value::Pointer(Place {
                    area: Area::Block(block.number),
                    object: variable.index,
                    byte: 0,
                    cell: 0,
                })),
                None => None,
            },
            None => None,
        }
    }

    /// A pointer to a temporary object of the innermost function, if there is one.
    pub fn own_address(&self, index: usize) -> Option<Value>
        ensures { result ≡ own_address (map activation_of self.now.owns.items) index }
    {
        match self.owns.get(0) {
            Some(block) => Some(Value::Pointer(Place {
                area: Area::Own(block.number),
                object: index,
                byte: 0,
                cell: 0,
            })),
            None => None,
        }
    }

    /// A cell of an object of an area, if there is one.
    pub fn slot(&self, area: Area, object: usize, cell: u64) -> Option<Slot>
        ensures { AreOrdered self.now → result ≡ slot_in (stored_of self.now) area object cell }
    {
        match area {
            Area::Globals => slot_in(&self.globals, object, cell),
            Area::Region(number) => self.regions.slot(number, object, cell),
            Area::Block(block) => slot_by(&self.blocks, block, object, cell),
            Area::Own(call) => slot_by(&self.owns, call, object, cell),
        }
    }

    /// An object of an area, if there is one.
    pub fn object(&self, area: Area, object: usize) -> Option<&Object>
        ensures { AreOrdered self.now → (k : ℕ) → slot_in (stored_of self.now) area object k ≡ cell_in (option_map (λ o. cells_of o.now) result) k }
    {
        match area {
            Area::Globals => object_in(&self.globals, object),
            Area::Region(number) => self.regions.object(number, object),
            Area::Block(block) => object_by(&self.blocks, block, object),
            Area::Own(call) => object_by(&self.owns, call, object),
        }
    }

    /// Whether an area isn't left, freed or closed.
    pub fn is_held(&self, area: Area) -> bool
        ensures { AreOrdered self.now → result ≡ is_held (stored_of self.now) area }
    {
        match area {
            Area::Globals => true,
            Area::Region(number) => self.regions.is_held(number),
            Area::Block(block) => position_of(&self.blocks, block).is_some(),
            Area::Own(call) => position_of(&self.owns, call).is_some(),
        }
    }

    /// Whether a place leads to a cell that is there.
    pub fn is_there(&self, place: Place) -> bool
        ensures { AreOrdered self.now → result ≡ is_there place.byte (slot_in (stored_of self.now) place.area place.object place.cell) }
    {
        match self.slot(place.area, place.object, place.cell) {
            Some(slot) => slot.offset == place.byte,
            None => false,
        }
    }

    /// Stores a value to the first part of a local, for a function outside of which there are `base` blocks, if there is one of this width,
    /// and answers whether there is. Fails only where no host memory is left.
    pub fn set_local(
        &mut self,
        base: usize,
        variable: Variable,
        width: Width,
        value: Value,
    ) -> Result<bool, AllocError>
        ensures blocks { IfOk result (λ is_put. put_local base (map activation_of self.old.blocks.items) variable.out variable.index width value
            ≡ (if is_put then Some (map activation_of self.new.blocks.items) else None)) }
        ensures kept { IfOk result (λ is_put. is_put ≡ false → map activation_of self.new.blocks.items ≡ map activation_of self.old.blocks.items) }
        ensures entered { self.new.entered ≡ self.old.entered }
        ensures owns { self.new.owns ≡ self.old.owns }
        ensures called { self.new.called ≡ self.old.called }
        ensures globals { self.new.globals ≡ self.old.globals }
        ensures regions { self.new.regions ≡ self.old.regions }
        ensures long_blocks { self.new.long_blocks ≡ self.old.long_blocks }
    {
        match self.own_position(base, variable.out) {
            Some(position) => set_at(
                &mut self.blocks,
                position,
                variable.index,
                Part::first(width),
                value,
            ),
            None => Ok(false),
        }
    }

    /// Stores a value to a part of the object to which a place leads, if there is one that lies there and has this width, and answers whether there is.
    /// Fails only where no host memory is left.
    pub fn put_to(&mut self, place: Place, part: Part, value: Value) -> Result<bool, AllocError>
        ensures put { IfOk result (λ is_put. AreOrdered self.old
            → put_to (stored_of self.old) place.area place.object part.cell part.byte part.number part.width value
            ≡ (if is_put then Some (stored_of self.new) else None)) }
        ensures kept { IfOk result (λ is_put. is_put ≡ false → stored_of self.new ≡ stored_of self.old) }
        ensures entered { self.new.entered ≡ self.old.entered }
        ensures called { self.new.called ≡ self.old.called }
    {
        let object = place.object;
        match place.area {
            Area::Globals => put_in(&mut self.globals, object, part, value),
            Area::Region(number) => self.regions.put(number, object, part, value),
            Area::Block(block) => set_by(&mut self.blocks, block, object, part, value),
            Area::Own(call) => set_by(&mut self.owns, call, object, part, value),
        }
    }

    /// The cells from a place on get these values. Fails only where no host memory is left, or there would be a cell with a number over 2^64 - 1.
    pub fn fill_to(&mut self, place: Place, values: &[Held]) -> Result<(), AllocError>
        ensures stored { OnOk result (AreOrdered self.old
            → stored_of self.new ≡ fill_to (stored_of self.old) place.area place.object place.cell values.now) }
        ensures entered { OnOk result (self.new.entered ≡ self.old.entered) }
        ensures called { OnOk result (self.new.called ≡ self.old.called) }
    {
        match place.area {
            Area::Globals => fill_in(&mut self.globals, place.object, place.cell, values),
            Area::Region(number) => { self.regions.fill(number, place.object, place.cell, values) }
            Area::Block(block) => fill_by(
                &mut self.blocks,
                block,
                place.object,
                place.cell,
                values,
            ),
            Area::Own(call) => fill_by(&mut self.owns, call, place.object, place.cell, values),
        }
    }
}
