// The items of a program.

ghost use Rattle.std.specs.Prelude.{◌≡◌, IfOk};
ghost use Rattle.cyc_tree.specs.View.{program_tree};

use crate::name::{Name, RegionName, RegionNames, TypeName};
use crate::statement::BlockItem;
use smallvec::SmallVec;
use std::alloc::{AllocError, Global as Heap};
use std::default::MadeWith;
use std::marker::Model;
use std::rc::Rc;

/// The end of the text, as a place.
pub const END_OF_TEXT: u32 = u32::MAX;

/// A member of a struct or a union, or a parameter of a function.
#[derive(Drop)]
pub struct Member {
    pub of: TypeName,
    pub name: Name,
}

/// A struct or a tagged union: its tag, its region parameters and its members, in order.
pub struct Structure {
    /// The place of its first token.
    pub at: u32,
    pub tag: Name,
    pub regions: RegionNames,
    pub members: Vec<Member>,
}

// Written out, so that a caller's proof sees one call and not the drop of each field.
impl Drop for Structure {
    fn drop(self) {
        let Structure {
            at: _,
            tag: _tag,
            regions: _regions,
            members: _members,
        } = self;
    }
}

/// A constant. The first number is the place of its first token.
pub enum Constant {
    /// A number, and whether it has the suffix `u`.
    Number(u32, u32, bool),
    /// A number after `-`, and whether it has the suffix `u`.
    Negative(u32, u32, bool),
    Character(u32, u8),
    /// A string's bytes, without the final 0.
    Text(u32, Vec<u8>),
    /// `NULL`
    Null(u32),
}

// Written out, so that a caller's proof sees one call and not the drop of each field.
impl Drop for Constant {
    fn drop(self) {
        match self {
            Constant::Number(_, _, _) | Constant::Negative(_, _, _) => {}
            Constant::Character(_, _) | Constant::Null(_) => {}
            Constant::Text(_, _bytes) => {}
        }
    }
}

/// What a global begins with.
pub enum Initial {
    /// The beginning of its type.
    None,
    /// An array with this number of elements.
    Array(u32),
    Constant(Constant),
}

// Written out, so that a caller's proof sees one call and not the drop of each field.
impl Drop for Initial {
    fn drop(self) {
        match self {
            Initial::None | Initial::Array(_) => {}
            Initial::Constant(_constant) => {}
        }
    }
}

/// A global variable or array.
pub struct Global {
    pub of: TypeName,
    pub name: Name,
    pub initial: Initial,
}

// Written out, so that a caller's proof sees one call and not the drop of each field.
impl Drop for Global {
    fn drop(self) {
        let Global {
            of: _of,
            name: _name,
            initial: _initial,
        } = self;
    }
}

/// A bound of a function: the first region outlives the second.
#[derive(Drop)]
pub struct Bound {
    pub longer: RegionName,
    pub shorter: RegionName,
}

// What the places of a short list hold that no bound is in.
impl MadeWith<Heap> for Bound {
    fn made_with(alloc: Heap) -> Self {
        Bound {
            longer: RegionName::made_with(alloc),
            shorter: RegionName::made_with(alloc),
        }
    }
}

/// Bounds, in order. Two lie in the list itself, and more than two in an allocation.
pub type Bounds = SmallVec<Bound, 2>;

/// A function of the program.
pub struct Function {
    pub result: TypeName,
    pub name: Name,
    pub parameters: Vec<Member>,
    /// The effect, where one is written.
    pub effect: Option<RegionNames>,
    pub bounds: Bounds,
    pub body: Vec<BlockItem>,
    /// The place of the closing brace.
    pub end: u32,
}

// Written out, so that a caller's proof sees one call and not the drop of each field.
impl Drop for Function {
    fn drop(self) {
        let Function {
            result: _result,
            name: _name,
            parameters: _parameters,
            effect: _effect,
            bounds: _bounds,
            body: _body,
            end: _,
        } = self;
    }
}

/// An item of a program.
pub enum Item {
    Struct(Structure),
    Union(Structure),
    Global(Global),
    Function(Function),
}

// Written out, so that a caller's proof sees one call and not the drop of each field.
impl Drop for Item {
    fn drop(self) {
        match self {
            Item::Struct(_structure) | Item::Union(_structure) => {}
            Item::Global(_global) => {}
            Item::Function(_function) => {}
        }
    }
}

impl Item {
    ghost use Rattle.cyc_tree.specs.View.{program_item_tree};
    ghost use Rattle.cyc_tree.specs.Places.{item_place};

    /// The place of its first token.
    pub fn place(&self) -> u32
        ensures { result ≡ item_place (program_item_tree self.now) }
    {
        match self {
            Item::Struct(structure) | Item::Union(structure) => structure.at,
            Item::Global(global) => global.of.at,
            Item::Function(function) => function.result.at,
        }
    }
}

/// A program: its items, in order, which its clones share. A contract sees it as the pure tree of its items. As the tree of each text, it
/// has operands wherever an operator joins some, and a word counts the temporaries that its phrases take.
#[derive(Drop)]
pub struct Program {
    items: Rc<Vec<Item>>,
}

impl Model for Program {
    ghost use Rattle.cyc_tree.specs.Tree.{Program as Tree};
    ghost use Rattle.cyc_tree.specs.Stored.{coded_program};

    ghost Value = { Tree };

    ghost coded = { coded_program };

    ghost use Rattle.cyc_tree.specs.View.{program_tree};
    ghost use Rattle.std.specs.Prelude.{◌^◌, ◌<◌};
    ghost use Rattle.cyc_tree.specs.Operands.{HasOperands};
    ghost use Rattle.cyc_tree.specs.Room.{program_room};

    ghost view = { λ p. program_tree p.items.value.items };

    ghost invariant = { λ p. HasOperands (program_tree p.items.value.items) × (program_room (program_tree p.items.value.items) < 2 ^ 32) };
}

impl Program {
    ghost use Rattle.std.specs.Prelude.{◌^◌, ◌<◌};
    ghost use Rattle.cyc_tree.specs.Operands.{HasOperands};
    ghost use Rattle.cyc_tree.specs.Room.{program_room};

    /// The program of these items. An Err where no memory is left.
    pub fn new(alloc: Heap, items: Vec<Item>) -> Result<Program, AllocError>
        requires operands { HasOperands (program_tree items.items) }
        requires room { program_room (program_tree items.items) < 2 ^ 32 }
        ensures { IfOk result (λ program. program ≡ program_tree items.items) }
    {
        match Rc::new(alloc, items) {
            Ok(items) => Ok(Program { items }),
            Err(_) => Err(AllocError),
        }
    }

    /// The program's items, in order. An operator among them has its operands, and a word counts their temporaries.
    pub fn items(&self) -> &[Item]
        ensures same { program_tree result.now ≡ self.now }
        ensures operands { HasOperands self.now }
        ensures room { program_room self.now < 2 ^ 32 }
    {
        self.items.as_ref().as_slice()
    }
}

impl Clone for Program {
    ghost is_clone = { λ program copy. copy ≡ program };

    /// The same program, which shares its items. An Err where they are shared as often as can be counted.
    fn clone(&self) -> Result<Program, AllocError> {
        Ok(Program {
            items: self.items.clone()?,
        })
    }
}
