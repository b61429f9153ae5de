// What a global and a string begin with.

ghost use Rattle.std.specs.Prelude.{◌≡◌, ◌%◌, ◌++◌, ◌∷◌, [], IfOk, OnOk, option_map};
ghost use Rattle.cyc_tree.specs.View.{constant_tree, initial_tree};
ghost use Rattle.core_meaning.specs.Memory.{Word};
ghost use Rattle.cyc_core.specs.Trees.{datum_tree};
ghost use Rattle.source_meaning.specs.Shapes.{Shape as SourceShape, Owner as SourceOwner, Reach as SourceReach, IntShape, UnsignedShape, CharShape, ThinShape};
ghost use Rattle.source_meaning.specs.Shapes.{FatShape};
ghost use Rattle.source_meaning.specs.Places.{literal_string, own_string};
ghost use Rattle.source_meaning.specs.Steps.{World};
ghost use Rattle.source_meaning.specs.Programs.{world_of};
ghost use Rattle.source_lowering.specs.Programs.{constant_content, datum_of, global_datum, initial_content, string_datum, text_content, text_datum};
ghost use Rattle.source_lowering.specs.Lowerable.{IsObject, TakesGlobal};
ghost use Rattle.tree_walk.specs.Listing.{literal_of};
ghost use Rattle.lower_checks.specs.Bytes.{AreLow};
ghost use Rattle.lower_checks.specs.Globals.{BeginsWithNumber, BeginsWithPointer, IsNumber, IsPointer};
ghost use Rattle.lower_checks.specs.Views.{shape_tree, text_value};

use crate::objects::{cell_layout, object_layout};
use crate::shape::Shape;
use crate::table::{Table, Text};
use cyc_core::{Cell, Datum};
use cyc_tree::{Constant, Initial};
use cyc_words::sub32;
use std::alloc::{AllocError, Global};
use tree_walk::Literal;

/// The word of a constant that is a number.
fn constant_word(constant: &Constant) -> u32
    requires number { IsNumber (constant_tree constant.now) }
    ensures int { (w : World) → constant_content w (constant_tree constant.now) IntShape ≡ Word result }
    ensures unsigned { (w : World) → constant_content w (constant_tree constant.now) UnsignedShape ≡ Word result }
    ensures char { (w : World) → constant_content w (constant_tree constant.now) CharShape ≡ Word (result % 256) }
{
    match constant {
        Constant::Number(_, value, _) => *value,
        Constant::Negative(_, value, _) => sub32(0, *value),
        Constant::Character(_, byte) => u32::from(*byte),
        Constant::Text(_, _) | Constant::Null(_) => unreachable!(),
    }
}

/// The word that a global begins with, before it is narrowed: 0, or its constant, which is a number.
fn initial_word(initial: &Initial) -> u32
    requires number { BeginsWithNumber (initial_tree initial.now) }
    ensures int { (w : World) → initial_content w (initial_tree initial.now) IntShape ≡ Word result }
    ensures unsigned { (w : World) → initial_content w (initial_tree initial.now) UnsignedShape ≡ Word result }
    ensures char { (w : World) → initial_content w (initial_tree initial.now) CharShape ≡ Word (result % 256) }
{
    match initial {
        Initial::None | Initial::Array(_) => 0,
        Initial::Constant(constant) => constant_word(constant),
    }
}

/// A string, if it has this number of bytes with its final 0.
fn text_of_length(found: Option<Text>, length: usize) -> Option<Text>
    ensures pointer { text_content (option_map text_value result) 0 ≡ text_content (option_map (own_string length) (option_map text_value found)) 0 }
    ensures bounds { (w : World) (to : SourceShape) →
        text_datum w (FatShape to) (option_map text_value result) ≡
        text_datum w (FatShape to) (option_map (own_string length) (option_map text_value found)) }
{
    match found {
        Some(text) => {
            if text.count as usize == length {
                Some(text)
            } else {
                None
            }
        }
        None => None,
    }
}

/// The string of a literal by its place and bytes; none where the one of that place has another length.
fn literal_text(program: &Table<'_>, at: u32, bytes: &[u8]) -> Option<Text>
    ensures pointer { text_content (option_map text_value result) 0 ≡ text_content (literal_string (world_of program.now).strings at bytes.now) 0 }
    ensures bounds { let w = world_of program.now in
        (to : SourceShape) →
        text_datum w (FatShape to) (option_map text_value result) ≡ text_datum w (FatShape to) (literal_string w.strings at bytes.now) }
{
    text_of_length(program.text_at(at), bytes.len() + 1)
}

/// A thin pointer to a string's first character; NULL where there is no string.
fn string_pointer(found: Option<Text>) -> Datum
    ensures { (w : World) (bound : SourceReach) (owner : SourceOwner) (to : SourceShape) →
        datum_tree result ≡ datum_of w (ThinShape bound owner to) (text_content (option_map text_value found) 0) }
{
    match found {
        Some(text) => Datum::Address(text.object),
        None => Datum::Null,
    }
}

/// A thin pointer that is given a constant: NULL or a string.
fn constant_pointer(program: &Table<'_>, constant: &Constant) -> Datum
    requires pointer { IsPointer (constant_tree constant.now) }
    ensures datum { let w = world_of program.now in
        (bound : SourceReach) (owner : SourceOwner) (to : SourceShape) → let s = ThinShape bound owner to in
        datum_tree result ≡ datum_of w s (constant_content w (constant_tree constant.now) s) }
{
    match constant {
        Constant::Null(_) => Datum::Null,
        Constant::Text(at, bytes) => string_pointer(literal_text(program, *at, bytes)),
        Constant::Number(_, _, _) | Constant::Negative(_, _, _) | Constant::Character(_, _) => {
            unreachable!()
        }
    }
}

/// A thin pointer, which is NULL or a string at first.
fn pointer_datum(program: &Table<'_>, initial: &Initial) -> Datum
    requires pointer { BeginsWithPointer (initial_tree initial.now) }
    ensures datum { (bound : SourceReach) (owner : SourceOwner) (to : SourceShape) →
        datum_tree result ≡ global_datum (world_of program.now) (initial_tree initial.now) (ThinShape bound owner to) }
{
    match initial {
        Initial::None | Initial::Array(_) => Datum::Null,
        Initial::Constant(constant) => constant_pointer(program, constant),
    }
}

/// A fat pointer to a string's characters; NULL where there is no string. Fails only where no host memory is left.
fn string_bounds(alloc: Global, found: Option<Text>) -> Result<Datum, AllocError>
    ensures datum { (w : World) (to : SourceShape) → IfOk result (λ datum. datum_tree datum ≡ text_datum w (FatShape to) (option_map text_value found)) }
{
    match found {
        Some(text) => Ok(Datum::Bounds(text.object, text.count)),
        None => Ok(Datum::Whole(cell_layout(alloc, Cell::Fat)?, 1)),
    }
}

/// The string that a global begins with; none where it begins with something else, or with none of the program's.
fn initial_text(program: &Table<'_>, initial: &Initial) -> Option<Text>
    ensures { let w = world_of program.now in
        (to : SourceShape) → global_datum w (initial_tree initial.now) (FatShape to) ≡ text_datum w (FatShape to) (option_map text_value result) }
{
    match initial {
        Initial::Constant(Constant::Text(at, bytes)) => literal_text(program, *at, bytes),
        Initial::None
        | Initial::Array(_)
        | Initial::Constant(Constant::Number(_, _, _))
        | Initial::Constant(Constant::Negative(_, _, _))
        | Initial::Constant(Constant::Character(_, _))
        | Initial::Constant(Constant::Null(_)) => None,
    }
}

/// A fat pointer, which is a string at first where it is given one, and else NULL. Fails only where no host memory is left.
fn fat_datum(alloc: Global, program: &Table<'_>, initial: &Initial) -> Result<Datum, AllocError>
    ensures datum { (to : SourceShape) →
        IfOk result (λ datum. datum_tree datum ≡ global_datum (world_of program.now) (initial_tree initial.now) (FatShape to)) }
{
    string_bounds(alloc, initial_text(program, initial))
}

/// A global of a shape, with what it begins with: an integer, a pointer or a struct of the program. Fails only where no host memory is left.
pub fn first_datum(
    alloc: Global,
    program: &Table<'_>,
    shape: Shape<'_>,
    initial: &Initial,
) -> Result<Datum, AllocError>
    requires object { IsObject (world_of program.now).unions (world_of program.now).structs (shape_tree shape) }
    requires taken { TakesGlobal (shape_tree shape) (initial_tree initial.now) }
    ensures datum { let w = world_of program.now in
        IfOk result (λ datum. datum_tree datum ≡ global_datum w (initial_tree initial.now) (shape_tree shape.entry)) }
{
    match shape {
        Shape::Struct(_) => Ok(Datum::Whole(object_layout(alloc, program, shape)?, 1)),
        Shape::Fat(_) => fat_datum(alloc, program, initial),
        Shape::Thin(_, _, _) | Shape::Address(_, _, _) => Ok(pointer_datum(program, initial)),
        Shape::Char => Ok(Datum::Byte((initial_word(initial) % 256) as u8)),
        Shape::Int | Shape::Unsigned => Ok(Datum::Word(initial_word(initial))),
        _ => unreachable!(),
    }
}

/// Appends a byte.
#[tactic(auto, using(crate::proofs::Bytes::low_more))]
fn add_byte(bytes: &mut Vec<u8>, byte: u8) -> Result<(), AllocError>
    ensures added { OnOk result (bytes.new.items ≡ bytes.old.items ++ byte ∷ []) }
    ensures low { OnOk result (AreLow bytes.old.items → AreLow bytes.new.items) }
{
    match bytes.push(byte) {
        Ok(()) => Ok(()),
        Err(_) => Err(AllocError),
    }
}

/// A string's bytes, behind which its final 0 stands.
pub fn literal_datum(alloc: Global, literal: Literal<'_>) -> Result<Datum, AllocError>
    ensures datum { (w : World) → IfOk result (λ datum. datum_tree datum ≡ string_datum w (literal_of literal.entry)) }
{
    let mut bytes = Vec::new(alloc);
    'each: for byte in literal.bytes {
        add_byte(&mut bytes, *byte)?;
    }
    Ok(Datum::Text(bytes))
}
