// The names that rows of a program's text begin with.

use cyc_core::{Binary, Cell, Width};
use cyc_words::Kind;

/// The shapes of objects: `int`; `struct { char first; int second; }`; a tagged union none of whose members is a fat pointer, and one with a fat pointer; an
/// int that takes 2^24 bytes.
#[derive(Clone, Copy)]
pub enum Shape {
    Int,
    Pair,
    Union,
    FatUnion,
    Wide,
}

/// What is done with objects of a shape.
#[derive(Clone, Copy)]
pub enum Verb {
    Copy,
    Clear,
    Unique,
    Region,
}

/// What a row says by its name.
#[derive(Clone, Copy)]
pub enum Word {
    Function,
    Block,
    Leave,
    If,
    While,
    Turn,
    End,
    Pass,
    Call,
    GlobalByte,
    GlobalNull,
    GlobalAddress,
    GlobalBounds,
    GlobalText,
    GlobalPairs,
    Scalar(Cell),
    Whole(Shape),
    Break,
    Continue,
    Return,
    Raise(Kind),
    Check(Kind),
    CheckBy(Kind, Kind),
    Object(Verb, Shape),
    Constant,
    Getchar,
    Putchar,
    Apply(Binary),
    Load(Width),
    Store(Width),
    Get,
    Put,
    NullPointer,
    LocalAddress,
    OwnAddress,
    DataAddress,
    Offset,
    Element,
    IsNull,
    SamePlace,
    HeapHandle,
    RegionNew,
    RegionFree,
    UniqueFree,
    KeyNew,
    KeyOpen,
    KeyClose,
    KeyFree,
}

// the names of operations
const OPERATIONS: [(&str, Word); 30] = [
    ("constant", Word::Constant),
    ("getchar", Word::Getchar),
    ("putchar", Word::Putchar),
    ("add", Word::Apply(Binary::Add)),
    ("subtract", Word::Apply(Binary::Subtract)),
    ("multiply", Word::Apply(Binary::Multiply)),
    ("less_equal", Word::Apply(Binary::LessEqual)),
    ("less_unsigned", Word::Apply(Binary::LessUnsigned)),
    ("load", Word::Load(Width::Word)),
    ("load_byte", Word::Load(Width::Byte)),
    ("store", Word::Store(Width::Word)),
    ("store_byte", Word::Store(Width::Byte)),
    ("get", Word::Get),
    ("put", Word::Put),
    ("null_pointer", Word::NullPointer),
    ("local_address", Word::LocalAddress),
    ("own_address", Word::OwnAddress),
    ("data_address", Word::DataAddress),
    ("offset", Word::Offset),
    ("element", Word::Element),
    ("is_null", Word::IsNull),
    ("same_place", Word::SamePlace),
    ("heap_handle", Word::HeapHandle),
    ("region_new", Word::RegionNew),
    ("region_free", Word::RegionFree),
    ("unique_free", Word::UniqueFree),
    ("key_new", Word::KeyNew),
    ("key_open", Word::KeyOpen),
    ("key_close", Word::KeyClose),
    ("key_free", Word::KeyFree),
];

// the names of globals, locals, and other statements
const PARTS: [(&str, Word); 39] = [
    ("function", Word::Function),
    ("block", Word::Block),
    ("leave", Word::Leave),
    ("if", Word::If),
    ("while", Word::While),
    ("else", Word::Turn),
    ("do", Word::Turn),
    ("end", Word::End),
    ("pass", Word::Pass),
    ("call", Word::Call),
    ("global_byte", Word::GlobalByte),
    ("global_null", Word::GlobalNull),
    ("global_address", Word::GlobalAddress),
    ("global_bounds", Word::GlobalBounds),
    ("global_ab", Word::GlobalText),
    ("global_pairs", Word::GlobalPairs),
    ("with_word", Word::Scalar(Cell::Word)),
    ("with_fat", Word::Scalar(Cell::Fat)),
    ("with_union", Word::Scalar(Cell::Tagged)),
    ("with_fat_union", Word::Scalar(Cell::TaggedFat)),
    ("with_words", Word::Whole(Shape::Int)),
    ("with_pairs", Word::Whole(Shape::Pair)),
    ("with_unions", Word::Whole(Shape::Union)),
    ("break", Word::Break),
    ("continue", Word::Continue),
    ("return", Word::Return),
    ("raise_null", Word::Raise(Kind::NullException)),
    ("raise_bounds", Word::Raise(Kind::ArrayBounds)),
    ("check_bounds", Word::Check(Kind::ArrayBounds)),
    (
        "check_null_or_bounds",
        Word::CheckBy(Kind::NullException, Kind::ArrayBounds),
    ),
    ("copy_word", Word::Object(Verb::Copy, Shape::Int)),
    ("copy_pair", Word::Object(Verb::Copy, Shape::Pair)),
    ("copy_union", Word::Object(Verb::Copy, Shape::Union)),
    ("copy_fat_union", Word::Object(Verb::Copy, Shape::FatUnion)),
    ("clear_pairs", Word::Object(Verb::Clear, Shape::Pair)),
    ("clear_unions", Word::Object(Verb::Clear, Shape::Union)),
    ("unique_pair", Word::Object(Verb::Unique, Shape::Pair)),
    ("region_words", Word::Object(Verb::Region, Shape::Int)),
    ("region_wide", Word::Object(Verb::Region, Shape::Wide)),
];

/// The word of a name in a table.
fn word_in(table: &[(&str, Word)], name: &str) -> Option<Word> {
    for (text, word) in table.iter() {
        if *text == name {
            return Some(*word);
        }
    }
    None
}

/// The word of a name.
pub fn word_of(name: &str) -> Option<Word> {
    word_in(&OPERATIONS, name).or(word_in(&PARTS, name))
}
