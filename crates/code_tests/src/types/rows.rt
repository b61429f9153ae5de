// Tables of what is said of types.
//
// `struct NAME ORDER MEMBERS = ANSWER` and `union ..` add one, with two spaces between the members; `order NAME = ORDER` finds one. `kinds TYPE = KINDS`
// names all kinds of a type and of its base, `extent TYPE = BYTES ALIGNMENT` says its bytes, where 0 0 is too many, and `layout TYPE = BYTES ALIGNMENT CELLS
// FIRST OFFSETS` says where its first cells lie. What else is asked is said of one type, or of two.

use crate::texts::{number_of, parted, refuse};
use crate::types::answers::{KINDS, added_name, base_kinds_of, extent_of, kinds_of, laid, said};
use crate::types::written::{tag_of, type_of};
use cyc_types::{CType, Tables};
use std::alloc::Global;
use std::test::Fail;

/// Whether these kinds are the ones that a text names.
fn are_kinds(found: &[bool; 10], wanted: &str) -> bool {
    let mut are_right = true;
    for (kind, is_so) in KINDS.split(' ').zip(found.iter()) {
        are_right = wanted.contains(kind) == *is_so && are_right;
    }
    are_right
}

/// Whether the kinds of a type are these, and those of its base, where it is no pointer.
fn has_kinds(of: &CType, wanted: &str) -> bool {
    are_kinds(&kinds_of(of), wanted)
        && (of.is_pointer() || are_kinds(&base_kinds_of(&of.base), wanted))
}

/// A type's bytes and alignment, and what is behind them.
fn bytes_of(text: &str) -> ((u32, u32), &str) {
    let (bytes, rest) = parted(text);
    let (align, rest) = parted(rest);
    ((number_of(bytes), number_of(align)), rest)
}

/// Whether the cells of a type lie so.
fn lies(alloc: Global, tables: &Tables<'static>, of: &CType<'static>, wanted: &str) -> bool {
    let (bytes, cells) = bytes_of(wanted);
    let (count, cells) = parted(cells);
    let (first, offsets) = parted(cells);
    let cells = (number_of(count) as usize, first, offsets);
    laid(alloc, tables, of, cells) == Some(bytes) && extent_of(tables, of) == bytes
}

/// One type or two that a text says; one stands for two.
fn types_of(alloc: Global, text: &'static str) -> Option<(CType<'static>, CType<'static>)> {
    let (one, other) = text.split_once(' ').unwrap_or((text, text));
    type_of(alloc, one).zip(type_of(alloc, other))
}

/// Whether a pointer leads to the other type of a text, or doesn't.
fn is_pointee(alloc: Global, types: &'static str, wanted: &str) -> bool {
    match types_of(alloc, types) {
        None => false,
        Some((one, other)) => one.into_pointee().is_same(&other) == (wanted == "yes"),
    }
}

/// Whether it is so what is asked of two types.
fn is_answered(
    alloc: Global,
    tables: &Tables<'static>,
    asked: &str,
    (one, other): (&CType<'static>, &CType<'static>),
    wanted: &str,
) -> bool {
    match asked {
        "kinds" => has_kinds(one, wanted),
        "extent" => extent_of(tables, one) == bytes_of(wanted).0,
        "layout" => lies(alloc, tables, one, wanted),
        _ => said(tables, asked, one, other) == wanted,
    }
}

/// Whether it is so what a row says of one type or two.
fn is_said(
    alloc: Global,
    tables: &Tables<'static>,
    (asked, types): (&str, &'static str),
    wanted: &str,
) -> bool {
    match types_of(alloc, types) {
        None => false,
        Some((one, other)) => is_answered(alloc, tables, asked, (&one, &other), wanted),
    }
}

/// Whether a struct or union is added so.
fn is_added(
    alloc: Global,
    tables: &mut Tables<'static>,
    (is_union, text): (bool, &'static str),
    wanted: &str,
) -> bool {
    let (name, rest) = parted(text);
    let (order, members) = parted(rest);
    match tag_of(alloc, is_union, number_of(order), members) {
        Some(tag) => added_name(tables.add(name.as_bytes(), tag)) == wanted,
        None => false,
    }
}

/// Whether a struct or union has this order, or isn't there where no number stands.
fn has_order(tables: &Tables<'static>, name: &str, wanted: &str) -> bool {
    match tables.tag(name.as_bytes()) {
        Some(tag) => wanted.parse() == Ok(tag.order),
        None => wanted == "none",
    }
}

/// Whether it is so what a row says.
fn holds(alloc: Global, tables: &mut Tables<'static>, row: &'static str) -> bool {
    let (asked, wanted) = row.split_once(" = ").unwrap_or((row, ""));
    let (asked, text) = parted(asked);
    match asked {
        "struct" => is_added(alloc, tables, (false, text), wanted),
        "union" => is_added(alloc, tables, (true, text), wanted),
        "order" => has_order(tables, text, wanted),
        "pointee" => is_pointee(alloc, text, wanted),
        _ => is_said(alloc, tables, (asked, text), wanted),
    }
}

/// The first row that isn't so, behind those of which these tables are made.
fn wrong_row_of(
    alloc: Global,
    tables: &mut Tables<'static>,
    table: &'static str,
) -> Option<&'static str> {
    for row in table.lines() {
        if !holds(alloc, tables, row) {
            return Some(row);
        }
    }
    None
}

/// The first row that isn't so.
fn wrong_row(alloc: Global, table: &'static str) -> Option<&'static str> {
    let mut tables = Tables::new(alloc);
    wrong_row_of(alloc, &mut tables, table)
}

// A type's kinds, how alike two are, and which converts to which.
//
// Then `struct node { struct node *only; }`, `struct box { struct node only; }`, and one that owns a block.
//
// Then sizes, and where cells lie. Each of d1 to d11 has two of the one before it: the tenth has 4,096 bytes. `over` has one more, and three behind it. Each of
// e1 to e10 has eight of the one before it: the tenth would have 2 ^ 32 bytes, which is 0 where a sum wraps.
const TYPES: &str = "\
kinds int = integer testable scalar makeable element
kinds char = integer testable scalar makeable element
kinds null = null element
kinds union:either = union scalar makeable element
kinds key = key scalar
kinds key:0 = key scalar
kinds void = void
kinds struct:pair = makeable element
kinds void+* = pointer testable scalar makeable element
pointer int+? = copied_begins
pointer int+! = copied
pointer int+^ = begins
scalar char = char
scalar int+@ = unique_never_null
scalar union:either = either
scalar struct:pair = none
outer int = none
outer int+*+?3 int+?3 = equal
pointee int+*+?3 int+* = yes
pointee int+* int = yes
pointee int+*+?3 int = no
bases union:either union:either = equal
bases union:either union:either:2 = by_regions
bases union:either union:other = different
bases int unsigned = different
outer int+* int+*0 = by_regions
outer int+* int+^ = by_regions
outer int+* int+? = different
types char+* char+* = equal
same char+* char+* = yes
types char+* char+*0 = by_regions
same char+* char+*0 = no
converts char int = converts
converts int int+* = Typing
converts null int+* = converts
converts null int+! = Typing
outlives int+* int+?0 = converts
converts int+?0 int+* = Outlives
outlives int+^ int+* = Region
struct node 0 only struct:node+* = added
struct box 1 only struct:node = added
order box = 1
order list = none
declared struct:node = yes
declared struct:list = no
copied struct:node = yes
begins struct:node = yes
struct owner 2 only int+@ = added
declared struct:owner = yes
copied struct:owner = no
begins struct:owner = no
struct lists 2 only struct:list = Undeclared
struct box 2 only int = Again
order lists = none
order box = 1
layout int = 4 4 1 int 0
layout unsigned = 4 4 1 unsigned 0
layout char = 1 1 1 char 0
layout void = 0 1 0 none
layout char+* = 4 4 1 thin 0
layout char+? = 12 4 1 fat 0
extent key = 4 4
struct mixed 0 a char  b int  c char = added
struct twice 0 first struct:mixed  second struct:mixed = added
struct inner 0 a char  b struct:mixed = added
union either 0 small char  large int+? = added
struct outer 0 a char  b struct:mixed  c union:either = added
struct holder 0 a char  b union:either  c char = added
layout struct:mixed = 12 4 3 char 0 4 8
layout struct:twice = 24 4 6 char 0 4 8 12 16 20
layout struct:inner = 16 4 4 char 0 4 8 12
layout union:either = 16 4 1 either 0
layout struct:outer = 32 4 5 char 0 4 8 12 16
layout struct:holder = 24 4 3 char 0 4 20
struct d0 0 a int = added
struct d1 0 a struct:d0  b struct:d0 = added
struct d2 0 a struct:d1  b struct:d1 = added
struct d3 0 a struct:d2  b struct:d2 = added
struct d4 0 a struct:d3  b struct:d3 = added
struct d5 0 a struct:d4  b struct:d4 = added
struct d6 0 a struct:d5  b struct:d5 = added
struct d7 0 a struct:d6  b struct:d6 = added
struct d8 0 a struct:d7  b struct:d7 = added
struct d9 0 a struct:d8  b struct:d8 = added
struct d10 0 a struct:d9  b struct:d9 = added
struct d11 0 a struct:d10  b struct:d10 = added
struct over 0 most struct:d10  more char = added
layout struct:d10 = 4096 4 1024 int 0 4 8 12 16
layout struct:d11 = 0 0 0 none
layout struct:over = 0 0 0 none
struct e1 0 a struct:d0  b struct:d0  c struct:d0  d struct:d0  e struct:d0  f struct:d0  g struct:d0  h struct:d0 = added
struct e2 0 a struct:e1  b struct:e1  c struct:e1  d struct:e1  e struct:e1  f struct:e1  g struct:e1  h struct:e1 = added
struct e3 0 a struct:e2  b struct:e2  c struct:e2  d struct:e2  e struct:e2  f struct:e2  g struct:e2  h struct:e2 = added
struct e4 0 a struct:e3  b struct:e3  c struct:e3  d struct:e3  e struct:e3  f struct:e3  g struct:e3  h struct:e3 = added
struct e5 0 a struct:e4  b struct:e4  c struct:e4  d struct:e4  e struct:e4  f struct:e4  g struct:e4  h struct:e4 = added
struct e6 0 a struct:e5  b struct:e5  c struct:e5  d struct:e5  e struct:e5  f struct:e5  g struct:e5  h struct:e5 = added
struct e7 0 a struct:e6  b struct:e6  c struct:e6  d struct:e6  e struct:e6  f struct:e6  g struct:e6  h struct:e6 = added
struct e8 0 a struct:e7  b struct:e7  c struct:e7  d struct:e7  e struct:e7  f struct:e7  g struct:e7  h struct:e7 = added
struct e9 0 a struct:e8  b struct:e8  c struct:e8  d struct:e8  e struct:e8  f struct:e8  g struct:e8  h struct:e8 = added
struct e10 0 a struct:e9  b struct:e9  c struct:e9  d struct:e9  e struct:e9  f struct:e9  g struct:e9  h struct:e9 = added
layout struct:e3 = 2048 4 512 int 0 4 8
layout struct:e10 = 0 0 0 none";

/// Types are told apart, structs are found by their names, and cells lie in order.
#[test]
fn types_are_as_they_are_said(rt: HostRuntime) -> Result<(), Fail> {
    refuse(wrong_row(rt.alloc(), TYPES))
}
