// What is said of types in the heads of functions, and of globals, members and `main`.

use crate::used::end_of;
use crate::words::Words;
use check_heads::is_main;
use cyc_tree::{Base, Function, Global as GlobalItem, Initial, Item, Member, TypeName};
use std::alloc::AllocError;

/// What a type is that is no pointer, where values of it don't stand everywhere.
#[derive(Clone, Copy)]
enum Whole<'p> {
    Struct(&'p [u8]),
    Union(&'p [u8]),
    Void,
}

/// What a type is, where it is such a one.
fn whole_of(of: &TypeName) -> Option<Whole<'_>> {
    if !of.pointers.is_empty() {
        return None;
    }
    match &of.base {
        Base::Struct(tag, _) => Some(Whole::Struct(&tag.text)),
        Base::Union(tag, _) => Some(Whole::Union(&tag.text)),
        Base::Void => Some(Whole::Void),
        _ => None,
    }
}

/// Says a pointer to a struct or union.
fn say_pointer(words: &mut Words<'_>, of: Whole<'_>) -> Result<(), AllocError> {
    match of {
        Whole::Struct(tag) => {
            words.say("struct ")?;
            words.name(tag)?;
            words.say(" *")
        }
        Whole::Union(tag) => {
            words.say("union ")?;
            words.name(tag)?;
            words.say(" *")
        }
        Whole::Void => words.say("char ?"),
    }
}

/// Says what a declaration is, up to the end of its name.
fn say_found(words: &mut Words<'_>, member: &Member) -> Result<(), AllocError> {
    words.say("Found:  ")?;
    words.written(member.of.at, end_of(&member.name))?;
    words.say("\n")
}

/// Says of a parameter that it is a scalar.
fn say_parameter(words: &mut Words<'_>, member: &Member) -> Result<(), AllocError> {
    let Some(of) = whole_of(&member.of) else {
        return Ok(());
    };
    say_found(words, member)?;
    words.say("Wanted: a scalar. Take a pointer: ")?;
    let from = words.len();
    say_pointer(words, of)?;
    words.name(&member.name.text)?;
    words.mend_as_said(member.of.at, end_of(&member.name), from)?;
    words.say("\n")
}

/// Says of a function's result that it is a scalar.
fn say_result(words: &mut Words<'_>, function: &Function) -> Result<(), AllocError> {
    let Some(of) = whole_of(&function.result) else {
        return Ok(());
    };
    words.say("Found:  ")?;
    words.written(function.result.at, function.name.at)?;
    words.say("\nWanted: a scalar or void. Take a pointer to what is filled: void ")?;
    words.name(&function.name.text)?;
    words.say("(")?;
    say_pointer(words, of)?;
    words.say("into)\n")
}

/// Says what `main` is.
fn say_main(words: &mut Words<'_>) -> Result<(), AllocError> {
    words.say("Wanted: int main(). All input comes from `getchar()`.\n")
}

/// Says of a function's head with a fault what is found and wanted.
fn say_function(words: &mut Words<'_>, function: &Function, at: u32) -> Result<(), AllocError> {
    if function.name.at == at && is_main(&function.name.text) {
        return say_main(words);
    }
    if function.result.at == at {
        return say_result(words, function);
    }
    for parameter in function.parameters.iter() {
        if parameter.of.at == at {
            return say_parameter(words, parameter);
        }
    }
    Ok(())
}

/// Says of a member of a struct or union what it may be.
fn say_member(words: &mut Words<'_>, member: &Member, is_union: bool) -> Result<(), AllocError> {
    if whole_of(&member.of).is_none() {
        return Ok(());
    }
    say_found(words, member)?;
    words.say(if is_union {
        "Wanted: a scalar that can be copied. A union has no struct and no union as a member, but pointers to them.\n"
    } else {
        "Wanted: a scalar, or a struct or union that is declared before it.\n"
    })
}

/// Says of the members of a struct or union what the one at an offset may be.
fn say_members(
    words: &mut Words<'_>,
    members: &[Member],
    is_union: bool,
    at: u32,
) -> Result<(), AllocError> {
    for member in members {
        if member.of.at == at {
            return say_member(words, member, is_union);
        }
    }
    Ok(())
}

/// Says of a global what it may be.
fn say_global(words: &mut Words<'_>, global: &GlobalItem, at: u32) -> Result<(), AllocError> {
    if global.name.at == at && is_main(&global.name.text) {
        return say_main(words);
    }
    if global.of.at != at {
        return Ok(());
    }
    if let Initial::Array(0) = global.initial {
        return words.say("An array has one element at least.\n");
    }
    match whole_of(&global.of) {
        Some(Whole::Union(_)) => words.say(
            "No global is a union, since a union has no value to begin with. Write a pointer to one.\n",
        ),
        Some(Whole::Void) => words.say("No variable is of type void.\n"),
        _ => Ok(()),
    }
}

/// Says of an item what is found and wanted where it has a fault of a type outside of bodies. Fails only where no host memory is left, as
/// all of these.
pub fn say_head(words: &mut Words<'_>, item: &Item, at: u32) -> Result<(), AllocError> {
    match item {
        Item::Function(function) => say_function(words, function, at),
        Item::Struct(structure) => say_members(words, &structure.members, false, at),
        Item::Union(structure) => say_members(words, &structure.members, true, at),
        Item::Global(global) => say_global(words, global, at),
    }
}
