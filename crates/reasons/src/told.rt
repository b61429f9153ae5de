// What is said of a fault.

use crate::places::offset_of;
use check_heads::{Names, read_head};
use check_structs::judged_tags;
use check_tables::{Structs, program_names};
use cyc_lexer::{Token, tokens};
use cyc_parser::parse;
use cyc_tree::{Function, Item};
use cycc_driver::CompileFault;
use fault_words::{
    Cure, Reason, Told, Words, item_at, say_bytes, say_grammar, say_head, say_name, walk_to,
};
use std::alloc::{AllocError, Global};
use token_reasons::{given_away, given_later, lent};

/// What is looked for at a fault, by the checker's judgements.
#[derive(Clone, Copy)]
enum Asked {
    Name,
    Types,
    Order,
}

/// A text with its tokens and a position in it.
#[derive(Clone, Copy)]
struct Site<'t, 'a> {
    tokens: &'t [Token<'a>],
    at: u32,
    alloc: Global,
}

/// Says where a local was given away.
fn say_given(words: &mut Words<'_>, tokens: &[Token<'_>], at: u32) -> Result<(), AllocError> {
    if let Some(before) = given_away(tokens, at) {
        words.say("Given away at ")?;
        words.position(before)?;
        words.relate(before, "given away here", b"")?;
        return words.say(".\n");
    }
    match given_later(tokens, at) {
        Some(later) => {
            words.say("Given away at ")?;
            words.position(later)?;
            words.relate(later, "given away here", b"")?;
            words.say(", in an earlier iteration.\n")
        }
        None => Ok(()),
    }
}

/// Says where a local was lent.
fn say_lent(words: &mut Words<'_>, tokens: &[Token<'_>], at: u32) -> Result<(), AllocError> {
    match lent(tokens, at) {
        Some(before) => {
            words.say("Lent at ")?;
            words.position(before)?;
            words.relate(before, "lent here", b"")?;
            words.say(".\n")
        }
        None => Ok(()),
    }
}

/// Says what is known of a fault in a function's body.
fn say_inside<'p>(
    words: &mut Words<'_>,
    site: Site<'_, 'p>,
    asked: Asked,
    names: Names<'_, 'p>,
    items: &'p [Item],
    item: u32,
    function: &'p Function,
) -> Result<(), AllocError> {
    let head = read_head(site.alloc, names.tags, false, function)?;
    let walk = walk_to(site.alloc, names, &head, item, function, site.at)?;
    if let Asked::Name = asked {
        let scope = Some(&walk.scope);
        return say_name(words, site.alloc, site.tokens, items, scope, site.at);
    }
    let mut told = Told {
        words,
        walk,
        head,
        function,
        items,
        alloc: site.alloc,
        at: site.at,
        is_order: matches!(asked, Asked::Order),
    };
    if site.at == function.end {
        return told.say_end();
    }
    told.say_here()
}

/// Whether an offset is behind a function's head, or in it behind the last parameter's type.
fn is_inside(function: &Function, at: u32) -> bool {
    match function.parameters.last() {
        Some(parameter) => parameter.of.at < at,
        None => function.name.at < at,
    }
}

/// Says what is known of a fault in an item of this index, by what the program's names mean.
fn say_item<'p>(
    words: &mut Words<'_>,
    site: Site<'_, 'p>,
    asked: Asked,
    names: Names<'_, 'p>,
    items: &'p [Item],
    index: usize,
) -> Result<(), AllocError> {
    match (items.get(index), u32::try_from(index)) {
        (Some(Item::Function(function)), Ok(item)) if is_inside(function, site.at) => {
            say_inside(words, site, asked, names, items, item, function)
        }
        (Some(item), _) => match asked {
            Asked::Name => say_name(words, site.alloc, site.tokens, items, None, site.at),
            Asked::Types => say_head(words, item, site.at),
            Asked::Order => Ok(()),
        },
        _ => Ok(()),
    }
}

/// What is looked for at a fault, where that takes the checker's judgements.
fn asked_of(fault: CompileFault) -> Option<Asked> {
    match fault {
        CompileFault::Name(_) => Some(Asked::Name),
        CompileFault::Typing(_) => Some(Asked::Types),
        CompileFault::Outlives(_) => Some(Asked::Order),
        _ => None,
    }
}

/// The items of a program, and what its names mean.
#[derive(Clone, Copy)]
struct Judged<'g, 'p> {
    names: Names<'g, 'p>,
    items: &'p [Item],
}

/// A text as it was read: its tokens, where it has no other bytes; and its items, where they are a program and are asked for.
#[derive(Clone, Copy)]
struct Reading<'t, 'g, 'p> {
    alloc: Global,
    text: &'t [u8],
    tokens: Option<&'t [Token<'p>]>,
    judged: Option<Judged<'g, 'p>>,
}

/// Says what is known of a fault by the checker's judgements.
fn say_judged<'p>(
    words: &mut Words<'_>,
    site: Site<'_, 'p>,
    asked: Asked,
    judged: Judged<'_, 'p>,
) -> Result<(), AllocError> {
    match item_at(judged.items, site.at) {
        Some(index) => say_item(words, site, asked, judged.names, judged.items, index),
        None => Ok(()),
    }
}

/// Says what is known of a fault, by its tokens and its position.
fn say_fault<'p>(
    words: &mut Words<'_>,
    site: Site<'_, 'p>,
    judged: Option<Judged<'_, 'p>>,
    fault: CompileFault,
) -> Result<(), AllocError> {
    if let (Some(asked), Some(judged)) = (asked_of(fault), judged) {
        return say_judged(words, site, asked, judged);
    }
    match fault {
        CompileFault::Parse(_) => say_grammar(words, site.tokens, site.at),
        CompileFault::Consumed(_) => say_given(words, site.tokens, site.at),
        CompileFault::Lent(_) => say_lent(words, site.tokens, site.at),
        _ => Ok(()),
    }
}

/// Says what is known of a fault at an offset.
fn say_at(
    words: &mut Words<'_>,
    reading: Reading<'_, '_, '_>,
    at: u32,
    fault: CompileFault,
) -> Result<(), AllocError> {
    if let CompileFault::Lex(_) = fault {
        return say_bytes(words, reading.text, at);
    }
    match reading.tokens {
        Some(tokens) => {
            let site = Site {
                tokens,
                at,
                alloc: reading.alloc,
            };
            say_fault(words, site, reading.judged, fault)
        }
        None => Ok(()),
    }
}

/// What is known of a fault of a text that was read.
fn reason_in(reading: Reading<'_, '_, '_>, fault: CompileFault) -> Result<Reason, AllocError> {
    let mut words = Words::new(reading.alloc, reading.text);
    if let Some(place) = fault.place() {
        say_at(&mut words, reading, offset_of(reading.text, place), fault)?;
    }
    Ok(words.into_reason())
}

/// What is known of each of some faults of a text that was read.
fn each_in(
    reading: Reading<'_, '_, '_>,
    faults: &[CompileFault],
) -> Result<Vec<Reason>, AllocError> {
    let mut reasons = Vec::new(reading.alloc);
    for fault in faults {
        reasons.push(reason_in(reading, *fault)?)?;
    }
    Ok(reasons)
}

/// A text with its tokens.
#[derive(Clone, Copy)]
struct Lexed<'t, 'a> {
    alloc: Global,
    text: &'t [u8],
    tokens: &'t [Token<'a>],
}

/// What is known of each of some faults of a text whose items were read.
fn each_of_items<'p>(
    lexed: Lexed<'_, 'p>,
    items: &'p [Item],
    faults: &[CompileFault],
) -> Result<Vec<Reason>, AllocError> {
    let tags = judged_tags(lexed.alloc, items)?;
    let structs = Structs {
        tags: &tags.names,
        tables: &tags.tables,
    };
    let globals = program_names(lexed.alloc, structs, false, items)?;
    let names = Names {
        globals: &globals,
        tags: structs.tags,
        tables: structs.tables,
    };
    let reading = Reading {
        alloc: lexed.alloc,
        text: lexed.text,
        tokens: Some(lexed.tokens),
        judged: Some(Judged { names, items }),
    };
    each_in(reading, faults)
}

/// The same of one whose items aren't asked for, or are no program.
fn each_unjudged(lexed: Lexed<'_, '_>, faults: &[CompileFault]) -> Result<Vec<Reason>, AllocError> {
    let reading = Reading {
        alloc: lexed.alloc,
        text: lexed.text,
        tokens: Some(lexed.tokens),
        judged: None,
    };
    each_in(reading, faults)
}

/// The same of one whose items are asked for.
fn each_parsed(lexed: Lexed<'_, '_>, faults: &[CompileFault]) -> Result<Vec<Reason>, AllocError> {
    match parse(lexed.alloc, lexed.tokens) {
        Ok(program) => each_of_items(lexed, program.items(), faults),
        Err(_) => each_unjudged(lexed, faults),
    }
}

/// Whether what is known of one of some faults takes the checker's judgements.
fn asks_any(faults: &[CompileFault]) -> bool {
    for fault in faults {
        if asked_of(*fault).is_some() {
            return true;
        }
    }
    false
}

/// What is known of each of some faults of a text with these tokens.
fn each_of_tokens(
    lexed: Lexed<'_, '_>,
    faults: &[CompileFault],
) -> Result<Vec<Reason>, AllocError> {
    if asks_any(faults) {
        each_parsed(lexed, faults)
    } else {
        each_unjudged(lexed, faults)
    }
}

/// What is known of each of some faults of a text, which is read once for all of them. Fails only where no host memory is left.
pub fn reasons_of(
    alloc: Global,
    text: &[u8],
    faults: &[CompileFault],
) -> Result<Vec<Reason>, AllocError> {
    match tokens(alloc, text) {
        Ok(found) => {
            let tokens = found.as_slice();
            each_of_tokens(
                Lexed {
                    alloc,
                    text,
                    tokens,
                },
                faults,
            )
        }
        Err(_) => {
            let reading = Reading {
                alloc,
                text,
                tokens: None,
                judged: None,
            };
            each_in(reading, faults)
        }
    }
}

/// What is known of one fault of a text.
pub(crate) fn reason_of(
    alloc: Global,
    text: &[u8],
    fault: CompileFault,
) -> Result<Reason, AllocError> {
    let mut reasons = reasons_of(alloc, text, &[fault])?;
    match reasons.pop() {
        Some(reason) => Ok(reason),
        None => Ok(Words::new(alloc, text).into_reason()),
    }
}

/// What is known of a fault of a text, in lines of words: none, where nothing is. Fails only where no host memory is left.
pub fn reason(alloc: Global, text: &[u8], fault: CompileFault) -> Result<Vec<u8>, AllocError> {
    Ok(reason_of(alloc, text, fault)?.into_words())
}

/// The edits that the words of `reason` tell, which mend a fault together: none, where it isn't known what does. Fails only where no host
/// memory is left.
pub fn cure(alloc: Global, text: &[u8], fault: CompileFault) -> Result<Cure, AllocError> {
    Ok(reason_of(alloc, text, fault)?.into_cure())
}
