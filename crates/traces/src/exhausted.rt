// What a run asked for that had no space, and what was left.

use cyc_host::Watch;
use rv32_machine::{KEY_NEW, REGION_ALLOC, REGION_NEW, STACK_BASE, STACK_REFUSED, UNIQUE_ALLOC};
use std::alloc::{AllocError, Global};

/// The bytes of a page.
const PAGE: u32 = 4096;

/// The arena of a run: its pages, and the bytes of the longest block of a region.
#[derive(Clone, Copy)]
pub struct Arena {
    pub pages: u32,
    pub longest: u32,
}

/// The ending of a number's noun.
fn plural(count: u32) -> &'static str {
    if count == 1 { "" } else { "s" }
}

/// Says how many pages of an arena are free.
fn free_of(alloc: Global, arena: Arena, free: u32) -> Result<String, AllocError> {
    let pages = arena.pages;
    let ending = plural(pages);
    match free {
        0 => format!(in alloc; "none of {pages} page{ending} is free"),
        1 => format!(in alloc; "1 of {pages} page{ending} is free"),
        _ => format!(in alloc; "{free} of {pages} pages are free"),
    }
}

/// Says what a block of this number of bytes takes, none of which is longer than `longest`, and what was left. Of several pages, which have to be adjacent and
/// new, also how many were never used.
fn left_for(
    alloc: Global,
    watch: &Watch,
    arena: Arena,
    bytes: u32,
    longest: u32,
) -> Result<String, AllocError> {
    if bytes > longest {
        return format!(in alloc; "; a block has at most {longest} bytes");
    }
    let wanted = (bytes.saturating_add(PAGE - 1) / PAGE).max(1);
    let ending = plural(wanted);
    let free = arena.pages.saturating_sub(watch.taken_pages());
    let unused = arena.pages.saturating_sub(watch.used_pages());
    let left = free_of(alloc, arena, free)?;
    let left = left.as_str();
    if wanted > 1 && free > 0 {
        format!(in alloc;
            ", which takes {wanted} page{ending}; {left}, {unused} of them never used"
        )
    } else {
        format!(in alloc; ", which takes {wanted} page{ending}; {left}")
    }
}

/// The line of a request of the arena, of a block of this number of bytes.
fn refused(
    alloc: Global,
    watch: &Watch,
    arena: Arena,
    inside: &str,
    block: (&str, u32, u32),
) -> Result<String, AllocError> {
    let (request, bytes, longest) = block;
    let left = left_for(alloc, watch, arena, bytes, longest)?;
    let left = left.as_str();
    if longest == 0 {
        format!(in alloc; "arena: {request}{inside}{left}\n")
    } else {
        format!(in alloc; "arena: {request} of {bytes} bytes{inside}{left}\n")
    }
}

/// The line of the request that had no space, in a function or at an address, as it is said.
pub fn exhausted(
    alloc: Global,
    watch: &Watch,
    arena: Arena,
    inside: &str,
) -> Result<String, AllocError> {
    let last = watch.last();
    let (first, second) = last.arguments;
    let block = match last.number {
        STACK_REFUSED => {
            let left = last.stack.wrapping_sub(STACK_BASE);
            return format!(in alloc;
                "stack: frame of {first} bytes{inside}; {left} bytes are left\n"
            );
        }
        REGION_NEW => ("region_new", 0, 0),
        REGION_ALLOC => ("region_alloc", second, arena.longest),
        UNIQUE_ALLOC => ("unique_alloc", first, PAGE),
        KEY_NEW => ("key_new", 0, 0),
        _ => return Ok(String::new(alloc)),
    };
    refused(alloc, watch, arena, inside, block)
}
