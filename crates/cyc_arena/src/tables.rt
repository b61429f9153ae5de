// The plain store's tables: lists of words, which are looked through from their beginning.

ghost use Rattle.std.specs.Prelude.{◌≡◌, ◌+◌, ◌-◌, ◌≤◌, ◌<◌, length, slice_index};
ghost use Rattle.arena_laws.specs.Lawful.{takes_blocks};
ghost use Rattle.cyc_arena.specs.Plain.{Finds, IsCleared, IsLowest, filled, left_of, standing_at, used_up};

use arena_laws::{PAGE, Standing};

/// The most pages of a store.
pub(crate) const PAGE_LIMIT: u32 = 4096;

/// The first place with this word.
pub(crate) fn find(words: &[u32], word: u32) -> Option<usize>
    ensures found { Finds word words.now result }
    ensures lowest { IsLowest word words.now result }
{
    let mut p: usize = 0;
    'words: while p < words.len() {
        if words[p] == word {
            return Some(p);
        }
        p += 1;
    }
    None
}

/// How many pages were ever used, where this one is.
pub(crate) fn used_with(page: usize, ever_used: usize) -> usize
    requires { ever_used < 4097 }
    ensures { result ≡ used_up page ever_used }
{
    if page == ever_used {
        ever_used + 1
    } else {
        ever_used
    }
}

/// Writes 0 wherever this word stands.
pub(crate) fn clear(words: &mut Vec<u32>, word: u32)
    ensures { IsCleared word words.old.items words.new.items }
{
    let mut p: usize = 0;
    'words: while p < words.len() {
        if words[p] == word {
            words[p] = 0;
        }
        p += 1;
    }
}

/// Writes this word to `count` places, from one on.
pub(crate) fn fill(words: &mut Vec<u32>, from: usize, count: usize, word: u32)
    requires { from + count ≤ length words.old.items }
    ensures { words.new.items ≡ filled count from word words.old.items }
{
    let mut n: usize = 0;
    'words: while n < count {
        words[from + n] = word;
        n += 1;
    }
}

/// What a number stands for.
pub(crate) fn standing_of(standing: &Vec<Option<Standing>>, number: u32) -> Option<Standing>
    ensures { result ≡ standing_at standing.now.items number }
{
    let place = number as usize;
    if place < standing.len() {
        standing[place]
    } else {
        None
    }
}

/// Whether blocks are taken under a number that stands for this.
pub(crate) fn takes(handle: u32, standing: Option<Standing>) -> bool
    ensures { result ≡ takes_blocks handle standing }
{
    match standing {
        None => handle == 0,
        Some(Standing::Lexical) => true,
        Some(Standing::Opened) => true,
        Some(Standing::Closed) => false,
    }
}

/// What is left of a last page, which is named by its number and one.
pub(crate) fn left_in(used: &Vec<u32>, last: u32) -> u32
    requires within { slice_index used.now.items (last - 1) ≤ 4096 }
    requires place { last ≤ length used.now.items }
    ensures { result ≡ left_of used.now.items last }
{
    if last == 0 {
        0
    } else {
        PAGE - used[last as usize - 1]
    }
}
