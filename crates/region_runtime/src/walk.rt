// What is read of the headers without counting.

ghost use Rattle.std.specs.Prelude.{◌≡◌, ◌+◌, ◌-◌, ◌*◌, ◌/◌, ◌<◌, ◌≤◌, ℕ, length, nat_eq, nat_lt, true};
ghost use Rattle.region_runtime.specs.Chains.{follow, times};
ghost use Rattle.arena_laws.specs.Holdings.{is_some};
ghost use Rattle.region_runtime.specs.Headers.{word_in, owner_of, link_of, holder_of, is_live_number, pages_of};
ghost use Rattle.raw_pages.specs.Raw.{count};

use crate::book::{COUNT, HEAP, LINK, NEWEST, OWNER, TAKEN};
use raw_pages::RawPages;

/// Whether a number is a live region's.
pub(crate) fn is_region(raw: &RawPages, number: u32) -> bool
    ensures { result ≡ is_live_number (owner_of (word_in raw.now.words)) number }
{
    if number == 0 {
        return false;
    }
    if number > raw.pages() {
        return false;
    }
    raw.word(number - 1, OWNER) == number
}

/// Whether a page is among the first `many` pages of the chain from `from` on.
fn leads_to(raw: &RawPages, many: u32, from: u32, page: u32) -> bool
    requires { (q : ℕ) → 0 < times q (follow (link_of (word_in raw.now.words)) many from) → q < count raw.now }
    ensures { result ≡ nat_lt 0 (times page (follow (link_of (word_in raw.now.words)) many from)) }
{
    let mut left = many;
    let mut at = from;
    'pages: while left > 0 {
        if at == page {
            return true;
        }
        at = raw.word(at, LINK);
        left -= 1;
    }
    false
}

/// Whether a page is the heap's or a live region's.
pub(crate) fn is_held(raw: &RawPages, page: u32) -> bool
    requires page { page < count raw.now }
    requires within { (h q : ℕ) → is_live_number (owner_of (word_in raw.now.words)) h ≡ true → 0 < times q (pages_of (word_in raw.now.words) h) → q < count raw.now }
    ensures { result ≡ is_some (holder_of (word_in raw.now.words) page) }
{
    let owner = raw.word(page, OWNER);
    if owner == HEAP {
        return true;
    }
    if owner == TAKEN {
        return false;
    }
    if !is_region(raw, owner) {
        return false;
    }
    let newest = raw.word(owner - 1, NEWEST);
    let many = raw.word(owner - 1, COUNT);
    leads_to(raw, many, newest, page)
}
