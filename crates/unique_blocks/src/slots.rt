// The words of pages that are cut into slots.

ghost use Rattle.std.specs.Prelude.{◌≡◌, ◌+◌, ◌-◌, ◌*◌, ◌<◌, ◌≤◌, ℕ, true, false};
ghost use Rattle.region_runtime.specs.Headers.{put_word};
ghost use Rattle.region_runtime.specs.Pool.{held, is_taken, word_of};
ghost use Rattle.region_runtime.specs.Touches.{touches_field};
ghost use Rattle.unique_blocks.specs.Calls.{IsFirstVacant, IsKept, slots_of};
ghost use Rattle.unique_blocks.specs.Slots.{bit_of, with_bit, with_class, with_cut, with_live, with_next, with_no_bits, with_slot_given, with_slot_taken};

use region_runtime::Pool;

/// The field of the bytes of a page's slots.
pub(crate) const CLASS: u32 = 4;

/// The first of four fields with a bit for each slot, which is set where the slot is live.
pub(crate) const BITS: u32 = 5;

/// The field of how many slots are live.
pub(crate) const LIVE: u32 = 9;

/// The field of the next page, and one, on the chain of pages with a vacant slot.
pub(crate) const NEXT: u32 = 10;

/// A word of a page got from the pool, and 0 of another page.
pub(crate) fn word(pool: &Pool, page: u32, field: u32) -> u32
    ensures { result ≡ word_of pool.now page field }
{
    match pool.page_word(page, field) {
        Some(word) => word,
        None => 0,
    }
}

/// The same word, with the header words that are read counted: whose the page is, and the word if it was got.
pub(crate) fn read(pool: &Pool, touched: &mut u32, page: u32, field: u32) -> u32
    requires from { 4 ≤ field }
    requires field { field < 16 }
    requires few { touched.old < 1000 }
    ensures value { result ≡ word_of pool.now page field }
    ensures counts { touched.new ≡ touched.old + touches_field (is_taken pool.now page) 2 true (held pool.now).pages page }
    ensures taken { is_taken pool.now page ≡ true → touched.new ≡ touched.old + 2 }
    ensures most { touched.new ≤ touched.old + 2 }
    ensures least { touched.old ≤ touched.new }
{
    if page >= pool.pages() {
        return 0;
    }
    match pool.page_word(page, field) {
        Some(word) => {
            *touched += 2;
            word
        }
        None => {
            *touched += 1;
            0
        }
    }
}

/// Sets a word of a page got from the pool.
fn set_word(pool: &mut Pool, touched: &mut u32, page: u32, field: u32, value: u32)
    requires taken { is_taken pool.old page ≡ true }
    requires from { 4 ≤ field }
    requires field { field < 16 }
    requires few { touched.old < 1000 }
    ensures words { word_of pool.new ≡ put_word page field value (word_of pool.old) }
    ensures kept { IsKept pool.old pool.new }
    ensures counts { touched.new ≡ touched.old + 2 }
{
    pool.set_page_word(page, field, value);
    *touched += pool.touched();
}

/// No page has a class.
pub(crate) fn forget_pages(pool: &mut Pool)
    ensures none { (page : ℕ) → word_of pool.new page 4 ≡ 0 }
    ensures few { (held pool.new).pages ≤ 4096 }
    ensures kept { IsKept pool.old pool.new }
{
    let mut page = 0;
    'pages: while page < pool.pages() {
        pool.set_page_word(page, CLASS, 0);
        page += 1;
    }
}

/// Whether a slot is live.
pub(crate) fn is_set(pool: &Pool, page: u32, slot: u32) -> bool
    requires { slot < 128 }
    ensures { result ≡ bit_of (word_of pool.now) page slot }
{
    word(pool, page, BITS + slot / 32) >> (slot % 32) & 1 == 1
}

/// The same, counted.
pub(crate) fn finds(pool: &Pool, touched: &mut u32, page: u32, slot: u32) -> bool
    requires slot { slot < 128 }
    requires few { touched.old < 1000 }
    ensures value { result ≡ bit_of (word_of pool.now) page slot }
    ensures counts { touched.new ≡ touched.old + touches_field (is_taken pool.now page) 2 true (held pool.now).pages page }
    ensures taken { is_taken pool.now page ≡ true → touched.new ≡ touched.old + 2 }
    ensures most { touched.new ≤ touched.old + 2 }
    ensures least { touched.old ≤ touched.new }
{
    read(pool, touched, page, BITS + slot / 32) >> (slot % 32) & 1 == 1
}

/// Makes a slot live.
fn set_bit(pool: &mut Pool, touched: &mut u32, page: u32, slot: u32)
    requires taken { is_taken pool.old page ≡ true }
    requires slot { slot < 128 }
    requires few { touched.old < 900 }
    ensures slots { slots_of pool.new ≡ with_bit page slot true (slots_of pool.old) }
    ensures kept { IsKept pool.old pool.new }
    ensures counts { touched.new ≡ touched.old + 4 }
{
    let field = BITS + slot / 32;
    let bits = read(pool, touched, page, field) | 1 << (slot % 32);
    set_word(pool, touched, page, field, bits);
}

/// Makes a slot vacant.
fn clear_bit(pool: &mut Pool, touched: &mut u32, page: u32, slot: u32)
    requires taken { is_taken pool.old page ≡ true }
    requires slot { slot < 128 }
    requires few { touched.old < 900 }
    ensures slots { slots_of pool.new ≡ with_bit page slot false (slots_of pool.old) }
    ensures kept { IsKept pool.old pool.new }
    ensures counts { touched.new ≡ touched.old + 4 }
{
    let field = BITS + slot / 32;
    let bits = read(pool, touched, page, field) & !(1 << (slot % 32));
    set_word(pool, touched, page, field, bits);
}

/// How many slots of a page are live.
fn set_live(pool: &mut Pool, touched: &mut u32, page: u32, live: u32)
    requires taken { is_taken pool.old page ≡ true }
    requires few { touched.old < 900 }
    ensures slots { slots_of pool.new ≡ with_live page live (slots_of pool.old) }
    ensures kept { IsKept pool.old pool.new }
    ensures counts { touched.new ≡ touched.old + 2 }
{
    set_word(pool, touched, page, LIVE, live);
}

/// The page, and one, that follows on the chain.
pub(crate) fn set_next(pool: &mut Pool, touched: &mut u32, page: u32, next: u32)
    requires taken { is_taken pool.old page ≡ true }
    requires few { touched.old < 900 }
    ensures slots { slots_of pool.new ≡ with_next page next (slots_of pool.old) }
    ensures kept { IsKept pool.old pool.new }
    ensures counts { touched.new ≡ touched.old + 2 }
{
    set_word(pool, touched, page, NEXT, next);
}

/// Makes all slots vacant.
fn clear_bits(pool: &mut Pool, touched: &mut u32, page: u32)
    requires taken { is_taken pool.old page ≡ true }
    requires few { touched.old < 900 }
    ensures slots { slots_of pool.new ≡ with_no_bits page (slots_of pool.old) }
    ensures kept { IsKept pool.old pool.new }
    ensures counts { touched.new ≡ touched.old + 8 }
{
    set_word(pool, touched, page, BITS, 0);
    set_word(pool, touched, page, BITS + 1, 0);
    set_word(pool, touched, page, BITS + 2, 0);
    set_word(pool, touched, page, BITS + 3, 0);
}

/// Cuts a page into vacant slots.
pub(crate) fn cut(pool: &mut Pool, touched: &mut u32, page: u32, class: u32)
    requires taken { is_taken pool.old page ≡ true }
    requires few { touched.old < 800 }
    ensures slots { slots_of pool.new ≡ with_cut page class (slots_of pool.old) }
    ensures kept { IsKept pool.old pool.new }
    ensures counts { touched.new ≡ touched.old + 14 }
{
    set_word(pool, touched, page, CLASS, class);
    clear_bits(pool, touched, page);
    set_live(pool, touched, page, 0);
    set_next(pool, touched, page, 0);
}

/// Makes a slot live, and counts it: how many are live then.
pub(crate) fn take_slot(pool: &mut Pool, touched: &mut u32, page: u32, slot: u32) -> u32
    requires taken { is_taken pool.old page ≡ true }
    requires slot { slot < 128 }
    requires vacant { (slots_of pool.old).live page < 128 }
    requires few { touched.old < 800 }
    ensures live { result ≡ (slots_of pool.old).live page + 1 }
    ensures slots { slots_of pool.new ≡ with_slot_taken page slot (slots_of pool.old) }
    ensures kept { IsKept pool.old pool.new }
    ensures counts { touched.new ≡ touched.old + 8 }
{
    let live = read(pool, touched, page, LIVE) + 1;
    set_bit(pool, touched, page, slot);
    set_live(pool, touched, page, live);
    live
}

/// Makes a slot vacant, and counts it: how many were live.
pub(crate) fn give_slot(pool: &mut Pool, touched: &mut u32, page: u32, slot: u32) -> u32
    requires taken { is_taken pool.old page ≡ true }
    requires slot { slot < 128 }
    requires some { 0 < (slots_of pool.old).live page }
    requires few { touched.old < 800 }
    ensures live { result ≡ (slots_of pool.old).live page }
    ensures slots { slots_of pool.new ≡ with_slot_given page slot (slots_of pool.old) }
    ensures kept { IsKept pool.old pool.new }
    ensures counts { touched.new ≡ touched.old + 8 }
{
    let live = read(pool, touched, page, LIVE);
    clear_bit(pool, touched, page, slot);
    set_live(pool, touched, page, live - 1);
    live
}

/// The first vacant slot of a page, or 128.
pub(crate) fn first_vacant(pool: &Pool, touched: &mut u32, page: u32) -> u32
    requires taken { is_taken pool.now page ≡ true }
    requires few { touched.old < 900 }
    ensures first { IsFirstVacant (bit_of (word_of pool.now) page) result }
    ensures least { touched.old + 2 ≤ touched.new }
    ensures most { touched.new ≤ touched.old + 8 }
{
    let mut part = 0;
    'parts: while part < 4 {
        let slot = read(pool, touched, page, BITS + part).trailing_ones();
        if slot < 32 {
            return 32 * part + slot;
        }
        part += 1;
    }
    128
}
