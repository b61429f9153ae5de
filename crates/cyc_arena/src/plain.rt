// The plain store: tables that are read from their beginning at each call.

ghost use Rattle.std.specs.Prelude.{◌≡◌, ◌≢◌, ◌+◌, ◌*◌, ◌%◌, ◌<◌, ◌≤◌, length, true, false, IfOk};
ghost use Rattle.arena_laws.specs.Asked.{KeyNew, RegionAlloc, RegionNew, UniqueAlloc, is_short};
ghost use Rattle.arena_laws.specs.Counts.{is_full, run_of};
ghost use Rattle.arena_laws.specs.Holdings.{arena_base, fresh, is_some};
ghost use Rattle.arena_laws.specs.Lawful.{Lacks, takes_blocks, without_number};
ghost use Rattle.arena_laws.specs.Laws.{Does, answer_of, is_refused_full, key_new, made, region_alloc, region_new, unique_alloc};
ghost use Rattle.cyc_arena.specs.Plain.{byte_at, holdings_of, standing_at, tables_of};
ghost use Rattle.region_runtime.specs.Runs.{ran};
ghost use Rattle.raw_pages.specs.Raw.{is_no_page_count, is_pages_fault};

use crate::store::BlockStore;
use crate::tables::{PAGE_LIMIT, clear, fill, find, left_in, standing_of, takes, used_with};
use arena_laws::{BASE, LIMIT, Owner, PAGE, Standing, StoreRefusal, class_for, room_for, run_for};
use raw_pages::PagesFault;
use std::alloc::Global;
use std::marker::Model;

/// A store that looks through tables of its pages, numbers and slots at each call. It takes memory
/// when it is made and never again, so no call answers Memory.
#[derive(Drop)]
pub struct PlainStore {
    bytes: Vec<u8>,
    owner: Vec<u32>,
    used: Vec<u32>,
    last: Vec<u32>,
    standing: Vec<Option<Standing>>,
    slots: Vec<u32>,
    ever_used: usize,
}

impl Model for PlainStore {
    ghost use Rattle.cyc_arena.specs.Plain.{Plain, IsSound};

    ghost Value = { Plain };

    ghost view = { λ s. record { bytes = s.bytes.items; owner = s.owner.items; used = s.used.items; last = s.last.items; standing = s.standing.items; slots = s.slots.items; ever_used = s.ever_used } };

    ghost invariant = { λ s. IsSound (record { bytes = s.bytes.items; owner = s.owner.items; used = s.used.items; last = s.last.items; standing = s.standing.items; slots = s.slots.items; ever_used = s.ever_used }) };
}

impl PlainStore {
    /// A store of `pages` pages, all free, whose bytes are 0. Pages where `pages` isn't 1 to 4,096,
    /// looked for first; Memory where the allocator refuses.
    pub fn new(alloc: Global, pages: u32) -> Result<PlainStore, PagesFault>
        ensures made { IfOk result (λ s. holdings_of s ≡ fresh pages) }
        ensures zeros { IfOk result (λ s. byte_at s.bytes ≡ (λ q. 0)) }
        ensures pages { is_pages_fault result ≡ is_no_page_count pages }
    {
        if pages == 0 || pages > PAGE_LIMIT {
            return Err(PagesFault::Pages);
        }
        let count = pages as usize;
        let Ok(bytes) = vec![in alloc; 0u8; count * 4096] else {
            return Err(PagesFault::Memory);
        };
        let Ok(owner) = vec![in alloc; 0u32; count] else {
            return Err(PagesFault::Memory);
        };
        let Ok(used) = vec![in alloc; 0u32; count] else {
            return Err(PagesFault::Memory);
        };
        let Ok(last) = vec![in alloc; 0u32; count + 1] else {
            return Err(PagesFault::Memory);
        };
        let Ok(standing) = vec![in alloc; None; count + 1] else {
            return Err(PagesFault::Memory);
        };
        let Ok(slots) = vec![in alloc; 0u32; count * 128] else {
            return Err(PagesFault::Memory);
        };
        Ok(PlainStore {
            bytes,
            owner,
            used,
            last,
            standing,
            slots,
            ever_used: 0,
        })
    }

    /// A region or a key, whose number is its first page and one.
    fn make(&mut self, standing: Standing) -> Result<u32, StoreRefusal>
        ensures does { Does result (holdings_of self.new) (made standing (answer_of result) (holdings_of self.old)) }
        ensures full { is_refused_full result ≡ is_full (holdings_of self.old).counts }
        ensures bytes { self.new.bytes ≡ self.old.bytes }
        ensures never { answer_of result ≢ Lacks }
    {
        match find(&self.owner, 0) {
            Some(page) => {
                let number = page as u32 + 1;
                self.ever_used = used_with(page, self.ever_used);
                self.owner[page] = 2 * number + 1;
                self.used[page] = 0;
                self.last[page + 1] = number;
                self.standing[page + 1] = Some(standing);
                Ok(number)
            }
            None => Err(StoreRefusal::Full),
        }
    }

    /// A live number, its blocks and its pages are given back.
    fn release(&mut self, number: u32)
        requires { is_some (standing_at self.old.standing number) ≡ true }
        ensures holds { holdings_of self.new ≡ without_number number (holdings_of self.old) }
        ensures bytes { self.new.bytes ≡ self.old.bytes }
    {
        clear(&mut self.owner, 2 * number + 1);
        self.last[number as usize] = 0;
        self.standing[number as usize] = None;
    }

    /// Gives the first page never used to the heap or a number, with a block of `room` bytes.
    fn extend(&mut self, number: u32, room: u32)
        requires takes { takes_blocks number (standing_at self.old.standing number) ≡ true }
        requires page { self.old.ever_used < length self.old.owner }
        requires eights { room % 8 ≡ 0 }
        requires most { room ≤ 4096 }
        ensures holds { holdings_of self.new ≡ ran number (arena_base + 4096 * self.old.ever_used) room 1 (holdings_of self.old) }
        ensures used { self.new.ever_used ≡ self.old.ever_used + 1 }
        ensures bytes { self.new.bytes ≡ self.old.bytes }
    {
        let page = self.ever_used;
        self.owner[page] = 2 * number + 1;
        self.used[page] = room;
        self.ever_used += 1;
    }

    /// Gives a run of pages never used to the heap or a number, with a block of `room` bytes.
    fn run(&mut self, number: u32, room: u32)
        requires takes { takes_blocks number (standing_at self.old.standing number) ≡ true }
        requires eights { room % 8 ≡ 0 }
        requires some { 0 < room }
        requires pages { self.old.ever_used + run_of room ≤ length self.old.owner }
        ensures holds { holdings_of self.new ≡ ran number (arena_base + 4096 * self.old.ever_used) room (run_of room) (holdings_of self.old) }
        ensures bytes { self.new.bytes ≡ self.old.bytes }
    {
        let mut left = room;
        'pages: while left > PAGE {
            self.extend(number, PAGE);
            left -= PAGE;
        }
        self.extend(number, left);
    }

    /// Whose an address is.
    fn owner_of(&self, at: u32) -> Option<Owner>
        ensures { result ≡ (holdings_of self.now).owner at }
    {
        if at < BASE {
            return None;
        }
        let page = ((at - BASE) / PAGE) as usize;
        if page >= self.owner.len() {
            return None;
        }
        let place = (at - BASE) % PAGE;
        let word = self.owner[page];
        if word == 0 {
            return None;
        }
        if word % 2 == 1 {
            return if place < self.used[page] {
                Some(Owner::Region(word / 2))
            } else {
                None
            };
        }
        let room = word / 2 - 1;
        let slot = place / room;
        if self.slots[128 * page + slot as usize] == 2 * room + 1 {
            Some(Owner::Alone(BASE + PAGE * page as u32 + slot * room, room))
        } else {
            None
        }
    }
}

impl BlockStore for PlainStore {
    ghost holdings = { holdings_of };

    ghost byte_at = { λ s. byte_at s.bytes };

    ghost headers = { tables_of };

    ghost may_lack = { false };

    fn region_new(&mut self) -> Result<u32, StoreRefusal>
        ensures does { Does result (holdings_of self.new) (region_new (answer_of result) (holdings_of self.old)) }
        ensures bytes { byte_at self.new.bytes ≡ byte_at self.old.bytes }
        ensures full { is_refused_full result ≡ is_short RegionNew (holdings_of self.old) }
        ensures never { answer_of result ≢ Lacks }
    {
        self.make(Standing::Lexical)
    }

    fn region_alloc(&mut self, handle: u32, bytes: u32) -> Result<u32, StoreRefusal>
        ensures does { Does result (holdings_of self.new) (region_alloc handle bytes (answer_of result) (holdings_of self.old)) }
        ensures bytes { byte_at self.new.bytes ≡ byte_at self.old.bytes }
        ensures full { is_refused_full result ≡ is_short (RegionAlloc handle bytes) (holdings_of self.old) }
        ensures never { answer_of result ≢ Lacks }
    {
        if !takes(handle, standing_of(&self.standing, handle)) {
            return Err(StoreRefusal::BadHandle);
        }
        if bytes > LIMIT {
            return Err(StoreRefusal::Full);
        }
        let room = room_for(bytes);
        if room > PAGE {
            if run_for(room) as usize > self.owner.len() - self.ever_used {
                return Err(StoreRefusal::Full);
            }
            let page = self.ever_used;
            self.run(handle, room);
            return Ok(BASE + PAGE * page as u32);
        }
        let number = handle as usize;
        let last = self.last[number];
        let left = left_in(&self.used, last);
        if room <= left {
            let page = last - 1;
            let used = PAGE - left;
            self.used[page as usize] = used + room;
            return Ok(BASE + PAGE * page + used);
        }
        match find(&self.owner, 0) {
            Some(page) => {
                self.ever_used = used_with(page, self.ever_used);
                self.owner[page] = 2 * handle + 1;
                self.used[page] = room;
                self.last[number] = page as u32 + 1;
                Ok(BASE + PAGE * page as u32)
            }
            None => Err(StoreRefusal::Full),
        }
    }

    fn region_free(&mut self, handle: u32) -> Result<(), StoreRefusal> {
        match standing_of(&self.standing, handle) {
            Some(Standing::Lexical) => {
                self.release(handle);
                Ok(())
            }
            _ => Err(StoreRefusal::BadHandle),
        }
    }

    fn unique_alloc(&mut self, bytes: u32) -> Result<u32, StoreRefusal>
        ensures does { Does result (holdings_of self.new) (unique_alloc bytes (answer_of result) (holdings_of self.old)) }
        ensures bytes { byte_at self.new.bytes ≡ byte_at self.old.bytes }
        ensures full { is_refused_full result ≡ is_short (UniqueAlloc bytes) (holdings_of self.old) }
        ensures never { answer_of result ≢ Lacks }
    {
        if bytes > PAGE {
            return Err(StoreRefusal::Full);
        }
        let size = class_for(bytes);
        match find(&self.slots, 2 * size + 2) {
            Some(slot) => {
                self.slots[slot] = 2 * size + 1;
                Ok(BASE + PAGE * (slot as u32 / 128) + slot as u32 % 128 * size)
            }
            None => match find(&self.owner, 0) {
                Some(page) => {
                    self.ever_used = used_with(page, self.ever_used);
                    self.owner[page] = 2 * size + 2;
                    fill(
                        &mut self.slots,
                        128 * page,
                        (PAGE / size) as usize,
                        2 * size + 2,
                    );
                    self.slots[128 * page] = 2 * size + 1;
                    Ok(BASE + PAGE * page as u32)
                }
                None => Err(StoreRefusal::Full),
            },
        }
    }

    fn unique_free(&mut self, at: u32) -> Result<(), StoreRefusal> {
        match self.owner_of(at) {
            Some(Owner::Alone(from, room)) => {
                if from != at {
                    return Err(StoreRefusal::NotABlock);
                }
                let place = at - BASE;
                let slot = 128 * (place / PAGE) + place % PAGE / room;
                self.slots[slot as usize] = 2 * room + 2;
                Ok(())
            }
            _ => Err(StoreRefusal::NotABlock),
        }
    }

    fn key_new(&mut self) -> Result<u32, StoreRefusal>
        ensures does { Does result (holdings_of self.new) (key_new (answer_of result) (holdings_of self.old)) }
        ensures bytes { byte_at self.new.bytes ≡ byte_at self.old.bytes }
        ensures full { is_refused_full result ≡ is_short KeyNew (holdings_of self.old) }
        ensures never { answer_of result ≢ Lacks }
    {
        self.make(Standing::Closed)
    }

    fn key_open(&mut self, key: u32) -> Result<u32, StoreRefusal> {
        match standing_of(&self.standing, key) {
            Some(Standing::Closed) => {
                self.standing[key as usize] = Some(Standing::Opened);
                Ok(key)
            }
            Some(Standing::Opened) => Err(StoreRefusal::Open),
            _ => Err(StoreRefusal::BadKey),
        }
    }

    fn key_close(&mut self, key: u32) -> Result<(), StoreRefusal> {
        match standing_of(&self.standing, key) {
            Some(Standing::Opened) => {
                self.standing[key as usize] = Some(Standing::Closed);
                Ok(())
            }
            Some(Standing::Closed) => Err(StoreRefusal::NotOpen),
            _ => Err(StoreRefusal::BadKey),
        }
    }

    fn key_free(&mut self, key: u32) -> Result<(), StoreRefusal> {
        match standing_of(&self.standing, key) {
            Some(Standing::Closed) => {
                self.release(key);
                Ok(())
            }
            Some(Standing::Opened) => Err(StoreRefusal::Open),
            _ => Err(StoreRefusal::BadKey),
        }
    }

    fn load8(&self, at: u32) -> Option<u8> {
        if at < BASE {
            return None;
        }
        let place = (at - BASE) as usize;
        if place < self.bytes.len() {
            Some(self.bytes[place])
        } else {
            None
        }
    }

    fn store8(&mut self, at: u32, byte: u8) -> bool {
        if at < BASE {
            return false;
        }
        let place = (at - BASE) as usize;
        if place < self.bytes.len() {
            self.bytes[place] = byte;
            true
        } else {
            false
        }
    }

    fn is_live(&self, at: u32) -> bool {
        self.owner_of(at).is_some()
    }

    fn pages(&self) -> u32 {
        self.owner.len() as u32
    }
}
