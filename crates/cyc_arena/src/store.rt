// The calls of a store, with their laws.

ghost use Rattle.std.specs.Prelude.{◌≡◌, ◌≤◌, ℕ, Bool, true, List};
ghost use Rattle.arena_laws.specs.Asked.{KeyNew, RegionAlloc, RegionNew, UniqueAlloc, is_short};
ghost use Rattle.arena_laws.specs.Holdings.{Holdings, is_in_arena, is_live_in};
ghost use Rattle.arena_laws.specs.Lawful.{Lacks, key_close, key_free, key_open, region_free, unique_free};
ghost use Rattle.arena_laws.specs.Laws.{Does, answer_of, is_refused_full, key_new, loaded, region_alloc, region_new, stored, unique_alloc, unit_result};

use arena_laws::StoreRefusal;

/// A store of regions, unique blocks and dynamic regions over an arena of 1 to 4,096 pages of 4,096
/// bytes, whose addresses begin at 0x10000000. Numbers and addresses handed out are the store's
/// choice. `holdings` is what a store holds beside its bytes; each call changes it by its law, and a
/// refused call leaves it as it was.
///
/// `byte_at` is the byte at each address of the arena. It is 0 until it is stored to, and nothing
/// but `store8` changes it. `headers` is what the store keeps beside those bytes, as words; `store8`
/// changes none. `may_lack` says whether a store of this type may lack host memory after it was made:
/// where it is false no call answers Memory.
pub trait BlockStore {
    ghost holdings: { Self → Holdings };

    ghost byte_at: { Self → ℕ → ℕ };

    ghost headers: { Self → List ℕ };

    ghost may_lack: { Bool };

    /// Makes a region, which takes a page at once: its handle, from 1 up, differs from each live
    /// handle and key. Full where no page is free, Memory where the store lacks host memory.
    fn region_new(&mut self) -> Result<u32, StoreRefusal>
        ensures does { Does result (holdings self.new) (region_new (answer_of result) (holdings self.old)) }
        ensures bytes { byte_at self.new ≡ byte_at self.old }
        ensures full { is_refused_full result ≡ is_short RegionNew (holdings self.old) }
        ensures memory { answer_of result ≡ Lacks → may_lack ≡ true };

    /// A block of `bytes` bytes in the region of a handle: its address, a multiple of 8. Handle 0
    /// is the heap, and an open key's number is its region's handle. The room is the bytes rounded
    /// up to 8 (0 to 8), and meets no live room. BadHandle where the number is no such handle, looked
    /// for first; Full above 1,048,576 bytes. A room above 4,096 takes a run of neighbouring pages that
    /// were never used, and is Full where fewer are left; another room is Full where it is more than
    /// what is left of the region's last page and no page is free. Memory where the store lacks host
    /// memory.
    fn region_alloc(&mut self, handle: u32, bytes: u32) -> Result<u32, StoreRefusal>
        ensures does { Does result (holdings self.new) (region_alloc handle bytes (answer_of result) (holdings self.old)) }
        ensures bytes { byte_at self.new ≡ byte_at self.old }
        ensures full { is_refused_full result ≡ is_short (RegionAlloc handle bytes) (holdings self.old) }
        ensures memory { answer_of result ≡ Lacks → may_lack ≡ true };

    /// Frees a lexical region: its blocks and all its pages. BadHandle where the number is no live
    /// lexical region's (the heap's and a key's number too).
    fn region_free(&mut self, handle: u32) -> Result<(), StoreRefusal>
        ensures does { Does (unit_result result) (holdings self.new) (region_free handle (holdings self.old)) }
        ensures bytes { byte_at self.new ≡ byte_at self.old };

    /// A unique block of `bytes` bytes: its address, a multiple of 8. The room is the smallest of
    /// 32, 64, 128, 256, 512, 1,024, 2,048 and 4,096 that holds it, and meets no live room. Full
    /// above 4,096 bytes, or where no page of that class has a free slot and no page is free;
    /// Memory where the store lacks host memory.
    fn unique_alloc(&mut self, bytes: u32) -> Result<u32, StoreRefusal>
        ensures does { Does result (holdings self.new) (unique_alloc bytes (answer_of result) (holdings self.old)) }
        ensures bytes { byte_at self.new ≡ byte_at self.old }
        ensures full { is_refused_full result ≡ is_short (UniqueAlloc bytes) (holdings self.old) }
        ensures memory { answer_of result ≡ Lacks → may_lack ≡ true };

    /// Frees the unique block that begins at an address; its page stays with its class. NotABlock
    /// where no live unique block begins there.
    fn unique_free(&mut self, at: u32) -> Result<(), StoreRefusal>
        ensures does { Does (unit_result result) (holdings self.new) (unique_free at (holdings self.old)) }
        ensures bytes { byte_at self.new ≡ byte_at self.old };

    /// Makes a dynamic region, which takes a page at once: its key, from 1 up, differs from each
    /// live handle and key, and is closed. Full where no page is free, Memory where the store lacks
    /// host memory.
    fn key_new(&mut self) -> Result<u32, StoreRefusal>
        ensures does { Does result (holdings self.new) (key_new (answer_of result) (holdings self.old)) }
        ensures bytes { byte_at self.new ≡ byte_at self.old }
        ensures full { is_refused_full result ≡ is_short KeyNew (holdings self.old) }
        ensures memory { answer_of result ≡ Lacks → may_lack ≡ true };

    /// Opens a closed key: its handle, which is the key's own number. BadKey where the number is no
    /// live key's, Open where the key is open.
    fn key_open(&mut self, key: u32) -> Result<u32, StoreRefusal>
        ensures does { Does result (holdings self.new) (key_open key (holdings self.old)) }
        ensures bytes { byte_at self.new ≡ byte_at self.old };

    /// Closes an open key; its blocks stay live. BadKey where the number is no live key's, NotOpen
    /// where the key is closed.
    fn key_close(&mut self, key: u32) -> Result<(), StoreRefusal>
        ensures does { Does (unit_result result) (holdings self.new) (key_close key (holdings self.old)) }
        ensures bytes { byte_at self.new ≡ byte_at self.old };

    /// Frees a closed key: its blocks and all its pages. BadKey where the number is no live key's,
    /// Open where the key is open.
    fn key_free(&mut self, key: u32) -> Result<(), StoreRefusal>
        ensures does { Does (unit_result result) (holdings self.new) (key_free key (holdings self.old)) }
        ensures bytes { byte_at self.new ≡ byte_at self.old };

    /// The byte at an address; none outside the arena.
    fn load8(&self, at: u32) -> Option<u8>
        ensures { result ≡ loaded at (holdings self.now) (byte_at self.now) };

    /// Stores a byte; false and nothing changed outside the arena.
    fn store8(&mut self, at: u32, byte: u8) -> bool
        ensures says { result ≡ is_in_arena (holdings self.old) at }
        ensures bytes { byte_at self.new ≡ stored at byte (holdings self.old) (byte_at self.old) }
        ensures holds { holdings self.new ≡ holdings self.old }
        ensures headers { headers self.new ≡ headers self.old };

    /// Whether an address lies in the room of a live block.
    fn is_live(&self, at: u32) -> bool
        ensures { result ≡ is_live_in (holdings self.now) at };

    /// How many pages the store has.
    fn pages(&self) -> u32
        ensures count { result ≡ (holdings self.now).pages }
        ensures few { result ≤ 4096 };
}
