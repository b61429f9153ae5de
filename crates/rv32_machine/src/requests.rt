// The calls that ask the store: 4 to 12.

ghost use Rattle.std.specs.Prelude.{◌≡◌, ◌-◌, ◌^◌, Some, true, false, nat_lt, if◌then◌else◌};
ghost use Rattle.arena_laws.specs.Laws.{unit_result};
ghost use Rattle.arena_laws.specs.Asked.{KeyClose, KeyFree, KeyNew, KeyOpen, RegionAlloc, RegionFree, RegionNew, UniqueAlloc, UniqueFree};
ghost use Rattle.rv32_machine.specs.Step.{asks, settled, stop, stop_by};
ghost use Rattle.rv32_machine.specs.Served.{IsServed};
ghost use Rattle.rv32_machine.specs.Arrays.{Steps, answer_seen, areas_of, arrays, shown_of, state_of};

use crate::event::Event;
use crate::machine::Machine;
use crate::phase::Phase;
use arena_laws::StoreRefusal;
use cyc_arena::BlockStore;
use cyc_words::MachineFault;
use rv32_isa::Register;

impl<S: BlockStore> Machine<S> {
    /// Makes a region: x10 gets its handle.
    pub(crate) fn region_new(&mut self) -> Event
        ensures step { let seen = arrays S.holdings S.byte_at in Steps (seen self.old) (seen self.new) result (asks (areas_of (seen self.old)) (answer_seen result (seen self.new)) RegionNew (state_of (seen self.old))) }
        ensures served { let seen = arrays S.holdings S.byte_at in
            IsServed S.may_lack (areas_of (seen self.old)) (Some RegionNew) (seen self.old).holdings (shown_of result) (S.headers self.old.store) (S.headers self.new.store) }
    {
        let made = self.store.region_new();
        self.numbered(made)
    }

    /// A block of `bytes` bytes in a region: x10 gets its address.
    pub(crate) fn region_alloc(&mut self, handle: u32, bytes: u32) -> Event
        ensures step { let seen = arrays S.holdings S.byte_at in Steps (seen self.old) (seen self.new) result (asks (areas_of (seen self.old)) (answer_seen result (seen self.new)) (RegionAlloc handle bytes) (state_of (seen self.old))) }
        ensures served { let seen = arrays S.holdings S.byte_at in
            IsServed S.may_lack (areas_of (seen self.old)) (Some (RegionAlloc handle bytes)) (seen self.old).holdings (shown_of result) (S.headers self.old.store) (S.headers self.new.store) }
    {
        let handed = self.handed(bytes);
        let made = self.store.region_alloc(handle, handed);
        self.numbered(made)
    }

    /// Frees a region.
    pub(crate) fn region_free(&mut self, handle: u32) -> Event
        ensures step { let seen = arrays S.holdings S.byte_at in Steps (seen self.old) (seen self.new) result (asks (areas_of (seen self.old)) (answer_seen result (seen self.new)) (RegionFree handle) (state_of (seen self.old))) }
        ensures served { let seen = arrays S.holdings S.byte_at in
            IsServed S.may_lack (areas_of (seen self.old)) (Some (RegionFree handle)) (seen self.old).holdings (shown_of result) (S.headers self.old.store) (S.headers self.new.store) }
    {
        let done = self.store.region_free(handle);
        self.finished(done)
    }

    /// A unique block of `bytes` bytes: x10 gets its address.
    pub(crate) fn unique_alloc(&mut self, bytes: u32) -> Event
        ensures step { let seen = arrays S.holdings S.byte_at in Steps (seen self.old) (seen self.new) result (asks (areas_of (seen self.old)) (answer_seen result (seen self.new)) (UniqueAlloc bytes) (state_of (seen self.old))) }
        ensures served { let seen = arrays S.holdings S.byte_at in
            IsServed S.may_lack (areas_of (seen self.old)) (Some (UniqueAlloc bytes)) (seen self.old).holdings (shown_of result) (S.headers self.old.store) (S.headers self.new.store) }
    {
        let made = self.store.unique_alloc(bytes);
        self.numbered(made)
    }

    /// Frees the unique block at an address.
    pub(crate) fn unique_free(&mut self, at: u32) -> Event
        ensures step { let seen = arrays S.holdings S.byte_at in Steps (seen self.old) (seen self.new) result (asks (areas_of (seen self.old)) (answer_seen result (seen self.new)) (UniqueFree at) (state_of (seen self.old))) }
        ensures served { let seen = arrays S.holdings S.byte_at in
            IsServed S.may_lack (areas_of (seen self.old)) (Some (UniqueFree at)) (seen self.old).holdings (shown_of result) (S.headers self.old.store) (S.headers self.new.store) }
    {
        let done = self.store.unique_free(at);
        self.finished(done)
    }

    /// Makes a dynamic region: x10 gets its key.
    pub(crate) fn key_new(&mut self) -> Event
        ensures step { let seen = arrays S.holdings S.byte_at in Steps (seen self.old) (seen self.new) result (asks (areas_of (seen self.old)) (answer_seen result (seen self.new)) KeyNew (state_of (seen self.old))) }
        ensures served { let seen = arrays S.holdings S.byte_at in
            IsServed S.may_lack (areas_of (seen self.old)) (Some KeyNew) (seen self.old).holdings (shown_of result) (S.headers self.old.store) (S.headers self.new.store) }
    {
        let made = self.store.key_new();
        self.numbered(made)
    }

    /// Opens a key: x10 gets the handle.
    pub(crate) fn key_open(&mut self, key: u32) -> Event
        ensures step { let seen = arrays S.holdings S.byte_at in Steps (seen self.old) (seen self.new) result (asks (areas_of (seen self.old)) (answer_seen result (seen self.new)) (KeyOpen key) (state_of (seen self.old))) }
        ensures served { let seen = arrays S.holdings S.byte_at in
            IsServed S.may_lack (areas_of (seen self.old)) (Some (KeyOpen key)) (seen self.old).holdings (shown_of result) (S.headers self.old.store) (S.headers self.new.store) }
    {
        let opened = self.store.key_open(key);
        self.numbered(opened)
    }

    /// Closes a key.
    pub(crate) fn key_close(&mut self, key: u32) -> Event
        ensures step { let seen = arrays S.holdings S.byte_at in Steps (seen self.old) (seen self.new) result (asks (areas_of (seen self.old)) (answer_seen result (seen self.new)) (KeyClose key) (state_of (seen self.old))) }
        ensures served { let seen = arrays S.holdings S.byte_at in
            IsServed S.may_lack (areas_of (seen self.old)) (Some (KeyClose key)) (seen self.old).holdings (shown_of result) (S.headers self.old.store) (S.headers self.new.store) }
    {
        let done = self.store.key_close(key);
        self.finished(done)
    }

    /// Frees a dynamic region by its key.
    pub(crate) fn key_free(&mut self, key: u32) -> Event
        ensures step { let seen = arrays S.holdings S.byte_at in Steps (seen self.old) (seen self.new) result (asks (areas_of (seen self.old)) (answer_seen result (seen self.new)) (KeyFree key) (state_of (seen self.old))) }
        ensures served { let seen = arrays S.holdings S.byte_at in
            IsServed S.may_lack (areas_of (seen self.old)) (Some (KeyFree key)) (seen self.old).holdings (shown_of result) (S.headers self.old.store) (S.headers self.new.store) }
    {
        let done = self.store.key_free(key);
        self.finished(done)
    }

    /// The bytes of a region's block that are asked of the store: where the image allows none so long, as many as no store has.
    fn handed(&self, bytes: u32) -> u32
        ensures { let seen = arrays S.holdings S.byte_at in result ≡ (if nat_lt (seen self.now).block_limit bytes then 2 ^ 32 - 1 else bytes) }
    {
        if bytes <= self.block_limit {
            bytes
        } else {
            u32::MAX
        }
    }

    /// Goes on with a number in x10, or stops.
    fn numbered(&mut self, made: Result<u32, StoreRefusal>) -> Event
        ensures { let seen = arrays S.holdings S.byte_at in Steps (seen self.old) (seen self.new) result (settled true made (state_of (seen self.old))) }
    {
        match made {
            Ok(number) => self.gives(Register::ARGUMENT_0, number),
            Err(why) => self.refused(why),
        }
    }

    /// Goes on, or stops.
    fn finished(&mut self, done: Result<(), StoreRefusal>) -> Event
        ensures { let seen = arrays S.holdings S.byte_at in Steps (seen self.old) (seen self.new) result (settled false (unit_result done) (state_of (seen self.old))) }
    {
        match done {
            Ok(()) => self.goes_on(),
            Err(why) => self.refused(why),
        }
    }

    /// Stops where the store refused.
    fn refused(&mut self, why: StoreRefusal) -> Event
        ensures { let seen = arrays S.holdings S.byte_at in Steps (seen self.old) (seen self.new) result (stop (stop_by why) (state_of (seen self.old))) }
    {
        match why {
            StoreRefusal::Full => {
                self.phase = Phase::Exhausted;
                Event::Exhausted
            }
            StoreRefusal::Memory => {
                self.phase = Phase::HostMemory;
                Event::HostMemory
            }
            _ => self.fault(MachineFault::BadCall),
        }
    }
}
