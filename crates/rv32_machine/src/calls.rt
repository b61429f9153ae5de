// ECALL: the number is in x17, the arguments in x10 and x11.

ghost use Rattle.std.specs.Prelude.{◌≡◌};
ghost use Rattle.rv32_machine.specs.State.{Ended, Raised, register_of};
ghost use Rattle.rv32_machine.specs.Step.{a0, a1, a7, asked_by, calls, calls_host, raises, refuses_frame, stop};
ghost use Rattle.rv32_machine.specs.Served.{IsServed};
ghost use Rattle.rv32_machine.specs.Arrays.{Steps, answer_seen, areas_of, arrays, shown_of, state_of};

use crate::areas::STACK_BASE;
use crate::event::Event;
use crate::machine::Machine;
use crate::numbers::{
    EXIT, GETCHAR, KEY_CLOSE, KEY_FREE, KEY_NEW, KEY_OPEN, PUTCHAR, RAISE, REGION_ALLOC,
    REGION_FREE, REGION_NEW, STACK_REFUSED, UNIQUE_ALLOC, UNIQUE_FREE,
};
use crate::phase::Phase;
use cyc_arena::BlockStore;
use cyc_words::{Kind, MachineFault};
use rv32_isa::Register;

impl<S: BlockStore> Machine<S> {
    /// A call of the environment: 0 exits, 1 writes a byte, 2 asks for one, 3 raises, 4 to 12 ask the
    /// store, 13 refuses a frame.
    pub(crate) fn calls(&mut self) -> Event
        ensures step { let seen = arrays S.holdings S.byte_at in Steps (seen self.old) (seen self.new) result (calls (areas_of (seen self.old)) (answer_seen result (seen self.new))
            (register_of (state_of (seen self.old)) a7) (register_of (state_of (seen self.old)) a0)
            (register_of (state_of (seen self.old)) a1) (state_of (seen self.old))) }
        ensures served { let seen = arrays S.holdings S.byte_at in IsServed S.may_lack (areas_of (seen self.old)) (asked_by (register_of (state_of (seen self.old)) a7)
            (register_of (state_of (seen self.old)) a0) (register_of (state_of (seen self.old)) a1)) (seen self.old).holdings (shown_of result)
            (S.headers self.old.store) (S.headers self.new.store) }
    {
        let argument = self.register(Register::ARGUMENT_0);
        match self.register(Register::ARGUMENT_7) {
            EXIT => self.exits(argument),
            PUTCHAR => self.writes(argument),
            GETCHAR => self.asks(),
            RAISE => self.raises(argument),
            REGION_NEW => self.region_new(),
            REGION_ALLOC => self.region_alloc(argument, self.register(Register::ARGUMENT_1)),
            REGION_FREE => self.region_free(argument),
            UNIQUE_ALLOC => self.unique_alloc(argument),
            UNIQUE_FREE => self.unique_free(argument),
            KEY_NEW => self.key_new(),
            KEY_OPEN => self.key_open(argument),
            KEY_CLOSE => self.key_close(argument),
            KEY_FREE => self.key_free(argument),
            STACK_REFUSED => self.refuses_frame(argument),
            _ => self.fault(MachineFault::BadCall),
        }
    }

    /// Ends with a status.
    fn exits(&mut self, status: u32) -> Event
        ensures step { let seen = arrays S.holdings S.byte_at in Steps (seen self.old) (seen self.new) result (stop (Ended status) (state_of (seen self.old))) }
        ensures headers { S.headers self.new.store ≡ S.headers self.old.store }
    {
        self.phase = Phase::Ended(status);
        Event::Ended(status.cast_signed())
    }

    /// Writes the low byte of a value, which x10 gets.
    fn writes(&mut self, value: u32) -> Event
        ensures step { let seen = arrays S.holdings S.byte_at in Steps (seen self.old) (seen self.new) result (calls_host (areas_of (seen self.old)) 1 value (state_of (seen self.old))) }
        ensures headers { S.headers self.new.store ≡ S.headers self.old.store }
    {
        let byte = (value % 0x100) as u8;
        self.gives(Register::ARGUMENT_0, u32::from(byte));
        Event::Put(byte)
    }

    /// Waits for a byte.
    fn asks(&mut self) -> Event
        ensures step { let seen = arrays S.holdings S.byte_at in Steps (seen self.old) (seen self.new) result (calls_host (areas_of (seen self.old)) 2 0 (state_of (seen self.old))) }
        ensures headers { S.headers self.new.store ≡ S.headers self.old.store }
    {
        self.phase = Phase::Waits;
        Event::Get
    }

    /// Stops with a failed check of the source.
    fn raises(&mut self, number: u32) -> Event
        ensures step { let seen = arrays S.holdings S.byte_at in Steps (seen self.old) (seen self.new) result (raises number (state_of (seen self.old))) }
        ensures headers { S.headers self.new.store ≡ S.headers self.old.store }
    {
        match number {
            1 => self.raise(Kind::NullException),
            2 => self.raise(Kind::ArrayBounds),
            _ => self.fault(MachineFault::BadCall),
        }
    }

    /// Stops where the stack has fewer bytes below x2 than a frame takes.
    fn refuses_frame(&mut self, bytes: u32) -> Event
        ensures step { let seen = arrays S.holdings S.byte_at in Steps (seen self.old) (seen self.new) result (refuses_frame (areas_of (seen self.old)) bytes (state_of (seen self.old))) }
        ensures headers { S.headers self.new.store ≡ S.headers self.old.store }
    {
        let top = self.register(Register::STACK_POINTER);
        let end = STACK_BASE + self.stack.len() as u32;
        if STACK_BASE <= top && top <= end && top - STACK_BASE < bytes {
            self.phase = Phase::Exhausted;
            Event::Exhausted
        } else {
            self.fault(MachineFault::BadCall)
        }
    }

    /// Stops with a failed check of this kind.
    fn raise(&mut self, kind: Kind) -> Event
        ensures step { let seen = arrays S.holdings S.byte_at in Steps (seen self.old) (seen self.new) result (stop (Raised kind) (state_of (seen self.old))) }
        ensures headers { S.headers self.new.store ≡ S.headers self.old.store }
    {
        self.phase = Phase::Raised(kind);
        Event::Raised(kind)
    }
}
