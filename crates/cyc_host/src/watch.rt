// What is seen of a run: how often it executed each instruction, its calls and requests, and the pages of its arena.

ghost use Rattle.std.specs.Prelude.{◌≡◌, ◌∷◌, [], ℕ, List, IfOk, false, get_or, true};
ghost use Rattle.cyc_words.specs.Devices.{one_more};
ghost use Rattle.cyc_host.specs.Watched.{AreActive, HasSameCounts, IsSameTally, action_at, addresses, called_by, counted_once, entered_by, executed_at};
ghost use Rattle.cyc_host.specs.Watched.{executed_in, known_of, left_behind, left_by, no_calls, nothing, requested_by, tally_of};

use crate::actions::{Action, action_of, all_actions};
use crate::calls::{Active, CallStack, PASSED};
use crate::counts::{Count, add_executed, add_left, add_within, none_of, one_more_of};
use crate::frames::Frames;
use crate::pace::Pace;
use crate::pages::Pages;
use crate::seen::{Comparison, HOMES, Seen, first_in, homes_of, second_in};
use crate::stacks::{Stack, Stacks};
use cyc_arena::BlockStore;
use rv32_machine::{CODE_BASE, Machine};
use std::alloc::{AllocError, Global};

/// The word of ECALL.
const REQUEST: u32 = 0x0000_0073;

/// BLTU and BGEU, by the lowest seven bits and the upper two of the function.
const COMPARISON: u32 = 0x6063;

/// The bits of `COMPARISON`.
const COMPARISON_BITS: u32 = 0x607f;

/// SW with x2 as its base, by the lowest seven bits, the function and the base.
const SAVE: u32 = 0x0001_2023;

/// The bits of `SAVE`.
const SAVE_BITS: u32 = 0x000f_f07f;

/// How many numbers of requests there are.
const REQUESTS: usize = 14;

/// Counts a request of this number, if there is such.
#[tactic(auto, using(crate::proofs::Acting::request_once, crate::proofs::Acting::no_request))]
fn add_request(requests: &mut [u64], number: usize)
    ensures { requests.new ≡ counted_once requests.old number }
{
    if number < requests.len() {
        requests[number] = one_more_of(requests[number]);
    }
}

/// Keeps a word that is stored in the frame, if it may be one that is passed: these stand behind the frame's first word.
fn save(passed: &mut [u32], word: u32, value: u32) {
    let offset = ((word >> 25) << 5) | ((word >> 7) & 31);
    let number = (offset / 4) as usize;
    if let Some(slot) = passed.get_mut(number.wrapping_sub(1)) {
        *slot = value;
    }
}

/// What was seen of a run. Each count stays at the greatest u64.
#[derive(Drop)]
pub struct Watch {
    sees: bool,
    code: Vec<u8>,
    actions: Vec<Action>,
    steps: u64,
    requests: [u64; REQUESTS],
    highest: u32,
    lowest: u32,
    counts: Vec<Count>,
    calls: CallStack,
    stacks: Stacks,
    pages: Pages,
    last: Seen,
    compared: Comparison,
    passed: [u32; PASSED],
    homes: [u32; HOMES],
    frames: Frames,
}

impl Watch {
    /// One that sees nothing, of a run that isn't watched.
    pub fn idle(alloc: Global) -> Watch
        ensures sees { result.sees ≡ false }
        ensures nothing { tally_of result ≡ nothing [] }
        ensures active { known_of result ≡ no_calls }
    {
        Watch {
            sees: false,
            code: Vec::new(alloc),
            actions: Vec::new(alloc),
            steps: 0,
            requests: [0; REQUESTS],
            highest: 0,
            lowest: u32::MAX,
            counts: Vec::new(alloc),
            calls: CallStack::none(alloc),
            stacks: Stacks::none(alloc),
            pages: Pages::none(alloc),
            last: Seen {
                pc: CODE_BASE,
                word: 0,
                stack: u32::MAX,
                number: 0,
                arguments: (0, 0),
            },
            compared: Comparison {
                pc: 0,
                left: 0,
                right: 0,
            },
            passed: [0; PASSED],
            homes: [0; HOMES],
            frames: Frames::none(alloc),
        }
    }

    /// Nothing of a run of this code was seen.
    pub fn new(alloc: Global, code: &[u8]) -> Result<Watch, AllocError>
        ensures sees { IfOk result (λ watch. watch.sees ≡ true) }
        ensures nothing { IfOk result (λ watch. tally_of watch ≡ nothing code.now) }
        ensures active { IfOk result (λ watch. known_of watch ≡ no_calls) }
    {
        let mut watch = Watch::idle(alloc);
        watch.sees = true;
        watch.pages = Pages::new(alloc)?;
        watch.stacks = Stacks::new(alloc)?;
        watch.code.extend_from_slice(code)?;
        watch.actions = all_actions(alloc, code)?;
        watch.counts = none_of(alloc, code.len() / 4)?;
        Ok(watch)
    }

    /// The code.
    pub fn code(&self) -> &[u8] {
        &self.code
    }

    /// How many instructions were executed, with the last one, also if the machine stopped there.
    pub fn steps(&self) -> u64
        ensures { result ≡ (tally_of self.now).steps }
    {
        self.steps
    }

    /// How many calls were made.
    pub fn calls(&self) -> u64
        ensures { result ≡ (tally_of self.now).called }
    {
        self.calls.made()
    }

    /// How many requests of this number were made; 0 of another number than 0 to 13.
    pub fn requests(&self, number: u32) -> u64
        ensures { result ≡ get_or (tally_of self.now).requests number 0 }
    {
        match self.requests.get(number as usize) {
            Some(count) => *count,
            None => 0,
        }
    }

    /// How many bytes the stack had at its deepest: the stack pointer's greatest value less its least one.
    pub fn deepest(&self) -> u32 {
        self.highest.saturating_sub(self.lowest)
    }

    /// What was seen of each word of the code, in its order.
    pub fn counts(&self) -> &[Count]
        ensures { executed_in result.now ≡ (tally_of self.now).executed }
    {
        &self.counts
    }

    /// The active calls, the innermost last. `unkept` more stand inside them.
    pub fn active(&self) -> &[Active]
        ensures { addresses result.now ≡ (known_of self.now).kept }
    {
        self.calls.active()
    }

    /// How many of the active calls have no address in `active`, since no host memory was left.
    pub fn unkept(&self) -> u64
        ensures { result ≡ (known_of self.now).unkept }
    {
        self.calls.unkept()
    }

    /// The stacks of calls, each behind the one around its innermost call, which has its number in this order. Where no host memory was left for one,
    /// its instructions are counted for the stack around it.
    pub fn stacks(&self) -> &[Stack] {
        self.stacks.all()
    }

    /// The most pages of the arena that were taken at once, by the requests before the last instruction.
    pub fn most_pages(&self) -> u32 {
        self.pages.most()
    }

    /// How many pages of the arena were taken, by the requests before the last instruction.
    pub fn taken_pages(&self) -> u32 {
        self.pages.taken()
    }

    /// How many pages of the arena were ever taken, by the requests before the last instruction.
    pub fn used_pages(&self) -> u32 {
        self.pages.used()
    }

    /// The last instruction.
    pub fn last(&self) -> Seen
        ensures { result.pc ≡ (tally_of self.now).at }
    {
        self.last
    }

    /// The last branch on unsigned numbers.
    pub fn compared(&self) -> Comparison {
        self.compared
    }

    /// What the registers in which locals live held when the run ended: x8, x9 and x18 to x27.
    pub fn homes(&self) -> &[u32] {
        &self.homes
    }

    /// The word at an address in the frames of the functions that were active when the run ended: from the stack pointer on. None elsewhere, and where no
    /// host memory was left to keep them.
    pub fn frame_word(&self, address: u32) -> Option<u32> {
        self.frames.word(address)
    }

    /// Counts an instruction, and that it isn't the next word of the one before it, if so.
    fn count(&mut self, pc: u32)
        ensures sees { self.new.sees ≡ self.old.sees }
        ensures actions { self.new.actions ≡ self.old.actions }
        ensures steps { self.new.steps ≡ self.old.steps }
        ensures executed { executed_in self.new.counts.items ≡ executed_at pc (executed_in self.old.counts.items) }
        ensures calls { self.new.calls ≡ self.old.calls }
        ensures requests { self.new.requests ≡ self.old.requests }
    {
        let before = self.last.pc;
        if self.steps > 1 && pc != before.wrapping_add(4) {
            add_left(&mut self.counts, before);
        }
        add_executed(&mut self.counts, pc);
    }

    /// Counts what a call took that returns.
    fn took(&mut self, call: Active)
        ensures same { IsSameTally self.old self.new }
    {
        let steps = self.steps.saturating_sub(call.since);
        add_within(&mut self.counts, call.at, steps);
    }

    /// Enters the call at an address.
    fn enter(&mut self, at: u32, homes: [u32; HOMES])
        ensures same { HasSameCounts self.old self.new }
        ensures made { self.new.calls.made ≡ one_more self.old.calls.made }
        ensures active { (calls : List ℕ) → AreActive (known_of self.old) calls → AreActive (known_of self.new) (at ∷ calls) }
    {
        self.stacks.enter(at);
        let call = Active {
            at,
            stack: self.last.stack,
            since: self.steps,
            homes,
            passed: self.passed,
        };
        self.calls.enter(call);
    }

    /// Leaves the innermost active call.
    fn leave(&mut self)
        ensures same { HasSameCounts self.old self.new }
        ensures made { self.new.calls.made ≡ self.old.calls.made }
        ensures active { (calls : List ℕ) → AreActive (known_of self.old) calls → AreActive (known_of self.new) (left_behind calls) }
    {
        self.stacks.leave();
        if let Some(call) = self.calls.leave() {
            self.took(call);
        }
    }

    /// Takes in an instruction that is to be executed, if it is no call.
    fn see(&mut self, seen: Seen, action: Action)
        ensures sees { self.new.sees ≡ self.old.sees }
        ensures actions { self.new.actions ≡ self.old.actions }
        ensures steps { self.new.steps ≡ one_more self.old.steps }
        ensures last { self.new.last ≡ seen }
        ensures executed { executed_in self.new.counts.items ≡ executed_at seen.pc (executed_in self.old.counts.items) }
        ensures requests { self.new.requests ≡ requested_by action seen.number self.old.requests }
        ensures made { self.new.calls.made ≡ self.old.calls.made }
        ensures active { (calls : List ℕ) → AreActive (known_of self.old) calls → AreActive (known_of self.new) (left_by action calls) }
    {
        self.steps = self.steps.saturating_add(1);
        if self.last.word == REQUEST {
            let (answer, _) = seen.arguments;
            let last = self.last;
            self.pages.grant(last.number, last.arguments, answer);
        }
        self.count(seen.pc);
        self.stacks.count();
        self.highest = self.highest.max(seen.stack);
        self.lowest = self.lowest.min(seen.stack);
        match action {
            Action::Returns => self.leave(),
            Action::Asks => add_request(&mut self.requests, seen.number as usize),
            Action::Calls => {}
            Action::Other => {}
        }
        self.last = seen;
    }

    /// Takes in what the registers hold before an instruction: those that a branch on unsigned numbers compares, and a word that is stored in the frame.
    fn look<S: BlockStore>(&mut self, machine: &Machine<S>)
        ensures same { IsSameTally self.old self.new }
    {
        let Seen { pc, word, .. } = self.last;
        if word & COMPARISON_BITS == COMPARISON {
            self.compared = Comparison {
                pc,
                left: first_in(machine, word),
                right: second_in(machine, word),
            };
        } else if word & SAVE_BITS == SAVE {
            save(&mut self.passed, word, second_in(machine, word));
        }
    }

    /// Enters a call with the locals of its caller, if the last instruction is one.
    fn call<S: BlockStore>(&mut self, machine: &Machine<S>, action: Action)
        ensures same { HasSameCounts self.old self.new }
        ensures made { self.new.calls.made ≡ called_by action self.old.calls.made }
        ensures active { (calls : List ℕ) → AreActive (known_of self.old) calls → AreActive (known_of self.new) (entered_by action self.old.last.pc calls) }
    {
        match action {
            Action::Calls => self.enter(self.last.pc, homes_of(machine)),
            Action::Returns => {}
            Action::Asks => {}
            Action::Other => {}
        }
    }

    /// Takes in what the locals hold when the run has ended: in registers, and in the frames of the functions that are active.
    pub(crate) fn end<S: BlockStore>(&mut self, machine: &Machine<S>)
        ensures same { IsSameTally self.old self.new }
    {
        self.homes = homes_of(machine);
        if self.sees {
            self.frames.keep(machine);
        }
    }
}

impl Pace for Watch {
    ghost sees = { λ watch. watch.sees };

    ghost tally = { tally_of };

    ghost known = { known_of };

    /// Takes in the next instruction, and goes no step ahead; or goes ahead as far as it can, and sees nothing.
    fn advance<S: BlockStore>(&mut self, machine: &mut Machine<S>, limit: u64) -> u64 {
        if !self.sees {
            return machine.glide(limit);
        }
        let seen = Seen::of(machine, &self.code);
        let action = action_of(&self.actions, seen.pc);
        self.see(seen, action);
        self.look(machine);
        self.call(machine, action);
        0
    }
}
