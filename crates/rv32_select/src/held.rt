// Where the words of temporaries are known to be besides their slots.

ghost use Rattle.std.specs.Prelude.{◌≡◌, [], map, nat_eq, IfOk, OnOk, option_map};
ghost use Rattle.core_lines.specs.Held.{some_source, source_of, is_in, without_register, without_temporary, with_source, Register as in_register};
ghost use Rattle.core_lines.specs.Held.{result_register, with_result, with_taken, with_moved, with_local, with_put, with_results, register_in, with_computed};
ghost use Rattle.core_lines.specs.Held.{number_in, with_narrowed, is_zero, same_as, with_applied, comparison_of, number_comparison_of};
ghost use Rattle.core_meaning.specs.Core.{Add};
ghost use Rattle.core_lines.specs.Parameters.{parameter_register};
ghost use Rattle.cyc_core.specs.Trees.{binary_tree, body_tree, bytes_of, optional_tree, temporary_tree};
ghost use Rattle.rv32_select.specs.Known.{source_tree, holding_tree, keeper_tree};

use crate::keeper::{Keeper, compared, keeper_of};
use crate::taking::parameter_register;
use core_lines::{Comparison, Condition, NumberComparison};
use cyc_core::{Binary, Statement, Temporary, Width, Words};
use rv32_isa::Register;
use std::alloc::{AllocError, Global};
use std::marker::Model;

/// Where a word is.
#[derive(Clone, Copy)]
pub enum Source {
    /// A register has it.
    Register(Register),
    /// It is this number, which code can make again.
    Number(u64),
    /// It is 1 where the comparison holds, and else 0, which code can make again.
    Compared(Comparison),
    /// The same of a comparison with a number.
    ComparedWith(NumberComparison),
}

impl Source {
    /// Whether the word is in that register.
    fn is_in(self, register: Register) -> bool
        ensures { result ≡ is_in register (source_tree self) }
    {
        match self {
            Source::Register(other) => other.number() == register.number(),
            Source::Number(_) => false,
            Source::Compared(comparison) => {
                comparison.left.number() == register.number()
                    || comparison.right.number() == register.number()
            }
            Source::ComparedWith(numbered) => {
                let comparison = numbered.comparison;
                comparison.left.number() == register.number()
                    || comparison.right.number() == register.number()
            }
        }
    }

    /// The same, but for x0, which holds no temporary.
    fn some(self) -> Option<Source>
        ensures { option_map source_tree result ≡ some_source (source_tree self) }
    {
        match self {
            Source::Register(register) => some_register(register),
            Source::Number(word) => Some(Source::Number(word)),
            Source::Compared(comparison) => Some(Source::Compared(comparison)),
            Source::ComparedWith(numbered) => Some(Source::ComparedWith(numbered)),
        }
    }
}

/// A register as where a word is, but for x0.
fn some_register(register: Register) -> Option<Source>
    ensures { option_map source_tree result ≡ some_source (in_register register) }
{
    if register.number() == 0 {
        None
    } else {
        Some(Source::Register(register))
    }
}

/// The greatest number of temporaries that are known at once.
const MOST_KNOWN: usize = 32;

/// The register in which an operation leaves its result: one of x12 to x15 and x28 to x31, by the temporary that gets it.
pub fn result_register(temporary: Temporary) -> Register
    ensures { result ≡ result_register temporary.0 }
{
    let place = (temporary.0 % 8) as u8;
    if place < 4 {
        Register::new(12 + place)
    } else {
        Register::new(24 + place)
    }
}

/// A temporary's word is there.
#[derive(Clone, Copy)]
struct Holding {
    temporary: Temporary,
    source: Source,
}

/// Where a temporary's word is: at the first that says so.
fn source_in(holdings: &[Holding], temporary: Temporary) -> Option<Source>
    ensures { option_map source_tree result ≡ source_of (map holding_tree holdings.now) temporary.0 }
{
    'each: for holding in holdings {
        if holding.temporary.0 == temporary.0 {
            return holding.source.some();
        }
    }
    None
}

/// What is known of temporaries. A contract sees it as a list, which has what was learned last first.
#[derive(Drop)]
pub struct Known {
    holdings: Vec<Holding>,
}

impl Model for Known {
    ghost use Rattle.std.specs.Prelude.{List, map};
    ghost use Rattle.core_lines.specs.Held as lines;

    ghost Value = { List lines.Holding };

    ghost use Rattle.rv32_select.specs.Known.{holding_tree};

    ghost view = { λ k. map holding_tree k.holdings.items };
}

impl Known {
    /// Nothing is known.
    pub fn new(alloc: Global) -> Self
        ensures { result ≡ [] }
    {
        Known {
            holdings: Vec::new(alloc),
        }
    }

    /// The same again.
    pub fn copied(&self, alloc: Global) -> Result<Self, AllocError>
        ensures { IfOk result (λ known. known ≡ self.now) }
    {
        let mut holdings = Vec::new(alloc);
        holdings.extend_from_slice(&self.holdings)?;
        Ok(Known { holdings })
    }

    /// Where a temporary's word is, if that is known.
    pub fn source(&self, temporary: Temporary) -> Option<Source>
        ensures { option_map source_tree result ≡ source_of self.now temporary.0 }
    {
        source_in(&self.holdings, temporary)
    }

    /// Nothing is known any more.
    pub fn forget(&mut self)
        ensures { self.new ≡ [] }
    {
        self.holdings.clear();
    }

    /// A register changes.
    pub fn forget_register(&mut self, register: Register)
        ensures { self.new ≡ without_register register self.old }
    {
        self.holdings
            .retain(|holding| !holding.source.is_in(register));
    }

    /// A temporary changes.
    fn forget_temporary(&mut self, temporary: Temporary)
        ensures { self.new ≡ without_temporary temporary.0 self.old }
    {
        self.holdings
            .retain(|holding| holding.temporary.0 != temporary.0);
    }

    /// A temporary gets a word that is there. Where too many would be known, what was learned first is forgotten.
    pub fn hold(&mut self, temporary: Temporary, source: Source) -> Result<(), AllocError>
        ensures { OnOk result (self.new ≡ with_source temporary.0 (source_tree source) self.old) }
    {
        self.forget_temporary(temporary);
        self.holdings.truncate(MOST_KNOWN - 1);
        self.holdings.insert(0, Holding { temporary, source })?;
        Ok(())
    }

    /// A temporary gets what is in its register of results.
    pub fn hold_result(&mut self, temporary: Temporary) -> Result<(), AllocError>
        ensures { OnOk result (self.new ≡ with_result temporary.0 self.old) }
    {
        let register = result_register(temporary);
        self.forget_register(register);
        self.hold(temporary, Source::Register(register))
    }

    /// A temporary gets the word of another one.
    #[tactic(auto, using(crate::proofs::Knowing::moved_some, crate::proofs::Knowing::moved_none))]
    pub fn hold_moved(&mut self, temporary: Temporary, from: Temporary) -> Result<(), AllocError>
        ensures { OnOk result (self.new ≡ with_moved temporary.0 (source_of self.old from.0) self.old) }
    {
        match self.source(from) {
            Some(source) => self.hold(temporary, source),
            None => self.hold_result(temporary),
        }
    }

    /// The number that a temporary's word is known to be.
    #[tactic(auto, using(crate::proofs::Knowing::number_number, crate::proofs::Knowing::number_register, crate::proofs::Knowing::number_compared, crate::proofs::Knowing::number_numbered, crate::proofs::Knowing::number_none))]
    pub fn number(&self, temporary: Temporary) -> Option<u64>
        ensures { result ≡ number_in (source_of self.now temporary.0) }
    {
        match self.source(temporary) {
            Some(Source::Number(word)) => Some(word),
            Some(Source::Register(_)) => None,
            Some(Source::Compared(_)) => None,
            Some(Source::ComparedWith(_)) => None,
            None => None,
        }
    }

    /// A temporary gets the lowest byte of another one.
    #[tactic(auto, using(crate::proofs::Knowing::narrowed_some, crate::proofs::Knowing::narrowed_none))]
    pub fn hold_narrowed(&mut self, temporary: Temporary, from: Temporary) -> Result<(), AllocError>
        ensures { OnOk result (self.new ≡ with_narrowed temporary.0 (number_in (source_of self.old from.0)) self.old) }
    {
        match self.number(from) {
            Some(word) => self.hold(temporary, Source::Number(word % 256)),
            None => self.hold_result(temporary),
        }
    }

    /// Whether a temporary's word is known to be 0.
    #[tactic(auto, using(crate::proofs::Knowing::zero_number, crate::proofs::Knowing::zero_register, crate::proofs::Knowing::zero_compared, crate::proofs::Knowing::zero_numbered, crate::proofs::Knowing::zero_none))]
    pub fn is_zero(&self, temporary: Temporary) -> bool
        ensures { result ≡ is_zero (source_of self.now temporary.0) }
    {
        match self.source(temporary) {
            Some(Source::Number(word)) => word == 0,
            Some(Source::Register(_)) => false,
            Some(Source::Compared(_)) => false,
            Some(Source::ComparedWith(_)) => false,
            None => false,
        }
    }

    /// The temporary whose word the sum of two is, if the other one is known to be 0.
    fn same_sum(&self, left: Temporary, right: Temporary) -> Option<Temporary>
        ensures { option_map temporary_tree result ≡ same_as Add left.0 right.0 (source_of self.now left.0) (source_of self.now right.0) }
    {
        if self.is_zero(left) {
            return Some(right);
        }
        if self.is_zero(right) {
            Some(left)
        } else {
            None
        }
    }

    /// The temporary whose word an operation on two gives, if it is a sum, and the other one is known to be 0.
    pub fn same_as(&self, operation: Binary, left: Temporary, right: Temporary) -> Option<Temporary>
        ensures { option_map temporary_tree result
            ≡ same_as (binary_tree operation) left.0 right.0 (source_of self.now left.0) (source_of self.now right.0) }
    {
        match operation {
            Binary::Add => self.same_sum(left, right),
            _ => None,
        }
    }

    /// The register that has a temporary's word, if one has.
    pub fn keeper(&self, temporary: Temporary) -> Keeper
        ensures { keeper_tree result ≡ register_in (source_of self.now temporary.0) }
    {
        keeper_of(self.source(temporary))
    }

    /// The comparison that an operation on two temporaries is, if registers have their words.
    pub fn comparison(
        &self,
        operation: Binary,
        left: Temporary,
        right: Temporary,
    ) -> Option<Comparison>
        ensures { result ≡ comparison_of (binary_tree operation) (source_of self.now left.0) (source_of self.now right.0) }
    {
        let (first, second) = (self.keeper(left), self.keeper(right));
        match operation {
            Binary::Equal => compared(Condition::Equal, first, second),
            Binary::NotEqual => compared(Condition::NotEqual, first, second),
            Binary::Less => compared(Condition::Less, first, second),
            Binary::LessEqual => compared(Condition::NotLess, second, first),
            Binary::LessUnsigned => compared(Condition::LessUnsigned, first, second),
            Binary::LessEqualUnsigned => compared(Condition::NotLessUnsigned, second, first),
            _ => None,
        }
    }

    /// A temporary gets what an operation on two gives, which may be a comparison.
    pub fn hold_computed(
        &mut self,
        temporary: Temporary,
        comparison: Option<Comparison>,
    ) -> Result<(), AllocError>
        ensures { OnOk result (self.new ≡ with_computed temporary.0 comparison self.old) }
    {
        match comparison {
            Some(comparison) => self.hold(temporary, Source::Compared(comparison)),
            None => self.hold_result(temporary),
        }
    }

    /// A temporary gets what an operation on two gives.
    #[tactic(auto, using(crate::proofs::Knowing::applied_some, crate::proofs::Knowing::applied_none))]
    pub fn hold_applied(
        &mut self,
        operation: Binary,
        temporary: Temporary,
        left: Temporary,
        right: Temporary,
    ) -> Result<(), AllocError>
        ensures { OnOk result (self.new ≡ with_applied temporary.0
            (same_as (binary_tree operation) left.0 right.0 (source_of self.old left.0) (source_of self.old right.0))
            (number_comparison_of (binary_tree operation) (source_of self.old left.0) (source_of self.old right.0))
            (comparison_of (binary_tree operation) (source_of self.old left.0) (source_of self.old right.0)) self.old) }
    {
        let numbered = self.number_comparison(operation, left, right);
        let comparison = self.comparison(operation, left, right);
        match self.same_as(operation, left, right) {
            Some(same) => self.hold_moved(temporary, same),
            None => self.hold_judged(temporary, numbered, comparison),
        }
    }

    /// The parameters of a function with this body are known alone, each in its register, where its locals have these homes.
    pub fn hold_taken(
        &mut self,
        homes: &[Register],
        body: &[Statement],
        parameters: u32,
    ) -> Result<(), AllocError>
        ensures { OnOk result (self.new ≡ with_taken (parameter_register homes.now (body_tree body.now)) 0 parameters []) }
    {
        self.forget();
        'each: for parameter in 0..parameters {
            let temporary = Temporary(parameter);
            let register = parameter_register(homes, body, temporary);
            self.hold_put(Width::Word, temporary, register)?;
        }
        Ok(())
    }

    /// A temporary gets what a local has whose home this is, or x0.
    #[tactic(auto, using(crate::proofs::Knowing::local_without, crate::proofs::Knowing::local_with))]
    pub fn hold_local(&mut self, temporary: Temporary, home: Register) -> Result<(), AllocError>
        ensures { OnOk result (self.new ≡ with_local temporary.0 home self.old) }
    {
        if home.number() == 0 {
            self.hold_result(temporary)
        } else {
            self.hold(temporary, Source::Register(home))
        }
    }

    /// A local whose home this is, or x0, gets a temporary's word, or the lowest byte of it.
    #[tactic(auto, using(crate::proofs::Knowing::put_without, crate::proofs::Knowing::put_byte, crate::proofs::Knowing::put_word))]
    pub fn hold_put(
        &mut self,
        width: Width,
        temporary: Temporary,
        home: Register,
    ) -> Result<(), AllocError>
        ensures { OnOk result (self.new ≡ with_put (nat_eq (bytes_of width) 1) temporary.0 home self.old) }
    {
        if home.number() == 0 {
            return Ok(());
        }
        self.forget_register(home);
        match width {
            Width::Byte => Ok(()),
            Width::Word => self.hold(temporary, Source::Register(home)),
        }
    }

    /// The results of a call come in the registers of arguments.
    pub fn hold_results(&mut self, results: Option<Words>) -> Result<(), AllocError>
        ensures { OnOk result (self.new ≡ with_results 9 (optional_tree results) self.old) }
    {
        match results {
            Some(Words::One(to)) => self.hold(to, Source::Register(Register::ARGUMENT_0)),
            Some(Words::Three(first, count, index)) => {
                self.hold(first, Source::Register(Register::ARGUMENT_0))?;
                self.hold(count, Source::Register(Register::ARGUMENT_1))?;
                self.hold(index, Source::Register(Register::ARGUMENT_2))
            }
            None => Ok(()),
        }
    }
}
