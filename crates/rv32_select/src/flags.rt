// Flags of temporaries, one for each, and what is behind the first items of a list.

ghost use Rattle.std.specs.Prelude.{◌≡◌, [], drop, IfOk, OnOk};
ghost use Rattle.core_lines.specs.Homes.{flag_at};
ghost use Rattle.core_lines.specs.Saved.{no_flags, cleared, flagged, either_flagged};

use crate::runs::{Run, all_cleared, either_of, flag_in, put_flags, put_run, with_set};
use cyc_core::Temporary;
use std::alloc::{AllocError, Global};
use std::marker::Model;

/// Flags of temporaries. A contract sees them as a list. Mostly few runs of them are alike, so that copying them takes little.
#[derive(Drop)]
pub struct Flags {
    alloc: Global,
    runs: Vec<Run>,
}

impl Model for Flags {
    ghost use Rattle.std.specs.Prelude.{Bool, List};

    ghost Value = { List Bool };

    ghost use Rattle.rv32_select.specs.Runs.{flags_in};

    ghost view = { λ f. flags_in f.runs.items };
}

impl Flags {
    /// No flags.
    pub fn new(alloc: Global) -> Self
        ensures { result ≡ [] }
    {
        Flags {
            alloc,
            runs: Vec::new(alloc),
        }
    }

    /// So many flags, all of which are false.
    #[tactic(auto, using(crate::proofs::Running::none_alike))]
    pub fn none(alloc: Global, count: usize) -> Result<Self, AllocError>
        ensures { IfOk result (λ flags. flags ≡ no_flags count) }
    {
        let mut runs = Vec::new(alloc);
        put_run(&mut runs, count, false)?;
        Ok(Flags { alloc, runs })
    }

    /// The flag of a temporary, which is false where there is none for it.
    pub fn flag(&self, temporary: Temporary) -> bool
        ensures { result ≡ flag_at self.now temporary.0 }
    {
        flag_in(&self.runs, temporary.0 as usize)
    }

    /// Sets the flag of a temporary, if there is one for it.
    #[tactic(auto, using(crate::proofs::Running::same_set))]
    pub fn set(&mut self, temporary: Temporary, value: bool) -> Result<(), AllocError>
        ensures { OnOk result (self.new ≡ flagged value temporary.0 self.old) }
    {
        if self.flag(temporary) == value {
            return Ok(());
        }
        self.runs = with_set(self.alloc, &self.runs, temporary.0 as usize, value)?;
        Ok(())
    }

    /// The same flags again.
    pub fn copied(&self) -> Result<Self, AllocError>
        ensures { IfOk result (λ copy. copy ≡ self.now) }
    {
        let mut runs = Vec::new(self.alloc);
        runs.extend_from_slice(&self.runs)?;
        Ok(Flags {
            alloc: self.alloc,
            runs,
        })
    }

    /// As many flags, all of which are false.
    pub fn cleared(&self) -> Result<Self, AllocError>
        ensures { IfOk result (λ none. none ≡ cleared self.now) }
    {
        let runs = all_cleared(self.alloc, &self.runs)?;
        Ok(Flags {
            alloc: self.alloc,
            runs,
        })
    }

    /// Of each temporary, whether one of its two flags is true.
    pub fn either(&self, other: &Flags) -> Result<Self, AllocError>
        ensures { IfOk result (λ flags. flags ≡ either_flagged self.now other.now) }
    {
        let runs = either_of(self.alloc, &self.runs, &other.runs)?;
        Ok(Flags {
            alloc: self.alloc,
            runs,
        })
    }

    /// The flags one by one.
    pub fn listed(&self) -> Result<Vec<bool>, AllocError>
        ensures { IfOk result (λ flags. flags.items ≡ self.now) }
    {
        let mut flags = Vec::new(self.alloc);
        put_flags(&mut flags, &self.runs)?;
        Ok(flags)
    }
}

/// A flag by its number, which is false where there is none.
#[tactic(auto, using(crate::proofs::Chosen::flag_some, crate::proofs::Chosen::flag_none))]
pub fn flag_at(flags: &[bool], number: usize) -> bool
    ensures { result ≡ flag_at flags.now number }
{
    match flags.get(number) {
        Some(flag) => *flag,
        None => false,
    }
}

/// What is behind the first `count` items of a list.
#[tactic(auto, using(std::proofs::lemmas::List::drop_min))]
pub fn behind<T>(items: &[T], count: usize) -> &[T]
    ensures { result.now ≡ drop count items.now }
{
    let (_, rest) = items.split_at(count.min(items.len()));
    rest
}
