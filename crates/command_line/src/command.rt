// What the command line asks for.

ghost use Rattle.std.specs.Prelude.{◌≡◌, ◌≤◌, ◌↔◌, IsSome, IfSome};

use std::marker::Model;

/// How many bytes a megabyte has, as `--memory` counts them.
pub const MEGABYTE: u64 = 1048576;

/// A number of pages, of the arena or of the stack: 1 to 4,096.
#[derive(Clone, Copy, Debug)]
pub struct Pages {
    number: u32,
}

impl Model for Pages {
    ghost use Rattle.std.specs.Prelude.{ℕ, ◌≤◌};

    ghost Value = { ℕ };

    ghost view = { λ p. p.number };

    ghost invariant = { λ p. (1 ≤ p.number) × (p.number ≤ 4096) };

    ghost inverse = { λ n. record { number = n } };
}

impl Pages {
    /// The pages of this number; none where it is not 1 to 4,096.
    pub fn new(number: u32) -> Option<Pages>
        ensures some { IsSome result ↔ ((1 ≤ number) × (number ≤ 4096)) }
        ensures value { IfSome result (λ p. p ≡ number) }
    {
        if 1 <= number && number <= 4096 {
            Some(Pages { number })
        } else {
            None
        }
    }

    /// The number of pages.
    pub fn number(self) -> u32
        ensures value { result ≡ self }
        ensures some { 1 ≤ result }
        ensures within { result ≤ 4096 }
    {
        self.number
    }
}

/// A command, with its words.
#[derive(Clone, Copy, Debug)]
pub enum Command<'a> {
    /// Says whether a source is accepted.
    Check {
        input: &'a str,
        shows_why: bool,
        shows_all: bool,
    },
    /// Writes a source's image, and its map where there is a path for it.
    Compile {
        input: &'a str,
        output: &'a str,
        map: Option<&'a str>,
        pages: Pages,
        stack_pages: Pages,
        shows_why: bool,
    },
    /// Compiles a source and runs it, for at most `steps` instructions.
    Run {
        input: &'a str,
        pages: Pages,
        stack_pages: Pages,
        steps: u64,
        shows_ending: bool,
        shows_why: bool,
        shows_where: bool,
        shows_values: bool,
        shows_stats: bool,
        shows_counts: bool,
    },
    /// Runs a source by its meaning, with `fuel` units of fuel; with at most `depth` active calls, and at most so many bytes of `memory`, where they are given.
    Eval {
        input: &'a str,
        fuel: u64,
        depth: Option<u64>,
        memory: Option<u64>,
        shows_ending: bool,
        shows_why: bool,
        shows_where: bool,
    },
    /// Says how much stack a source's calls need.
    Stack {
        input: &'a str,
        shows_why: bool,
        shows_all: bool,
    },
    /// Runs an image, for at most `steps` instructions.
    Exec {
        input: &'a str,
        steps: u64,
        shows_ending: bool,
        shows_where: bool,
        shows_stats: bool,
        shows_counts: bool,
    },
    /// Prints an image.
    Dump {
        input: &'a str,
    },
    /// Prints what a fault, an ending or a status means.
    Explain {
        text: &'static str,
    },
}

impl<'a> Command<'a> {
    /// The path of the file that the command reads; none where it reads no file.
    pub fn input(&self) -> Option<&'a str> {
        match self {
            Command::Check { input, .. }
            | Command::Compile { input, .. }
            | Command::Run { input, .. }
            | Command::Eval { input, .. }
            | Command::Stack { input, .. }
            | Command::Exec { input, .. }
            | Command::Dump { input } => Some(input),
            Command::Explain { .. } => None,
        }
    }
}
