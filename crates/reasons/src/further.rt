// The faults of a text behind the first one.

use crate::item_faults::{ItemFault, program_faults};
use crate::places::Positions;
use crate::unknown::takes_unknown;
use check_faults::{Fault, FaultKind};
use cyc_lexer::{Token, tokens};
use cyc_parser::{ParseFault, parse};
use cyc_tree::Program;
use cycc_driver::{CompileFault, Place};
use flow_check::flow_fault;
use std::alloc::{AllocError, Global};
use token_reasons::{
    body_at, body_within, count_outside, emptied, emptied_all, emptied_behind, emptied_up_to,
    index_at, is_freed, without_statement,
};

/// How many faults of the grammar, and of flow, are looked for behind one another.
const MOST_ROUNDS: u32 = 100;

/// How often faults of flow are looked for: in the bodies that are left, or in the first of them.
const MOST_LOOKS: u32 = 1_000;

/// In which bodies a fault of flow is looked for next, and how many were found.
#[derive(Clone, Copy)]
struct Ahead {
    /// How many tokens the bodies have together at most.
    tokens: usize,
    faults: u32,
}

impl Ahead {
    /// Behind bodies without a fault: in twice as many.
    fn after_none(self) -> Ahead {
        Ahead {
            tokens: self.tokens.saturating_mul(2),
            ..self
        }
    }

    /// Behind a fault: in few, since each look also takes what is outside of bodies, of which there are so many tokens.
    fn after_fault(self, outside: usize) -> Ahead {
        Ahead {
            tokens: outside / 4,
            faults: self.faults.saturating_add(1),
        }
    }
}

/// The faults that were found, and the text's tokens without the bodies that have them.
struct Found<'t, 'a> {
    alloc: Global,
    text: &'t [u8],
    tokens: Vec<Token<'a>>,
    faults: Vec<CompileFault>,
    /// The position of the first fault, which `check` answers.
    first: Place,
    /// The closing braces of the bodies that are left out for the grammar, by their offsets.
    ends: Vec<u32>,
}

// Written out, so that a caller's proof sees one call and not the drop of each field.
impl Drop for Found<'_, '_> {
    fn drop(self) {
        let Found {
            alloc: _,
            text: _,
            tokens: _tokens,
            faults: _faults,
            first: _,
            ends: _ends,
        } = self;
    }
}

/// A fault of the rules, at a position.
fn placed(place: Place, kind: FaultKind) -> CompileFault {
    match kind {
        FaultKind::Name => CompileFault::Name(place),
        FaultKind::Typing => CompileFault::Typing(place),
        FaultKind::Region => CompileFault::Region(place),
        FaultKind::Outlives => CompileFault::Outlives(place),
        FaultKind::Effect => CompileFault::Effect(place),
        FaultKind::Consumed => CompileFault::Consumed(place),
        FaultKind::Lent => CompileFault::Lent(place),
        FaultKind::Copy => CompileFault::Copy(place),
        FaultKind::Size => CompileFault::Size(place),
    }
}

impl<'t, 'a> Found<'t, 'a> {
    /// Whether a body is left out, by its closing brace.
    fn is_left_out(&self, end: u32) -> bool {
        self.ends.contains(&end)
    }

    /// Leaves out the body that has an offset, and answers whether there was one. Fails only where no host memory is left, as all of these.
    fn leave_out(&mut self, at: u32) -> Result<bool, AllocError> {
        let Some(body) = body_at(self.tokens.as_slice(), at) else {
            return Ok(false);
        };
        let Some(close) = self.tokens.get(body.close) else {
            return Ok(false);
        };
        let end = close.at;
        if self.is_left_out(end) {
            return Ok(false);
        }
        self.ends.push(end)?;
        self.tokens = emptied(self.alloc, self.tokens.as_slice(), body)?;
        Ok(true)
    }

    /// Adds a fault, where it isn't the first one.
    fn add(&mut self, fault: CompileFault) -> Result<(), AllocError> {
        match fault.place() {
            Some(place) => {
                let same_line = place.line == self.first.line;
                if !same_line || place.column != self.first.column {
                    self.faults.push(fault)?;
                }
                Ok(())
            }
            None => Err(AllocError),
        }
    }

    /// Adds a fault of the grammar, and leaves its body out. Answers whether it was in one.
    fn add_grammar(&mut self, fault: ParseFault) -> Result<bool, AllocError> {
        let (at, fault) = match fault {
            ParseFault::Parse(at) => (at, CompileFault::Parse(Place::at(self.text, at))),
            ParseFault::TooDeep(at) => (at, CompileFault::TooDeep(Place::at(self.text, at))),
            ParseFault::Memory => return Err(AllocError),
        };
        self.add(fault)?;
        self.leave_out(at)
    }

    /// The program that is left when the bodies with faults of the grammar are left out; none where one is elsewhere.
    fn parsed(&mut self) -> Result<Option<Program>, AllocError> {
        for _ in 0..MOST_ROUNDS {
            match parse(self.alloc, self.tokens.as_slice()) {
                Ok(program) => return Ok(Some(program)),
                Err(fault) => {
                    if !self.add_grammar(fault)? {
                        return Ok(None);
                    }
                }
            }
        }
        Ok(None)
    }

    /// Adds a fault of the rules.
    fn add_ruled(&mut self, positions: &mut Positions<'_>, fault: Fault) -> Result<(), AllocError> {
        self.add(placed(positions.place_of(fault.at), fault.kind))
    }

    /// Adds the faults of items whose bodies aren't left out, and leaves these out.
    fn add_items(&mut self, faults: &[ItemFault]) -> Result<(), AllocError> {
        let mut positions = Positions::of(self.text);
        let mut closes = Vec::new(self.alloc);
        for found in faults {
            match found.close {
                Some(close) if self.is_left_out(close) => {}
                Some(close) => {
                    self.add_ruled(&mut positions, found.fault)?;
                    closes.push(close)?;
                }
                None => self.add_ruled(&mut positions, found.fault)?,
            }
        }
        self.tokens = emptied_all(self.alloc, self.tokens.as_slice(), closes.as_slice())?;
        Ok(())
    }

    /// Leaves out the body that a fault of flow is in, and those before it. Answers whether there was one.
    fn pass(&mut self, at: u32) -> Result<bool, AllocError> {
        match body_at(self.tokens.as_slice(), at) {
            Some(body) => {
                self.tokens = emptied_up_to(self.alloc, self.tokens.as_slice(), body)?;
                Ok(true)
            }
            None => Ok(false),
        }
    }

    /// Leaves out what frees, opens or lends a local that isn't known. Answers whether there may be more faults.
    fn pass_unknown(&mut self, at: u32) -> Result<bool, AllocError> {
        let index = index_at(self.tokens.as_slice(), at);
        if !is_freed(self.tokens.as_slice(), index) {
            return self.pass(at);
        }
        self.tokens = without_statement(self.alloc, self.tokens.as_slice(), index)?;
        Ok(true)
    }

    /// Adds a fault of flow, where it doesn't follow from another one, and answers whether there may be more. These tokens are the program's.
    fn add_flow(
        &mut self,
        positions: &mut Positions<'_>,
        tokens: &[Token<'_>],
        program: &Program,
        fault: Fault,
    ) -> Result<bool, AllocError> {
        if takes_unknown(self.alloc, tokens, program, fault)? {
            return self.pass_unknown(fault.at);
        }
        self.add_ruled(positions, fault)?;
        self.pass(fault.at)
    }

    /// Adds the first fault of flow in the bodies ahead, and answers which are next, where there may be more.
    fn look(
        &mut self,
        positions: &mut Positions<'_>,
        ahead: Ahead,
    ) -> Result<Option<Ahead>, AllocError> {
        let Some(last) = body_within(self.tokens.as_slice(), ahead.tokens) else {
            return Ok(None);
        };
        let part = emptied_behind(self.alloc, self.tokens.as_slice(), last)?;
        let Ok(program) = parse(self.alloc, part.as_slice()) else {
            return Ok(None);
        };
        let Some(fault) = flow_fault(self.alloc, &program)? else {
            self.tokens = emptied_up_to(self.alloc, self.tokens.as_slice(), last)?;
            return Ok(Some(ahead.after_none()));
        };
        if self.add_flow(positions, part.as_slice(), &program, fault)? {
            Ok(Some(ahead.after_fault(count_outside(part.as_slice()))))
        } else {
            Ok(None)
        }
    }

    /// Adds the faults of flow, one for each function.
    fn add_flows(&mut self) -> Result<(), AllocError> {
        let mut positions = Positions::of(self.text);
        let mut ahead = Ahead {
            tokens: usize::MAX,
            faults: 0,
        };
        for _ in 0..MOST_LOOKS {
            match self.look(&mut positions, ahead)? {
                Some(next) if next.faults < MOST_ROUNDS => ahead = next,
                _ => break,
            }
        }
        Ok(())
    }

    /// The faults.
    fn into_faults(self) -> Vec<CompileFault> {
        let Found {
            alloc: _,
            text: _,
            tokens: _tokens,
            faults,
            first: _,
            ends: _ends,
        } = self;
        faults
    }
}

/// Adds all faults.
fn search(found: &mut Found<'_, '_>) -> Result<(), AllocError> {
    let Some(program) = found.parsed()? else {
        return Ok(());
    };
    let faults = program_faults(found.alloc, &program)?;
    found.add_items(faults.as_slice())?;
    found.add_flows()
}

/// The faults of a text beside its first one: of each function one at most, the earliest by the grammar, else by the rules on names,
/// types, regions and effects, else by those on flow; one of each global, and the first one of the structs and unions. A body with a fault
/// of the grammar is left out. Behind such a fault elsewhere there is none, and behind one of the tokens. Of faults of the grammar, and of
/// flow, there are at most 100. Fails only where no host memory is left.
pub fn further_faults(
    alloc: Global,
    text: &[u8],
    first: CompileFault,
) -> Result<Vec<CompileFault>, AllocError> {
    let (Some(place), Ok(tokens)) = (first.place(), tokens(alloc, text)) else {
        return Ok(Vec::new(alloc));
    };
    let mut found = Found {
        alloc,
        text,
        tokens,
        faults: Vec::new(alloc),
        first: place,
        ends: Vec::new(alloc),
    };
    search(&mut found)?;
    Ok(found.into_faults())
}
