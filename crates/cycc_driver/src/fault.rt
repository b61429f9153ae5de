// Why a text is refused.

ghost use Rattle.std.specs.Prelude.{◌≡◌};
ghost use Rattle.cycc_driver.specs.declared.fault.CompileFault.TheVariants.{Memory};
ghost use Rattle.cyc_lexer.specs.Places.{line_of, column_of};
ghost use Rattle.cycc_driver.specs.Printed.{printed_name, fault_place, fault_text};
ghost use Rattle.cycc_driver.specs.Refused.{IsOfLexing, IsOfParsing, IsOfChecking, IsOfFlow};

use check_faults::FaultKind;
use cyc_lexer::{LexFault, place_of};
use cyc_parser::ParseFault;
use effect_check::CheckFault;
use std::alloc::AllocError;
use std::error::Error;
use std::fmt;
use unique_flow::FlowFault;

/// A place in a text: the line and the column, from 1 on, of a byte.
#[derive(Clone, Copy, Debug)]
pub struct Place {
    pub line: u32,
    pub column: u32,
}

impl Place {
    /// The place of the byte at an offset; that of an offset past the end is after the last byte.
    pub fn at(text: &[u8], offset: u32) -> Place
        ensures line { result.line ≡ line_of text.now offset }
        ensures column { result.column ≡ column_of text.now offset }
    {
        let (line, column) = place_of(text, offset);
        Place { line, column }
    }
}

/// Why a text is refused, and where. In the order of their numbers, from 1 on.
#[derive(Clone, Copy, Debug)]
pub enum CompileFault {
    /// A byte that begins no token, or an unclosed or wrong token or comment.
    Lex(Place),
    /// A token with which no program goes on.
    Parse(Place),
    /// A token in over 256 phrases.
    TooDeep(Place),
    /// An unknown or second name, or no `main`.
    Name(Place),
    /// A phrase of a wrong type or form; printed as `Type`.
    Typing(Place),
    /// A region name out of order, or a region that isn't live.
    Region(Place),
    /// Regions that aren't in order.
    Outlives(Place),
    /// A call whose effect isn't live.
    Effect(Place),
    /// A local used after its value was moved.
    Consumed(Place),
    /// A local used while it is lent.
    Lent(Place),
    /// A noncopyable value would be copied.
    Copy(Place),
    /// A type, an array or a string that is too large.
    Size(Place),
    /// The code is over 1,048,576 bytes. The place is line 1, column 1.
    TooLarge(Place),
    /// No host memory is left.
    Memory,
}

impl CompileFault {
    /// The fault's printed name.
    pub fn name(&self) -> &'static str
        ensures { result.now ≡ printed_name self.now }
    {
        match self {
            CompileFault::Lex(_) => "Lex",
            CompileFault::Parse(_) => "Parse",
            CompileFault::TooDeep(_) => "TooDeep",
            CompileFault::Name(_) => "Name",
            CompileFault::Typing(_) => "Type",
            CompileFault::Region(_) => "Region",
            CompileFault::Outlives(_) => "Outlives",
            CompileFault::Effect(_) => "Effect",
            CompileFault::Consumed(_) => "Consumed",
            CompileFault::Lent(_) => "Lent",
            CompileFault::Copy(_) => "Copy",
            CompileFault::Size(_) => "Size",
            CompileFault::TooLarge(_) => "TooLarge",
            CompileFault::Memory => "Memory",
        }
    }

    /// Where the fault stands; nowhere if memory is out.
    pub fn place(&self) -> Option<Place>
        ensures { result ≡ fault_place self.now }
    {
        match self {
            CompileFault::Lex(place)
            | CompileFault::Parse(place)
            | CompileFault::TooDeep(place)
            | CompileFault::Name(place)
            | CompileFault::Typing(place)
            | CompileFault::Region(place)
            | CompileFault::Outlives(place)
            | CompileFault::Effect(place)
            | CompileFault::Consumed(place)
            | CompileFault::Lent(place)
            | CompileFault::Copy(place)
            | CompileFault::Size(place)
            | CompileFault::TooLarge(place) => Some(*place),
            CompileFault::Memory => None,
        }
    }
}

impl fmt::Display for CompileFault {
    ghost use Rattle.std.specs.Prelude.{Some};

    ghost output = { λ fault. Some (fault_text fault) };

    fn fmt<W: fmt::Write>(&self, f: &mut fmt::Formatter<W>) -> fmt::Result {
        match self.place() {
            Some(place) => {
                let line = place.line;
                let column = place.column;
                let name = self.name();
                write!(f, "{line}:{column}: {name}")
            }
            None => write!(f, "out of memory"),
        }
    }
}

impl Error for CompileFault {}

impl From<AllocError> for CompileFault {
    ghost from_gives = { λ _ fault. fault ≡ Memory };

    fn from(_error: AllocError) -> CompileFault {
        CompileFault::Memory
    }
}

/// A fault of the tokens, with its place in the text.
pub fn of_lexing(text: &[u8], fault: LexFault) -> CompileFault
    ensures { IsOfLexing text.now fault result }
{
    match fault {
        LexFault::Lex(at) => CompileFault::Lex(Place::at(text, at)),
        LexFault::Memory => CompileFault::Memory,
    }
}

/// A fault of the grammar, with its place in the text.
pub fn of_parsing(text: &[u8], fault: ParseFault) -> CompileFault
    ensures { IsOfParsing text.now fault result }
{
    match fault {
        ParseFault::Parse(at) => CompileFault::Parse(Place::at(text, at)),
        ParseFault::TooDeep(at) => CompileFault::TooDeep(Place::at(text, at)),
        ParseFault::Memory => CompileFault::Memory,
    }
}

/// A fault of names, types, regions or effects, with its place in the text.
pub fn of_checking(text: &[u8], fault: CheckFault) -> CompileFault
    ensures { IsOfChecking text.now fault result }
{
    match fault {
        CheckFault::Broken(fault) => {
            let place = Place::at(text, fault.at);
            match fault.kind {
                FaultKind::Name => CompileFault::Name(place),
                FaultKind::Typing => CompileFault::Typing(place),
                FaultKind::Region => CompileFault::Region(place),
                FaultKind::Outlives => CompileFault::Outlives(place),
                FaultKind::Effect => CompileFault::Effect(place),
                FaultKind::Consumed => CompileFault::Consumed(place),
                FaultKind::Lent => CompileFault::Lent(place),
                FaultKind::Copy => CompileFault::Copy(place),
                FaultKind::Size => CompileFault::Size(place),
            }
        }
        CheckFault::Memory => CompileFault::Memory,
    }
}

/// A fault of the flow, with its place in the text.
pub fn of_flow(text: &[u8], fault: FlowFault) -> CompileFault
    ensures { IsOfFlow text.now fault result }
{
    match fault {
        FlowFault::Consumed(at) => CompileFault::Consumed(Place::at(text, at)),
        FlowFault::Lent(at) => CompileFault::Lent(Place::at(text, at)),
        FlowFault::Copy(at) => CompileFault::Copy(Place::at(text, at)),
        FlowFault::Memory => CompileFault::Memory,
    }
}
