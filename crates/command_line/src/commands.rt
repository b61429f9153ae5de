// The commands, and the words that each takes.

use crate::texts::{IMAGE_FAULTS, SOURCE_FAULTS};
use clap::builder::ValueParser;
use explanations::NAMES;

/// What a word or an option of a command takes.
#[derive(Clone, Copy)]
pub enum Takes {
    /// A path, which has to be given; help calls it so.
    Path(&'static str),
    /// A path, which may be left out; help calls it so.
    OptionalPath(&'static str),
    /// Words, of which one at least has to be given; help calls them so.
    Several(&'static str),
    /// A number of such a form, and the one where none is given.
    Number(ValueParser<'static>, &'static str),
    /// A number of such a form, which may be left out.
    OptionalNumber(ValueParser<'static>),
    /// Nothing.
    Nothing,
}

/// A word or an option of a command: its name, what help says of it, and what it takes.
#[derive(Clone, Copy)]
pub struct Choice {
    pub name: &'static str,
    pub help: &'static str,
    pub takes: Takes,
}

/// The source file.
const SOURCE: Choice = Choice {
    name: "file",
    help: "The source file",
    takes: Takes::Path("IN"),
};

/// The image file that is read.
const IMAGE: Choice = Choice {
    name: "file",
    help: "The image file",
    takes: Takes::Path("IMAGE"),
};

/// The image file that is written.
const OUTPUT: Choice = Choice {
    name: "output",
    help: "The image file, written only if the source is accepted; of existing files only an empty one or an image is replaced",
    takes: Takes::Path("OUT"),
};

/// The file of the map.
const MAP: Choice = Choice {
    name: "map",
    help: "Writes the addresses of each function, statement, check and call as a text; of existing files only an empty one or a map is replaced",
    takes: Takes::OptionalPath("FILE"),
};

/// The arena's pages.
const PAGES: Choice = Choice {
    name: "pages",
    help: "Pages of the arena, of 4,096 bytes: 1 to 4,096",
    takes: Takes::Number(ValueParser::Signed(1, 4096), "1024"),
};

/// The stack's pages.
const STACK_PAGES: Choice = Choice {
    name: "stack-pages",
    help: "Pages of the stack, of 4,096 bytes: 1 to 4,096",
    takes: Takes::Number(ValueParser::Signed(1, 4096), "256"),
};

/// The most instructions.
const STEPS: Choice = Choice {
    name: "steps",
    help: "The most instructions that are executed",
    takes: Takes::Number(ValueParser::Unsigned(0, u64::MAX), "4294967295"),
};

/// The most units of fuel.
const FUEL: Choice = Choice {
    name: "steps",
    help: "The most units of fuel: turns of loops, and calls",
    takes: Takes::Number(ValueParser::Unsigned(0, u64::MAX), "4294967295"),
};

/// The most active calls of a run by the meaning.
const DEPTH: Choice = Choice {
    name: "depth",
    help: "The most calls that are active at once, main not counted",
    takes: Takes::OptionalNumber(ValueParser::Unsigned(1, u64::MAX)),
};

/// The most memory of a run by the meaning: as many megabytes as have at most 2^64 - 1 bytes.
const MEMORY: Choice = Choice {
    name: "memory",
    help: "The most memory that the run keeps, in MB of 1,048,576 bytes",
    takes: Takes::OptionalNumber(ValueParser::Unsigned(1, 17592186044415)),
};

/// Whether it is said how the run ended.
const ENDING: Choice = Choice {
    name: "ending",
    help: "Says on standard error how the run ended",
    takes: Takes::Nothing,
};

/// Whether a refusal is told in more than its line.
const WHY: Choice = Choice {
    name: "why",
    help: "Shows the source's line of a fault, with a mark below the column, what the fault means, what was found and what was wanted",
    takes: Takes::Nothing,
};

/// Whether all faults are told.
const ALL: Choice = Choice {
    name: "all",
    help: "Says one fault of each function and global: first the one that is said without it",
    takes: Takes::Nothing,
};

/// Whether the need of each function is told.
const EACH: Choice = Choice {
    name: "all",
    help: "Says the frame and the need of each function; of a rejected source one fault of each function and global",
    takes: Takes::Nothing,
};

/// Whether it is told where a run by the meaning stopped.
const STOP: Choice = Choice {
    name: "where",
    help: "Says where the run stopped, and in which calls",
    takes: Takes::Nothing,
};

/// Whether it is told where the run of an image stopped.
const WHERE: Choice = Choice {
    name: "where",
    help: "Says where the run stopped, and in which calls; the run is several times slower",
    takes: Takes::Nothing,
};

/// Whether it is told what a run took.
const STATS: Choice = Choice {
    name: "stats",
    help: "Says what the run executed, called, requested and took of the stack and the arena; the run is several times slower",
    takes: Takes::Nothing,
};

/// Whether it is told what the active calls held.
const VALUES: Choice = Choice {
    name: "values",
    help: "Says with --where also which index was out of bounds or what was NULL, what each active call was passed, and what its locals hold",
    takes: Takes::Nothing,
};

/// Whether it is told how often each instruction was executed.
const COUNTS: Choice = Choice {
    name: "counts",
    help: "Says how often each instruction was executed, a line each (docs/FAULTS.md); the run is several times slower",
    takes: Takes::Nothing,
};

/// The name that is explained.
const NAME: Choice = Choice {
    name: "name",
    help: "The name of a fault or an ending, or a status, as Lent, step limit or 3",
    takes: Takes::Several("NAME"),
};

/// A command: its name, what help says of it and below it, and its words.
#[derive(Clone, Copy)]
pub struct Words {
    pub name: &'static str,
    pub about: &'static str,
    pub below: &'static str,
    pub choices: &'static [Choice],
}

pub const COMMANDS: [Words; 8] = [
    Words {
        name: "check",
        about: "Says whether a source is accepted",
        below: SOURCE_FAULTS,
        choices: &[SOURCE, WHY, ALL],
    },
    Words {
        name: "compile",
        about: "Writes the image of a source",
        below: SOURCE_FAULTS,
        choices: &[SOURCE, OUTPUT, MAP, PAGES, STACK_PAGES, WHY],
    },
    Words {
        name: "run",
        about: "Compiles a source and runs it",
        below: SOURCE_FAULTS,
        choices: &[
            SOURCE,
            PAGES,
            STACK_PAGES,
            STEPS,
            ENDING,
            WHY,
            WHERE,
            VALUES,
            STATS,
            COUNTS,
        ],
    },
    Words {
        name: "eval",
        about: "Runs a source by its meaning",
        below: SOURCE_FAULTS,
        choices: &[SOURCE, FUEL, DEPTH, MEMORY, ENDING, WHY, STOP],
    },
    Words {
        name: "stack",
        about: "Says how much stack a source's calls need, or which recursion has no bound (status 1)",
        below: SOURCE_FAULTS,
        choices: &[SOURCE, WHY, EACH],
    },
    Words {
        name: "exec",
        about: "Runs an image",
        below: IMAGE_FAULTS,
        choices: &[IMAGE, STEPS, ENDING, WHERE, STATS, COUNTS],
    },
    Words {
        name: "dump",
        about: "Prints an image's header and its instructions",
        below: IMAGE_FAULTS,
        choices: &[IMAGE],
    },
    Words {
        name: "explain",
        about: "Says what a fault, an ending or a status means",
        below: NAMES,
        choices: &[NAME],
    },
];
