// Programs of Core, read from texts.
//
// `function PARAMETERS`, `block`, `leave`, `if TEMPORARY` and `while TEMPORARY` go on up to their `end`. The statements of `if` before its `else` are done
// where the temporary is not 0, and those of `while` before its `do` are its test. `with_word`, `with_fat`, `with_words COUNT`, `with_pairs COUNT`,
// `with_union`, `with_fat_union` and `with_unions COUNT` are locals of a block, or right within a function its temporary objects. `pass` has the temporaries
// that the next `call FUNCTION RESULTS` passes. `check_bounds TEMPORARY` raises where that is 0 or NULL, and `check_null_or_bounds TEMPORARY OTHER` does by
// `OTHER`: the null exception where that is neither.

use crate::evaluator::parts::{datum_of, local_of, statement_of, words_of};
use crate::evaluator::rows::{Row, row_of};
use crate::evaluator::words::Word;
use cyc_core::{Call, Datum, Function, Local, Origin, Program, Statement, Temporary};
use std::alloc::Global;
use std::mem;

// what goes on up to an `end`
#[derive(Clone, Copy)]
enum Sort {
    Function(u32),
    Block,
    Leave,
    If(Temporary),
    While(Temporary),
}

// what goes on up to an `end`, as far as it is read: its locals, the statements before its `else` or `do`, and those that are read now
#[derive(Drop)]
struct Level {
    sort: Sort,
    locals: Vec<Local>,
    first: Vec<Statement>,
    body: Vec<Statement>,
}

// a program as far as it is read
#[derive(Drop)]
struct Reader {
    alloc: Global,
    functions: Vec<Function>,
    globals: Vec<Datum>,
    levels: Vec<Level>,
    passed: Vec<Temporary>,
}

/// The statement of a level that is no function, where there is memory for it.
fn whole_statement(alloc: Global, level: Level) -> Option<Statement> {
    match level.sort {
        Sort::Function(_) | Sort::Block => {
            Some(Statement::Block(Box::new(alloc, (level.locals, level.body)).ok()?))
        }
        Sort::Leave => Some(Statement::Leave(level.body)),
        Sort::If(of) => Some(Statement::If(of, Box::new(alloc, (level.first, level.body)).ok()?)),
        Sort::While(of) => {
            Some(Statement::While(of, Box::new(alloc, (level.first, level.body)).ok()?))
        }
    }
}

impl Reader {
    /// A reader that has read nothing yet.
    fn new(alloc: Global) -> Self {
        Reader {
            alloc,
            functions: Vec::new(alloc),
            globals: Vec::new(alloc),
            levels: Vec::new(alloc),
            passed: Vec::new(alloc),
        }
    }

    /// Begins a level, to which the next statements belong.
    fn open(&mut self, sort: Sort) -> Option<()> {
        let level = Level {
            sort,
            locals: Vec::new(self.alloc),
            first: Vec::new(self.alloc),
            body: Vec::new(self.alloc),
        };
        self.levels.push(level).ok()
    }

    /// Ends the first statements of the innermost level: those read next are its body.
    fn turn(&mut self) -> Option<()> {
        let level = self.levels.last_mut()?;
        mem::swap(&mut level.first, &mut level.body);
        Some(())
    }

    /// Appends a statement to the innermost level.
    fn add(&mut self, statement: Statement) -> Option<()> {
        self.levels.last_mut()?.body.push(statement).ok()
    }

    /// Appends a function with this level's locals and body.
    fn add_function(&mut self, parameters: u32, level: Level) -> Option<()> {
        let function = Function {
            parameters,
            temporaries: 4,
            passed: 1,
            order: Vec::new(self.alloc),
            own: level.locals,
            body: level.body,
        };
        self.functions.push(function).ok()
    }

    /// Ends the innermost level: it is a function, or a statement of the level around it.
    fn close(&mut self) -> Option<()> {
        let level = self.levels.pop()?;
        match level.sort {
            Sort::Function(parameters) => self.add_function(parameters, level),
            _ => {
                let statement = whole_statement(self.alloc, level)?;
                self.add(statement)
            }
        }
    }

    /// Keeps the temporaries of a row as arguments of the next call.
    fn pass(&mut self, row: Row) -> Option<()> {
        for number in row.numbers.iter().take(row.count) {
            self.passed.push(Temporary(*number)).ok()?;
        }
        Some(())
    }

    /// Appends a call with the arguments that were kept.
    fn call(&mut self, row: Row) -> Option<()> {
        let [function, first, second, third, _] = row.numbers;
        let call = Call {
            result: words_of([first, second, third], row.count.saturating_sub(1)),
            function: function as usize,
            arguments: mem::replace(&mut self.passed, Vec::new(self.alloc)),
            origin: Origin(0),
        };
        self.add(Statement::Call(Box::new(self.alloc, call).ok()?))
    }

    /// Appends what a row has: a global, a local or a statement.
    fn part(&mut self, row: Row) -> Option<()> {
        if let Some(datum) = datum_of(self.alloc, row) {
            return self.globals.push(datum).ok();
        }
        if let Some(local) = local_of(self.alloc, row) {
            return self.levels.last_mut()?.locals.push(local).ok();
        }
        let statement = statement_of(self.alloc, row)?;
        self.add(statement)
    }

    /// Reads one row.
    fn read(&mut self, text: &str) -> Option<()> {
        let row = row_of(text)?;
        let [number, _, _, _, _] = row.numbers;
        match row.word {
            Word::Function => self.open(Sort::Function(number)),
            Word::Block => self.open(Sort::Block),
            Word::Leave => self.open(Sort::Leave),
            Word::If => self.open(Sort::If(Temporary(number))),
            Word::While => self.open(Sort::While(Temporary(number))),
            Word::Turn => self.turn(),
            Word::End => self.close(),
            Word::Pass => self.pass(row),
            Word::Call => self.call(row),
            _ => self.part(row),
        }
    }

    /// Reads the rows of a line.
    fn read_line(&mut self, line: &str) -> Option<()> {
        for text in line.split("; ") {
            self.read(text)?;
        }
        Some(())
    }

    /// Reads the lines of a text, where the given ones stand for its lines `?`.
    fn read_text(&mut self, text: &str, given: &str) -> Option<()> {
        let mut given = given.split(" | ");
        for line in text.lines() {
            let rows = if line == "?" { given.next()? } else { line };
            self.read_line(rows)?;
        }
        if given.next().unwrap_or("").is_empty() {
            Some(())
        } else {
            None
        }
    }

    /// The program, which its first function begins, where there is one and no end is missing.
    fn into_program(self) -> Option<Program> {
        if self.levels.is_empty() && !self.functions.is_empty() {
            Some(Program {
                functions: self.functions,
                main: 0,
                globals: self.globals,
            })
        } else {
            None
        }
    }
}

/// The program of a text, where the lines `?` stand for the given ones, which have ` | ` between them; none where it has a row that is none, or memory lacks.
pub fn program_of(alloc: Global, text: &str, given: &str) -> Option<Program> {
    let mut reader = Reader::new(alloc);
    match reader.read_text(text, given) {
        None => None,
        Some(()) => reader.into_program(),
    }
}
