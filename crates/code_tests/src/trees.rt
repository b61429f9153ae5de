// What is read of a text: how deep the phrases nest, where parts stand, and the parts of forms. How expressions are grouped is seen in the cases of
// `case_runs`.

use cyc_lexer::{LexFault, Sign, Token, TokenKind, tokens};
use cyc_parser::{ParseFault, parse};
use cyc_tree::{
    BlockItem, Constant, Declaration, Expression, Function, Initial, Item, Pattern, Program,
    Statement, Suffix, nesting,
};
use region_types::typed;
use std::alloc::{AllocError, Global};
use std::test::Fail;

/// The program that the text spells.
fn program_of(alloc: Global, text: &str) -> Result<Program, Fail> {
    let tokens = tokens(alloc, text.as_bytes())?;
    Ok(parse(alloc, &tokens)?)
}

/// The first statement of a program's first item.
fn first_statement(program: &Program) -> Option<&Statement> {
    let Some(Item::Function(main)) = program.items().first() else {
        return None;
    };
    match main.body.first() {
        Some(BlockItem::Execute(statement)) => Some(statement),
        _ => None,
    }
}

/// Whether the first `if` has no `else`, and the one in it has.
fn inner_has_else(program: &Program) -> bool {
    match first_statement(program) {
        Some(Statement::If(13, _, body)) => matches!(&**body, Statement::IfElse(20, _, _, _)),
        _ => false,
    }
}

/// The primary and the suffixes of a program's first statement.
fn suffixed(program: &Program) -> Option<(&Expression, &[Suffix])> {
    match first_statement(program) {
        Some(Statement::Run(Expression::Suffixed(first, suffixes))) => {
            Some((first, suffixes.as_slice()))
        }
        _ => None,
    }
}

/// Whether the first statement makes a union, with `.`, an index and `->` behind it.
fn is_union_value(program: &Program) -> bool {
    matches!(
        suffixed(program),
        Some((
            Expression::MakeUnion(_, _, _),
            [Suffix::Dot(..), Suffix::Index(..), Suffix::Arrow(..)]
        ))
    )
}

/// Whether the first statement is a variable with two members behind it.
fn is_variable(program: &Program) -> bool {
    matches!(
        suffixed(program),
        Some((Expression::Variable(_), [Suffix::Dot(..), Suffix::Dot(..)]))
    )
}

/// Whether there are two clauses, of which the second is `default`.
fn has_two_clauses(program: &Program) -> bool {
    let Some(Statement::Switch(13, _, clauses)) = first_statement(program) else {
        return false;
    };
    match clauses.as_slice() {
        [first, second] => {
            (first.at == 26 && first.body.len() == 2)
                && (second.at == 51 && second.body.is_empty())
                && matches!(second.pattern, Pattern::Default)
        }
        _ => false,
    }
}

/// Whether a program's first global begins as -5u.
fn is_minus_five(program: &Program) -> bool {
    match program.items().first() {
        Some(Item::Global(global)) => {
            matches!(
                global.initial,
                Initial::Constant(Constant::Negative(42, 5, true))
            )
        }
        _ => false,
    }
}

/// Whether a program's first statement, or its first global, is what a name says.
fn is_named(program: &Program, part: &str) -> bool {
    match part {
        "nearest if" => inner_has_else(program),
        "union value" => is_union_value(program),
        "variable" => is_variable(program),
        "clauses" => has_two_clauses(program),
        _ => is_minus_five(program),
    }
}

/// The pointers of a program's first global.
fn pointers_of(alloc: Global, program: &Program) -> Result<String, AllocError> {
    match program.items().first() {
        Some(Item::Global(global)) => format!(in alloc; "{:?}", global.of.pointers.as_slice()),
        _ => Ok(String::new(alloc)),
    }
}

/// How many parameters, regions in its effect and bounds a function has, and where its end is.
fn signature_of(alloc: Global, function: &Function) -> Result<String, AllocError> {
    let parameters = function.parameters.len();
    let effect = match &function.effect {
        Some(regions) => Some(regions.len()),
        None => None,
    };
    let (bounds, end) = (function.bounds.len(), function.end);
    format!(in alloc; "{parameters} {effect:?} {bounds} {end}")
}

/// The places of a program's first item, of a local that begins it, with its name, and of the statement behind that.
fn places_of(alloc: Global, item: &Item, body: &[BlockItem]) -> Result<String, AllocError> {
    let mut found = format!(in alloc; "{}", item.place())?;
    for part in body {
        match part {
            BlockItem::Declare(local) => write_local(local, &mut found)?,
            BlockItem::Execute(statement) => write!(found, " {}", statement.place())?,
        }
    }
    Ok(found)
}

/// Writes the place of a local, and its name.
fn write_local(local: &Declaration, out: &mut String) -> Result<(), AllocError> {
    write!(out, " {} ", local.place())?;
    for byte in local.local().text.iter() {
        out.push(char::from(*byte))?;
    }
    Ok(())
}

/// The same of a program's first function.
fn function_shown(alloc: Global, program: &Program, part: &str) -> Result<String, AllocError> {
    match program.items().first() {
        Some(item) => match item {
            Item::Function(function) => {
                if part == "places" {
                    places_of(alloc, item, &function.body)
                } else {
                    signature_of(alloc, function)
                }
            }
            _ => Ok(String::new(alloc)),
        },
        None => Ok(String::new(alloc)),
    }
}

/// What a part of a program is shown as.
fn shown(alloc: Global, program: &Program, part: &str) -> Result<String, AllocError> {
    match part {
        "pointers" => pointers_of(alloc, program),
        "nesting" => format!(in alloc; "{}", nesting(program)),
        "signature" | "places" => function_shown(alloc, program, part),
        _ => format!(in alloc; "{}", is_named(program, part)),
    }
}

/// Refuses what is found where it isn't what is wanted.
fn expect(found: String, wanted: &str) -> Result<(), Fail> {
    if found.as_str() == wanted {
        Ok(())
    } else {
        Err(Fail::new(format_args!("found {found}, not {wanted}")))
    }
}

/// What a part of a text's program is shown as.
fn text_shown(alloc: Global, text: &str, part: &str) -> Result<String, Fail> {
    let program = program_of(alloc, text)?;
    Ok(shown(alloc, &program, part)?)
}

/// Refuses a table with a row that isn't so: a part, a text, and what the part of its program is shown as, with a `$` between them.
fn expect_rows(alloc: Global, table: &str) -> Result<(), Fail> {
    for row in table.lines() {
        let (part, rest) = row.split_once('$').unwrap_or((row, ""));
        let (text, wanted) = rest.split_once('$').unwrap_or((rest, ""));
        expect(text_shown(alloc, text, part)?, wanted)?;
    }
    Ok(())
}

// The pointers of a global. How many parameters, regions in its effect and bounds a function has, and its last brace. How deep phrases nest: what
// contains `2`
// are the block, the `return`, the sum, the call, the argument, and as unary expressions `-2` and `2`. Places. An `else` belongs to the nearest `if`.
// `Id . Id (` makes a union value, and else a `.` is a suffix.
const PARTS: &str = "\
pointers$char *`H *@fat`U @`r ?*@thin*@notnull x = -5u;$[Pointer { sign: Nullable(1), region: Some(Heap(6)) }, Pointer { sign: Fat, region: Some(Unique(14)) \
}, Pointer { sign: NotNull(1), region: Some(Named(Name { at: 18, text: [114] })) }, Pointer { sign: Fat, region: None }, Pointer { sign: Nullable(1), region: \
None }, Pointer { sign: NotNull(1), region: None }]
signature$int f() { }$0 None 0 10
signature$int f(void) { }$0 None 0 14
signature$int f(void v) { }$1 None 0 16
signature$int f(void *p, int x) { }$2 None 0 24
signature$int f(; {}) { }$0 Some(0) 0 14
signature$int f(int x; {`r, `s} : `r > `s, `s > `t) { { } }$1 Some(2) 2 48
nesting$int x;$0
nesting$int main() { ; } int x;$1
nesting$int main() { { return (1) + f(-2); ; } }$7
places$int main() { int x; NULL; }$0 13 x 20
nearest if$int main() { if (a) if (b) c; else d; }$true
union value$int main() { T.a(b).c[d]->e; }$true
variable$int main() { a.b.c; }$true
clauses$int main() { switch (u) { case {.a = x}: x; break; default: } }$true
minus five$char *`H *@fat`U @`r ?*@thin*@notnull x = -5u;$true";

#[test]
fn parts_and_faults_are_shown(rt: HostRuntime) -> Result<(), Fail> {
    let (fault, memory) = (LexFault::Lex(7), LexFault::Memory);
    expect(
        format!(in rt.alloc(); "{fault};{memory};")?,
        "Lex;out of memory;",
    )?;
    expect_rows(rt.alloc(), PARTS)
}

/// One token more than a text may have, each the same.
fn too_many_tokens(alloc: Global) -> Result<Vec<Token<'static>>, AllocError> {
    let mut many = Vec::new(alloc);
    for at in 0..1_048_577u32 {
        many.push(Token {
            kind: TokenKind::Sign(Sign::Semicolon),
            at,
            text: b";",
        })?;
    }
    Ok(many)
}

/// A list of them is refused at its last one, though no program begins with its first.
#[test]
fn more_tokens_than_a_text_has(rt: HostRuntime) -> Result<(), Fail> {
    let many = too_many_tokens(rt.alloc())?;
    let is_right = matches!(parse(rt.alloc(), &many), Err(ParseFault::Parse(1_048_576)));
    assert!(rt; is_right);
    Ok(())
}

/// Where the first fault of types stands that is found in a copy of a text's program.
fn fault_in_copy(alloc: Global, text: &str) -> Result<Option<u32>, Fail> {
    let program = program_of(alloc, text)?;
    let copy = typed(alloc, &program)?;
    Ok(match copy.fault(alloc)? {
        Some(fault) => Some(fault.at),
        None => None,
    })
}

#[test]
fn a_copy_is_judged(rt: HostRuntime) -> Result<(), Fail> {
    let accepted = fault_in_copy(rt.alloc(), "int main() { return 0; }")?;
    let refused = fault_in_copy(rt.alloc(), "int main() { return zz; }")?;
    assert!(rt; accepted.is_none());
    assert!(rt; refused == Some(20));
    Ok(())
}
