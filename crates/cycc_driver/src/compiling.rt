// From a text to an image.

ghost use Rattle.std.specs.Prelude.{◌≡◌, ◌⊎◌, ◌<◌, ◌≤◌, ℕ, List, Some, length, IfOk, IfErr};
ghost use Rattle.cyc_tree.specs.Tree.{Program as Tree};
ghost use Rattle.cyc_image.specs.Format.{Contents, Fits, code_limit, data_limit, second_block_limit};
ghost use Rattle.cyc_core.specs.Trees.{program_tree};
ghost use Rattle.source_meaning.specs.Programs.{unions_of};
ghost use Rattle.source_lowering.specs.Programs.{program_code};
ghost use Rattle.source_lowering.specs.Lowerable.{HaveFewMembers};
ghost use Rattle.accepted_programs.specs.Accepted.{IsAccepted};
ghost use Rattle.check_faults.specs.Faults.{fault_of};
ghost use Rattle.source_typing.specs.Answers.{effect_fault};
ghost use Rattle.cycc_driver.specs.Texts.{IsTextOf, IsAcceptedAs};
ghost use Rattle.cycc_driver.specs.Refusals.{IsRefusedFor, HasNoImageFor, AreSame, code_bound};
ghost use Rattle.cycc_driver.specs.Refused.{HasNoCodeFor};
ghost use Rattle.rv32_layout.specs.Placed.{ArePlaced};
ghost use Rattle.cycc_driver.specs.Outcome.{IsCode, IsCloselyImplementedBy, IsImplementedBy, IsTextImage, data_of, placed_lines};

use crate::fault::{CompileFault, Place, of_checking, of_flow, of_lexing, of_parsing};
use accepted_programs::Checked;
use check_faults::Fault;
use cyc_core::Program as Core;
use cyc_image::{Parts, write};
use cyc_lexer::tokens;
use cyc_parser::parse;
use cyc_tree::Program;
use effect_check::{CheckFault, effects};
use lower_checks::lower;
use region_types::into_typed;
use rv32_layout::{LayoutFault, data, place};
use rv32_select::select;
use std::alloc::Global;
use unique_flow::{first_broken, flow};

/// The program that a text spells.
fn parsed(alloc: Global, text: &[u8]) -> Result<Program, CompileFault>
    ensures found { IfOk result (λ program. IsTextOf text.now program) }
    ensures refused { IfErr result (λ fault. IsRefusedFor fault text.now) }
{
    let tokens = match tokens(alloc, text) {
        Ok(tokens) => tokens,
        Err(fault) => return Err(of_lexing(text, fault)),
    };
    match parse(alloc, &tokens) {
        Ok(program) => Ok(program),
        Err(fault) => Err(of_parsing(text, fault)),
    }
}

/// A text's first fault, where this is the earliest one of names, types, regions and effects in its program.
fn first_of(alloc: Global, text: &[u8], program: &Program, broken: Fault) -> CompileFault
    requires { effect_fault program.now ≡ Some (fault_of broken) }
    ensures { IsTextOf text.now program.now → IsRefusedFor result text.now }
{
    match first_broken(alloc, program, broken) {
        Ok(first) => of_checking(text, CheckFault::Broken(first)),
        Err(_) => CompileFault::Memory,
    }
}

/// The checked program, where it is accepted. There is one tree of it at a time.
fn checked(alloc: Global, text: &[u8], program: Program) -> Result<Checked, CompileFault>
    ensures same { IfOk result (λ c. c ≡ program) }
    ensures accepted { IfOk result (λ _. IsAccepted program) }
    ensures refused { IsTextOf text.now program → IfErr result (λ fault. IsRefusedFor fault text.now) }
{
    let typed = into_typed(alloc, program)?;
    if let Some(broken) = typed.effect_fault() {
        return Err(first_of(alloc, text, typed.program(), broken));
    }
    let effected = match effects(alloc, typed) {
        Ok(effected) => effected,
        // there is no such fault, and no memory is asked for
        Err(_) => unreachable!(),
    };
    match flow(alloc, effected) {
        Ok(checked) => Ok(checked),
        Err(fault) => Err(of_flow(text, fault)),
    }
}

/// The accepted program of a text.
///
/// Refuses a text that isn't accepted with the first fault of the first phase that has one: the tokens, the grammar,
/// names and types, and flow. `Memory` comes where no host memory is left.
pub fn front(alloc: Global, text: &[u8]) -> Result<Checked, CompileFault>
    // the program that the text spells, in which no rule is broken
    ensures accepted { IfOk result (λ checked. IsAcceptedAs text.now checked) }
    // its tokens are none, or are no program, at the place; or it spells a program whose first fault is this one, at the place
    ensures refused { IfErr result (λ fault. IsRefusedFor fault text.now) }
    // a text that is accepted is refused only if memory is out
    ensures exact { (program : Tree) → IsAcceptedAs text.now program → IfErr result (λ fault. fault ≡ CompileFault.Memory) }
{
    let program = parsed(alloc, text)?;
    Ok(checked(alloc, text, program)?)
}

/// Whether a text is accepted. Refuses what `front` refuses, with the same fault.
pub fn check(alloc: Global, text: &[u8]) -> Result<(), CompileFault>
    // the text spells a program in which no rule is broken
    ensures accepted { IfOk result (λ _. (program : Tree) × IsAcceptedAs text.now program) }
    // its tokens are none, or are no program, at the place; or it spells a program whose first fault is this one, at the place
    ensures refused { IfErr result (λ fault. IsRefusedFor fault text.now) }
    // a text that is accepted is refused only if memory is out
    ensures exact { (program : Tree) → IsAcceptedAs text.now program → IfErr result (λ fault. fault ≡ CompileFault.Memory) }
{
    match front(alloc, text) {
        Ok(_) => Ok(()),
        Err(fault) => Err(fault),
    }
}

/// A text spells one program, and an accepted one is refused only if memory is out; an image also where the bound on
/// the length of its code is over the limit.
pub fn accepted_or_refused()
    ensures one { (text : List ℕ) (program other : Tree) → IsTextOf text program → IsTextOf text other → program ≡ other }
    ensures checked { (text : List ℕ) (program : Tree) (fault : CompileFault) → IsAcceptedAs text program → IsRefusedFor fault text
        → fault ≡ CompileFault.Memory }
    ensures compiled { (text : List ℕ) (program : Tree) (fault : CompileFault) (accepted : IsAcceptedAs text program) → HasNoImageFor fault text
        → (fault ≡ CompileFault.Memory) ⊎ (code_limit < code_bound program accepted.spelled.tokens) }
{}

/// A text is refused for one fault, unless memory is out: of `check` as of `compile`.
pub fn one_fault()
    ensures checked { (text : List ℕ) (fault other : CompileFault) → IsRefusedFor fault text → IsRefusedFor other text → AreSame fault other }
    ensures compiled { (text : List ℕ) (fault other : CompileFault) → HasNoImageFor fault text → HasNoImageFor other text → AreSame fault other }
{}

/// A text has one image for these pages.
pub fn one_image()
    ensures { (text : List ℕ) (pages stack_pages : ℕ) (bytes others : List ℕ) → IsTextImage text pages stack_pages bytes
        → IsTextImage text pages stack_pages others → bytes ≡ others }
{}

/// What an image is made of but for its pages: the code and the bytes of the data.
#[derive(Drop)]
struct Placed {
    code: Vec<u8>,
    data: Vec<u8>,
}

/// The Core of an accepted program, whose tree is let go.
fn core_of(alloc: Global, checked: Checked) -> Result<Core, CompileFault>
    ensures code { IfOk result (λ core. program_tree core ≡ program_code checked) }
    ensures accepted { IfOk result (λ _. IsAccepted checked) }
    // a word counts the members of each of its unions
    ensures few { IfOk result (λ _. HaveFewMembers (unions_of checked)) }
    ensures memory { IfErr result (λ fault. fault ≡ CompileFault.Memory) }
{
    // a checked program is an accepted one
    checked.program();
    match lower(alloc, &checked) {
        Ok(core) => Ok(core),
        Err(_) => Err(CompileFault::Memory),
    }
}

/// The code and the data of an accepted program, whose tree is let go once its Core is made.
fn lay_out(alloc: Global, checked: Checked) -> Result<Placed, CompileFault>
    ensures code { IfOk result (λ placed. IsCode placed.code.items) }
    ensures data { IfOk result (λ placed. length placed.data.items ≤ data_limit) }
    // they are the words of the program's lines, and the bytes of its globals and strings
    ensures lines { IfOk result (λ placed. ArePlaced (placed_lines checked) placed.code.items) }
    ensures statics { IfOk result (λ placed. placed.data.items ≡ data_of checked) }
    // an image with this code and these data implements the program
    ensures implemented { IfOk result (λ placed. (parts : Contents) → parts.code ≡ placed.code.items → parts.statics ≡ placed.data.items
        → parts.entry ≡ 0 → parts.block_limit ≡ second_block_limit → Fits parts → IsImplementedBy checked parts × IsCloselyImplementedBy checked parts) }
    ensures refused { IfErr result (λ fault. HasNoCodeFor fault checked) }
{
    let core = core_of(alloc, checked)?;
    let labelled = select(alloc, &core)?;
    let code = match place(alloc, &labelled) {
        Ok(code) => code,
        Err(LayoutFault::TooLarge) => return Err(CompileFault::TooLarge(Place {
            line: 1,
            column: 1,
        })),
        Err(LayoutFault::Memory) => return Err(CompileFault::Memory),
    };
    match data(alloc, &core) {
        Ok(data) => Ok(Placed {
            code: code.bytes,
            data,
        }),
        // the data of an accepted program are within the limit
        Err(LayoutFault::TooLarge) => unreachable!(),
        Err(LayoutFault::Memory) => Err(CompileFault::Memory),
    }
}

/// The image of an accepted text, of version 2, for a machine with these numbers of pages of 4,096 bytes
/// for its arena and its stack.
///
/// Refuses what `check` refuses, with the same fault; a text whose code is over 1,048,576 bytes, with
/// `TooLarge` at line 1, column 1; and with `Memory` where no host memory is left.
pub fn compile(
    alloc: Global,
    text: &[u8],
    pages: u32,
    stack_pages: u32,
) -> Result<Vec<u8>, CompileFault>
    requires some { 1 ≤ pages }
    requires within { pages ≤ 4096 }
    requires some_stack { 1 ≤ stack_pages }
    requires stack_within { stack_pages ≤ 4096 }
    // it is the text's one image with these pages, and implements the program that the text spells
    ensures implemented { IfOk result (λ bytes. IsTextImage text.now pages stack_pages bytes.items) }
    // the fault is that of `check`, or the code of an accepted text is too large
    ensures refused { IfErr result (λ fault. HasNoImageFor fault text.now) }
{
    let checked = match front(alloc, text) {
        Ok(checked) => checked,
        Err(fault) => return Err(fault),
    };
    let placed = match lay_out(alloc, checked) {
        Ok(placed) => placed,
        Err(fault) => return Err(fault),
    };
    let parts = Parts {
        entry: 0,
        code: &placed.code,
        statics: &placed.data,
        pages,
        stack_pages,
    };
    Ok(write(alloc, &parts)?)
}
