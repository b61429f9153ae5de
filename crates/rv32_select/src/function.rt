// Instructions for functions and programs.

ghost use Rattle.std.specs.Prelude.{◌≡◌, ◌/◌, ◌+◌, ◌-◌, ◌%◌, ◌^◌, ◌*◌, ◌≤◌, ◌<◌, ◌++◌, IfOk, OnOk, map, ℕ, length};
ghost use Rattle.cyc_core.specs.Trees.{body_tree, function_tree, program_tree};
ghost use Rattle.core_lines.specs.Frames.{stack_start_code, small_frame_code, refusal_code, test_code, move_code, frame_code, give_code};
ghost use Rattle.core_lines.specs.Frames.{load_code, saves_code, restores_code, epilogue_code};
ghost use Rattle.core_lines.specs.Operands.{keep_code, take_code, prologue_code};
ghost use Rattle.core_lines.specs.Choosing.{far};
ghost use Rattle.core_lines.specs.Promise.{AreLinesOf};
ghost use Rattle.core_lines.specs.Parameters.{parameter_register};
ghost use Rattle.core_lines.specs.Homes.{flag_at, homes_in, saved_by, saved_slot};
ghost use Rattle.core_lines.specs.Saved.{live_at_start, saves_at};
ghost use Rattle.core_lines.specs.Selected.{around, highest_of, shrunk_of, labels_within, function_code, functions_code, program_code};
ghost use Rattle.rv32_select.specs.Listing.{homes_listed};
ghost use Rattle.rv32_select.specs.Places.{surroundings, saves_left, framed};

use crate::completing::end_lines;
use crate::emit::{
    ADDRESS, SECOND, put, put_environment, put_lines, put_load, put_number, put_save, put_three,
    put_word, word_instructions,
};
use crate::flags::flag_at;
use crate::homes::homes_listed;
use crate::labelled::Labelled;
use crate::layout::{highest_of, saved_slot, statics, sum};
use crate::operands::put_kept;
use crate::place::Place;
use crate::saves::find_saves;
use crate::starts::Start;
use crate::statement::{Ways, following, put_statements};
use crate::taking::parameter_register;
use core_lines::Line;
use cyc_core::{Function, Program, Statement, Temporary};
use rv32_isa::{BranchOffset, Instr, Register, Signed12};
use rv32_machine::{EXIT, STACK_REFUSED};
use std::alloc::{AllocError, Global};

/// A number of bytes that no stack has.
const TOO_MANY: u64 = 0x0200_0000;

/// The address at which the stack begins.
const STACK_BASE: u64 = 0x0040_0000;

/// Frames below this number of bytes are taken and given back by one instruction each.
const SMALL: u64 = 2048;

/// The bytes of a frame in which blocks reach so high: rounded up to 16, and no more than no stack has.
fn framed(most: u64) -> u64
    ensures { result ≡ framed most }
{
    if most <= TOO_MANY - 16 {
        (most + 15) / 16 * 16
    } else {
        TOO_MANY
    }
}

/// The bytes of the frame of a function with this body, at whose start the place is.
pub(crate) fn frame_bytes(place: &Place, body: &[Statement]) -> Result<u64, AllocError>
    ensures { IfOk result (λ n. n ≡ framed (highest_of place.now.low (shrunk_of (surroundings place.now).names (body_tree body.now)))) }
{
    let mut named = place.named;
    Ok(framed(highest_of(place.low, &place.homes, &mut named, body)?))
}

/// x3, which has the address where the stack begins, from a program's second instruction on.
fn stack_start() -> Register
    ensures { result ≡ 3 }
{
    Register::new(3)
}

/// Appends what puts that address there.
fn put_stack_start(lines: &mut Vec<Line>) -> Result<(), AllocError>
    ensures { OnOk result (lines.new.items ≡ lines.old.items ++ stack_start_code) }
{
    put_number(lines, stack_start(), STACK_BASE)
}

/// Appends the taking of a small frame, which is refused at a label where x2 comes below x3.
fn put_small_frame(lines: &mut Vec<Line>, refused: usize, bytes: u64) -> Result<(), AllocError>
    requires { bytes < 2048 }
    ensures { OnOk result (lines.new.items ≡ lines.old.items ++ small_frame_code refused bytes) }
{
    let pointer = Register::STACK_POINTER;
    let (down, up) = (Signed12::new(-(bytes as i32)), Signed12::new(bytes as i32));
    let take = Instr::Addi(pointer, pointer, down);
    let test = Instr::Bgeu(pointer, stack_start(), BranchOffset::new(12));
    let ask = Instr::Addi(Register::ARGUMENT_0, Register::ZERO, up);
    put_three(lines, take, test, ask)?;
    put_lines(lines, &[Line::Jump(refused)])
}

/// Appends what stands at that label: x2 goes up again by the frame's bytes, which x10 has, and the stack is refused.
fn put_refusal(lines: &mut Vec<Line>) -> Result<(), AllocError>
    ensures { OnOk result (lines.new.items ≡ lines.old.items ++ refusal_code) }
{
    let pointer = Register::STACK_POINTER;
    put(lines, Instr::Add(pointer, pointer, Register::ARGUMENT_0))?;
    put_environment(lines, STACK_REFUSED)
}

/// Appends the test that the stack has room for this number of bytes, which is refused where it has not.
fn put_stack_test(lines: &mut Vec<Line>, bytes: u64) -> Result<(), AllocError>
    ensures { OnOk result (lines.new.items ≡ lines.old.items ++ test_code bytes) }
{
    let (first, second) = word_instructions(SECOND, sum(STACK_BASE, bytes)?);
    let over = BranchOffset::new(20);
    let test = Instr::Bgeu(Register::STACK_POINTER, SECOND, over);
    put_three(lines, first, second, test)?;
    put_word(lines, Register::ARGUMENT_0, bytes)?;
    put_environment(lines, STACK_REFUSED)
}

/// Appends the taking of the stack's next bytes for a large frame.
fn put_stack_move(lines: &mut Vec<Line>, bytes: u64) -> Result<(), AllocError>
    ensures { OnOk result (lines.new.items ≡ lines.old.items ++ move_code bytes) }
{
    let pointer = Register::STACK_POINTER;
    let (first, second) = word_instructions(ADDRESS, bytes);
    put_three(lines, first, second, Instr::Sub(pointer, pointer, ADDRESS))
}

/// Appends the taking of the stack's next bytes for a frame, which is refused where the stack has fewer.
fn put_frame(lines: &mut Vec<Line>, refused: usize, bytes: u64) -> Result<(), AllocError>
    ensures { OnOk result (lines.new.items ≡ lines.old.items ++ frame_code refused bytes) }
{
    if bytes < SMALL {
        put_small_frame(lines, refused, bytes)
    } else {
        put_stack_test(lines, bytes)?;
        put_stack_move(lines, bytes)
    }
}

/// Appends that a frame's bytes are given back to the stack.
fn put_stack_give(lines: &mut Vec<Line>, bytes: u64) -> Result<(), AllocError>
    ensures { OnOk result (lines.new.items ≡ lines.old.items ++ give_code bytes) }
{
    let pointer = Register::STACK_POINTER;
    if bytes < SMALL {
        let up = Signed12::new(bytes as i32);
        put(lines, Instr::Addi(pointer, pointer, up))
    } else {
        let (first, second) = word_instructions(ADDRESS, bytes);
        put_three(lines, first, second, Instr::Add(pointer, pointer, ADDRESS))
    }
}

/// Appends the taking of a parameter's word from the caller's frame, and its save, if it is loaded from its slot later.
fn put_parameter(
    lines: &mut Vec<Line>,
    place: &Place,
    bytes: u64,
    function: &Function,
    live: &[bool],
    parameter: Temporary,
) -> Result<(), AllocError>
    ensures { let register = parameter_register place.now.homes.items (function_tree function.now).body parameter.0 in
        OnOk result (lines.new.items ≡ lines.old.items ++ load_code register (bytes / 4 + 1 + parameter.0)
        ++ keep_code (flag_at live.now parameter.0) place.now.passed register parameter.0) }
{
    let register = parameter_register(&place.homes, &function.body, parameter);
    put_load(lines, register, sum(bytes / 4 + 1, u64::from(parameter.0))?)?;
    put_kept(
        lines,
        place,
        flag_at(live, parameter.0 as usize),
        register,
        parameter,
    )
}

/// Appends the taking of each parameter's word from the caller's frame.
fn put_parameters(
    lines: &mut Vec<Line>,
    place: &Place,
    bytes: u64,
    function: &Function,
    live: &[bool],
) -> Result<(), AllocError>
    ensures { OnOk result (lines.new.items ≡ lines.old.items ++ take_code bytes place.now.passed live.now
        (parameter_register place.now.homes.items (function_tree function.now).body) 0 function.now.parameters) }
{
    'each: for parameter in 0..function.parameters {
        put_parameter(lines, place, bytes, function, live, Temporary(parameter))?;
    }
    Ok(())
}

/// Appends the saves of registers into slots from one on.
fn put_saves(lines: &mut Vec<Line>, first: u64, saved: &[Register]) -> Result<(), AllocError>
    ensures { OnOk result (lines.new.items ≡ lines.old.items ++ saves_code first saved.now) }
{
    let mut slot = first;
    'each: for register in saved {
        put_save(lines, *register, slot)?;
        slot = sum(slot, 1)?;
    }
    Ok(())
}

/// Appends their loads.
fn put_restores(lines: &mut Vec<Line>, first: u64, saved: &[Register]) -> Result<(), AllocError>
    ensures { OnOk result (lines.new.items ≡ lines.old.items ++ restores_code first saved.now) }
{
    let mut slot = first;
    'each: for register in saved {
        put_load(lines, *register, slot)?;
        slot = sum(slot, 1)?;
    }
    Ok(())
}

/// Appends what a function begins with: its frame, if the stack has room for it, its return address, the registers that it saves and its parameters.
fn put_prologue(
    lines: &mut Vec<Line>,
    place: &Place,
    refused: usize,
    bytes: u64,
    function: &Function,
    saved: &[Register],
    live: &[bool],
) -> Result<(), AllocError>
    ensures { OnOk result (lines.new.items ≡ lines.old.items
        ++ prologue_code refused bytes place.now.passed (saved_slot (function_tree function.now)) saved.now live.now
        (parameter_register place.now.homes.items (function_tree function.now).body) function.now.parameters) }
{
    put_frame(lines, refused, bytes)?;
    put_save(lines, Register::RETURN_ADDRESS, 0)?;
    put_saves(lines, saved_slot(function), saved)?;
    put_parameters(lines, place, bytes, function, live)
}

/// Appends where a function ends: the registers that it saved come back, and its frame is given back.
fn put_epilogue(
    lines: &mut Vec<Line>,
    bytes: u64,
    first: u64,
    saved: &[Register],
) -> Result<(), AllocError>
    ensures { OnOk result (lines.new.items ≡ lines.old.items ++ epilogue_code bytes first saved.now) }
{
    put_restores(lines, first, saved)?;
    put_load(lines, Register::RETURN_ADDRESS, 0)?;
    put_stack_give(lines, bytes)?;
    let (none, back) = (Register::ZERO, Register::RETURN_ADDRESS);
    put(lines, Instr::Jalr(none, back, Signed12::new(0)))
}

/// The labels of a function: where its frame is refused, its number, where it begins, and `next`, where it ends and behind which the labels are free.
#[derive(Clone, Copy)]
struct Labels {
    refused: usize,
    number: usize,
    next: usize,
}

/// Appends a function at whose start the place is, where it is known which results are saved. It saves these registers, and loads these temporaries from
/// their slots. Answers the next free label.
fn put_begun(
    lines: &mut Vec<Line>,
    starts: &mut Vec<Start>,
    place: &mut Place,
    labels: Labels,
    function: &Function,
    saved: &[Register],
    live: &[bool],
) -> Result<usize, AllocError>
    requires saved { saved.now ≡ saved_by (function_tree function.now) }
    requires homes { place.old.homes.items ≡ homes_in (function_tree function.now) }
    requires place { surroundings place.old ≡ around far (surroundings place.old).statics labels.next (function_tree function.now) }
    requires saves { saves_left place.old ≡ saves_at (surroundings place.old).statics (function_tree function.now) }
    requires live { live.now ≡ live_at_start (surroundings place.old).statics (function_tree function.now) }
    ensures code { OnOk result (lines.new.items ≡ lines.old.items
        ++ function_code far (surroundings place.old).statics labels.refused labels.number labels.next (function_tree function.now)) }
    ensures free { IfOk result (λ n. n ≡ labels.next + labels_within (function_tree function.now)) }
    ensures same { OnOk result (place.new.statics.items ≡ place.old.statics.items) }
{
    let Labels {
        refused,
        number,
        next,
    } = labels;
    let bytes = frame_bytes(place, &function.body)?;
    let slot = saved_slot(function);
    put_lines(lines, &[Line::Label(number)])?;
    put_prologue(lines, place, refused, bytes, function, saved, live)?;
    let ways = Ways {
        out: number,
        again: number,
    };
    let first = following(next)?;
    let free = put_statements(lines, starts, place, first, ways, &function.body)?;
    end_lines(lines, &function.body);
    put_lines(lines, &[Line::Label(next)])?;
    put_epilogue(lines, bytes, slot, saved)?;
    Ok(free)
}

/// Appends a function with these labels. Answers the next free label.
fn put_function(
    lines: &mut Vec<Line>,
    starts: &mut Vec<Start>,
    place: &mut Place,
    labels: Labels,
    function: &Function,
) -> Result<usize, AllocError>
    ensures code { OnOk result (lines.new.items ≡ lines.old.items
        ++ function_code far place.old.statics.items labels.refused labels.number labels.next (function_tree function.now)) }
    ensures free { IfOk result (λ n. n ≡ labels.next + labels_within (function_tree function.now)) }
    ensures same { OnOk result (place.new.statics.items ≡ place.old.statics.items) }
{
    let saved = place.begin(function, labels.next)?;
    let live = find_saves(place, function, labels.next)?;
    put_begun(lines, starts, place, labels, function, &saved, &live)
}

/// Appends functions, the first of which has the number 0. Their frames are refused at a label, behind which the labels are free.
fn put_functions(
    lines: &mut Vec<Line>,
    starts: &mut Vec<Start>,
    place: &mut Place,
    refused: usize,
    functions: &[Function],
) -> Result<(), AllocError>
    ensures { OnOk result (lines.new.items
        ≡ lines.old.items ++ functions_code far place.old.statics.items refused 0 (refused + 1) (map function_tree functions.now)) }
{
    let mut next = following(refused)?;
    let mut number = 0;
    'each: for function in functions {
        let labels = Labels {
            refused,
            number,
            next,
        };
        next = put_function(lines, starts, place, labels, function)?;
        number = following(number)?;
    }
    Ok(())
}

/// The lines of a lowered program; notes where in them statements begin.
fn program_lines(
    alloc: Global,
    starts: &mut Vec<Start>,
    program: &Program,
) -> Result<Vec<Line>, AllocError>
    ensures { IfOk result (λ lines. lines.items ≡ program_code far (program_tree program.now)) }
{
    let mut lines = Vec::new(alloc);
    put_stack_start(&mut lines)?;
    put_lines(&mut lines, &[Line::CallTo(program.main)])?;
    put_environment(&mut lines, EXIT)?;
    let refused = program.functions.len();
    put_lines(&mut lines, &[Line::Label(refused)])?;
    put_refusal(&mut lines)?;
    let mut place = Place::new(alloc, statics(alloc, &program.globals)?);
    put_functions(&mut lines, starts, &mut place, refused, &program.functions)?;
    Ok(lines)
}

/// The instructions of a lowered program. Fails only where no host memory is left.
pub fn select(alloc: Global, program: &Program) -> Result<Labelled, AllocError>
    // the lines are those of the definition, with no branch alone
    ensures selected { IfOk result (λ labelled. labelled.lines ≡ program_code far (program_tree program.now)) }
    // no label stands twice in the lines; their words, where a conditional jump counts as two, are some, and are within the bound by the program's operations;
    // and
    // a machine that begins with the lines does what the program does, with frames within the bounds of its functions
    ensures lines { IfOk result (λ labelled. AreLinesOf (program_tree program.now) labelled.lines) }
    // of each function in turn, the registers of its locals in its order, 0 for one that has none
    ensures homes { IfOk result (λ labelled. labelled.homes ≡ homes_listed (program_tree program.now).functions) }
{
    let mut starts = Vec::new(alloc);
    let lines = program_lines(alloc, &mut starts, program)?;
    let homes = homes_listed(alloc, &program.functions)?;
    Ok(Labelled {
        lines,
        homes,
        starts,
    })
}
