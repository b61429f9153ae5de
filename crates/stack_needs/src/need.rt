// The stack that the calls of a program need.

ghost use Rattle.std.specs.Prelude.{◌≡◌, IfOk, IfNone, IfSome, List, ℕ, codes, length, map};
ghost use Rattle.cyc_tree.specs.View.{program_tree};
ghost use Rattle.core_lines.specs.LocalPlaces.{frame_bytes};
ghost use Rattle.source_meaning.specs.Programs.{functions_of, world_of};
ghost use Rattle.source_lowering.specs.Programs.{program_code};
ghost use Rattle.compile_proof.specs.Promise.{frame_size_of};
ghost use Rattle.stack_needs.specs.Graph.{known, rows_of};
ghost use Rattle.stack_needs.specs.Numbers.{AreNeedsOf, IsRecursionOf, IsStackNeed, calls_among, frame_by, need_at, number_from};

use crate::calls::calls_of;
use crate::numbers::Functions;
use crate::recursion::{Recursion, recursion_from};
use crate::rounds::needs_of;
use cyc_tree::Item;
use std::alloc::{AllocError, Global};

/// What the calls of a program's functions need. Functions have numbers in the order of the text, from 0 on.
#[derive(Drop)]
pub struct StackNeeds {
    /// The number of `main`, if there is one.
    pub main: Option<usize>,
    /// Of each function, the numbers of those that its body calls, in the order of the text.
    pub calls: Vec<Vec<usize>>,
    /// Of each function, how many bytes of stack it needs with all that it calls. None where a recursion is reached from it. The greatest `u64` stands for
    /// itself and for all that is more.
    pub each: Vec<Option<u64>>,
}

/// What is known of a function's need.
fn known(needs: &[Option<u64>], k: usize) -> Option<u64>
    ensures { result ≡ known needs.now k }
{
    match needs.get(k) {
        Some(need) => *need,
        None => None,
    }
}

impl StackNeeds {
    /// How many bytes of stack `main` needs; None where a recursion is reached from it, or where there is no `main`.
    pub fn stack(&self) -> Option<u64>
        ensures { result ≡ need_at self.now.main self.now.each.items }
    {
        match self.main {
            Some(main) => known(&self.each, main),
            None => None,
        }
    }
}

/// What the functions need, where `frames` says of each, in the order of the text, how many bytes its frame takes.
fn needs_by(alloc: Global, items: &[Item], frames: &[u64]) -> Result<StackNeeds, AllocError>
    requires { length frames.now ≡ length (functions_of (program_tree items.now)) }
    ensures main { IfOk result (λ needs. needs.main ≡ number_from (functions_of (program_tree items.now)) 0 (codes "main")) }
    ensures calls { let fs = functions_of (program_tree items.now) in IfOk result (λ needs. rows_of needs.calls.items ≡ calls_among fs fs) }
    ensures each { let p = program_tree items.now in
        IfOk result (λ needs. AreNeedsOf (frame_by (functions_of p) frames.now) p needs.each.items) }
    ensures stack { let p = program_tree items.now in
        IfOk result (λ needs. IsStackNeed (frame_by (functions_of p) frames.now) p (need_at needs.main needs.each.items)) }
{
    let functions = Functions::of(alloc, items)?;
    let main = functions.number(b"main");
    let calls = calls_of(alloc, &functions, items)?;
    let each = needs_of(alloc, frames, &calls)?;
    Ok(StackNeeds { main, calls, each })
}

/// What the functions of a program need of the stack, with the frames that their code has.
///
/// `frames` has the bytes of each function's frame, as `frames` of `rv32_select` answers them of the program's Core. A call counts where the text has it,
/// whether
/// or not it is ever made. Takes memory for each call in the text. Fails only where no host memory is left.
pub fn stack_needs(alloc: Global, items: &[Item], frames: &[u64]) -> Result<StackNeeds, AllocError>
    requires { frames.now ≡ map frame_bytes (program_code (program_tree items.now)).functions }
    // which functions there are and call one another
    ensures main { IfOk result (λ needs. needs.main ≡ number_from (functions_of (program_tree items.now)) 0 (codes "main")) }
    ensures calls { let fs = functions_of (program_tree items.now) in IfOk result (λ needs. rows_of needs.calls.items ≡ calls_among fs fs) }
    // each function fits so many bytes and no fewer, or none
    ensures each { let p = program_tree items.now in IfOk result (λ needs. AreNeedsOf (frame_size_of (world_of p)) p needs.each.items) }
    // and so does the program, which begins with `main`
    ensures stack { let p = program_tree items.now in
        IfOk result (λ needs. IsStackNeed (frame_size_of (world_of p)) p (need_at needs.main needs.each.items)) }
{
    let needs = needs_by(alloc, items, frames)?;
    Ok(needs)
}

/// The recursion that is reached from `main`, if one is: the numbers of functions in the order of the text, of which each calls the next. Fails only where
/// no host memory is left.
pub fn recursion_of(alloc: Global, items: &[Item]) -> Result<Option<Recursion>, AllocError>
    ensures found { let p = program_tree items.now in IfOk result (λ found. IfSome found (λ r. IsRecursionOf p r.path.items r.again)) }
    ensures none { let p = program_tree items.now in
        IfOk result (λ found. IfNone found ((path : List ℕ) (again : ℕ) → IsRecursionOf p path again → ⊥)) }
{
    let functions = Functions::of(alloc, items)?;
    let main = match functions.number(b"main") {
        Some(main) => main,
        None => return Ok(None),
    };
    let calls = calls_of(alloc, &functions, items)?;
    let frames = vec![in alloc; 0; calls.len()]?;
    let needs = needs_of(alloc, frames.as_slice(), calls.as_slice())?;
    match known(needs.as_slice(), main) {
        Some(_) => Ok(None),
        None => {
            let recursion = recursion_from(alloc, calls.as_slice(), needs.as_slice(), main)?;
            Ok(Some(recursion))
        }
    }
}
