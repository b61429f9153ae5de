// Lines with labels whose first jump stays within them, and of which none is a branch alone; and the homes of the functions that they are of.

ghost use Rattle.std.specs.Prelude.{◌≡◌, ◌&&◌, IfSome, IfNone, true, false, [], slice_index_or};
ghost use Rattle.rv32_select.specs.Beginning.{first_target, leads_to_code, begins_within, are_long};

use crate::starts::Start;
use core_lines::Line;
use std::marker::Model;

/// Code with labels: where its first instruction is a jump or a call, an instruction stands behind the label that it goes to. Which of
/// its conditional jumps are branches alone isn't chosen yet: none is.
/// A contract sees it as the list of its lines, and of its functions' homes.
#[derive(Drop)]
pub struct Labelled {
    pub(crate) lines: Vec<Line>,
    /// Of each function, the numbers of its locals' homes, in its order.
    pub(crate) homes: Vec<Vec<u8>>,
    /// Where in the lines statements of the source begin, in the order of the lines. No promise rests on it.
    pub(crate) starts: Vec<Start>,
}

impl Model for Labelled {
    ghost use Rattle.std.specs.Prelude.{◌≡◌, map, true};
    ghost use Rattle.rv32_select.specs.Beginning.{begins_within, are_long};
    ghost use Rattle.rv32_select.specs.Listing.{Listing};

    ghost Value = { Listing };

    ghost view = { λ l. record { lines = l.lines.items; homes = map (λ numbers. numbers.items) l.homes.items } };

    ghost invariant = { λ l. (begins_within l.lines.items ≡ true) × (are_long l.lines.items ≡ true) };
}

impl Labelled {
    /// Code of these lines, or `None` where the first instruction is a jump or a call to a label with no instruction behind it, or a line
    /// is a branch alone. They are of no function.
    pub fn new(lines: Vec<Line>) -> Option<Self>
        ensures some { IfSome result (λ labelled. (labelled ≡ record { lines = lines.items; homes = [] })
            × (begins_within lines.items ≡ true) × (are_long lines.items ≡ true)) }
        ensures none { IfNone result ((begins_within lines.items && are_long lines.items) ≡ false) }
    {
        if begins_within(&lines) && are_long(&lines) {
            let homes = Vec::new(*lines.allocator());
            let starts = Vec::new(*lines.allocator());
            Some(Labelled {
                lines,
                homes,
                starts,
            })
        } else {
            None
        }
    }

    /// The lines.
    pub fn lines(&self) -> &[Line]
        ensures same { result.now ≡ self.now.lines }
        ensures begins { begins_within self.now.lines ≡ true }
        ensures long { are_long self.now.lines ≡ true }
    {
        &self.lines
    }

    /// Where in the lines the statements of the source, raises and calls begin, each line once and in order, with where they stand in the text. What stands
    /// behind a line goes on to the next one.
    pub fn starts(&self) -> &[Start] {
        &self.starts
    }

    /// Where the locals of a function live, which is counted from 0 in the order of the text: the number of each one's register, or 0 for
    /// one that has no home. They come as the text declares them: the parameters, and then each local, the name of a clause among them.
    /// None for a function that there isn't.
    pub fn homes(&self, function: usize) -> &[u8]
        ensures { result.now ≡ slice_index_or self.now.homes function [] }
    {
        match self.homes.get(function) {
            Some(homes) => homes,
            None => &[],
        }
    }
}

/// The label to which the first instruction goes, where it is a jump or a call.
fn first_target(lines: &[Line]) -> Option<usize>
    ensures { result ≡ first_target lines.now }
{
    'each: for line in lines {
        match line {
            Line::Label(_) => {}
            Line::Jump(label) | Line::CallTo(label) => return Some(*label),
            Line::Plain(_) | Line::JumpUnless(_, _) | Line::BranchUnless(_, _) => return None,
        }
    }
    None
}

/// Whether a line places the label, and an instruction stands behind the first that does.
fn leads_to_code(lines: &[Line], label: usize) -> bool
    ensures { result ≡ leads_to_code label lines.now }
{
    let mut placed = false;
    'each: for line in lines {
        match line {
            Line::Label(here) => placed = placed || *here == label,
            _ => {
                if placed {
                    return true;
                }
            }
        }
    }
    false
}

/// Whether the first instruction, where it is a jump or a call, goes to another one.
fn begins_within(lines: &[Line]) -> bool
    ensures { result ≡ begins_within lines.now }
{
    match first_target(lines) {
        Some(label) => leads_to_code(lines, label),
        None => true,
    }
}

/// Whether no conditional jump is a branch alone.
fn are_long(lines: &[Line]) -> bool
    ensures { result ≡ are_long lines.now }
{
    'each: for line in lines {
        if let Line::BranchUnless(_, _) = line {
            return false;
        }
    }
    true
}
