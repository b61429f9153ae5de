// What stands between the ways of a choice and behind them.

ghost use Rattle.std.specs.Prelude.{◌≡◌, ◌++◌, [], ◌∷◌, OnOk};
ghost use Rattle.cyc_core.specs.Trees.{body_tree};
ghost use Rattle.core_lines.specs.declared.line.Line.TheVariants.{Label};
ghost use Rattle.core_lines.specs.Choosing.{jump_code, between_code, behind_code};

use crate::emit::put_lines;
use core_lines::Line;
use cyc_core::Statement;
use std::alloc::AllocError;

/// Appends a jump, where code is reached, and a label.
fn put_over(
    lines: &mut Vec<Line>,
    reached: bool,
    behind: usize,
    next: usize,
) -> Result<(), AllocError>
    ensures { OnOk result (lines.new.items ≡ lines.old.items ++ (jump_code reached behind ++ Label next ∷ [])) }
{
    if reached {
        put_lines(lines, &[Line::Jump(behind), Line::Label(next)])
    } else {
        put_lines(lines, &[Line::Label(next)])
    }
}

/// Appends what stands between the ways of a choice, of which the first may be able to complete.
pub fn put_between(
    lines: &mut Vec<Line>,
    completes: bool,
    those: &[Statement],
    behind: usize,
    next: usize,
) -> Result<(), AllocError>
    ensures { OnOk result (lines.new.items ≡ lines.old.items ++ between_code completes (body_tree those.now) behind next) }
{
    if those.is_empty() {
        put_lines(lines, &[Line::Label(next)])
    } else {
        put_over(lines, completes, behind, next)
    }
}

/// Appends the label behind both ways of a choice, if there is a second one.
pub fn put_behind(
    lines: &mut Vec<Line>,
    those: &[Statement],
    behind: usize,
) -> Result<(), AllocError>
    ensures { OnOk result (lines.new.items ≡ lines.old.items ++ behind_code (body_tree those.now) behind) }
{
    if those.is_empty() {
        Ok(())
    } else {
        put_lines(lines, &[Line::Label(behind)])
    }
}
