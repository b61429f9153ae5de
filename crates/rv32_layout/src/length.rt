// How long the code of lines is.

ghost use Rattle.std.specs.Prelude.{◌≡◌, ◌≤◌, ◌<◌, ◌↔◌, None, IfSome};
ghost use Rattle.cyc_image.specs.Format.{code_limit};
ghost use Rattle.core_lines.specs.Lines.{size_of, code_length};

use core_lines::Line;
use cyc_image::CODE_LIMIT;

/// How many bytes a line takes.
pub(crate) fn size(line: Line) -> u32
    ensures { result ≡ size_of line }
{
    match line {
        Line::Plain(_) => 4,
        Line::Label(_) => 0,
        Line::Jump(_) => 4,
        Line::JumpUnless(_, _) => 8,
        Line::BranchUnless(_, _) => 4,
        Line::CallTo(_) => 4,
    }
}

/// The length of the lines' code in bytes, or `None` where it is over the limit.
pub(crate) fn length(lines: &[Line]) -> Option<u32>
    ensures length { IfSome result (λ n. n ≡ code_length lines.now) }
    ensures within { IfSome result (λ n. n ≤ code_limit) }
    ensures over { (result ≡ None) ↔ (code_limit < code_length lines.now) }
{
    let mut length = 0;
    'each: for line in lines {
        length += size(*line);
        if length as usize > CODE_LIMIT {
            return None;
        }
    }
    Some(length)
}
