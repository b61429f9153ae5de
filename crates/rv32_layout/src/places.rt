// Where labels stand.

ghost use Rattle.std.specs.Prelude.{◌≡◌, ℕ, ◌+◌, ◌≤◌, List, ◌∷◌, nat_eq, if◌then◌else◌, unwrap_or, IfOk, OnOk};
ghost use Rattle.indexmap.specs.IndexMap.{get};
ghost use Rattle.core_lines.specs.declared.line.Line.{Line};
ghost use Rattle.cyc_image.specs.Format.{code_limit};
ghost use Rattle.core_lines.specs.Lines.{size_of, code_length};
ghost use Rattle.core_lines.specs.Relaxed.{place_of};
ghost use Rattle.rv32_layout.specs.Placing.{place_in};

use crate::length::size;
use core_lines::Line;
use indexmap::IndexMap;
use std::alloc::{AllocError, Global};

/// The places of labels, in bytes from the first line on.
#[derive(Drop)]
pub(crate) struct Places {
    /// The labels that a line places.
    by_label: IndexMap<usize, u32>,
    /// Where every other label stands: behind all lines.
    end: u32,
}

impl Places {
    /// Where the label stands.
    pub(crate) fn of(&self, label: usize) -> u32
        ensures { result ≡ place_in self.now label }
    {
        match self.by_label.get(&label) {
            Some(place) => *place,
            None => self.end,
        }
    }
}

/// Notes that the label stands here, unless an earlier line placed it.
fn note(by_label: &mut IndexMap<usize, u32>, label: usize, at: u32) -> Result<(), AllocError>
    ensures { OnOk result ((other default : ℕ) → unwrap_or (get nat_eq by_label.new other) default
        ≡ unwrap_or (get nat_eq by_label.old other) (if nat_eq label other then at else default)) }
{
    if !by_label.contains_key(&label) {
        by_label.insert(label, at)?;
    }
    Ok(())
}

/// Notes what the line places, where it begins.
fn note_line(by_label: &mut IndexMap<usize, u32>, line: Line, at: u32) -> Result<(), AllocError>
    ensures { OnOk result ((lines : List Line) (label : ℕ) → unwrap_or (get nat_eq by_label.new label) (at + size_of line + place_of lines label)
        ≡ unwrap_or (get nat_eq by_label.old label) (at + place_of (line ∷ lines) label)) }
{
    if let Line::Label(label) = line {
        note(by_label, label, at)?;
    }
    Ok(())
}

/// The places of all labels.
pub(crate) fn find_places(alloc: Global, lines: &[Line]) -> Result<Places, AllocError>
    requires { code_length lines.now ≤ code_limit }
    ensures { IfOk result (λ places. (label : ℕ) → place_in places label ≡ place_of lines.now label) }
{
    let mut by_label = IndexMap::new(alloc);
    let mut at = 0;
    'each: for line in lines {
        note_line(&mut by_label, *line, at)?;
        at += size(*line);
    }
    Ok(Places { by_label, end: at })
}
