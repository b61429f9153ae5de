// From marked pieces to lines.

use crate::class::Class;
use crate::lines::{DEEPEST, Lines};
use crate::mark::{Mark, Role};
use crate::measure::Measure;
use crate::pieces::{Piece, is_comment};
use std::alloc::{AllocError, Global};

/// A line has no more columns where it can be broken, but for a comment at its end.
pub(crate) const WIDTH: usize = 100;

/// A block is indented so far.
const STEP: usize = 4;

/// What goes on in a further line of a phrase is indented so far.
const FURTHER: usize = 8;

/// How a block is laid out.
#[derive(Clone, Copy)]
enum Shape {
    /// In one line, as it was.
    Flat,
    /// In lines as they were.
    Lines,
    /// With each statement in a line of its own: it was in one line, which is too long.
    Exploded,
}

/// What was written last.
#[derive(Clone, Copy)]
enum Last {
    Nothing,
    /// The brace that opens a block which isn't flat; whether something stands in the block.
    Open(bool),
    /// The brace that closes such a block.
    Close,
    LineComment,
    Other,
}

/// The pieces of a text, with what is known of each.
#[derive(Clone, Copy)]
pub(crate) struct Pieces<'a, 'b> {
    pub pieces: &'b [Piece<'a>],
    pub marks: &'b [Mark],
    pub measures: &'b [Measure],
}

impl Pieces<'_, '_> {
    /// The columns of the pieces before an index, in one line.
    fn columns_before(&self, index: usize) -> usize {
        match (
            self.measures.get(index),
            self.measures.last(),
            self.pieces.last(),
        ) {
            (Some(measure), _, _) => measure.columns,
            (None, Some(last), Some(piece)) => last
                .columns
                .saturating_add(piece.text.len())
                .saturating_add(1),
            _ => 0,
        }
    }

    /// The columns of the pieces from one index to another, with the space before the first.
    fn columns(&self, from: usize, end: usize) -> usize {
        self.columns_before(end)
            .saturating_sub(self.columns_before(from))
    }

    /// The columns of the space before a piece.
    fn space(&self, index: usize) -> usize {
        match self.marks.get(index) {
            Some(mark) => usize::from(mark.has_space),
            None => 0,
        }
    }

    /// The index behind the phrase of a piece.
    fn end(&self, index: usize) -> usize {
        match self.measures.get(index) {
            Some(measure) => measure.end,
            None => index,
        }
    }

    /// Whether the pieces after one index up to another one stand in one line of the text.
    fn is_one_line(&self, open: usize, close: usize) -> bool {
        match (self.measures.get(open), self.measures.get(close)) {
            (Some(first), Some(last)) => first.lines == last.lines,
            _ => false,
        }
    }

    /// The columns of a block in one line, from behind its brace on, and of the `;` that ends members.
    fn block_columns(&self, open: usize, close: usize) -> usize {
        let columns = self.columns(open.saturating_add(1), close.saturating_add(1));
        match self.marks.get(close.saturating_add(1)) {
            Some(mark) if matches!(mark.role, Role::Inside) && !mark.has_space =>
                columns.saturating_add(1),
            _ => columns,
        }
    }

    /// How deep it is to break a line before a piece, if that is allowed: after `=` only where the rest of the phrase fits into a line from this column on.
    fn depth(&self, index: usize, end: usize, further: usize) -> Option<u32> {
        let depth = self.marks.get(index)?.wrap?;
        let columns = self.columns(index, end).saturating_sub(self.space(index));
        if depth % 16 == 1 && further.saturating_add(columns) > WIDTH {
            None
        } else {
            Some(depth)
        }
    }

    /// Where a line is broken that begins with a piece at a column, where the next line begins at another: at the least deep place, the last of such.
    fn break_after(&self, index: usize, column: usize, further: usize) -> Option<usize> {
        let end = self.end(index);
        let begin = self.columns_before(index).saturating_add(self.space(index));
        let room = WIDTH.saturating_sub(column).saturating_add(begin);
        if self.columns_before(end) <= room {
            return None;
        }
        let mut best = None;
        let mut least = u32::MAX;
        for i in index.saturating_add(1)..end {
            let is_past = self.columns_before(i) > room;
            if is_past && best.is_some() {
                return best;
            }
            if let Some(depth) = self.depth(i, end, further) {
                if is_past {
                    return Some(i);
                }
                if depth <= least {
                    best = Some(i);
                    least = depth;
                }
            }
        }
        best
    }
}

/// Writes the lines of a text, from piece to piece.
#[derive(Drop)]
pub(crate) struct Printer<'a, 'b> {
    given: Pieces<'a, 'b>,
    lines: Lines<'a>,
    /// The column at which a statement begins here.
    level: usize,
    /// The columns outside of the blocks and bodies that are open.
    levels: Vec<usize>,
    blocks: Vec<Shape>,
    /// Before which piece the line is broken.
    break_at: Option<usize>,
    last: Last,
}

impl<'a, 'b> Printer<'a, 'b> {
    pub(crate) fn new(alloc: Global, given: Pieces<'a, 'b>) -> Printer<'a, 'b> {
        Printer {
            given,
            lines: Lines::new(alloc),
            level: 0,
            levels: Vec::new(alloc),
            blocks: Vec::new(alloc),
            break_at: None,
            last: Last::Nothing,
        }
    }

    /// The shape of the block that is written.
    fn shape(&self) -> Shape {
        self.blocks.last().copied().unwrap_or(Shape::Lines)
    }

    fn leave(&mut self) {
        self.level = self.levels.pop().unwrap_or(0);
    }

    /// Whether a piece fits into the line with all of its phrase.
    fn fits(&self, index: usize) -> bool {
        let columns = self.given.columns(index, self.given.end(index));
        self.lines.column.saturating_add(columns) <= WIDTH
    }

    /// Whether a statement that begins with a piece goes into a new line.
    fn wants_line(&self, index: usize, piece: &Piece<'_>, role: Role) -> bool {
        match (self.last, piece.class, role) {
            (Last::Nothing | Last::LineComment, _, _) => return true,
            (_, Class::LineComment, _) => return piece.lines > 0,
            (Last::Open(is_full), _, _) => return is_full,
            (Last::Close, _, _) => return !matches!(role, Role::Else),
            _ => {}
        }
        match (self.shape(), role) {
            (Shape::Flat, _) => return false,
            (Shape::Exploded, Role::Begin | Role::Label | Role::Open) if !is_comment(piece.class) =>
                return true,
            _ => {}
        }
        piece.lines > 0 || !self.fits(index)
    }

    /// The column at which a piece begins a new line, if it does.
    fn start_of(&mut self, index: usize, piece: &Piece<'_>, mark: &Mark) -> Option<usize> {
        match mark.role {
            Role::Inside => {
                let breaks = matches!(self.break_at, Some(at) if at == index);
                let is_apart = is_comment(piece.class) && piece.lines > 0;
                let wants = breaks || is_apart || matches!(self.last, Last::LineComment);
                wants.then_some(self.level.saturating_add(FURTHER))
            }
            Role::Close => self.end_of_block(index, mark),
            Role::Open if !mark.starts => {
                let wants = matches!(
                    self.last,
                    Last::Nothing | Last::LineComment | Last::Open(true)
                );
                wants.then_some(self.level)
            }
            _ => {
                let wants = self.wants_line(index, piece, mark.role);
                if wants && matches!(mark.role, Role::Body) {
                    self.level = self.level.saturating_add(STEP);
                }
                let is_label = matches!(mark.role, Role::Label) && !self.blocks.is_empty();
                let back = if is_label { STEP } else { 0 };
                wants.then_some(self.level.saturating_sub(back))
            }
        }
    }

    /// The column of the brace that ends a block, if it begins a new line.
    fn end_of_block(&mut self, index: usize, mark: &Mark) -> Option<usize> {
        let shape = self.blocks.pop().unwrap_or(Shape::Lines);
        self.leave();
        let is_flat = matches!(shape, Shape::Flat);
        self.last = if is_flat { Last::Other } else { Last::Close };
        (!is_flat && !is_empty(index, mark)).then_some(self.level)
    }

    /// Opens a block with the brace that was written.
    fn open(&mut self, index: usize, mark: &Mark) -> Result<(), AllocError> {
        let shape = match (self.shape(), mark.partner) {
            (Shape::Flat, _) => Shape::Flat,
            (_, Some(close)) if self.given.is_one_line(index, close) => {
                let columns = self.given.block_columns(index, close);
                if self.lines.column.saturating_add(columns) <= WIDTH {
                    Shape::Flat
                } else {
                    Shape::Exploded
                }
            }
            _ => Shape::Lines,
        };
        self.blocks.push(shape)?;
        self.levels.push(self.level)?;
        if !matches!(shape, Shape::Flat) {
            self.level = self.level.saturating_add(STEP);
            let is_empty = matches!(mark.partner, Some(close) if close == index.saturating_add(1));
            self.last = Last::Open(!is_empty);
        }
        Ok(())
    }

    /// Writes a piece into the line.
    fn go_on(&mut self, index: usize, piece: &Piece<'a>, mark: &Mark) -> Result<(), AllocError> {
        if matches!(piece.class, Class::LineComment) {
            return self.lines.end_with(piece.text);
        }
        if !matches!(mark.role, Role::Inside) {
            self.break_at = None;
        }
        if mark.has_space && !is_empty(index, mark) {
            self.lines.space()?;
        }
        self.lines.write(piece.text)
    }

    /// Writes the next piece, which has this index.
    fn put(&mut self, index: usize, piece: &Piece<'a>, mark: &Mark) -> Result<(), AllocError> {
        for _ in 0..mark.leaves {
            self.leave();
        }
        if mark.enters {
            self.levels.push(self.level)?;
        }
        let was = self.last;
        match self.start_of(index, piece, mark) {
            Some(column) => {
                let is_first = matches!(was, Last::Nothing | Last::Open(_));
                let is_apart = piece.lines > 1
                    && !is_first
                    && !matches!(mark.role, Role::Inside | Role::Close);
                self.lines.begin(column, is_apart)?;
                let further = self.level.saturating_add(FURTHER).min(DEEPEST);
                self.break_at = self.given.break_after(index, self.lines.column, further);
                self.lines.write(piece.text)?;
            }
            None => self.go_on(index, piece, mark)?,
        }
        match (mark.role, piece.class) {
            (Role::Close, _) => Ok(()),
            (_, Class::LineComment) => {
                self.last = Last::LineComment;
                Ok(())
            }
            (Role::Open, _) => {
                self.last = Last::Other;
                self.open(index, mark)
            }
            _ => {
                self.last = Last::Other;
                Ok(())
            }
        }
    }
}

/// Whether a brace ends a block that has nothing in it.
fn is_empty(index: usize, mark: &Mark) -> bool {
    match (mark.role, mark.partner) {
        (Role::Close, Some(open)) => open.saturating_add(1) == index,
        _ => false,
    }
}

/// The text that these pieces make, in lines.
pub(crate) fn printed(alloc: Global, given: Pieces<'_, '_>) -> Result<Vec<u8>, AllocError> {
    let mut printer = Printer::new(alloc, given);
    for (i, (piece, mark)) in given.pieces.iter().zip(given.marks.iter()).enumerate() {
        printer.put(i, piece, mark)?;
    }
    printer.lines.whole(alloc, WIDTH)
}
