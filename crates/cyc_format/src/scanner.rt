// Where phrases begin and end, from token to token. A text that is no program is marked too, somehow.

use crate::class::Class;
use crate::mark::{Before, Expects, Frame, Head, Mark, Role, Use, before_parenthesis};
use crate::pieces::{Piece, is_comment};
use crate::spaces::{has_space, wrap};
use std::alloc::{AllocError, Global};

/// What the tokens so far leave open.
#[derive(Drop)]
pub(crate) struct Scanner {
    pub frames: Vec<Frame>,
    pub expects: Expects,
    /// Whether a type is being written.
    pub in_type: bool,
    /// Whether the last token ends an operand.
    pub is_operand: bool,
    /// Whether nothing stands between the last token and the next.
    pub is_tight: bool,
    /// How the last token is used.
    pub used: Use,
    pub before: Class,
    pub before_that: Class,
    /// The last byte of the last token, or 0.
    pub last: u8,
    /// How many parentheses, brackets and the like are open.
    pub nesting: u32,
    is_switch: bool,
    leaves: u32,
}

impl Scanner {
    pub(crate) fn new(alloc: Global) -> Scanner {
        Scanner {
            frames: Vec::new(alloc),
            expects: Expects::Begin,
            in_type: false,
            is_operand: false,
            is_tight: false,
            used: Use::Plain,
            before: Class::Nothing,
            before_that: Class::Nothing,
            last: 0,
            nesting: 0,
            is_switch: false,
            leaves: 0,
        }
    }

    pub(crate) fn top(&self) -> Option<Frame> {
        self.frames.last().copied()
    }

    /// Whether a phrase is open that no statement may stand in.
    pub(crate) fn is_inside(&self) -> bool {
        matches!(
            self.top(),
            Some(Frame::Parenthesis(_) | Frame::Bracket | Frame::Angle | Frame::Inline(_))
        )
    }

    fn push(&mut self, frame: Frame) -> Result<(), AllocError> {
        self.frames.push(frame)?;
        self.nesting = self.nesting.saturating_add(1);
        Ok(())
    }

    fn pop(&mut self) {
        let _frame = self.frames.pop();
        self.nesting = self.nesting.saturating_sub(1);
    }

    /// Whether a region follows this `<`.
    fn opens_angle(&self) -> bool {
        match (self.before_that, self.before) {
            (_, Class::RegionWord | Class::HandleType) | (Class::Tag, Class::Name) => true,
            (_, Class::LeftBrace) => matches!(self.top(), Some(Frame::Inline(_))),
            _ => false,
        }
    }

    /// Whether a brace stands within a phrase.
    fn is_inline(&self, next: Class) -> bool {
        if self.is_inside() || matches!(next, Class::For) {
            return true;
        }
        match self.before {
            Class::Case | Class::NewDynamicRegion | Class::New => true,
            Class::Star | Class::Pointer | Class::Modifier => self.in_type,
            _ => false,
        }
    }

    /// How a token is used.
    fn use_of(&self, class: Class, next: Class, is_operand: bool) -> Use {
        match class {
            Class::Star if self.in_type => Use::Pointer,
            Class::Star | Class::Minus | Class::And if is_operand => Use::Binary,
            Class::Star | Class::Minus | Class::And | Class::Not => Use::Unary,
            Class::Less if self.opens_angle() => Use::AngleOpen,
            Class::Greater if matches!(self.top(), Some(Frame::Angle)) => Use::AngleClose,
            Class::Binary(_) | Class::Less | Class::Greater => Use::Binary,
            Class::Pointer | Class::Modifier => Use::Pointer,
            Class::LeftBrace if self.is_inline(next) => Use::InlineOpen,
            _ => Use::Plain,
        }
    }

    /// What begins or ends at a token.
    fn role_of(&self, class: Class, used: Use) -> Role {
        match (class, used, self.expects) {
            (Class::LeftBrace, Use::Plain, _) => Role::Open,
            (Class::RightBrace, _, _) if !matches!(self.top(), Some(Frame::Inline(_))) =>
                Role::Close,
            (Class::Case | Class::Default, _, Expects::Begin) => Role::Label,
            (Class::Else, _, Expects::Else) => Role::Else,
            (Class::If, _, Expects::Body) if matches!(self.top(), Some(Frame::Body(Head::Else))) =>
                Role::Inside,
            (_, _, Expects::Begin | Expects::Else) => Role::Begin,
            (_, _, Expects::Body) => Role::Body,
            (_, _, Expects::Inside) => Role::Inside,
        }
    }

    /// Marks a comment.
    fn mark_comment(&self, piece: &Piece<'_>, leaves: u32) -> Mark {
        let role = match (self.expects, piece.next) {
            (Expects::Inside, _) => Role::Inside,
            (Expects::Begin, Class::Case | Class::Default) => Role::Label,
            _ => Role::Begin,
        };
        Mark {
            role,
            starts: false,
            enters: false,
            leaves,
            has_space: true,
            wrap: None,
            partner: None,
        }
    }

    /// Marks the next piece, which has this index.
    pub(crate) fn mark(&mut self, index: usize, piece: &Piece<'_>) -> Result<Mark, AllocError> {
        let leaves = self.leaves;
        self.leaves = 0;
        if is_comment(piece.class) {
            return Ok(self.mark_comment(piece, leaves));
        }
        let begins = !matches!(self.expects, Expects::Inside);
        if begins && !matches!(self.expects, Expects::Body) {
            self.in_type = false;
            self.is_switch = false;
        }
        let used = self.use_of(piece.class, piece.next, self.is_operand && !begins);
        let role = self.role_of(piece.class, used);
        let is_label = !self.is_inside();
        let mut mark = Mark {
            role,
            starts: matches!(self.expects, Expects::Begin | Expects::Else),
            enters: matches!(self.expects, Expects::Body),
            leaves,
            has_space: has_space(self, piece, used, is_label),
            wrap: wrap(self),
            partner: None,
        };
        self.expects = Expects::Inside;
        mark.partner = self.enter(index, piece, used, begins)?;
        self.used = used;
        self.before_that = self.before;
        self.before = piece.class;
        self.last = piece.text.last().copied().unwrap_or(0);
        Ok(mark)
    }

    /// Takes a token in. Answers the index of its brace where a block ends.
    fn enter(
        &mut self,
        index: usize,
        piece: &Piece<'_>,
        used: Use,
        begins: bool,
    ) -> Result<Option<usize>, AllocError> {
        let is_label = !self.is_inside();
        self.is_tight = matches!(used, Use::Unary | Use::AngleOpen | Use::InlineOpen)
            || matches!(
                piece.class,
                Class::LeftParenthesis | Class::LeftBracket | Class::Dot
            );
        match (piece.class, used) {
            (Class::LeftBrace, Use::Plain) => self.open_block(index, begins)?,
            (_, Use::InlineOpen) => self.push(Frame::Inline(self.in_type))?,
            (_, Use::AngleOpen) => self.push(Frame::Angle)?,
            (_, Use::AngleClose) => self.pop(),
            (Class::LeftParenthesis, _) => self.push(Frame::Parenthesis(before_parenthesis(
                self.before,
            )))?,
            (Class::LeftBracket, _) => self.push(Frame::Bracket)?,
            (Class::RightParenthesis | Class::RightBracket, _) => return self.close_parenthesis(),
            (Class::RightBrace, _) => return Ok(self.close_brace(piece.next)),
            (Class::Semicolon, _) if is_label => self.end_statement(piece.next),
            (Class::Colon, _) if is_label => self.expects = Expects::Begin,
            (Class::Else, _) => {
                self.frames.push(Frame::Body(Head::Else))?;
                self.expects = Expects::Body;
            }
            _ => {}
        }
        self.follow(piece.class);
        Ok(None)
    }

    /// What a token says of the type or the operand that it stands in.
    fn follow(&mut self, class: Class) {
        match class {
            Class::Base | Class::HandleType | Class::Tag => self.in_type = true,
            Class::Name if !matches!(self.before, Class::Tag) => self.in_type = false,
            Class::Comma if matches!(self.top(), Some(Frame::Angle)) => {}
            Class::LeftParenthesis | Class::Semicolon | Class::Comma => self.in_type = false,
            _ => {}
        }
        self.is_operand = match class {
            Class::Name | Class::Value => true,
            Class::Region => !self.in_type,
            _ => false,
        };
    }

    /// Opens a block, members or clauses.
    fn open_block(&mut self, index: usize, begins: bool) -> Result<(), AllocError> {
        let frame = match self.before {
            Class::RightParenthesis if self.is_switch => Frame::Clauses(index),
            Class::Name | Class::Greater if !begins => Frame::Members(index),
            _ => Frame::Block(index),
        };
        self.frames.push(frame)?;
        self.expects = Expects::Begin;
        Ok(())
    }

    /// Closes a parenthesis or a bracket, if one is open.
    fn close_parenthesis(&mut self) -> Result<Option<usize>, AllocError> {
        self.in_type = false;
        self.is_operand = true;
        let Some(Frame::Parenthesis(before)) = self.top() else {
            if matches!(self.top(), Some(Frame::Bracket)) {
                self.pop();
            }
            return Ok(None);
        };
        self.pop();
        self.is_operand = matches!(before, Before::Other);
        self.is_switch = matches!(before, Before::Switch);
        let head = match before {
            Before::If => Head::If,
            Before::While => Head::While,
            _ => return Ok(None),
        };
        self.frames.push(Frame::Body(head))?;
        self.expects = Expects::Body;
        Ok(None)
    }

    /// Closes a brace. Answers the index of the one that opened the block, if it is a block's.
    fn close_brace(&mut self, next: Class) -> Option<usize> {
        self.is_operand = false;
        if let Some(Frame::Inline(is_bound)) = self.top() {
            self.is_operand = !is_bound;
            self.pop();
            return None;
        }
        for _ in 0..self.frames.len() {
            match self.frames.pop() {
                Some(Frame::Block(index) | Frame::Clauses(index)) => {
                    self.end_statement(next);
                    return Some(index);
                }
                Some(Frame::Members(index)) => return Some(index),
                _ => {}
            }
        }
        self.expects = Expects::Begin;
        None
    }

    /// Ends a statement, and with it the `if`, `else` and `while` that it is the body of.
    fn end_statement(&mut self, next: Class) {
        self.expects = Expects::Begin;
        for _ in 0..self.frames.len() {
            let Some(Frame::Body(head)) = self.top() else {
                return;
            };
            let _frame = self.frames.pop();
            self.leaves = self.leaves.saturating_add(1);
            if let (Head::If, Class::Else) = (head, next) {
                self.expects = Expects::Else;
                return;
            }
        }
    }
}

/// The marks of pieces.
pub(crate) fn marks_of(alloc: Global, pieces: &[Piece<'_>]) -> Result<Vec<Mark>, AllocError> {
    let mut scanner = Scanner::new(alloc);
    let mut marks: Vec<Mark> = Vec::new(alloc);
    for (i, piece) in pieces.iter().enumerate() {
        let mark = scanner.mark(i, piece)?;
        if let Some(open) = mark.partner {
            if let Some(other) = marks.get_mut(open) {
                other.partner = Some(i);
            }
        }
        marks.push(mark)?;
    }
    Ok(marks)
}
