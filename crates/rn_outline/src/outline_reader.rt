// The reader of a file's parts: what is open, and what may come.

use crate::file_parts::{FilePart, FilePartKind, Span};
use crate::outline_fault::TokenFault;
use std::alloc::Global;

/// What may come next.
#[derive(Clone, Copy, PartialEq, Eq)]
pub(crate) enum Mode {
    /// An item, or the end of items.
    Item,
    /// An operand of a pattern.
    Operand,
    /// The operand after a `-`.
    Excepted,
    /// An operator, or the end of a pattern.
    Behind,
    /// Nothing but following annotations.
    Closed,
}

/// What is open.
#[derive(Clone, Copy)]
pub(crate) enum Frame {
    /// The body of a definition.
    Body,
    /// The pattern that is the whole file.
    Whole,
    /// The content of an element, an attribute, `list` or `mixed`.
    Content,
    /// Parentheses, in an except or not.
    Parens {
        in_except: bool,
    },
    /// `div`
    Div,
    /// The overrides of the include that is the part of this index.
    Overrides {
        include: usize,
    },
    /// The nested grammar that is the part of this index, with what the reader knew before it.
    Grammar {
        part: usize,
        outer: usize,
        within: Option<usize>,
        body: Option<usize>,
    },
    /// The grammar that is the whole file.
    Outer,
}

#[derive(Drop)]
pub(crate) struct Reader {
    pub(crate) alloc: Global,
    pub(crate) parts: Vec<FilePart>,
    pub(crate) frames: Vec<Frame>,
    pub(crate) mode: Mode,
    /// The index of the grammar that is read; 0 is the file's own.
    pub(crate) grammar: usize,
    /// How many grammars there are so far.
    pub(crate) grammars: usize,
    /// The include of which overrides are read, as a part.
    pub(crate) within: Option<usize>,
    /// The definition of which the body is read, as a part.
    pub(crate) body: Option<usize>,
}

impl Reader {
    pub(crate) fn new(alloc: Global) -> Self {
        Reader {
            alloc,
            parts: Vec::new(alloc),
            frames: Vec::new(alloc),
            mode: Mode::Item,
            grammar: 0,
            grammars: 1,
            within: None,
            body: None,
        }
    }

    pub(crate) fn top(&self) -> Option<Frame> {
        self.frames.last().copied()
    }

    /// Whether an operand here is excepted from data.
    pub(crate) fn is_in_except(&self) -> bool {
        match self.top() {
            Some(Frame::Parens { in_except: true }) => true,
            _ => self.mode == Mode::Excepted,
        }
    }

    /// Opens a frame.
    pub(crate) fn open(&mut self, frame: Frame, mode: Mode) -> Result<(), TokenFault> {
        self.frames.push(frame)?;
        self.mode = mode;
        Ok(())
    }

    /// Notes a part of the grammar that is read.
    pub(crate) fn note(&mut self, at: Span, kind: FilePartKind) -> Result<(), TokenFault> {
        let part = FilePart {
            at,
            grammar: self.grammar,
            in_except: self.is_in_except(),
            kind,
        };
        self.parts.push(part)?;
        Ok(())
    }

    /// Notes that the body that is read holds what may not be excepted from data (7.1.4).
    pub(crate) fn note_no_data(&mut self) {
        let Some(number) = self.body else {
            return;
        };
        if let Some(part) = self.parts.get_mut(number) {
            mark_no_data(&mut part.kind);
        }
    }

    /// Begins a body of the definition that was noted last.
    pub(crate) fn begin_body(&mut self, frame: Frame) -> Result<(), TokenFault> {
        self.body = self.parts.len().checked_sub(1);
        self.open(frame, Mode::Operand)
    }

    /// Ends the body that is read, at a byte.
    pub(crate) fn end_body(&mut self, end: usize) {
        let _ = self.frames.pop();
        self.mode = Mode::Item;
        let number = self.body.take();
        if let Some(number) = number {
            self.end_part(number, end);
        }
    }

    /// Ends a part at a byte.
    pub(crate) fn end_part(&mut self, number: usize, end: usize) {
        if let Some(part) = self.parts.get_mut(number) {
            part.at.to = end;
            end_inside(&mut part.kind, end);
        }
    }
}

fn mark_no_data(kind: &mut FilePartKind) {
    match kind {
        FilePartKind::Define { only_data, .. } | FilePartKind::Start { only_data, .. } => {
            *only_data = false;
        }
        _ => {}
    }
}

/// Ends what is inside a part at a byte; what is inside a grammar ends before its brace.
fn end_inside(kind: &mut FilePartKind, end: usize) {
    match kind {
        FilePartKind::Define { body, .. } | FilePartKind::Start { body, .. } => body.to = end,
        FilePartKind::Grammar { inside, .. } => inside.to = end.saturating_sub(1),
        _ => {}
    }
}
