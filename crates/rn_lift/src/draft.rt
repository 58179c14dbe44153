// The text of a module while it is made, with the origin of each byte.
ghost use Rattle.std.specs.Prelude.{◌≡◌, ◌≤◌, ◌++◌, [], slice_range, OnOk, Some, string_bytes};
ghost use Rattle.rn_lift.specs.Edits.{AreInTurn, edited_bytes};

use crate::edits::Edit;
use crate::lifted::{Basis, LiftedModule, Piece};
use rn_outline::Span;
use rn_scopes::{LiftFault, LiftFaultKind};
use std::alloc::{AllocError, Global};

/// The text of a module so far, made of the bytes of one file's text and of what is made for places
/// of it.
#[derive(Drop)]
pub(crate) struct Draft<'a> {
    source: &'a str,
    file: usize,
    text: String,
    pieces: Vec<Piece>,
}

impl<'a> Draft<'a> {
    pub(crate) fn new(alloc: Global, file: usize, source: &'a str) -> Self
        ensures empty { string_bytes result.text ≡ [] }
        ensures source { result.source.now ≡ source.now }
    {
        Draft {
            source,
            file,
            text: String::new(alloc),
            pieces: Vec::new(alloc),
        }
    }

    fn push(&mut self, text: &str, at: usize, is_source: bool) -> Result<(), AllocError>
        ensures text { OnOk result (string_bytes self.new.text
            ≡ string_bytes self.old.text ++ text.now) }
        ensures source { self.new.source ≡ self.old.source }
    {
        if text.is_empty() {
            return Ok(());
        }
        let piece = Piece {
            from: self.text.as_str().len(),
            file: self.file,
            at,
            is_source,
        };
        self.pieces.push(piece)?;
        self.text.push_str(text)?;
        Ok(())
    }

    fn fault(&self, at: usize) -> LiftFault {
        LiftFault {
            file: self.file,
            at,
            kind: LiftFaultKind::Outline,
        }
    }

    /// Appends bytes of the file's text.
    pub(crate) fn copy(&mut self, from: usize, to: usize) -> Result<(), LiftFault>
        ensures text { OnOk result (string_bytes self.new.text
            ≡ string_bytes self.old.text ++ slice_range self.old.source.now from to) }
        ensures inside { OnOk result (from ≤ to) }
        ensures source { self.new.source ≡ self.old.source }
    {
        match self.source.get(from..to) {
            Some(text) => Ok(self.push(text, from, true)?),
            None => Err(self.fault(from)),
        }
    }

    /// Appends what is made for a place of the file.
    pub(crate) fn make(&mut self, text: &str, at: usize) -> Result<(), AllocError>
        ensures text { OnOk result (string_bytes self.new.text
            ≡ string_bytes self.old.text ++ text.now) }
        ensures source { self.new.source ≡ self.old.source }
    {
        self.push(text, at, false)
    }

    /// Appends the bytes up to what is replaced, and what replaces it.
    fn replace(&mut self, edit: &Edit, from: usize) -> Result<(), LiftFault>
        ensures text { OnOk result (string_bytes self.new.text ≡ string_bytes self.old.text
            ++ (slice_range self.old.source.now from edit.now.span.from
            ++ string_bytes edit.now.text)) }
        ensures before { OnOk result (from ≤ edit.now.span.from) }
        ensures inside { OnOk result (edit.now.span.from ≤ edit.now.span.to) }
        ensures source { self.new.source ≡ self.old.source }
    {
        let Span {
            from: begin,
            to: end,
        } = edit.span;
        if end < begin {
            return Err(self.fault(begin));
        }
        self.copy(from, begin)?;
        Ok(self.make(edit.text.as_str(), begin)?)
    }

    /// Appends the bytes of the file's text from one up to, and without, another, with these texts in
    /// the place of what they replace.
    pub(crate) fn apply(&mut self, edits: &[Edit], from: usize, to: usize) -> Result<(), LiftFault>
        ensures text { OnOk result (string_bytes self.new.text ≡ string_bytes self.old.text
            ++ edited_bytes self.old.source.now from to edits.now) }
        ensures in_turn { OnOk result (AreInTurn from to edits.now) }
    {
        let mut at = from;
        let mut rest = edits;
        'edits: while let Some((edit, behind)) = rest.split_first() {
            self.replace(edit, at)?;
            at = edit.span.to;
            rest = behind;
        }
        self.copy(at, to)
    }

    pub(crate) fn finish(self, name: String, basis: Basis) -> LiftedModule
        ensures name { result.name ≡ name }
        ensures text { result.text ≡ self.entry.text }
        ensures basis { result.basis ≡ Some basis }
    {
        let Draft { text, pieces, .. } = self;
        LiftedModule {
            name,
            text,
            pieces,
            basis: Some(basis),
        }
    }
}
