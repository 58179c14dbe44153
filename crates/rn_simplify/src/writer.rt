// A text that is written piece by piece, up to a limit.
ghost use Rattle.std.specs.Prelude.{◌≡◌, ◌∷◌, [], None, chars, decimal, false, if◌then◌else◌, string_bytes, IfErr, IfOk};
ghost use Rattle.rn_text.specs.Characters.{is_keyword};
ghost use Rattle.rn_text.specs.Literals.{literal_bytes};
ghost use Rattle.rn_simplify.specs.inside.Writes.{IsHindrance, WritesBytes, opening, closing, none, stop_behind};

use rn_assemble::Refusal;
use rn_modset::MAX_TEXT;
use rn_syntax::MAX_OPEN;
use rn_text::{is_keyword, write_literal};
use std::alloc::Global;

/// Why no more is written.
#[derive(Clone, Copy, PartialEq, Eq)]
pub(crate) enum Stop {
    /// The text would have more than [`MAX_TEXT`] bytes, so it could not be a module.
    TooLarge,
    Memory,
}

/// A text, and the brackets that are open at its end. Once it is stopped nothing more is written.
#[derive(Drop)]
pub(crate) struct Writer {
    pub(crate) text: String,
    pub(crate) depth: usize,
    /// More than [`MAX_OPEN`] brackets were open at once, so no module could have the text.
    pub(crate) too_deep: bool,
    pub(crate) stopped: Option<Stop>,
}

impl Writer {
    pub(crate) fn new(alloc: Global) -> Writer
        ensures text { string_bytes result.text ≡ [] }
        ensures outside { result.depth ≡ 0 }
        ensures shallow { result.too_deep ≡ false }
        ensures goes { result.stopped ≡ None }
    {
        Writer {
            text: String::new(alloc),
            depth: 0,
            too_deep: false,
            stopped: None,
        }
    }

    /// The text, or why there is none.
    pub(crate) fn finish(self) -> Result<String, Refusal>
        ensures ok { IfOk result (λ text. (self.stopped ≡ None) × (self.too_deep ≡ false)
            × (text ≡ self.text)) }
        ensures err { IfErr result (IsHindrance self) }
    {
        match self.stopped {
            Some(Stop::Memory) => Err(Refusal::Memory),
            Some(Stop::TooLarge) => Err(Refusal::OutputTooLarge),
            None if self.too_deep => Err(Refusal::OutputTooDeep),
            None => Ok(self.text),
        }
    }

    /// Stops if there was no memory for what was to be appended, or if the text has become too large.
    #[inline(always)]
    fn note_append(&mut self, appended: bool)
        ensures { self.new ≡ record self.old { stopped = stop_behind appended self.old } }
    {
        if !appended {
            self.stopped = Some(Stop::Memory);
        } else if self.text.len() > MAX_TEXT {
            self.stopped = Some(Stop::TooLarge);
        }
    }

    /// Appends pieces that are no brackets.
    #[inline(always)]
    pub(crate) fn put(&mut self, pieces: &str)
        ensures { WritesBytes pieces.now none self.old self.new }
    {
        if self.stopped.is_none() {
            let appended = self.text.push_str(pieces).is_ok();
            self.note_append(appended);
        }
    }

    /// Appends an opening bracket, with the spaces round it.
    #[inline(always)]
    pub(crate) fn open_bracket(&mut self, bracket: &str)
        ensures { WritesBytes bracket.now opening self.old self.new }
    {
        self.put(bracket);
        if self.depth < MAX_OPEN {
            self.depth += 1;
        } else {
            self.too_deep = true;
        }
    }

    /// Appends a closing bracket, with the spaces round it.
    #[inline(always)]
    pub(crate) fn close_bracket(&mut self, bracket: &str)
        ensures { WritesBytes bracket.now closing self.old self.new }
    {
        self.put(bracket);
        self.depth = self.depth.saturating_sub(1);
    }

    /// Appends the literal of a text.
    pub(crate) fn put_literal(&mut self, text: &str)
        ensures { WritesBytes (literal_bytes text.now) none self.old self.new }
    {
        if self.stopped.is_none() {
            let appended = write_literal(&mut self.text, text).is_ok();
            self.note_append(appended);
        }
    }

    /// Appends a definition's name, after a backslash if it is a keyword.
    #[inline(always)]
    pub(crate) fn put_identifier(&mut self, name: &str)
        ensures { WritesBytes (if is_keyword (chars name.now) then 92 ∷ name.now else name.now) none
            self.old self.new }
    {
        if is_keyword(name) {
            self.put("\\");
        }
        self.put(name);
    }

    /// Appends a number in decimal digits.
    pub(crate) fn put_number(&mut self, number: usize)
        ensures { WritesBytes (decimal number) none self.old self.new }
    {
        if self.stopped.is_none() {
            let appended = write!(self.text, "{number}").is_ok();
            self.note_append(appended);
        }
    }
}
