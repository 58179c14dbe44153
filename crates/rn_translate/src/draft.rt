// The compact text while it is made, with the place that each piece was made for.
ghost use Rattle.std.specs.Prelude.{◌≡◌, ◌+◌, ◌<◌, ◌≤◌, ◌++◌, [], List, true, false, IsTrue, OnOk, length, string_bytes, vec_len};
ghost use Rattle.std.specs.Str.{chars};
ghost use Rattle.std.specs.String.{string_len};
ghost use Rattle.rn_text.specs.Parts.{ends_token};
ghost use Rattle.rn_text.specs.Tokens.{has_mark};
ghost use Rattle.rn_translate.specs.Cuts.{HasParts, gap, needs_gap};
ghost use Rattle.rn_translate.specs.Limits.{max_text};
ghost use Rattle.rn_translate.specs.Origins.{AreRising, AreRising-prop, BeginsWithText, BeginsWithText-prop};

use crate::rng_fault::{RngFault, RngFaultKind};
use crate::signs::Sign;
use rn_text::characters::split_first;
use std::alloc::Global;

/// The most bytes of a compact text: those of a module's text.
pub const MAX_TEXT: usize = 4_194_304;

/// Where a piece of a compact text comes from: what begins at its byte `from`, up to the next piece, was made for byte
/// `at` of the document's text.
#[derive(Clone, Copy, Debug, PartialEq, Eq)]
pub struct Origin {
    /// The first byte of the piece in the compact text.
    pub from: usize,
    /// The byte of the document's text.
    pub at: usize,
}

/// Whether a text begins with the character of a byte order mark.
fn begins_with_mark(text: &str) -> bool
    ensures { result ≡ has_mark (chars text.now) }
{
    matches!(split_first(text), Some(('\u{FEFF}', _)))
}

/// A compact text so far: white space and whole tokens.
#[derive(Drop)]
pub(crate) struct Draft {
    pub text: String,
    pub origins: Vec<Origin>,
    /// How many bytes the document's text has.
    pub source_len: usize,
    /// The first byte with which a further piece may begin.
    next: usize,
    /// Whether the text ends with a word, which a further character may lengthen. Where it does, white space, a bracket,
    /// a comma or a sign of repetition comes next.
    is_open: bool,
    ghost parts: { HasParts is_open (string_bytes text) },
    ghost unmarked: { has_mark (chars (string_bytes text)) ≡ false },
    ghost small: { string_len text ≤ max_text },
    ghost near: { next ≤ string_len text + 1 },
    ghost rising: { AreRising next source_len 0 origins.items } by { AreRising-prop _ _ _ _ },
    ghost begins: { BeginsWithText next (string_len text) origins.items } by { BeginsWithText-prop _ _ _ },
}

impl Draft {
    ghost use Rattle.rn_translate.specs.Spelled.{Spelled};
    ghost use Rattle.rn_translate.specs.Cuts.{IsSpelledAs};
    ghost use Rattle.rn_translate.specs.inside.DraftTokens.{Writes};
    ghost use Rattle.rn_translate.specs.inside.SignTokens.{sign_tokens};

    /// A text of no bytes, for a document of so many.
    pub fn new(alloc: Global, source_len: usize) -> Draft
        ensures source { result.source_len ≡ source_len }
        ensures tokens { IsSpelledAs result.is_open (string_bytes result.text) [] }
    {
        Draft {
            text: String::new(alloc),
            origins: Vec::new(alloc),
            source_len,
            next: 0,
            is_open: false,
        }
    }

    /// Appends a text that is made for a place. A place after the document's text is its end.
    #[tactic(auto, using(crate::proofs::RisingOrigins::begins_on, crate::proofs::CutTexts::parts_joined, crate::proofs::CutTexts::mark_joined))]
    fn put(&mut self, at: usize, text: &str, is_open: bool) -> Result<(), RngFault>
        requires parts { HasParts is_open text.now }
        requires apart { self.old.is_open ≡ true → ends_token (chars text.now) ≡ true }
        requires unmarked { has_mark (chars text.now) ≡ true → 0 < string_len self.old.text }
        ensures text { OnOk result (string_bytes self.new.text
            ≡ string_bytes self.old.text ++ text.now) }
        ensures len { OnOk result (string_len self.new.text
            ≡ string_len self.old.text + length text.now) }
        ensures open { OnOk result (0 < length text.now → self.new.is_open ≡ is_open) }
        ensures tokens { (tokens : List Spelled) → IsSpelledAs is_open text.now tokens
            → 0 < length text.now → OnOk result (Writes self.old self.new tokens) }
        ensures source { self.new.source_len ≡ self.old.source_len }
    {
        if text.is_empty() {
            return Ok(());
        }
        let from = self.text.len();
        if text.len() > MAX_TEXT - from {
            return Err(RngFault::new(at, RngFaultKind::Large));
        }
        self.add_origin(from, at)?;
        self.text.push_str(text)?;
        self.is_open = is_open;
        Ok(())
    }

    /// Whether a space stands before a token: behind a word, and before what would be a byte order mark at the start of the
    /// text.
    fn needs_gap(&self, token: &str) -> bool
        ensures { result ≡ needs_gap self.now.is_open token.now }
    {
        self.is_open || begins_with_mark(token)
    }

    /// Parts a token from what is before it, by a space where that needs one. The space is made for the place of the piece
    /// before.
    fn part(&mut self, at: usize, token: &str) -> Result<(), RngFault>
        ensures closed { OnOk result (self.new.is_open ≡ false) }
        ensures unmarked { OnOk result (has_mark (chars token.now) ≡ true
            → 0 < string_len self.new.text) }
        ensures text { OnOk result (string_bytes self.new.text
            ≡ string_bytes self.old.text ++ gap self.old.is_open token.now) }
        ensures tokens { OnOk result (Writes self.old self.new []) }
        ensures source { self.new.source_len ≡ self.old.source_len }
    {
        if !self.needs_gap(token) {
            return Ok(());
        }
        let before = self.origins.last().map_or(at, |origin| origin.at);
        self.put(before, " ", false)
    }

    /// Appends a sign.
    pub fn put_sign(&mut self, at: usize, sign: Sign) -> Result<(), RngFault>
        ensures tokens { OnOk result (Writes self.old self.new (sign_tokens sign)) }
        ensures source { self.new.source_len ≡ self.old.source_len }
    {
        match sign {
            Sign::Nothing => Ok(()),
            _ => self.put(at, sign.text(), false),
        }
    }

    /// Appends a token, parted from what is before it.
    pub fn put_token(&mut self, at: usize, token: &str, is_open: bool) -> Result<(), RngFault>
        requires { HasParts is_open token.now }
        ensures text { OnOk result (string_bytes self.new.text
            ≡ string_bytes self.old.text ++ (gap self.old.is_open token.now ++ token.now)) }
        ensures tokens { (tokens : List Spelled) → IsSpelledAs is_open token.now tokens
            → 0 < length token.now → OnOk result (Writes self.old self.new tokens) }
        ensures source { self.new.source_len ≡ self.old.source_len }
    {
        self.part(at, token)?;
        self.put(at, token, is_open)
    }

    /// Adds the origin of a piece that begins here or later, if it isn't that of the piece before.
    fn add_origin(&mut self, from: usize, at: usize) -> Result<(), RngFault>
        requires { from ≤ string_len self.old.text }
        ensures text { self.new.text ≡ self.old.text }
        ensures source { self.new.source_len ≡ self.old.source_len }
        ensures open { self.new.is_open ≡ self.old.is_open }
        ensures begun { OnOk result (1 ≤ vec_len self.new.origins) }
    {
        let at = at.min(self.source_len);
        if from < self.next || self.is_last(at) {
            return Ok(());
        }
        self.origins.push(Origin { from, at })?;
        self.next = from + 1;
        Ok(())
    }

    /// Whether the piece before is that of this place.
    fn is_last(&self, at: usize) -> bool
        ensures { IsTrue result → 1 ≤ vec_len self.now.origins }
    {
        match self.origins.last() {
            Some(last) => last.at == at,
            None => false,
        }
    }
}
