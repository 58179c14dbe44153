// The tokens of the compact text: words, and literals.
ghost use Rattle.std.specs.Prelude.{◌≡◌, ◌∷◌, ◌++◌, true, IfOk, OnOk, codes, string_bytes};
ghost use Rattle.std.specs.List.{list_all};
ghost use Rattle.std.specs.Str.{chars};
ghost use Rattle.rn_text.specs.Characters.{is_keyword, is_ncname, is_xml_char};
ghost use Rattle.rn_text.specs.Keywords.{spelling};
ghost use Rattle.rn_text.specs.Literals.{literal_bytes};
ghost use Rattle.rn_text.specs.declared.parts.Kind.TheVariants as kinds;
ghost use Rattle.rn_translate.specs.Cuts.{gap};
ghost use Rattle.rn_translate.specs.inside.DraftTokens.{Writes};
ghost use Rattle.rn_translate.specs.TokenTexts.{identifier_token, literal_tokens, one_token, word_token};

use crate::draft::Draft;
use crate::rng_fault::{RngFault, RngFaultKind};
use crate::signs::keyword_text;
use rn_text::{Keyword, is_keyword, write_literal};
use std::alloc::{AllocError, Global};

/// Whether a text may hold the character (XML 1.0 Fifth Edition, 2.2, Char).
#[tactic(auto, unfolding(rn_text::specs::Characters::is_xml_char))]
fn is_xml_char(c: char) -> bool
    ensures { result ≡ is_xml_char c }
{
    matches!(c, '\t' | '\n' | '\r' | ' '..='\u{D7FF}' | '\u{E000}'..='\u{FFFD}' | '\u{10000}'..)
}

/// Whether a text may hold all characters of a text.
fn are_xml_chars(text: &str) -> bool
    ensures { result ≡ list_all is_xml_char (chars text.now) }
{
    text.chars().all(is_xml_char)
}

/// The literal of a text.
fn literal(alloc: Global, text: &str) -> Result<String, AllocError>
    ensures ok { IfOk result (λ literal. string_bytes literal ≡ literal_bytes text.now) }
{
    let mut literal = String::new(alloc);
    write_literal(&mut literal, text)?;
    Ok(literal)
}

impl Draft {
    /// Appends a name, or a keyword that means itself.
    pub fn put_word(&mut self, at: usize, word: &str) -> Result<(), RngFault>
        requires { is_ncname (chars word.now) ≡ true }
        ensures text { OnOk result (string_bytes self.new.text
            ≡ string_bytes self.old.text ++ (gap self.old.is_open word.now ++ word.now)) }
        ensures tokens { OnOk result (Writes self.old self.new (word_token word.now)) }
        ensures source { self.new.source_len ≡ self.old.source_len }
    {
        self.put_token(at, word, true)
    }

    /// Appends a keyword.
    pub fn put_keyword(&mut self, at: usize, keyword: Keyword) -> Result<(), RngFault>
        ensures text { OnOk result (string_bytes self.new.text ≡ string_bytes self.old.text
            ++ (gap self.old.is_open (spelling keyword) ++ spelling keyword)) }
        ensures tokens { OnOk result (Writes self.old self.new
            (one_token kinds.Keyword (spelling keyword))) }
        ensures source { self.new.source_len ≡ self.old.source_len }
    {
        self.put_word(at, keyword_text(keyword))
    }

    /// Appends the name of a definition, after a backslash if it is a keyword.
    pub fn put_identifier(&mut self, alloc: Global, at: usize, name: &str) -> Result<(), RngFault>
        requires { is_ncname (chars name.now) ≡ true }
        ensures tokens { OnOk result (Writes self.old self.new (identifier_token name.now)) }
        ensures source { self.new.source_len ≡ self.old.source_len }
    {
        if is_keyword(name) {
            self.put_quoted(alloc, at, name)
        } else {
            self.put_word(at, name)
        }
    }

    /// Appends a name behind a backslash.
    fn put_quoted(&mut self, alloc: Global, at: usize, name: &str) -> Result<(), RngFault>
        requires { is_ncname (chars name.now) ≡ true }
        ensures tokens { OnOk result (Writes self.old self.new
            (one_token kinds.Quoted (92 ∷ name.now))) }
        ensures source { self.new.source_len ≡ self.old.source_len }
    {
        let quoted = format!(in alloc; "\\{name}")?;
        self.put_token(at, quoted.as_str(), true)
    }

    /// Appends a name with a prefix.
    pub fn put_prefixed(
        &mut self,
        alloc: Global,
        at: usize,
        prefix: &str,
        local: &str,
    ) -> Result<(), RngFault>
        requires prefix { is_ncname (chars prefix.now) ≡ true }
        requires local { is_ncname (chars local.now) ≡ true }
        ensures tokens { OnOk result (Writes self.old self.new
            (one_token kinds.Prefixed (prefix.now ++ 58 ∷ local.now))) }
        ensures source { self.new.source_len ≡ self.old.source_len }
    {
        let prefixed = format!(in alloc; "{prefix}:{local}")?;
        self.put_token(at, prefixed.as_str(), true)
    }

    /// Appends an opening parenthesis.
    pub fn put_parenthesis(&mut self, at: usize) -> Result<(), RngFault>
        ensures tokens { OnOk result (Writes self.old self.new
            (one_token kinds.Symbol (codes "("))) }
        ensures source { self.new.source_len ≡ self.old.source_len }
    {
        self.put_token(at, "(", false)
    }

    /// Appends the class of all names.
    pub fn put_any_name(&mut self, at: usize) -> Result<(), RngFault>
        ensures tokens { OnOk result (Writes self.old self.new
            (one_token kinds.Symbol (codes "*"))) }
        ensures source { self.new.source_len ≡ self.old.source_len }
    {
        self.put_token(at, "*", false)
    }

    /// Appends the class of all names with a prefix.
    pub fn put_any_of(&mut self, alloc: Global, at: usize, prefix: &str) -> Result<(), RngFault>
        requires { is_ncname (chars prefix.now) ≡ true }
        ensures tokens { OnOk result (Writes self.old self.new
            (one_token kinds.AnyOf (prefix.now ++ codes ":*"))) }
        ensures source { self.new.source_len ≡ self.old.source_len }
    {
        let any = format!(in alloc; "{prefix}:*")?;
        self.put_token(at, any.as_str(), false)
    }

    /// Appends the literal of a text. Refused at a text with a character that XML doesn't have.
    pub fn put_literal(&mut self, alloc: Global, at: usize, text: &str) -> Result<(), RngFault>
        ensures text { OnOk result (string_bytes self.new.text ≡ string_bytes self.old.text
            ++ (gap self.old.is_open (literal_bytes text.now) ++ literal_bytes text.now)) }
        ensures tokens { OnOk result (Writes self.old self.new (literal_tokens text.now)) }
        ensures source { self.new.source_len ≡ self.old.source_len }
    {
        if !are_xml_chars(text) {
            return Err(RngFault::new(at, RngFaultKind::Character));
        }
        let literal = literal(alloc, text)?;
        self.put_token(at, literal.as_str(), true)
    }
}
