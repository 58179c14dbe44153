// Sentences that say what is wrong with a document.

use crate::xml_fault::{Encoding, MAX_DEPTH, XmlFault, XmlFaultKind};
use rn_text::characters::after_name_chars;
use std::fmt;

/// What is wrong with a document, as a sentence without a full stop.
#[derive(Clone, Copy, Debug)]
pub struct FaultSentence<'a> {
    /// What is wrong.
    pub kind: XmlFaultKind,
    /// The name that the sentence begins with or has in it, as it stands in the text; of most kinds empty.
    pub name: &'a str,
    /// The name of the element that is open, where the sentence has it.
    pub open: &'a str,
}

/// What follows the first bytes, that many.
fn behind(text: &str, count: usize) -> &str {
    text.get(count..).unwrap_or("")
}

/// The first bytes before the last ones, which are `after`.
fn before<'a>(text: &'a str, after: &str) -> &'a str {
    text.get(..text.len().saturating_sub(after.len()))
        .unwrap_or("")
}

/// The name at the front, with its colon.
fn name_front(text: &str) -> &str {
    let after = after_name_chars(text);
    match after.strip_prefix(':') {
        Some(local) => before(text, after_name_chars(local)),
        None => before(text, after),
    }
}

/// The text before the next white space or sign of markup.
fn word_front(text: &str) -> &str {
    let ends = |c: char| matches!(
        c,
        ' ' | '\t' | '\r' | '\n' | '<' | '>' | '/' | '=' | '"' | '\'' | '?'
    );
    before(text, text.trim_start_matches(|c: char| !ends(c)))
}

impl XmlFault {
    /// The sentence of the fault; its names are lent by the text.
    pub fn sentence<'a>(&self, text: &'a str) -> FaultSentence<'a> {
        let here = behind(text, self.at);
        let mut open = "";
        let name = match self.kind {
            XmlFaultKind::Encoding | XmlFaultKind::Name => word_front(here),
            XmlFaultKind::Repeated | XmlFaultKind::Reserved => name_front(here),
            XmlFaultKind::Prefix => before(here, after_name_chars(here)),
            XmlFaultKind::Entity | XmlFaultKind::NotClosed => name_front(behind(here, 1)),
            XmlFaultKind::EndTag { open: start } => {
                open = name_front(behind(behind(text, start), 1));
                name_front(behind(here, 2))
            }
            _ => "",
        };
        FaultSentence {
            kind: self.kind,
            name,
            open,
        }
    }
}

impl fmt::Display for Encoding {
    fn fmt<W: fmt::Write>(&self, f: &mut fmt::Formatter<W>) -> fmt::Result {
        let name = match self {
            Encoding::Utf8 => "UTF-8",
            Encoding::Utf16 => "UTF-16",
            Encoding::Latin1 => "ISO-8859-1",
            Encoding::Ascii => "US-ASCII",
        };
        write!(f, "{name}")
    }
}

/// The sentence of a kind that has no name in it.
fn plain_sentence(kind: XmlFaultKind) -> &'static str {
    match kind {
        XmlFaultKind::Declaration => "this is no XML declaration at the start of a document",
        XmlFaultKind::Doctype => "a document type declaration is not read",
        XmlFaultKind::Character => "no XML document has this character",
        XmlFaultKind::Reference => "this is no reference: & itself is &amp;",
        XmlFaultKind::CharacterReference => "this refers to a character that no XML document has",
        XmlFaultKind::Equals => "an attribute has = behind its name",
        XmlFaultKind::Quotes => "a value stands in quotes",
        XmlFaultKind::LessThan => "< can't stand in a value",
        XmlFaultKind::OpenValue => "this value is not closed",
        XmlFaultKind::Tag => "a tag goes on with white space and an attribute, or ends",
        XmlFaultKind::SectionEnd => "]]> can't stand in text",
        XmlFaultKind::Comment => "this comment is not closed, or has -- within it",
        XmlFaultKind::Instruction => "this processing instruction is not closed, or has no name",
        XmlFaultKind::Section => "this CDATA section is not closed",
        XmlFaultKind::NoRoot => "there is no root element",
        XmlFaultKind::SecondRoot => "there is a second root element",
        XmlFaultKind::Outside => "text outside of the root element",
        _ => "out of memory",
    }
}

impl fmt::Display for FaultSentence<'_> {
    fn fmt<W: fmt::Write>(&self, f: &mut fmt::Formatter<W>) -> fmt::Result {
        let name = self.name;
        let open = self.open;
        match self.kind {
            XmlFaultKind::Encoding => write!(
                f,
                "the document says that its encoding is {name}: UTF-8, UTF-16, ISO-8859-1 and US-ASCII are read"
            ),
            XmlFaultKind::NotEncoded(encoding) => write!(f, "this is not {encoding}"),
            XmlFaultKind::Entity => write!(
                f,
                "&{name}; is not defined: a document without type declaration has amp, lt, gt, quot and apos"
            ),
            XmlFaultKind::Name if name.is_empty() => write!(f, "a name is missing"),
            XmlFaultKind::Name => write!(f, "{name} is no name"),
            XmlFaultKind::EndTag { .. } => write!(f, "this closes {name}, but {open} is open"),
            XmlFaultKind::NotClosed => write!(f, "{name} is not closed"),
            XmlFaultKind::Repeated => write!(f, "the attribute {name} is given twice"),
            XmlFaultKind::Prefix => write!(f, "the prefix {name} is not declared"),
            XmlFaultKind::Reserved => write!(f, "{name} can't declare this namespace"),
            XmlFaultKind::Deep => write!(f, "more than {MAX_DEPTH} elements are open"),
            kind => {
                let sentence = plain_sentence(kind);
                write!(f, "{sentence}")
            }
        }
    }
}
