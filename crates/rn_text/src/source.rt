// The tokens of a source.
ghost use Rattle.std.specs.Prelude.{◌≡◌, [], map, MatchResult};
ghost use Rattle.std.specs.List.{list_all};
ghost use Rattle.std.specs.Str.{chars, IsUtf8};
ghost use Rattle.rn_text.specs.Characters.{is_xml_char};
ghost use Rattle.rn_text.specs.Segments.{after_run};
ghost use Rattle.rn_text.specs.inside.Ascii.{is_ascii_and};
ghost use Rattle.rn_text.specs.Tokens.{HasTokens, HasFault, lexeme_of, unmarked};

use crate::characters::{is_xml_char, split_first};
use crate::parts::{Kind, Part, split_part};
use std::alloc::Global;
use thiserror::Error;

/// A token of a source, and where it stands there.
#[derive(Clone, Copy, Debug, PartialEq, Eq)]
pub struct Token<'a> {
    /// Which kind of token it is.
    pub kind: Kind,
    /// Its characters as the source has them, lent by it: a segment with its delimiters, a quoted name with its
    /// backslash.
    pub text: &'a str,
    /// How many bytes of the source stand before it, a byte order mark among them.
    pub start: usize,
    /// How many bytes of the source stand before what follows it: `start` and the length of `text`.
    pub end: usize,
}

/// What is wrong with a source.
#[derive(Debug, Drop, PartialEq, Eq, Error)]
pub enum TextFault {
    /// The longest front that is UTF-8 ends here.
    #[error("not UTF-8 at {at}")]
    Encoding {
        /// How many bytes of the source stand before the fault.
        at: usize,
    },
    /// Here stands the first character that XML does not have, or, where there is none, something
    /// that is neither a token nor white space nor a comment.
    #[error("no token at {at}")]
    Lexical {
        /// How many bytes of the source stand before the fault.
        at: usize,
    },
    /// Memory was refused.
    #[error("out of memory")]
    Memory,
}

/// Whether the byte is an ASCII character of XML.
#[tactic(auto, unfolding(crate::specs::Characters::is_xml_char))]
fn is_ascii_xml_char(b: u8) -> bool
    ensures { result ≡ is_ascii_and is_xml_char b }
{
    matches!(b, b'\t' | b'\n' | b'\r' | b' '..=127)
}

/// Whether all bytes are ASCII characters of XML. No byte ends the loop, so many are tested at once.
fn are_ascii_xml_chars(bytes: &[u8]) -> bool
    ensures { result ≡ list_all (is_ascii_and is_xml_char) bytes.now }
{
    let mut all = true;
    for b in bytes {
        all &= is_ascii_xml_char(*b);
    }
    all
}

/// What follows the longest front of XML characters.
fn after_xml(text: &str) -> &str
    ensures { chars result.now ≡ after_run is_xml_char (chars text.now) }
{
    if are_ascii_xml_chars(text.as_bytes()) {
        return "";
    }
    text.trim_start_matches(is_xml_char)
}

/// The text behind a byte order mark, where it has one.
fn without_mark(text: &str) -> &str
    ensures { chars result.now ≡ unmarked (chars text.now) }
{
    match split_first(text) {
        Some(('\u{FEFF}', rest)) => rest,
        _ => text,
    }
}

/// The tokens of a source, in order (RELAX NG Compact Syntax, 2 and appendix A). Each is as long as it
/// can be; white space and comments stand between them, and a byte order mark may stand before all.
/// An escape `\x{..}` is read within a literal alone, though the standard has it stand anywhere.
/// The source is refused where it is not UTF-8, then at its first character that XML does not have,
/// then at the first place where no token can be read, and wherever memory is.
pub fn tokens<'a>(alloc: Global, src: &'a [u8]) -> Result<Vec<Token<'a>>, TextFault>
    ensures { MatchResult result (λ found. IsUtf8 src.now
        × HasTokens (chars src.now) (map lexeme_of found.items)) (HasFault src.now) }
{
    let mut found = Vec::new(alloc);
    read_tokens(src, &mut found)?;
    Ok(found)
}

/// Puts the tokens of a source into `found`, in the place of what it held, up to its fault.
fn read_up_to_fault<'a>(src: &'a [u8], found: &mut Vec<Token<'a>>) -> Result<(), TextFault>
    ensures { MatchResult result (λ _. IsUtf8 src.now
        × HasTokens (chars src.now) (map lexeme_of found.new.items)) (HasFault src.now) }
{
    found.clear();
    let text = match simdutf8::compat::from_utf8(src) {
        Ok(text) => text,
        Err(e) => return Err(TextFault::Encoding {
            at: e.valid_up_to(),
        }),
    };
    let wrong = after_xml(text);
    if !wrong.is_empty() {
        return Err(TextFault::Lexical {
            at: text.len() - wrong.len(),
        });
    }
    let mut rest = without_mark(text);
    while !rest.is_empty() {
        let start = text.len() - rest.len();
        let Some((part, after)) = split_part(rest) else {
            return Err(TextFault::Lexical { at: start });
        };
        let end = text.len() - after.len();
        if let Part::Token(kind) = part {
            let token = Token {
                kind,
                text: &rest[..rest.len() - after.len()],
                start,
                end,
            };
            found.push(token).map_err(|_| TextFault::Memory)?;
        }
        rest = after;
    }
    Ok(())
}

/// Puts the tokens of a source into `found`, in the place of what it held, as [`tokens`] answers them. So whoever reads
/// one source after the other asks for their memory once. Where the source is refused, `found` is empty.
pub fn read_tokens<'a>(src: &'a [u8], found: &mut Vec<Token<'a>>) -> Result<(), TextFault>
    ensures { MatchResult result (λ _. IsUtf8 src.now
        × HasTokens (chars src.now) (map lexeme_of found.new.items))
        (λ fault. HasFault src.now fault × (found.new.items ≡ [])) }
{
    let read = read_up_to_fault(src, found);
    if read.is_err() {
        found.clear();
    }
    read
}
