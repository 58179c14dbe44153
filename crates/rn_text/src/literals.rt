// Literals: from segments to their text, and back.
ghost use Rattle.std.specs.Prelude.{◌≡◌, ◌≢◌, ◌++◌, ◌∷◌, ◌<◌, ◌&&◌, ◌==◌, [], true, false, ℕ, List, IfOk, OnOk, OnErr, MatchOption};
ghost use Rattle.std.specs.String.{string_bytes};
ghost use Rattle.std.specs.Str.{chars, encode_utf8_all};
ghost use Rattle.rn_text.specs.Texts.{AnswersUtf8, LeavesUtf8};
ghost use Rattle.rn_text.specs.Segments.{segment_text, is_segment, is_delimiter, is_delimited, between_delimiters};
ghost use Rattle.rn_text.specs.Literals.{written, are_parted, literal_bytes, delimiter_for};
ghost use Rattle.rn_text.specs.inside.Writing.{StandsFor, between};

use crate::characters::{after_char, split_first};
use crate::segments::{after_three, is_delimiter, split_escape};
use crate::source::Token;
use std::alloc::{AllocError, Global};

/// What comes before the character, where it is the last.
fn before_char(text: &str, c: char) -> Option<&str>
    requires { c < 128 }
    ensures cases { MatchOption result ((front : List ℕ) → chars text.now ≢ front ++ c ∷ [])
        (λ r. chars text.now ≡ chars r.now ++ c ∷ []) }
    ensures utf8 { AnswersUtf8 result }
{
    text.strip_suffix(c)
}

/// What comes before the last three characters, where each of the three is this one.
fn before_three(text: &str, c: char) -> Option<&str>
    requires { c < 128 }
    ensures cases { MatchOption result ((front : List ℕ) → chars text.now ≢ front ++ c ∷ c ∷ c ∷ [])
        (λ r. chars text.now ≡ chars r.now ++ c ∷ c ∷ c ∷ []) }
    ensures utf8 { AnswersUtf8 result }
{
    before_char(before_char(before_char(text, c)?, c)?, c)
}

/// What stands between the delimiters of a segment; `None` where the text isn't delimited so.
pub fn between_delimiters(segment: &str) -> Option<&str>
    ensures cases { MatchOption result (is_delimited (chars segment.now) ≡ false)
        (λ r. chars r.now ≡ between_delimiters (chars segment.now)) }
    ensures utf8 { AnswersUtf8 result }
{
    let (delimiter, opened) = split_first(segment)?;
    if !is_delimiter(delimiter) {
        return None;
    }
    if let Some(opened) = after_three(segment, delimiter) {
        return before_three(opened, delimiter);
    }
    before_char(opened, delimiter)
}

/// The first character of a text, by what it is written as between delimiters, and what follows.
fn split_text(rest: &str) -> Option<(char, &str)>
    ensures cases { MatchOption result (chars rest.now ≡ [])
        (λ p. StandsFor (chars rest.now) p.0 (chars p.1.now)) }
    ensures utf8 { LeavesUtf8 result }
{
    let (first, after) = split_first(rest)?;
    if let Some((escaped, after)) = split_escape(rest) {
        return Some((escaped, after));
    }
    if first != '\r' {
        return Some((first, after));
    }
    if let Some(behind) = after_char(after, '\n') {
        return Some(('\n', behind));
    }
    Some(('\n', after))
}

/// The text of a segment: what stands between its delimiters, with each escape as its character and
/// each line end as one line feed (RELAX NG Compact Syntax, 2.1 and 2.2). What is answered of a token
/// that is no segment means nothing. Refused where memory is.
pub fn literal(alloc: Global, segment: &Token<'_>) -> Result<String, AllocError>
    ensures { IfOk result (λ out. is_segment (chars segment.now.text.now) ≡ true
        → string_bytes out ≡ encode_utf8_all (segment_text (chars segment.now.text.now))) }
{
    let mut out = String::new(alloc);
    let Some(mut rest) = between_delimiters(segment.text) else {
        return Ok(out);
    };
    while let Some((c, after)) = split_text(rest) {
        out.push(c)?;
        rest = after;
    }
    Ok(out)
}

/// Appends a character of a literal.
fn push_written(out: &mut String, c: char) -> Result<(), AllocError>
    ensures ok { OnOk result (string_bytes out.new ≡ string_bytes out.old ++ encode_utf8_all
        (written c)) }
    ensures err { OnErr result (string_bytes out.new ≡ string_bytes out.old) }
{
    match c {
        '\t' => out.push_str("\\x{9}"),
        '\n' => out.push_str("\\x{A}"),
        '\r' => out.push_str("\\x{D}"),
        _ => out.push(c),
    }
}

fn delimiter_for(c: char) -> char
    ensures { result ≡ delimiter_for c }
{
    if c == '"' { '\'' } else { '"' }
}

fn are_parted(c: char, d: char) -> bool
    ensures { result ≡ are_parted c d }
{
    (c == '"') != (d == '"') || (c == '\\' && d == 'x')
}

/// Appends what stands between two characters of a literal, or a front of it.
fn push_between(out: &mut String, c: char, d: char) -> Result<(), AllocError>
    ensures ok { OnOk result (string_bytes out.new ≡ string_bytes out.old ++ encode_utf8_all
        (between c d)) }
    ensures longer { (more : List ℕ) × (string_bytes out.new ≡ string_bytes out.old ++ more) }
{
    if !are_parted(c, d) {
        return Ok(());
    }
    out.push(delimiter_for(c))?;
    out.push_str(" ~ ")?;
    out.push(delimiter_for(d))
}

/// Appends the literal of the text, or a front of it.
fn append_literal(out: &mut String, text: &str) -> Result<(), AllocError>
    ensures ok { OnOk result (string_bytes out.new
        ≡ string_bytes out.old ++ literal_bytes text.now) }
    ensures longer { (more : List ℕ) × (string_bytes out.new ≡ string_bytes out.old ++ more) }
{
    let Some((first, after)) = split_first(text) else {
        return out.push_str("\"\"");
    };
    out.push(delimiter_for(first))?;
    push_written(out, first)?;
    let mut last = first;
    let mut rest = after;
    while let Some((c, after)) = split_first(rest) {
        push_between(out, last, c)?;
        push_written(out, c)?;
        last = c;
        rest = after;
    }
    out.push(delimiter_for(last))
}

/// Appends the literal of the text: segments joined by `~`, double quotes between single ones and all
/// else between double ones, where a tab, a line feed and a carriage return are escapes, and no segment
/// has a backslash before an `x` of the text. It is read back where XML has all characters of the text.
/// Refused where memory is; `out` is then what it was.
pub fn write_literal(out: &mut String, text: &str) -> Result<(), AllocError>
    ensures ok { OnOk result (string_bytes out.new
        ≡ string_bytes out.old ++ literal_bytes text.now) }
    ensures err { OnErr result (string_bytes out.new ≡ string_bytes out.old) }
{
    let before = out.as_str();
    let len = before.len();
    let appended = append_literal(out, text);
    if appended.is_err() {
        out.truncate(len);
    }
    appended
}
