// Segments of literals, and escapes in them.
ghost use Rattle.std.specs.Prelude.{◌≡◌, ◌∷◌, ◌++◌, ◌==◌, ◌<◌, [], true, false, ℕ, List, MatchOption};
ghost use Rattle.std.specs.Str.{chars};
ghost use Rattle.std.specs.Char.{is_ascii_hexdigit};
ghost use Rattle.std.specs.List.{list_all};
ghost use Rattle.std.specs.Str.Parse.{digits_value};
ghost use Rattle.rn_text.specs.Texts.{AnswersUtf8, LeavesUtf8};
ghost use Rattle.rn_text.specs.Characters.{is_xml_char};
ghost use Rattle.rn_text.specs.inside.PartEnds.{IsDelimitedFront, IsNeverDelimited};
ghost use Rattle.rn_text.specs.Segments.{is_empty, is_delimiter, after_run, is_x, escape_front, after_brace, escaped_char, after_escape, is_whole_escape, is_verbatim, escapes_hold, three_of, ends_at_one, ends_at_three, is_line_end};

use crate::characters::{after_char, is_xml_char, split_first};

/// What follows each `x` at the front.
fn after_xs(text: &str) -> &str
    ensures { chars result.now ≡ after_run is_x (chars text.now) }
{
    text.trim_start_matches('x')
}

/// What follows the hexadecimal digits at the front.
fn after_hex_digits(text: &str) -> &str
    ensures { chars result.now ≡ after_run is_ascii_hexdigit (chars text.now) }
{
    text.trim_start_matches(|c: char| c.is_ascii_hexdigit())
}

/// What follows `\`, one or more `x` and `{` at the front.
pub(crate) fn after_escape_front(text: &str) -> Option<&str>
    ensures cases { MatchOption result (escape_front (chars text.now) ≡ false)
        (λ r. (escape_front (chars text.now) ≡ true)
        × (chars r.now ≡ after_brace (chars text.now))) }
    ensures utf8 { AnswersUtf8 result }
{
    let rest = after_char(after_char(text, '\\')?, 'x')?;
    after_char(after_xs(rest), '{')
}

/// The character of a text that hexadecimal digits number.
fn xml_char_of(digits: &str) -> Option<char>
    requires { list_all is_ascii_hexdigit (chars digits.now) ≡ true }
    ensures { MatchOption result (is_empty (chars digits.now) ≡ false
        → is_xml_char (digits_value 16 (chars digits.now)) ≡ false)
        (λ c. (is_empty (chars digits.now) ≡ false) × (is_xml_char c ≡ true)
        × (c ≡ digits_value 16 (chars digits.now))) }
{
    let number = u32::from_str_radix(digits, 16).ok()?;
    let c = char::from_u32(number)?;
    if is_xml_char(c) { Some(c) } else { None }
}

/// The character of a whole escape at the front, and what follows it.
pub(crate) fn split_escape(text: &str) -> Option<(char, &str)>
    ensures cases { MatchOption result (escape_front (chars text.now) ≡ true
        → is_whole_escape (chars text.now) ≡ false)
        (λ p. (escape_front (chars text.now) ≡ true) × (is_whole_escape (chars text.now) ≡ true)
        × (p.0 ≡ escaped_char (chars text.now)) × (chars p.1.now ≡ after_escape (chars text.now))) }
    ensures utf8 { LeavesUtf8 result }
{
    let digits = after_escape_front(text)?;
    let rest = after_hex_digits(digits);
    let c = xml_char_of(&digits[..digits.len() - rest.len()])?;
    Some((c, after_char(rest, '}')?))
}

/// Whether each escape in the text is whole, and none means the delimiter.
pub(crate) fn escapes_hold(text: &str, delimiter: char) -> bool
    ensures { result ≡ escapes_hold delimiter (chars text.now) }
{
    let mut rest = text;
    while let Some((_, after)) = split_first(rest) {
        if after_escape_front(rest).is_some() {
            match split_escape(rest) {
                Some((c, _)) if c != delimiter => {}
                _ => return false,
            }
        }
        rest = after;
    }
    true
}

/// Whether the text means itself between delimiters: it has no escape and no carriage return. It takes time linear
/// in the text's bytes.
pub fn is_verbatim(text: &str) -> bool
    ensures { result ≡ is_verbatim (chars text.now) }
{
    let mut rest = text;
    while let Some((first, after)) = split_first(rest) {
        if first == '\r' || after_escape_front(rest).is_some() {
            return false;
        }
        rest = after;
    }
    true
}

/// Whether the character opens a segment.
pub(crate) fn is_delimiter(c: char) -> bool
    ensures { result ≡ is_delimiter c }
{
    c == '"' || c == '\''
}

/// What follows three of the delimiter at the front.
pub(crate) fn after_three(text: &str, delimiter: char) -> Option<&str>
    requires { delimiter < 128 }
    ensures cases { MatchOption result (three_of delimiter (chars text.now) ≡ false)
        (λ r. chars text.now ≡ delimiter ∷ delimiter ∷ delimiter ∷ chars r.now) }
    ensures utf8 { AnswersUtf8 result }
{
    after_char(
        after_char(after_char(text, delimiter)?, delimiter)?,
        delimiter,
    )
}

/// Whether the character ends a line.
fn is_line_end(c: char) -> bool
    ensures { result ≡ is_line_end c }
{
    c == '\n' || c == '\r'
}

/// What follows the next delimiter in the line.
fn after_next_one(text: &str, delimiter: char) -> Option<&str>
    ensures cases { MatchOption result ((front after : List ℕ) → front ++ after ≡ chars text.now
        → ends_at_one delimiter front ≡ true → ⊥)
        (λ r. (front : List ℕ) × (front ++ chars r.now ≡ chars text.now)
        × (ends_at_one delimiter front ≡ true)) }
    ensures utf8 { AnswersUtf8 result }
{
    let mut rest = text;
    while let Some((c, after)) = split_first(rest) {
        if c == delimiter {
            return Some(after);
        }
        if is_line_end(c) {
            return None;
        }
        rest = after;
    }
    None
}

/// What follows the next three delimiters in a row.
fn after_next_three(text: &str, delimiter: char) -> Option<&str>
    requires { delimiter < 128 }
    ensures cases { MatchOption result ((front after : List ℕ) → front ++ after ≡ chars text.now
        → ends_at_three delimiter front ≡ true → ⊥)
        (λ r. (front : List ℕ) × (front ++ chars r.now ≡ chars text.now)
        × (ends_at_three delimiter front ≡ true)) }
    ensures utf8 { AnswersUtf8 result }
{
    let mut rest = text;
    while let Some((_, after)) = split_first(rest) {
        if let Some(end) = after_three(rest, delimiter) {
            return Some(end);
        }
        rest = after;
    }
    None
}

/// What follows the delimiters that close the segment at the front.
pub(crate) fn after_delimiters(text: &str, delimiter: char) -> Option<&str>
    requires { (is_delimiter delimiter ≡ true)
        × ((cs : List ℕ) × (chars text.now ≡ delimiter ∷ cs)) }
    ensures cases { MatchOption result (IsNeverDelimited (chars text.now))
        (λ r. (front : List ℕ) × IsDelimitedFront (chars text.now) front (chars r.now)) }
    ensures utf8 { AnswersUtf8 result }
{
    if let Some(opened) = after_three(text, delimiter) {
        return after_next_three(opened, delimiter);
    }
    after_next_one(after_char(text, delimiter)?, delimiter)
}
