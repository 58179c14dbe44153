// Values of attributes (XML 1.0 Fifth Edition, production 10, 2.11 and 3.3.3).
ghost use Rattle.std.specs.Prelude.{◌≡◌, ◌≢◌, ◌∷◌, ◌++◌, ◌==◌, ℕ, false, true, string_bytes, option_to_list, IfErr, IfOk, List, MatchOption};
ghost use Rattle.std.specs.Str.{chars, IsUtf8};
ghost use Rattle.rn_text.specs.Segments.{begins_with, is_delimiter};
ghost use Rattle.rn_xml.specs.XmlCharacters.{IsValue};
ghost use Rattle.rn_xml.specs.DocumentFaults.{IsOfText};
ghost use Rattle.rn_xml.specs.inside.Fronts.{LeavesValue};
ghost use Rattle.rn_xml.specs.inside.Pieces.{ContinuesValue};
ghost use Rattle.rn_xml.specs.inside.Rests.{GoesOn, source};

use crate::characters::{begins, is_white, is_xml_char, split_char};
use crate::references::split_reference;
use crate::stop::Stop;
use crate::xml_fault::XmlFaultKind;
use std::alloc::{AllocError, Global};

/// The character that white space in a value is: a space, and nothing before a line feed that ends the same line (2.11).
fn spaced(c: char, after: &str) -> Option<char>
    ensures { MatchOption result ((c ≡ 13) × (begins_with (λ d. d == 10) (chars after.now) ≡ true))
        (λ s. (s ≡ 32) × (c ≡ 13 → begins_with (λ d. d == 10) (chars after.now) ≡ false)) }
{
    if c == '\r' && begins(after, '\n') {
        None
    } else {
        Some(' ')
    }
}

/// The next character of a value and what follows it: what a reference stands for, a space for white space, or itself.
fn split_value_char<'a>(
    c: char,
    rest: &'a str,
    after: &'a str,
) -> Result<(Option<char>, &'a str), Stop>
    requires { chars rest.now ≡ c ∷ chars after.now }
    ensures reads { GoesOn rest.now result }
    ensures value { IfOk result
        (λ p. (quote : ℕ) → c ≢ quote → ContinuesValue quote (source rest.now) p.0
        (source p.1.now)) }
    ensures leaves { IfOk result (λ p. (quote : ℕ) → is_delimiter quote ≡ true → c ≢ quote
        → LeavesValue quote (source rest.now) (source p.1.now)) }
    ensures utf8 { IfOk result (λ p. IsUtf8 p.1.now) }
    ensures refused { IfErr result (λ _. (quote : ℕ) → is_delimiter quote ≡ true → c ≢ quote
        → (value behind : List ℕ) → ¬ IsValue quote (source rest.now) value behind) }
{
    if c == '&' {
        let (c, after) = split_reference(rest)?;
        return Ok((Some(c), after));
    }
    if c == '<' {
        return Err(Stop::before(rest, XmlFaultKind::LessThan));
    }
    if is_white(c) {
        return Ok((spaced(c, after), after));
    }
    if !is_xml_char(c) {
        return Err(Stop::before(rest, XmlFaultKind::Character));
    }
    Ok((Some(c), after))
}

/// Appends the character, if there is one.
fn push_some(value: &mut String, c: Option<char>) -> Result<(), AllocError>
    ensures { IfOk result (λ _. chars (string_bytes value.new) ≡ chars
        (string_bytes value.old) ++ option_to_list c) }
{
    match c {
        Some(c) => value.push(c),
        None => Ok(()),
    }
}

/// The value up to this quote, and what follows that; the text is what follows the quote that opens it.
pub(crate) fn split_value(alloc: Global, text: &str, quote: char) -> Result<(String, &str), Stop>
    requires { is_delimiter quote ≡ true }
    ensures reads { GoesOn text.now result }
    ensures value { IfOk result
        (λ p. IsValue quote (source text.now) (chars (string_bytes p.0)) (source p.1.now)) }
    ensures refused { IfErr result (λ stop. IsOfText stop.kind
        → (value rest : List ℕ) → ¬ IsValue quote (source text.now) value rest) }
    ensures utf8 { IfOk result (λ p. IsUtf8 p.1.now) }
{
    let mut value = String::new(alloc);
    let mut rest = text;
    while let Some((c, after)) = split_char(rest) {
        if c == quote {
            return Ok((value, after));
        }
        let (found, behind) = split_value_char(c, rest, after)?;
        push_some(&mut value, found)?;
        rest = behind;
    }
    Err(Stop::before(text, XmlFaultKind::OpenValue))
}
