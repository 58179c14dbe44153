// References to characters and to predefined entities (XML 1.0 Fifth Edition, 4.1 and 4.6).
ghost use Rattle.std.specs.Prelude.{◌≡◌, ◌≤◌, ◌∷◌, ℕ, List, false, true, IfErr, IfOk, MatchOption};
ghost use Rattle.std.specs.Str.{chars, IsUtf8};
ghost use Rattle.rn_text.specs.Characters.{is_xml_char};
ghost use Rattle.rn_xml.specs.XmlCharacters.{IsEntity, IsReference};
ghost use Rattle.rn_xml.specs.inside.Pieces.{IsNumber};
ghost use Rattle.rn_xml.specs.inside.Rests.{GoesOn, IsShorter, source};

use crate::characters::{after_char, after_front, is_xml_char, split_char, split_ncname};
use crate::stop::Stop;
use crate::xml_fault::XmlFaultKind;

/// The character of a document that has this number (XML 1.0, 4.1, Legal Character).
fn char_of(number: u32) -> Option<char>
    ensures { MatchOption result (is_xml_char number ≡ false)
        (λ c. (c ≡ number) × (is_xml_char c ≡ true)) }
{
    let c = char::from_u32(number)?;
    if is_xml_char(c) { Some(c) } else { None }
}

/// The character that the digits of a character reference stand for, and what follows its `;` (XML 1.0, production 66). A
/// number that is too large is that of no character.
fn split_number(text: &str, radix: u32) -> Result<(char, &str), XmlFaultKind>
    requires two { 2 ≤ radix }
    requires digits { radix ≤ 36 }
    ensures number { IfOk result (λ p. IsNumber radix (chars text.now) p.0 (chars p.1.now)) }
    ensures refused { IfErr result (λ _. (c : ℕ) (rest : List ℕ)
        → ¬ IsNumber radix (chars text.now) c rest) }
    ensures utf8 { IfOk result (λ p. IsUtf8 p.1.now) }
    ensures shorter { IfOk result (λ p. IsShorter text.now p.1) }
{
    let mut number = 0u32;
    let mut rest = text;
    while let Some((c, after)) = split_char(rest) {
        if c == ';' && rest.len() < text.len() {
            let c = char_of(number).ok_or(XmlFaultKind::CharacterReference)?;
            return Ok((c, after));
        }
        let Some(digit) = c.to_digit(radix) else {
            return Err(XmlFaultKind::Reference);
        };
        number = number.saturating_mul(radix).saturating_add(digit);
        rest = after;
    }
    Err(XmlFaultKind::Reference)
}

/// The character of the predefined entity of this name (XML 1.0, 4.6).
fn entity_char(name: &str) -> Option<char>
    ensures { MatchOption result ((c : ℕ) → ¬ IsEntity (chars name.now) c)
        (IsEntity (chars name.now)) }
{
    match name {
        "amp" => Some('&'),
        "lt" => Some('<'),
        "gt" => Some('>'),
        "apos" => Some('\''),
        "quot" => Some('"'),
        _ => None,
    }
}

/// What a reference stands for, and what follows it; the text is what follows its `&`.
fn split_target(text: &str) -> Result<(char, &str), XmlFaultKind>
    ensures reference { IfOk result (λ p. IsReference (38 ∷ chars text.now) p.0 (chars p.1.now)) }
    ensures refused { IfErr result (λ _. (c : ℕ) (rest : List ℕ)
        → ¬ IsReference (38 ∷ chars text.now) c rest) }
    ensures utf8 { IfOk result (λ p. IsUtf8 p.1.now) }
    ensures shorter { IfOk result (λ p. IsShorter text.now p.1) }
{
    if let Some(number) = after_front(text, "#x") {
        return split_number(number, 16);
    }
    if let Some(number) = after_char(text, '#') {
        return split_number(number, 10);
    }
    let (name, rest) = split_ncname(text).ok_or(XmlFaultKind::Reference)?;
    let after = after_char(rest, ';').ok_or(XmlFaultKind::Reference)?;
    let c = entity_char(name).ok_or(XmlFaultKind::Entity)?;
    Ok((c, after))
}

/// The character that the reference at the front stands for, and what follows it (XML 1.0, productions 66 to 68).
pub(crate) fn split_reference(text: &str) -> Result<(char, &str), Stop>
    ensures reads { GoesOn text.now result }
    ensures reference { IfOk result (λ p. IsReference (source text.now) p.0 (source p.1.now)) }
    ensures refused { IfErr result (λ _. (c : ℕ) (rest : List ℕ)
        → ¬ IsReference (source text.now) c rest) }
    ensures utf8 { IfOk result (λ p. IsUtf8 p.1.now) }
{
    let target = after_char(text, '&').ok_or(Stop::before(text, XmlFaultKind::Reference))?;
    match split_target(target) {
        Ok(found) => Ok(found),
        Err(kind) => Err(Stop::before(text, kind)),
    }
}
