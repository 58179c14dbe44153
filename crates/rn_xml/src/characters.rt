// Characters, white space and names (XML 1.0 Fifth Edition, 2.2 and 2.3; Namespaces in XML 1.0, 4).
ghost use Rattle.std.specs.Prelude.{◌≡◌, ◌==◌, ◌≢◌, ◌∷◌, ◌++◌, ◌<◌, ◌≤◌, List, ℕ, [], false, true, length, IfErr, IfOk, IfSome, MatchOption};
ghost use Rattle.std.specs.Char.{is_ascii};
ghost use Rattle.std.specs.List.{list_all};
ghost use Rattle.std.specs.Str.{chars, IsUtf8};
ghost use Rattle.rn_text.specs.Characters.{is_xml_char, is_ncname, is_name_char};
ghost use Rattle.rn_text.specs.Segments.{after_run, begins_with, run_of};
ghost use Rattle.rn_text.specs.Texts.{AnswersUtf8, LeavesUtf8, is_white};
ghost use Rattle.rn_xml.specs.XmlCharacters.{IsSpace, MaySpace};
ghost use Rattle.rn_xml.specs.inside.Fronts.{BeginsName, ends_name};
ghost use Rattle.rn_xml.specs.inside.Pieces.{SplitsName};
ghost use Rattle.rn_xml.specs.inside.Rests.{GoesOn, source};

use crate::stop::Stop;
use crate::xml_fault::XmlFaultKind;
use rn_text::characters::{after_name_chars, split_first};
use rn_text::is_ncname;

/// A name as it is written, parted at its colon (Namespaces in XML 1.0, productions 7 to 11).
#[derive(Clone, Copy)]
pub(crate) struct QName<'a> {
    /// Empty where there is no colon.
    pub(crate) prefix: &'a str,
    pub(crate) local: &'a str,
}

/// The first character, and what follows it; `None` where the text is empty.
pub(crate) fn split_char(text: &str) -> Option<(char, &str)>
    ensures cases { MatchOption result (chars text.now ≡ [])
        (λ p. chars text.now ≡ p.0 ∷ chars p.1.now) }
    ensures utf8 { LeavesUtf8 result }
    ensures shorter { IfSome result (λ p. length p.1.now < length text.now) }
{
    split_first(text)
}

/// What follows the character, where it is the first.
pub(crate) fn after_char(text: &str, c: char) -> Option<&str>
    requires { c < 128 }
    ensures cases { MatchOption result (begins_with (λ d. d == c) (chars text.now) ≡ false)
        (λ rest. chars text.now ≡ c ∷ chars rest.now) }
    ensures utf8 { AnswersUtf8 result }
    ensures shorter { IfSome result (λ rest. length rest.now < length text.now) }
{
    text.strip_prefix(c)
}

/// Whether the text begins with the character.
pub(crate) fn begins(text: &str, c: char) -> bool
    requires { c < 128 }
    ensures { result ≡ begins_with (λ d. d == c) (chars text.now) }
{
    after_char(text, c).is_some()
}

/// What follows the front of ASCII characters, where the text begins with it.
pub(crate) fn after_front<'a>(text: &'a str, front: &str) -> Option<&'a str>
    requires some { 0 < length front.now }
    requires ascii { list_all is_ascii front.now ≡ true }
    ensures cases { MatchOption result ((behind : List ℕ) → chars text.now ≢ front.now ++ behind)
        (λ rest. chars text.now ≡ front.now ++ chars rest.now) }
    ensures utf8 { AnswersUtf8 result }
    ensures shorter { IfSome result (λ rest. length rest.now < length text.now) }
{
    text.strip_prefix(front)
}

/// Whether a document may have the character (XML 1.0, production 2).
#[tactic(auto, unfolding(rn_text::specs::Characters::is_xml_char))]
pub(crate) fn is_xml_char(c: char) -> bool
    ensures { result ≡ is_xml_char c }
{
    matches!(c, '\t' | '\n' | '\r' | ' '..='\u{D7FF}' | '\u{E000}'..='\u{FFFD}' | '\u{10000}'..)
}

/// Whether the character is white space (XML 1.0, production 3).
pub(crate) fn is_white(c: char) -> bool
    ensures { result ≡ is_white c }
{
    matches!(c, ' ' | '\t' | '\n' | '\r')
}

/// What follows the white space at the front (XML 1.0, production 3).
pub(crate) fn after_space(text: &str) -> &str
    ensures run { chars result.now ≡ after_run is_white (chars text.now) }
    ensures no_longer { length result.now ≤ length text.now }
    ensures space { MaySpace (source text.now) (source result.now) }
    ensures some { length result.now ≢ length text.now → IsSpace (source text.now)
        (source result.now) }
{
    text.trim_start_matches(is_white)
}

/// The name without a colon at the front, and what follows it (Namespaces in XML 1.0, production 4).
pub(crate) fn split_ncname(text: &str) -> Option<(&str, &str)>
    ensures cases { MatchOption result (is_ncname (run_of is_name_char (chars text.now)) ≡ false)
        (λ p. (chars p.0.now ≡ run_of is_name_char (chars text.now))
        × (is_ncname (chars p.0.now) ≡ true)
        × (chars p.1.now ≡ after_run is_name_char (chars text.now))) }
    ensures utf8 { IfSome result (λ p. IsUtf8 p.0.now × IsUtf8 p.1.now) }
    ensures shorter { IfSome result (λ p. length p.1.now < length text.now) }
{
    let rest = after_name_chars(text);
    let name = &text[..text.len() - rest.len()];
    if is_ncname(name) {
        Some((name, rest))
    } else {
        None
    }
}

/// The name at the front, with at most one colon within it, and what follows it (Namespaces in XML 1.0, production 7).
pub(crate) fn split_qname(text: &str) -> Result<(QName<'_>, &str), Stop>
    ensures reads { GoesOn text.now result }
    ensures name { IfOk result (λ p. SplitsName (source text.now) p.0 (source p.1.now)) }
    ensures ends { IfOk result (λ p. ends_name (source p.1.now) ≡ true) }
    ensures utf8 { IfOk result
        (λ p. IsUtf8 p.0.prefix.now × IsUtf8 p.0.local.now × IsUtf8 p.1.now) }
    ensures refused { IfErr result (λ _. (written prefix local behind : List ℕ)
        → ¬ BeginsName (source text.now) written prefix local behind) }
{
    let wrong = Stop::before(text, XmlFaultKind::Name);
    let (first, rest) = split_ncname(text).ok_or(wrong)?;
    let Some(after) = after_char(rest, ':') else {
        let name = QName {
            prefix: "",
            local: first,
        };
        return Ok((name, rest));
    };
    let (local, rest) = split_ncname(after).ok_or(wrong)?;
    if begins(rest, ':') {
        return Err(wrong);
    }
    let name = QName {
        prefix: first,
        local,
    };
    Ok((name, rest))
}
