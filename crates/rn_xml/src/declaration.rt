// The XML declaration (XML 1.0 Fifth Edition, productions 23 to 26, 32, 80 and 81).
ghost use Rattle.std.specs.Char.{is_ascii, is_ascii_digit};
ghost use Rattle.std.specs.List.{list_all};
ghost use Rattle.std.specs.Prelude.{◌≡◌, ◌↔◌, ◌∷◌, ◌++◌, ℕ, List, false, true, ◌<◌, length, EachIndex, IfErr, IfOk, IfSome, IsTrue, MatchOption, codes, slice_index};
ghost use Rattle.std.specs.Str.{IsUtf8};
ghost use Rattle.rn_text.specs.Segments.{begins_with};
ghost use Rattle.rn_text.specs.Texts.{AnswersUtf8, is_white};
ghost use Rattle.rn_xml.specs.XmlDocuments.{IsVersionNum, IsEncName, is_encoding_char, MayDeclareEncoding, MayBeStandalone, MayDeclare};
ghost use Rattle.rn_xml.specs.Encodings.{NamesEncoding};
ghost use Rattle.rn_text.specs.Characters.{is_name_char};
ghost use Rattle.rn_xml.specs.XmlCharacters.{AreMisc, MaySpace};
ghost use Rattle.rn_xml.specs.inside.Declared.{ClosesDeclaration, EndsDeclaration, HasRoot, IsDeclaration, IsOnlyField, LacksField, NamesNone, OpensNone};
ghost use Rattle.rn_xml.specs.inside.Rests.{IsNoLonger, IsShorter, MayGoPast, source};
ghost use Rattle.rn_xml.specs.inside.Fields.{IsFieldOf};
ghost use Rattle.rn_xml.specs.inside.Pieces.{IsNamedField, is_inner};

use crate::characters::{after_char, after_front, after_space, split_char};
use crate::stop::Stop;
use crate::xml_fault::XmlFaultKind;
use rn_text::characters::after_name_chars;

/// A field of the declaration.
#[derive(Clone, Copy)]
pub(crate) struct Field<'a> {
    /// What stands between its quotes.
    pub(crate) value: &'a str,
    /// How many bytes of the text follow the quote that opens it.
    pub(crate) left: usize,
    /// What follows the quote that closes it.
    pub(crate) rest: &'a str,
}

/// The field of this name at the front, behind white space.
fn split_field<'a>(text: &'a str, name: &str) -> Option<Field<'a>>
    requires some { 0 < length name.now }
    requires ascii { list_all is_ascii name.now ≡ true }
    requires inner { list_all is_inner name.now ≡ true }
    requires word { begins_with is_white name.now ≡ false }
    ensures within { IfSome result (IsFieldOf text.now) }
    ensures field { IfSome result
        (λ f. IsNamedField name.now (source text.now) (source f.value.now) (source f.rest.now)) }
    ensures only { MatchOption result (LacksField name.now (source text.now))
        (λ f. IsOnlyField name.now (source text.now) (source f.value.now) (source f.rest.now)) }
    ensures utf8 { IfSome result (λ f. IsUtf8 f.value.now × IsUtf8 f.rest.now) }
{
    let spaced = after_space(text);
    if spaced.len() == text.len() {
        return None;
    }
    let equals = after_char(after_space(after_front(spaced, name)?), '=')?;
    let (quote, inside) = split_char(after_space(equals))?;
    if quote != '"' && quote != '\'' {
        return None;
    }
    let (value, rest) = inside.split_once(quote)?;
    Some(Field {
        value,
        left: inside.len(),
        rest,
    })
}

/// Whether each byte is a digit.
fn are_digits(bytes: &[u8]) -> bool
    ensures { IsTrue result ↔ EachIndex bytes.now
        (λ k. is_ascii_digit (slice_index bytes.now k) ≡ true) }
{
    bytes.iter().all(|b| b.is_ascii_digit())
}

/// Whether the text is a version that this standard speaks of (XML 1.0, production 26).
fn is_version(text: &str) -> bool
    ensures { result ≡ true ↔ IsVersionNum (source text.now) }
{
    match after_front(text, "1.") {
        Some(digits) => !digits.is_empty() && are_digits(digits.as_bytes()),
        None => false,
    }
}

/// Whether the byte may stand in the name of an encoding.
fn is_encoding_byte(b: u8) -> bool
    ensures { result ≡ is_encoding_char b }
{
    b.is_ascii_alphanumeric() || matches!(b, b'.' | b'_' | b'-')
}

/// Whether each byte may stand in the name of an encoding.
fn are_encoding_bytes(bytes: &[u8]) -> bool
    ensures { IsTrue result ↔ EachIndex bytes.now
        (λ k. is_encoding_char (slice_index bytes.now k) ≡ true) }
{
    bytes.iter().all(|b| is_encoding_byte(*b))
}

/// Whether the text may name an encoding (XML 1.0, production 81).
fn is_encoding_name(text: &str) -> bool
    ensures { result ≡ true ↔ IsEncName (source text.now) }
{
    match text.as_bytes() {
        [first, rest @ ..] => first.is_ascii_alphabetic() && are_encoding_bytes(rest),
        [] => false,
    }
}

/// What follows the encoding at the front, where one is declared.
fn after_encoding(text: &str) -> Option<&str>
    ensures reads { IfSome result (IsNoLonger text.now) }
    ensures encoding { IfSome result
        (λ rest. MayDeclareEncoding (source text.now) (source rest.now)) }
    ensures only { MatchOption result ((rest : List ℕ) → ¬ EndsDeclaration (source text.now) rest)
        (λ left. (rest : List ℕ) → EndsDeclaration (source text.now) rest
        → ClosesDeclaration (source left.now) rest) }
    ensures utf8 { AnswersUtf8 result }
{
    match split_field(text, "encoding") {
        None => Some(text),
        Some(field) if is_encoding_name(field.value) => Some(field.rest),
        Some(_) => None,
    }
}

/// What follows the standalone declaration at the front, where there is one.
fn after_standalone(text: &str) -> Option<&str>
    ensures reads { IfSome result (IsNoLonger text.now) }
    ensures standalone { IfSome result
        (λ rest. MayBeStandalone (source text.now) (source rest.now)) }
    ensures only { MatchOption result ((rest : List ℕ) → ¬ ClosesDeclaration (source text.now) rest)
        (λ left. (rest : List ℕ) → ClosesDeclaration (source text.now) rest
        → MaySpace (source left.now) (63 ∷ 62 ∷ rest)) }
    ensures utf8 { AnswersUtf8 result }
{
    match split_field(text, "standalone") {
        None => Some(text),
        Some(field) if field.value == "yes" || field.value == "no" => Some(field.rest),
        Some(_) => None,
    }
}

/// What is inside the XML declaration at the front: what follows `<?xml`, if that is the whole name.
fn inside_declaration(text: &str) -> Option<&str>
    ensures reads { IfSome result (IsShorter text.now) }
    ensures front { MatchOption result (OpensNone (source text.now))
        (λ rest. source text.now ≡ codes "<?xml" ++ source rest.now) }
    ensures ends { IfSome result (λ rest. begins_with is_name_char (source rest.now) ≡ false) }
    ensures utf8 { AnswersUtf8 result }
{
    let inside = after_front(text, "<?xml")?;
    if after_name_chars(inside).len() == inside.len() {
        Some(inside)
    } else {
        None
    }
}

/// What follows the end of the XML declaration; the text is what follows its `<?xml`.
fn after_inside(text: &str) -> Option<&str>
    ensures reads { IfSome result (IsShorter text.now) }
    ensures declared { IfSome result
        (λ rest. MayDeclare (codes "<?xml" ++ source text.now) (source rest.now)) }
    ensures only { MatchOption result ((rest : List ℕ) → ¬ IsDeclaration (source text.now) rest)
        (λ left. (rest : List ℕ) → IsDeclaration (source text.now) rest
        → source left.now ≡ rest) }
    ensures utf8 { AnswersUtf8 result }
{
    let version = split_field(text, "version")?;
    if !is_version(version.value) {
        return None;
    }
    after_front(
        after_space(after_standalone(after_encoding(version.rest)?)?),
        "?>",
    )
}

/// What follows the XML declaration at the front, where there is one (XML 1.0, production 23).
pub(crate) fn after_declaration(text: &str) -> Result<&str, Stop>
    ensures reads { MayGoPast text.now result }
    ensures declared { IfOk result (λ rest. MayDeclare (source text.now) (source rest.now)) }
    ensures only { IfOk result (λ left. (root : List ℕ) → HasRoot (source text.now) root
        → AreMisc (source left.now) root) }
    ensures refused { IfErr result (λ _. (root : List ℕ) → ¬ HasRoot (source text.now) root) }
    ensures utf8 { IfOk result (λ rest. IsUtf8 rest.now) }
{
    let Some(inside) = inside_declaration(text) else {
        return Ok(text);
    };
    after_inside(inside).ok_or(Stop::before(text, XmlFaultKind::Declaration))
}

/// The encoding that the text declares, if it declares one.
pub(crate) fn declared_encoding(text: &str) -> Option<Field<'_>>
    ensures within { IfSome result (IsFieldOf text.now) }
    ensures cases { MatchOption result (NamesNone text.now)
        (λ f. IsEncName (source f.value.now) → NamesEncoding (source text.now)
        (source f.value.now)) }
{
    let version = split_field(inside_declaration(text)?, "version")?;
    if is_version(version.value) {
        split_field(version.rest, "encoding")
    } else {
        None
    }
}
