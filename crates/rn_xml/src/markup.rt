// Comments, processing instructions, CDATA sections and characters (XML 1.0 Fifth Edition, 2.4 to 2.7).
ghost use Rattle.std.specs.Char.{is_ascii};
ghost use Rattle.std.specs.List.{list_all};
ghost use Rattle.std.specs.Prelude.{◌≡◌, ◌≢◌, ◌⊎◌, ◌∷◌, ◌++◌, ℕ, List, true, false, None, codes, ◌<◌, ◌≤◌, length, string_bytes, string_len, IfOk, IfErr, IfSome, IsNone, MatchOption};
ghost use Rattle.std.specs.Str.{chars, IsUtf8};
ghost use Rattle.rn_text.specs.Characters.{is_ncname};
ghost use Rattle.rn_xml.specs.XmlCharacters.{IsTarget, IsComment, IsInstruction, AreMisc, IsReference, IsSection, IsCharacters, is_data_char};
ghost use Rattle.rn_xml.specs.DocumentFaults.{IsOfText};
ghost use Rattle.rn_xml.specs.inside.Fronts.{IsBroken, IsBare, IsRootOrEnd, LacksMisc, ReachNoTag};
ghost use Rattle.rn_xml.specs.inside.Pieces.{Appends, IsPiece, IsUpTo, is_inner, normal};
ghost use Rattle.rn_xml.specs.inside.Rests.{GoesPast, GoesPastSome, MayGoPast, StopsWithin, source};

use crate::characters::{
    after_char, after_front, after_space, begins, is_xml_char, split_char, split_ncname,
};
use crate::references::split_reference;
use crate::stop::Stop;
use crate::xml_fault::XmlFaultKind;
use std::alloc::{AllocError, Global};

/// What follows the first `end`, before which all are characters that a document may have. Where there is none, the stop
/// is before the whole, of this kind.
fn after_end<'a>(
    whole: &'a str,
    text: &'a str,
    end: &str,
    kind: XmlFaultKind,
) -> Result<&'a str, Stop>
    requires end { 0 < length end.now }
    requires ascii { list_all is_ascii end.now ≡ true }
    requires inner { list_all is_inner end.now ≡ true }
    requires within { length text.now < length whole.now }
    ensures reads { GoesPast whole.now result }
    ensures inside { IfOk result
        (λ rest. (inside : List ℕ) × IsUpTo end.now (source text.now) inside (source rest.now)) }
    ensures refused { IfErr result (λ _. (inside rest : List ℕ)
        → ¬ IsUpTo end.now (source text.now) inside rest) }
    ensures utf8 { IfOk result (λ rest. IsUtf8 rest.now) }
{
    let mut rest = text;
    while let Some((c, after)) = split_char(rest) {
        if let Some(behind) = after_front(rest, end) {
            return Ok(behind);
        }
        if !is_xml_char(c) {
            return Err(Stop::before(rest, XmlFaultKind::Character));
        }
        rest = after;
    }
    Err(Stop::before(whole, kind))
}

/// What follows the comment at the front, if one is there (XML 1.0, production 15).
pub(crate) fn after_comment(text: &str) -> Result<Option<&str>, Stop>
    ensures reads { GoesPastSome text.now result }
    ensures comment { IfOk result
        (λ found. MatchOption found ((rest : List ℕ) → ¬ IsComment (source text.now) rest)
        (λ rest. IsComment (source text.now) (source rest.now))) }
    ensures refused { IfErr result (λ _. IsBroken (source text.now)) }
    ensures utf8 { IfOk result (λ found. IfSome found (λ rest. IsUtf8 rest.now)) }
{
    let Some(inside) = after_front(text, "<!--") else {
        return Ok(None);
    };
    let behind = after_end(text, inside, "--", XmlFaultKind::Comment)?;
    let after = after_char(behind, '>').ok_or(Stop::before(text, XmlFaultKind::Comment))?;
    Ok(Some(after))
}

/// Whether the name is one that no processing instruction has: `xml` in any case (XML 1.0, production 17).
fn is_reserved(name: &str) -> bool
    requires { is_ncname (chars name.now) ≡ true }
    ensures target { result ≡ false → IsTarget (chars name.now) }
    ensures reserved { result ≡ true → ¬ IsTarget (chars name.now) }
{
    name.eq_ignore_ascii_case("xml")
}

/// What follows the processing instruction at the front, if one is there (XML 1.0, productions 16 and 17; its name has no
/// colon by Namespaces in XML 1.0, 7).
pub(crate) fn after_instruction(text: &str) -> Result<Option<&str>, Stop>
    ensures reads { GoesPastSome text.now result }
    ensures instruction { IfOk result
        (λ found. MatchOption found ((rest : List ℕ) → ¬ IsInstruction (source text.now) rest)
        (λ rest. IsInstruction (source text.now) (source rest.now))) }
    ensures refused { IfErr result (λ _. IsBroken (source text.now)) }
    ensures utf8 { IfOk result (λ found. IfSome found (λ rest. IsUtf8 rest.now)) }
{
    let Some(inside) = after_front(text, "<?") else {
        return Ok(None);
    };
    let wrong = Stop::before(text, XmlFaultKind::Instruction);
    let (name, rest) = split_ncname(inside).ok_or(wrong)?;
    if is_reserved(name) {
        return Err(Stop::before(text, XmlFaultKind::Declaration));
    }
    if let Some(after) = after_front(rest, "?>") {
        return Ok(Some(after));
    }
    if after_space(rest).len() == rest.len() {
        return Err(wrong);
    }
    Ok(Some(after_end(text, rest, "?>", XmlFaultKind::Instruction)?))
}

/// What follows the comments, processing instructions and white space at the front (XML 1.0, production 27).
pub(crate) fn after_misc(text: &str) -> Result<&str, Stop>
    ensures reads { MayGoPast text.now result }
    ensures misc { IfOk result (λ rest. AreMisc (source text.now) (source rest.now)) }
    ensures all { IfOk result (λ rest. LacksMisc (source rest.now)) }
    ensures refused { IfErr result (λ _. (rest : List ℕ) → AreMisc (source text.now) rest
        → ¬ IsRootOrEnd rest) }
    ensures utf8 { IfOk result (λ rest. IsUtf8 rest.now) }
{
    let mut rest = after_space(text);
    while let Some(after) = after_piece(rest)? {
        rest = after_space(after);
    }
    Ok(rest)
}

/// What follows the comment or the processing instruction at the front, if one is there.
fn after_piece(text: &str) -> Result<Option<&str>, Stop>
    ensures reads { GoesPastSome text.now result }
    ensures piece { IfOk result
        (λ found. MatchOption found ((rest : List ℕ) → ¬ IsPiece (source text.now) rest)
        (λ rest. IsPiece (source text.now) (source rest.now))) }
    ensures refused { IfErr result (λ _. IsBroken (source text.now)) }
    ensures utf8 { IfOk result (λ found. IfSome found (λ rest. IsUtf8 rest.now)) }
{
    match after_comment(text)? {
        Some(after) => Ok(Some(after)),
        None => after_instruction(text),
    }
}

/// Appends a character as a document's text has it: each line end is one line feed (XML 1.0, 2.11).
fn push_normal(out: &mut String, c: char, after: &str) -> Result<(), AllocError>
    ensures { IfOk result (λ _. chars (string_bytes out.new) ≡ chars
        (string_bytes out.old) ++ normal c (chars after.now)) }
{
    if c != '\r' {
        return out.push(c);
    }
    if begins(after, '\n') {
        return Ok(());
    }
    out.push('\n')
}

/// Appends the characters of the CDATA section at the front, if one is there, and answers what follows it (XML 1.0,
/// productions 18 to 21).
fn read_section<'a>(text: &'a str, out: &mut String) -> Result<Option<&'a str>, Stop>
    ensures reads { GoesPastSome text.now result }
    ensures section { IfOk result
        (λ found. MatchOption found (string_bytes out.new ≡ string_bytes out.old)
        (λ rest. Appends (string_bytes out.old) (string_bytes out.new)
        (λ inside. IsSection (source text.now) inside (source rest.now)))) }
    ensures none { IfOk result (λ found. IsNone found
        → (inside rest : List ℕ) → ¬ IsSection (source text.now) inside rest) }
    ensures refused { IfErr result (λ stop. IsOfText stop.kind → IsBroken (source text.now)) }
    ensures utf8 { IfOk result (λ found. IfSome found (λ rest. IsUtf8 rest.now)) }
{
    let Some(inside) = after_front(text, "<![CDATA[") else {
        return Ok(None);
    };
    let mut rest = inside;
    while let Some((c, after)) = split_char(rest) {
        if let Some(behind) = after_front(rest, "]]>") {
            return Ok(Some(behind));
        }
        if !is_xml_char(c) {
            return Err(Stop::before(rest, XmlFaultKind::Character));
        }
        push_normal(out, c, after)?;
        rest = after;
    }
    Err(Stop::before(text, XmlFaultKind::Section))
}

/// Why the first character can't stand in the text of an element, if it can't.
fn wrong_character(c: char, after: &str) -> Option<XmlFaultKind>
    requires ampersand { c ≢ 38 }
    requires less_than { c ≢ 60 }
    ensures right { result ≡ None → (is_data_char c ≡ true)
        × ((behind : List ℕ) → c ∷ chars after.now ≢ codes "]]>" ++ behind) }
    ensures wrong { IfSome result (λ _. (is_data_char c ≡ false)
        ⊎ ((behind : List ℕ) × (c ∷ chars after.now ≡ codes "]]>" ++ behind))) }
{
    if c == ']' && after_front(after, "]>").is_some() {
        return Some(XmlFaultKind::SectionEnd);
    }
    if is_xml_char(c) {
        None
    } else {
        Some(XmlFaultKind::Character)
    }
}

/// Appends the first character of a text, behind which `after` follows (XML 1.0, production 14).
fn read_character(text: &str, c: char, after: &str, out: &mut String) -> Result<(), Stop>
    requires first { chars text.now ≡ c ∷ chars after.now }
    requires ampersand { c ≢ 38 }
    requires less_than { c ≢ 60 }
    ensures reads { IfErr result (StopsWithin text.now) }
    ensures characters { IfOk result (λ _. Appends (string_bytes out.old) (string_bytes out.new)
        (λ added. IsCharacters (source text.now) added (source after.now))) }
    ensures refused { IfErr result (λ stop. IsOfText stop.kind → ReachNoTag (source text.now)) }
{
    if let Some(kind) = wrong_character(c, after) {
        return Err(Stop::before(text, kind));
    }
    push_normal(out, c, after)?;
    Ok(())
}

/// Appends what the reference at the front stands for, and answers what follows it.
fn read_reference<'a>(text: &'a str, out: &mut String) -> Result<&'a str, Stop>
    ensures reads { GoesPast text.now result }
    ensures characters { IfOk result (λ rest. Appends (string_bytes out.old) (string_bytes out.new)
        (λ added. IsCharacters (source text.now) added (source rest.now))) }
    ensures refused { IfErr result (λ stop. IsOfText stop.kind → (c : ℕ) (rest : List ℕ)
        → ¬ IsReference (source text.now) c rest) }
    ensures utf8 { IfOk result (λ rest. IsUtf8 rest.now) }
{
    let (c, after) = split_reference(text)?;
    out.push(c)?;
    Ok(after)
}

/// Appends the characters of what is at the front, if that is no tag, and answers what follows it: a character, a
/// reference, a CDATA section, a comment or a processing instruction (XML 1.0, production 43).
fn read_run<'a>(text: &'a str, out: &mut String) -> Result<Option<&'a str>, Stop>
    ensures reads { GoesPastSome text.now result }
    ensures characters { IfOk result
        (λ found. MatchOption found (string_bytes out.new ≡ string_bytes out.old)
        (λ rest. Appends (string_bytes out.old) (string_bytes out.new)
        (λ added. IsCharacters (source text.now) added (source rest.now)))) }
    ensures none { IfOk result (λ found. IsNone found → IsBare (source text.now)) }
    ensures utf8 { IfOk result (λ found. IfSome found (λ rest. IsUtf8 rest.now)) }
    ensures refused { IfErr result (λ stop. IsOfText stop.kind → ReachNoTag (source text.now)) }
{
    match split_char(text) {
        None => Ok(None),
        Some(('&', _)) => Ok(Some(read_reference(text, out)?)),
        Some(('<', _)) => match read_section(text, out)? {
            Some(after) => Ok(Some(after)),
            None => after_piece(text),
        },
        Some((c, after)) => {
            read_character(text, c, after, out)?;
            Ok(Some(after))
        }
    }
}

/// The characters before the next tag or the end, how many bytes follow the start of what the first of them is from, and
/// what follows them all (XML 1.0, production 43).
pub(crate) fn split_text(alloc: Global, text: &str) -> Result<(String, usize, &str), Stop>
    ensures characters { IfOk result
        (λ p. IsCharacters (source text.now) (chars (string_bytes p.0)) (source p.2.now)) }
    ensures all { IfOk result (λ p. IsBare (source p.2.now)) }
    ensures utf8 { IfOk result (λ p. IsUtf8 p.2.now) }
    ensures left { IfOk result (λ p. (length p.2.now ≤ length text.now) × (p.1 ≤ length text.now)) }
    ensures start { IfOk result (λ p. 0 < string_len p.0 → length p.2.now < p.1) }
    ensures err { IfErr result (StopsWithin text.now) }
    ensures refused { IfErr result (λ stop. IsOfText stop.kind → ReachNoTag (source text.now)) }
{
    let mut content = String::new(alloc);
    let mut left = text.len();
    let mut rest = text;
    while let Some(after) = read_run(rest, &mut content)? {
        rest = after;
        if content.is_empty() {
            left = rest.len();
        }
    }
    Ok((content, left, rest))
}
