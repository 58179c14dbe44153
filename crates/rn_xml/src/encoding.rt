// The text that bytes are, in the encoding that they declare (XML 1.0 Fifth Edition, 4.3.3 and appendix F).
ghost use Rattle.std.specs.Prelude.{◌≡◌, ◌≤◌, ◌++◌, ℕ, List, true, length, nat_le, string_bytes, IfErr, IfOk, IsTrue, MatchOption};
ghost use Rattle.std.specs.Str.{chars, IsUtf8};
ghost use Rattle.std.specs.List.{list_all};
ghost use Rattle.rn_text.specs.Segments.{after_run};
ghost use Rattle.rn_text.specs.Texts.{is_white};
ghost use Rattle.rn_xml.specs.Encodings.{may_be_xml, unmarked, IsCalled, IsDecoded};
ghost use Rattle.rn_xml.specs.inside.Declared.{IsDeclared};
ghost use Rattle.rn_xml.specs.inside.Undecoded.{HasPlace};
ghost use Rattle.rn_xml.specs.inside.Units.{mark};

use crate::declaration::declared_encoding;
use crate::utf16::{ByteOrder, begins_with_tag, decode_utf16};
use crate::xml_fault::{Encoding, Undecoded, XmlFault, XmlFaultKind};
use std::alloc::Global;

/// What follows the white space at the front.
fn after_white(bytes: &[u8]) -> &[u8]
    ensures { result.now ≡ after_run is_white bytes.now }
{
    let mut rest = bytes;
    while let [b' ' | b'\t' | b'\n' | b'\r', after @ ..] = rest {
        rest = after;
    }
    rest
}

/// Whether the bytes may be a document of XML: their first character behind a byte order mark and white space is `<`.
/// UTF-8, ISO-8859-1, US-ASCII, and UTF-16 behind its mark are told apart.
pub fn is_xml(bytes: &[u8]) -> bool
    ensures { IsTrue result → may_be_xml bytes.now ≡ true }
{
    match bytes {
        [0xFE, 0xFF, units @ ..] => begins_with_tag(units, ByteOrder::Big),
        [0xFF, 0xFE, units @ ..] => begins_with_tag(units, ByteOrder::Little),
        [0xEF, 0xBB, 0xBF, text @ ..] => matches!(after_white(text), [b'<', ..]),
        _ => matches!(after_white(bytes), [b'<', ..]),
    }
}

/// The encoding of this name, in any case, if it is one that is read (XML 1.0, 4.3.3).
fn encoding_named(name: &str) -> Option<Encoding>
    ensures { MatchOption result ((e : Encoding) → ¬ IsCalled e name.now)
        (λ e. IsCalled e name.now) }
{
    if name.eq_ignore_ascii_case("UTF-8") {
        return Some(Encoding::Utf8);
    }
    if name.eq_ignore_ascii_case("UTF-16") {
        return Some(Encoding::Utf16);
    }
    if name.eq_ignore_ascii_case("ISO-8859-1") {
        return Some(Encoding::Latin1);
    }
    if name.eq_ignore_ascii_case("US-ASCII") {
        return Some(Encoding::Ascii);
    }
    None
}

/// The longest front that is UTF-8.
fn utf8_front(bytes: &[u8]) -> &str
    ensures front { (behind : List ℕ) × (bytes.now ≡ result.now ++ behind) }
    ensures text { IsUtf8 result.now }
{
    match str::from_utf8(bytes) {
        Ok(text) => text,
        Err(e) => str::from_utf8(&bytes[..e.valid_up_to()]).unwrap_or(""),
    }
}

/// That memory was refused.
pub(crate) fn refused(alloc: Global) -> Undecoded
    ensures { HasPlace result }
{
    let fault = XmlFault {
        at: 0,
        kind: XmlFaultKind::Memory,
    };
    Undecoded {
        text: String::new(alloc),
        fault,
    }
}

/// That a text ends in a fault.
pub(crate) fn ended(text: String, kind: XmlFaultKind) -> Undecoded
    ensures { HasPlace result }
{
    let at = text.len();
    Undecoded {
        text,
        fault: XmlFault { at, kind },
    }
}

/// That a text has a fault at this byte.
fn faulty(alloc: Global, text: &str, at: usize, kind: XmlFaultKind) -> Undecoded
    requires { at ≤ length text.now }
    ensures { HasPlace result }
{
    match String::from_str(alloc, text) {
        Ok(text) => Undecoded {
            text,
            fault: XmlFault { at, kind },
        },
        Err(_) => refused(alloc),
    }
}

/// The encoding that the text declares, `meant` where it declares none. Refused where it is none that is read, or
/// another than these bytes can be in.
fn declared(alloc: Global, text: &str, meant: Encoding) -> Result<Encoding, Undecoded>
    ensures encoding { IfOk result (IsDeclared text.now meant) }
    ensures place { IfErr result HasPlace }
{
    let Some(field) = declared_encoding(text) else {
        return Ok(meant);
    };
    let at = text.len() - field.left;
    let in_units = meant == Encoding::Utf16;
    match encoding_named(field.value) {
        Some(encoding) if (encoding == Encoding::Utf16) == in_units => Ok(encoding),
        Some(encoding) => Err(faulty(alloc, text, at, XmlFaultKind::NotEncoded(encoding))),
        None => Err(faulty(alloc, text, at, XmlFaultKind::Encoding)),
    }
}

/// The text of bytes that each are a character, up to this one.
fn decode_single(
    alloc: Global,
    bytes: &[u8],
    most: u8,
    encoding: Encoding,
) -> Result<String, Undecoded>
    ensures text { IfOk result
        (λ t. (chars (string_bytes t) ≡ bytes.now) ×
        (list_all (λ b. nat_le b most) bytes.now ≡ true)) }
    ensures place { IfErr result HasPlace }
{
    let mut text = String::new(alloc);
    for b in bytes {
        if *b > most {
            return Err(ended(text, XmlFaultKind::NotEncoded(encoding)));
        }
        if text.push(char::from(*b)).is_err() {
            return Err(refused(alloc));
        }
    }
    Ok(text)
}

/// The text of the bytes of UTF-8, of which this front is well-formed.
fn decode_utf8(alloc: Global, bytes: &[u8], front: &str) -> Result<String, Undecoded>
    requires { (behind : List ℕ) × (bytes.now ≡ front.now ++ behind) }
    ensures text { IfOk result (λ t. (string_bytes t ≡ bytes.now) × (front.now ≡ bytes.now)) }
    ensures place { IfErr result HasPlace }
{
    if front.len() < bytes.len() {
        return Err(faulty(
            alloc,
            front,
            front.len(),
            XmlFaultKind::NotEncoded(Encoding::Utf8),
        ));
    }
    String::from_str(alloc, front).map_err(|_| refused(alloc))
}

/// The text of bytes that no mark of UTF-16 begins.
fn decode_bytes(alloc: Global, bytes: &[u8]) -> Result<String, Undecoded>
    ensures text { IfOk result
        (λ t. (whole : List ℕ) → unmarked whole ≡ bytes.now → IsDecoded whole (string_bytes t)) }
    ensures place { IfErr result HasPlace }
{
    let front = utf8_front(bytes);
    match declared(alloc, front, Encoding::Utf8)? {
        Encoding::Latin1 => decode_single(alloc, bytes, 255, Encoding::Latin1),
        Encoding::Ascii => decode_single(alloc, bytes, 127, Encoding::Ascii),
        Encoding::Utf8 | Encoding::Utf16 => decode_utf8(alloc, bytes, front),
    }
}

/// The text of the bytes of UTF-16 behind their mark.
fn decode_units(alloc: Global, bytes: &[u8], order: ByteOrder) -> Result<String, Undecoded>
    ensures text { IfOk result (λ t. IsDecoded (mark order ++ bytes.now) (string_bytes t)) }
    ensures place { IfErr result HasPlace }
{
    let text = decode_utf16(alloc, bytes, order)?;
    declared(alloc, &text, Encoding::Utf16)?;
    Ok(text)
}

/// The text of the bytes, without a byte order mark. Read are UTF-8, UTF-16 behind its mark, and ISO-8859-1 and US-ASCII
/// where the XML declaration says so (XML 1.0, 4.3.3). Refused where the declaration names another encoding, or one that
/// the bytes aren't in, and wherever memory is.
pub fn decode(alloc: Global, bytes: &[u8]) -> Result<String, Undecoded>
    ensures text { IfOk result (λ t. IsDecoded bytes.now (string_bytes t)) }
    ensures place { IfErr result (λ u. u.fault.at ≤ length (string_bytes u.text)) }
{
    match bytes {
        [0xFE, 0xFF, units @ ..] => decode_units(alloc, units, ByteOrder::Big),
        [0xFF, 0xFE, units @ ..] => decode_units(alloc, units, ByteOrder::Little),
        [0xEF, 0xBB, 0xBF, rest @ ..] => decode_bytes(alloc, rest),
        _ => decode_bytes(alloc, bytes),
    }
}
