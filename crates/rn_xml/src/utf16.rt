// UTF-16 as bytes of either order (RFC 2781).
ghost use Rattle.std.specs.Prelude.{◌≡◌, ◌∷◌, ◌++◌, ◌<◌, [], length, flat_map, string_bytes, IfErr, IfOk, IfSome, MatchOption};
ghost use Rattle.std.specs.Char.{IsScalar};
ghost use Rattle.std.specs.Char.Escape.{encode_utf16};
ghost use Rattle.std.specs.Str.{chars};
ghost use Rattle.rn_xml.specs.Encodings.{utf16_bytes};
ghost use Rattle.rn_xml.specs.inside.Undecoded.{HasPlace};
ghost use Rattle.rn_xml.specs.inside.Units.{unit_bytes};

use crate::encoding::{ended, refused};
use crate::xml_fault::{Encoding, Undecoded, XmlFaultKind};
use std::alloc::Global;

/// Which byte of a unit comes first.
#[derive(Clone, Copy)]
pub(crate) enum ByteOrder {
    /// The more significant one.
    Big,
    /// The less significant one.
    Little,
}

/// The first unit, and what follows it; `None` where fewer than two bytes are there.
fn split_unit(bytes: &[u8], order: ByteOrder) -> Option<(u16, &[u8])>
    ensures cases { MatchOption result (length bytes.now < 2)
        (λ p. bytes.now ≡ unit_bytes order p.0 ++ p.1.now) }
    ensures shorter { IfSome result (λ p. length p.1.now < length bytes.now) }
{
    let [first, second, rest @ ..] = bytes else {
        return None;
    };
    let unit = match order {
        ByteOrder::Big => u16::from_be_bytes([*first, *second]),
        ByteOrder::Little => u16::from_le_bytes([*first, *second]),
    };
    Some((unit, rest))
}

/// The character that two surrogates stand for, if these are two.
fn paired(high: u16, low: u16) -> Option<char>
    ensures units { IfSome result (λ c. encode_utf16 c ≡ high ∷ low ∷ []) }
    ensures scalar { IfSome result IsScalar }
{
    let above = u32::from(high).checked_sub(0xD800)?;
    let below = u32::from(low).checked_sub(0xDC00)?;
    if above < 0x400 && below < 0x400 {
        char::from_u32(0x10000 + above * 0x400 + below)
    } else {
        None
    }
}

/// The first character, and what follows it; `None` where none is there.
fn split_char(bytes: &[u8], order: ByteOrder) -> Option<(char, &[u8])>
    ensures units { IfSome result
        (λ p. bytes.now ≡ flat_map (unit_bytes order) (encode_utf16 p.0) ++ p.1.now) }
    ensures scalar { IfSome result (λ p. IsScalar p.0) }
    ensures shorter { IfSome result (λ p. length p.1.now < length bytes.now) }
{
    let (first, rest) = split_unit(bytes, order)?;
    if let Some(c) = char::from_u32(u32::from(first)) {
        return Some((c, rest));
    }
    let (second, rest) = split_unit(rest, order)?;
    Some((paired(first, second)?, rest))
}

/// Whether the first character behind white space is `<`.
pub(crate) fn begins_with_tag(bytes: &[u8], order: ByteOrder) -> bool {
    let mut rest = bytes;
    while let Some((c, after)) = split_char(rest, order) {
        if !matches!(c, ' ' | '\t' | '\n' | '\r') {
            return c == '<';
        }
        rest = after;
    }
    false
}

/// The text of the bytes.
pub(crate) fn decode_utf16(
    alloc: Global,
    bytes: &[u8],
    order: ByteOrder,
) -> Result<String, Undecoded>
    ensures text { IfOk result
        (λ t. bytes.now ≡ utf16_bytes (unit_bytes order) (chars (string_bytes t))) }
    ensures place { IfErr result HasPlace }
{
    let mut text = String::new(alloc);
    let mut rest = bytes;
    while let Some((c, after)) = split_char(rest, order) {
        if text.push(c).is_err() {
            return Err(refused(alloc));
        }
        rest = after;
    }
    if rest.is_empty() {
        Ok(text)
    } else {
        Err(ended(text, XmlFaultKind::NotEncoded(Encoding::Utf16)))
    }
}
