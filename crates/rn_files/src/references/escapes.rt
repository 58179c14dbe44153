// Escapes in references and paths (RFC 3986, section 2.1).
ghost use Rattle.std.specs.Prelude.{◌≡◌, ◌++◌, ◌<◌, [], true, IfOk, IsTrue, OnOk, string_bytes};
ghost use Rattle.percent_encoding.specs.Percent.{percent_encode_byte};
ghost use Rattle.rn_files.specs.Escapes.{begins_with_digits, byte_or_escape, escaped_reference, has_escapes, is_allowed};
ghost use Rattle.rn_files.specs.inside.FileUris.{escaped_path, file_uri, is_path_byte};

use super::paths::remove_dot_segments;
use percent_encoding::percent_encode_byte;
use std::alloc::{AllocError, Global};

/// Whether two hexadecimal digits come first.
fn begins_with_digits(bytes: &[u8]) -> bool
    ensures { result ≡ begins_with_digits bytes.now }
{
    match bytes {
        [high, low, ..] => high.is_ascii_hexdigit() && low.is_ascii_hexdigit(),
        _ => false,
    }
}

/// Whether each `%` is followed by two hexadecimal digits.
pub fn has_escapes(bytes: &[u8]) -> bool
    ensures { result ≡ has_escapes bytes.now }
{
    let mut rest = bytes;
    while let [first, behind @ ..] = rest {
        if *first == b'%' && !begins_with_digits(behind) {
            return false;
        }
        rest = behind;
    }
    true
}

/// Whether a byte may stand in a reference to a URI: it is of ASCII, no control, and none of `" < > \ ^ { | }`, space
/// and the grave accent.
fn is_allowed(byte: u8) -> bool
    ensures { result ≡ is_allowed byte }
{
    byte.is_ascii_graphic()
        && !matches!(
            byte,
            b'"' | b'<' | b'>' | b'\\' | b'^' | b'`' | b'{' | b'|' | b'}'
        )
}

/// Whether a path of a URI holds a byte as it is (RFC 3986, section 3.3: `pchar` and `/`).
fn is_path_byte(byte: u8) -> bool
    ensures { result ≡ is_path_byte byte }
{
    byte.is_ascii_alphanumeric()
        || matches!(
            byte,
            b'-' | b'.' | b'_' | b'~' | b'!' | b'$' | b'&'..=b',' | b';' | b'=' | b':' | b'@' | b'/'
        )
}

/// Adds a byte as it is where it is kept, and else its escape.
pub fn push_byte(out: &mut String, byte: u8, is_kept: bool) -> Result<(), AllocError>
    requires ascii { IsTrue is_kept → byte < 128 }
    ensures { OnOk result (string_bytes out.new
        ≡ string_bytes out.old ++ byte_or_escape is_kept byte) }
{
    if is_kept {
        out.push(char::from(byte))
    } else {
        out.push_str(percent_encode_byte(byte))
    }
}

/// The reference with each byte escaped that no URI holds (XLink, section 5.4).
pub fn escape(alloc: Global, reference: &str) -> Result<String, AllocError>
    ensures { IfOk result (λ text. string_bytes text ≡ escaped_reference reference.now) }
{
    let mut out = String::new(alloc);
    for byte in reference.as_bytes() {
        push_byte(&mut out, *byte, is_allowed(*byte))?;
    }
    Ok(out)
}

/// The path with each byte escaped that no path of a URI holds.
fn escaped_path(alloc: Global, path: &str) -> Result<String, AllocError>
    ensures { IfOk result (λ text. string_bytes text ≡ escaped_path path.now) }
{
    let mut out = String::new(alloc);
    for byte in path.as_bytes() {
        push_byte(&mut out, *byte, is_path_byte(*byte))?;
    }
    Ok(out)
}

/// The `file` URI of a path that begins with `/` (RFC 8089), without dot segments: each byte that no path of a URI holds
/// is escaped.
pub fn file_uri(alloc: Global, path: &str) -> Result<String, AllocError>
    ensures { IfOk result (λ uri. string_bytes uri ≡ file_uri path.now) }
{
    let escaped = escaped_path(alloc, path)?;
    let mut out = String::from_str(alloc, "file://")?;
    out.push_str(remove_dot_segments(alloc, escaped.as_str())?.as_str())?;
    Ok(out)
}
