// The line and the column of a byte of a text, and the text of a line.
ghost use Rattle.std.specs.Prelude.{◌≡◌, ◌<◌, ◌≤◌, length, count_by, slice_index, drop, take_while};
ghost use Rattle.std.specs.List.{prefix_len};
ghost use Rattle.std.specs.Str.{IsCharBoundary};
ghost use Rattle.rn_files.specs.TextLines.{IsLineOf, IsPosition, IsPositionIn, begins_character, is_inside, mark_length};

use crate::line_breaks::{Position, line_at};

/// The byte order mark that may stand before a text (RFC 3629, section 6).
const MARK: [u8; 3] = [0xEF, 0xBB, 0xBF];

/// Whether a character of a text begins with the byte.
fn begins_character(byte: u8) -> bool
    ensures { result ≡ begins_character byte }
{
    byte < 0x80 || byte >= 0xC0
}

/// How many characters begin in the bytes.
fn count_characters(bytes: &[u8]) -> usize
    ensures { result ≡ count_by begins_character bytes.now }
{
    bytes.iter().filter(|byte| begins_character(**byte)).count()
}

/// How many bytes the mark has that stands before a text; 0 where there is none.
fn mark_length(bytes: &[u8]) -> usize
    ensures within { result ≤ length bytes.now }
    ensures is { result ≡ mark_length bytes.now }
{
    if bytes.starts_with(&MARK) {
        MARK.len()
    } else {
        0
    }
}

/// Where the byte at `at` stands; behind the last byte where the text has no more. Lines end by LF, CR LF or CR, and an
/// end stands in the line that it closes. The column counts the characters before the byte, but for a byte order mark
/// before the text. One walk over the text.
pub fn position(text: &str, at: usize) -> Position
    ensures { IsPosition text.now at result.line result.column }
{
    let bytes = text.as_bytes();
    let mark = mark_length(bytes);
    position_in(&bytes[mark..], at.saturating_sub(mark))
}

/// Where the byte stands in bytes without a mark.
fn position_in(bytes: &[u8], at: usize) -> Position
    ensures { IsPositionIn bytes.now at result.line result.column }
{
    let (line, start) = line_at(bytes, at);
    let before = &bytes[start..at.min(bytes.len())];
    Position {
        line,
        column: count_characters(before) + 1,
    }
}

/// Whether the byte belongs to no end of a line.
fn is_inside(byte: u8) -> bool
    ensures { result ≡ is_inside byte }
{
    byte != b'\n' && byte != b'\r'
}

/// How many bytes stand before the first LF or CR.
fn inside_length(bytes: &[u8]) -> usize
    ensures within { result ≤ length bytes.now }
    ensures is { result ≡ prefix_len is_inside bytes.now }
    ensures stops { result < length bytes.now → slice_index bytes.now result < 128 }
{
    for (i, byte) in bytes.iter().enumerate() {
        if !is_inside(*byte) {
            return i;
        }
    }
    bytes.len()
}

/// The front of a text up to the first LF or CR.
fn without_end(text: &str) -> &str
    ensures { result.now ≡ take_while is_inside text.now }
{
    let inside = inside_length(text.as_bytes());
    &text[..inside]
}

/// What stands from a byte on.
fn rest_from(text: &str, start: usize) -> &str
    requires { IsCharBoundary text.now start }
    ensures { result.now ≡ drop start text.now }
{
    &text[start..]
}

/// The line in which the byte at `at` stands, without its end; the last line where the text has no more.
pub fn line_of(text: &str, at: usize) -> &str
    ensures { IsLineOf text.now at result.now }
{
    let (_, start) = line_at(text.as_bytes(), at);
    without_end(rest_from(text, start))
}
