// The line of a file at which something is told, and the caret below the place.
ghost use Rattle.std.specs.Prelude.{◌≡◌, ◌≢◌, ◌∷◌, [], false, length};
ghost use Rattle.std.specs.Option.{unwrap_or};
ghost use Rattle.unicode_width.specs.Width.{char_width};

use crate::report::{Colours, paint, printable_character};
use rn_files::{line_of, position};
use std::alloc::AllocError;
use unicode_width::UnicodeWidthChar;

/// The most characters of a line that are shown.
pub const SHOWN: usize = 160;

/// How many characters before a place are shown of a longer line.
const BEFORE: usize = 80;

/// The byte order mark, which is not shown.
const MARK: char = '\u{FEFF}';

/// The line of the text in which the byte stands, and a caret below the place.
pub(crate) fn push_source(
    lines: &mut String,
    text: &str,
    at: usize,
    colours: Colours,
) -> Result<(), AllocError> {
    let line = shown_line_of(text, at);
    if line.is_empty() {
        return Ok(());
    }
    let column = position(text, at).column;
    let skipped = skipped_front(line, column);
    lines.push_str("    ")?;
    push_part(lines, line, skipped)?;
    lines.push_str("\n    ")?;
    push_indent(lines, line, skipped, column)?;
    lines.push_str(paint(colours, "\u{1B}[1;32m"))?;
    lines.push_str("^")?;
    lines.push_str(paint(colours, "\u{1B}[0m"))?;
    lines.push_str("\n")
}

/// The line in which a byte stands, without its end and without the mark that may stand before the first line.
pub(crate) fn shown_line_of(text: &str, at: usize) -> &str {
    match text.strip_prefix(MARK) {
        Some(rest) => line_of(rest, at.saturating_sub(MARK.len_utf8())),
        None => line_of(text, at),
    }
}

/// How many characters at the front of a line are not shown where the place is in this column, which counts from 1:
/// none where the whole line is shown.
pub fn skipped_front(line: &str, column: usize) -> usize {
    if line.chars().count() > SHOWN {
        column.saturating_sub(1).saturating_sub(BEFORE)
    } else {
        0
    }
}

/// The part of the line that is shown.
fn push_part(lines: &mut String, line: &str, skipped: usize) -> Result<(), AllocError> {
    for character in line.chars().skip(skipped).take(SHOWN) {
        lines.push(printable_character(character))?;
    }
    Ok(())
}

/// White space as wide as what is shown before the column: a tab for each tab, and for another character as many spaces
/// as it takes columns of a terminal (Unicode, Annex 11).
fn push_indent(
    lines: &mut String,
    line: &str,
    skipped: usize,
    column: usize,
) -> Result<(), AllocError> {
    let before = column.saturating_sub(1).saturating_sub(skipped);
    for character in line.chars().skip(skipped).take(before) {
        lines.push_str(blank_of(printable_character(character)))?;
    }
    Ok(())
}

/// White space that takes as many columns as a character that is shown.
fn blank_of(character: char) -> &'static str
    ensures tab { character ≡ 9 → result.now ≡ 9 ∷ [] }
    ensures columns { character ≢ 9
        → length result.now ≡ unwrap_or (char_width false character) 1 }
{
    if character == '\t' {
        return "\t";
    }
    match character.width() {
        Some(0) => "",
        Some(2) => "  ",
        Some(3) => "   ",
        _ => " ",
    }
}
