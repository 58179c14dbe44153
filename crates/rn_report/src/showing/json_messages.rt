// Messages as JSON, an object in a line for each.
ghost use Rattle.std.specs.Prelude.{◌≡◌, List, [], IfOk, OnOk, codes, slice_get, string_bytes};
ghost use Rattle.json.specs.Token.{Token};
ghost use Rattle.json.specs.Print.{print};
ghost use Rattle.rn_report.specs.JsonMessages.{AreObjectLines, ArePlaceMembers, ArePlaces, IsObject, IsPlaceOf, IsTextPlace, kind_word, note_line, note_members, note_tokens, number_member, sentence_members, text_member};
ghost use Rattle.rn_report.specs.inside.JsonMessages.{AddsMembers, AddsObject, AddsSpot, AddsTokens, Anything};

use super::shown_lines::shown_line_of;
use crate::message_kinds::{MessageKind, kind_word};
use crate::report::{Message, Messages, Page, Spot};
use json::Writer;
use rn_files::position;
use std::alloc::{AllocError, Global};

/// What is told, as JSON (RFC 8259): for each message an object in a line, with `file`, `line`, `column` and `end` where
/// it has a place, and `severity`, `kind`, `sentence` and `places`, further places of that form; then an object of the
/// severity `note` with the `count` of the faults that are not told. `end` is the column behind the word or the sign at the place.
pub fn message_objects(
    alloc: Global,
    pages: &[Page<'_>],
    told: &Messages,
) -> Result<String, AllocError>
    ensures { IfOk result (λ text. AreObjectLines pages.now told.now (string_bytes text)) }
{
    let mut lines = String::new(alloc);
    for message in &told.messages {
        push_object(alloc, &mut lines, pages, message)?;
    }
    let note = note_object(alloc, told.further)?;
    lines.push_str(note.as_str())?;
    Ok(lines)
}

/// Appends the line of a message.
fn push_object(
    alloc: Global,
    lines: &mut String,
    pages: &[Page<'_>],
    message: &Message,
) -> Result<(), AllocError>
    ensures { OnOk result (AddsObject pages.now message.now
        (string_bytes lines.old) (string_bytes lines.new)) }
{
    let object = object_text(alloc, pages, message)?;
    lines.push_str(object.as_str())?;
    lines.push_str("\n")
}

/// The object of a message.
fn object_text(alloc: Global, pages: &[Page<'_>], message: &Message) -> Result<String, AllocError>
    ensures { IfOk result (λ text. (object : List Token) × IsObject pages.now message.now object
        × (string_bytes text ≡ print object)) }
{
    let mut writer = Writer::new(Vec::new(alloc));
    writer.begin_object()?;
    write_spot(&mut writer, pages, message.spot)?;
    write_sentence(&mut writer, message)?;
    write_others(&mut writer, pages, message.others.as_slice())?;
    writer.end_object()?;
    text_of(alloc, writer)
}

/// What was written.
fn text_of(alloc: Global, writer: Writer) -> Result<String, AllocError>
    requires { writer.before ≡ [] }
    ensures { IfOk result (λ text. string_bytes text ≡ print writer.tokens) }
{
    let bytes = writer.into_inner();
    String::from_utf8_lossy(alloc, bytes.as_slice())
}

/// Writes a member with a text.
fn write_text(writer: &mut Writer, name: &str, text: &str) -> Result<(), AllocError>
    ensures { OnOk result (AddsTokens writer.old writer.new (text_member name.now text.now)) }
{
    writer.key(name)?;
    writer.string(text)
}

/// Writes a member with a number.
fn write_number(writer: &mut Writer, name: &str, number: usize) -> Result<(), AllocError>
    ensures { OnOk result (AddsTokens writer.old writer.new (number_member name.now number)) }
{
    writer.key(name)?;
    writer.u64(number as u64)
}

/// Writes the members that every message has.
fn write_sentence(writer: &mut Writer, message: &Message) -> Result<(), AllocError>
    ensures { OnOk result (AddsTokens writer.old writer.new (sentence_members message.now)) }
{
    write_text(writer, "severity", "error")?;
    write_kind(writer, message.kind)?;
    write_words(writer, message)
}

/// Writes what a message is about.
fn write_kind(writer: &mut Writer, kind: MessageKind) -> Result<(), AllocError>
    ensures { OnOk result (AddsTokens writer.old writer.new
        (text_member (codes "kind") (kind_word kind))) }
{
    write_text(writer, "kind", kind_word(kind))
}

/// Writes the sentence of a message.
fn write_words(writer: &mut Writer, message: &Message) -> Result<(), AllocError>
    ensures { OnOk result (AddsTokens writer.old writer.new
        (text_member (codes "sentence") (string_bytes message.now.sentence))) }
{
    writer.key("sentence")?;
    writer.string(message.sentence.as_str())
}

/// Writes the members of a place; nothing where there is none, or no such file.
fn write_spot(writer: &mut Writer, pages: &[Page<'_>], spot: Option<Spot>) -> Result<(), AllocError>
    ensures { OnOk result (AddsSpot pages.now spot writer.old writer.new) }
{
    match spot {
        Some(spot) => write_file_place(writer, pages, spot),
        None => Ok(()),
    }
}

/// The file with this number, if there is one.
fn page_at<'a>(pages: &[Page<'a>], number: usize) -> Option<Page<'a>>
    ensures { result ≡ slice_get pages.now number }
{
    pages.get(number).copied()
}

/// Writes the members of a place in a file; nothing where there is no such file.
fn write_file_place(writer: &mut Writer, pages: &[Page<'_>], spot: Spot) -> Result<(), AllocError>
    ensures { OnOk result (AddsMembers (ArePlaceMembers (slice_get pages.now spot.file) spot.at)
        writer.old writer.new) }
{
    match page_at(pages, spot.file) {
        Some(page) => write_place(writer, &page, spot.at),
        None => Ok(()),
    }
}

/// Writes the members of the place of a byte of a file.
fn write_place(writer: &mut Writer, page: &Page<'_>, at: usize) -> Result<(), AllocError>
    ensures { OnOk result (AddsMembers (IsPlaceOf page.now at) writer.old writer.new) }
{
    let at = page.written_byte(at);
    write_text_place(writer, page.path, page.written_text(), at)
}

/// Writes the members of the place of a byte of a text in a file.
fn write_text_place(
    writer: &mut Writer,
    path: &str,
    text: &str,
    at: usize,
) -> Result<(), AllocError>
    ensures { OnOk result (AddsMembers (IsTextPlace path.now text.now at) writer.old writer.new) }
{
    let place = position(text, at);
    let length = word_length(shown_line_of(text, at), place.column.saturating_sub(1));
    write_text(writer, "file", path)?;
    write_number(writer, "line", place.line)?;
    write_number(writer, "column", place.column)?;
    write_number(writer, "end", place.column.saturating_add(length))
}

/// Writes the array of the further places of a message.
fn write_others(writer: &mut Writer, pages: &[Page<'_>], spots: &[Spot]) -> Result<(), AllocError>
    ensures { OnOk result (AddsMembers ArePlaces writer.old writer.new) }
{
    writer.key("places")?;
    writer.begin_array()?;
    write_places(writer, pages, spots)?;
    writer.end_array()
}

/// Writes an object for each place.
fn write_places(writer: &mut Writer, pages: &[Page<'_>], spots: &[Spot]) -> Result<(), AllocError>
    ensures { OnOk result (AddsMembers Anything writer.old writer.new) }
{
    for spot in spots {
        writer.begin_object()?;
        write_file_place(writer, pages, *spot)?;
        writer.end_object()?;
    }
    Ok(())
}

/// How many characters a word, a literal or a sign has, from the character of a line behind so many others; none where
/// the line has no more. A word is made of ASCII letters, digits, `_-.:\\` and what is not ASCII.
fn word_length(line: &str, skipped: usize) -> usize {
    let mut rest = line.chars().skip(skipped);
    match rest.next() {
        None => 0,
        Some(quote @ ('"' | '\'')) => match rest.position(|character| character == quote) {
            Some(inside) => inside.saturating_add(2),
            None => 1,
        },
        Some(first) if is_of_word(first) => rest
            .take_while(|character| is_of_word(*character))
            .count()
            .saturating_add(1),
        Some(_) => 1,
    }
}

/// Whether a character belongs to a word.
fn is_of_word(character: char) -> bool {
    character.is_ascii_alphanumeric()
        || !character.is_ascii()
        || matches!(character, '_' | '-' | '.' | ':' | '\\')
}

/// The object that says how many faults are not told, in a line; nothing where all are.
fn note_object(alloc: Global, count: usize) -> Result<String, AllocError>
    ensures { IfOk result (λ text. string_bytes text ≡ note_line count) }
{
    let mut line = String::new(alloc);
    if count > 0 {
        line.push_str(further_object(alloc, count)?.as_str())?;
        line.push_str("\n")?;
    }
    Ok(line)
}

/// The object that says how many faults are not told.
fn further_object(alloc: Global, count: usize) -> Result<String, AllocError>
    ensures { IfOk result (λ text. string_bytes text ≡ print (note_tokens count)) }
{
    let mut writer = Writer::new(Vec::new(alloc));
    writer.begin_object()?;
    write_note(&mut writer, count)?;
    writer.end_object()?;
    text_of(alloc, writer)
}

/// Writes the members of that object.
fn write_note(writer: &mut Writer, count: usize) -> Result<(), AllocError>
    ensures { OnOk result (AddsTokens writer.old writer.new (note_members count)) }
{
    write_text(writer, "severity", "note")?;
    write_further(writer)?;
    write_number(writer, "count", count)
}

/// Writes the kind of that object.
fn write_further(writer: &mut Writer) -> Result<(), AllocError>
    ensures { OnOk result (AddsTokens writer.old writer.new
        (text_member (codes "kind") (codes "further"))) }
{
    write_text(writer, "kind", "further")
}
