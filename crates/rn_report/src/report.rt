// Messages with their places, and how they are shown.
ghost use Rattle.std.specs.Prelude.{◌≡◌, ◌<◌, ◌≤◌, ◌++◌, IfOk, IsFalse, IsTrue, OnOk, if◌then◌else◌, slice_get, string_bytes, vec_len};
ghost use Rattle.rn_report.specs.Limits.{max_told};
ghost use Rattle.rn_report.specs.Messages.{AreLines, IsFew, IsMessagePlace, IsPlaceAt, IsPlaceIn, note};
ghost use Rattle.rn_report.specs.inside.Messages.{AddsMessage, one_more};
ghost use Rattle.rn_report.specs.PrintedCharacters.{colour, head, is_hidden, painted, printable, printed, word};

use crate::message_kinds::MessageKind;
use crate::showing::shown_lines::push_source;
use rn_files::{Attempt, SourceFile, XmlSource, position};
use std::alloc::{AllocError, Global};
use unicode::properties::GeneralCategory;

/// The most messages that are told together; faults beyond them are counted.
pub const MAX_TOLD: usize = 20;

/// The most characters of a name or a token that are shown.
const SHOWN_NAME: usize = 80;

/// The most characters of a path or a URI that are shown where no file was found.
const SHOWN_PLACE: usize = 400;

/// How grave a message is.
#[derive(Clone, Copy, Debug, PartialEq, Eq)]
pub enum Grade {
    /// Why there is no schema.
    Error,
    /// What else is to be known.
    Note,
}

/// A place in the files.
#[derive(Clone, Copy, Debug, PartialEq, Eq)]
pub struct Spot {
    /// The number of the file.
    pub file: usize,
    /// The byte of the file's text, counted from 0.
    pub at: usize,
}

/// A sentence about a place, or about all files.
#[derive(Debug, Drop)]
pub struct Message {
    /// What it is about.
    pub kind: MessageKind,
    /// The place; `None` where it is about all files.
    pub spot: Option<Spot>,
    /// What is wrong there, without a stop at its end.
    pub sentence: String,
    /// Further places that the sentence names, in its order.
    pub others: Vec<Spot>,
}

impl Message {
    /// A message that names no further place. It takes no memory.
    pub fn new(alloc: Global, kind: MessageKind, spot: Option<Spot>, sentence: String) -> Message
        ensures spot { result.spot ≡ spot }
        ensures sentence { result.sentence ≡ sentence }
        ensures kind { result.kind ≡ kind }
        ensures others { vec_len result.others ≡ 0 }
    {
        Message {
            kind,
            spot,
            sentence,
            others: Vec::new(alloc),
        }
    }
}

/// The messages that are told, and how many faults are not told.
#[derive(Debug, Drop)]
pub struct Messages {
    /// At most [`MAX_TOLD`], in the order in which they are printed.
    pub messages: Vec<Message>,
    /// How many faults there are for which no message is told.
    pub further: usize,
}

impl Messages {
    /// No messages, and no faults that are not told. It takes no memory.
    pub fn new(alloc: Global) -> Messages
        ensures { vec_len result.messages ≡ 0 }
    {
        Messages {
            messages: Vec::new(alloc),
            further: 0,
        }
    }

    /// One message.
    pub fn of_message(alloc: Global, message: Message) -> Result<Messages, AllocError>
        ensures { IfOk result IsFew }
    {
        let mut told = Messages::new(alloc);
        told.messages.push(message)?;
        Ok(told)
    }

    /// Whether there is no room for another message. Then the one that is left out is counted.
    pub(crate) fn count_if_full(&mut self) -> bool
        ensures room { IsFalse result → vec_len self.new.messages < max_told }
        ensures full { IsTrue result → max_told ≤ vec_len self.new.messages }
        ensures counted { self.new.further
            ≡ (if result then one_more self.old.further else self.old.further) }
        ensures kept { self.new.messages ≡ self.old.messages }
    {
        if self.messages.len() < MAX_TOLD {
            return false;
        }
        self.further = self.further.saturating_add(1);
        true
    }
}

/// A file as messages show it.
#[derive(Clone, Copy, Debug)]
pub struct Page<'a> {
    /// The name of the file's module.
    pub name: &'a str,
    /// The path of the file, as it is told to people.
    pub path: &'a str,
    /// The text of the file, or a front of the text; of a file in the XML syntax the text that was made of it.
    pub text: &'a str,
    /// What is written in the file, if it is in the XML syntax.
    pub written: Option<&'a XmlSource>,
}

impl<'a> Page<'a> {
    ghost use Rattle.rn_report.specs.Messages.{written_byte, written_text};

    /// A source as messages show it.
    fn of_source(file: &'a SourceFile) -> Page<'a> {
        Page {
            name: file.name.as_str(),
            path: file.shown.as_str(),
            text: file.text.as_str(),
            written: file.written.as_ref(),
        }
    }

    /// A file as messages show it, as far as it was read.
    fn of_attempt(file: &'a Attempt) -> Page<'a> {
        Page {
            name: file.name.as_str(),
            path: file.shown.as_str(),
            text: file.text.as_str(),
            written: file.written.as_ref(),
        }
    }

    /// Whether the file is in the XML syntax.
    pub(crate) fn is_xml(&self) -> bool {
        self.written.is_some()
    }

    /// What is written in the file, or a front of it.
    pub(crate) fn written_text(&self) -> &'a str
        ensures { result.now ≡ written_text self.now }
    {
        match self.written {
            Some(written) => written.text.as_str(),
            None => self.text,
        }
    }

    /// The byte of what is written for which a byte of the text stands.
    pub(crate) fn written_byte(&self, at: usize) -> usize
        ensures { result ≡ written_byte self.now at }
    {
        match self.written {
            Some(written) => written.origin(at),
            None => at,
        }
    }
}

/// The text of the page with this number; nothing where there is none.
pub(crate) fn text_of_page<'a>(pages: &[Page<'a>], number: usize) -> &'a str {
    match pages.get(number) {
        Some(page) => page.text,
        None => "",
    }
}

/// Whether the page with this number is of a file in the XML syntax.
pub(crate) fn is_xml_page(pages: &[Page<'_>], number: usize) -> bool {
    pages.get(number).is_some_and(|page| page.is_xml())
}

/// The sources as messages show them.
pub fn source_pages(alloc: Global, files: &[SourceFile]) -> Result<Vec<Page<'_>>, AllocError> {
    let mut pages = Vec::new(alloc);
    for file in files {
        pages.push(Page::of_source(file))?;
    }
    Ok(pages)
}

/// Files as far as they were read, as messages show them.
pub fn attempt_pages(alloc: Global, files: &[Attempt]) -> Result<Vec<Page<'_>>, AllocError> {
    let mut pages = Vec::new(alloc);
    for file in files {
        pages.push(Page::of_attempt(file))?;
    }
    Ok(pages)
}

/// Whether messages are shown in colours.
#[derive(Clone, Copy, Debug, PartialEq, Eq)]
pub enum Colours {
    /// No colours.
    Plain,
    /// The colours of a terminal.
    Terminal,
}

/// What is told, as lines: for each message `FILE:LINE:COLUMN: error: SENTENCE`, the line of the file, and a caret
/// below the place; then a note that says how many faults are not told. A character that would control a terminal, turn
/// the direction of a text, part lines or not be seen is shown as `?` (Unicode's general categories Cc, Cf, Zl and Zp,
/// but for a tab). Of a line of more than [`SHOWN`](crate::SHOWN) characters a part is shown.
pub fn message_lines(
    alloc: Global,
    pages: &[Page<'_>],
    told: &Messages,
    colours: Colours,
) -> Result<String, AllocError>
    ensures { IfOk result (λ lines. AreLines pages.now colours told.now (string_bytes lines)) }
{
    let mut lines = String::new(alloc);
    for message in &told.messages {
        push_message(alloc, &mut lines, pages, message, colours)?;
    }
    let note = note_text(alloc, told.further, colours)?;
    lines.push_str(note.as_str())?;
    Ok(lines)
}

/// Appends the lines of a message.
fn push_message(
    alloc: Global,
    lines: &mut String,
    pages: &[Page<'_>],
    message: &Message,
    colours: Colours,
) -> Result<(), AllocError>
    ensures { OnOk result (AddsMessage pages.now colours message.now
        (string_bytes lines.old) (string_bytes lines.new)) }
{
    let place = place_text(alloc, pages, message.spot)?;
    let source = source_text(alloc, pages, message.spot, colours)?;
    push_head(lines, place.as_str(), Grade::Error, colours)?;
    push_printable(lines, message.sentence.as_str())?;
    lines.push_str("\n")?;
    lines.push_str(source.as_str())
}

/// The line of the file in which the spot is, and a caret below it; nothing where there is no such file.
fn source_text(
    alloc: Global,
    pages: &[Page<'_>],
    spot: Option<Spot>,
    colours: Colours,
) -> Result<String, AllocError> {
    let mut lines = String::new(alloc);
    if let Some(spot) = spot {
        if let Some(page) = pages.get(spot.file) {
            let at = page.written_byte(spot.at);
            push_source(&mut lines, page.written_text(), at, colours)?;
        }
    }
    Ok(lines)
}

/// The note that says how many faults are not told; nothing where all are.
fn note_text(alloc: Global, count: usize, colours: Colours) -> Result<String, AllocError>
    ensures { IfOk result (λ text. string_bytes text ≡ note colours count) }
{
    let mut lines = String::new(alloc);
    if count > 0 {
        push_head(&mut lines, "rnc-flat", Grade::Note, colours)?;
        let sentence = format!(in alloc; "there are more faults, which are not told: {count}\n")?;
        lines.push_str(sentence.as_str())?;
    }
    Ok(lines)
}

/// The place as `FILE:LINE:COLUMN`; the program's name where there is no place.
pub fn place_text(
    alloc: Global,
    pages: &[Page<'_>],
    spot: Option<Spot>,
) -> Result<String, AllocError>
    ensures { IfOk result (λ place. IsMessagePlace pages.now spot (string_bytes place)) }
{
    match spot {
        Some(spot) => spot_text(alloc, pages, spot),
        None => String::from_str(alloc, "rnc-flat"),
    }
}

/// The place of a byte of a file as `FILE:LINE:COLUMN`; the program's name where there is no such file.
fn spot_text(alloc: Global, pages: &[Page<'_>], spot: Spot) -> Result<String, AllocError>
    ensures { IfOk result (λ place. IsPlaceAt (slice_get pages.now spot.file) spot.at
        (string_bytes place)) }
{
    match pages.get(spot.file) {
        Some(page) => {
            let at = page.written_byte(spot.at);
            page_place(alloc, page.path, page.written_text(), at)
        }
        None => String::from_str(alloc, "rnc-flat"),
    }
}

/// The place of a byte of a text in a file as `FILE:LINE:COLUMN`.
fn page_place(alloc: Global, path: &str, text: &str, at: usize) -> Result<String, AllocError>
    ensures { IfOk result (λ place. IsPlaceIn path.now text.now at (string_bytes place)) }
{
    let place = position(text, at);
    let (line, column) = (place.line, place.column);
    format!(in alloc; "{path}:{line}:{column}")
}

/// Appends what stands before a sentence.
fn push_head(
    lines: &mut String,
    place: &str,
    grade: Grade,
    colours: Colours,
) -> Result<(), AllocError>
    ensures { OnOk result (string_bytes lines.new
        ≡ string_bytes lines.old ++ head colours place.now grade) }
{
    lines.push_str(paint(colours, "\u{1B}[1m"))?;
    push_printable(lines, place)?;
    lines.push_str(": ")?;
    lines.push_str(paint(colours, colour(grade)))?;
    lines.push_str(word(grade))?;
    lines.push_str(paint(colours, "\u{1B}[0m"))
}

/// The word of a grade.
fn word(grade: Grade) -> &'static str
    ensures { result.now ≡ word grade }
{
    match grade {
        Grade::Error => "error: ",
        Grade::Note => "note: ",
    }
}

/// What begins the colour of a grade.
fn colour(grade: Grade) -> &'static str
    ensures { result.now ≡ colour grade }
{
    match grade {
        Grade::Error => "\u{1B}[31m",
        Grade::Note => "\u{1B}[36m",
    }
}

/// What changes the colour, where there are colours.
pub(crate) fn paint(colours: Colours, sign: &'static str) -> &'static str
    ensures { result.now ≡ painted colours sign.now }
{
    match colours {
        Colours::Plain => "",
        Colours::Terminal => sign,
    }
}

/// A name or a token as a message shows it: of a longer one the first [`SHOWN_NAME`] characters, and then two dots.
pub(crate) fn shown_name(alloc: Global, name: &str) -> Result<String, AllocError> {
    shown_front(alloc, name, SHOWN_NAME)
}

/// A path or a URI as a message shows it: of a longer one the first [`SHOWN_PLACE`] characters, and then two dots.
pub(crate) fn shown_place(alloc: Global, place: &str) -> Result<String, AllocError> {
    shown_front(alloc, place, SHOWN_PLACE)
}

/// So many characters of a text, and then two dots where it has more.
fn shown_front(alloc: Global, text: &str, most: usize) -> Result<String, AllocError> {
    let mut shown = format!(in alloc; "{text:.most$}")?;
    if shown.len() < text.len() {
        shown.push_str("..")?;
    }
    Ok(shown)
}

/// Appends a text. Each character that would control a terminal, turn the direction of a text, part lines or not be seen
/// is `?` (Unicode's general categories Cc, Cf, Zl and Zp, but for a tab). Refused only when out of memory: a front of
/// the text is there then.
pub fn push_printable(lines: &mut String, text: &str) -> Result<(), AllocError>
    ensures { OnOk result (string_bytes lines.new ≡ string_bytes lines.old ++ printed text.now) }
{
    for character in text.chars() {
        lines.push(printable_character(character))?;
    }
    Ok(())
}

/// Whether characters of a category control a terminal, turn the direction of a text, part lines or are not seen.
fn is_hidden(category: GeneralCategory) -> bool
    ensures { result ≡ is_hidden category }
{
    matches!(
        category,
        GeneralCategory::Control
            | GeneralCategory::Format
            | GeneralCategory::LineSeparator
            | GeneralCategory::ParagraphSeparator
    )
}

/// The character, or `?` where it would do more than be seen; a tab stays.
pub(crate) fn printable_character(character: char) -> char
    ensures { result ≡ printable character }
{
    if is_hidden(GeneralCategory::for_char(character)) && character != '\t' {
        '?'
    } else {
        character
    }
}
