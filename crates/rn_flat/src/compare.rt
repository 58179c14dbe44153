// Where a file differs from the schema, and the fault that says so.
ghost use Rattle.std.specs.Prelude.{◌≡◌, MatchOption, OnOk};
ghost use Rattle.rn_files.specs.ReadableFiles.{IsGiven};
ghost use Rattle.rn_flat.specs.Comparisons.{DifferFirst};

use crate::flat_fault::{FlatFault, plain_lines, refusal_fault};
use rn_files::{FileFault, Files, Kinds, STANDARD_INPUT, line_of, position};
use rn_report::{
    Format, Message, MessageKind, Messages, Page, SHOWN, Spot, push_printable, skipped_front,
};
use std::alloc::{AllocError, Global};

/// The most bytes of a character.
const LONGEST: usize = 4;

/// The first byte at which two texts differ, if they do: the end of the shorter one, where it is the front of the
/// other.
pub fn first_difference(found: &[u8], wanted: &[u8]) -> Option<usize>
    ensures { MatchOption result (found.now ≡ wanted.now) (DifferFirst found.now wanted.now) }
{
    let shorter = found.len().min(wanted.len());
    for at in 0..shorter {
        if found[at] != wanted[at] {
            return Some(at);
        }
    }
    if found.len() == wanted.len() {
        None
    } else {
        Some(shorter)
    }
}

/// Refuses a file that has other bytes than the schema: the fault tells where the first difference is and what the
/// schema has there, or why the file can't be read, or that memory ran out.
pub fn check_file<F: Files>(
    alloc: Global,
    files: &F,
    path: &str,
    schema: &[u8],
    format: Format,
) -> Result<(), FlatFault>
    ensures { OnOk result (IsGiven (F.gives files.now) path.now schema.now) }
{
    let found = match files.read(alloc, path, Kinds::Any) {
        Ok(opened) => opened.bytes,
        Err(FileFault::Memory) => return Err(FlatFault::Memory),
        Err(fault) => return Err(unread_fault(alloc, path, fault, format)?),
    };
    match first_difference(found.as_slice(), schema) {
        None => Ok(()),
        Some(at) => Err(difference_fault(alloc, path, found.as_slice(), schema, at, format)?),
    }
}

/// The file that is checked can't be read.
fn unread_fault(
    alloc: Global,
    path: &str,
    fault: FileFault,
    format: Format,
) -> Result<FlatFault, AllocError> {
    let sentence = format!(in alloc; "{path}: {fault}")?;
    let lines = plain_lines(alloc, MessageKind::Unreadable, sentence, format)?;
    Ok(FlatFault::Unread(lines))
}

/// The file that is checked is not the schema, from this byte on.
fn difference_fault(
    alloc: Global,
    path: &str,
    found: &[u8],
    schema: &[u8],
    at: usize,
    format: Format,
) -> Result<FlatFault, AllocError> {
    let found = String::from_utf8_lossy(alloc, found)?;
    let schema = String::from_utf8_lossy(alloc, schema)?;
    let at = character_start(schema.as_str(), at);
    told_difference(alloc, path, found.as_str(), schema.as_str(), at, format)
}

/// What is told of a text that is not the schema from the character on that begins at this byte.
fn told_difference<'a>(
    alloc: Global,
    path: &'a str,
    found: &'a str,
    schema: &str,
    at: usize,
    format: Format,
) -> Result<FlatFault, AllocError> {
    let spot = Some(Spot { file: 0, at });
    let sentence = difference(alloc, schema, at)?;
    let message = Message::new(alloc, MessageKind::Difference, spot, sentence);
    let mut told = Messages::of_message(alloc, message)?;
    let count = count_sentence(alloc, path, found, schema)?;
    told.messages
        .push(Message::new(alloc, MessageKind::Difference, None, count))?;
    let page = Page {
        name: path,
        path,
        text: found,
        written: None,
    };
    refusal_fault(alloc, &[page], &told, format)
}

/// How many lines differ, and what writes the schema.
fn count_sentence(
    alloc: Global,
    path: &str,
    found: &str,
    schema: &str,
) -> Result<String, AllocError> {
    let found = sorted_lines(alloc, found)?;
    let schema = sorted_lines(alloc, schema)?;
    let others = count_lacking(found.as_slice(), schema.as_slice());
    let missing = count_lacking(schema.as_slice(), found.as_slice());
    let output = if path == STANDARD_INPUT { "FILE" } else { path };
    format!(in alloc;
        "lines of the file that the schema lacks: {others}, lines of the schema that the file lacks: {missing}; -o {output} in place of --check {path} writes the schema"
    )
}

/// The lines of a text, in order.
fn sorted_lines(alloc: Global, text: &str) -> Result<Vec<&str>, AllocError> {
    let mut lines: Vec<&str> = text.split('\n').collect(alloc)?;
    lines.sort()?;
    Ok(lines)
}

/// How many of the lines others lack. One that is there several times is lacked as often as it is there more. Both are in
/// order.
fn count_lacking(lines: &[&str], others: &[&str]) -> usize {
    let mut rest = others;
    let mut count = 0_usize;
    for line in lines {
        let smaller = rest.partition_point(|other| *other < *line);
        rest = rest.get(smaller..).unwrap_or(&[]);
        match rest {
            [first, behind @ ..] if *first == *line => rest = behind,
            _ => count = count.saturating_add(1),
        }
    }
    count
}

/// The first byte of the character in which a byte of a text is.
fn character_start(text: &str, at: usize) -> usize {
    let mut start = at;
    for _ in 0..LONGEST {
        if text.is_char_boundary(start) {
            break;
        }
        start = start.saturating_sub(1);
    }
    start
}

/// What the schema has in the line of a byte, which a file lacks: of a long line the part that messages show.
fn difference(alloc: Global, schema: &str, at: usize) -> Result<String, AllocError> {
    let mut sentence = String::from_str(alloc, "this is not the schema, which ")?;
    if at >= schema.len() {
        sentence.push_str("ends before this line")?;
        return Ok(sentence);
    }
    sentence.push_str("has here: ")?;
    let line = line_of(schema, at);
    let skipped = skipped_front(line, position(schema, at).column);
    for character in line.chars().skip(skipped).take(SHOWN) {
        sentence.push(character)?;
    }
    Ok(sentence)
}
