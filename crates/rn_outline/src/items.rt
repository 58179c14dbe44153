// Items of grammars and of includes (compact syntax, section 2, grammarContent and includeContent).
ghost use Rattle.std.specs.Prelude.{◌<◌, ◌≤◌, ◌+◌, length};
ghost use Rattle.rn_text.specs.inside.Reading.{GoesPast};

use crate::file_parts::{FilePartKind, OutlineMethod};
use crate::outline_fault::{TokenFault, Wanted};
use crate::outline_reader::{Frame, Mode, Reader};
use crate::signs::{Sign, Word, end, sign_at, span};
use crate::skips::{annotation, inherit, left_brace, literal_at};
use rn_text::Token;

/// Reads the front of an item, or the end of the items.
pub(crate) fn item(
    reader: &mut Reader,
    tokens: &[Token<'_>],
    at: usize,
) -> Result<usize, TokenFault>
    requires { at ≤ length tokens.now }
    ensures { GoesPast at (length tokens.now) result }
{
    match sign_at(tokens, at) {
        Sign::LeftBracket => annotation(tokens, at),
        Sign::Prefixed => annotation(tokens, at + 1),
        Sign::Ident => named_item(reader, tokens, at),
        Sign::Word(Word::Start) => start(reader, tokens, at),
        Sign::Word(Word::Div) => {
            let inside = left_brace(tokens, at + 1)?;
            reader.open(Frame::Div, Mode::Item)?;
            Ok(inside)
        }
        Sign::Word(Word::Include) => include(reader, tokens, at),
        Sign::RightBrace => {
            close(reader, end(tokens, at + 1)).ok_or(TokenFault::Stuck(at))?;
            Ok(at + 1)
        }
        _ => Err(TokenFault::Stuck(at)),
    }
}

/// A definition, or an annotation element.
fn named_item(reader: &mut Reader, tokens: &[Token<'_>], at: usize) -> Result<usize, TokenFault>
    requires { at < length tokens.now }
    ensures { GoesPast at (length tokens.now) result }
{
    match sign_at(tokens, at + 1) {
        Sign::LeftBracket => annotation(tokens, at + 1),
        Sign::Assign(method) => {
            define(reader, tokens, at, method)?;
            Ok(at + 2)
        }
        _ => Err(TokenFault::Lacking(at + 1, Wanted::Assignment)),
    }
}

fn define(
    reader: &mut Reader,
    tokens: &[Token<'_>],
    at: usize,
    method: OutlineMethod,
) -> Result<(), TokenFault>
    requires { at + 1 < length tokens.now }
{
    let name = span(tokens, at, at + 1);
    let kind = FilePartKind::Define {
        name,
        method,
        body: span(tokens, at + 2, at + 2),
        within: reader.within,
        only_data: true,
    };
    reader.note(name, kind)?;
    reader.begin_body(Frame::Body)
}

fn start(reader: &mut Reader, tokens: &[Token<'_>], at: usize) -> Result<usize, TokenFault>
    requires { at < length tokens.now }
    ensures { GoesPast at (length tokens.now) result }
{
    let Sign::Assign(method) = sign_at(tokens, at + 1) else {
        return Err(TokenFault::Lacking(at + 1, Wanted::Assignment));
    };
    let word = span(tokens, at, at + 1);
    let kind = FilePartKind::Start {
        word,
        method,
        body: span(tokens, at + 2, at + 2),
        within: reader.within,
        only_data: true,
    };
    reader.note(word, kind)?;
    reader.begin_body(Frame::Body)?;
    Ok(at + 2)
}

fn include(reader: &mut Reader, tokens: &[Token<'_>], at: usize) -> Result<usize, TokenFault>
    requires { at < length tokens.now }
    ensures { GoesPast at (length tokens.now) result }
{
    if reader.within.is_some() {
        return Err(TokenFault::Stuck(at));
    }
    let (literal, literal_at, behind) = literal_at(reader.alloc, tokens, at + 1)?;
    let (inherit, close) = inherit(tokens, behind)?;
    let number = reader.parts.len();
    let kind = FilePartKind::Include {
        literal,
        literal_at,
        inherit,
    };
    reader.note(span(tokens, at, close), kind)?;
    let Sign::LeftBrace = sign_at(tokens, close) else {
        return Ok(close);
    };
    reader.open(Frame::Overrides { include: number }, Mode::Item)?;
    reader.within = Some(number);
    Ok(close + 1)
}

/// Closes the items that are read, at a byte; unless no items are.
fn close(reader: &mut Reader, end: usize) -> Option<()> {
    match reader.frames.pop()? {
        Frame::Div => {}
        Frame::Overrides { include } => {
            reader.within = None;
            reader.end_part(include, end);
        }
        Frame::Grammar {
            part,
            outer,
            within,
            body,
        } => {
            reader.end_part(part, end);
            reader.grammar = outer;
            reader.within = within;
            reader.body = body;
            reader.mode = Mode::Behind;
        }
        Frame::Outer => reader.mode = Mode::Closed,
        _ => return None,
    }
    Some(())
}

/// Ends the definition that is read before a token, and reads on.
pub(crate) fn next_item(
    reader: &mut Reader,
    tokens: &[Token<'_>],
    at: usize,
) -> Result<usize, TokenFault>
    requires { at ≤ length tokens.now }
    ensures { GoesPast at (length tokens.now) result }
{
    reader.end_body(end(tokens, at));
    item(reader, tokens, at)
}
