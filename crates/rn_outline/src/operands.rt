// Operands of patterns, and what follows them (compact syntax, section 2, pattern).
ghost use Rattle.std.specs.Prelude.{◌≡◌, ◌<◌, ◌≤◌, length, IfOk};
ghost use Rattle.rn_text.specs.inside.Reading.{GoesPast, MayGoPast, Passed};

use crate::file_parts::{FilePartKind, Span};
use crate::items::next_item;
use crate::outline_fault::{TokenFault, Wanted};
use crate::outline_reader::{Frame, Mode, Reader};
use crate::signs::{Sign, Word, end, sign_at, span};
use crate::skips::{
    annotation, follow, ident, inherit, left_brace, literal_at, name_class, params, segments,
};
use rn_text::Token;

/// Reads an operand, or its front up to a bracket that has more patterns in it.
pub(crate) fn operand(
    reader: &mut Reader,
    tokens: &[Token<'_>],
    at: usize,
) -> Result<usize, TokenFault>
    requires { at ≤ length tokens.now }
    ensures { GoesPast at (length tokens.now) result }
{
    match sign_at(tokens, at) {
        Sign::LeftBracket => annotation(tokens, at),
        Sign::LeftParen => {
            let in_except = reader.is_in_except();
            reader.open(Frame::Parens { in_except }, Mode::Operand)?;
            Ok(at + 1)
        }
        Sign::Segment => {
            reader.mode = Mode::Behind;
            segments(tokens, at)
        }
        Sign::Ident => {
            let name = span(tokens, at, at + 1);
            reader.note(name, FilePartKind::Reference { name })?;
            reader.mode = Mode::Behind;
            Ok(at + 1)
        }
        Sign::Prefixed => datatype(reader, tokens, at + 1),
        Sign::Word(word) => keyword(reader, tokens, at, word),
        _ => Err(TokenFault::Lacking(at, Wanted::Pattern)),
    }
}

/// Reads an operand that begins with a keyword, or its front up to a bracket that has more patterns in it.
fn keyword(
    reader: &mut Reader,
    tokens: &[Token<'_>],
    at: usize,
    word: Word,
) -> Result<usize, TokenFault>
    requires { at < length tokens.now }
    ensures { GoesPast at (length tokens.now) result }
{
    match word {
        Word::Datatype => datatype(reader, tokens, at + 1),
        Word::Named => {
            let inside = name_class(tokens, at + 1)?;
            content(reader, inside)
        }
        Word::Braced => {
            let inside = left_brace(tokens, at + 1)?;
            content(reader, inside)
        }
        Word::Plain => {
            reader.note_no_data();
            reader.mode = Mode::Behind;
            Ok(at + 1)
        }
        Word::NotAllowed => {
            reader.mode = Mode::Behind;
            Ok(at + 1)
        }
        Word::Parent => parent(reader, tokens, at),
        Word::External => external(reader, tokens, at),
        Word::Grammar => grammar(reader, tokens, at),
        _ => Err(TokenFault::Lacking(at, Wanted::Pattern)),
    }
}

/// Opens the content of an element, an attribute, `list` or `mixed`.
fn content(reader: &mut Reader, inside: usize) -> Result<usize, TokenFault>
    ensures { IfOk result (λ r. r ≡ inside) }
{
    reader.note_no_data();
    reader.open(Frame::Content, Mode::Operand)?;
    Ok(inside)
}

/// What may follow the name of a datatype: a literal makes it a value; parameters and an except may follow.
fn datatype(reader: &mut Reader, tokens: &[Token<'_>], at: usize) -> Result<usize, TokenFault>
    requires { at ≤ length tokens.now }
    ensures { MayGoPast at (length tokens.now) result }
{
    match sign_at(tokens, at) {
        Sign::Segment => {
            reader.mode = Mode::Behind;
            segments(tokens, at)
        }
        Sign::LeftBrace => {
            let end = params(tokens, at + 1)?;
            Ok(except(reader, tokens, end))
        }
        _ => Ok(except(reader, tokens, at)),
    }
}

/// What follows the `-` of an except, if one comes.
fn except(reader: &mut Reader, tokens: &[Token<'_>], at: usize) -> usize
    requires { at ≤ length tokens.now }
    ensures { Passed at result (length tokens.now) }
{
    match sign_at(tokens, at) {
        Sign::Minus => {
            reader.mode = Mode::Excepted;
            at + 1
        }
        _ => {
            reader.mode = Mode::Behind;
            at
        }
    }
}

fn parent(reader: &mut Reader, tokens: &[Token<'_>], at: usize) -> Result<usize, TokenFault>
    requires { at < length tokens.now }
    ensures { GoesPast at (length tokens.now) result }
{
    let end = ident(tokens, at + 1)?;
    let name = span(tokens, at + 1, end);
    reader.note(span(tokens, at, end), FilePartKind::Parent { name })?;
    reader.mode = Mode::Behind;
    Ok(end)
}

fn external(reader: &mut Reader, tokens: &[Token<'_>], at: usize) -> Result<usize, TokenFault>
    requires { at < length tokens.now }
    ensures { GoesPast at (length tokens.now) result }
{
    let (literal, literal_at, behind) = literal_at(reader.alloc, tokens, at + 1)?;
    let (inherit, end) = inherit(tokens, behind)?;
    let kind = FilePartKind::External {
        literal,
        literal_at,
        inherit,
    };
    reader.note(span(tokens, at, end), kind)?;
    reader.mode = Mode::Behind;
    Ok(end)
}

/// Opens a nested grammar.
fn grammar(reader: &mut Reader, tokens: &[Token<'_>], at: usize) -> Result<usize, TokenFault>
    requires { at < length tokens.now }
    ensures { GoesPast at (length tokens.now) result }
{
    let inside = left_brace(tokens, at + 1)?;
    let number = reader.grammars;
    let part = reader.parts.len();
    let behind = end(tokens, inside);
    let kind = FilePartKind::Grammar {
        number,
        inside: Span {
            from: behind,
            to: behind,
        },
    };
    reader.note(span(tokens, at, inside), kind)?;
    let frame = Frame::Grammar {
        part,
        outer: reader.grammar,
        within: reader.within,
        body: reader.body,
    };
    reader.open(frame, Mode::Item)?;
    reader.grammar = number;
    reader.grammars = number.saturating_add(1);
    reader.within = None;
    reader.body = None;
    Ok(inside)
}

/// Reads what follows an operand.
pub(crate) fn behind_operand(
    reader: &mut Reader,
    tokens: &[Token<'_>],
    at: usize,
) -> Result<usize, TokenFault>
    requires { at ≤ length tokens.now }
    ensures { GoesPast at (length tokens.now) result }
{
    match sign_at(tokens, at) {
        Sign::Follow => follow(tokens, at + 1),
        Sign::Repeat | Sign::Star => {
            reader.note_no_data();
            Ok(at + 1)
        }
        Sign::Join => {
            reader.note_no_data();
            reader.mode = Mode::Operand;
            Ok(at + 1)
        }
        Sign::Bar => {
            reader.mode = Mode::Operand;
            Ok(at + 1)
        }
        _ => pattern_end(reader, tokens, at),
    }
}

/// Reads the end of a pattern.
fn pattern_end(reader: &mut Reader, tokens: &[Token<'_>], at: usize) -> Result<usize, TokenFault>
    requires { at ≤ length tokens.now }
    ensures { GoesPast at (length tokens.now) result }
{
    match (reader.top(), sign_at(tokens, at)) {
        (Some(Frame::Parens { .. }), Sign::RightParen) | (Some(Frame::Content), Sign::RightBrace) =>
            {
                let _ = reader.frames.pop();
                Ok(at + 1)
            }
        (Some(Frame::Body), _) => next_item(reader, tokens, at),
        _ => Err(TokenFault::Stuck(at)),
    }
}
