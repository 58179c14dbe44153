// The outline of a text.
ghost use Rattle.std.specs.Prelude.{◌<◌, ◌≤◌, ◌+◌, length, IfOk, IfSome, IsTrue};
ghost use Rattle.rn_text.specs.inside.Reading.{GoesPast, MayGoPast};
ghost use Rattle.rn_outline.specs.Outlines.{IsOutline};
ghost use Rattle.rn_outline.specs.Spans.{AreApart, AreInOrder};

use crate::declarations::declarations;
use crate::file_parts::{FilePart, FilePartKind, Outline, OutlineMethod, Shape, Span};
use crate::items::item;
use crate::operands::{behind_operand, operand};
use crate::outline_fault::{OutlineFault, TokenFault, Wanted};
use crate::outline_reader::{Frame, Mode, Reader};
use crate::signs::{Sign, Word, begin, end, sign_at, span};
use crate::skips::{annotation, follow, left_brace, word};
use rn_text::Token;
use std::alloc::Global;

/// How many brackets may be open at once: as many as in a module, `MAX_OPEN` of rn_syntax, which this crate does not
/// use.
pub const MAX_OPEN: usize = 256;

/// The place of the first bracket that is one too many.
fn bracket_too_deep(tokens: &[Token<'_>]) -> Option<usize> {
    let mut depth: usize = 0;
    for token in tokens {
        match token.text.as_bytes() {
            b"{" | b"(" | b"[" => {
                if depth >= MAX_OPEN {
                    return Some(token.start);
                }
                depth += 1;
            }
            b"}" | b")" | b"]" => depth = depth.saturating_sub(1),
            _ => {}
        }
    }
    None
}

/// What follows the annotations that come.
fn skip_annotations(tokens: &[Token<'_>], mut at: usize) -> Result<usize, TokenFault>
    requires { at ≤ length tokens.now }
    ensures { MayGoPast at (length tokens.now) result }
{
    'annotations: while let Sign::LeftBracket = sign_at(tokens, at) {
        at = annotation(tokens, at)?;
    }
    Ok(at)
}

/// The index of the `}` that closes the `{` of this index; `None` where none does.
fn closing_brace(tokens: &[Token<'_>], at: usize) -> Option<usize>
    ensures { IfSome result (λ r. r < length tokens.now) }
{
    let mut depth: usize = 0;
    for number in at..tokens.len() {
        match sign_at(tokens, number) {
            Sign::LeftBrace => depth = depth.saturating_add(1),
            Sign::RightBrace if depth <= 1 => return Some(number),
            Sign::RightBrace => depth -= 1,
            _ => {}
        }
    }
    None
}

/// Whether nothing but following annotations is left here.
fn only_follows(tokens: &[Token<'_>], mut at: usize) -> bool
    requires { at ≤ length tokens.now }
{
    'follows: while let Sign::Follow = sign_at(tokens, at) {
        match follow(tokens, at + 1) {
            Ok(behind) => at = behind,
            Err(_) => return false,
        }
    }
    at == tokens.len()
}

/// Whether the grammar with its `{` at this index is the whole file. An unclosed one counts as the whole file, so that
/// the fault is reported at its end.
fn is_whole(tokens: &[Token<'_>], at: usize) -> bool {
    match closing_brace(tokens, at) {
        Some(close) => only_follows(tokens, close + 1),
        None => true,
    }
}

/// What a body is, that begins with the token of this index.
enum Opening {
    Items,
    Grammar,
    Pattern,
}

fn opening_at(tokens: &[Token<'_>], at: usize) -> Opening
    requires { at ≤ length tokens.now }
{
    match sign_at(tokens, at) {
        Sign::End | Sign::Word(Word::Start | Word::Div | Word::Include) => Opening::Items,
        Sign::Ident => match sign_at(tokens, at + 1) {
            Sign::Assign(_) | Sign::LeftBracket => Opening::Items,
            _ => Opening::Pattern,
        },
        Sign::Prefixed => match sign_at(tokens, at + 1) {
            Sign::LeftBracket => Opening::Items,
            _ => Opening::Pattern,
        },
        Sign::Word(Word::Grammar) => match sign_at(tokens, at + 1) {
            Sign::LeftBrace if is_whole(tokens, at + 1) => Opening::Grammar,
            _ => Opening::Pattern,
        },
        _ => Opening::Pattern,
    }
}

/// Notes the start of a file that is a pattern.
fn begin_pattern(reader: &mut Reader, at: Span) -> Result<(), TokenFault> {
    let kind = FilePartKind::Start {
        word: Span {
            from: at.from,
            to: at.from,
        },
        method: OutlineMethod::Plain,
        body: at,
        within: None,
        only_data: true,
    };
    reader.note(at, kind)?;
    reader.begin_body(Frame::Whole)
}

/// Reads on at a token.
fn step(reader: &mut Reader, tokens: &[Token<'_>], at: usize) -> Result<usize, TokenFault>
    requires { at ≤ length tokens.now }
    ensures { GoesPast at (length tokens.now) result }
{
    match reader.mode {
        Mode::Item => item(reader, tokens, at),
        Mode::Operand | Mode::Excepted => operand(reader, tokens, at),
        Mode::Behind => behind_operand(reader, tokens, at),
        Mode::Closed => match sign_at(tokens, at) {
            Sign::Follow => follow(tokens, at + 1),
            _ => Err(TokenFault::Stuck(at)),
        },
    }
}

/// Reads all tokens from one on.
fn steps(reader: &mut Reader, tokens: &[Token<'_>], from: usize) -> Result<(), TokenFault>
    requires { from ≤ length tokens.now }
{
    let mut at = from;
    'steps: while at < tokens.len() {
        at = step(reader, tokens, at)?;
    }
    Ok(())
}

/// Ends the file: whether it may end here.
fn finish(reader: &mut Reader, end: usize) -> bool {
    if reader.mode == Mode::Behind {
        if let Some(Frame::Body | Frame::Whole) = reader.top() {
            reader.end_body(end);
        }
    }
    reader.frames.is_empty() && (reader.mode == Mode::Item || reader.mode == Mode::Closed)
}

/// Why the file may not end where its tokens, of which there are so many, do.
fn early_end(reader: &Reader, count: usize) -> TokenFault {
    match (reader.mode, reader.top()) {
        (Mode::Operand | Mode::Excepted, _) => TokenFault::Lacking(count, Wanted::Pattern),
        (_, Some(Frame::Parens { .. })) => TokenFault::Lacking(count, Wanted::ClosingParenthesis),
        (_, Some(Frame::Body | Frame::Whole) | None) => TokenFault::Stuck(count),
        (_, Some(_)) => TokenFault::Lacking(count, Wanted::ClosingBrace),
    }
}

/// Reads the body that begins with the token of this index, and says what it is.
fn read_body(reader: &mut Reader, tokens: &[Token<'_>], at: usize) -> Result<Shape, TokenFault>
    requires { at ≤ length tokens.now }
{
    let first = skip_annotations(tokens, at)?;
    match opening_at(tokens, first) {
        Opening::Items => {
            steps(reader, tokens, at)?;
            Ok(Shape::Grammar)
        }
        Opening::Grammar => {
            let brace = word(tokens, first)?;
            let inside = left_brace(tokens, brace)?;
            reader.open(Frame::Outer, Mode::Item)?;
            steps(reader, tokens, inside)?;
            Ok(Shape::Grammar)
        }
        Opening::Pattern => {
            begin_pattern(reader, span(tokens, at, tokens.len()))?;
            steps(reader, tokens, at)?;
            Ok(Shape::Pattern)
        }
    }
}

/// Whether each part is within so many bytes, and begins no earlier than the one before it.
fn are_in_order(parts: &[FilePart], len: usize) -> bool
    ensures { IsTrue result → AreInOrder len 0 parts.now }
{
    let mut rest = parts;
    let mut from = 0;
    'parts: while let Some((part, behind)) = rest.split_first() {
        if part.at.from < from || part.at.to < part.at.from || len < part.at.to {
            return false;
        }
        from = part.at.from;
        rest = behind;
    }
    true
}

/// Whether the marks of parts follow one another, each within its part.
fn are_apart(parts: &[FilePart]) -> bool
    ensures { IsTrue result → AreApart 0 parts.now }
{
    let mut rest = parts;
    let mut from = 0;
    'parts: while let Some((part, behind)) = rest.split_first() {
        let mark = part.mark();
        if mark.from < from || mark.to < mark.from || part.at.to < mark.to {
            return false;
        }
        from = part.front_end();
        rest = behind;
    }
    true
}

/// An outline with its parts in order, within so many bytes.
fn ordered_outline(outline: Outline, len: usize) -> Option<Outline>
    ensures { IfSome result (λ o. IsOutline len o) }
{
    let parts = outline.parts.as_slice();
    if are_in_order(parts, len) && are_apart(parts) {
        Some(outline)
    } else {
        None
    }
}

fn read(alloc: Global, text: &str, tokens: &[Token<'_>]) -> Result<Outline, TokenFault>
    ensures { IfOk result (λ o. IsOutline (length text.now) o) }
{
    let (declarations, at) = declarations(alloc, tokens)?;
    let mut reader = Reader::new(alloc);
    let shape = read_body(&mut reader, tokens, at)?;
    if !finish(&mut reader, end(tokens, tokens.len())) {
        return Err(early_end(&reader, tokens.len()));
    }
    let Reader {
        parts,
        grammars,
        ..
    } = reader;
    let from = if at < tokens.len() {
        begin(tokens, at)
    } else {
        text.len()
    };
    let to = text.len();
    let body = Span { from, to };
    let outline = Outline {
        shape,
        declarations,
        body,
        parts,
        grammars,
    };
    ordered_outline(outline, to).ok_or(TokenFault::Stuck(tokens.len()))
}

/// The outline of a text with these tokens (RELAX NG Compact Syntax, 2): grammars, and patterns as files, with all that
/// the language has. What brings no parts and is refused where the text is read as a module may be passed over here: a
/// chain of two operators, a second postfix, unbound prefixes.
///
/// Refused, in this order: brackets that nest too deep, `Deep`; tokens that are no file, `Syntax`, at the first token
/// that can't be where it is. `Memory` comes only where memory runs out.
pub fn read_outline(
    alloc: Global,
    text: &str,
    tokens: &[Token<'_>],
) -> Result<Outline, OutlineFault>
    ensures { IfOk result (λ o. IsOutline (length text.now) o) }
{
    if let Some(at) = bracket_too_deep(tokens) {
        return Err(OutlineFault::Deep { at });
    }
    match read(alloc, text, tokens) {
        Ok(outline) => Ok(outline),
        Err(TokenFault::Stuck(at)) => Err(OutlineFault::Syntax {
            at: begin(tokens, at),
            wanted: None,
        }),
        Err(TokenFault::Lacking(at, wanted)) => Err(OutlineFault::Syntax {
            at: begin(tokens, at),
            wanted: Some(wanted),
        }),
        Err(TokenFault::Memory) => Err(OutlineFault::Memory),
    }
}
