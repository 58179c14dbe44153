// Literals (compact syntax, section 2, literal).
ghost use Rattle.std.specs.Prelude.{◌≡◌, ◌≤◌, ◌<◌, ◌+◌, length, true, IfOk};
ghost use Rattle.std.specs.Cow.{cow_str_bytes};
ghost use Rattle.std.specs.Str.{chars, encode_utf8_all};
ghost use Rattle.rn_text.specs.Segments as segments;
ghost use Rattle.rn_text.specs.Segments.{is_segment, after_run};
ghost use Rattle.rn_syntax.specs.Lent.{is_borrowed, is_written};
ghost use Rattle.rn_syntax.specs.inside.Borrowed.{BorrowsAsWritten, SegmentBorrows};
ghost use Rattle.rn_syntax.specs.inside.Follow.{Starts, Anything, no_tilde};
ghost use Rattle.rn_syntax.specs.Grammar.{IsLiteral};
ghost use Rattle.rn_text.specs.inside.Reading.{GoesOn};
ghost use Rattle.rn_syntax.specs.inside.Readers.{Reads, is_plain};
ghost use Rattle.rn_syntax.specs.Spelled.{AreSpelled};
ghost use Rattle.rn_syntax.specs.inside.Sequence.{IsSegment};

use super::terminals::{Terminal, next};
use crate::fault::Fault;
use rn_text::Token;
use rn_text::literals::between_delimiters;
use rn_text::segments::is_verbatim;
use std::alloc::{AllocError, Global};
use std::borrow::CowStr;

/// Whether a character between delimiters means itself wherever it comes.
fn is_plain(c: char) -> bool
    ensures { result ≡ is_plain c }
{
    c != '\\' && c != '\r'
}

/// What follows the plain characters at the front.
fn behind_plain(text: &str) -> &str
    ensures { chars result.now ≡ after_run is_plain (chars text.now) }
{
    text.trim_start_matches(is_plain)
}

/// The text of a segment: a slice of it where it is written as it is.
fn segment_text<'a>(alloc: Global, segment: Token<'a>) -> Result<CowStr<'a>, AllocError>
    ensures text { IfOk result (λ text. is_segment (chars segment.entry.text.now) ≡ true
        → cow_str_bytes text ≡ encode_utf8_all
        (segments.segment_text (chars segment.entry.text.now))) }
    ensures borrows { IfOk result (λ text. is_segment (chars segment.entry.text.now) ≡ true
        → is_borrowed text ≡ is_written segment.entry) }
{
    let Some(written) = between_delimiters(segment.text) else {
        return Ok(CowStr::Borrowed(segment.text));
    };
    if is_verbatim(behind_plain(written)) {
        return Ok(CowStr::Borrowed(written));
    }
    let text = rn_text::literal(alloc, &segment)?;
    Ok(CowStr::Owned(text))
}

/// `Segment`
fn segment<'a>(alloc: Global, tokens: &[Token<'a>], at: usize) -> Result<(CowStr<'a>, usize), Fault>
    requires { at ≤ length tokens.now }
    ensures inside { GoesOn at (length tokens.now) result }
    ensures reads { Reads IsSegment Anything cow_str_bytes tokens.now at result }
    ensures one { IfOk result (λ r. r.1 ≡ at + 1) }
    ensures borrows { IfOk result (λ r. AreSpelled tokens.now → SegmentBorrows tokens.now at r.0) }
{
    match next(tokens, at) {
        Terminal::Segment(_) => Ok((segment_text(alloc, tokens[at])?, at + 1)),
        _ => Err(Fault::Stuck(at)),
    }
}

/// `literal = Segment ( "~" Segment )*`
pub(crate) fn literal<'a>(
    alloc: Global,
    tokens: &[Token<'a>],
    at: usize,
) -> Result<(CowStr<'a>, usize), Fault>
    requires { at ≤ length tokens.now }
    ensures inside { GoesOn at (length tokens.now) result }
    ensures reads { Reads IsLiteral (Starts no_tilde) cow_str_bytes tokens.now at result }
    ensures borrows { IfOk result (λ r. AreSpelled tokens.now
        → BorrowsAsWritten tokens.now at r.0) }
{
    let (first, mut end) = segment(alloc, tokens, at)?;
    let Terminal::Tilde = next(tokens, end) else {
        return Ok((first, end));
    };
    let mut text = first.into_owned(alloc)?;
    'segments: while let Terminal::Tilde = next(tokens, end) {
        let (more, behind) = segment(alloc, tokens, end + 1)?;
        text.push_str(more.as_str())?;
        end = behind;
    }
    Ok((CowStr::Owned(text), end))
}
