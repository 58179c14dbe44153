// Annotations and notes, which leave nothing in the tree (compact syntax, section 2, annotations).
ghost use Rattle.std.specs.Prelude.{◌≡◌, ◌≤◌, ◌<◌, length, IsTrue};
ghost use Rattle.rn_syntax.specs.inside.Follow.{Starts, Anything, no_bracket, no_follow};
ghost use Rattle.rn_syntax.specs.Grammar.{Closed, IsAnnotation, MayHaveAnnotation, AreFollows};
ghost use Rattle.rn_text.specs.inside.Reading.{GoesPast, MayGoPast};
ghost use Rattle.rn_syntax.specs.inside.Readers.{Skips, rest};
ghost use Rattle.rn_syntax.specs.inside.Sequence.{IsFollow, is_note};

use super::terminals::{Terminal, next};
use crate::fault::Fault;
use rn_text::Token;

/// What follows a `[`, up to its `]`.
fn skip_closed(tokens: &[Token<'_>], mut at: usize) -> Result<usize, Fault>
    requires { at ≤ length tokens.now }
    ensures inside { GoesPast at (length tokens.now) result }
    ensures skips { Skips Closed Anything tokens.now at result }
{
    let mut depth: usize = 0;
    'closed: loop {
        match next(tokens, at) {
            Terminal::RightBracket => {
                at += 1;
                if depth == 0 {
                    return Ok(at);
                }
                depth -= 1;
            }
            Terminal::LeftBracket => {
                at += 1;
                depth += 1;
            }
            Terminal::LeftBrace
            | Terminal::RightBrace
            | Terminal::LeftParen
            | Terminal::RightParen
            | Terminal::End => return Err(Fault::Stuck(at)),
            _ => at += 1,
        }
    }
}

/// `ann = "[" ( other | ann )* "]"`
pub(crate) fn annotation(tokens: &[Token<'_>], at: usize) -> Result<usize, Fault>
    requires { at ≤ length tokens.now }
    ensures inside { GoesPast at (length tokens.now) result }
    ensures skips { Skips IsAnnotation Anything tokens.now at result }
{
    match next(tokens, at) {
        Terminal::LeftBracket => skip_closed(tokens, at + 1),
        _ => Err(Fault::Stuck(at)),
    }
}

/// `[ann]`
pub(crate) fn skip_annotation(tokens: &[Token<'_>], at: usize) -> Result<usize, Fault>
    requires { at ≤ length tokens.now }
    ensures inside { MayGoPast at (length tokens.now) result }
    ensures skips { Skips MayHaveAnnotation (Starts no_bracket) tokens.now at result }
{
    match next(tokens, at) {
        Terminal::LeftBracket => skip_closed(tokens, at + 1),
        _ => Ok(at),
    }
}

/// `( word | Prefixed ) ann`, behind a `>>`
fn follow(tokens: &[Token<'_>], at: usize) -> Result<usize, Fault>
    requires { at ≤ length tokens.now }
    ensures inside { GoesPast at (length tokens.now) result }
    ensures skips { Skips IsFollow Anything tokens.now at result }
{
    match next(tokens, at) {
        Terminal::Ident(_) | Terminal::Keyword(_) | Terminal::Prefixed(_) => {
            annotation(tokens, at + 1)
        }
        _ => Err(Fault::Stuck(at)),
    }
}

/// `follow*`
pub(crate) fn skip_follows(tokens: &[Token<'_>], mut at: usize) -> Result<usize, Fault>
    requires { at ≤ length tokens.now }
    ensures inside { MayGoPast at (length tokens.now) result }
    ensures skips { Skips AreFollows (Starts no_follow) tokens.now at result }
{
    'follows: while let Terminal::Follow = next(tokens, at) {
        at = follow(tokens, at + 1)?;
    }
    Ok(at)
}

/// Whether a note begins here: a name with a prefix, or one before a bracket.
pub(crate) fn begins_note(tokens: &[Token<'_>], at: usize) -> bool
    ensures inside { IsTrue result → at < length tokens.now }
    ensures is { result ≡ is_note (rest tokens.now at) }
{
    match next(tokens, at) {
        Terminal::Prefixed(_) => true,
        Terminal::Ident(_) => match next(tokens, at + 1) {
            Terminal::LeftBracket => true,
            _ => false,
        },
        _ => false,
    }
}
