// Runs of tokens that hold no part: annotations, literals, parameters, name classes.
ghost use Rattle.std.specs.Prelude.{◌<◌, ◌≤◌, length, IfOk, IsTrue};
ghost use Rattle.rn_text.specs.Reading.{Advanced};
ghost use Rattle.rn_text.specs.inside.Reading.{GoesPast, MayGoPast, Passed};

use crate::file_parts::{OutlineMethod, Span};
use crate::outline_fault::{TokenFault, Wanted};
use crate::signs::{Sign, Word, sign_at, span};
use rn_text::{Kind, Token, literal};
use std::alloc::Global;

/// What follows a `[`, up to its `]`.
fn closed_brackets(tokens: &[Token<'_>], mut at: usize) -> Result<usize, TokenFault>
    requires { at ≤ length tokens.now }
    ensures { GoesPast at (length tokens.now) result }
{
    let mut depth: usize = 0;
    'closed: loop {
        match sign_at(tokens, at) {
            Sign::RightBracket => {
                at += 1;
                if depth == 0 {
                    return Ok(at);
                }
                depth -= 1;
            }
            Sign::LeftBracket => {
                at += 1;
                depth += 1;
            }
            Sign::LeftBrace | Sign::RightBrace | Sign::LeftParen | Sign::RightParen | Sign::End =>
                return Err(TokenFault::Stuck(at)),
            _ => at += 1,
        }
    }
}

/// What follows `[ .. ]` (compact syntax, section 2, annotations).
pub(crate) fn annotation(tokens: &[Token<'_>], at: usize) -> Result<usize, TokenFault>
    requires { at ≤ length tokens.now }
    ensures { GoesPast at (length tokens.now) result }
{
    match sign_at(tokens, at) {
        Sign::LeftBracket => closed_brackets(tokens, at + 1),
        _ => Err(TokenFault::Stuck(at)),
    }
}

/// What follows an annotation, if one comes.
pub(crate) fn skip_annotation(tokens: &[Token<'_>], at: usize) -> Result<usize, TokenFault>
    requires { at ≤ length tokens.now }
    ensures { MayGoPast at (length tokens.now) result }
{
    match sign_at(tokens, at) {
        Sign::LeftBracket => closed_brackets(tokens, at + 1),
        _ => Ok(at),
    }
}

/// What follows a name and `[ .. ]`, after `>>`.
pub(crate) fn follow(tokens: &[Token<'_>], at: usize) -> Result<usize, TokenFault>
    requires { at ≤ length tokens.now }
    ensures { GoesPast at (length tokens.now) result }
{
    match sign_at(tokens, at) {
        Sign::Ident | Sign::Word(_) | Sign::Prefixed => annotation(tokens, at + 1),
        _ => Err(TokenFault::Stuck(at)),
    }
}

/// What follows the `{` of an element or an attribute, after which the name class comes (compact syntax, section 2,
/// nameClass).
pub(crate) fn name_class(tokens: &[Token<'_>], mut at: usize) -> Result<usize, TokenFault>
    requires { at ≤ length tokens.now }
    ensures { GoesPast at (length tokens.now) result }
{
    let mut depth: usize = 0;
    let mut is_read = false;
    'class: loop {
        match sign_at(tokens, at) {
            Sign::LeftBracket if !is_read => at = closed_brackets(tokens, at + 1)?,
            Sign::LeftParen if !is_read => {
                at += 1;
                depth += 1;
            }
            Sign::Ident | Sign::Word(_) | Sign::Prefixed | Sign::AnyOf | Sign::Star if !is_read => {
                at += 1;
                is_read = true;
            }
            Sign::Follow if is_read => at = follow(tokens, at + 1)?,
            Sign::Bar | Sign::Minus if is_read => {
                at += 1;
                is_read = false;
            }
            Sign::RightParen if is_read && depth > 0 => {
                at += 1;
                depth -= 1;
            }
            Sign::LeftBrace if is_read && depth == 0 => return Ok(at + 1),
            _ if !is_read => return Err(TokenFault::Lacking(at, Wanted::NameClass)),
            _ if depth == 0 => return Err(TokenFault::Lacking(at, Wanted::Brace)),
            _ => return Err(TokenFault::Stuck(at)),
        }
    }
}

/// Whether the token of this index is `}`.
fn is_right_brace(tokens: &[Token<'_>], at: usize) -> bool
    ensures { IsTrue result → at < length tokens.now }
{
    match sign_at(tokens, at) {
        Sign::RightBrace => true,
        _ => false,
    }
}

/// What follows a word, `=` and a literal.
fn param(tokens: &[Token<'_>], at: usize) -> Result<usize, TokenFault>
    requires { at ≤ length tokens.now }
    ensures { GoesPast at (length tokens.now) result }
{
    let body = skip_annotation(tokens, at)?;
    let equals = word(tokens, body)?;
    let value = plain_assign(tokens, equals)?;
    segments(tokens, value)
}

/// What follows the parameters of a datatype, after their `{`.
pub(crate) fn params(tokens: &[Token<'_>], mut at: usize) -> Result<usize, TokenFault>
    requires { at ≤ length tokens.now }
    ensures { GoesPast at (length tokens.now) result }
{
    'params: while !is_right_brace(tokens, at) {
        at = param(tokens, at)?;
    }
    Ok(at + 1)
}

/// What follows a name or a keyword.
pub(crate) fn word(tokens: &[Token<'_>], at: usize) -> Result<usize, TokenFault>
    requires { at ≤ length tokens.now }
    ensures { GoesPast at (length tokens.now) result }
{
    match sign_at(tokens, at) {
        Sign::Ident | Sign::Word(_) => Ok(at + 1),
        _ => Err(TokenFault::Lacking(at, Wanted::Name)),
    }
}

/// What follows a name that is no keyword.
pub(crate) fn ident(tokens: &[Token<'_>], at: usize) -> Result<usize, TokenFault>
    requires { at ≤ length tokens.now }
    ensures { GoesPast at (length tokens.now) result }
{
    match sign_at(tokens, at) {
        Sign::Ident => Ok(at + 1),
        _ => Err(TokenFault::Lacking(at, Wanted::Name)),
    }
}

/// What follows `=`.
pub(crate) fn plain_assign(tokens: &[Token<'_>], at: usize) -> Result<usize, TokenFault>
    requires { at ≤ length tokens.now }
    ensures { GoesPast at (length tokens.now) result }
{
    match sign_at(tokens, at) {
        Sign::Assign(method) => match method {
            OutlineMethod::Plain => Ok(at + 1),
            _ => Err(TokenFault::Lacking(at, Wanted::Equals)),
        },
        _ => Err(TokenFault::Lacking(at, Wanted::Equals)),
    }
}

/// What follows `{`.
pub(crate) fn left_brace(tokens: &[Token<'_>], at: usize) -> Result<usize, TokenFault>
    requires { at ≤ length tokens.now }
    ensures { GoesPast at (length tokens.now) result }
{
    match sign_at(tokens, at) {
        Sign::LeftBrace => Ok(at + 1),
        _ => Err(TokenFault::Lacking(at, Wanted::Brace)),
    }
}

/// What follows a segment.
fn segment(tokens: &[Token<'_>], at: usize) -> Result<usize, TokenFault>
    requires { at ≤ length tokens.now }
    ensures { GoesPast at (length tokens.now) result }
{
    match sign_at(tokens, at) {
        Sign::Segment => Ok(at + 1),
        _ => Err(TokenFault::Lacking(at, Wanted::Literal)),
    }
}

/// What follows a literal: segments with `~` between each two (compact syntax, section 2, literal).
pub(crate) fn segments(tokens: &[Token<'_>], at: usize) -> Result<usize, TokenFault>
    requires { at ≤ length tokens.now }
    ensures { GoesPast at (length tokens.now) result }
{
    let mut end = segment(tokens, at)?;
    'segments: while let Sign::Tilde = sign_at(tokens, end) {
        end = segment(tokens, end + 1)?;
    }
    Ok(end)
}

/// `[ "inherit" "=" word ]`: the word, and what follows it.
pub(crate) fn inherit(tokens: &[Token<'_>], at: usize) -> Result<(Option<Span>, usize), TokenFault>
    requires { at ≤ length tokens.now }
    ensures { IfOk result (λ r. Passed at r.1 (length tokens.now)) }
{
    match sign_at(tokens, at) {
        Sign::Word(Word::Inherit) => {
            let prefix = plain_assign(tokens, at + 1)?;
            let end = word(tokens, prefix)?;
            Ok((Some(span(tokens, prefix, end)), end))
        }
        _ => Ok((None, at)),
    }
}

/// The text of the literal that these tokens are.
fn joined_segments(alloc: Global, tokens: &[Token<'_>]) -> Result<String, TokenFault> {
    let mut text = String::new(alloc);
    for token in tokens {
        if token.kind == Kind::Segment {
            let more = literal(alloc, token)?;
            text.push_str(more.as_str())?;
        }
    }
    Ok(text)
}

/// A literal: its text, its bytes, and what follows it.
pub(crate) fn literal_at(
    alloc: Global,
    tokens: &[Token<'_>],
    at: usize,
) -> Result<(String, Span, usize), TokenFault>
    requires { at ≤ length tokens.now }
    ensures { IfOk result (λ r. Advanced at r.2 (length tokens.now)) }
{
    let end = segments(tokens, at)?;
    let text = joined_segments(alloc, &tokens[at..end])?;
    Ok((text, span(tokens, at, end), end))
}
