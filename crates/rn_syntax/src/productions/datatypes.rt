// Datatypes and their parameters (compact syntax, section 2, datatypeName and param).
ghost use Rattle.std.specs.Prelude.{◌≡◌, ◌≤◌, ◌<◌, ◌+◌, length, false, IfSome, IsTrue, MatchOption};
ghost use Rattle.rn_syntax.specs.inside.Follow.{Starts, begins_datatype, first_terminal, is_end, no_brace, no_tilde};
ghost use Rattle.rn_syntax.specs.Grammar.{IsDatatype, MayHaveParams};
ghost use Rattle.rn_text.specs.inside.Reading.{GoesOn, MayGoOn};
ghost use Rattle.rn_syntax.specs.inside.Readers.{Reads, rest};
ghost use Rattle.rn_syntax.specs.inside.Sequence.{IsHere, IsParam};
ghost use Rattle.rn_syntax.specs.View.{datatype_view, param_view, params_view};

use super::annotations::skip_annotation;
use super::literals::literal;
use super::terminals::{Terminal, equals, local_name, next, place, prefix_name, word};
use crate::fault::Fault;
use crate::tree::{Datatype, Param, Prefix};
use rn_text::{Keyword, Token};
use std::alloc::Global;

/// `dt = "string" | "token" | Prefixed`
pub(crate) fn datatype<'a>(tokens: &[Token<'a>], at: usize) -> Option<Datatype<'a>>
    ensures inside { IfSome result (λ _. at < length tokens.now) }
    ensures names { MatchOption result (begins_datatype
        (first_terminal (rest tokens.now at)) ≡ false)
        (λ d. IsHere IsDatatype (rest tokens.now at) (datatype_view d) (rest tokens.now (at + 1))) }
{
    match next(tokens, at) {
        Terminal::Prefixed(text) => {
            let prefix = Prefix {
                name: prefix_name(text),
                at: place(tokens, at),
            };
            Some(Datatype::Named(prefix, local_name(text)))
        }
        Terminal::Keyword(keyword) => match keyword {
            Keyword::String => Some(Datatype::String(place(tokens, at))),
            Keyword::Token => Some(Datatype::Token(place(tokens, at))),
            _ => None,
        },
        _ => None,
    }
}

/// `param = [ann] word "=" literal`
fn param<'a>(alloc: Global, tokens: &[Token<'a>], at: usize) -> Result<(Param<'a>, usize), Fault>
    requires { at ≤ length tokens.now }
    ensures inside { GoesOn at (length tokens.now) result }
    ensures reads { Reads IsParam (Starts no_tilde) param_view tokens.now at result }
{
    let body = skip_annotation(tokens, at)?;
    let name = word(tokens, body)?;
    let value = equals(tokens, body + 1)?;
    let (text, end) = literal(alloc, tokens, value)?;
    Ok((Param { name, text }, end))
}

/// Whether the next token is `}`.
fn is_right_brace(tokens: &[Token<'_>], at: usize) -> bool
    ensures inside { IsTrue result → at < length tokens.now }
    ensures is { result ≡ is_end (first_terminal (rest tokens.now at)) }
{
    match next(tokens, at) {
        Terminal::RightBrace => true,
        _ => false,
    }
}

/// `[ "{" param* "}" ]`
pub(crate) fn params<'a>(
    alloc: Global,
    tokens: &[Token<'a>],
    at: usize,
) -> Result<(Vec<Param<'a>>, usize), Fault>
    requires { at ≤ length tokens.now }
    ensures inside { MayGoOn at (length tokens.now) result }
    ensures reads { Reads MayHaveParams (Starts no_brace)
        (λ v. params_view v.items) tokens.now at result }
{
    let mut params = Vec::new(alloc);
    let Terminal::LeftBrace = next(tokens, at) else {
        return Ok((params, at));
    };
    let mut end = at + 1;
    'params: while !is_right_brace(tokens, end) {
        let (param, behind) = param(alloc, tokens, end)?;
        params.push(param)?;
        end = behind;
    }
    Ok((params, end + 1))
}
