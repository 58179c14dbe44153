// Patterns (compact syntax, section 2, pattern).
ghost use Rattle.std.specs.Prelude.{◌≡◌, ◌≤◌, ◌<◌, ◌+◌, false, length, IfSome};
ghost use Rattle.rn_syntax.specs.inside.Follow.{Anything, Starts, begins_datatype, behind_core, behind_operand, behind_pattern, behind_primary, first_terminal};
ghost use Rattle.rn_syntax.specs.Grammar.{IsCore, IsOperand, IsPattern, IsPrimary};
ghost use Rattle.rn_syntax.specs.inside.PatternEnds.{BehindCore, BehindDatatype, BehindParams, BehindPostfix, BehindPrimary, IsDataEnd, IsTypedValue, IsBraced, IsNamed};
ghost use Rattle.rn_text.specs.inside.Reading.{GoesOn, MayGoOn};
ghost use Rattle.rn_syntax.specs.inside.Readers.{Reads, Took, rest};
ghost use Rattle.rn_syntax.specs.inside.Boxes.{boxed_named_view};
ghost use Rattle.rn_syntax.specs.Terminal as terminal;
ghost use Rattle.rn_syntax.specs.View.{boxed_view, datatype_view, params_view, pattern_view};

use super::annotations::{skip_annotation, skip_follows};
use super::datatypes::{datatype, params};
use super::literals::literal;
use super::names::whole_class;
use super::terminals::{Terminal, is_operator, left_brace, next, place, right_brace, right_paren};
use crate::constructors::{
    attribute, boxed, chain, datum, datum_but, element, empty, list, mixed, not_allowed,
    plain_value, push_member, reference, repeated, text, value,
};
use crate::fault::Fault;
use crate::tree::{Datatype, Named, Param, Pat, Postfix};
use rn_text::{Keyword, Token};
use std::alloc::Global;

/// `pattern = operand ( ("," operand)* | ("&" operand)* | ("|" operand)* )`
#[cycle(pattern)]
pub(crate) fn pattern<'a>(
    alloc: Global,
    tokens: &[Token<'a>],
    at: usize,
) -> Result<(Box<Pat<'a>>, usize), Fault>
    requires { at ≤ length tokens.now }
    ensures inside { GoesOn at (length tokens.now) result }
    ensures reads { Reads IsPattern (Starts behind_pattern) boxed_view tokens.now at result }
{
    let (first, mut end) = operand(alloc, tokens, at)?;
    let Terminal::Operator(operator) = next(tokens, end) else {
        return Ok((first, end));
    };
    let mut members = Vec::with_capacity(alloc, 2)?;
    push_member(&mut members, first)?;
    'chain: loop {
        let (member, behind) = operand(alloc, tokens, end + 1)?;
        push_member(&mut members, member)?;
        end = behind;
        if !is_operator(tokens, end, operator) {
            return chain(alloc, operator, members, end);
        }
    }
}

/// `operand = primary [ postfix follow* ] | except`. Most are references, elements, attributes and parentheses, so
/// their first tokens are asked for before annotations and datatypes.
#[cycle(pattern)]
fn operand<'a>(
    alloc: Global,
    tokens: &[Token<'a>],
    at: usize,
) -> Result<(Box<Pat<'a>>, usize), Fault>
    requires { at ≤ length tokens.now }
    ensures inside { GoesOn at (length tokens.now) result }
    ensures reads { Reads IsOperand (Starts behind_operand) boxed_view tokens.now at result }
{
    match next(tokens, at) {
        Terminal::Ident(name) => {
            let (core, end) = reference(alloc, name, at + 1)?;
            behind_core(alloc, tokens, end, core)
        }
        Terminal::Keyword(keyword) => match keyword {
            Keyword::String | Keyword::Token => any_operand(alloc, tokens, at),
            _ => {
                let (core, end) = keyword_core(alloc, tokens, at, keyword)?;
                behind_core(alloc, tokens, end, core)
            }
        },
        Terminal::LeftParen => {
            let (core, end) = untyped_core(alloc, tokens, at)?;
            behind_core(alloc, tokens, end, core)
        }
        _ => any_operand(alloc, tokens, at),
    }
}

/// An operand, whatever it begins with: an annotation and a datatype are looked for first.
#[cycle(pattern)]
fn any_operand<'a>(
    alloc: Global,
    tokens: &[Token<'a>],
    at: usize,
) -> Result<(Box<Pat<'a>>, usize), Fault>
    requires { at ≤ length tokens.now }
    ensures inside { GoesOn at (length tokens.now) result }
    ensures reads { Reads IsOperand (Starts behind_operand) boxed_view tokens.now at result }
{
    let body = skip_annotation(tokens, at)?;
    if let Some(datatype) = datatype(tokens, body) {
        return behind_datatype(alloc, tokens, body + 1, datatype);
    }
    let (core, end) = untyped_core(alloc, tokens, body)?;
    behind_core(alloc, tokens, end, core)
}

/// `follow* [ postfix follow* ]`, behind the core of an operand
fn behind_core<'a>(
    alloc: Global,
    tokens: &[Token<'a>],
    at: usize,
    core: Box<Pat<'a>>,
) -> Result<(Box<Pat<'a>>, usize), Fault>
    requires { at ≤ length tokens.now }
    ensures inside { MayGoOn at (length tokens.now) result }
    ensures reads { Reads (BehindCore (boxed_view core.entry))
        (Starts behind_operand) boxed_view tokens.now at result }
{
    match next(tokens, at) {
        Terminal::Follow => {
            let behind = skip_follows(tokens, at)?;
            behind_primary(alloc, tokens, behind, core)
        }
        Terminal::Postfix(postfix) => behind_postfix(alloc, tokens, at + 1, postfix, core),
        _ => Ok((core, at)),
    }
}

/// `[ postfix follow* ]`, behind the primary of an operand
fn behind_primary<'a>(
    alloc: Global,
    tokens: &[Token<'a>],
    at: usize,
    primary: Box<Pat<'a>>,
) -> Result<(Box<Pat<'a>>, usize), Fault>
    requires { at ≤ length tokens.now }
    ensures inside { MayGoOn at (length tokens.now) result }
    ensures reads { Reads (BehindPrimary (boxed_view primary.entry))
        (Starts behind_operand) boxed_view tokens.now at result }
{
    match next(tokens, at) {
        Terminal::Postfix(postfix) => behind_postfix(alloc, tokens, at + 1, postfix, primary),
        _ => Ok((primary, at)),
    }
}

/// `follow*`, behind the postfix of an operand
fn behind_postfix<'a>(
    alloc: Global,
    tokens: &[Token<'a>],
    at: usize,
    postfix: Postfix,
    primary: Box<Pat<'a>>,
) -> Result<(Box<Pat<'a>>, usize), Fault>
    requires { at ≤ length tokens.now }
    ensures inside { MayGoOn at (length tokens.now) result }
    ensures reads { Reads (BehindPostfix postfix (boxed_view primary.entry))
        (Starts behind_operand) boxed_view tokens.now at result }
{
    let behind = skip_follows(tokens, at)?;
    repeated(alloc, postfix, primary, behind)
}

/// What follows the datatype of an operand: a literal makes it a value.
#[cycle(pattern)]
fn behind_datatype<'a>(
    alloc: Global,
    tokens: &[Token<'a>],
    at: usize,
    datatype: Datatype<'a>,
) -> Result<(Box<Pat<'a>>, usize), Fault>
    requires { at ≤ length tokens.now }
    ensures inside { MayGoOn at (length tokens.now) result }
    ensures reads { Reads (BehindDatatype (datatype_view datatype.entry))
        (Starts behind_operand) boxed_view tokens.now at result }
{
    if let Terminal::Segment(_) = next(tokens, at) {
        let (core, end) = typed_value(alloc, tokens, at, datatype)?;
        return behind_core(alloc, tokens, end, core);
    }
    let (params, end) = params(alloc, tokens, at)?;
    behind_params(alloc, tokens, end, datatype, params)
}

/// What follows the parameters of an operand: `-` makes it an except.
#[cycle(pattern)]
fn behind_params<'a>(
    alloc: Global,
    tokens: &[Token<'a>],
    at: usize,
    datatype: Datatype<'a>,
    params: Vec<Param<'a>>,
) -> Result<(Box<Pat<'a>>, usize), Fault>
    requires { at ≤ length tokens.now }
    ensures inside { MayGoOn at (length tokens.now) result }
    ensures reads { Reads (BehindParams (datatype_view datatype.entry)
        (params_view params.entry.items)) (Starts behind_operand) boxed_view tokens.now at result }
{
    let Terminal::Minus = next(tokens, at) else {
        let (core, end) = datum(alloc, datatype, params, at)?;
        return behind_core(alloc, tokens, end, core);
    };
    let (except, end) = primary(alloc, tokens, at + 1)?;
    datum_but(alloc, datatype, params, place(tokens, at), except, end)
}

/// `primary = [ann] core follow*`
#[cycle(pattern)]
fn primary<'a>(
    alloc: Global,
    tokens: &[Token<'a>],
    at: usize,
) -> Result<(Box<Pat<'a>>, usize), Fault>
    requires { at ≤ length tokens.now }
    ensures inside { GoesOn at (length tokens.now) result }
    ensures reads { Reads IsPrimary (Starts behind_primary) boxed_view tokens.now at result }
{
    let body = skip_annotation(tokens, at)?;
    let (core, end) = core(alloc, tokens, body)?;
    Ok((core, skip_follows(tokens, end)?))
}

/// `literal`, behind the datatype
fn typed_value<'a>(
    alloc: Global,
    tokens: &[Token<'a>],
    at: usize,
    datatype: Datatype<'a>,
) -> Result<(Box<Pat<'a>>, usize), Fault>
    requires { at ≤ length tokens.now }
    ensures inside { GoesOn at (length tokens.now) result }
    ensures reads { Reads (IsTypedValue (datatype_view datatype.entry))
        (Starts behind_core) boxed_view tokens.now at result }
{
    let (text, end) = literal(alloc, tokens, at)?;
    value(alloc, datatype, text, end)
}

/// `dt literal | dt [ "{" param* "}" ]`, behind the datatype
fn data<'a>(
    alloc: Global,
    tokens: &[Token<'a>],
    at: usize,
    datatype: Datatype<'a>,
) -> Result<(Box<Pat<'a>>, usize), Fault>
    requires { at ≤ length tokens.now }
    ensures inside { MayGoOn at (length tokens.now) result }
    ensures reads { Reads (IsDataEnd (datatype_view datatype.entry))
        (Starts behind_core) boxed_view tokens.now at result }
{
    if let Terminal::Segment(_) = next(tokens, at) {
        return typed_value(alloc, tokens, at, datatype);
    }
    let (params, end) = params(alloc, tokens, at)?;
    datum(alloc, datatype, params, end)
}

/// `core`
#[cycle(pattern)]
fn core<'a>(alloc: Global, tokens: &[Token<'a>], at: usize) -> Result<(Box<Pat<'a>>, usize), Fault>
    requires { at ≤ length tokens.now }
    ensures inside { GoesOn at (length tokens.now) result }
    ensures reads { Reads IsCore (Starts behind_core) boxed_view tokens.now at result }
{
    match datatype(tokens, at) {
        Some(datatype) => data(alloc, tokens, at + 1, datatype),
        None => untyped_core(alloc, tokens, at),
    }
}

/// `core`, where no datatype comes
#[cycle(pattern)]
fn untyped_core<'a>(
    alloc: Global,
    tokens: &[Token<'a>],
    at: usize,
) -> Result<(Box<Pat<'a>>, usize), Fault>
    requires inside { at ≤ length tokens.now }
    requires untyped { begins_datatype (first_terminal (rest tokens.now at)) ≡ false }
    ensures inside { GoesOn at (length tokens.now) result }
    ensures reads { Reads IsCore (Starts behind_core) boxed_view tokens.now at result }
{
    match next(tokens, at) {
        Terminal::Keyword(keyword) => keyword_core(alloc, tokens, at, keyword),
        Terminal::Ident(name) => reference(alloc, name, at + 1),
        Terminal::Segment(_) => {
            let (text, end) = literal(alloc, tokens, at)?;
            plain_value(alloc, text, end)
        }
        Terminal::LeftParen => {
            let (inner, end) = pattern(alloc, tokens, at + 1)?;
            Ok((inner, right_paren(tokens, end)?))
        }
        _ => Err(Fault::Stuck(at)),
    }
}

/// A core that begins with this keyword.
#[cycle(pattern)]
fn keyword_core<'a>(
    alloc: Global,
    tokens: &[Token<'a>],
    at: usize,
    keyword: Keyword,
) -> Result<(Box<Pat<'a>>, usize), Fault>
    requires inside { at < length tokens.now }
    requires here { first_terminal (rest tokens.now at) ≡ terminal.keyword keyword }
    requires untyped { begins_datatype (first_terminal (rest tokens.now at)) ≡ false }
    ensures inside { GoesOn at (length tokens.now) result }
    ensures reads { Reads IsCore (Starts behind_core) boxed_view tokens.now at result }
{
    match keyword {
        Keyword::Element => {
            let (named, end) = named(alloc, tokens, at + 1)?;
            element(alloc, named, end)
        }
        Keyword::Attribute => {
            let (named, end) = named(alloc, tokens, at + 1)?;
            attribute(alloc, named, end)
        }
        Keyword::List => {
            let (content, end) = braced(alloc, tokens, at + 1)?;
            list(alloc, content, end)
        }
        Keyword::Mixed => {
            let (content, end) = braced(alloc, tokens, at + 1)?;
            mixed(alloc, content, end)
        }
        Keyword::Empty => empty(alloc, at + 1),
        Keyword::NotAllowed => not_allowed(alloc, at + 1),
        Keyword::Text => text(alloc, at + 1),
        _ => Err(Fault::Stuck(at)),
    }
}

/// `nc "{" pattern "}"`
#[cycle(pattern)]
fn named<'a>(
    alloc: Global,
    tokens: &[Token<'a>],
    at: usize,
) -> Result<(Box<Named<'a>>, usize), Fault>
    requires { at ≤ length tokens.now }
    ensures inside { GoesOn at (length tokens.now) result }
    ensures reads { Reads IsNamed Anything boxed_named_view tokens.now at result }
{
    let (class, end) = whole_class(alloc, tokens, at)?;
    let (content, behind) = braced(alloc, tokens, end)?;
    boxed(alloc, Named { class, content }, behind)
}

/// The pattern that this token is, if it is a whole one: if `}` stands right behind it.
#[inline(always)]
fn lone_token<'a>(tokens: &[Token<'a>], at: usize) -> Option<Pat<'a>>
    requires { at ≤ length tokens.now }
    ensures inside { IfSome result (λ _. at + 1 < length tokens.now) }
    ensures brace { IfSome result (λ _. first_terminal (rest tokens.now (at + 1))
        ≡ terminal.right_brace) }
    ensures reads { IfSome result (λ p. Took IsPattern (Starts behind_pattern)
        (rest tokens.now at) (pattern_view p) (rest tokens.now (at + 1))) }
{
    let Terminal::RightBrace = next(tokens, at + 1) else {
        return None;
    };
    match next(tokens, at) {
        Terminal::Ident(name) => Some(Pat::Ref(name)),
        Terminal::Keyword(keyword) => match keyword {
            Keyword::Empty => Some(Pat::Empty),
            Keyword::NotAllowed => Some(Pat::NotAllowed),
            Keyword::Text => Some(Pat::Text),
            _ => None,
        },
        _ => None,
    }
}

/// `"{" pattern "}"`. Many have one token between them, which is asked for first.
#[cycle(pattern)]
fn braced<'a>(alloc: Global, tokens: &[Token<'a>], at: usize) -> Result<(Pat<'a>, usize), Fault>
    requires { at ≤ length tokens.now }
    ensures inside { GoesOn at (length tokens.now) result }
    ensures reads { Reads IsBraced Anything pattern_view tokens.now at result }
{
    let inside = left_brace(tokens, at)?;
    if let Some(content) = lone_token(tokens, inside) {
        return Ok((content, inside + 2));
    }
    let (content, end) = pattern(alloc, tokens, inside)?;
    let behind = right_brace(tokens, end)?;
    Ok((Box::into_inner(content), behind))
}
