// The terminals of the grammar: what it sees of each token.
ghost use Rattle.std.specs.Prelude.{◌≡◌, ◌≤◌, ◌<◌, ◌+◌, drop, length, IfOk, IsTrue, MatchBool, ◌≢◌};
ghost use Rattle.std.specs.List.{slice_get};
ghost use Rattle.std.specs.Str.{IsUtf8, chars, encode_utf8_all};
ghost use Rattle.rn_text.specs.Characters.{is_name_char};
ghost use Rattle.rn_text.specs.Keywords.{spelling};
ghost use Rattle.rn_text.specs.Segments.{run_of, after_run};
ghost use Rattle.rn_syntax.specs.inside.Follow.{Anything, first_terminal};
ghost use Rattle.rn_text.specs.inside.Reading.{GoesPast};
ghost use Rattle.rn_syntax.specs.inside.Readers.{IsInside, IsNext, IsSegmentOf, IsWhole, Passes, ReadsOne, rest, seen};
ghost use Rattle.rn_syntax.specs.Spelled.{AreSpelled, BeginAt, SpellsItsKind};
ghost use Rattle.rn_syntax.specs.inside.Sequence.{IsOf, IsWordAt, IsAssign};
ghost use Rattle.rn_syntax.specs.declared.tree.Method.TheVariants as method;
ghost use Rattle.rn_syntax.specs.Terminal as terminal;
ghost use Rattle.rn_syntax.specs.TokenTerminals as tokens;
ghost use Rattle.rn_syntax.specs.TokenTerminals.{spelled_in, keyword_rows, symbol_rows};

use crate::fault::Fault;
use crate::tree::{Method, Operator, Postfix};
use rn_text::characters::{after_name_chars, split_first};
use rn_text::{Keyword, Kind, Token, keyword_of};

/// A token as the grammar sees it.
#[derive(Clone, Copy)]
pub(crate) enum Terminal<'a> {
    /// A name, without the backslash of a quoted one.
    Ident(&'a str),
    Keyword(Keyword),
    /// A name with a prefix, as it is written.
    Prefixed(&'a str),
    /// A prefix and `:*`, as they are written.
    AnyOf(&'a str),
    /// A segment of a literal, with its delimiters.
    Segment(&'a str),
    Operator(Operator),
    Postfix(Postfix),
    Assign(Method),
    Minus,
    Tilde,
    Follow,
    LeftBrace,
    RightBrace,
    LeftParen,
    RightParen,
    LeftBracket,
    RightBracket,
    /// A symbol that the grammar lacks.
    Other,
    /// No token is left.
    End,
}

#[inline(always)]
fn keyword(text: &str) -> Terminal<'_>
    ensures is { seen result ≡ Some (spelled_in keyword_rows (chars text.now)) }
    ensures whole { IsWhole result }
    ensures bare { (token : Token) → IsSegmentOf result token }
{
    match keyword_of(text) {
        Some(keyword) => Terminal::Keyword(keyword),
        None => Terminal::Other,
    }
}

#[inline(always)]
#[tactic(auto, unfolding(crate::specs::TokenTerminals::symbol_rows))]
pub(crate) fn symbol(text: &str) -> Terminal<'_>
    ensures is { seen result ≡ Some (spelled_in symbol_rows text.now) }
    ensures whole { IsWhole result }
    ensures bare { (token : Token) → IsSegmentOf result token }
    ensures utf8 { IsUtf8 text.now }
{
    match text.as_bytes() {
        b"=" => Terminal::Assign(Method::Plain),
        b"|=" => Terminal::Assign(Method::Choice),
        b"&=" => Terminal::Assign(Method::Interleave),
        b"{" => Terminal::LeftBrace,
        b"}" => Terminal::RightBrace,
        b"(" => Terminal::LeftParen,
        b")" => Terminal::RightParen,
        b"[" => Terminal::LeftBracket,
        b"]" => Terminal::RightBracket,
        b"," => Terminal::Operator(Operator::Comma),
        b"&" => Terminal::Operator(Operator::Ampersand),
        b"|" => Terminal::Operator(Operator::Bar),
        b"?" => Terminal::Postfix(Postfix::Question),
        b"*" => Terminal::Postfix(Postfix::Star),
        b"+" => Terminal::Postfix(Postfix::Plus),
        b"-" => Terminal::Minus,
        b"~" => Terminal::Tilde,
        b">>" => Terminal::Follow,
        _ => Terminal::Other,
    }
}

/// The prefix of a prefixed name or of `prefix:*`.
pub(crate) fn prefix_name(text: &str) -> &str
    ensures { result.now ≡ encode_utf8_all (run_of is_name_char (chars text.now)) }
{
    let behind = after_name_chars(text);
    text.strip_suffix(behind).unwrap_or(text)
}

/// What follows the first character.
fn behind_first(text: &str) -> &str
    ensures { result.now ≡ encode_utf8_all (drop 1 (chars text.now)) }
{
    match split_first(text) {
        Some((_, behind)) => behind,
        None => text,
    }
}

/// The local name of a name with a prefix: what follows the prefix and the colon.
pub(crate) fn local_name(text: &str) -> &str
    ensures { result.now ≡ encode_utf8_all (drop 1 (after_run is_name_char (chars text.now))) }
{
    behind_first(after_name_chars(text))
}

/// The terminal of a name without a backslash.
#[inline(always)]
fn plain_name(text: &str) -> Terminal<'_>
    ensures is { seen result ≡ Some (terminal.ident text.now) }
    ensures whole { IsWhole result }
    ensures bare { (token : Token) → IsSegmentOf result token }
    ensures utf8 { IsUtf8 text.now }
{
    Terminal::Ident(text)
}

/// What the grammar sees of a token.
#[inline(always)]
pub(crate) fn terminal_of<'a>(token: Token<'a>) -> Terminal<'a>
    ensures is { seen result ≡ Some (tokens.terminal_of token.entry.kind
        (chars token.entry.text.now)) }
    ensures whole { SpellsItsKind token.entry → IsWhole result }
    ensures same { IsSegmentOf result token.entry }
{
    match token.kind {
        Kind::Name => plain_name(token.text),
        Kind::Keyword => keyword(token.text),
        Kind::Quoted => Terminal::Ident(behind_first(token.text)),
        Kind::Prefixed => Terminal::Prefixed(token.text),
        Kind::AnyOf => Terminal::AnyOf(token.text),
        Kind::Segment => Terminal::Segment(token.text),
        Kind::Symbol => symbol(token.text),
    }
}

/// The next terminal. It is inlined, so that a caller who asks for one terminal tests for no other.
#[inline(always)]
pub(crate) fn next<'a>(tokens: &[Token<'a>], at: usize) -> Terminal<'a>
    ensures inside { IsInside result at (length tokens.now) }
    ensures next { IsNext (rest tokens.now at) (seen result) (rest tokens.now (at + 1)) }
    ensures whole { AreSpelled tokens.now → IsWhole result }
    ensures same { (token : Token) → slice_get tokens.now at ≡ Some token
        → IsSegmentOf result token }
{
    if at >= tokens.len() {
        return Terminal::End;
    }
    terminal_of(tokens[at])
}

/// The byte at which a token begins; at the end, that at which the last one ends.
pub(crate) fn place(tokens: &[Token<'_>], at: usize) -> usize
    ensures { BeginAt tokens.now (rest tokens.now at) result }
{
    if at < tokens.len() {
        return tokens[at].start;
    }
    match tokens.last() {
        Some(last) => last.end,
        None => 0,
    }
}

/// The text of a token, as the source has it.
fn text_of<'a>(token: &Token<'a>) -> &'a str
    ensures { result.now ≡ token.now.text.now }
{
    token.text
}

/// The word that spells the keyword at this index: a slice of the source.
pub(crate) fn keyword_text<'a>(tokens: &[Token<'a>], at: usize, keyword: Keyword) -> &'a str
    requires inside { at < length tokens.now }
    requires is { first_terminal (rest tokens.now at) ≡ terminal.keyword keyword }
    ensures { result.now ≡ spelling keyword }
{
    text_of(&tokens[at])
}

/// `word = ident | keyword`
pub(crate) fn word<'a>(tokens: &[Token<'a>], at: usize) -> Result<&'a str, Fault>
    ensures inside { IfOk result (λ _. at < length tokens.now) }
    ensures reads { ReadsOne (IsOf IsWordAt) Anything (λ s. s.now) tokens.now at result }
{
    match next(tokens, at) {
        Terminal::Ident(name) => Ok(name),
        Terminal::Keyword(keyword) => Ok(keyword_text(tokens, at, keyword)),
        _ => Err(Fault::Stuck(at)),
    }
}

pub(crate) fn is_keyword(tokens: &[Token<'_>], at: usize, wanted: Keyword) -> bool
    ensures inside { IsTrue result → at < length tokens.now }
    ensures is { MatchBool result (first_terminal (rest tokens.now at) ≡ terminal.keyword wanted)
        (first_terminal (rest tokens.now at) ≢ terminal.keyword wanted) }
{
    match next(tokens, at) {
        Terminal::Keyword(keyword) => keyword == wanted,
        _ => false,
    }
}

pub(crate) fn is_operator(tokens: &[Token<'_>], at: usize, wanted: Operator) -> bool
    ensures inside { IsTrue result → at < length tokens.now }
    ensures is { MatchBool result (first_terminal (rest tokens.now at) ≡ terminal.operator wanted)
        (first_terminal (rest tokens.now at) ≢ terminal.operator wanted) }
{
    match next(tokens, at) {
        Terminal::Operator(operator) => operator == wanted,
        _ => false,
    }
}

/// What follows `=`.
pub(crate) fn equals(tokens: &[Token<'_>], at: usize) -> Result<usize, Fault>
    requires { at ≤ length tokens.now }
    ensures inside { GoesPast at (length tokens.now) result }
    ensures passes { Passes (terminal.assign method.Plain) tokens.now at result }
{
    match next(tokens, at) {
        Terminal::Assign(method) => match method {
            Method::Plain => Ok(at + 1),
            _ => Err(Fault::Stuck(at)),
        },
        _ => Err(Fault::Stuck(at)),
    }
}

/// `assign = "=" | "|=" | "&="`
pub(crate) fn assign(tokens: &[Token<'_>], at: usize) -> Result<Method, Fault>
    ensures inside { IfOk result (λ _. at < length tokens.now) }
    ensures reads { ReadsOne (IsOf IsAssign) Anything (λ w. w) tokens.now at result }
{
    match next(tokens, at) {
        Terminal::Assign(method) => Ok(method),
        _ => Err(Fault::Stuck(at)),
    }
}

/// What follows `{`.
pub(crate) fn left_brace(tokens: &[Token<'_>], at: usize) -> Result<usize, Fault>
    requires { at ≤ length tokens.now }
    ensures inside { GoesPast at (length tokens.now) result }
    ensures passes { Passes terminal.left_brace tokens.now at result }
{
    match next(tokens, at) {
        Terminal::LeftBrace => Ok(at + 1),
        _ => Err(Fault::Stuck(at)),
    }
}

/// What follows `}`.
pub(crate) fn right_brace(tokens: &[Token<'_>], at: usize) -> Result<usize, Fault>
    requires { at ≤ length tokens.now }
    ensures inside { GoesPast at (length tokens.now) result }
    ensures passes { Passes terminal.right_brace tokens.now at result }
{
    match next(tokens, at) {
        Terminal::RightBrace => Ok(at + 1),
        _ => Err(Fault::Stuck(at)),
    }
}

/// What follows `)`.
pub(crate) fn right_paren(tokens: &[Token<'_>], at: usize) -> Result<usize, Fault>
    requires { at ≤ length tokens.now }
    ensures inside { GoesPast at (length tokens.now) result }
    ensures passes { Passes terminal.right_paren tokens.now at result }
{
    match next(tokens, at) {
        Terminal::RightParen => Ok(at + 1),
        _ => Err(Fault::Stuck(at)),
    }
}
