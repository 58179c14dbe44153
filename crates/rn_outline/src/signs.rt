// What the reader of outlines sees of tokens.
ghost use Rattle.std.specs.Prelude.{length};
ghost use Rattle.rn_outline.specs.inside.Signs.{IsInside};

use crate::file_parts::{OutlineMethod, Span};
use rn_text::{Keyword, Kind, Token, keyword_of};

/// A keyword, by what follows it.
#[derive(Clone, Copy)]
pub(crate) enum Word {
    /// `element`, `attribute`.
    Named,
    /// `list`, `mixed`.
    Braced,
    /// `empty`, `text`.
    Plain,
    NotAllowed,
    /// `string`, `token`.
    Datatype,
    Datatypes,
    Default,
    Div,
    External,
    Grammar,
    Include,
    Inherit,
    Namespace,
    Parent,
    Start,
}

/// A token by what an outline's reader does at it. Unlike rn_syntax's `Terminal` it has no text, and no case of its own
/// for what is passed over alike.
#[derive(Clone, Copy)]
pub(crate) enum Sign {
    /// A name that is no keyword, or is quoted.
    Ident,
    Word(Word),
    Prefixed,
    AnyOf,
    Segment,
    Assign(OutlineMethod),
    Bar,
    /// `,`, `&`
    Join,
    /// `?`, `+`
    Repeat,
    Star,
    Minus,
    Tilde,
    Follow,
    LeftBrace,
    RightBrace,
    LeftParen,
    RightParen,
    LeftBracket,
    RightBracket,
    /// A symbol that the grammar lacks.
    Other,
    /// No token is left.
    End,
}

/// The kind of the keyword that the text spells.
fn keyword(text: &str) -> Sign {
    match keyword_of(text) {
        Some(keyword) => Sign::Word(word_of(keyword)),
        None => Sign::Other,
    }
}

fn word_of(keyword: Keyword) -> Word {
    match keyword {
        Keyword::Element | Keyword::Attribute => Word::Named,
        Keyword::List | Keyword::Mixed => Word::Braced,
        Keyword::Empty | Keyword::Text => Word::Plain,
        Keyword::NotAllowed => Word::NotAllowed,
        Keyword::String | Keyword::Token => Word::Datatype,
        Keyword::Datatypes => Word::Datatypes,
        Keyword::Default => Word::Default,
        Keyword::Div => Word::Div,
        Keyword::External => Word::External,
        Keyword::Grammar => Word::Grammar,
        Keyword::Include => Word::Include,
        Keyword::Inherit => Word::Inherit,
        Keyword::Namespace => Word::Namespace,
        Keyword::Parent => Word::Parent,
        Keyword::Start => Word::Start,
    }
}

fn symbol(text: &str) -> Sign {
    match text.as_bytes() {
        b"=" => Sign::Assign(OutlineMethod::Plain),
        b"|=" => Sign::Assign(OutlineMethod::Choice),
        b"&=" => Sign::Assign(OutlineMethod::Interleave),
        b"{" => Sign::LeftBrace,
        b"}" => Sign::RightBrace,
        b"(" => Sign::LeftParen,
        b")" => Sign::RightParen,
        b"[" => Sign::LeftBracket,
        b"]" => Sign::RightBracket,
        b"," | b"&" => Sign::Join,
        b"|" => Sign::Bar,
        b"?" | b"+" => Sign::Repeat,
        b"*" => Sign::Star,
        b"-" => Sign::Minus,
        b"~" => Sign::Tilde,
        b">>" => Sign::Follow,
        _ => Sign::Other,
    }
}

fn sign_of(token: &Token<'_>) -> Sign {
    match token.kind {
        Kind::Name | Kind::Quoted => Sign::Ident,
        Kind::Keyword => keyword(token.text),
        Kind::Prefixed => Sign::Prefixed,
        Kind::AnyOf => Sign::AnyOf,
        Kind::Segment => Sign::Segment,
        Kind::Symbol => symbol(token.text),
    }
}

/// What the reader sees of the token of this index.
pub(crate) fn sign_at(tokens: &[Token<'_>], at: usize) -> Sign
    ensures { IsInside result at (length tokens.now) }
{
    if at >= tokens.len() {
        return Sign::End;
    }
    sign_of(&tokens[at])
}

/// The bytes of the tokens from one number up to, and without, another.
pub(crate) fn span(tokens: &[Token<'_>], from: usize, to: usize) -> Span {
    Span {
        from: begin(tokens, from),
        to: end(tokens, to),
    }
}

/// The byte at which the token of this index begins; at the end, that at which the last one ends.
pub(crate) fn begin(tokens: &[Token<'_>], at: usize) -> usize {
    match tokens.get(at) {
        Some(token) => token.start,
        None => last_end(tokens),
    }
}

fn last_end(tokens: &[Token<'_>]) -> usize {
    match tokens.last() {
        Some(token) => token.end,
        None => 0,
    }
}

/// The byte at which the token before this number ends.
pub(crate) fn end(tokens: &[Token<'_>], at: usize) -> usize {
    if at == 0 {
        return 0;
    }
    match tokens.get(at - 1) {
        Some(token) => token.end,
        None => last_end(tokens),
    }
}
