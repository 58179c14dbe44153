// Declarations of prefixes (compact syntax, section 2, decl).
ghost use Rattle.std.specs.Prelude.{◌≡◌, ◌≤◌, ◌<◌, length, map, IfOk, IsTrue};
ghost use Rattle.rn_syntax.specs.inside.Declaring.{IsDatatypesEnd, IsDefaultEnd, IsNamespaceEnd, MayHaveDefaultPrefix};
ghost use Rattle.rn_syntax.specs.inside.Follow.{Starts, Anything, begins_declaration, behind_item, first_terminal, no_tilde, no_word};
ghost use Rattle.rn_syntax.specs.Grammar.{AreDeclarations, IsDeclaration, IsUri};
ghost use Rattle.rn_text.specs.inside.Reading.{GoesOn, MayGoOn};
ghost use Rattle.rn_syntax.specs.inside.Readers.{Reads, ReadsOne, rest};
ghost use Rattle.rn_syntax.specs.inside.Sequence.{IsOf, IsPrefixAt};
ghost use Rattle.rn_syntax.specs.View.{declaration_view, place_view, prefix_view, uri_view};

use super::literals::literal;
use super::terminals::{Terminal, equals, is_keyword, keyword_text, next, place, word};
use crate::fault::Fault;
use crate::tree::{Declaration, Prefix, Uri};
use rn_text::{Keyword, Token};
use std::alloc::Global;

/// `decl*`
pub(crate) fn declarations<'a>(
    alloc: Global,
    tokens: &[Token<'a>],
) -> Result<(Vec<Declaration<'a>>, usize), Fault>
    ensures inside { IfOk result (λ r. r.1 ≤ length tokens.now) }
    ensures reads { Reads AreDeclarations (Starts behind_item)
        (λ v. map declaration_view v.items) tokens.now 0 result }
{
    let mut declarations = Vec::new(alloc);
    let mut end = 0;
    'declarations: while begins_declaration(tokens, end) {
        let (declaration, behind) = declaration(alloc, tokens, end)?;
        declarations.push(declaration)?;
        end = behind;
    }
    Ok((declarations, end))
}

fn begins_declaration(tokens: &[Token<'_>], at: usize) -> bool
    ensures inside { IsTrue result → at < length tokens.now }
    ensures is { result ≡ begins_declaration (first_terminal (rest tokens.now at)) }
{
    match next(tokens, at) {
        Terminal::Keyword(keyword) => match keyword {
            Keyword::Namespace | Keyword::Default | Keyword::Datatypes => true,
            _ => false,
        },
        _ => false,
    }
}

/// `decl`
fn declaration<'a>(
    alloc: Global,
    tokens: &[Token<'a>],
    at: usize,
) -> Result<(Declaration<'a>, usize), Fault>
    requires { at ≤ length tokens.now }
    ensures inside { GoesOn at (length tokens.now) result }
    ensures reads { Reads IsDeclaration (Starts no_tilde) declaration_view tokens.now at result }
{
    match next(tokens, at) {
        Terminal::Keyword(keyword) => match keyword {
            Keyword::Namespace => namespace(alloc, tokens, at + 1),
            Keyword::Default => default(alloc, tokens, at + 1, place(tokens, at)),
            Keyword::Datatypes => datatypes(alloc, tokens, at + 1),
            _ => Err(Fault::Stuck(at)),
        },
        _ => Err(Fault::Stuck(at)),
    }
}

/// `word`, where it is a prefix
pub(crate) fn prefix<'a>(tokens: &[Token<'a>], at: usize) -> Result<Prefix<'a>, Fault>
    ensures inside { IfOk result (λ _. at < length tokens.now) }
    ensures reads { ReadsOne (IsOf IsPrefixAt) Anything place_view tokens.now at result }
{
    let name = word(tokens, at)?;
    Ok(Prefix {
        name,
        at: place(tokens, at),
    })
}

/// `word "=" uri`, behind `namespace`
fn namespace<'a>(
    alloc: Global,
    tokens: &[Token<'a>],
    at: usize,
) -> Result<(Declaration<'a>, usize), Fault>
    requires { at ≤ length tokens.now }
    ensures inside { GoesOn at (length tokens.now) result }
    ensures reads { Reads IsNamespaceEnd (Starts no_tilde) declaration_view tokens.now at result }
{
    let prefix = prefix(tokens, at)?;
    let value = equals(tokens, at + 1)?;
    let (uri, end) = uri(alloc, tokens, value)?;
    Ok((Declaration::Namespace(prefix, uri), end))
}

/// `"namespace" [word] "=" uri`, behind the `default` at this place
fn default<'a>(
    alloc: Global,
    tokens: &[Token<'a>],
    at: usize,
    start: usize,
) -> Result<(Declaration<'a>, usize), Fault>
    requires { at ≤ length tokens.now }
    ensures inside { GoesOn at (length tokens.now) result }
    ensures reads { Reads (IsDefaultEnd start)
        (Starts no_tilde) declaration_view tokens.now at result }
{
    if !is_keyword(tokens, at, Keyword::Namespace) {
        return Err(Fault::Stuck(at));
    }
    let (prefix, behind) = default_prefix(tokens, at + 1)?;
    let value = equals(tokens, behind)?;
    let (uri, end) = uri(alloc, tokens, value)?;
    Ok((Declaration::Default(start, prefix, uri), end))
}

/// `[word]`
fn default_prefix<'a>(tokens: &[Token<'a>], at: usize) -> Result<(Option<Prefix<'a>>, usize), Fault>
    requires { at ≤ length tokens.now }
    ensures inside { MayGoOn at (length tokens.now) result }
    ensures reads { Reads MayHaveDefaultPrefix (Starts no_word) prefix_view tokens.now at result }
{
    match next(tokens, at) {
        Terminal::Ident(name) => {
            let prefix = Prefix {
                name,
                at: place(tokens, at),
            };
            Ok((Some(prefix), at + 1))
        }
        Terminal::Keyword(keyword) => {
            let prefix = Prefix {
                name: keyword_text(tokens, at, keyword),
                at: place(tokens, at),
            };
            Ok((Some(prefix), at + 1))
        }
        _ => Ok((None, at)),
    }
}

/// `word "=" literal`, behind `datatypes`
fn datatypes<'a>(
    alloc: Global,
    tokens: &[Token<'a>],
    at: usize,
) -> Result<(Declaration<'a>, usize), Fault>
    requires { at ≤ length tokens.now }
    ensures inside { GoesOn at (length tokens.now) result }
    ensures reads { Reads IsDatatypesEnd (Starts no_tilde) declaration_view tokens.now at result }
{
    let prefix = prefix(tokens, at)?;
    let value = equals(tokens, at + 1)?;
    let (library, end) = literal(alloc, tokens, value)?;
    Ok((Declaration::Datatypes(prefix, library), end))
}

/// `uri = literal | "inherit"`
fn uri<'a>(alloc: Global, tokens: &[Token<'a>], at: usize) -> Result<(Uri<'a>, usize), Fault>
    requires { at ≤ length tokens.now }
    ensures inside { GoesOn at (length tokens.now) result }
    ensures reads { Reads IsUri (Starts no_tilde) uri_view tokens.now at result }
{
    if is_keyword(tokens, at, Keyword::Inherit) {
        return Ok((Uri::Inherited, at + 1));
    }
    let (text, end) = literal(alloc, tokens, at)?;
    Ok((Uri::Literal(text), end))
}
