// Declarations of prefixes (compact syntax, section 2, decl).
ghost use Rattle.std.specs.Prelude.{◌<◌, ◌≤◌, length, IfOk, IfSome};
ghost use Rattle.rn_text.specs.Reading.{Advanced};
ghost use Rattle.rn_text.specs.inside.Reading.{Passed};

use crate::file_parts::{DeclarationKind, OutlineDeclaration, OutlineUri, Span};
use crate::outline_fault::TokenFault;
use crate::signs::{Sign, Word, sign_at, span};
use crate::skips::{literal_at, plain_assign, word};
use rn_text::Token;
use std::alloc::Global;

/// The declarations at the front, and what follows them.
pub(crate) fn declarations(
    alloc: Global,
    tokens: &[Token<'_>],
) -> Result<(Vec<OutlineDeclaration>, usize), TokenFault>
    ensures { IfOk result (λ r. r.1 ≤ length tokens.now) }
{
    let mut declarations = Vec::new(alloc);
    let mut end = 0;
    'declarations: while let Some((kind, prefix)) = head(tokens, end) {
        let (declaration, behind) = declaration(alloc, tokens, end, kind, prefix)?;
        declarations.push(declaration)?;
        end = behind;
    }
    Ok((declarations, end))
}

/// What the declaration that begins here binds, and what follows its keywords.
fn head(tokens: &[Token<'_>], at: usize) -> Option<(DeclarationKind, usize)>
    ensures { IfSome result (λ r. Advanced at r.1 (length tokens.now)) }
{
    match sign_at(tokens, at) {
        Sign::Word(Word::Namespace) => Some((DeclarationKind::Namespace, at + 1)),
        Sign::Word(Word::Datatypes) => Some((DeclarationKind::Datatypes, at + 1)),
        Sign::Word(Word::Default) => match sign_at(tokens, at + 1) {
            Sign::Word(Word::Namespace) => Some((DeclarationKind::Default, at + 2)),
            _ => None,
        },
        _ => None,
    }
}

/// A declaration that begins at one token, with what follows its keywords.
fn declaration(
    alloc: Global,
    tokens: &[Token<'_>],
    at: usize,
    kind: DeclarationKind,
    behind: usize,
) -> Result<(OutlineDeclaration, usize), TokenFault>
    requires { Advanced at behind (length tokens.now) }
    ensures { IfOk result (λ r. Advanced at r.1 (length tokens.now)) }
{
    let (prefix, equals) = prefix(tokens, behind, kind)?;
    let value = plain_assign(tokens, equals)?;
    let (uri, end) = uri(alloc, tokens, value, kind)?;
    let at = span(tokens, at, end);
    let declaration = OutlineDeclaration {
        kind,
        prefix,
        uri,
        at,
    };
    Ok((declaration, end))
}

/// The prefix of a declaration. A default namespace may have none.
fn prefix(
    tokens: &[Token<'_>],
    at: usize,
    kind: DeclarationKind,
) -> Result<(Option<Span>, usize), TokenFault>
    requires { at ≤ length tokens.now }
    ensures { IfOk result (λ r. Passed at r.1 (length tokens.now)) }
{
    if let Sign::Assign(_) = sign_at(tokens, at) {
        if kind == DeclarationKind::Default {
            return Ok((None, at));
        }
    }
    let end = word(tokens, at)?;
    Ok((Some(span(tokens, at, end)), end))
}

/// The URI of a declaration, a literal or, for a namespace, `inherit`; and what follows it.
fn uri(
    alloc: Global,
    tokens: &[Token<'_>],
    at: usize,
    kind: DeclarationKind,
) -> Result<(OutlineUri, usize), TokenFault>
    requires { at ≤ length tokens.now }
    ensures { IfOk result (λ r. Advanced at r.1 (length tokens.now)) }
{
    if let Sign::Word(Word::Inherit) = sign_at(tokens, at) {
        if kind != DeclarationKind::Datatypes {
            return Ok((OutlineUri::Inherited, at + 1));
        }
    }
    let (text, _, end) = literal_at(alloc, tokens, at)?;
    Ok((OutlineUri::Literal(text), end))
}
