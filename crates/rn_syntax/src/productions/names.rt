// Name classes (compact syntax, section 2, nameClass).
ghost use Rattle.std.specs.Prelude.{◌≡◌, ◌≤◌, ◌<◌, ◌+◌, [], length, false, IfSome, MatchOption};
ghost use Rattle.rn_syntax.specs.inside.Follow.{Starts, Anything, begins_any, behind_class, behind_name, first_terminal};
ghost use Rattle.rn_syntax.specs.inside.Boxes.{boxed_class_view};
ghost use Rattle.rn_syntax.specs.Grammar.{IsAnyName, IsClassCore, IsClassOperand, IsClassPrimary, IsNameClass};
ghost use Rattle.rn_text.specs.inside.Reading.{GoesOn, MayGoOn};
ghost use Rattle.rn_syntax.specs.inside.Readers.{Makes, Reads, Took, rest};
ghost use Rattle.rn_syntax.specs.inside.Sequence.{IsAnyClassEnd, IsClassEnd, IsHere};
ghost use Rattle.rn_syntax.specs.Tree as tree;
ghost use Rattle.rn_syntax.specs.View.{any_view, class_view, classes_view};

use super::annotations::{skip_annotation, skip_follows};
use super::terminals::{
    Terminal, is_operator, keyword_text, local_name, next, place, prefix_name, right_paren,
};
use crate::constructors::{boxed, push_member};
use crate::fault::Fault;
use crate::tree::{AnyName, Nc, Operator, Postfix, Prefix, PrefixedName};
use rn_text::Token;
use std::alloc::Global;

fn single_name(alloc: Global, name: &str, end: usize) -> Result<(Box<Nc<'_>>, usize), Fault>
    ensures { Makes boxed_class_view (tree.name (tree.local name.now)) end result }
{
    boxed(alloc, Nc::Local(name), end)
}

fn prefixed_name<'a>(
    alloc: Global,
    prefix: Prefix<'a>,
    local: &'a str,
    end: usize,
) -> Result<(Box<Nc<'a>>, usize), Fault>
    ensures { Makes boxed_class_view (tree.name (tree.prefixed prefix.entry.name.now local.now
        prefix.entry.at)) end result }
{
    let name = Box::new(alloc, PrefixedName { prefix, local })?;
    boxed(alloc, Nc::Prefixed(name), end)
}

fn all_names(alloc: Global, any: AnyName<'_>, end: usize) -> Result<(Box<Nc<'_>>, usize), Fault>
    ensures { Makes boxed_class_view (tree.all (any_view any.entry)) end result }
{
    let any = Box::new(alloc, any)?;
    boxed(alloc, Nc::All(any), end)
}

fn all_names_but<'a>(
    alloc: Global,
    any: AnyName<'a>,
    except: Box<Nc<'a>>,
    end: usize,
) -> Result<(Box<Nc<'a>>, usize), Fault>
    ensures { Makes boxed_class_view (tree.all_but (any_view any.entry)
        (boxed_class_view except.entry)) end result }
{
    let any = Box::new(alloc, any)?;
    boxed(alloc, Nc::AllBut(any, except), end)
}

fn choice<'a>(
    alloc: Global,
    members: Vec<Nc<'a>>,
    end: usize,
) -> Result<(Box<Nc<'a>>, usize), Fault>
    ensures { Makes boxed_class_view (tree.choice (classes_view members.entry.items)) end result }
{
    let members = Box::new(alloc, members)?;
    boxed(alloc, Nc::Choice(members), end)
}

/// The name that stands here, if it is a whole name class: if `{` stands right behind it.
#[inline(always)]
fn lone_name<'a>(tokens: &[Token<'a>], at: usize) -> Option<&'a str>
    ensures inside { IfSome result (λ _. at < length tokens.now) }
    ensures reads { IfSome result (λ n. Took IsNameClass (Starts behind_class) (rest tokens.now at)
        (tree.name (tree.local n.now)) (rest tokens.now (at + 1))) }
{
    let Terminal::Ident(name) = next(tokens, at) else {
        return None;
    };
    match next(tokens, at + 1) {
        Terminal::LeftBrace => Some(name),
        _ => None,
    }
}

/// The name class before a `{`; most are one name, which is asked for first.
pub(crate) fn whole_class<'a>(
    alloc: Global,
    tokens: &[Token<'a>],
    at: usize,
) -> Result<(Nc<'a>, usize), Fault>
    requires { at ≤ length tokens.now }
    ensures inside { GoesOn at (length tokens.now) result }
    ensures reads { Reads IsNameClass (Starts behind_class) class_view tokens.now at result }
{
    if let Some(name) = lone_name(tokens, at) {
        return Ok((Nc::Local(name), at + 1));
    }
    let (class, end) = name_class(alloc, tokens, at)?;
    Ok((Box::into_inner(class), end))
}

/// `nc = ncoperand ( "|" ncoperand )*`
#[cycle(name_class)]
fn name_class<'a>(
    alloc: Global,
    tokens: &[Token<'a>],
    at: usize,
) -> Result<(Box<Nc<'a>>, usize), Fault>
    requires { at ≤ length tokens.now }
    ensures inside { GoesOn at (length tokens.now) result }
    ensures reads { Reads IsNameClass (Starts behind_class) boxed_class_view tokens.now at result }
{
    let (first, mut end) = class_operand(alloc, tokens, at)?;
    if !is_operator(tokens, end, Operator::Bar) {
        return Ok((first, end));
    }
    let mut members = Vec::with_capacity(alloc, 2)?;
    push_member(&mut members, first)?;
    'choice: while is_operator(tokens, end, Operator::Bar) {
        let (class, behind) = class_operand(alloc, tokens, end + 1)?;
        push_member(&mut members, class)?;
        end = behind;
    }
    choice(alloc, members, end)
}

/// `"*" | AnyOf`
fn any_name<'a>(tokens: &[Token<'a>], at: usize) -> Option<AnyName<'a>>
    ensures inside { IfSome result (λ _. at < length tokens.now) }
    ensures names { MatchOption result (begins_any (first_terminal (rest tokens.now at)) ≡ false)
        (λ a. IsHere IsAnyName (rest tokens.now at) (any_view a) (rest tokens.now (at + 1))) }
{
    match next(tokens, at) {
        Terminal::Postfix(postfix) => match postfix {
            Postfix::Star => Some(AnyName::Any),
            _ => None,
        },
        Terminal::AnyOf(text) => Some(AnyName::AnyOf(Prefix {
            name: prefix_name(text),
            at: place(tokens, at),
        })),
        _ => None,
    }
}

/// `follow*`, behind `*` or `AnyOf`
fn any_class<'a>(
    alloc: Global,
    tokens: &[Token<'_>],
    at: usize,
    any: AnyName<'a>,
) -> Result<(Box<Nc<'a>>, usize), Fault>
    requires { at ≤ length tokens.now }
    ensures inside { MayGoOn at (length tokens.now) result }
    ensures reads { Reads (IsAnyClassEnd (any_view any.entry))
        (Starts behind_name) boxed_class_view tokens.now at result }
{
    let end = skip_follows(tokens, at)?;
    all_names(alloc, any, end)
}

/// `ncoperand = ncprimary | [ann] ( "*" | AnyOf ) "-" ncprimary`. Most are words, which are asked for first.
#[cycle(name_class)]
fn class_operand<'a>(
    alloc: Global,
    tokens: &[Token<'a>],
    at: usize,
) -> Result<(Box<Nc<'a>>, usize), Fault>
    requires { at ≤ length tokens.now }
    ensures inside { GoesOn at (length tokens.now) result }
    ensures reads { Reads IsClassOperand
        (Starts behind_name) boxed_class_view tokens.now at result }
{
    match next(tokens, at) {
        Terminal::Ident(_) | Terminal::Keyword(_) => class_end(alloc, tokens, at),
        _ => any_class_operand(alloc, tokens, at),
    }
}

/// An operand of a name class, whatever it begins with: an annotation, `*` and `AnyOf` are looked for first.
#[cycle(name_class)]
fn any_class_operand<'a>(
    alloc: Global,
    tokens: &[Token<'a>],
    at: usize,
) -> Result<(Box<Nc<'a>>, usize), Fault>
    requires { at ≤ length tokens.now }
    ensures inside { GoesOn at (length tokens.now) result }
    ensures reads { Reads IsClassOperand
        (Starts behind_name) boxed_class_view tokens.now at result }
{
    let body = skip_annotation(tokens, at)?;
    let Some(any) = any_name(tokens, body) else {
        return class_end(alloc, tokens, body);
    };
    let Terminal::Minus = next(tokens, body + 1) else {
        return any_class(alloc, tokens, body + 1, any);
    };
    let (except, end) = class_primary(alloc, tokens, body + 2)?;
    all_names_but(alloc, any, except, end)
}

/// `ncprimary = [ann] ( word | Prefixed | "*" | AnyOf | "(" nc ")" ) follow*`
#[cycle(name_class)]
fn class_primary<'a>(
    alloc: Global,
    tokens: &[Token<'a>],
    at: usize,
) -> Result<(Box<Nc<'a>>, usize), Fault>
    requires { at ≤ length tokens.now }
    ensures inside { GoesOn at (length tokens.now) result }
    ensures reads { Reads IsClassPrimary
        (Starts behind_name) boxed_class_view tokens.now at result }
{
    let body = skip_annotation(tokens, at)?;
    match any_name(tokens, body) {
        Some(any) => any_class(alloc, tokens, body + 1, any),
        None => class_end(alloc, tokens, body),
    }
}

/// `( word | Prefixed | "(" nc ")" ) follow*`
#[cycle(name_class)]
fn class_end<'a>(
    alloc: Global,
    tokens: &[Token<'a>],
    at: usize,
) -> Result<(Box<Nc<'a>>, usize), Fault>
    requires inside { at ≤ length tokens.now }
    requires none { begins_any (first_terminal (rest tokens.now at)) ≡ false }
    ensures inside { GoesOn at (length tokens.now) result }
    ensures reads { Reads IsClassEnd (Starts behind_name) boxed_class_view tokens.now at result }
{
    let (class, behind) = class_core(alloc, tokens, at)?;
    let end = skip_follows(tokens, behind)?;
    Ok((class, end))
}

/// `word | Prefixed | "(" nc ")"`
#[cycle(name_class)]
fn class_core<'a>(
    alloc: Global,
    tokens: &[Token<'a>],
    at: usize,
) -> Result<(Box<Nc<'a>>, usize), Fault>
    requires inside { at ≤ length tokens.now }
    requires none { begins_any (first_terminal (rest tokens.now at)) ≡ false }
    ensures inside { GoesOn at (length tokens.now) result }
    ensures reads { Reads IsClassCore Anything boxed_class_view tokens.now at result }
{
    match next(tokens, at) {
        Terminal::Ident(name) => single_name(alloc, name, at + 1),
        Terminal::Keyword(keyword) => {
            let name = keyword_text(tokens, at, keyword);
            single_name(alloc, name, at + 1)
        }
        Terminal::Prefixed(text) => {
            let prefix = Prefix {
                name: prefix_name(text),
                at: place(tokens, at),
            };
            prefixed_name(alloc, prefix, local_name(text), at + 1)
        }
        Terminal::LeftParen => {
            let (class, end) = name_class(alloc, tokens, at + 1)?;
            let behind = right_paren(tokens, end)?;
            Ok((class, behind))
        }
        _ => Err(Fault::Stuck(at)),
    }
}
