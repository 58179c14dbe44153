// Modules (compact syntax, section 2, topLevel).
ghost use Rattle.std.specs.Prelude.{◌≤◌, ◌<◌, length, map, IfErr, IfOk};
ghost use Rattle.rn_syntax.specs.Beginnings.{HasTree};
ghost use Rattle.rn_syntax.specs.Lent.{AreLent, items_literals};
ghost use Rattle.rn_syntax.specs.inside.Borrowed.{Lends};
ghost use Rattle.rn_syntax.specs.inside.Follow.{Starts, is_end};
ghost use Rattle.rn_syntax.specs.inside.Itemizing.{AreAnnotatedItems};
ghost use Rattle.rn_syntax.specs.inside.Modular.{IsAnnotatedBody, IsBody, IsGrammarEnd, IsModuleFault};
ghost use Rattle.rn_text.specs.inside.Reading.{MayGoOn};
ghost use Rattle.rn_syntax.specs.inside.Readers.{Reads};
ghost use Rattle.rn_syntax.specs.Spelled.{AreSpelled};
ghost use Rattle.rn_syntax.specs.TokenTerminals.{terminals_of};
ghost use Rattle.rn_syntax.specs.View.{item_view, module_view};

use super::annotations::{annotation, skip_follows};
use super::declarations::declarations;
use super::items::{item, items, items_behind};
use super::terminals::{Terminal, is_keyword, left_brace, next, right_brace};
use crate::fault::Fault;
use crate::tree::{Item, Module};
use rn_text::{Keyword, Token};
use std::alloc::Global;

/// `module = decl* item* | decl* [ann] "grammar" "{" item* "}" follow*`
pub(crate) fn module<'a>(alloc: Global, tokens: &[Token<'a>]) -> Result<Module<'a>, Fault>
    ensures tree { IfOk result (λ m. AreSpelled tokens.now
        → HasTree (terminals_of tokens.now) (module_view m)) }
    ensures lent { IfOk result (λ m. AreSpelled tokens.now
        → AreLent tokens.now 0 (length tokens.now) (items_literals m.items.items)) }
    ensures stuck { IfErr result (IsModuleFault tokens.now) }
{
    let (decls, at) = declarations(alloc, tokens)?;
    let (items, end) = body(alloc, tokens, at)?;
    if end < tokens.len() {
        return Err(Fault::Stuck(end));
    }
    Ok(Module { decls, items })
}

/// `item* | [ann] "grammar" "{" item* "}" follow*`
fn body<'a>(alloc: Global, tokens: &[Token<'a>], at: usize) -> Result<(Vec<Item<'a>>, usize), Fault>
    requires { at ≤ length tokens.now }
    ensures inside { MayGoOn at (length tokens.now) result }
    ensures reads { Reads IsBody (Starts is_end) (λ v. map item_view v.items) tokens.now at result }
    ensures lent { Lends tokens.now at (λ v. items_literals v.items) result }
{
    if let Terminal::LeftBracket = next(tokens, at) {
        let behind = annotation(tokens, at)?;
        return annotated_body(alloc, tokens, behind);
    }
    if is_keyword(tokens, at, Keyword::Grammar) {
        return grammar(alloc, tokens, at + 1);
    }
    items(alloc, tokens, at)
}

/// A module's body behind an annotation.
fn annotated_body<'a>(
    alloc: Global,
    tokens: &[Token<'a>],
    at: usize,
) -> Result<(Vec<Item<'a>>, usize), Fault>
    requires { at ≤ length tokens.now }
    ensures inside { MayGoOn at (length tokens.now) result }
    ensures reads { Reads IsAnnotatedBody (Starts is_end)
        (λ v. map item_view v.items) tokens.now at result }
    ensures lent { Lends tokens.now at (λ v. items_literals v.items) result }
{
    if is_keyword(tokens, at, Keyword::Grammar) {
        return grammar(alloc, tokens, at + 1);
    }
    annotated_items(alloc, tokens, at)
}

/// `"{" item* "}" follow*`, behind `grammar`
fn grammar<'a>(
    alloc: Global,
    tokens: &[Token<'a>],
    at: usize,
) -> Result<(Vec<Item<'a>>, usize), Fault>
    requires { at ≤ length tokens.now }
    ensures inside { MayGoOn at (length tokens.now) result }
    ensures reads { Reads IsGrammarEnd (Starts is_end)
        (λ v. map item_view v.items) tokens.now at result }
    ensures lent { Lends tokens.now at (λ v. items_literals v.items) result }
{
    let inside = left_brace(tokens, at)?;
    let (items, close) = items(alloc, tokens, inside)?;
    let behind = right_brace(tokens, close)?;
    let end = skip_follows(tokens, behind)?;
    Ok((items, end))
}

/// `item*`, behind the annotation of the first
fn annotated_items<'a>(
    alloc: Global,
    tokens: &[Token<'a>],
    at: usize,
) -> Result<(Vec<Item<'a>>, usize), Fault>
    requires { at ≤ length tokens.now }
    ensures inside { MayGoOn at (length tokens.now) result }
    ensures reads { Reads AreAnnotatedItems (Starts is_end)
        (λ v. map item_view v.items) tokens.now at result }
    ensures lent { Lends tokens.now at (λ v. items_literals v.items) result }
{
    let mut read = Vec::new(alloc);
    let (first, end) = item(alloc, tokens, at)?;
    read.push(first)?;
    items_behind(alloc, tokens, end, read)
}
