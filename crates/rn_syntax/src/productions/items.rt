// The items of a grammar, and those of an include (compact syntax, section 2, grammarContent and includeContent).
ghost use Rattle.std.specs.Prelude.{◌≡◌, ◌≤◌, ◌<◌, ◌∷◌, [], ℕ, length, map, IfOk, IsTrue};
ghost use Rattle.std.specs.Cow.{cow_str_bytes};
ghost use Rattle.rn_syntax.specs.Lent.{AreLent, item_literals, items_literals};
ghost use Rattle.rn_syntax.specs.inside.Borrowed.{LendsOne, Lends};
ghost use Rattle.rn_syntax.specs.inside.Follow.{Anything, Starts, behind_item, behind_pattern, first_terminal, is_end, no_brace, no_inherit};
ghost use Rattle.rn_syntax.specs.Grammar.{AreInnerItems, AreItems, IsComponent, MayInherit, MayHaveOverrides};
ghost use Rattle.rn_syntax.specs.inside.Including.{AreItemsBehind, IsDivEnd, IsIncludeEnd, IsInnerItem, IsInnerDivEnd, IsItem, begins_inner, begins_item};
ghost use Rattle.rn_text.specs.inside.Reading.{GoesOn, MayGoOn};
ghost use Rattle.rn_syntax.specs.inside.Readers.{Reads, rest};
ghost use Rattle.rn_syntax.specs.Spelled.{AreSpelled};
ghost use Rattle.rn_syntax.specs.Tree as tree;
ghost use Rattle.rn_syntax.specs.View.{boxed_view, item_view, items_view, prefix_view};

use super::annotations::{annotation, begins_note, skip_annotation};
use super::declarations::prefix;
use super::literals::literal;
use super::patterns::pattern;
use super::terminals::{Terminal, assign, equals, is_keyword, left_brace, next, right_brace};
use crate::fault::Fault;
use crate::tree::{Include, Item, Method, Pat, Prefix};
use rn_text::{Keyword, Token};
use std::alloc::{AllocError, Global};
use std::borrow::CowStr;

fn define<'a>(name: &'a str, method: Method, body: Box<Pat<'a>>) -> Item<'a>
    ensures tree { item_view result ≡ tree.define name.now method (boxed_view body.entry) }
    ensures literals { item_literals result ≡ [] }
{
    Item::Define { name, method, body }
}

fn start(method: Method, body: Box<Pat<'_>>) -> Item<'_>
    ensures tree { item_view result ≡ tree.start method (boxed_view body.entry) }
    ensures literals { item_literals result ≡ [] }
{
    Item::Start { method, body }
}

fn division(items: Vec<Item<'_>>) -> Item<'_>
    ensures tree { item_view result ≡ tree.div (items_view items.entry.items) }
    ensures literals { item_literals result ≡ items_literals items.entry.items }
{
    Item::Div(items)
}

fn inclusion<'a>(
    alloc: Global,
    wanted: CowStr<'a>,
    inherit: Option<Prefix<'a>>,
    items: Vec<Item<'a>>,
) -> Result<Item<'a>, AllocError>
    ensures tree { IfOk result (λ item. item_view item ≡ tree.include (cow_str_bytes wanted.entry)
        (prefix_view inherit.entry) (items_view items.entry.items)) }
    ensures literals { IfOk result (λ item. item_literals item
        ≡ wanted.entry ∷ items_literals items.entry.items) }
{
    let include = Box::new(
        alloc,
        Include {
            wanted,
            inherit,
            items,
        },
    )?;
    Ok(Item::Include(include))
}

/// Whether an item begins here, or a note.
fn begins_item(tokens: &[Token<'_>], at: usize) -> bool
    ensures inside { IsTrue result → at < length tokens.now }
    ensures is { result ≡ begins_item (first_terminal (rest tokens.now at)) }
{
    match next(tokens, at) {
        Terminal::LeftBracket | Terminal::Ident(_) | Terminal::Prefixed(_) => true,
        Terminal::Keyword(keyword) => match keyword {
            Keyword::Start | Keyword::Div | Keyword::Include => true,
            _ => false,
        },
        _ => false,
    }
}

/// `item*`, with `item = [ann] ( define | start | div | include ) | note`
#[cycle(items)]
pub(crate) fn items<'a>(
    alloc: Global,
    tokens: &[Token<'a>],
    at: usize,
) -> Result<(Vec<Item<'a>>, usize), Fault>
    requires { at ≤ length tokens.now }
    ensures inside { MayGoOn at (length tokens.now) result }
    ensures reads { Reads AreItems (Starts is_end)
        (λ v. map item_view v.items) tokens.now at result }
    ensures lent { Lends tokens.now at (λ v. items_literals v.items) result }
{
    items_behind(alloc, tokens, at, Vec::new(alloc))
}

/// `item*`, added to the items that were read already.
#[cycle(items)]
pub(crate) fn items_behind<'a>(
    alloc: Global,
    tokens: &[Token<'a>],
    at: usize,
    read: Vec<Item<'a>>,
) -> Result<(Vec<Item<'a>>, usize), Fault>
    requires { at ≤ length tokens.now }
    ensures inside { MayGoOn at (length tokens.now) result }
    ensures reads { Reads (AreItemsBehind (map item_view read.entry.items)) (Starts is_end)
        (λ v. map item_view v.items) tokens.now at result }
    ensures lent { IfOk result (λ r. AreSpelled tokens.now → (from : ℕ) → from ≤ at
        → AreLent tokens.now from at (items_literals read.entry.items)
        → AreLent tokens.now from r.1 (items_literals r.0.items)) }
{
    let mut items = read;
    let mut end = at;
    'items: while begins_item(tokens, end) {
        if begins_note(tokens, end) {
            end = annotation(tokens, end + 1)?;
        } else {
            let body = skip_annotation(tokens, end)?;
            let (item, behind) = item(alloc, tokens, body)?;
            items.push(item)?;
            end = behind;
        }
    }
    Ok((items, end))
}

/// `define | start | div | include`
#[cycle(items)]
pub(crate) fn item<'a>(
    alloc: Global,
    tokens: &[Token<'a>],
    at: usize,
) -> Result<(Item<'a>, usize), Fault>
    requires { at ≤ length tokens.now }
    ensures inside { GoesOn at (length tokens.now) result }
    ensures reads { Reads IsItem (Starts behind_item) item_view tokens.now at result }
    ensures lent { Lends tokens.now at item_literals result }
{
    match next(tokens, at) {
        Terminal::Keyword(keyword) => match keyword {
            Keyword::Div => div(alloc, tokens, at + 1),
            Keyword::Include => include(alloc, tokens, at + 1),
            _ => component(alloc, tokens, at),
        },
        _ => component(alloc, tokens, at),
    }
}

/// `define = ident assign pattern` and `start = "start" assign pattern`
fn component<'a>(alloc: Global, tokens: &[Token<'a>], at: usize) -> Result<(Item<'a>, usize), Fault>
    requires { at ≤ length tokens.now }
    ensures inside { GoesOn at (length tokens.now) result }
    ensures reads { Reads IsComponent (Starts behind_pattern) item_view tokens.now at result }
    ensures no_include { IfOk result (λ r. item_literals r.0 ≡ []) }
{
    match next(tokens, at) {
        Terminal::Ident(name) => {
            let method = assign(tokens, at + 1)?;
            let (body, end) = pattern(alloc, tokens, at + 2)?;
            Ok((define(name, method, body), end))
        }
        Terminal::Keyword(keyword) => match keyword {
            Keyword::Start => {
                let method = assign(tokens, at + 1)?;
                let (body, end) = pattern(alloc, tokens, at + 2)?;
                Ok((start(method, body), end))
            }
            _ => Err(Fault::Stuck(at)),
        },
        _ => Err(Fault::Stuck(at)),
    }
}

/// `"{" item* "}"`, behind `div`
#[cycle(items)]
fn div<'a>(alloc: Global, tokens: &[Token<'a>], at: usize) -> Result<(Item<'a>, usize), Fault>
    requires { at ≤ length tokens.now }
    ensures inside { GoesOn at (length tokens.now) result }
    ensures reads { Reads IsDivEnd Anything item_view tokens.now at result }
    ensures lent { Lends tokens.now at item_literals result }
{
    let inside = left_brace(tokens, at)?;
    let (items, end) = items(alloc, tokens, inside)?;
    let behind = right_brace(tokens, end)?;
    Ok((division(items), behind))
}

/// `literal [ "inherit" "=" word ] [ "{" inner* "}" ]`, behind `include`
fn include<'a>(alloc: Global, tokens: &[Token<'a>], at: usize) -> Result<(Item<'a>, usize), Fault>
    requires { at ≤ length tokens.now }
    ensures inside { GoesOn at (length tokens.now) result }
    ensures reads { Reads IsIncludeEnd (Starts behind_item) item_view tokens.now at result }
    ensures lent { IfOk result (λ r. AreSpelled tokens.now
        → LendsOne tokens.now at (item_literals r.0)) }
{
    let (wanted, behind) = literal(alloc, tokens, at)?;
    let (inherit, own) = inherit(tokens, behind)?;
    let (items, end) = overrides(alloc, tokens, own)?;
    let include = inclusion(alloc, wanted, inherit, items)?;
    Ok((include, end))
}

/// `[ "inherit" "=" word ]`
fn inherit<'a>(tokens: &[Token<'a>], at: usize) -> Result<(Option<Prefix<'a>>, usize), Fault>
    requires { at ≤ length tokens.now }
    ensures inside { MayGoOn at (length tokens.now) result }
    ensures reads { Reads MayInherit (Starts no_inherit) prefix_view tokens.now at result }
{
    if !is_keyword(tokens, at, Keyword::Inherit) {
        return Ok((None, at));
    }
    let value = equals(tokens, at + 1)?;
    let prefix = prefix(tokens, value)?;
    Ok((Some(prefix), value + 1))
}

/// `[ "{" inner* "}" ]`
fn overrides<'a>(
    alloc: Global,
    tokens: &[Token<'a>],
    at: usize,
) -> Result<(Vec<Item<'a>>, usize), Fault>
    requires { at ≤ length tokens.now }
    ensures inside { MayGoOn at (length tokens.now) result }
    ensures reads { Reads MayHaveOverrides (Starts no_brace)
        (λ v. map item_view v.items) tokens.now at result }
    ensures no_include { IfOk result (λ r. items_literals r.0.items ≡ []) }
{
    let Terminal::LeftBrace = next(tokens, at) else {
        return Ok((Vec::new(alloc), at));
    };
    let (items, end) = inner_items(alloc, tokens, at + 1)?;
    let behind = right_brace(tokens, end)?;
    Ok((items, behind))
}

/// Whether an inner item begins here, or a note.
fn begins_inner(tokens: &[Token<'_>], at: usize) -> bool
    ensures inside { IsTrue result → at < length tokens.now }
    ensures is { result ≡ begins_inner (first_terminal (rest tokens.now at)) }
{
    match next(tokens, at) {
        Terminal::LeftBracket | Terminal::Ident(_) | Terminal::Prefixed(_) => true,
        Terminal::Keyword(keyword) => match keyword {
            Keyword::Start | Keyword::Div => true,
            _ => false,
        },
        _ => false,
    }
}

/// `inner*`, with `inner = [ann] ( define | start | innerdiv ) | note`
#[cycle(inner_items)]
fn inner_items<'a>(
    alloc: Global,
    tokens: &[Token<'a>],
    at: usize,
) -> Result<(Vec<Item<'a>>, usize), Fault>
    requires { at ≤ length tokens.now }
    ensures inside { MayGoOn at (length tokens.now) result }
    ensures reads { Reads AreInnerItems (Starts is_end)
        (λ v. map item_view v.items) tokens.now at result }
    ensures no_include { IfOk result (λ r. items_literals r.0.items ≡ []) }
{
    let mut items = Vec::new(alloc);
    let mut end = at;
    'inner: while begins_inner(tokens, end) {
        if begins_note(tokens, end) {
            end = annotation(tokens, end + 1)?;
        } else {
            let body = skip_annotation(tokens, end)?;
            let (item, behind) = inner_item(alloc, tokens, body)?;
            items.push(item)?;
            end = behind;
        }
    }
    Ok((items, end))
}

/// `define | start | innerdiv`
#[cycle(inner_items)]
fn inner_item<'a>(
    alloc: Global,
    tokens: &[Token<'a>],
    at: usize,
) -> Result<(Item<'a>, usize), Fault>
    requires { at ≤ length tokens.now }
    ensures inside { GoesOn at (length tokens.now) result }
    ensures reads { Reads IsInnerItem (Starts behind_item) item_view tokens.now at result }
    ensures no_include { IfOk result (λ r. item_literals r.0 ≡ []) }
{
    match next(tokens, at) {
        Terminal::Keyword(keyword) => match keyword {
            Keyword::Div => inner_div(alloc, tokens, at + 1),
            _ => component(alloc, tokens, at),
        },
        _ => component(alloc, tokens, at),
    }
}

/// `"{" inner* "}"`, behind `div`
#[cycle(inner_items)]
fn inner_div<'a>(alloc: Global, tokens: &[Token<'a>], at: usize) -> Result<(Item<'a>, usize), Fault>
    requires { at ≤ length tokens.now }
    ensures inside { GoesOn at (length tokens.now) result }
    ensures reads { Reads IsInnerDivEnd Anything item_view tokens.now at result }
    ensures no_include { IfOk result (λ r. item_literals r.0 ≡ []) }
{
    let inside = left_brace(tokens, at)?;
    let (items, end) = inner_items(alloc, tokens, inside)?;
    let behind = right_brace(tokens, end)?;
    Ok((division(items), behind))
}
