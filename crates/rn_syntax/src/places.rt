// The places in the patterns of a module that break a rule.
ghost use Rattle.std.specs.Prelude.{◌≡◌};
ghost use Rattle.std.specs.Cow.{cow_str_bytes};
ghost use Rattle.rn_syntax.specs.BindingDeclarations.{bound};
ghost use Rattle.rn_syntax.specs.Places.{first};
ghost use Rattle.rn_syntax.specs.inside.Rules as rules;
ghost use Rattle.rn_syntax.specs.Tree as tree;
ghost use Rattle.rn_syntax.specs.View.{pattern_view, patterns_view, item_view, items_view, type_view};

use crate::bindings::Bindings;
use crate::rules::Rule;
use crate::tree::{Item, Module, Pat, Value};

/// The place of a value whose datatype breaks the rule.
fn value_place(rule: Rule, bindings: &Bindings<'_, '_>, value: &Value<'_>) -> Option<usize>
    ensures { result ≡ first (rules.pattern_places (bound bindings.now) rule
        (tree.value (type_view value.now.datatype) (cow_str_bytes value.now.text))) }
{
    match value.datatype {
        Some(datatype) => rule.value(bindings, datatype),
        None => None,
    }
}

/// The first place in a pattern that breaks the rule.
#[tactic(auto, using(crate::proofs::FaultPlaces::FirstPlaces::none_first, crate::proofs::FaultPlaces::FirstPlaces::some_first))]
#[cycle(pattern_place)]
fn pattern_place(rule: Rule, bindings: &Bindings<'_, '_>, pattern: &Pat<'_>) -> Option<usize>
    ensures { result ≡ first (rules.pattern_places (bound bindings.now) rule
        (pattern_view pattern.now)) }
{
    match pattern {
        Pat::Element(named) | Pat::Attribute(named) => {
            match rule.name_class(bindings, &named.class) {
                None => pattern_place(rule, bindings, &named.content),
                wrong => wrong,
            }
        }
        Pat::List(content) | Pat::Mixed(content) | Pat::Repeated(_, content) => {
            pattern_place(rule, bindings, content)
        }
        Pat::Empty | Pat::NotAllowed | Pat::Text | Pat::Ref(_) => None,
        Pat::Value(value) => value_place(rule, bindings, value),
        Pat::Datum(data) => rule.data(bindings, data.datatype, &data.params),
        Pat::DatumBut(data, at, excepted) => {
            if let Some(wrong) = rule.data(bindings, data.datatype, &data.params) {
                return Some(wrong);
            }
            match rule.except(*at, excepted) {
                None => pattern_place(rule, bindings, excepted),
                wrong => wrong,
            }
        }
        Pat::Chain(_, members) => patterns_place(rule, bindings, members),
    }
}

/// The first place in patterns that breaks the rule.
#[tactic(auto, using(crate::proofs::FaultPlaces::FirstPlaces::none_first, crate::proofs::FaultPlaces::FirstPlaces::some_first))]
#[cycle(pattern_place)]
fn patterns_place(rule: Rule, bindings: &Bindings<'_, '_>, patterns: &[Pat<'_>]) -> Option<usize>
    ensures { result ≡ first (rules.patterns_places (bound bindings.now) rule
        (patterns_view patterns.now)) }
{
    'patterns: for pattern in patterns {
        if let Some(wrong) = pattern_place(rule, bindings, pattern) {
            return Some(wrong);
        }
    }
    None
}

/// The first place in the patterns of items that breaks the rule.
#[tactic(auto, using(crate::proofs::FaultPlaces::FirstPlaces::none_first, crate::proofs::FaultPlaces::FirstPlaces::some_first))]
#[cycle(items_place)]
fn items_place(rule: Rule, bindings: &Bindings<'_, '_>, items: &[Item<'_>]) -> Option<usize>
    ensures { result ≡ first (rules.items_places (bound bindings.now) rule (items_view items.now)) }
{
    'items: for item in items {
        if let Some(wrong) = item_place(rule, bindings, item) {
            return Some(wrong);
        }
    }
    None
}

#[tactic(auto, using(crate::proofs::FaultPlaces::FirstPlaces::none_first, crate::proofs::FaultPlaces::FirstPlaces::some_first))]
#[cycle(items_place)]
fn item_place(rule: Rule, bindings: &Bindings<'_, '_>, item: &Item<'_>) -> Option<usize>
    ensures { result ≡ first (rules.item_places (bound bindings.now) rule (item_view item.now)) }
{
    match item {
        Item::Define { body, .. } | Item::Start { body, .. } => pattern_place(rule, bindings, body),
        Item::Div(items) => items_place(rule, bindings, items),
        Item::Include(include) => {
            match rule.inherit(bindings, include.inherit) {
                None => items_place(rule, bindings, &include.items),
                wrong => wrong,
            }
        }
    }
}

/// The first place in the patterns of a module that breaks the rule.
pub(crate) fn module_place(
    rule: Rule,
    bindings: &Bindings<'_, '_>,
    module: &Module<'_>,
) -> Option<usize>
    ensures { result ≡ first (rules.items_places (bound bindings.now) rule
        (items_view «module».now.items.items)) }
{
    items_place(rule, bindings, &module.items)
}
