// The rules on prefixes, datatypes and excepts.
ghost use Rattle.std.specs.Prelude.{◌≡◌, [], not, true, false};
ghost use Rattle.rn_syntax.specs.BindingDeclarations.{bound};
ghost use Rattle.rn_syntax.specs.Places as places;
ghost use Rattle.rn_syntax.specs.Places.{first};
ghost use Rattle.rn_syntax.specs.inside.Rules as rules;
ghost use Rattle.rn_syntax.specs.View.{class_view, classes_view, any_view, datatype_view, params_view, pattern_view, patterns_view, prefix_view};

use crate::bindings::Bindings;
use crate::tree::{AnyName, Datatype, Nc, Operator, Param, Pat, Prefix};

/// A rule on what stands in patterns, or all of them at once.
#[derive(Clone, Copy)]
pub(crate) enum Rule {
    /// Each prefix is bound.
    Prefixes,
    /// The types of the built-in library are `string` and `token`, without parameters.
    Builtins,
    /// No value is of a type of XML Schema that looks at namespace bindings.
    ContextValues,
    /// An except of data holds `notAllowed`, values, data and choices of these (section 7.1.4).
    Excepts,
    All,
}

/// The place of a namespace prefix that is not bound.
fn unbound_namespace(bindings: &Bindings<'_, '_>, prefix: Prefix<'_>) -> Option<usize>
    ensures { result ≡ first (places.place_if
        (not (places.is_bound (bound bindings.now) prefix.entry.name.now)) prefix.entry.at) }
{
    if bindings.is_bound(prefix.name) {
        None
    } else {
        Some(prefix.at)
    }
}

/// The place of a datatype whose prefix is not bound.
fn unbound_library(bindings: &Bindings<'_, '_>, datatype: Datatype<'_>) -> Option<usize>
    ensures { result ≡ first (places.unbound_type (bound bindings.now) true
        (datatype_view datatype.entry) []) }
{
    match datatype {
        Datatype::Named(prefix, _) if !bindings.has_library(prefix.name) => Some(prefix.at),
        _ => None,
    }
}

/// The place of an unbound prefix before `:*`.
fn any_name_place(bindings: &Bindings<'_, '_>, any: AnyName<'_>) -> Option<usize>
    ensures { result ≡ first (places.any_places (bound bindings.now) (any_view any.entry)) }
{
    match any {
        AnyName::Any => None,
        AnyName::AnyOf(prefix) => unbound_namespace(bindings, prefix),
    }
}

/// The first unbound prefix of a name class.
#[tactic(auto, using(crate::proofs::FaultPlaces::FirstPlaces::none_first, crate::proofs::FaultPlaces::FirstPlaces::some_first))]
#[cycle(class_place)]
fn class_place(bindings: &Bindings<'_, '_>, class: &Nc<'_>) -> Option<usize>
    ensures { result ≡ first (places.class_places (bound bindings.now) (class_view class.now)) }
{
    match class {
        Nc::Local(_) => None,
        Nc::Prefixed(name) => unbound_namespace(bindings, name.prefix),
        Nc::All(any) => any_name_place(bindings, **any),
        Nc::AllBut(any, excepted) => match any_name_place(bindings, **any) {
            None => class_place(bindings, excepted),
            unbound => unbound,
        },
        Nc::Choice(members) => classes_place(bindings, members),
    }
}

/// The first unbound prefix of several name classes.
#[tactic(auto, using(crate::proofs::FaultPlaces::FirstPlaces::none_first, crate::proofs::FaultPlaces::FirstPlaces::some_first))]
#[cycle(class_place)]
fn classes_place(bindings: &Bindings<'_, '_>, classes: &[Nc<'_>]) -> Option<usize>
    ensures { result ≡ first (places.classes_places (bound bindings.now)
        (classes_view classes.now)) }
{
    'classes: for class in classes {
        if let Some(unbound) = class_place(bindings, class) {
            return Some(unbound);
        }
    }
    None
}

/// The place of a datatype that the built-in library lacks, or that has a parameter there.
fn wrong_builtin(
    bindings: &Bindings<'_, '_>,
    datatype: Datatype<'_>,
    params: &[Param<'_>],
) -> Option<usize>
    ensures { result ≡ first (places.wrong_builtin (bound bindings.now) true
        (datatype_view datatype.entry) (params_view params.now)) }
{
    let (is_wrong, at) = match datatype {
        Datatype::String(at) | Datatype::Token(at) => (!params.is_empty(), at),
        Datatype::Named(prefix, name) => {
            let is_builtin = name == "string" || name == "token";
            let is_wrong = bindings.is_library(prefix.name, "")
                && (!params.is_empty() || !is_builtin);
            (is_wrong, prefix.at)
        }
    };
    if is_wrong { Some(at) } else { None }
}

/// The place of a type of XML Schema that looks at namespace bindings.
fn context_type(bindings: &Bindings<'_, '_>, datatype: Datatype<'_>) -> Option<usize>
    ensures { result ≡ first (places.context_value (bound bindings.now) true
        (datatype_view datatype.entry) []) }
{
    let Datatype::Named(prefix, name) = datatype else {
        return None;
    };
    let is_wrong = bindings.is_xml_schema(prefix.name) && (name == "QName" || name == "NOTATION");
    if is_wrong { Some(prefix.at) } else { None }
}

/// Whether an except of data may hold the pattern.
#[cycle(is_allowed)]
fn is_allowed(pattern: &Pat<'_>) -> bool
    ensures { result ≡ places.is_allowed (pattern_view pattern.now) }
{
    match pattern {
        Pat::NotAllowed | Pat::Value(_) | Pat::Datum(_) | Pat::DatumBut(_, _, _) => true,
        Pat::Chain(Operator::Bar, members) => are_allowed(members),
        _ => false,
    }
}

/// Whether an except of data may hold each of the patterns.
#[cycle(is_allowed)]
fn are_allowed(patterns: &[Pat<'_>]) -> bool
    ensures { result ≡ places.are_allowed (patterns_view patterns.now) }
{
    'patterns: for pattern in patterns {
        if !is_allowed(pattern) {
            return false;
        }
    }
    true
}

impl Rule {
    /// The first place in a name class that breaks the rule.
    #[tactic(auto, unfolding(crate::specs::inside::Rules::classes))]
    pub(crate) fn name_class(self, bindings: &Bindings<'_, '_>, class: &Nc<'_>) -> Option<usize>
        ensures { result ≡ first (rules.classes (bound bindings.now) self (class_view class.now)) }
    {
        match self {
            Rule::Prefixes | Rule::All => class_place(bindings, class),
            Rule::Builtins | Rule::ContextValues | Rule::Excepts => None,
        }
    }

    /// The first place in the datatype of a value that breaks the rule.
    #[tactic(auto, using(crate::proofs::FaultPlaces::FirstPlaces::first_append), unfolding(crate::specs::inside::Rules::datatypes))]
    pub(crate) fn value(self, bindings: &Bindings<'_, '_>, datatype: Datatype<'_>) -> Option<usize>
        ensures { result ≡ first (rules.datatypes (bound bindings.now) self true
            (datatype_view datatype.entry) []) }
    {
        match self {
            Rule::Prefixes => unbound_library(bindings, datatype),
            Rule::Builtins => wrong_builtin(bindings, datatype, &[]),
            Rule::ContextValues => context_type(bindings, datatype),
            Rule::Excepts => None,
            Rule::All => unbound_library(bindings, datatype)
                .or(wrong_builtin(bindings, datatype, &[]))
                .or(context_type(bindings, datatype)),
        }
    }

    /// The first place in the datatype of data that breaks the rule.
    #[tactic(auto, using(crate::proofs::FaultPlaces::FirstPlaces::first_append, crate::proofs::FaultPlaces::FirstPlaces::first_behind), unfolding(crate::specs::inside::Rules::datatypes))]
    pub(crate) fn data(
        self,
        bindings: &Bindings<'_, '_>,
        datatype: Datatype<'_>,
        params: &[Param<'_>],
    ) -> Option<usize>
        ensures { result ≡ first (rules.datatypes (bound bindings.now) self false
            (datatype_view datatype.entry) (params_view params.now)) }
    {
        match self {
            Rule::Prefixes => unbound_library(bindings, datatype),
            Rule::Builtins => wrong_builtin(bindings, datatype, params),
            Rule::ContextValues | Rule::Excepts => None,
            Rule::All => {
                unbound_library(bindings, datatype).or(wrong_builtin(bindings, datatype, params))
            }
        }
    }

    /// The first place of an except, behind the `-` at this place, that breaks the rule.
    #[tactic(auto, unfolding(crate::specs::inside::Rules::excepts))]
    pub(crate) fn except(self, at: usize, excepted: &Pat<'_>) -> Option<usize>
        ensures { result ≡ first (rules.excepts self at (pattern_view excepted.now)) }
    {
        match self {
            Rule::Excepts | Rule::All if !is_allowed(excepted) => Some(at),
            _ => None,
        }
    }

    /// The place of the prefix behind `inherit =`, if it breaks the rule.
    #[tactic(auto, unfolding(crate::specs::inside::Rules::inherits))]
    pub(crate) fn inherit(
        self,
        bindings: &Bindings<'_, '_>,
        prefix: Option<Prefix<'_>>,
    ) -> Option<usize>
        ensures { result ≡ first (rules.inherits (bound bindings.now) self
            (prefix_view prefix.entry)) }
    {
        match (self, prefix) {
            (Rule::Prefixes | Rule::All, Some(prefix)) => unbound_namespace(bindings, prefix),
            _ => None,
        }
    }
}
