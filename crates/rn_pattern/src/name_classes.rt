// The restrictions on name classes (RELAX NG 2001, 4.16).
ghost use Rattle.std.specs.Prelude.{◌≡◌, ◌≢◌, ◌↔◌, true, []};
ghost use Rattle.rn_pattern.specs.NameRules.{HasNoAny, HaveNoAny, HasNamesAlone, HaveNamesAlone, HasNameExcepts, HaveNameExcepts, HasNoDeclaration, HaveNoDeclaration, IsNoDeclaration, KeepsNameRules, KeepNameRules, declarations};
ghost use Rattle.rn_pattern.specs.View.{name_class_view, pattern_view, shared_trees};
ghost use Rattle.rn_pattern.specs.inside.PartViews.{name_classes_view};

use crate::tree::{NameClass, Pattern};
use std::rc::Rc;

/// The namespace of declarations as RELAX NG 2001, 4.16 spells it, without the `/` at the end.
pub const XMLNS_URI: &str = "http://www.w3.org/2000/xmlns";

/// Whether the class holds no anyName, at any depth.
#[cycle(no_any)]
fn has_no_any(class: &NameClass) -> bool
    ensures { (result ≡ true) ↔ HasNoAny (name_class_view class.now) }
{
    match class {
        NameClass::AnyName(_) => false,
        NameClass::NsName(_, None) | NameClass::Name(_, _) => true,
        NameClass::NsName(_, Some(except)) => has_no_any(except),
        NameClass::Choice(members) => have_no_any(members),
    }
}

#[cycle(no_any)]
fn have_no_any(classes: &[NameClass]) -> bool
    ensures { (result ≡ true) ↔ HaveNoAny (name_classes_view classes.now) }
{
    for class in classes {
        if !has_no_any(class) {
            return false;
        }
    }
    true
}

/// Whether the class holds neither an anyName nor an nsName, at any depth.
#[cycle(names_alone)]
fn has_names_alone(class: &NameClass) -> bool
    ensures { (result ≡ true) ↔ HasNamesAlone (name_class_view class.now) }
{
    match class {
        NameClass::AnyName(_) | NameClass::NsName(_, _) => false,
        NameClass::Name(_, _) => true,
        NameClass::Choice(members) => have_names_alone(members),
    }
}

#[cycle(names_alone)]
fn have_names_alone(classes: &[NameClass]) -> bool
    ensures { (result ≡ true) ↔ HaveNamesAlone (name_classes_view classes.now) }
{
    for class in classes {
        if !has_names_alone(class) {
            return false;
        }
    }
    true
}

/// Whether no except of an anyName holds an anyName, and none of an nsName an anyName or an nsName.
#[cycle(name_excepts)]
fn has_name_excepts(class: &NameClass) -> bool
    ensures { (result ≡ true) ↔ HasNameExcepts (name_class_view class.now) }
{
    match class {
        NameClass::AnyName(None) | NameClass::NsName(_, None) | NameClass::Name(_, _) => true,
        NameClass::AnyName(Some(except)) => has_no_any(except) && has_name_excepts(except),
        NameClass::NsName(_, Some(except)) => has_names_alone(except) && has_name_excepts(except),
        NameClass::Choice(members) => have_name_excepts(members),
    }
}

#[cycle(name_excepts)]
fn have_name_excepts(classes: &[NameClass]) -> bool
    ensures { (result ≡ true) ↔ HaveNameExcepts (name_classes_view classes.now) }
{
    for class in classes {
        if !has_name_excepts(class) {
            return false;
        }
    }
    true
}

/// Whether it is not the namespace of declarations.
fn is_other_namespace(uri: &str) -> bool
    ensures { (result ≡ true) ↔ (uri.now ≢ declarations) }
{
    uri != XMLNS_URI
}

/// Whether the name is no `xmlns` without a namespace, and not of the namespace of declarations.
fn is_no_declaration(uri: &str, local: &str) -> bool
    ensures { (result ≡ true) ↔ IsNoDeclaration uri.now local.now }
{
    !(uri == "" && local == "xmlns") && is_other_namespace(uri)
}

/// Whether the class holds no name of a declaration, and nothing of their namespace, at any depth.
#[cycle(no_declaration)]
fn has_no_declaration(class: &NameClass) -> bool
    ensures { (result ≡ true) ↔ HasNoDeclaration (name_class_view class.now) }
{
    match class {
        NameClass::AnyName(None) => true,
        NameClass::AnyName(Some(except)) => has_no_declaration(except),
        NameClass::NsName(uri, None) => is_other_namespace(uri.as_str()),
        NameClass::NsName(uri, Some(except)) => {
            is_other_namespace(uri.as_str()) && has_no_declaration(except)
        }
        NameClass::Name(uri, local) => is_no_declaration(uri.as_str(), local.as_str()),
        NameClass::Choice(members) => have_no_declaration(members),
    }
}

#[cycle(no_declaration)]
fn have_no_declaration(classes: &[NameClass]) -> bool
    ensures { (result ≡ true) ↔ HaveNoDeclaration (name_classes_view classes.now) }
{
    for class in classes {
        if !has_no_declaration(class) {
            return false;
        }
    }
    true
}

/// Whether each name class in the pattern keeps the restrictions.
#[cycle(name_rules)]
pub fn keeps_name_rules(pattern: &Pattern) -> bool
    ensures { (result ≡ true) ↔ KeepsNameRules (pattern_view pattern.now) }
{
    match pattern {
        Pattern::NotAllowed
        | Pattern::Empty
        | Pattern::Text
        | Pattern::Ref(_)
        | Pattern::Value(_)
        | Pattern::Datum(_, None) => true,
        Pattern::Datum(_, Some(except)) => keeps_name_rules(except),
        Pattern::List(content) => keeps_name_rules(content),
        Pattern::Attribute(named) => {
            has_name_excepts(&named.class)
                && has_no_declaration(&named.class)
                && keeps_name_rules(&named.content)
        }
        Pattern::Element(named) => {
            has_name_excepts(&named.class) && keeps_name_rules(&named.content)
        }
        Pattern::OneOrMore(content) => keeps_name_rules(content),
        Pattern::Group(members) => keep_name_rules(members),
        Pattern::Interleave(members) => keep_name_rules(members),
        Pattern::Choice(members) => keep_name_rules(members),
    }
}

#[cycle(name_rules)]
fn keep_name_rules(members: &[Rc<Pattern>]) -> bool
    ensures { (result ≡ true) ↔ KeepNameRules (shared_trees members.now) }
{
    for member in members {
        if !keeps_name_rules(member) {
            return false;
        }
    }
    true
}
