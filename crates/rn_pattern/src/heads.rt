// What the order compares of a pattern before its members, in turn.
ghost use Rattle.std.specs.Prelude.{◌≡◌, ◌∷◌, [], option_copied};
ghost use Rattle.rn_pattern.specs.Order.{names_cmp};
ghost use Rattle.rn_pattern.specs.inside.Shown.{class_view, heads_cmp, part_texts};

use crate::tree::NameClass;
use std::cmp::Ordering;

/// The parts of a pattern but its members: the place of its kind in the order, a name class, up to three texts and a
/// datatype's parameters. What a kind lacks is empty.
#[derive(Clone, Copy)]
pub struct Heads<'a> {
    /// The place of the kind in the order, from 0 for `notAllowed` to 12 for a choice.
    pub kind: u8,
    /// The names of an attribute or an element.
    pub class: Option<&'a NameClass>,
    /// The name of a reference, or the library of a datatype.
    pub name_or_library: &'a str,
    /// The type's name in its library.
    pub type_name: &'a str,
    /// The text of a value.
    pub text: &'a str,
    /// The parameters of a datatype, a name and a text each, in their order.
    pub parameters: &'a [(String, String)],
}

/// The heads of a kind that has none but its place in the order.
pub fn bare_heads<'a>(kind: u8) -> Heads<'a>
    ensures kind { result.kind ≡ kind }
    ensures texts { part_texts result ≡ [] ∷ [] ∷ [] ∷ [] }
    ensures parameters { result.parameters.now ≡ [] }
    ensures class { result.class ≡ None }
{
    Heads {
        kind,
        class: None,
        name_or_library: "",
        type_name: "",
        text: "",
        parameters: &[],
    }
}

/// The order of two name classes, where none stands before one.
fn compare_classes(x: Option<&NameClass>, y: Option<&NameClass>) -> Ordering
    ensures { result ≡ names_cmp (class_view (option_copied x.entry))
        (class_view (option_copied y.entry)) }
{
    match (x, y) {
        (Some(c), Some(d)) => c.cmp(d),
        _ => x.is_some().cmp(&y.is_some()),
    }
}

/// The order of patterns by their heads. Most patterns that are compared differ in their kind, name class or first
/// text.
#[inline(always)]
pub fn compare_heads(x: Heads, y: Heads) -> Ordering
    ensures { result ≡ heads_cmp x.entry y.entry }
{
    match x.kind.cmp(&y.kind).then(compare_classes(x.class, y.class)) {
        Ordering::Equal => {}
        order => return order,
    }
    match x.name_or_library.cmp(y.name_or_library) {
        Ordering::Equal => {}
        order => return order,
    }
    x.type_name
        .cmp(y.type_name)
        .then(x.text.cmp(y.text))
        .then(x.parameters.cmp(y.parameters))
}
