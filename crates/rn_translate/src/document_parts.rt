// The parts of a document that a schema is made of: its elements of RELAX NG, attributes and texts.
ghost use Rattle.std.specs.Prelude.{◌≡◌, ◌+◌, ◌<◌, ◌≤◌, ◌^◌, ◌||◌, ◌&&◌, [], ℕ, None, IfNone, IsSome, bytes_eq, if◌then◌else◌, nat_lt, option_map, slice_get, string_bytes, vec_len};
ghost use Rattle.rn_text.specs.Texts.{is_white};
ghost use Rattle.rn_xml.specs.Infoset.{Nodes};
ghost use Rattle.rn_xml.specs.DocumentTrees.{AreChildren, name_of, uri_at_index};
ghost use Rattle.rn_translate.specs.SchemaElements.{count_of, has_except, is_except_kind, is_foreign, kind_of, rng_uri, text_of, trimmed, value_of};
ghost use Rattle.rn_translate.specs.inside.ElementsMeant.{attributes_at};
ghost use Rattle.rn_translate.specs.inside.Walks.{AreNested, IsContent, IsOutside, content_at};

use crate::kinds::{Kind, Role};
use rn_xml::{XmlAttribute, XmlDocument, XmlElement, XmlText};

/// The namespace of RELAX NG.
const RNG_URI: &str = "http://relaxng.org/ns/structure/1.0";

/// The name of the namespace of this index; empty where there is none.
pub(crate) fn uri_at<'d>(document: &'d XmlDocument<'_>, index: usize) -> &'d str
    ensures { result.now ≡ uri_at_index document.now index }
{
    match document.uris.get(index) {
        Some(uri) => uri.as_str(),
        None => "",
    }
}

/// What an element is by itself; `None` for one of the namespace of RELAX NG that has no name of RELAX NG.
pub(crate) fn kind_of(document: &XmlDocument<'_>, element: &XmlElement<'_>) -> Option<Kind>
    ensures { result ≡ kind_of (name_of document.now element.now.name) }
{
    if is_rng(document, element.name.uri) {
        return Kind::of_name(element.name.local);
    }
    Some(Kind::Foreign)
}

/// Whether the namespace of this index is that of RELAX NG.
pub(crate) fn is_rng(document: &XmlDocument<'_>, index: usize) -> bool
    ensures { result ≡ bytes_eq (uri_at_index document.now index) rng_uri }
{
    uri_at(document, index) == RNG_URI
}

/// The children of an element that are elements of the namespace of RELAX NG.
#[derive(Clone, Copy, Debug)]
pub(crate) struct Children {
    /// How many there are.
    pub count: usize,
    /// Whether one of them is an except.
    pub has_except: bool,
    /// Whether the first of them may be a name class.
    pub has_class: bool,
}

impl Children {
    /// With one more behind them.
    fn and(self, kind: Option<Kind>) -> Children
        ensures count { self.count + 1 < 2 ^ 64
            → result.count ≡ (if is_foreign kind then self.count else self.count + 1) }
        ensures except { result.has_except ≡ (self.has_except || is_except_kind kind) }
    {
        if matches!(kind, Some(Kind::Foreign)) {
            return self;
        }
        Children {
            count: self.count.saturating_add(1),
            has_except: self.has_except || matches!(kind, Some(Kind::Except)),
            has_class: if self.count == 0 {
                kind.is_some_and(|it| Role::NameClass.admits(it))
            } else {
                self.has_class
            },
        }
    }
}

/// The index of the first element that is in neither this one nor before it.
pub(crate) fn behind(index: usize, element: &XmlElement<'_>) -> usize
    requires { index + 1 < 2 ^ 64 }
    ensures behind { index < result }
    ensures end { index < element.now.end → result ≡ element.now.end }
{
    element.end.max(index + 1)
}

/// The element of this index, if it comes before the element `end`.
pub(crate) fn child_at<'d, 'a>(
    document: &'d XmlDocument<'a>,
    end: usize,
    index: usize,
) -> Option<&'d XmlElement<'a>>
    ensures within { IsSome result → index < vec_len document.now.elements }
    ensures child { option_map (λ child. child.now) result ≡ (if nat_lt index end
        then slice_get document.now.elements.items index else None) }
{
    if index < end {
        return element_at(document, index);
    }
    None
}

/// The element of this index, if there is one.
pub(crate) fn element_at<'d, 'a>(
    document: &'d XmlDocument<'a>,
    index: usize,
) -> Option<&'d XmlElement<'a>>
    ensures within { IsSome result → index < vec_len document.now.elements }
    ensures element { option_map (λ element. element.now) result
        ≡ slice_get document.now.elements.items index }
{
    document.elements.get(index)
}

/// The text of this index, if there is one.
pub(crate) fn text_at<'d>(document: &'d XmlDocument<'_>, index: usize) -> Option<&'d XmlText>
    ensures within { IsSome result → index < vec_len document.now.texts }
    ensures text { option_map (λ text. text.now) result
        ≡ slice_get document.now.texts.items index }
{
    document.texts.get(index)
}

/// The text that the element of this index begins with, and its place, where the first text that isn't passed yet is
/// given; where it has none, nothing at the given place.
pub(crate) fn content_of<'d>(
    document: &'d XmlDocument<'_>,
    text: usize,
    index: usize,
    at: usize,
) -> (usize, &'d str)
    ensures at { result.1.now ≡ content_at document.now text index }
    ensures text { (k : Nodes) (after : ℕ) → AreNested document.now
        → IsContent document.now index text k after → result.1.now ≡ text_of k }
{
    match text_at(document, text) {
        Some(first) if first.parent == index => (first.at, first.content.as_str()),
        _ => (at, ""),
    }
}

/// The first element in the element of this index.
pub(crate) fn element_inside<'d, 'a>(
    document: &'d XmlDocument<'a>,
    index: usize,
    element: &XmlElement<'a>,
) -> Option<&'d XmlElement<'a>>
    requires { index + 1 < 2 ^ 64 }
    ensures { (t after : ℕ) (k : Nodes)
        → AreChildren document.now index (index + 1) t k element.now.«end» after
        → IfNone result (element.now.«end» ≤ index + 1) }
{
    child_at(document, element.end, index + 1)
}

/// The index of the first text, from this one on, that is in none of the elements from this index up to `end`.
pub(crate) fn behind_texts(
    document: &XmlDocument<'_>,
    text: usize,
    index: usize,
    end: usize,
) -> usize
    ensures { (k : Nodes) (after : ℕ) → AreChildren document.now index (index + 1) text k end after
        → IsOutside document.now index end after → result ≡ after }
{
    let mut next = text;
    'texts: while let Some(passed) = text_at(document, next) {
        if passed.parent < index || passed.parent >= end {
            break;
        }
        next += 1;
    }
    next
}

/// The children of the element of this index, which are before the element `end`.
pub(crate) fn children_of(document: &XmlDocument<'_>, index: usize, end: usize) -> Children
    ensures count { (t after : ℕ) (k : Nodes) → AreNested document.now
        → AreChildren document.now index (index + 1) t k end after → result.count ≡ count_of k }
    ensures except { (t after : ℕ) (k : Nodes) → AreNested document.now
        → AreChildren document.now index (index + 1) t k end after
        → result.has_except ≡ has_except k }
{
    let mut children = Children {
        count: 0,
        has_except: false,
        has_class: false,
    };
    let mut next = index.saturating_add(1);
    'children: while let Some(child) = child_at(document, end, next) {
        children = children.and(kind_of(document, child));
        next = behind(next, child);
    }
    children
}

/// The attribute of an element that has this name and no namespace.
pub(crate) fn attribute<'d, 'a>(
    document: &'d XmlDocument<'a>,
    element: &XmlElement<'a>,
    local: &str,
) -> Option<&'d XmlAttribute<'a>>
    ensures { option_map (λ found. string_bytes found.now.value) result
        ≡ value_of local.now (attributes_at document.now element.now) }
{
    document
        .attributes_of(element)
        .iter()
        .find(|it| is_named(document, it, local))
}

/// Whether an attribute has this name and no namespace.
#[tactic(auto, using(crate::proofs::AttributeRows::empty_bytes))]
fn is_named(document: &XmlDocument<'_>, attribute: &XmlAttribute<'_>, local: &str) -> bool
    ensures { result ≡ (bytes_eq attribute.now.name.local.now local.now
        && bytes_eq (uri_at_index document.now attribute.now.name.uri) []) }
{
    attribute.name.local == local && uri_at(document, attribute.name.uri).is_empty()
}

/// A text without the white space at its ends (4.2).
pub(crate) fn trimmed(text: &str) -> &str
    ensures { result.now ≡ trimmed text.now }
{
    text.trim_start_matches(is_white_space)
        .trim_end_matches(is_white_space)
}

/// Whether a character is white space of XML (XML 1.0, production 3).
pub(crate) fn is_white_space(c: char) -> bool
    ensures { result ≡ is_white c }
{
    matches!(c, ' ' | '\t' | '\n' | '\r')
}
