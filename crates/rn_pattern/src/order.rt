// The order of name classes and of patterns: by kind, then by the parts from left to right.
ghost use Rattle.std.specs.Prelude.{◌≡◌};
ghost use Rattle.rn_pattern.specs.Order.{name_cmp, name_rank, names_cmp, rank, tree_cmp, trees_cmp};
ghost use Rattle.rn_pattern.specs.View.{excepted_view, name_class_view, pattern_view, shared_trees};
ghost use Rattle.rn_pattern.specs.inside.PartViews.{except_view, name_classes_view};
ghost use Rattle.rn_pattern.specs.inside.Shown.{names_in, parameters_in, part_class, part_parameters, part_texts, texts_in};

use crate::heads::{Heads, bare_heads, compare_heads};
use crate::tree::{NameClass, Pattern};
use std::cmp::Ordering;
use std::rc::Rc;

impl NameClass {
    /// The place of the kind in the order, from 0 for anyName to 3 for a choice.
    fn rank(&self) -> u8
        ensures { result ≡ name_rank (name_class_view self.now) }
    {
        match self {
            NameClass::AnyName(_) => 0,
            NameClass::NsName(_, _) => 1,
            NameClass::Name(_, _) => 2,
            NameClass::Choice(_) => 3,
        }
    }

    /// The order of name classes: anyName, nsName, name, choice. Texts are compared by bytes, the namespace before the
    /// local name; no except stands before an except, and a list before each longer one that it begins.
    #[cycle(compare_names)]
    pub fn cmp(&self, other: &NameClass) -> Ordering
        ensures { result ≡ name_cmp (name_class_view self.now) (name_class_view other.now) }
    {
        match (self, other) {
            (NameClass::AnyName(c), NameClass::AnyName(d)) => compare_excepts(c, d),
            (NameClass::NsName(u, c), NameClass::NsName(v, d)) => match u.cmp(v) {
                Ordering::Equal => compare_excepts(c, d),
                order => order,
            },
            (NameClass::Name(u, l), NameClass::Name(v, m)) => match u.cmp(v) {
                Ordering::Equal => l.as_str().cmp(m.as_str()),
                order => order,
            },
            (NameClass::Choice(cs), NameClass::Choice(ds)) => compare_name_classes(cs, ds),
            _ => self.rank().cmp(&other.rank()),
        }
    }
}

/// The order of two excepts of name classes: no except stands before one.
#[cycle(compare_names)]
fn compare_excepts(c: &Option<Box<NameClass>>, d: &Option<Box<NameClass>>) -> Ordering
    ensures { result ≡ names_cmp (except_view c.now) (except_view d.now) }
{
    match (c, d) {
        (Some(c), Some(d)) => c.cmp(d),
        _ => c.is_some().cmp(&d.is_some()),
    }
}

/// The order of two lists of name classes, by the first members that differ; a list stands before each longer one that
/// it begins.
#[cycle(compare_names)]
fn compare_name_classes(cs: &[NameClass], ds: &[NameClass]) -> Ordering
    ensures { result ≡ names_cmp (name_classes_view cs.now) (name_classes_view ds.now) }
{
    for k in 0..cs.len().min(ds.len()) {
        match cs[k].cmp(&ds[k]) {
            Ordering::Equal => {}
            order => return order,
        }
    }
    cs.len().cmp(&ds.len())
}

impl Pattern {
    /// The place of the kind in the order, from 0 for notAllowed to 12 for a choice.
    fn rank(&self) -> u8
        ensures { result ≡ rank (pattern_view self.now) }
    {
        match self {
            Pattern::NotAllowed => 0,
            Pattern::Empty => 1,
            Pattern::Text => 2,
            Pattern::Ref(_) => 3,
            Pattern::Value(_) => 4,
            Pattern::Datum(_, _) => 5,
            Pattern::List(_) => 6,
            Pattern::Attribute(_) => 7,
            Pattern::Element(_) => 8,
            Pattern::OneOrMore(_) => 9,
            Pattern::Group(_) => 10,
            Pattern::Interleave(_) => 11,
            Pattern::Choice(_) => 12,
        }
    }

    /// The heads of the pattern: all that the order compares before the members.
    fn heads(&self) -> Heads<'_>
        ensures kind { result.kind ≡ rank (pattern_view self.now) }
        ensures texts { part_texts result ≡ texts_in (pattern_view self.now) }
        ensures parameters { part_parameters result ≡ parameters_in (pattern_view self.now) }
        ensures class { part_class result ≡ names_in (pattern_view self.now) }
    {
        let bare = bare_heads(self.rank());
        match self {
            Pattern::Ref(name) => Heads {
                name_or_library: name.as_str(),
                ..bare
            },
            Pattern::Value(value) => Heads {
                name_or_library: &value.library,
                type_name: &value.type_name,
                text: &value.text,
                ..bare
            },
            Pattern::Datum(data, _) => Heads {
                name_or_library: &data.library,
                type_name: &data.type_name,
                parameters: &data.params,
                ..bare
            },
            Pattern::Attribute(named) | Pattern::Element(named) => Heads {
                class: Some(&named.class),
                ..bare
            },
            _ => bare,
        }
    }

    /// The order of patterns: notAllowed, empty, text, ref, value, data, list, attribute, element, oneOrMore, group,
    /// interleave, choice; within a kind by the fields from left to right. Texts are compared by bytes; no except
    /// stands before an except, and a list before each longer one that it begins.
    #[cycle(compare_patterns)]
    pub fn cmp(&self, other: &Pattern) -> Ordering
        ensures { result ≡ tree_cmp (pattern_view self.now) (pattern_view other.now) }
    {
        let kinds = self.rank().cmp(&other.rank());
        if kinds != Ordering::Equal {
            return kinds;
        }
        match compare_heads(self.heads(), other.heads()) {
            Ordering::Equal => {}
            order => return order,
        }
        match (self, other) {
            (Pattern::Datum(_, p), Pattern::Datum(_, q)) => compare_excepted(p, q),
            (Pattern::List(p), Pattern::List(q)) => p.cmp(q),
            (Pattern::Attribute(m), Pattern::Attribute(n)) => m.content.cmp(&n.content),
            (Pattern::Element(m), Pattern::Element(n)) => m.content.cmp(&n.content),
            (Pattern::OneOrMore(p), Pattern::OneOrMore(q)) => p.cmp(q),
            (Pattern::Group(ps), Pattern::Group(qs)) => compare_patterns(ps, qs),
            (Pattern::Interleave(ps), Pattern::Interleave(qs)) => compare_patterns(ps, qs),
            (Pattern::Choice(ps), Pattern::Choice(qs)) => compare_patterns(ps, qs),
            _ => Ordering::Equal,
        }
    }
}

/// The order of two excepts of datatypes: no except stands before one.
#[cycle(compare_patterns)]
fn compare_excepted(p: &Option<Box<Pattern>>, q: &Option<Box<Pattern>>) -> Ordering
    ensures { result ≡ trees_cmp (excepted_view p.now) (excepted_view q.now) }
{
    match (p, q) {
        (Some(p), Some(q)) => p.cmp(q),
        _ => p.is_some().cmp(&q.is_some()),
    }
}

/// The order of two lists of patterns, by the first members that differ; a list stands before each longer one that it
/// begins.
#[cycle(compare_patterns)]
fn compare_patterns(ps: &[Rc<Pattern>], qs: &[Rc<Pattern>]) -> Ordering
    ensures { result ≡ trees_cmp (shared_trees ps.now) (shared_trees qs.now) }
{
    for k in 0..ps.len().min(qs.len()) {
        match ps[k].cmp(&qs[k]) {
            Ordering::Equal => {}
            order => return order,
        }
    }
    ps.len().cmp(&qs.len())
}
