// The canonical form of a pattern, built in a store (RELAX NG 2001, 4.20 and 4.21).
ghost use Rattle.std.specs.Prelude.{◌≡◌, ◌++◌, ◌∷◌, [], IfOk, IsSome, IsTrue, OnOk, Some, map};
ghost use Rattle.std.specs.Option.{option_map};
ghost use Rattle.rn_pattern.specs.Canonical as form;
ghost use Rattle.rn_pattern.specs.Store.{KeepsIds, StandsFor, KnowsAll};
ghost use Rattle.rn_pattern.specs.Tree.{Tree};
ghost use Rattle.rn_text.specs.Texts.{Text};
ghost use Rattle.rn_pattern.specs.View.{pattern_view, shared_trees};
ghost use Rattle.rn_simplify.specs.inside.Contents.{content_of, is_leaf};
ghost use Rattle.rn_simplify.specs.inside.ListParts.{members_step, parts, parts_of};
ghost use Rattle.rn_simplify.specs.inside.FormKinds.{becomes, settled_form, settled_forms};

use crate::form_kind::FormKind;
use crate::settled_definitions::SettledDefinitions;
use rn_pattern::{Pattern, Patterns};
use std::alloc::{AllocError, Global};
use std::rc::Rc;

/// A kind of list (RELAX NG 2001, 4.12).
#[derive(Clone, Copy)]
pub(crate) enum ListKind {
    Group,
    Interleave,
    Choice,
}

impl ListKind {
    ghost use Rattle.std.specs.Prelude.{IfOk, map};
    ghost use Rattle.rn_pattern.specs.Store.{KeepsIds, KnowsAll, StandsFor};
    ghost use Rattle.rn_simplify.specs.inside.ListParts.{members_step};

    /// The id of the canonical form of a list of this kind, by the ids of the canonical forms of its parts.
    #[inline(never)]
    fn form_over<P: Patterns>(self, store: &mut P, parts: &[P::Id]) -> Result<P::Id, AllocError>
        requires { KnowsAll (P.knows store.old) parts.now }
        ensures made { IfOk result (StandsFor (P.knows store.new) (P.tree_of store.new)
            (members_step self (map (P.tree_of store.old) parts.now))) }
        ensures kept { KeepsIds P.knows P.tree_of store.old store.new }
    {
        match self {
            ListKind::Group => store.group(parts),
            ListKind::Interleave => store.ileave(parts),
            ListKind::Choice => store.choice(parts),
        }
    }
}

/// What a reference becomes: notAllowed or empty if that is the form of its definition, else itself.
fn reference_form<P: Patterns>(
    store: &mut P,
    settled: &SettledDefinitions<'_>,
    name: &str,
) -> Result<P::Id, AllocError>
    ensures made { IfOk result (StandsFor (P.knows store.new) (P.tree_of store.new)
        (becomes settled.now name.now)) }
    ensures kept { KeepsIds P.knows P.tree_of store.old store.new }
{
    match settled.kind_of(name) {
        FormKind::NotAllowed => store.not_allowed(),
        FormKind::Empty => store.empty(),
        FormKind::Other => store.reference(name),
    }
}

/// The id of the pattern's canonical form.
#[cycle(canonical_form)]
pub(crate) fn canonical_form<P: Patterns>(
    alloc: Global,
    store: &mut P,
    settled: &SettledDefinitions<'_>,
    pattern: &Pattern,
) -> Result<P::Id, AllocError>
    ensures made { IfOk result (StandsFor (P.knows store.new) (P.tree_of store.new)
        (settled_form settled.now (pattern_view pattern.now))) }
    ensures kept { KeepsIds P.knows P.tree_of store.old store.new }
{
    match pattern {
        Pattern::NotAllowed
        | Pattern::Empty
        | Pattern::Text
        | Pattern::Ref(_)
        | Pattern::Value(_) => leaf_form(store, settled, pattern),
        Pattern::Datum(data, None) => {
            store.datum(&data.library, &data.type_name, &data.params, None)
        }
        Pattern::Datum(data, Some(except)) => {
            let except = canonical_form(alloc, store, settled, except)?;
            store.datum(&data.library, &data.type_name, &data.params, Some(except))
        }
        Pattern::List(content) | Pattern::OneOrMore(content) => {
            let content = canonical_form(alloc, store, settled, content)?;
            form_over_content(store, pattern, content)
        }
        Pattern::Attribute(named) | Pattern::Element(named) => {
            let content = canonical_form(alloc, store, settled, &named.content)?;
            form_over_content(store, pattern, content)
        }
        Pattern::Group(members) => list_form(alloc, store, settled, ListKind::Group, members),
        Pattern::Interleave(members) => list_form(
            alloc,
            store,
            settled,
            ListKind::Interleave,
            members,
        ),
        Pattern::Choice(members) => list_form(alloc, store, settled, ListKind::Choice, members),
    }
}

/// The id of the canonical form of a pattern that has no other pattern in it and is no datatype.
#[inline(never)]
fn leaf_form<P: Patterns>(
    store: &mut P,
    settled: &SettledDefinitions<'_>,
    pattern: &Pattern,
) -> Result<P::Id, AllocError>
    requires { IsTrue (is_leaf (pattern_view pattern.now)) }
    ensures made { IfOk result (StandsFor (P.knows store.new) (P.tree_of store.new)
        (settled_form settled.now (pattern_view pattern.now))) }
    ensures kept { KeepsIds P.knows P.tree_of store.old store.new }
{
    match pattern {
        Pattern::NotAllowed => store.not_allowed(),
        Pattern::Empty => store.empty(),
        Pattern::Text => store.text(),
        Pattern::Ref(name) => reference_form(store, settled, name.as_str()),
        Pattern::Value(value) => store.value(&value.library, &value.type_name, &value.text),
        _ => unreachable!(),
    }
}

/// The id of the canonical form of a list of the members. All parts of it are put in order at once, however deep lists
/// of its kind are within one another.
#[cycle(canonical_form)]
pub(crate) fn list_form<P: Patterns>(
    alloc: Global,
    store: &mut P,
    settled: &SettledDefinitions<'_>,
    kind: ListKind,
    members: &[Rc<Pattern>],
) -> Result<P::Id, AllocError>
    ensures made { IfOk result (StandsFor (P.knows store.new) (P.tree_of store.new)
        (members_step kind (settled_forms settled.now
        (shared_trees members.now)))) }
    ensures kept { KeepsIds P.knows P.tree_of store.old store.new }
{
    let mut ids = Vec::with_capacity(alloc, members.len())?;
    push_parts(alloc, store, settled, kind, members, &mut ids)?;
    kind.form_over(store, &ids)
}

/// Adds the ids of the canonical forms of the parts of a list of the members.
#[cycle(canonical_form)]
fn push_parts<P: Patterns>(
    alloc: Global,
    store: &mut P,
    settled: &SettledDefinitions<'_>,
    kind: ListKind,
    members: &[Rc<Pattern>],
    ids: &mut Vec<P::Id>,
) -> Result<(), AllocError>
    requires { KnowsAll (P.knows store.old) ids.old.items }
    ensures known { OnOk result (KnowsAll (P.knows store.new) ids.new.items) }
    ensures made { OnOk result (map (P.tree_of store.new) ids.new.items
        ≡ map (P.tree_of store.old) ids.old.items ++ map (settled_form settled.now)
        (parts kind (shared_trees members.now))) }
    ensures kept { KeepsIds P.knows P.tree_of store.old store.new }
{
    for member in members {
        push_part(alloc, store, settled, kind, member, ids)?;
    }
    Ok(())
}

/// Adds the ids of the canonical forms of the parts that a member of a list is: those of a list of the same kind, of
/// any other pattern itself.
#[cycle(canonical_form)]
fn push_part<P: Patterns>(
    alloc: Global,
    store: &mut P,
    settled: &SettledDefinitions<'_>,
    kind: ListKind,
    pattern: &Pattern,
    ids: &mut Vec<P::Id>,
) -> Result<(), AllocError>
    requires { KnowsAll (P.knows store.old) ids.old.items }
    ensures known { OnOk result (KnowsAll (P.knows store.new) ids.new.items) }
    ensures made { OnOk result (map (P.tree_of store.new) ids.new.items
        ≡ map (P.tree_of store.old) ids.old.items ++ map (settled_form settled.now)
        (parts_of kind (pattern_view pattern.now))) }
    ensures kept { KeepsIds P.knows P.tree_of store.old store.new }
{
    match kind {
        ListKind::Group => match pattern {
            Pattern::Group(members) => push_parts(alloc, store, settled, kind, members, ids),
            _ => push_whole(alloc, store, settled, pattern, ids),
        },
        ListKind::Interleave => match pattern {
            Pattern::Interleave(members) => push_parts(alloc, store, settled, kind, members, ids),
            _ => push_whole(alloc, store, settled, pattern, ids),
        },
        ListKind::Choice => match pattern {
            Pattern::Choice(members) => push_parts(alloc, store, settled, kind, members, ids),
            _ => push_whole(alloc, store, settled, pattern, ids),
        },
    }
}

/// Adds the id of the canonical form of a pattern.
#[cycle(canonical_form)]
fn push_whole<P: Patterns>(
    alloc: Global,
    store: &mut P,
    settled: &SettledDefinitions<'_>,
    pattern: &Pattern,
    ids: &mut Vec<P::Id>,
) -> Result<(), AllocError>
    requires { KnowsAll (P.knows store.old) ids.old.items }
    ensures known { OnOk result (KnowsAll (P.knows store.new) ids.new.items) }
    ensures made { OnOk result (map (P.tree_of store.new) ids.new.items
        ≡ map (P.tree_of store.old) ids.old.items
        ++ settled_form settled.now (pattern_view pattern.now) ∷ []) }
    ensures kept { KeepsIds P.knows P.tree_of store.old store.new }
{
    let id = canonical_form(alloc, store, settled, pattern)?;
    ids.push(id)?;
    Ok(())
}

/// The id of the canonical form of a pattern with a content, by the id of the canonical form of its content.
#[inline(never)]
fn form_over_content<P: Patterns>(
    store: &mut P,
    pattern: &Pattern,
    content: P::Id,
) -> Result<P::Id, AllocError>
    requires known { IsTrue (P.knows store.old content) }
    requires has_content { IsSome (content_of (pattern_view pattern.now)) }
    ensures made { (settled : Text → Tree)
        → option_map (form.canonical settled) (content_of (pattern_view pattern.now))
        ≡ Some (P.tree_of store.old content)
        → IfOk result (StandsFor (P.knows store.new) (P.tree_of store.new)
        (form.canonical settled (pattern_view pattern.now))) }
    ensures kept { KeepsIds P.knows P.tree_of store.old store.new }
{
    match pattern {
        Pattern::List(_) => store.list(content),
        Pattern::Attribute(named) => store.attribute(&named.class, content),
        Pattern::Element(named) => store.element(&named.class, content),
        Pattern::OneOrMore(_) => store.one_or_more(content),
        _ => unreachable!(),
    }
}
