// The canonical form of a joined body, each member brought into its form once (RELAX NG 2001, 4.17, 4.20 and 4.21).
ghost use Rattle.std.specs.Prelude.{◌≡◌, ◌<◌, IfOk, length, map, slice_index_or, take};
ghost use Rattle.rn_pattern.specs.Canonical.{choice_step, interleave_step};
ghost use Rattle.rn_pattern.specs.Store.{KeepsIds, StandsFor, KnowsAll};
ghost use Rattle.rn_pattern.specs.Tree.{Tree};
ghost use Rattle.rn_pattern.specs.View.{pattern_view, shared_view, shared_trees};
ghost use Rattle.rn_simplify.specs.inside.FormKinds.{settled_form, settled_forms};
ghost use Rattle.rn_simplify.specs.inside.Repeats.{AreFirstsAmong, AreFirstsOf};

use crate::repeated_members::{distinct_members, first_of};
use crate::settled_definitions::SettledDefinitions;
use crate::stored_forms::{ListKind, canonical_form, list_form};
use rn_pattern::{Pattern, Patterns};
use std::alloc::{AllocError, Global};
use std::rc::Rc;

/// The id of the canonical form of a body. `firsts` has, for each member of a joined list, the first that is the same.
pub(crate) fn canonical_body<P: Patterns>(
    alloc: Global,
    store: &mut P,
    settled: &SettledDefinitions<'_>,
    body: &Pattern,
    firsts: &[u32],
) -> Result<P::Id, AllocError>
    requires { AreFirstsOf firsts.now body.now }
    ensures made { IfOk result (StandsFor (P.knows store.new) (P.tree_of store.new)
        (settled_form settled.now (pattern_view body.now))) }
    ensures kept { KeepsIds P.knows P.tree_of store.old store.new }
{
    if firsts.is_empty() {
        return canonical_form(alloc, store, settled, body);
    }
    match body {
        Pattern::Choice(members) => choice_form(alloc, store, settled, members, firsts),
        Pattern::Interleave(members) => interleave_form(alloc, store, settled, members, firsts),
        _ => canonical_form(alloc, store, settled, body),
    }
}

/// The id of the canonical form of a choice of the members. A member that repeats an earlier one falls away.
fn choice_form<P: Patterns>(
    alloc: Global,
    store: &mut P,
    settled: &SettledDefinitions<'_>,
    members: &[Rc<Pattern>],
    firsts: &[u32],
) -> Result<P::Id, AllocError>
    requires { AreFirstsAmong firsts.now members.now }
    ensures made { IfOk result (StandsFor (P.knows store.new) (P.tree_of store.new)
        (choice_step (settled_forms settled.now
        (shared_trees members.now)))) }
    ensures kept { KeepsIds P.knows P.tree_of store.old store.new }
{
    let members = distinct_members(alloc, members, firsts)?;
    list_form(alloc, store, settled, ListKind::Choice, &members)
}

/// The id of the canonical form of an interleave of the members.
fn interleave_form<P: Patterns>(
    alloc: Global,
    store: &mut P,
    settled: &SettledDefinitions<'_>,
    members: &[Rc<Pattern>],
    firsts: &[u32],
) -> Result<P::Id, AllocError>
    requires { AreFirstsAmong firsts.now members.now }
    ensures made { IfOk result (StandsFor (P.knows store.new) (P.tree_of store.new)
        (interleave_step (settled_forms settled.now
        (shared_trees members.now)))) }
    ensures kept { KeepsIds P.knows P.tree_of store.old store.new }
{
    let ids = member_ids(alloc, store, settled, members, firsts)?;
    store.ileave(&ids)
}

/// The ids of the canonical forms of the members, in their order.
fn member_ids<P: Patterns>(
    alloc: Global,
    store: &mut P,
    settled: &SettledDefinitions<'_>,
    members: &[Rc<Pattern>],
    firsts: &[u32],
) -> Result<Vec<P::Id>, AllocError>
    requires { AreFirstsAmong firsts.now members.now }
    ensures known { IfOk result (λ ids. KnowsAll (P.knows store.new) ids.items) }
    ensures made { IfOk result (λ ids. map (P.tree_of store.new) ids.items
        ≡ map (settled_form settled.now) (map shared_view members.now)) }
    ensures kept { KeepsIds P.knows P.tree_of store.old store.new }
{
    let mut ids = Vec::with_capacity(alloc, members.len())?;
    for index in 0..members.len() {
        let id = id_at(alloc, store, settled, members, firsts, &ids, index)?;
        ids.push(id)?;
    }
    Ok(ids)
}

/// The id of the canonical form of the member at the index, by the ids of those before it: a member that repeats an
/// earlier one takes its id.
fn id_at<P: Patterns>(
    alloc: Global,
    store: &mut P,
    settled: &SettledDefinitions<'_>,
    members: &[Rc<Pattern>],
    firsts: &[u32],
    ids: &[P::Id],
    index: usize,
) -> Result<P::Id, AllocError>
    requires firsts { AreFirstsAmong firsts.now members.now }
    requires within { index < length members.now }
    requires known { KnowsAll (P.knows store.old) ids.now }
    requires before { map (P.tree_of store.old) ids.now ≡ map (settled_form settled.now)
        (map shared_view (take index members.now)) }
    ensures made { IfOk result (λ id. (p : Tree) → StandsFor (P.knows store.new)
        (P.tree_of store.new) (settled_form settled.now
        (slice_index_or (map shared_view members.now) index p)) id) }
    ensures kept { KeepsIds P.knows P.tree_of store.old store.new }
{
    let first = first_of(firsts, index);
    if first < index {
        Ok(ids[first])
    } else {
        canonical_form(alloc, store, settled, &members[index])
    }
}
