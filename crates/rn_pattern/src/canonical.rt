// One step of the canonical form: what a constructor makes of parts that are canonical (RELAX NG 2001, 4.20 and 4.21).
ghost use Rattle.std.specs.Prelude.{◌≡◌, IfOk, IsTrue, List, IfSome, flat_map, map};
ghost use Rattle.std.specs.Option.{option_map};
ghost use Rattle.std.specs.Rc.{rc_str_bytes};
ghost use Rattle.rn_pattern.specs.Canonical.{attribute_step, canonical_name, choice_step, group_step, has_not_allowed, interleave_step, list_step, one_or_more_step, sorted, sorted_once};
ghost use Rattle.rn_pattern.specs.inside.Lists.{listed, members_by};
ghost use Rattle.rn_pattern.specs.inside.Stored.{knows, tree_at};
ghost use Rattle.rn_pattern.specs.Order.{tree_cmp};
ghost use Rattle.rn_pattern.specs.inside.Reduced.{IsReducedIn, reduced_tree};
ghost use Rattle.rn_pattern.specs.Store.{KnowsAll, datum_by, datum_step};
ghost use Rattle.rn_pattern.specs.inside.Table.{knows_in, tree_in, trees};
ghost use Rattle.rn_pattern.specs.Tree.{Parameters, Tree};
ghost use Rattle.rn_text.specs.Texts.{Text};
ghost use Rattle.rn_pattern.specs.View.{name_class_view, parameters_view};

use crate::connector::Connector;
use crate::node::{Node, NodeId};
use crate::tables::node_table::NodeTable;
use crate::tree::NameClass;
use std::alloc::{AllocError, Global};
use std::cmp::Ordering;
use std::rc::RcStr;

/// A pattern in canonical form: one that the store has, or a node over its ids that is to be stored.
#[derive(Drop)]
pub enum Reduced {
    /// The id of a pattern that the store has.
    Stored(NodeId),
    /// A node over ids of the store.
    New(Node<NodeId>),
}

/// A datatype with its parameters in their order, without an except that is `notAllowed` (4.20). Nothing is refused but
/// where memory runs out.
pub fn datum(
    nodes: &NodeTable<'_>,
    alloc: Global,
    library: RcStr,
    type_name: &str,
    params: &[(String, String)],
    except: Option<NodeId>,
) -> Result<Reduced, AllocError>
    requires { IfSome except (λ i. IsTrue (knows_in nodes.now i)) }
    ensures tree { IfOk result (λ r. reduced_tree (trees nodes.now) r
        ≡ datum_step (rc_str_bytes library) type_name.now (parameters_view params.now)
        (option_map (tree_in nodes.now) except)) }
    ensures stored { IfOk result (IsReducedIn (trees nodes.now)) }
{
    let type_name = String::from_str(alloc, type_name)?;
    let params = params.to_vec(alloc)?;
    Ok(Reduced::New(Node::Datum(library, type_name, params, allowed_except(nodes, except))))
}

/// The except, if it isn't `notAllowed`.
fn allowed_except(nodes: &NodeTable<'_>, except: Option<NodeId>) -> Option<NodeId>
    requires { IfSome except (λ i. IsTrue (knows_in nodes.now i)) }
    ensures tree { (library type : Text) (params : Parameters)
        → datum_by library type params (option_map (tree_in nodes.now) result)
        ≡ datum_step library type params (option_map (tree_in nodes.now) except) }
    ensures known { IfSome result (λ i. IsTrue (knows_in nodes.now i)) }
{
    match except {
        Some(id) => {
            if nodes.is_not_allowed(id) {
                None
            } else {
                Some(id)
            }
        }
        None => None,
    }
}

/// A list of the content; `notAllowed` where the content is (4.20).
pub fn list(nodes: &NodeTable<'_>, content: NodeId) -> Reduced
    requires { IsTrue (knows_in nodes.now content) }
    ensures tree { reduced_tree (trees nodes.now) result ≡ list_step (tree_in nodes.now content) }
    ensures stored { IsReducedIn (trees nodes.now) result }
{
    if nodes.is_not_allowed(content) {
        Reduced::Stored(content)
    } else {
        Reduced::New(Node::List(content))
    }
}

/// An attribute, its name class in canonical form; `notAllowed` where the content is (4.20).
pub fn attribute(
    nodes: &NodeTable<'_>,
    alloc: Global,
    nc: &NameClass,
    content: NodeId,
) -> Result<Reduced, AllocError>
    requires { IsTrue (knows_in nodes.now content) }
    ensures tree { IfOk result (λ r. reduced_tree (trees nodes.now) r
        ≡ attribute_step (canonical_name (name_class_view nc.now)) (tree_in nodes.now content)) }
    ensures stored { IfOk result (IsReducedIn (trees nodes.now)) }
{
    if nodes.is_not_allowed(content) {
        Ok(Reduced::Stored(content))
    } else {
        Ok(Reduced::New(Node::Attribute(nc.canonical(alloc)?, content)))
    }
}

/// A repetition; `notAllowed` (4.20), `empty` (4.21) and a repetition stay what they are.
pub fn one_or_more(nodes: &NodeTable<'_>, content: NodeId) -> Reduced
    requires { IsTrue (knows_in nodes.now content) }
    ensures tree { reduced_tree (trees nodes.now) result
        ≡ one_or_more_step (tree_in nodes.now content) }
    ensures stored { IsReducedIn (trees nodes.now) result }
{
    match nodes.get(content) {
        Node::NotAllowed => Reduced::Stored(content),
        Node::Empty => Reduced::Stored(content),
        Node::OneOrMore(_) => Reduced::Stored(content),
        _ => Reduced::New(Node::OneOrMore(content)),
    }
}

/// A choice: choices among the members opened, `notAllowed` left out (4.20), in order, each pattern once. With no
/// member left it is `notAllowed`; with one left it is that member. The members are ids, in any order and with
/// repeats.
pub fn choice(
    nodes: &NodeTable<'_>,
    alloc: Global,
    members: &[NodeId],
) -> Result<Reduced, AllocError>
    requires { KnowsAll (knows_in nodes.now) members.now }
    ensures tree { IfOk result (λ r. reduced_tree (trees nodes.now) r
        ≡ choice_step (map (tree_in nodes.now) members.now)) }
    ensures stored { IfOk result (IsReducedIn (trees nodes.now)) }
{
    let members = open_parts(nodes, alloc, Connector::Choice, members)?;
    let members = sort_without_repeats(nodes, members)?;
    Ok(list_of_members(Connector::Choice, members))
}

/// A group: `notAllowed` where a member is (4.20); else groups among the members opened, `empty` left out (4.21), the
/// order kept. With no member left it is `empty`; with one left it is that member.
pub fn group(
    nodes: &NodeTable<'_>,
    alloc: Global,
    members: &[NodeId],
) -> Result<Reduced, AllocError>
    requires { KnowsAll (knows_in nodes.now) members.now }
    ensures tree { IfOk result (λ r. reduced_tree (trees nodes.now) r
        ≡ group_step (map (tree_in nodes.now) members.now)) }
    ensures stored { IfOk result (IsReducedIn (trees nodes.now)) }
{
    if has_not_allowed(nodes, members) {
        return Ok(Reduced::New(Node::NotAllowed));
    }
    let members = open_parts(nodes, alloc, Connector::Group, members)?;
    Ok(list_of_members(Connector::Group, members))
}

/// An interleave: `notAllowed` where a member is (4.20); else interleaves among the members opened, `empty` left out
/// (4.21), in order, repeats kept. With no member left it is `empty`; with one left it is that member.
pub fn interleave(
    nodes: &NodeTable<'_>,
    alloc: Global,
    members: &[NodeId],
) -> Result<Reduced, AllocError>
    requires { KnowsAll (knows_in nodes.now) members.now }
    ensures tree { IfOk result (λ r. reduced_tree (trees nodes.now) r
        ≡ interleave_step (map (tree_in nodes.now) members.now)) }
    ensures stored { IfOk result (IsReducedIn (trees nodes.now)) }
{
    if has_not_allowed(nodes, members) {
        return Ok(Reduced::New(Node::NotAllowed));
    }
    let members = open_parts(nodes, alloc, Connector::Interleave, members)?;
    let members = sort_members(nodes, members)?;
    Ok(list_of_members(Connector::Interleave, members))
}

/// Whether a member is `notAllowed`.
fn has_not_allowed(nodes: &NodeTable<'_>, members: &[NodeId]) -> bool
    ensures { result ≡ has_not_allowed (map (tree_in nodes.now) members.now) }
{
    for member in members {
        if nodes.is_not_allowed(*member) {
            return true;
        }
    }
    false
}

/// The members of a list of the parts, with those of the lists of its kind among them. Each id is copied once.
fn open_parts(
    nodes: &NodeTable<'_>,
    alloc: Global,
    connector: Connector,
    parts: &[NodeId],
) -> Result<Vec<NodeId>, AllocError>
    requires { KnowsAll (knows_in nodes.now) parts.now }
    ensures members { IfOk result (λ v. map (tree_in nodes.now) v.items
        ≡ flat_map (members_by connector) (map (tree_in nodes.now) parts.now)) }
    ensures known { IfOk result (λ v. KnowsAll (knows_in nodes.now) v.items) }
{
    let mut members = Vec::new(alloc);
    for part in parts {
        match connector.members_of(nodes.get(*part)) {
            Some(within) => members.extend_from_slice(within)?,
            None => members.push(*part)?,
        }
    }
    Ok(members)
}

/// The members in order, repeats kept, by as many comparisons as a merge sort makes. Equal ids are equal at once.
fn sort_members(nodes: &NodeTable<'_>, mut members: Vec<NodeId>) -> Result<Vec<NodeId>, AllocError>
    requires { KnowsAll (knows_in nodes.now) members.items }
    ensures sorted { IfOk result (λ v. map (tree_in nodes.now) v.items
        ≡ sorted tree_cmp (map (tree_in nodes.now) members.items)) }
    ensures known { IfOk result (λ v. KnowsAll (knows_in nodes.now) v.items) }
{
    members.sort_by(|a, b| nodes.compare(*a, *b))?;
    Ok(members)
}

/// The ids, each once, in the order of their places.
fn drop_repeats(mut ids: Vec<NodeId>) -> Vec<NodeId>
    ensures sorted { (at : NodeId → Tree)
        → sorted_once tree_cmp (map at result.items) ≡ sorted_once tree_cmp (map at ids.items) }
    ensures known { (ts : List Tree)
        → KnowsAll (knows ts) ids.items → KnowsAll (knows ts) result.items }
{
    ids.sort_unstable();
    ids.dedup();
    ids
}

/// The members in order, without repeats. Equal ids go before any patterns are compared.
fn sort_without_repeats(
    nodes: &NodeTable<'_>,
    members: Vec<NodeId>,
) -> Result<Vec<NodeId>, AllocError>
    requires { KnowsAll (knows_in nodes.now) members.items }
    ensures sorted { IfOk result (λ v. map (tree_in nodes.now) v.items
        ≡ sorted_once tree_cmp (map (tree_in nodes.now) members.items)) }
    ensures known { IfOk result (λ v. KnowsAll (knows_in nodes.now) v.items) }
{
    let mut members = drop_repeats(members);
    members.sort_by(|a, b| nodes.compare(*a, *b))?;
    members.dedup_by(|a, b| nodes.compare(*a, *b) == Ordering::Equal);
    Ok(members)
}

/// A list of the members; the member itself if there is one, and what an empty list comes to if there is none.
fn list_of_members(connector: Connector, members: Vec<NodeId>) -> Reduced
    ensures tree { (ts : List Tree)
        → reduced_tree ts result ≡ listed connector (map (tree_at ts) members.items) }
    ensures stored { (ts : List Tree) → KnowsAll (knows ts) members.items → IsReducedIn ts result }
{
    if members.is_empty() {
        return Reduced::New(connector.neutral());
    }
    if members.len() == 1 {
        return Reduced::Stored(members[0]);
    }
    Reduced::New(connector.node(members))
}
