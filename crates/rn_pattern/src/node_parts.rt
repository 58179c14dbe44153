// The parts of a node.
ghost use Rattle.std.specs.Prelude.{◌≡◌, ◌∷◌, [], option_copied};
ghost use Rattle.rn_pattern.specs.inside.Shown.{part_texts};
ghost use Rattle.rn_pattern.specs.Nodes.{node_members};
ghost use Rattle.rn_pattern.specs.inside.Stored.{node_class, node_parameters, node_rank, node_texts};

use crate::heads::{Heads, bare_heads};
use crate::node::{Node, NodeId};
use std::slice;

/// The parts of a node: its heads and the ids in it.
#[derive(Clone, Copy)]
pub struct NodeParts<'a> {
    /// What the order compares first.
    pub heads: Heads<'a>,
    /// The ids in the node, in their order.
    pub members: &'a [NodeId],
}

/// The parts of a kind that has none but its place in the order.
pub fn bare_parts<'a>(kind: u8) -> NodeParts<'a>
    ensures kind { result.heads.kind ≡ kind }
    ensures texts { part_texts result.heads ≡ [] ∷ [] ∷ [] ∷ [] }
    ensures parameters { result.heads.parameters.now ≡ [] }
    ensures class { result.heads.class ≡ None }
    ensures members { result.members.now ≡ [] }
{
    NodeParts {
        heads: bare_heads(kind),
        members: &[],
    }
}

/// The parts of the node, borrowed from it.
pub fn parts_of(node: &Node<NodeId>) -> NodeParts<'_>
    ensures kind { result.heads.kind ≡ node_rank node.now }
    ensures texts { part_texts result.heads ≡ node_texts node.now }
    ensures parameters { result.heads.parameters.now ≡ node_parameters node.now }
    ensures class { option_copied result.heads.class ≡ node_class node.now }
    ensures members { result.members.now ≡ node_members node.now }
{
    NodeParts {
        heads: heads_of(node),
        members: members_of(node),
    }
}

/// The heads of the node.
fn heads_of(node: &Node<NodeId>) -> Heads<'_>
    ensures kind { result.kind ≡ node_rank node.now }
    ensures texts { part_texts result ≡ node_texts node.now }
    ensures parameters { result.parameters.now ≡ node_parameters node.now }
    ensures class { option_copied result.class ≡ node_class node.now }
{
    let bare = bare_heads(rank(node));
    match node {
        Node::Ref(name) => Heads {
            name_or_library: name.as_str(),
            ..bare
        },
        Node::Value(library, type_name, text) => Heads {
            name_or_library: library,
            type_name,
            text,
            ..bare
        },
        Node::Datum(library, type_name, parameters, _) => Heads {
            name_or_library: library,
            type_name,
            parameters,
            ..bare
        },
        Node::Attribute(class, _) | Node::Element(class, _) => Heads {
            class: Some(class),
            ..bare
        },
        _ => bare,
    }
}

/// The ids in the node.
fn members_of(node: &Node<NodeId>) -> &[NodeId]
    ensures { result.now ≡ node_members node.now }
{
    match node {
        Node::Datum(_, _, _, except) => except.as_slice(),
        Node::List(content)
        | Node::Attribute(_, content)
        | Node::Element(_, content)
        | Node::OneOrMore(content) => slice::from_ref(content),
        Node::Group(members) | Node::Interleave(members) | Node::Choice(members) => members,
        _ => &[],
    }
}

/// The place of the node's kind in the order.
pub fn rank(node: &Node<NodeId>) -> u8
    ensures { result ≡ node_rank node.now }
{
    match node {
        Node::NotAllowed => 0,
        Node::Empty => 1,
        Node::Text => 2,
        Node::Ref(_) => 3,
        Node::Value(_, _, _) => 4,
        Node::Datum(_, _, _, _) => 5,
        Node::List(_) => 6,
        Node::Attribute(_, _) => 7,
        Node::Element(_, _) => 8,
        Node::OneOrMore(_) => 9,
        Node::Group(_) => 10,
        Node::Interleave(_) => 11,
        Node::Choice(_) => 12,
    }
}
