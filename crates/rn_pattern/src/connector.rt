// The three kinds of lists of patterns.
ghost use Rattle.std.specs.Prelude.{◌≡◌, ◌∷◌, [], ℕ, ◌<◌, All, IfSome, MatchOption, map};
ghost use Rattle.rn_pattern.specs.inside.Lists.{members_by, neutral, over};
ghost use Rattle.rn_pattern.specs.inside.Stored.{NamesBelow};
ghost use Rattle.rn_pattern.specs.Store.{node_view};
ghost use Rattle.rn_pattern.specs.Tree.{Tree, trees_of};
ghost use Rattle.rn_pattern.specs.declared.node.NodeId.{NodeId};

use crate::node::{Node, NodeId};

/// What connects the members of a list (4.12).
#[derive(Clone, Copy)]
pub enum Connector {
    /// One of the members matches.
    Choice,
    /// The members match one behind the other.
    Group,
    /// The members match parts that are interleaved.
    Interleave,
}

impl Connector {
    /// The members that replace the node in a list of this kind, if it isn't kept itself: those of a list of
    /// the same kind; none of the pattern that such a list without members is (4.20, 4.21).
    pub fn members_of(self, node: &Node<NodeId>) -> Option<&[NodeId]>
        ensures tree { (at : NodeId → Tree) → MatchOption result
            (members_by self (node_view at node.now) ≡ node_view at node.now ∷ [])
            (λ s. members_by self (node_view at node.now) ≡ map at s.now) }
        ensures below { (k : ℕ) → NamesBelow k node.now
            → IfSome result (λ s. All (λ i. i.0 < k) s.now) }
    {
        match self {
            Connector::Choice => match node {
                Node::NotAllowed => Some(&[]),
                Node::Choice(members) => Some(members),
                _ => None,
            },
            Connector::Group => match node {
                Node::Empty => Some(&[]),
                Node::Group(members) => Some(members),
                _ => None,
            },
            Connector::Interleave => match node {
                Node::Empty => Some(&[]),
                Node::Interleave(members) => Some(members),
                _ => None,
            },
        }
    }

    /// A list without members: `notAllowed` for a choice, `empty` for a group and an interleave.
    pub fn neutral(self) -> Node<NodeId>
        ensures tree { (at : NodeId → Tree) → node_view at result ≡ neutral self }
        ensures below { (k : ℕ) → NamesBelow k result }
    {
        match self {
            Connector::Choice => Node::NotAllowed,
            Connector::Group => Node::Empty,
            Connector::Interleave => Node::Empty,
        }
    }

    /// The list of the members, which are taken as they are.
    pub fn node(self, members: Vec<NodeId>) -> Node<NodeId>
        ensures tree { (at : NodeId → Tree)
            → node_view at result ≡ over self (trees_of (map at members.items)) }
        ensures below { (k : ℕ) → All (λ i. i.0 < k) members.items → NamesBelow k result }
    {
        match self {
            Connector::Choice => Node::Choice(members),
            Connector::Group => Node::Group(members),
            Connector::Interleave => Node::Interleave(members),
        }
    }
}
