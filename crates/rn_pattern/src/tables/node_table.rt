// The nodes of a store, each of which names earlier ones by their places.
ghost use Rattle.std.specs.Prelude.{◌≡◌, IsTrue, option_copied, true};
ghost use Rattle.std.specs.List.{IsDistinct, IsDistinct-prop};
ghost use Rattle.std.specs.Coded.{Π_prop};
ghost use Rattle.rn_pattern.specs.inside.Compared.{IsCompared};
ghost use Rattle.rn_pattern.specs.inside.Hashing.{node_eq};
ghost use Rattle.rn_pattern.specs.inside.Stored.{NamesBelow, NameEarlier, NameEarlier-prop};
ghost use Rattle.rn_pattern.specs.Canonical.{is_not_allowed};
ghost use Rattle.rn_pattern.specs.Order.{tree_cmp};
ghost use Rattle.rn_pattern.specs.inside.Shown.{ShowsTree, part_texts};
ghost use Rattle.rn_pattern.specs.Store.{KnowsAll, node_view};

use crate::heads::compare_heads;
use crate::node::{Node, NodeId};
use crate::node_parts::{NodeParts, bare_parts, parts_of};
use std::cmp::Ordering;

/// The nodes of a store in the order of their ids, borrowed.
#[derive(Clone, Copy)]
pub struct NodeTable<'a> {
    /// The node of each id, at the place that the id is.
    pub nodes: &'a [Node<NodeId>],
    /// Whether no two of the nodes are equal, so that each pattern has one id.
    pub is_shared: bool,
    ghost earlier: { NameEarlier 0 nodes.now } by { NameEarlier-prop 0 nodes.now },
    ghost distinct: { is_shared ≡ true → IsDistinct node_eq nodes.now } by { Π_prop (λ _. IsDistinct-prop node_eq nodes.now) },
}

/// What comparing two patterns up to their first members that differ tells.
enum Compared {
    /// Their order.
    As(Ordering),
    /// Ids of two patterns within them that are in the same order.
    Within(NodeId, NodeId),
}

impl<'a> NodeTable<'a> {
    ghost use Rattle.rn_pattern.specs.inside.Table.{knows_in, tree_in};

    /// The node of an id of the table.
    pub fn get(&self, id: NodeId) -> &'a Node<NodeId>
        requires { IsTrue (knows_in self.now id) }
        ensures tree { node_view (tree_in self.now) result.now ≡ tree_in self.now id }
        ensures below { NamesBelow id.0 result.now }
    {
        prove!(id.0 < self.nodes.len());
        &self.nodes[id.0]
    }

    /// The parts of the pattern at a place, of `notAllowed` where there is none.
    fn parts(&self, id: NodeId) -> NodeParts<'a>
        ensures shows { ShowsTree (tree_in self.now) (tree_in self.now id) id.0 result.heads.kind
            (part_texts result.heads) result.heads.parameters.now
            (option_copied result.heads.class) result.members.now }
        ensures known { KnowsAll (knows_in self.now) result.members.now }
    {
        if id.0 < self.nodes.len() {
            parts_of(self.get(id))
        } else {
            bare_parts(0)
        }
    }

    /// Whether `notAllowed` stands at the place, or nothing.
    pub fn is_not_allowed(&self, id: NodeId) -> bool
        ensures { result ≡ is_not_allowed (tree_in self.now id) }
    {
        if id.0 < self.nodes.len() {
            matches!(self.get(id), Node::NotAllowed)
        } else {
            true
        }
    }

    /// The order of the patterns at two places, equal at once where the places are. A place that isn't the table's
    /// counts as `notAllowed`. No call is nested for each nested node, but in a table where equal patterns may have two
    /// ids, for members before the last one.
    #[cycle(compare)]
    pub fn compare(&self, a: NodeId, b: NodeId) -> Ordering
        ensures { result ≡ tree_cmp (tree_in self.now a) (tree_in self.now b) }
    {
        let mut x = a;
        let mut y = b;
        while x.0 != y.0 {
            match self.compare_roots(x, y) {
                Compared::As(order) => return order,
                Compared::Within(p, q) => {
                    x = p;
                    y = q;
                }
            }
        }
        Ordering::Equal
    }

    /// Compares the patterns at two places up to the first members that decide their order.
    #[cycle(compare)]
    fn compare_roots(&self, a: NodeId, b: NodeId) -> Compared
        ensures { IsCompared (tree_in self.now) a b result }
    {
        let x = self.parts(a);
        let y = self.parts(b);
        match compare_heads(x.heads, y.heads) {
            Ordering::Equal => {}
            order => return Compared::As(order),
        }
        let shared = x.members.len().min(y.members.len());
        for k in 0..shared {
            let p = x.members[k];
            let q = y.members[k];
            let is_last = k + 1 == x.members.len() && k + 1 == y.members.len();
            if p.0 != q.0 && (self.is_shared || is_last) {
                return Compared::Within(p, q);
            }
            match self.compare(p, q) {
                Ordering::Equal => {}
                order => return Compared::As(order),
            }
        }
        Compared::As(x.members.len().cmp(&y.members.len()))
    }
}
