// A store in which equal patterns have equal ids.
ghost use Rattle.std.specs.Prelude.{◌≡◌, IsTrue};
ghost use Rattle.std.specs.List.{IsDistinct, IsDistinct-prop};
ghost use Rattle.rn_pattern.specs.inside.Hashing.{node_eq};
ghost use Rattle.rn_pattern.specs.inside.Stored.{NameEarlier, NameEarlier-prop, trees_of_nodes};

use super::hashing::Seed;
use super::libraries::Libraries;
use super::node_table::NodeTable;
use super::pattern_store::Patterns;
use super::store::NodeStore;
use crate::node::{Node, NodeId};
use indexmap::IndexSet;
use std::alloc::{AllocError, Global};
use std::rc::RcStr;

/// A store in which equal patterns have equal ids: a constructor looks for an equal node by its hash.
#[derive(Drop)]
pub struct Interned {
    alloc: Global,
    libraries: Libraries,
    nodes: IndexSet<Node<NodeId>, Seed>,
    ghost earlier: { NameEarlier 0 nodes.keys } by { NameEarlier-prop 0 nodes.keys },
    ghost distinct: { IsDistinct node_eq nodes.keys } by { IsDistinct-prop node_eq nodes.keys },
}

impl Interned {
    /// A store without ids, for patterns that nobody writes in order to make their hashes equal. It takes no memory.
    pub fn new(alloc: Global) -> Interned
        ensures { ⟦<Interned as Patterns>⟧.size result ≡ 0 }
    {
        Interned::with_seed(alloc, Seed::of(b""))
    }

    /// A store without ids that hashes by the seed. It takes no memory.
    pub fn with_seed(alloc: Global, seed: Seed) -> Interned
        ensures { ⟦<Interned as Patterns>⟧.size result ≡ 0 }
    {
        Interned {
            alloc,
            libraries: Libraries::new(alloc),
            nodes: IndexSet::with_hasher(alloc, seed),
        }
    }

    /// How many ids the store has. Two ids of equal patterns are equal.
    pub fn nodes(&self) -> usize
        ensures count { result ≡ ⟦<Interned as Patterns>⟧.size self.now }
        ensures distinct { (i j : NodeId) → let ids = ⟦<Interned as Patterns>⟧ in
            IsTrue (ids.knows self.now i) → IsTrue (ids.knows self.now j)
            → ids.tree_of self.now i ≡ ids.tree_of self.now j → i ≡ j }
    {
        self.nodes.len()
    }
}

impl NodeStore for Interned {
    ghost trees = { λ s. trees_of_nodes s.nodes.keys };

    fn allocator(&self) -> Global {
        self.alloc
    }

    fn table(&self) -> NodeTable<'_> {
        NodeTable {
            nodes: self.nodes.as_slice(),
            is_shared: true,
        }
    }

    fn library(&mut self, library: &str) -> Result<RcStr, AllocError> {
        self.libraries.shared(library)
    }

    fn add(&mut self, node: Node<NodeId>) -> Result<NodeId, AllocError> {
        let (place, _) = self.nodes.insert_full(node)?;
        Ok(NodeId(place))
    }
}
