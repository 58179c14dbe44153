// A store that keeps each pattern that it is asked for.
ghost use Rattle.std.specs.Prelude.{◌≡◌};
ghost use Rattle.rn_pattern.specs.inside.Stored.{NameEarlier, NameEarlier-prop, trees_of_nodes};

use super::libraries::Libraries;
use super::node_table::NodeTable;
use super::pattern_store::Patterns;
use super::store::NodeStore;
use crate::node::{Node, NodeId};
use std::alloc::{AllocError, Global};
use std::rc::RcStr;

/// A store that keeps each pattern that it is asked for, and looks for no equal one.
#[derive(Drop)]
pub struct Plain {
    alloc: Global,
    libraries: Libraries,
    nodes: Vec<Node<NodeId>>,
    ghost earlier: { NameEarlier 0 nodes.items } by { NameEarlier-prop 0 nodes.items },
}

impl Plain {
    /// A store without ids. It takes no memory.
    pub fn new(alloc: Global) -> Plain
        ensures { ⟦<Plain as Patterns>⟧.size result ≡ 0 }
    {
        Plain {
            alloc,
            libraries: Libraries::new(alloc),
            nodes: Vec::new(alloc),
        }
    }

    /// How many ids the store has. Two ids of equal patterns may differ.
    pub fn nodes(&self) -> usize
        ensures { result ≡ ⟦<Plain as Patterns>⟧.size self.now }
    {
        self.nodes.len()
    }
}

impl NodeStore for Plain {
    ghost trees = { λ s. trees_of_nodes s.nodes.items };

    fn allocator(&self) -> Global {
        self.alloc
    }

    fn table(&self) -> NodeTable<'_> {
        NodeTable {
            nodes: &self.nodes,
            is_shared: false,
        }
    }

    fn library(&mut self, library: &str) -> Result<RcStr, AllocError> {
        self.libraries.shared(library)
    }

    fn add(&mut self, node: Node<NodeId>) -> Result<NodeId, AllocError> {
        let id = NodeId(self.nodes.len());
        self.nodes.push(node)?;
        Ok(id)
    }
}
