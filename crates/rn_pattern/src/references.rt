// The references of patterns, as edges of a graph whose nodes are numbers: those to all nodes, and those outside
// elements.
ghost use Rattle.std.specs.Prelude.{◌≡◌, ◌∷◌, ◌++◌, [], IfOk, OnOk};
ghost use Rattle.rn_graph.specs.Graph.{rows_of};
ghost use Rattle.rn_pattern.specs.declared.references.Reach.TheVariants.{Everywhere, OutsideElements};

use rn_graph::Rows;
use std::alloc::{AllocError, Global};

/// Which references of a pattern are meant (RELAX NG 2001, 4.18 and 4.19).
#[derive(Clone, Copy, PartialEq, Eq)]
pub enum Reach {
    /// All references, those in elements too (4.18).
    Everywhere,
    /// Those alone that no element stands around (4.19).
    OutsideElements,
}

/// The nodes that one node refers to, and those among them that it refers to outside elements. A node is in a list once
/// for each reference to it that was added.
#[derive(Drop)]
pub struct NodeReferences {
    /// The nodes of all references.
    pub everywhere: Vec<usize>,
    /// The nodes of the references outside elements, which stand in `everywhere` too.
    pub outside: Vec<usize>,
}

impl NodeReferences {
    /// No references yet. It takes no memory.
    pub fn new(alloc: Global) -> NodeReferences
        ensures everywhere { result.everywhere.items ≡ [] }
        ensures outside { result.outside.items ≡ [] }
    {
        NodeReferences {
            everywhere: Vec::new(alloc),
            outside: Vec::new(alloc),
        }
    }

    /// Takes all references out. Their memory is kept.
    #[inline(always)]
    pub fn clear(&mut self)
        ensures everywhere { self.new.everywhere.items ≡ [] }
        ensures outside { self.new.outside.items ≡ [] }
    {
        self.everywhere.clear();
        self.outside.clear();
    }

    /// Adds a reference to the node with a number, where `reach` is the narrowest reach that takes the reference in.
    #[inline(always)]
    pub fn add(&mut self, number: usize, reach: Reach) -> Result<(), AllocError>
        ensures everywhere { OnOk result (self.new.everywhere.items
            ≡ self.old.everywhere.items ++ number ∷ []) }
        ensures outside { reach ≡ OutsideElements
            → OnOk result (self.new.outside.items ≡ self.old.outside.items ++ number ∷ []) }
        ensures inside { reach ≡ Everywhere
            → OnOk result (self.new.outside.items ≡ self.old.outside.items) }
    {
        self.everywhere.push(number)?;
        match reach {
            Reach::Everywhere => {}
            Reach::OutsideElements => self.outside.push(number)?,
        }
        Ok(())
    }
}

/// The references of the nodes of a graph: a row for each node, in the order of their numbers.
#[derive(Drop)]
pub struct ReferenceRows {
    /// The edges of all references.
    pub everywhere: Rows,
    /// The edges of the references outside elements.
    pub outside: Rows,
}

impl ReferenceRows {
    /// No rows yet, with the memory for so many of one reference each.
    pub fn with_capacity(alloc: Global, count: usize) -> Result<ReferenceRows, AllocError>
        ensures everywhere { IfOk result (λ rows. rows_of rows.everywhere ≡ []) }
        ensures outside { IfOk result (λ rows. rows_of rows.outside ≡ []) }
    {
        Ok(ReferenceRows {
            everywhere: Rows::with_capacity(alloc, count)?,
            outside: Rows::with_capacity(alloc, count)?,
        })
    }

    /// Adds the references of the next node.
    #[inline(always)]
    pub fn push_row(&mut self, references: &NodeReferences) -> Result<(), AllocError>
        ensures everywhere { OnOk result (rows_of self.new.everywhere
            ≡ rows_of self.old.everywhere ++ references.now.everywhere.items ∷ []) }
        ensures outside { OnOk result (rows_of self.new.outside
            ≡ rows_of self.old.outside ++ references.now.outside.items ∷ []) }
    {
        self.everywhere.push_row(&references.everywhere)?;
        self.outside.push_row(&references.outside)
    }
}
