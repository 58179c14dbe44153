// The rows of a graph, one behind the other.
ghost use Rattle.std.specs.Prelude.{◌≡◌, ◌<◌, ◌≤◌, ◌∷◌, ◌++◌, [], length, vec_len, slice_index_or, IfOk, OnOk, OnErr};
ghost use Rattle.std.specs.List.{slice_range};
ghost use Rattle.rn_graph.specs.inside.RowEnds.{AreEnds, AreEnds-prop};

use std::alloc::{AllocError, Global};

/// The rows of a graph: for each node, the nodes that its edges lead to. A node is a number below the count of rows.
/// All rows lie in one list, so that a row takes no memory of its own beside its nodes and one number.
#[derive(Drop)]
pub struct Rows {
    /// The nodes of all rows, in their order. Those behind the last end are of a row that has not ended.
    nodes: Vec<usize>,
    /// Where each row ends among the nodes. It begins where the one before ends.
    ends: Vec<usize>,
    ghost ordered: { AreEnds (vec_len nodes) 0 ends.items } by { AreEnds-prop (vec_len nodes) 0 ends.items },
}

impl Rows {
    ghost use Rattle.rn_graph.specs.Graph.{row, rows_of, open_row};

    /// No rows yet. It takes no memory.
    pub fn new(alloc: Global) -> Rows
        ensures rows { rows_of result ≡ [] }
        ensures open { open_row result ≡ [] }
    {
        Rows {
            nodes: Vec::new(alloc),
            ends: Vec::new(alloc),
        }
    }

    /// No rows yet, with the memory for so many of one node each.
    pub fn with_capacity(alloc: Global, count: usize) -> Result<Rows, AllocError>
        ensures rows { IfOk result (λ rows. rows_of rows ≡ []) }
        ensures open { IfOk result (λ rows. open_row rows ≡ []) }
    {
        Ok(Rows {
            nodes: Vec::with_capacity(alloc, count)?,
            ends: Vec::with_capacity(alloc, count)?,
        })
    }

    /// How many rows there are.
    pub fn len(&self) -> usize
        ensures { result ≡ length (rows_of self.now) }
    {
        self.ends.len()
    }

    /// The nodes that the edges of a node lead to.
    #[inline(always)]
    pub fn row(&self, node: usize) -> &[usize]
        requires { node < length (rows_of self.now) }
        ensures { result.now ≡ row (rows_of self.now) node }
    {
        let (begin, end) = self.range_of(node);
        &self.nodes[begin..end]
    }

    /// Where the row of a node begins and ends.
    #[inline(always)]
    fn range_of(&self, node: usize) -> (usize, usize)
        requires { node < length (rows_of self.now) }
        ensures ordered { result.0 ≤ result.1 }
        ensures within { result.1 ≤ vec_len self.now.nodes }
        ensures row { slice_range self.now.nodes.items result.0 result.1
            ≡ row (rows_of self.now) node }
    {
        (self.begin_of(node), self.ends[node])
    }

    /// Where the row of a node begins, or the one behind all rows.
    #[inline(always)]
    fn begin_of(&self, node: usize) -> usize
        requires { node ≤ vec_len self.now.ends }
        ensures { result ≡ slice_index_or (0 ∷ self.now.ends.items) node 0 }
    {
        if node == 0 { 0 } else { self.ends[node - 1] }
    }

    /// Adds a row of these nodes. What was added to a row that has not ended is dropped. The only error is want of
    /// memory; it leaves the rows that there are.
    #[inline(always)]
    pub fn push_row(&mut self, row: &[usize]) -> Result<(), AllocError>
        ensures rows { OnOk result (rows_of self.new ≡ rows_of self.old ++ row.now ∷ []) }
        ensures open { OnOk result (open_row self.new ≡ []) }
        ensures kept { OnErr result (rows_of self.new ≡ rows_of self.old) }
    {
        self.drop_open();
        self.add_all(row)?;
        self.end_row()
    }

    /// Drops the row that has not ended.
    #[inline(always)]
    fn drop_open(&mut self)
        ensures rows { rows_of self.new ≡ rows_of self.old }
        ensures open { open_row self.new ≡ [] }
    {
        let begin = self.begin_of(self.ends.len());
        self.nodes.truncate(begin);
    }

    /// Adds nodes to the row that has not ended.
    #[inline(always)]
    fn add_all(&mut self, nodes: &[usize]) -> Result<(), AllocError>
        ensures rows { rows_of self.new ≡ rows_of self.old }
        ensures open { OnOk result (open_row self.new ≡ open_row self.old ++ nodes.now) }
    {
        for node in nodes {
            self.add(*node)?;
        }
        Ok(())
    }

    /// Adds a node to the row that has not ended. An error leaves all as it was.
    #[inline(always)]
    pub fn add(&mut self, node: usize) -> Result<(), AllocError>
        ensures rows { rows_of self.new ≡ rows_of self.old }
        ensures open { OnOk result (open_row self.new ≡ open_row self.old ++ node ∷ []) }
        ensures kept { OnErr result (open_row self.new ≡ open_row self.old) }
    {
        self.nodes.push(node)?;
        Ok(())
    }

    /// Ends the row of the nodes that were added since the last end. An error leaves all as it was.
    #[inline(always)]
    pub fn end_row(&mut self) -> Result<(), AllocError>
        ensures rows { OnOk result (rows_of self.new ≡ rows_of self.old ++ open_row self.old ∷ []) }
        ensures open { OnOk result (open_row self.new ≡ []) }
        ensures rows_kept { OnErr result (rows_of self.new ≡ rows_of self.old) }
        ensures open_kept { OnErr result (open_row self.new ≡ open_row self.old) }
    {
        self.ends.push(self.nodes.len())?;
        Ok(())
    }
}
