// A shortest loop through a node of a graph, found by a walk along the edges that meets the nearest nodes first.
ghost use Rattle.std.specs.Prelude.{◌≡◌, ◌<◌, ◌↔◌, ◌∷◌, true, [], length, vec_len, Contains, IfOk, MatchOption, OnOk};
ghost use Rattle.rn_graph.specs.Graph.{row, rows_of};
ghost use Rattle.rn_graph.specs.Loops.{IsLoop};
ghost use Rattle.rn_graph.specs.Ranks.{Leads};
ghost use Rattle.rn_graph.specs.inside.Walks.{IsWalk, WalksOn, first_of, node_at};

use super::rows::Rows;
use std::alloc::{AllocError, Global};

/// A walk from one node along the edges.
#[derive(Drop)]
struct Walk {
    /// Of each node of the graph, whether it was met.
    met: Vec<bool>,
    /// The nodes that were met, in this order.
    nodes: Vec<usize>,
    /// Of each of these nodes, the place among them of the one whose edge led to it; 0 of the first.
    before: Vec<usize>,
}

/// A walk that met one node alone.
fn begin(alloc: Global, edges: &Rows, node: usize) -> Result<Walk, AllocError>
    requires { node < length (rows_of edges.now) }
    ensures walk { IfOk result (λ w. IsWalk (rows_of edges.now) w) }
    ensures begins { IfOk result (λ w. w.nodes.items ≡ node ∷ []) }
{
    let mut met = vec![in alloc; false; edges.len()]?;
    met[node] = true;
    Ok(Walk {
        met,
        nodes: vec![in alloc; node]?,
        before: vec![in alloc; 0]?,
    })
}

/// Meets a node to which an edge leads from the one at the place. A number that is no node is passed over.
fn meet(walk: &mut Walk, edges: &Rows, place: usize, node: usize) -> Result<(), AllocError>
    requires walk { IsWalk (rows_of edges.now) walk.old }
    requires within { place < vec_len walk.old.nodes }
    requires edge { Contains (row (rows_of edges.now) (node_at walk.old place)) node }
    ensures { OnOk result (WalksOn (rows_of edges.now) (node ∷ []) walk.old walk.new) }
{
    if node < walk.met.len() && !walk.met[node] {
        walk.met[node] = true;
        walk.nodes.push(node)?;
        walk.before.push(place)?;
    }
    Ok(())
}

/// Meets the nodes to which edges lead from the one at the place.
fn meet_all(walk: &mut Walk, edges: &Rows, place: usize) -> Result<(), AllocError>
    requires walk { IsWalk (rows_of edges.now) walk.old }
    requires within { place < vec_len walk.old.nodes }
    ensures { OnOk result (WalksOn (rows_of edges.now)
        (row (rows_of edges.now) (node_at walk.old place)) walk.old walk.new) }
{
    for node in row_at(walk, edges, place) {
        meet(walk, edges, place, *node)?;
    }
    Ok(())
}

/// The nodes to which edges lead from the one at the place.
fn row_at<'e>(walk: &Walk, edges: &'e Rows, place: usize) -> &'e [usize]
    requires walk { IsWalk (rows_of edges.now) walk.now }
    requires within { place < vec_len walk.now.nodes }
    ensures { result.now ≡ row (rows_of edges.now) (node_at walk.now place) }
{
    edges.row(walk.nodes[place])
}

/// Whether an edge leads from the node at the place to this one.
fn leads_to(walk: &Walk, edges: &Rows, place: usize, node: usize) -> bool
    requires walk { IsWalk (rows_of edges.now) walk.now }
    requires within { place < vec_len walk.now.nodes }
    ensures { (result ≡ true) ↔ Contains (row (rows_of edges.now) (node_at walk.now place)) node }
{
    row_at(walk, edges, place).contains(&node)
}

/// The loop that an edge from the node at a place to the first one closes: the nodes by which the walk came there, the
/// first one first.
fn closed_loop(
    alloc: Global,
    walk: &Walk,
    edges: &Rows,
    last: usize,
) -> Result<Vec<usize>, AllocError>
    requires walk { IsWalk (rows_of edges.now) walk.now }
    requires within { last < vec_len walk.now.nodes }
    requires closes { Contains (row (rows_of edges.now) (node_at walk.now last))
        (first_of walk.now) }
    ensures { IfOk result (λ nodes. IsLoop (rows_of edges.now) (first_of walk.now) nodes.items) }
{
    let mut nodes = vec![in alloc; walk.nodes[last]]?;
    let mut place = last;
    while place > 0 {
        place = walk.before[place];
        nodes.push(walk.nodes[place])?;
    }
    nodes.reverse();
    Ok(nodes)
}

/// A loop through a node of as few nodes as there is one of, or none where the node doesn't come back to itself: the
/// node first, each with an edge to the next one, and the last one with an edge to the first. Work and memory grow with
/// the nodes and edges. After an error the edges are what they were.
pub fn shortest_loop(
    alloc: Global,
    edges: &Rows,
    node: usize,
) -> Result<Option<Vec<usize>>, AllocError>
    ensures { IfOk result (λ found. MatchOption found (¬ (Leads (rows_of edges.now) node node))
        (λ nodes. IsLoop (rows_of edges.now) node nodes.items)) }
{
    if node >= edges.len() {
        return Ok(None);
    }
    let mut walk = begin(alloc, edges, node)?;
    let mut place = 0;
    while place < walk.nodes.len() {
        if leads_to(&walk, edges, place, node) {
            return Ok(Some(closed_loop(alloc, &walk, edges, place)?));
        }
        meet_all(&mut walk, edges, place)?;
        place += 1;
    }
    Ok(None)
}
