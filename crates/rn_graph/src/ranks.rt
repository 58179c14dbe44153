// An order in which each node comes after those that its edges lead to, or the least node on a loop.
ghost use Rattle.std.specs.Prelude.{◌<◌, length, IfOk, IfSome, MatchOption};
ghost use Rattle.rn_graph.specs.Graph.{IsGraph, rows_of};
ghost use Rattle.rn_graph.specs.Ranks.{IsOrdered, HasNoLoop, IsFirstLoop};

use super::rows::Rows;
use super::search::search_all;
use std::alloc::{AllocError, Global};

/// Ranks by which each edge leads to a lower one, or the least node on a loop.
#[derive(Drop)]
pub enum Order {
    /// The rank of each node, in the order of the nodes.
    Ranked(Vec<usize>),
    /// The least node that comes back to itself.
    Looped(usize),
}

/// A rank for each node, below the number of nodes, by which each edge leads to a lower one; or the least node that comes
/// back to itself along one edge or more.
pub fn ranks(alloc: Global, edges: &Rows) -> Result<Order, AllocError>
    requires graph { IsGraph (rows_of edges.now) }
    ensures { IfOk result (λ o. IsOrdered (rows_of edges.now) o) }
{
    let search = search_all(alloc, edges)?;
    Ok(match search.least {
        Some(node) => Order::Looped(node),
        None => Order::Ranked(search.ranks),
    })
}

/// The least node that comes back to itself along one edge or more, if there is one.
pub fn least_looped(alloc: Global, edges: &Rows) -> Result<Option<usize>, AllocError>
    requires { IsGraph (rows_of edges.now) }
    ensures within { IfOk result (λ node. IfSome node (λ x. x < length (rows_of edges.now))) }
    ensures least { IfOk result (λ node. MatchOption node (HasNoLoop (rows_of edges.now))
        (IsFirstLoop (rows_of edges.now))) }
{
    Ok(search_all(alloc, edges)?.least)
}
