// Reachability in a graph whose nodes are numbers.
ghost use Rattle.std.specs.Prelude.{◌≡◌, ℕ, ◌+◌, ◌<◌, ◌↔◌, true, ◌∷◌, [], length, vec_len, IfOk, OnOk, if◌then◌else◌};
ghost use Rattle.rn_graph.specs.Graph.{AllBelow, row, IsGraph, is_marked, Reached, rows_of};
ghost use Rattle.rn_graph.specs.inside.Marking.{Agrees, Marks};

use super::rows::Rows;
use std::alloc::{AllocError, Global};

/// Marks a node, and lists it if it was not marked before.
fn mark(seen: &mut Vec<bool>, order: &mut Vec<usize>, node: usize) -> Result<(), AllocError>
    requires within { node < vec_len seen.old }
    requires agrees { Agrees seen.old.items order.old.items }
    ensures { OnOk result (Marks (node ∷ []) seen.old.items order.old.items
        seen.new.items order.new.items) }
{
    if !seen[node] {
        seen[node] = true;
        order.push(node)?;
    }
    Ok(())
}

/// Marks the nodes of a row.
fn mark_all(seen: &mut Vec<bool>, order: &mut Vec<usize>, row: &[usize]) -> Result<(), AllocError>
    requires within { AllBelow (vec_len seen.old) row.now }
    requires agrees { Agrees seen.old.items order.old.items }
    ensures { OnOk result (Marks row.now seen.old.items order.old.items
        seen.new.items order.new.items) }
{
    for node in row {
        mark(seen, order, *node)?;
    }
    Ok(())
}

/// For each node, whether it is one of the first or is reached from them. After an error the edges and
/// the first nodes are what they were.
pub fn reached_nodes(alloc: Global, edges: &Rows, first: &[usize]) -> Result<Vec<bool>, AllocError>
    requires graph { IsGraph (rows_of edges.now) }
    requires first_within { AllBelow (length (rows_of edges.now)) first.now }
    ensures size { IfOk result (λ seen. length seen.items ≡ length (rows_of edges.now)) }
    ensures exact { IfOk result (λ seen. (x : ℕ)
        → (is_marked seen.items x ≡ true) ↔ Reached (rows_of edges.now) first.now x) }
{
    let mut seen = vec![in alloc; false; edges.len()]?;
    let mut order = Vec::with_capacity(alloc, edges.len())?;
    mark_all(&mut seen, &mut order, first)?;
    let mut next = 0;
    while next < order.len() {
        let row = edges.row(order[next]);
        mark_all(&mut seen, &mut order, row)?;
        next += 1;
    }
    Ok(seen)
}

/// The edges from marked nodes alone: the rows of the others are empty. After an error the edges are what
/// they were.
pub fn marked_rows(alloc: Global, edges: &Rows, marks: &[bool]) -> Result<Rows, AllocError>
    requires { length marks.now ≡ length (rows_of edges.now) }
    ensures size { IfOk result (λ rows. length (rows_of rows) ≡ length (rows_of edges.now)) }
    ensures kept { IfOk result (λ rows. (node : ℕ) → row (rows_of rows) node
        ≡ (if is_marked marks.now node then row (rows_of edges.now) node else [])) }
{
    let mut rows = Rows::with_capacity(alloc, edges.len())?;
    for node in 0..edges.len() {
        rows.push_row(kept_row(edges.row(node), marks[node]))?;
    }
    Ok(rows)
}

/// The row if it is kept, else an empty one.
fn kept_row(row: &[usize], is_kept: bool) -> &[usize]
    ensures { result.now ≡ (if is_kept then row.now else []) }
{
    if is_kept { row } else { &[] }
}
