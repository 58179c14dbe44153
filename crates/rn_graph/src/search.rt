// One search along all edges of a graph (Gabow's path-based search for strongly connected groups): the least node that
// comes back to itself, and ranks.
ghost use Rattle.std.specs.Prelude.{◌≡◌, ℕ, ◌-◌, ◌<◌, ◌≤◌, ◌≢◌, ◌⊎◌, [], Contains, length, vec_len, take, drop, min, MatchBool, MatchOption, None, IfOk, OnOk, map};
ghost use Rattle.rn_graph.specs.Graph.{row, IsGraph, rows_of};
ghost use Rattle.rn_graph.specs.Ranks.{HasNoLoop, IsFirstLoop, IsRanking};
ghost use Rattle.rn_graph.specs.inside.Searching.{EndsWith, IsNext, edges_left, Grouping, GroupsOn, IsLeastLooped, IsClosed, IsSettled, IsStage, IsAtWork, IsUnited, AllLead, LeadsBack, Rises, left_at, next_at, node_at, place_of, work};

use super::rows::Rows;
use std::alloc::{AllocError, Global};

/// How far the search has come with a node.
#[derive(Clone, Copy)]
enum Stage {
    /// Not met yet.
    New,
    /// On the stack, at this place.
    Open(usize),
    /// Its group is closed.
    Closed,
}

/// A search along the edges. The nodes that are met stand on a stack, in groups of nodes that lead to one another; each
/// node on the stack leads to all behind it. So an edge from the last group back to another one unites all groups from
/// there on. A group is closed when no edge of it is left; by then the groups that its edges lead to are closed.
#[derive(Drop)]
pub(crate) struct Search {
    /// Of each node that was met, its place when it was put on the stack.
    places: Vec<Option<usize>>,
    /// Of each node, how many of its edges are still to be looked at; they are taken from the end.
    left: Vec<usize>,
    /// The nodes whose groups are not closed, in the order in which they were met.
    stack: Vec<usize>,
    /// The places of the nodes that may have edges left; they rise.
    path: Vec<usize>,
    /// The places at which the groups begin; they rise.
    bounds: Vec<usize>,
    /// The least node of the closed groups that comes back to itself.
    pub(crate) least: Option<usize>,
    /// How many groups are closed.
    closed: usize,
    /// Of the first node of each closed group, how many groups were closed before; 0 of every other node.
    pub(crate) ranks: Vec<usize>,
}

/// For each node, how many edges it has.
fn lengths(alloc: Global, edges: &Rows) -> Result<Vec<usize>, AllocError>
    ensures { IfOk result (λ lengths. lengths.items ≡ map (λ row. length row) (rows_of edges.now)) }
{
    let mut lengths = Vec::with_capacity(alloc, edges.len())?;
    for node in 0..edges.len() {
        lengths.push(edges.row(node).len())?;
    }
    Ok(lengths)
}

/// The node that the next edge to look at leads to from a node, if there is one. Of each node so many edges are left;
/// they are taken from the end.
fn next_of(left: &[usize], edges: &Rows, node: usize) -> Option<usize>
    requires graph { IsGraph (rows_of edges.now) }
    requires within { node < length (rows_of edges.now) }
    requires counted { node < length left.now }
    requires at_most { edges_left left.now node ≤ length (row (rows_of edges.now) node) }
    ensures { IsNext (rows_of edges.now) left.now node result }
{
    let left = left[node];
    if left == 0 {
        return None;
    }
    Some(edges.row(node)[left - 1])
}

/// A search that has not begun.
fn begin(alloc: Global, edges: &Rows) -> Result<Search, AllocError>
    ensures grouping { IfOk result (λ s. Grouping (rows_of edges.now) s) }
    ensures empty { IfOk result (λ s. s.stack.items ≡ []) }
{
    Ok(Search {
        places: vec![in alloc; None; edges.len()]?,
        left: lengths(alloc, edges)?,
        stack: Vec::with_capacity(alloc, edges.len())?,
        path: Vec::with_capacity(alloc, edges.len())?,
        bounds: Vec::with_capacity(alloc, edges.len())?,
        least: None,
        closed: 0,
        ranks: vec![in alloc; 0; edges.len()]?,
    })
}

/// Puts a new node on the stack, as a group of its own.
#[inline(always)]
fn enter(search: &mut Search, edges: &Rows, node: usize) -> Result<(), AllocError>
    requires grouping { Grouping (rows_of edges.now) search.old }
    requires within { node < length (rows_of edges.now) }
    requires new { place_of search.old.places.items node ≡ None }
    requires all_lead { AllLead (rows_of edges.now) search.old.stack.items node }
    ensures goes_on { OnOk result (GroupsOn (rows_of edges.now) search.old search.new) }
    ensures met { OnOk result (place_of search.new.places.items node ≢ None) }
    ensures less { OnOk result (work search.new < work search.old) }
{
    let place = search.stack.len();
    search.stack.push(node)?;
    search.path.push(place)?;
    search.bounds.push(place)?;
    search.places[node] = Some(place);
    Ok(())
}

/// Leaves an edge of the node at the place, which leads to a closed node or into the node's own group, or to one behind
/// it.
#[inline(always)]
fn pass(search: &mut Search, edges: &Rows, place: usize)
    requires grouping { Grouping (rows_of edges.now) search.old }
    requires within { place < vec_len search.old.stack }
    requires some_left { 0 < left_at search.old place }
    requires settled { IsSettled search.old.places.items search.old.stack.items
        search.old.bounds.items place (next_at (rows_of edges.now) search.old place) }
    ensures goes_on { GroupsOn (rows_of edges.now) search.old search.new }
    ensures less { work search.new < work search.old }
{
    let node = search.stack[place];
    search.left[node] -= 1;
}

/// Drops the bounds behind the place: all groups that begin there are united with the one before.
fn drop_bounds(bounds: &mut Vec<usize>, place: usize)
    requires { Rises bounds.old.items }
    ensures { IsUnited bounds.old.items bounds.new.items place }
{
    while !bounds.is_empty() && bounds[bounds.len() - 1] > place {
        bounds.pop();
    }
}

/// Unites the groups that an edge between the places closes to a loop, and leaves the edge.
fn unite_groups(search: &mut Search, edges: &Rows, place: usize, other: usize)
    requires grouping { Grouping (rows_of edges.now) search.old }
    requires within { place < vec_len search.old.stack }
    requires other_within { other < vec_len search.old.stack }
    requires some_left { 0 < left_at search.old place }
    requires next { next_at (rows_of edges.now) search.old place
        ≡ node_at search.old.stack.items other }
    requires all_lead { AllLead (rows_of edges.now) search.old.stack.items
        (node_at search.old.stack.items other) }
    ensures goes_on { GroupsOn (rows_of edges.now) search.old search.new }
    ensures less { work search.new < work search.old }
{
    drop_bounds(&mut search.bounds, other);
    pass(search, edges, place);
}

/// Leaves the last node of the path, which has no edge left.
#[inline(always)]
fn leave(search: &mut Search, edges: &Rows, place: usize)
    requires grouping { Grouping (rows_of edges.now) search.old }
    requires last { EndsWith search.old.path.items place }
    requires all_looked { left_at search.old place ≡ 0 }
    ensures goes_on { GroupsOn (rows_of edges.now) search.old search.new }
    ensures less { work search.new < work search.old }
{
    search.path.pop();
}

/// The least of the nodes.
fn least_of(nodes: &[usize]) -> usize
    requires { 0 < length nodes.now }
    ensures among { Contains nodes.now result }
    ensures least { (x : ℕ) → Contains nodes.now x → result ≤ x }
{
    let mut least = nodes[0];
    for node in nodes {
        least = least.min(*node);
    }
    least
}

/// Whether the nodes of a group come back to themselves.
fn is_looped(edges: &Rows, group: &[usize]) -> bool
    requires some { 0 < length group.now }
    requires within { node_at group.now 0 < length (rows_of edges.now) }
    ensures { MatchBool result
        ((1 < length group.now) ⊎ LeadsBack (rows_of edges.now) (node_at group.now 0))
        ((length group.now ≡ 1) × (LeadsBack (rows_of edges.now) (node_at group.now 0) → ⊥)) }
{
    group.len() > 1 || edges.row(group[0]).contains(&group[0])
}

/// The lesser of two nodes, or the one that there is.
fn lesser_node(held: Option<usize>, other: usize) -> usize
    ensures { MatchOption held (result ≡ other) (λ x. result ≡ min x other) }
{
    match held {
        Some(held) => held.min(other),
        None => other,
    }
}

/// The nodes of the last group.
fn last_group<'s>(search: &'s Search, edges: &Rows, begin: usize) -> &'s [usize]
    requires grouping { Grouping (rows_of edges.now) search.now }
    requires within { begin < vec_len search.now.stack }
    ensures is { result.now ≡ drop begin search.now.stack.items }
    ensures some { 0 < length result.now }
    ensures within { node_at result.now 0 < length (rows_of edges.now) }
{
    &search.stack[begin..]
}

/// The least node of the closed groups and of the last one that comes back to itself.
fn least_with(search: &Search, edges: &Rows, begin: usize) -> Option<usize>
    requires grouping { Grouping (rows_of edges.now) search.now }
    requires last { EndsWith search.now.bounds.items begin }
    requires all_looked { (p : ℕ) → Contains search.now.path.items p → p < begin }
    ensures { IsLeastLooped (rows_of edges.now)
        (IsClosed search.now.places.items (take begin search.now.stack.items)) result }
{
    let group = last_group(search, edges, begin);
    if is_looped(edges, group) {
        Some(lesser_node(search.least, least_of(group)))
    } else {
        search.least
    }
}

/// Closes the last group, of which no edge is left, and ranks it.
#[inline(always)]
fn close(search: &mut Search, edges: &Rows, begin: usize)
    requires grouping { Grouping (rows_of edges.now) search.old }
    requires last { EndsWith search.old.bounds.items begin }
    requires all_looked { (p : ℕ) → Contains search.old.path.items p → p < begin }
    ensures goes_on { GroupsOn (rows_of edges.now) search.old search.new }
    ensures less { work search.new < work search.old }
{
    search.least = least_with(search, edges, begin);
    let first = search.stack[begin];
    search.ranks[first] = search.closed;
    search.closed += 1;
    search.stack.truncate(begin);
    search.bounds.pop();
}

/// The place at which the last group begins.
fn last_bound(search: &Search, edges: &Rows) -> usize
    requires grouping { Grouping (rows_of edges.now) search.now }
    requires some { 0 < vec_len search.now.bounds }
    ensures { EndsWith search.now.bounds.items result }
{
    search.bounds[search.bounds.len() - 1]
}

/// The place of the last group's node whose edges are looked at, if there is one.
fn place_at_work(search: &Search, begin: usize) -> Option<usize>
    requires { Rises search.now.path.items }
    ensures { IsAtWork search.now.path.items begin result }
{
    if search.path.is_empty() || search.path[search.path.len() - 1] < begin {
        return None;
    }
    Some(search.path[search.path.len() - 1])
}

/// The node at the place.
fn node_of(search: &Search, edges: &Rows, place: usize) -> usize
    requires grouping { Grouping (rows_of edges.now) search.now }
    requires within { place < vec_len search.now.stack }
    ensures is { result ≡ node_at search.now.stack.items place }
    ensures within { result < length (rows_of edges.now) }
{
    search.stack[place]
}

/// Whether the node was met, and if so, whether its group is closed.
#[inline(always)]
fn stage_of(search: &Search, edges: &Rows, node: usize) -> Stage
    requires grouping { Grouping (rows_of edges.now) search.now }
    requires within { node < length (rows_of edges.now) }
    ensures { IsStage search.now.places.items search.now.stack.items node result }
{
    let Some(place) = search.places[node] else {
        return Stage::New;
    };
    if place < search.stack.len() && search.stack[place] == node {
        Stage::Open(place)
    } else {
        Stage::Closed
    }
}

/// One step of the search: looks at the next edge of the last group, leaves a node with no edge left, or closes the
/// group.
#[inline(always)]
fn step(search: &mut Search, edges: &Rows) -> Result<(), AllocError>
    requires graph { IsGraph (rows_of edges.now) }
    requires grouping { Grouping (rows_of edges.now) search.old }
    requires some { 0 < vec_len search.old.bounds }
    ensures goes_on { OnOk result (GroupsOn (rows_of edges.now) search.old search.new) }
    ensures less { OnOk result (work search.new < work search.old) }
{
    let begin = last_bound(search, edges);
    let Some(place) = place_at_work(search, begin) else {
        close(search, edges, begin);
        return Ok(());
    };
    let Some(next) = next_of(&search.left, edges, node_of(search, edges, place)) else {
        leave(search, edges, place);
        return Ok(());
    };
    match stage_of(search, edges, next) {
        Stage::New => enter(search, edges, next)?,
        Stage::Open(other) => unite_groups(search, edges, place, other),
        Stage::Closed => pass(search, edges, place),
    }
    Ok(())
}

/// Searches until each group is closed.
#[inline(always)]
fn run(search: &mut Search, edges: &Rows) -> Result<(), AllocError>
    requires graph { IsGraph (rows_of edges.now) }
    requires grouping { Grouping (rows_of edges.now) search.old }
    ensures goes_on { OnOk result (GroupsOn (rows_of edges.now) search.old search.new) }
    ensures empty { OnOk result (search.new.stack.items ≡ []) }
{
    while !search.bounds.is_empty() {
        step(search, edges)?;
    }
    Ok(())
}

/// Searches all that the root leads to, if it was not met yet.
#[inline(always)]
fn visit(search: &mut Search, edges: &Rows, root: usize) -> Result<(), AllocError>
    requires graph { IsGraph (rows_of edges.now) }
    requires within { root < length (rows_of edges.now) }
    requires grouping { Grouping (rows_of edges.now) search.old }
    requires empty { search.old.stack.items ≡ [] }
    ensures goes_on { OnOk result (GroupsOn (rows_of edges.now) search.old search.new) }
    ensures now_empty { OnOk result (search.new.stack.items ≡ []) }
    ensures met { OnOk result (place_of search.new.places.items root ≢ None) }
{
    if search.places[root].is_none() {
        enter(search, edges, root)?;
        run(search, edges)?;
    }
    Ok(())
}

/// Searches along all edges. Then the least node that comes back to itself is known, and where there is none, each edge
/// leads to a lower rank.
pub(crate) fn search_all(alloc: Global, edges: &Rows) -> Result<Search, AllocError>
    requires { IsGraph (rows_of edges.now) }
    ensures least { IfOk result (λ s. MatchOption s.least (HasNoLoop (rows_of edges.now))
        (IsFirstLoop (rows_of edges.now))) }
    ensures ranked { IfOk result (λ s. HasNoLoop (rows_of edges.now)
        → IsRanking (rows_of edges.now) s.ranks.items) }
{
    let mut search = begin(alloc, edges)?;
    for root in 0..edges.len() {
        visit(&mut search, edges, root)?;
    }
    Ok(search)
}
