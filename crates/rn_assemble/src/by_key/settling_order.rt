// The order in which keys, and the definitions of a grammar, can be settled (RELAX NG 2001, 4.19).
ghost use Rattle.std.specs.Prelude.{ℕ, ◌<◌, ◌≡◌, IfOk, List, length, map, nat_eq, slice_index_or};
ghost use Rattle.std.specs.List.Sorted.{IsStrictlySortedBy};
ghost use Rattle.rn_text.specs.Texts.{Text, text_cmp};
ghost use Rattle.rn_graph.specs.Graph.{IsGraph, rows_of};
ghost use Rattle.rn_graph.specs.Ranks.{rank_of};
ghost use Rattle.rn_assemble.specs.Components.{Component, NamedModule};
ghost use Rattle.rn_assemble.specs.declared.reading.keys.KeyId.{KeyId};
ghost use Rattle.rn_assemble.specs.inside.FirstPlaces.{AreFirstPlaces};
ghost use Rattle.rn_assemble.specs.inside.Pieces.{AreKnown, OfRows};
ghost use Rattle.rn_assemble.specs.inside.Rows.{AreRows};
ghost use Rattle.rn_assemble.specs.inside.Segments.{AreSegmentsOf};
ghost use Rattle.rn_assemble.specs.inside.ReferenceOrder.{AreDefinedKeys, ArePlaces, IsKeyOrder, IsOrderBy, IsReferenceOrder};
ghost use Rattle.rn_assemble.specs.inside.Referred.{AreAllReferences};
ghost use Rattle.std.specs.List.{AllByRecursion, IsDistinct};
ghost use Rattle.rn_assemble.specs.Combine.{joined_grammar};
ghost use Rattle.rn_assemble.specs.SettlingOrder.{IsSettlingOrder};
ghost use Rattle.rn_assemble.specs.inside.Views.{key_numbers, names_of};

use crate::including::segments::Segments;
use crate::reading::key_rows::KeyRows;
use crate::reading::keys::{KeyId, Keys, START};
use rn_graph::graph::{marked_rows, reached_nodes};
use rn_graph::ranks::{Order, ranks};
use rn_pattern::ReferenceRows;
use std::alloc::{AllocError, Global};

/// An order of keys, or what stands against one.
#[derive(Drop)]
pub(crate) enum KeyOrder {
    /// The keys that start reaches, each behind those that it refers to outside elements.
    Ordered(Vec<KeyId>),
    /// The least key that start reaches and that comes back to itself by references outside elements.
    Recursive(KeyId),
}

/// The keys that start reaches in an order in which each comes after those that it refers to outside elements, or the
/// least that comes back to itself by such references.
pub(crate) fn key_order(alloc: Global, references: &ReferenceRows) -> Result<KeyOrder, AllocError>
    requires everywhere { IsGraph (rows_of references.now.everywhere) }
    requires some { 0 < length (rows_of references.now.everywhere) }
    requires outside { IsGraph (rows_of references.now.outside) }
    requires size { length (rows_of references.now.outside)
        ≡ length (rows_of references.now.everywhere) }
    ensures { (names : List Text) (cs : List Component) → IsStrictlySortedBy text_cmp names
        → AreAllReferences names cs (rows_of references.now.everywhere)
        (rows_of references.now.outside) → IfOk result (IsKeyOrder names cs) }
{
    let first = references.everywhere.row(START.0);
    let reached = reached_nodes(alloc, &references.everywhere, first)?;
    let reached = reached.as_slice();
    let outside = marked_rows(alloc, &references.outside, reached)?;
    match ranks(alloc, &outside)? {
        Order::Ranked(ranks) => {
            let order = marked_in_order(alloc, reached, ranks.as_slice())?;
            Ok(KeyOrder::Ordered(order))
        }
        Order::Looped(key) => Ok(KeyOrder::Recursive(KeyId(key))),
    }
}

/// The keys that have a mark, by the ranks of these.
fn marked_in_order(alloc: Global, marks: &[bool], ranks: &[usize]) -> Result<Vec<KeyId>, AllocError>
    ensures { IfOk result (λ v. IsOrderBy marks.now (rank_of ranks.now) (key_numbers v.items)) }
{
    let mut order = marked_keys(alloc, marks)?;
    order.sort_by_key(|key: &KeyId| ranks.get(key.0).copied().unwrap_or(0))?;
    Ok(order)
}

/// The keys that have a mark.
fn marked_keys(alloc: Global, marks: &[bool]) -> Result<Vec<KeyId>, AllocError>
    ensures { IfOk result (λ v. ArePlaces marks.now (key_numbers v.items)) }
{
    let mut keys = Vec::new(alloc);
    for number in 0..marks.len() {
        if marks[number] {
            keys.push(KeyId(number))?;
        }
    }
    Ok(keys)
}

/// The order in which the definitions that components are joined to can be settled: the indices of definitions in that
/// of their keys, which is given. `defined` are the keys of all definitions.
pub(crate) fn settling_order(
    alloc: Global,
    keys: &Keys<'_>,
    defined: &[KeyId],
    order: &[KeyId],
) -> Result<Vec<usize>, AllocError>
    ensures { (cs : List Component) → IsStrictlySortedBy text_cmp (names_of keys.now)
        → AreDefinedKeys (names_of keys.now) cs (key_numbers defined.now)
        → IsReferenceOrder (names_of keys.now) cs (key_numbers order.now)
        → IfOk result (λ s. IsSettlingOrder (joined_grammar cs) s.items) }
{
    let numbers = definition_numbers(alloc, keys.len(), defined)?;
    numbers_of(alloc, order, &numbers)
}

/// The key of a name, and where its first component stands: in which segment, and with which number there.
#[derive(Clone, Copy)]
struct FirstPlace {
    segment: usize,
    number: usize,
    key: KeyId,
}

/// The keys of the names that the components define, in the order of each one's first component.
pub(crate) fn defined_keys(
    alloc: Global,
    rows: &KeyRows<'_>,
    segments: &Segments<'_, '_, '_>,
) -> Result<Vec<KeyId>, AllocError>
    requires { AreKnown rows.now segments.now }
    ensures { OfRows rows.now segments.now
        (λ names cs. IfOk result (λ v. AreDefinedKeys names cs (key_numbers v.items))) }
{
    let mut places = first_places(alloc, rows, segments)?;
    places.sort_by_key(|place: &FirstPlace| (place.segment, place.number))?;
    let mut keys = Vec::with_capacity(alloc, places.len())?;
    for place in &places {
        keys.push(place.key)?;
    }
    Ok(keys)
}

/// Where the first component of each name stands that has one.
fn first_places(
    alloc: Global,
    rows: &KeyRows<'_>,
    segments: &Segments<'_, '_, '_>,
) -> Result<Vec<FirstPlace>, AllocError>
    requires { AreKnown rows.now segments.now }
    ensures { (modules : List NamedModule) (names : List Text) (cs : List Component)
        → IsStrictlySortedBy text_cmp names → AreRows modules names rows.now.rows.items
        → AreSegmentsOf modules segments.now cs
        → IfOk result (λ v. AreFirstPlaces modules segments.now names cs v.items) }
{
    let mut places = Vec::with_capacity(alloc, rows.len())?;
    let mut pieces = Vec::new(alloc);
    for number in START.0 + 1..rows.len() {
        let row = rows.row(KeyId(number));
        segments.live_pieces(row, &mut pieces)?;
        if let Some(first) = pieces.first() {
            places.push(FirstPlace {
                segment: first.segment,
                number: row[first.from].number,
                key: KeyId(number),
            })?;
        }
    }
    Ok(places)
}

/// For each of that many keys, the index of it among the defined ones; 0 for those that aren't among them.
pub(crate) fn definition_numbers(
    alloc: Global,
    count: usize,
    defined: &[KeyId],
) -> Result<Vec<usize>, AllocError>
    ensures { IsDistinct nat_eq (key_numbers defined.now)
        → AllByRecursion (λ k. k < count) (key_numbers defined.now)
        → IfOk result (λ v. (i : ℕ) → i < length (key_numbers defined.now)
        → slice_index_or v.items (slice_index_or (key_numbers defined.now) i 0) 0 ≡ i) }
{
    let mut numbers = vec![in alloc; 0; count]?;
    for number in 0..defined.len() {
        let key = defined[number];
        if key.0 < numbers.len() {
            numbers[key.0] = number;
        }
    }
    Ok(numbers)
}

/// The number of each of the keys.
fn numbers_of(alloc: Global, keys: &[KeyId], numbers: &[usize]) -> Result<Vec<usize>, AllocError>
    ensures { IfOk result (λ v. v.items
        ≡ map (λ (k : KeyId). slice_index_or numbers.now k.0 0) keys.now) }
{
    let mut found = Vec::with_capacity(alloc, keys.len())?;
    for key in keys {
        found.push(numbers.get(key.0).copied().unwrap_or(0))?;
    }
    Ok(found)
}
