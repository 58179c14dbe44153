// Where a loop of definitions is that refer to each other outside elements (RELAX NG 2001, 4.19).
ghost use Rattle.std.specs.Prelude.{length};
ghost use Rattle.rn_graph.specs.Graph.{AllBelow};
ghost use Rattle.rn_assemble.specs.inside.Pieces.{AreKnownBy, IsKnownRow};
ghost use Rattle.rn_assemble.specs.inside.Views.{names_of};

use super::places::ComponentPlace;
use crate::by_key::references::{Reference, live_marks, refer, reference_rows};
use crate::by_key::settling_order::defined_keys;
use crate::including::segments::Segments;
use crate::reading::key_rows::{KeyRows, WrittenComponent};
use crate::reading::keys::{KeyId, Keys};
use rn_graph::loops::shortest_loop;
use rn_pattern::Reach;
use std::alloc::{AllocError, Global};

/// A shortest loop that comes back to the name: of each key that is passed, the first definition that refers to the next
/// one. Nothing where there is no loop.
pub(crate) fn loop_of<'s>(
    alloc: Global,
    keys: &Keys<'s>,
    rows: &KeyRows<'s>,
    segments: &Segments<'_, '_, '_>,
    name: &str,
) -> Result<Vec<ComponentPlace>, AllocError>
    requires { AreKnownBy (names_of keys.now) rows.now segments.now }
{
    let Some(key) = keys.find(name) else {
        return Ok(Vec::new(alloc));
    };
    let defined = defined_keys(alloc, rows, segments)?;
    let (references, _) = reference_rows(alloc, keys, rows, segments, &defined)?;
    match shortest_loop(alloc, &references.outside, key.0)? {
        Some(passed) => places_along(alloc, keys, rows, segments, &passed),
        None => Ok(Vec::new(alloc)),
    }
}

/// Of each of these keys, the first definition that refers to the next one; of the last one, to the first.
fn places_along(
    alloc: Global,
    keys: &Keys<'_>,
    rows: &KeyRows<'_>,
    segments: &Segments<'_, '_, '_>,
    passed: &[usize],
) -> Result<Vec<ComponentPlace>, AllocError>
    requires known { AreKnownBy (names_of keys.now) rows.now segments.now }
    requires within { AllBelow (length rows.now.rows.items) passed.now }
{
    let mut places = Vec::new(alloc);
    for at in 0..passed.len() {
        let next = if at + 1 < passed.len() {
            passed[at + 1]
        } else {
            passed[0]
        };
        let name = keys.name(KeyId(next));
        let row = rows.row(KeyId(passed[at]));
        if let Some(component) = first_referring(alloc, row, segments, name)? {
            places.push(component)?;
        }
    }
    Ok(places)
}

/// The first component of a row that is left and refers to the name outside elements.
fn first_referring(
    alloc: Global,
    row: &[WrittenComponent<'_>],
    segments: &Segments<'_, '_, '_>,
    name: &str,
) -> Result<Option<ComponentPlace>, AllocError>
    requires { IsKnownRow row.now segments.now }
{
    let mut pieces = Vec::new(alloc);
    segments.live_pieces(row, &mut pieces)?;
    let is_live = live_marks(alloc, row.len(), &pieces)?;
    for index in 0..row.len() {
        if is_live[index] && refers_outside(alloc, &row[index], name)? {
            return Ok(Some(ComponentPlace::of(&row[index])));
        }
    }
    Ok(None)
}

/// Whether a component refers to the name outside elements.
fn refers_outside(
    alloc: Global,
    component: &WrittenComponent<'_>,
    name: &str,
) -> Result<bool, AllocError> {
    let mut references = Vec::new(alloc);
    refer(&component.body, Reach::OutsideElements, &mut references)?;
    Ok(
        references.iter().any(|one: &Reference<'_>| one.reach == Reach::OutsideElements
            && one.name == name),
    )
}
