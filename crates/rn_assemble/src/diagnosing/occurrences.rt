// Which components of a key come first: those by fewer includes, and then in the order in which they are combined.
ghost use Rattle.std.specs.Prelude.{◌≡◌, ◌≤◌, IfOk, length};
ghost use Rattle.rn_assemble.specs.inside.Diagnosing.{AddsOccurrences, AreFirstTwo, AreInList, HasBrought, KeepsTwo, meets};
ghost use Rattle.rn_assemble.specs.inside.Pieces.{AreSomePieces};

use super::places::IncludePlace;
use crate::including::pieces::Piece;
use crate::including::segments::Segments;
use crate::reading::key_rows::WrittenComponent;
use rn_syntax::Method;
use std::alloc::{AllocError, Global};

/// A component of a row in one of the segments that have it.
#[derive(Clone, Copy)]
pub(crate) struct Occurrence {
    /// How many includes bring the segment, one inside the other.
    depth: usize,
    /// The place of the segment.
    pub segment: usize,
    /// The index of the component in its row.
    pub index: usize,
}

/// The first two of the components of these pieces that have the method, or of all where none is given; fewer where there
/// are fewer. `depths` has the depth of each segment. A row may come so often that no list has all: memory is for those
/// of one piece.
pub(crate) fn first_two(
    alloc: Global,
    row: &[WrittenComponent<'_>],
    pieces: &[Piece],
    depths: &[usize],
    method: Option<Method>,
) -> Result<Vec<Occurrence>, AllocError>
    requires pieces { AreSomePieces row.now pieces.now }
    requires depths { AreInList (length depths.now) pieces.now }
    ensures { IfOk result (λ found. AreFirstTwo row.now pieces.now (meets method) found.items) }
{
    let mut found = Vec::new(alloc);
    for piece in pieces {
        push_occurrences(row, piece, depths[piece.segment], method, &mut found)?;
        keep_two(&mut found)?;
    }
    Ok(found)
}

/// Leaves the first two.
fn keep_two(found: &mut Vec<Occurrence>) -> Result<(), AllocError>
    ensures { IfOk result (λ _. KeepsTwo found.old.items found.new.items) }
{
    found.sort_by_key(|one: &Occurrence| (one.depth, one.segment, one.index))?;
    found.truncate(2);
    Ok(())
}

/// Adds the components of a piece that have the method, or all where none is given.
fn push_occurrences(
    row: &[WrittenComponent<'_>],
    piece: &Piece,
    depth: usize,
    method: Option<Method>,
    found: &mut Vec<Occurrence>,
) -> Result<(), AllocError>
    requires ordered { piece.now.from ≤ piece.now.to }
    requires within { piece.now.to ≤ length row.now }
    ensures { IfOk result (λ _. AddsOccurrences row.now piece.now (meets method) found.old.items
        found.new.items) }
{
    for index in piece.from..piece.to {
        if has_method(&row[index], method) {
            found.push(Occurrence {
                depth,
                segment: piece.segment,
                index,
            })?;
        }
    }
    Ok(())
}

/// Whether a component has the method, if one is given.
fn has_method(component: &WrittenComponent<'_>, method: Option<Method>) -> bool
    ensures { result ≡ meets method component.now.method }
{
    match method {
        Some(method) => component.method == method,
        None => true,
    }
}

/// How many includes bring each segment, one inside the other.
pub(crate) fn depths_of(
    alloc: Global,
    segments: &Segments<'_, '_, '_>,
) -> Result<Vec<usize>, AllocError>
    requires { HasBrought segments.now }
    ensures { IfOk result (λ depths. length depths.items ≡ length segments.now.list.items) }
{
    let mut depths = vec![in alloc; 0usize; segments.list.len()]?;
    for include in &segments.brought {
        add_one(&mut depths[include.from..include.to]);
    }
    Ok(depths)
}

/// Adds one to each number.
fn add_one(numbers: &mut [usize]) {
    for number in numbers.iter_mut() {
        *number = number.saturating_add(1);
    }
}

/// The two includes at which the ways to two segments part, looked at from the segments outwards; none where one way
/// ends before.
pub(crate) fn parting_includes(
    segments: &Segments<'_, '_, '_>,
    one: usize,
    other: usize,
) -> Option<(IncludePlace, IncludePlace)> {
    let way = |segment: usize| {
        segments
            .brought
            .iter()
            .filter(move |include| include.from <= segment && segment < include.to)
            .map(|include| IncludePlace {
                module: include.module,
                number: include.number,
            })
    };
    way(one).zip(way(other)).find(|(one, other)| one != other)
}
