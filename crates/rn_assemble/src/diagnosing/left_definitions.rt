// The definitions that are left in a set, in the order in which they are combined (RELAX NG 2001, 4.7 and 4.17).
ghost use Rattle.std.specs.Prelude.{◌≤◌, length};
ghost use Rattle.std.specs.List.{AllByRecursion};
ghost use Rattle.rn_assemble.specs.declared.including.pieces.Piece as code_piece;
ghost use Rattle.rn_assemble.specs.inside.Pieces.{AreKnown};

use super::places::{ComponentPlace, LeftDefinition};
use crate::including::pieces::Piece;
use crate::including::segments::Segments;
use crate::reading::key_rows::{KeyRows, WrittenComponent};
use crate::reading::keys::KeyId;
use std::alloc::{AllocError, Global};

/// A definition that is left, behind the first segment that has it.
#[derive(Clone, Copy)]
struct FirstOccurrence {
    segment: usize,
    definition: LeftDefinition,
}

/// The definitions that are left, each once, in the order in which they first come to the set.
pub(crate) fn left_definitions(
    alloc: Global,
    rows: &KeyRows<'_>,
    segments: &Segments<'_, '_, '_>,
) -> Result<Vec<LeftDefinition>, AllocError>
    requires { AreKnown rows.now segments.now }
{
    let mut firsts = Vec::new(alloc);
    let mut pieces = Vec::new(alloc);
    for number in 0..rows.len() {
        let key = KeyId(number);
        let row = rows.row(key);
        segments.live_pieces(row, &mut pieces)?;
        push_first_occurrences(alloc, key, row, &pieces, &mut firsts)?;
    }
    firsts.sort_by_key(|first: &FirstOccurrence| (
        first.segment,
        first.definition.component.number,
    ))?;
    let mut definitions = Vec::with_capacity(alloc, firsts.len())?;
    for first in &firsts {
        definitions.push(first.definition)?;
    }
    Ok(definitions)
}

/// Adds the components of these pieces, each behind the first segment that has it.
fn push_first_occurrences(
    alloc: Global,
    key: KeyId,
    row: &[WrittenComponent<'_>],
    pieces: &[Piece],
    firsts: &mut Vec<FirstOccurrence>,
) -> Result<(), AllocError>
    requires { AllByRecursion (λ (p : code_piece.Piece). (p.from ≤ p.to) × (p.to ≤ length row.now))
        pieces.now }
{
    let mut is_met = vec![in alloc; false; row.len()]?;
    for piece in pieces {
        push_unmet(key, row, piece, &mut is_met, firsts)?;
    }
    Ok(())
}

/// Adds the components of a piece that weren't met before, and notes that they were met.
fn push_unmet(
    key: KeyId,
    row: &[WrittenComponent<'_>],
    piece: &Piece,
    is_met: &mut [bool],
    firsts: &mut Vec<FirstOccurrence>,
) -> Result<(), AllocError>
    requires within { piece.now.to ≤ length row.now }
    requires marks { piece.now.to ≤ length is_met.old }
{
    for index in piece.from..piece.to {
        if !is_met[index] {
            is_met[index] = true;
            firsts.push(FirstOccurrence {
                segment: piece.segment,
                definition: LeftDefinition {
                    key,
                    component: ComponentPlace::of(&row[index]),
                },
            })?;
        }
    }
    Ok(())
}
