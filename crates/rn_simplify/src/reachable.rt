// The definitions that are reached through canonical forms (RELAX NG 2001, 4.19).
ghost use Rattle.std.specs.Prelude.{◌≡◌, ◌∷◌, [], IfOk, IsPermutation, OnOk, bytes_eq, drop, length, map};
ghost use Rattle.std.specs.List.{IsDistinct};
ghost use Rattle.std.specs.List.Sorted.{IsStrictlySortedBy};
ghost use Rattle.std.specs.Slice.Iter.{iter_rest};
ghost use Rattle.rn_graph.specs.Graph.{is_marked, rows_of};
ghost use Rattle.rn_assemble.specs.GrammarView.{definitions_view};
ghost use Rattle.rn_pattern.specs.Reached.{IsPruned};
ghost use Rattle.rn_pattern.specs.View.{pattern_view};
ghost use Rattle.rn_text.specs.Texts.{text_cmp};
ghost use Rattle.rn_simplify.specs.inside.DefinitionNumbers.{MarksReached, reference_numbers, rows_by};
ghost use Rattle.rn_simplify.specs.inside.MarkedElements.{marked_elements};

use crate::references::add_references;
use rn_assemble::Definitions;
use rn_graph::Rows;
use rn_graph::graph::reached_nodes;
use rn_pattern::Pattern;
use std::alloc::{AllocError, Global};

/// The forms that the start reaches, in the order of their names. All forms have the definitions' names, in order.
pub(crate) fn reached_forms(
    alloc: Global,
    definitions: &Definitions,
    start: &Pattern,
    mut forms: Vec<(String, Pattern)>,
) -> Result<Vec<(String, Pattern)>, AllocError>
    requires named { map (λ d. d.0) (definitions_view forms.items)
        ≡ map (λ d. d.0) (definitions_view definitions.now.entries) }
    requires distinct { IsDistinct bytes_eq (map (λ d. d.0) (definitions_view forms.items)) }
    ensures { IfOk result (λ defs. IsPruned
        (record { start = pattern_view start.now; definitions = definitions_view forms.items })
        (record { start = pattern_view start.now; definitions = definitions_view defs.items })) }
{
    let is_reached = mark_reached(alloc, definitions, start, &forms)?;
    keep_marked(&mut forms, &is_reached);
    sort_by_name(&mut forms)?;
    Ok(forms)
}

/// For each form, whether the start reaches it.
fn mark_reached(
    alloc: Global,
    definitions: &Definitions,
    start: &Pattern,
    forms: &[(String, Pattern)],
) -> Result<Vec<bool>, AllocError>
    requires { map (λ d. d.0) (definitions_view forms.now)
        ≡ map (λ d. d.0) (definitions_view definitions.now.entries) }
    ensures size { IfOk result (λ marks. length marks.items ≡ length forms.now) }
    ensures reached { IfOk result (λ marks. MarksReached
        (record { start = pattern_view start.now; definitions = definitions_view forms.now })
        marks.items) }
{
    let rows = references_of_forms(alloc, definitions, forms)?;
    let first = references_of(alloc, definitions, start)?;
    reached_nodes(alloc, &rows, first.row(0))
}

/// The references of each form: the adjacency lists of a graph of the definitions.
fn references_of_forms(
    alloc: Global,
    definitions: &Definitions,
    forms: &[(String, Pattern)],
) -> Result<Rows, AllocError>
    ensures { IfOk result (λ rows. rows_of rows
        ≡ rows_by (definitions_view definitions.now.entries) (definitions_view forms.now)) }
{
    let mut rows = Rows::with_capacity(alloc, forms.len())?;
    for (_, form) in forms {
        add_references(&mut rows, definitions, form)?;
        rows.end_row()?;
    }
    Ok(rows)
}

/// A graph of one node: the references of a pattern.
fn references_of(
    alloc: Global,
    definitions: &Definitions,
    pattern: &Pattern,
) -> Result<Rows, AllocError>
    ensures { IfOk result (λ rows. rows_of rows ≡ reference_numbers
        (definitions_view definitions.now.entries) (pattern_view pattern.now) ∷ []) }
{
    let mut rows = Rows::new(alloc);
    add_references(&mut rows, definitions, pattern)?;
    rows.end_row()?;
    Ok(rows)
}

/// Puts forms whose names differ in the order of their names.
fn sort_by_name(forms: &mut Vec<(String, Pattern)>) -> Result<(), AllocError>
    ensures moved { IsPermutation forms.old.items forms.new.items }
    ensures rising { OnOk result
        (IsDistinct bytes_eq (map (λ d. d.0) (definitions_view forms.new.items))
        → IsStrictlySortedBy text_cmp (map (λ d. d.0) (definitions_view forms.new.items))) }
{
    forms.sort_by(|a: &(String, Pattern), b: &(String, Pattern)| a.0.cmp(&b.0))
}

/// Removes the forms that are not marked.
fn keep_marked(forms: &mut Vec<(String, Pattern)>, marks: &[bool])
    ensures { forms.new.items ≡ marked_elements marks.now forms.old.items }
{
    let mut marks = marks.iter();
    forms.retain(
        move |_|
            ensures is { result ≡ is_marked (iter_rest marks.entry) 0 }
            ensures rest { iter_rest marks.exit ≡ drop 1 (iter_rest marks.entry) }
        { marks.next().copied().unwrap_or(false) },
    );
}
