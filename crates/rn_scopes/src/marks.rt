// Marks on numbered nodes, and how they spread along edges.

use std::alloc::{AllocError, Global};

/// Whether the node of a number is marked. Where there is no such node, none is.
pub(crate) fn is_marked(marks: &[bool], number: usize) -> bool {
    marks.get(number).copied().unwrap_or(false)
}

/// The nodes that are marked, in order.
pub(crate) fn marked_nodes(alloc: Global, marks: &[bool]) -> Result<Vec<usize>, AllocError> {
    let mut marked = Vec::new(alloc);
    for (number, is_marked) in marks.iter().enumerate() {
        if *is_marked {
            marked.push(number)?;
        }
    }
    Ok(marked)
}

/// The marks, with all nodes marked that edges lead to from those that wait. An edge to no node is passed over:
/// `reached_nodes` of rn_pattern asks for a proof that there is none, which units of any outlines don't give.
pub(crate) fn spread(
    mut marks: Vec<bool>,
    mut waiting: Vec<usize>,
    rows: &[Vec<usize>],
) -> Result<Vec<bool>, AllocError> {
    for _ in 0..marks.len() {
        let Some(node) = waiting.pop() else {
            break;
        };
        if let Some(row) = rows.get(node) {
            mark_row(&mut marks, &mut waiting, row.as_slice())?;
        }
    }
    Ok(marks)
}

/// Marks the nodes of an adjacency list; those that were not marked wait.
pub(crate) fn mark_row(
    marks: &mut Vec<bool>,
    waiting: &mut Vec<usize>,
    row: &[usize],
) -> Result<(), AllocError> {
    for node in row {
        if let Some(mark) = marks.get_mut(*node) {
            if !*mark {
                *mark = true;
                waiting.push(*node)?;
            }
        }
    }
    Ok(())
}
