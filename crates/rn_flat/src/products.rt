// What is made of the modules and the files besides the schema and the bundle: the list and the graph.
use rn_files::{SourceFault, SourceFaultKind, SourceFile};
use rn_lift::{Lifted, LiftedModule};
use rn_outline::FilePartKind;
use rn_report::push_printable;
use std::alloc::{AllocError, Global};
use std::collections::BTreeSet;

/// A line for each module: its name and the file that it comes from, whose path is printed as in messages.
pub fn list_text(
    alloc: Global,
    lifted: &Lifted,
    files: &[SourceFile],
) -> Result<String, AllocError> {
    let mut lines = String::new(alloc);
    for module in lifted.modules.as_slice() {
        lines.push_str(module.name.as_str())?;
        lines.push_str(" ")?;
        push_printable(&mut lines, file_of(module, files))?;
        lines.push_str("\n")?;
    }
    Ok(lines)
}

/// The file that a module comes from.
fn file_of<'a>(module: &LiftedModule, files: &'a [SourceFile]) -> &'a str {
    module
        .origin(0)
        .and_then(|origin| files.get(origin.0))
        .map_or("-", |file| file.shown.as_str())
}

/// The files and what each includes, as a directed graph of Graphviz from left to right, each edge once. What is
/// referred to by `external` is dashed, and a loop that is at fault is red.
pub fn graph_text(
    alloc: Global,
    files: &[SourceFile],
    fault: Option<&SourceFault>,
) -> Result<String, AllocError> {
    let looped = looped_files(fault);
    let mut text = String::from_str(alloc, "digraph schema {\n    rankdir=LR;\n")?;
    for file in files {
        let name = file.name.as_str();
        text.push_str(format!(in alloc; "    \"{name}\";\n")?.as_str())?;
    }
    for (number, file) in files.iter().enumerate() {
        let after = next_on_loop(looped, number);
        push_edges(alloc, &mut text, files, file, after)?;
    }
    text.push_str("}\n")?;
    Ok(text)
}

/// The files of a loop, in order.
fn looped_files(fault: Option<&SourceFault>) -> &[usize] {
    match fault.map(|fault| &fault.kind) {
        Some(SourceFaultKind::Loop(files)) => files.as_slice(),
        _ => &[],
    }
}

/// The file to which a loop goes on from another one.
fn next_on_loop(looped: &[usize], file: usize) -> Option<usize> {
    let at = looped.iter().position(|one| *one == file)?;
    looped.get(at.saturating_add(1)).or(looped.first()).copied()
}

/// What one file refers to.
#[derive(Clone, Copy, PartialEq, Eq, PartialOrd, Ord)]
struct Edge {
    target: usize,
    is_external: bool,
}

/// Appends the edges from one file, each once. The one that leads on along a loop is red.
fn push_edges(
    alloc: Global,
    text: &mut String,
    files: &[SourceFile],
    file: &SourceFile,
    after: Option<usize>,
) -> Result<(), AllocError> {
    let name = file.name.as_str();
    let links = file.outline.links(alloc)?;
    let mut drawn = BTreeSet::new(alloc);
    for (link, target) in links.iter().zip(file.targets.as_slice()) {
        let edge = Edge {
            target: *target,
            is_external: is_external(file, *link),
        };
        let Some(other) = files.get(edge.target) else {
            continue;
        };
        if drawn.insert(edge)? {
            let other = other.name.as_str();
            let style = style(edge, after);
            text.push_str(format!(in alloc; "    \"{name}\" -> \"{other}\"{style};\n")?.as_str())?;
        }
    }
    Ok(())
}

/// Whether a part of a file refers to another file by `external`.
fn is_external(file: &SourceFile, part: usize) -> bool {
    matches!(
        file.outline.parts.get(part).map(|part| &part.kind),
        Some(FilePartKind::External { .. })
    )
}

/// How an edge is drawn.
fn style(edge: Edge, after: Option<usize>) -> &'static str {
    match (edge.is_external, after == Some(edge.target)) {
        (false, false) => "",
        (true, false) => " [style=dashed]",
        (false, true) => " [color=red]",
        (true, true) => " [style=dashed, color=red]",
    }
}
