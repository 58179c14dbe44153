// Lines that tell where definitions are: those that the start doesn't reach, and those of each name of the schema.
use crate::unreached::unreached_names;
use rn_assemble::Grammar;
use rn_files::{Position, SourceFile};
use rn_lift::Lifted;
use rn_modset::ModuleSet;
use rn_outline::{FilePartKind, name_in, read_outline};
use rn_report::{DefinitionPlace, definition_places, push_printable};
use rn_text::{is_keyword, tokens};
use std::alloc::{AllocError, Global};
use std::collections::BTreeSet;

/// An unused definition, in the order in which they are told: by the names of the files' modules and by the texts.
#[derive(Clone, Copy, PartialEq, Eq, PartialOrd, Ord)]
struct UnusedDefinition<'v> {
    module: &'v str,
    at: usize,
    file: usize,
    line: usize,
    column: usize,
    written: &'v str,
}

/// A byte of a file, as places are compared.
fn byte_of(place: &DefinitionPlace) -> (usize, usize) {
    (place.spot.file, place.spot.at)
}

/// A line for each definition that the start doesn't reach: `FILE:LINE:COLUMN: NAME`, in the order of the names of the
/// files' modules and of their texts. A definition that has several names, as its file is used in several ways, is told
/// where the start reaches none of them. Those that an include overrides are not told.
pub fn unused_text(
    alloc: Global,
    grammar: &Grammar,
    lifted: &Lifted,
    set: &ModuleSet,
    files: &[SourceFile],
) -> Result<String, AllocError> {
    let unreached = unreached_names(alloc, grammar)?;
    if unreached.is_empty() {
        return Ok(String::new(alloc));
    }
    let places = definition_places(alloc, files, lifted, set)?;
    unused_lines(alloc, unreached, places.as_slice(), files)
}

/// The lines of those definitions that have these names alone.
fn unused_lines(
    alloc: Global,
    names: Vec<String>,
    places: &[DefinitionPlace],
    files: &[SourceFile],
) -> Result<String, AllocError> {
    let mut unreached = BTreeSet::new(alloc);
    for name in names {
        unreached.insert(name)?;
    }
    let mut lines = String::new(alloc);
    for one in unused_definitions(alloc, &unreached, places, files)? {
        let position = Position {
            line: one.line,
            column: one.column,
        };
        push_place(alloc, &mut lines, files, one.file, position)?;
        lines.push_str(": ")?;
        lines.push_str(one.written)?;
        lines.push_str("\n")?;
    }
    Ok(lines)
}

/// The definitions of which all names are among these, each once, in the order in which they are told.
fn unused_definitions<'v>(
    alloc: Global,
    unreached: &BTreeSet<String>,
    places: &'v [DefinitionPlace],
    files: &'v [SourceFile],
) -> Result<Vec<UnusedDefinition<'v>>, AllocError> {
    let used = used_bytes(alloc, unreached, places)?;
    let mut unused = Vec::new(alloc);
    for place in places {
        if !used.contains(&byte_of(place)) {
            unused.push(UnusedDefinition {
                module: files
                    .get(place.spot.file)
                    .map_or("", |file| file.name.as_str()),
                at: place.spot.at,
                file: place.spot.file,
                line: place.position.line,
                column: place.position.column,
                written: place.written.as_str(),
            })?;
        }
    }
    unused.sort()?;
    unused.dedup();
    Ok(unused)
}

/// Where the definitions are of names that are not among these.
fn used_bytes(
    alloc: Global,
    unreached: &BTreeSet<String>,
    places: &[DefinitionPlace],
) -> Result<BTreeSet<(usize, usize)>, AllocError> {
    let mut used = BTreeSet::new(alloc);
    for place in places {
        if !unreached.contains(place.key.as_str()) {
            used.insert(byte_of(place))?;
        }
    }
    Ok(used)
}

/// Appends a place as `FILE:LINE:COLUMN`, as messages show it.
fn push_place(
    alloc: Global,
    lines: &mut String,
    files: &[SourceFile],
    file: usize,
    position: Position,
) -> Result<(), AllocError> {
    let Position { line, column } = position;
    push_printable(
        lines,
        files.get(file).map_or("-", |file| file.shown.as_str()),
    )?;
    lines.push_str(format!(in alloc; ":{line}:{column}")?.as_str())
}

/// For each name of the schema a line for each of its definitions: the name as the schema writes it, and
/// `FILE:LINE:COLUMN`. The names are in the order of the schema, the definitions of one in that in which they are
/// combined (RELAX NG 2001, 4.17).
pub fn origins_text(
    alloc: Global,
    schema: &str,
    lifted: &Lifted,
    set: &ModuleSet,
    files: &[SourceFile],
) -> Result<String, AllocError> {
    let mut places = definition_places(alloc, files, lifted, set)?;
    places.sort_by(|one, other| one.key.as_str().cmp(other.key.as_str()))?;
    let mut lines = String::new(alloc);
    for name in printed_names(alloc, schema)? {
        let places = places_of(places.as_slice(), name.as_str());
        push_origins(alloc, &mut lines, name.as_str(), places, files)?;
    }
    Ok(lines)
}

/// The definitions of a name among those that are sorted by names.
fn places_of<'p>(places: &'p [DefinitionPlace], name: &str) -> &'p [DefinitionPlace] {
    let from = places.partition_point(|place| place.key.as_str() < name);
    let to = places.partition_point(|place| place.key.as_str() <= name);
    places.get(from..to).unwrap_or(&[])
}

/// The names that a schema defines, in its order; nothing for the start.
fn printed_names(alloc: Global, schema: &str) -> Result<Vec<String>, AllocError> {
    let mut names = Vec::new(alloc);
    // a printed schema is a text of the language, so only memory can be wanting
    let tokens = tokens(alloc, schema.as_bytes()).map_err(|_| AllocError)?;
    let outline = read_outline(alloc, schema, tokens.as_slice()).map_err(|_| AllocError)?;
    for part in &outline.parts {
        match &part.kind {
            FilePartKind::Start { .. } => names.push(String::new(alloc))?,
            FilePartKind::Define { name, .. } => {
                names.push(String::from_str(alloc, name_in(schema, *name))?)?;
            }
            _ => {}
        }
    }
    Ok(names)
}

/// Appends the lines of a name, one for each place.
fn push_origins(
    alloc: Global,
    lines: &mut String,
    name: &str,
    places: &[DefinitionPlace],
    files: &[SourceFile],
) -> Result<(), AllocError> {
    let mut told = BTreeSet::new(alloc);
    for place in places {
        if told.insert(byte_of(place))? {
            push_name(lines, name)?;
            lines.push_str(" ")?;
            push_place(alloc, lines, files, place.spot.file, place.position)?;
            lines.push_str("\n")?;
        }
    }
    Ok(())
}

/// Appends a name as a schema writes it: behind a backslash where it is a keyword.
fn push_name(lines: &mut String, name: &str) -> Result<(), AllocError> {
    if name.is_empty() {
        return lines.push_str("start");
    }
    if is_keyword(name) {
        lines.push_str("\\")?;
    }
    lines.push_str(name)
}
