// Where the definitions of a schema are in the files, in the order in which they are combined.
use super::cursor::Cursor;
use super::sites::{Sites, sites_of};
use crate::finding::findings::diagnosis_of;
use crate::report::Spot;
use rn_assemble::ComponentPlace;
use rn_files::{Position, SourceFile};
use rn_lift::Lifted;
use rn_modset::ModuleSet;
use std::alloc::{AllocError, Global};

/// A definition that takes part in a schema: no include overrides it (RELAX NG 2001, 4.7).
#[derive(Debug, Drop, PartialEq, Eq)]
pub struct DefinitionPlace {
    /// The name that the schema has for it; nothing for the start.
    pub key: String,
    /// The name as the file writes it, without a backslash; nothing for the start.
    pub written: String,
    /// Where the file writes the name, or the word `start`.
    pub spot: Spot,
    /// The line and the column of that place.
    pub position: Position,
}

/// The definitions that take part in the schema of the modules, whose set is given too: each place once for each name
/// that it has there, in the order in which they are combined (RELAX NG 2001, 4.17), as they stand in the texts, with what
/// is included in place of the include. None of a set that is refused for its texts or includes.
pub fn definition_places(
    alloc: Global,
    files: &[SourceFile],
    lifted: &Lifted,
    set: &ModuleSet,
) -> Result<Vec<DefinitionPlace>, AllocError> {
    let mut places = Vec::new(alloc);
    let sites = sites_of(alloc, lifted)?;
    if let Some(diagnosis) = diagnosis_of(alloc, set, None)? {
        for definition in &diagnosis.definitions {
            let key = diagnosis.name(definition.key);
            push_place(alloc, &sites, key, definition.component, &mut places)?;
        }
    }
    find_positions(alloc, files, &mut places)?;
    Ok(places)
}

/// Adds where a definition of a key is, with its line and column still to be found.
fn push_place(
    alloc: Global,
    sites: &Sites<'_>,
    key: &str,
    component: ComponentPlace,
    places: &mut Vec<DefinitionPlace>,
) -> Result<(), AllocError> {
    let site = sites.definition(component);
    if let Some(spot) = site.and_then(|site| sites.spot(site)) {
        places.push(DefinitionPlace {
            key: String::from_str(alloc, key)?,
            written: String::from_str(alloc, sites.lifted.written_name(key))?,
            spot,
            position: Position { line: 1, column: 1 },
        })?;
    }
    Ok(())
}

/// What is written in a file.
fn written_text(file: &SourceFile) -> &str {
    match &file.written {
        Some(written) => written.text.as_str(),
        None => file.text.as_str(),
    }
}

/// The byte of what is written for which a byte of the text stands.
fn written_byte(file: &SourceFile, at: usize) -> usize {
    match &file.written {
        Some(written) => written.origin(at),
        None => at,
    }
}

/// Finds the lines and the columns of places, in one walk over each file.
fn find_positions(
    alloc: Global,
    files: &[SourceFile],
    places: &mut Vec<DefinitionPlace>,
) -> Result<(), AllocError> {
    let mut order: Vec<(usize, usize, usize)> = Vec::new(alloc);
    for (number, place) in places.iter().enumerate() {
        let Spot { file, at } = place.spot;
        let at = files.get(file).map_or(at, |file| written_byte(file, at));
        order.push((file, at, number))?;
    }
    order.sort()?;
    let mut walked = None;
    let mut cursor = Cursor::new("");
    for (file, at, number) in order {
        if walked != Some(file) {
            cursor = Cursor::new(files.get(file).map_or("", written_text));
            walked = Some(file);
        }
        if let Some(place) = places.get_mut(number) {
            place.position = cursor.go_to(at);
        }
    }
    Ok(())
}
