// The names of the modules of all files, and what is wrong with them.

use super::walk::{Entry, FoundBy, Walk};
use crate::module_names::module_name;
use crate::opening::root_folder::{RootFolder, common_folder};
use crate::source_faults::{LinkFault, SourceFault};
use rn_modset::MAX_NAME;
use std::alloc::{AllocError, Global};
use std::collections::BTreeSet;

/// What a module's name is made from: the path below the root folder, or the URI where a map found the file.
fn unescaped_name<'e>(entry: &'e Entry, root: &str) -> &'e str {
    let path = entry.found.spelled.as_str();
    match entry.found.by {
        FoundBy::Input => path,
        FoundBy::Map => entry.found.uri.as_str(),
        FoundBy::Path => path.strip_prefix(root).unwrap_or(path),
    }
}

/// The name of a file's module; what is wrong with it is kept.
fn name_of(
    alloc: Global,
    entry: &Entry,
    root: &str,
    used: &mut BTreeSet<String>,
    faults: &mut Vec<SourceFault>,
) -> Result<String, AllocError> {
    let place = entry.place;
    let name = module_name(alloc, unescaped_name(entry, root))?;
    if name.len() > MAX_NAME {
        faults.push(SourceFault::untried(alloc, place, LinkFault::Name))?;
    }
    if !used.insert(name.clone()?)? {
        faults.push(SourceFault::untried(alloc, place, LinkFault::Twice))?;
    }
    Ok(name)
}

/// The names of all modules; what is wrong with them is kept.
fn names_of(
    alloc: Global,
    entries: &[Entry],
    root: &str,
    faults: &mut Vec<SourceFault>,
) -> Result<Vec<String>, AllocError> {
    let mut used = BTreeSet::new(alloc);
    let mut names = Vec::new(alloc);
    for entry in entries {
        names.push(name_of(alloc, entry, root, &mut used, faults)?)?;
    }
    Ok(names)
}

/// The root folder where none is given: the deepest one that holds all files which no map found.
fn deepest_folder(alloc: Global, entries: &[Entry]) -> Result<String, AllocError> {
    let mut paths = Vec::new(alloc);
    for entry in entries {
        if entry.found.by == FoundBy::Path {
            paths.push(entry.found.spelled.as_str())?;
        }
    }
    String::from_str(alloc, common_folder(paths.as_slice()))
}

/// Names all files, by their paths below the root folder.
pub fn name_files(
    alloc: Global,
    folder: Option<RootFolder>,
    walk: &mut Walk,
) -> Result<Vec<String>, AllocError> {
    let root = match folder {
        Some(folder) => folder.real,
        None => deepest_folder(alloc, walk.entries.as_slice())?,
    };
    names_of(
        alloc,
        walk.entries.as_slice(),
        root.as_str(),
        &mut walk.faults,
    )
}
