// Catalogs as they are read, one after the other: their entries as maps.

use super::catalog_maps::{CatalogMaps, absolute_bases, entry_uri};
use super::locations::locate;
use super::maps::Map;
use crate::opening::file_texts::MAX_TEXT;
use crate::opening::files::{FileFault, Files, Kinds};
use crate::opening::shown_paths::shown_path;
use crate::source_faults::{FaultPlace, LinkFault, SourceFault, SourceFaultKind, Tried};
use crate::sources::{Attempt, XmlSource};
use crate::walking::following::word_uri;
use crate::walking::source_reading::{Reading, ReadingFault};
use crate::walking::walk::MAX_SOURCES;
use rn_catalog::{Catalog, CatalogFault, CatalogFaultKind, EntryKind, read_catalog};
use rn_xml::{Undecoded, decode};
use std::alloc::{AllocError, Global};
use std::collections::BTreeMap;

/// A catalog that is to be read.
#[derive(Drop)]
struct NamedCatalog {
    /// Its path, by which it is looked up.
    path: String,
    /// The path as it is told to people.
    shown: String,
    /// Its URI.
    uri: String,
    /// The number of the catalog that names it, and the byte of the text of that; `None` where a word does.
    by: Option<(usize, usize)>,
}

/// A catalog that was read.
#[derive(Drop)]
struct ReadCatalog {
    path: String,
    shown: String,
    text: String,
    by: Option<usize>,
}

/// The catalogs that were read so far, and those that are to be read.
#[derive(Drop)]
struct CatalogWalk {
    /// In the order in which they were read.
    read: Vec<ReadCatalog>,
    /// Of each real path of a catalog its number.
    numbers: BTreeMap<String, usize>,
    /// The next one is the last.
    named: Vec<NamedCatalog>,
    /// What their entries say.
    maps: CatalogMaps,
}

/// A fault of what names a catalog: at its place in another one, or of a word.
fn named_fault(
    alloc: Global,
    walk: &CatalogWalk,
    named: &NamedCatalog,
    kind: SourceFaultKind,
) -> Result<ReadingFault, AllocError> {
    if let Some((number, at)) = named.by {
        if let Some(catalog) = walk.read.get(number) {
            return fault_in(alloc, catalog, at, kind);
        }
    }
    let place = FaultPlace::Catalogs;
    Ok(ReadingFault::Faults(Reading {
        files: Vec::new(alloc),
        faults: vec![in alloc; SourceFault { place, kind }]?,
    }))
}

/// A fault at a byte of a catalog that was read.
fn fault_in(
    alloc: Global,
    catalog: &ReadCatalog,
    at: usize,
    kind: SourceFaultKind,
) -> Result<ReadingFault, AllocError> {
    faulty_catalog(
        alloc,
        catalog.shown.as_str(),
        catalog.text.clone()?,
        at,
        kind,
    )
}

/// A catalog that is at fault at a byte of its text.
fn faulty_catalog(
    alloc: Global,
    shown: &str,
    text: String,
    at: usize,
    kind: SourceFaultKind,
) -> Result<ReadingFault, AllocError> {
    let catalog = Attempt {
        name: String::from_str(alloc, shown)?,
        shown: String::from_str(alloc, shown)?,
        text: String::new(alloc),
        written: Some(XmlSource {
            text,
            origins: None,
        }),
    };
    let place = FaultPlace::Text { file: 0, at };
    Ok(ReadingFault::Faults(Reading {
        files: vec![in alloc; catalog]?,
        faults: vec![in alloc; SourceFault { place, kind }]?,
    }))
}

/// The fault of a catalog that can't be read.
fn file_fault(
    alloc: Global,
    walk: &CatalogWalk,
    named: &NamedCatalog,
    fault: FileFault,
) -> Result<ReadingFault, AllocError> {
    if fault == FileFault::Memory {
        return Err(AllocError);
    }
    let kind = SourceFaultKind::Link {
        fault: LinkFault::File(fault),
        tried: Tried::at(named.shown.clone()?),
    };
    named_fault(alloc, walk, named, kind)
}

/// Whether a real path is that of a catalog which led to this one, by further catalogs.
fn is_around(walk: &CatalogWalk, by: Option<(usize, usize)>, real: &str) -> bool {
    let mut around = by.map(|(number, _)| number);
    for _ in 0..MAX_SOURCES {
        let Some(catalog) = around.and_then(|number| walk.read.get(number)) else {
            return false;
        };
        if catalog.path.as_str() == real {
            return true;
        }
        around = catalog.by;
    }
    false
}

/// The text of the bytes of a catalog.
fn text_of_catalog(
    alloc: Global,
    named: &NamedCatalog,
    bytes: &[u8],
) -> Result<String, ReadingFault> {
    match decode(alloc, bytes) {
        Ok(text) => Ok(text),
        Err(Undecoded { text, fault }) => {
            Err(text_fault(alloc, named, text, CatalogFault::from(fault))?)
        }
    }
}

/// The fault of a text.
fn text_fault(
    alloc: Global,
    named: &NamedCatalog,
    text: String,
    fault: CatalogFault,
) -> Result<ReadingFault, AllocError> {
    let CatalogFault { at, kind } = fault;
    if kind == CatalogFaultKind::Memory {
        return Err(AllocError);
    }
    let kind = SourceFaultKind::Catalog(kind);
    faulty_catalog(alloc, named.shown.as_str(), text, at, kind)
}

/// The bytes of a catalog at a real path.
fn bytes_of<F: Files>(alloc: Global, files: &F, real: &str) -> Result<Vec<u8>, FileFault> {
    let opened = files.read(alloc, real, Kinds::Regular)?;
    if opened.bytes.len() > MAX_TEXT {
        return Err(FileFault::Large);
    }
    Ok(opened.bytes)
}

/// Reads the catalog that is named, if it wasn't read before. Those that it names are to be read next, in their order.
fn read_named<F: Files>(
    alloc: Global,
    files: &F,
    current: &str,
    walk: &mut CatalogWalk,
    named: NamedCatalog,
) -> Result<(), ReadingFault> {
    let real = match files.real_path(alloc, named.path.as_str(), Kinds::Regular) {
        Ok(real) => real,
        Err(fault) => return Err(file_fault(alloc, walk, &named, fault)?),
    };
    if is_around(walk, named.by, real.as_str()) {
        return Err(named_fault(alloc, walk, &named, SourceFaultKind::CatalogLoop)?);
    }
    if walk.numbers.get(real.as_str()).is_some() {
        return Ok(());
    }
    if walk.read.len() >= MAX_SOURCES {
        return Err(named_fault(alloc, walk, &named, SourceFaultKind::ManyCatalogs)?);
    }
    let bytes = match bytes_of(alloc, files, real.as_str()) {
        Ok(bytes) => bytes,
        Err(fault) => return Err(file_fault(alloc, walk, &named, fault)?),
    };
    let text = text_of_catalog(alloc, &named, bytes.as_slice())?;
    match read_catalog(alloc, text.as_str()) {
        Ok(catalog) => take_catalog(alloc, current, walk, named, real, text, &catalog),
        Err(fault) => Err(text_fault(alloc, &named, text, fault)?),
    }
}

/// Takes in the entries of a catalog.
fn take_catalog(
    alloc: Global,
    current: &str,
    walk: &mut CatalogWalk,
    named: NamedCatalog,
    real: String,
    text: String,
    catalog: &Catalog,
) -> Result<(), ReadingFault> {
    let NamedCatalog { shown, uri, by, .. } = named;
    let number = walk.read.len();
    walk.numbers.insert(real.clone()?, number)?;
    walk.read.push(ReadCatalog {
        path: real,
        shown,
        text,
        by: by.map(|(number, _)| number),
    })?;
    let bases = absolute_bases(alloc, uri.as_str(), catalog)?;
    walk.maps
        .add(alloc, uri.as_str(), bases.as_slice(), catalog)?;
    for entry in catalog.entries.iter().rev() {
        if entry.kind == EntryKind::NextCatalog {
            let next = entry_uri(alloc, uri.as_str(), bases.as_slice(), entry)?;
            let named = next_catalog(alloc, current, walk, number, entry.at, next)?;
            walk.named.push(named)?;
        }
    }
    Ok(())
}

/// The catalog at a URI that another one names. Refused where it is no file's.
fn next_catalog(
    alloc: Global,
    current: &str,
    walk: &CatalogWalk,
    number: usize,
    at: usize,
    uri: String,
) -> Result<NamedCatalog, ReadingFault> {
    match locate(alloc, &[], uri.as_str()) {
        Ok(place) => Ok(NamedCatalog {
            shown: match walk.read.get(number) {
                Some(catalog) if !catalog.shown.starts_with('/') => {
                    shown_path(alloc, current, place.path.as_str())?
                }
                _ => place.path.clone()?,
            },
            path: place.path,
            uri,
            by: Some((number, at)),
        }),
        Err(_) => match walk.read.get(number) {
            Some(catalog) => {
                Err(fault_in(alloc, catalog, at, SourceFaultKind::FarCatalog(uri))?)
            }
            None => Err(ReadingFault::Memory),
        },
    }
}

/// Reads all that is named, until nothing is left.
fn read_all<F: Files>(
    alloc: Global,
    files: &F,
    current: &str,
    walk: &mut CatalogWalk,
) -> Result<(), ReadingFault> {
    for _ in 0..u64::MAX {
        let Some(named) = walk.named.pop() else {
            break;
        };
        read_named(alloc, files, current, walk, named)?;
    }
    Ok(())
}

/// The catalogs that words name, each with the further ones that it names, as groups of maps for
/// [`Asked::maps`](crate::Asked): a URI is looked for in each catalog in turn, first its own entries and then those of the
/// catalogs that it names (XML Catalogs 1.1, 7.2.2). What no catalog knows as a URI is looked for once more as a system
/// identifier (7.1.2). Each catalog is read once.
///
/// Refused, at the first, are catalogs that can't be read, or aren't regular files; texts that are no catalogs; one that
/// leads back to itself by `nextCatalog`, a `nextCatalog` that leads to no file, and more than
/// [`MAX_SOURCES`](crate::MAX_SOURCES) catalogs. Where an entry leads is not looked at here.
pub fn read_catalogs<F: Files>(
    alloc: Global,
    files: &F,
    words: &[String],
) -> Result<Vec<Vec<Map>>, ReadingFault> {
    let current = match files.real_path(alloc, ".", Kinds::Any) {
        Ok(current) => current,
        Err(FileFault::Memory) => return Err(ReadingFault::Memory),
        Err(_) => String::from_str(alloc, "/")?,
    };
    let mut walk = CatalogWalk {
        read: Vec::new(alloc),
        numbers: BTreeMap::new(alloc),
        named: Vec::new(alloc),
        maps: CatalogMaps::new(alloc),
    };
    for word in words.iter().rev() {
        walk.named.push(NamedCatalog {
            path: word.clone()?,
            shown: word.clone()?,
            uri: word_uri(alloc, current.as_str(), word.as_str())?,
            by: None,
        })?;
    }
    read_all(alloc, files, current.as_str(), &mut walk)?;
    Ok(walk.maps.into_groups()?)
}
