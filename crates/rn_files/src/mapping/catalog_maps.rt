// The entries of catalogs as maps, in the order in which they are looked at.
ghost use Rattle.std.specs.Prelude.{◌≡◌, IfOk, string_bytes};
ghost use Rattle.rn_files.specs.inside.CatalogEntries.{part_of};
ghost use Rattle.rn_files.specs.Escapes.{escaped_reference};

use super::locations::locate;
use super::maps::{Map, MapPlace, MapTarget, UriPart};
use crate::opening::root_folder::up_to_last_slash;
use crate::references::escapes::escape;
use crate::references::uri_references::{ReferenceFault, resolve};
use rn_catalog::{Catalog, CatalogEntry, EntryKind};
use std::alloc::{AllocError, Global};

/// The kinds of entries for URIs, in the order in which they are looked at (XML Catalogs 1.1, 7.2.2).
static URI_KINDS: [EntryKind; 4] = [
    EntryKind::Uri,
    EntryKind::RewriteUri,
    EntryKind::UriSuffix,
    EntryKind::DelegateUri,
];

/// The kinds of entries for system identifiers, in the order in which they are looked at (XML Catalogs 1.1, 7.1.2).
static SYSTEM_KINDS: [EntryKind; 4] = [
    EntryKind::System,
    EntryKind::RewriteSystem,
    EntryKind::SystemSuffix,
    EntryKind::DelegateSystem,
];

/// Groups of maps: what catalogs say of URIs, and what they say of system identifiers.
#[derive(Drop)]
pub struct CatalogMaps {
    uris: Vec<Vec<Map>>,
    identifiers: Vec<Vec<Map>>,
}

impl CatalogMaps {
    /// What no catalogs say.
    pub fn new(alloc: Global) -> CatalogMaps {
        CatalogMaps {
            uris: Vec::new(alloc),
            identifiers: Vec::new(alloc),
        }
    }

    /// Adds what a catalog says that has this URI, and these bases.
    pub fn add(
        &mut self,
        alloc: Global,
        uri: &str,
        bases: &[String],
        catalog: &Catalog,
    ) -> Result<(), AllocError> {
        for kind in URI_KINDS {
            self.uris
                .push(maps_of_kind(alloc, uri, bases, catalog, kind)?)?;
        }
        for kind in SYSTEM_KINDS {
            self.identifiers
                .push(maps_of_kind(alloc, uri, bases, catalog, kind)?)?;
        }
        Ok(())
    }

    /// The groups, those of URIs first.
    pub fn into_groups(self) -> Result<Vec<Vec<Map>>, AllocError> {
        let CatalogMaps { uris, identifiers } = self;
        let mut groups = uris;
        for group in identifiers {
            groups.push(group)?;
        }
        Ok(groups)
    }
}

/// The maps that the entries of one kind are.
fn maps_of_kind(
    alloc: Global,
    uri: &str,
    bases: &[String],
    catalog: &Catalog,
    kind: EntryKind,
) -> Result<Vec<Map>, AllocError> {
    let mut maps = Vec::new(alloc);
    for entry in &catalog.entries {
        if entry.kind == kind {
            maps.push(map_of(alloc, uri, bases, entry)?)?;
        }
    }
    Ok(maps)
}

/// The part of a URI that an entry of this kind is for.
fn part_of(kind: EntryKind) -> UriPart
    ensures { result ≡ part_of kind }
{
    match kind {
        EntryKind::Uri | EntryKind::System | EntryKind::NextCatalog => UriPart::Whole,
        EntryKind::UriSuffix | EntryKind::SystemSuffix => UriPart::End,
        EntryKind::RewriteUri
        | EntryKind::RewriteSystem
        | EntryKind::DelegateUri
        | EntryKind::DelegateSystem => UriPart::Front,
    }
}

/// The map that an entry is. Its key is escaped, as a reference is (XML Catalogs 1.1, 6.3).
fn map_of(
    alloc: Global,
    uri: &str,
    bases: &[String],
    entry: &CatalogEntry,
) -> Result<Map, AllocError>
    ensures part { IfOk result (λ m. m.part ≡ part_of entry.now.kind) }
    ensures text { IfOk result (λ m.
        string_bytes m.text ≡ escaped_reference (string_bytes entry.now.key)) }
{
    let led = entry_uri(alloc, uri, bases, entry)?;
    let target = match entry.kind {
        EntryKind::DelegateUri | EntryKind::DelegateSystem => MapTarget::Delegated(led),
        _ => target_at(alloc, led)?,
    };
    Ok(Map {
        part: part_of(entry.kind),
        text: escape(alloc, entry.key.as_str())?,
        target,
    })
}

/// Where a URI leads: to what lies in the folder of the path of a `file` URI, and begins as its last segment.
fn target_at(alloc: Global, uri: String) -> Result<MapTarget, AllocError> {
    match locate(alloc, &[], uri.as_str()) {
        Ok(place) => {
            let path = place.path.as_str();
            let folder = up_to_last_slash(path);
            Ok(MapTarget::Files(MapPlace {
                folder: String::from_str(alloc, folder)?,
                stem: String::from_str(alloc, path.strip_prefix(folder).unwrap_or(path))?,
            }))
        }
        Err(ReferenceFault::Memory) => Err(AllocError),
        Err(_) => Ok(MapTarget::Elsewhere(uri)),
    }
}

/// The base of a number, or the catalog's own URI.
fn base_at<'b>(uri: &'b str, bases: &'b [String], number: Option<usize>) -> &'b str {
    match number.and_then(|number| bases.get(number)) {
        Some(base) => base.as_str(),
        None => uri,
    }
}

/// The target URI of a reference; the reference itself where it has none.
fn resolved(alloc: Global, base: &str, reference: &str) -> Result<String, AllocError> {
    match resolve(alloc, base, reference) {
        Ok(uri) => Ok(uri),
        Err(ReferenceFault::Memory) => Err(AllocError),
        Err(_) => String::from_str(alloc, reference),
    }
}

/// The bases of a catalog that has this URI (XML Base), by their numbers.
pub fn absolute_bases(
    alloc: Global,
    uri: &str,
    catalog: &Catalog,
) -> Result<Vec<String>, AllocError> {
    let mut bases: Vec<String> = Vec::new(alloc);
    for base in &catalog.bases {
        let outer = base_at(uri, bases.as_slice(), base.outer);
        let absolute = resolved(alloc, outer, base.reference.as_str())?;
        bases.push(absolute)?;
    }
    Ok(bases)
}

/// The URI that an entry names.
pub fn entry_uri(
    alloc: Global,
    uri: &str,
    bases: &[String],
    entry: &CatalogEntry,
) -> Result<String, AllocError> {
    resolved(
        alloc,
        base_at(uri, bases, entry.base),
        entry.target.as_str(),
    )
}
