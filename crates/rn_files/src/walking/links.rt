// What a URI leads to: the file that lies there, or the fault that says why there is none.
ghost use Rattle.std.specs.Prelude.{◌≡◌, IfOk, string_bytes};
ghost use Rattle.rn_files.specs.Maps.{IsLocation};
ghost use Rattle.rn_files.specs.inside.Following.{IsFoundAt};

use super::walk::{FoundBy, FoundFile};
use crate::mapping::locations::{Location, led_elsewhere, locate};
use crate::mapping::maps::Map;
use crate::module_names::module_name;
use crate::opening::bounds::{Ways, is_hidden, may_be_read};
use crate::opening::files::{FileFault, Files, Kinds};
use crate::opening::shown_paths::shown_path;
use crate::references::uri_references::ReferenceFault;
use crate::source_faults::{LinkFault, Tried};
use rn_modset::MAX_NAME;
use std::alloc::{AllocError, Global};

/// How the file at a real path is told to people, where another file refers to it: as a real path where that one is told
/// by a path from the topmost folder, else from the current folder.
fn shown_beside(
    alloc: Global,
    ways: &Ways<'_>,
    from: &FoundFile,
    path: &str,
) -> Result<String, AllocError> {
    if from.shown.starts_with('/') {
        String::from_str(alloc, path)
    } else {
        shown_path(alloc, ways.current, path)
    }
}

/// What was tried for a reference that has a target URI and led to no file.
pub fn tried_place(
    alloc: Global,
    ways: &Ways<'_>,
    from: &FoundFile,
    uri: String,
) -> Result<Tried, AllocError> {
    if let Some(place) = led_elsewhere(alloc, ways.maps, uri.as_str())? {
        let uri = Some(uri);
        return Ok(Tried { uri, place });
    }
    match locate(alloc, ways.maps, uri.as_str()) {
        Ok(leads) => Ok(Tried {
            place: shown_beside(alloc, ways, from, leads.path.as_str())?,
            uri: if leads.is_mapped { Some(uri) } else { None },
        }),
        Err(ReferenceFault::Memory) => Err(AllocError),
        Err(_) => Ok(Tried::at(uri)),
    }
}

/// How a file that a reference led to was found.
fn found_by(leads: &Location) -> FoundBy {
    if leads.is_mapped {
        FoundBy::Map
    } else {
        FoundBy::Path
    }
}

/// Where a URI lies.
fn location(alloc: Global, maps: &[Vec<Map>], uri: &str) -> Result<Location, LinkFault>
    ensures { IfOk result (λ leads.
        IsLocation maps.now uri.now (string_bytes leads.path) leads.is_mapped) }
{
    Ok(locate(alloc, maps, uri)?)
}

/// What the name of a module is made from, as far as its reference says it: the URI that a map finds, or the path below
/// the root folder as it is spelled.
fn spelled_name<'n>(ways: &Ways<'_>, uri: &'n str, leads: &'n Location) -> Option<&'n str> {
    if leads.is_mapped {
        return Some(uri);
    }
    leads.path.strip_prefix(ways.root?.spelled.as_str())
}

/// Refuses a reference whose module would have too long a name, before anything is looked up.
fn check_name(
    alloc: Global,
    ways: &Ways<'_>,
    uri: &str,
    leads: &Location,
) -> Result<(), LinkFault> {
    match spelled_name(ways, uri, leads) {
        Some(spelled) if module_name(alloc, spelled)?.len() > MAX_NAME => Err(LinkFault::Name),
        _ => Ok(()),
    }
}

/// The real path of the file at a place to which a URI leads, which is no pipe, device or socket. Where there is no such
/// file, and the way there may lead out of the folders whose files may be read, that is the fault.
fn real_path<F: Files>(
    alloc: Global,
    files: &F,
    ways: &Ways<'_>,
    uri: &str,
    place: &str,
) -> Result<String, LinkFault>
    ensures { IfOk result (λ path. F.leads files.now place.now (string_bytes path)) }
{
    match files.real_path(alloc, place, Kinds::Regular) {
        Err(fault) if fault != FileFault::Memory && is_hidden(alloc, files, ways, uri, place)? => {
            Err(LinkFault::Outside)
        }
        answer => Ok(answer?),
    }
}

/// The file to which a URI leads that a file refers to, which may be read.
pub fn found_at<F: Files>(
    alloc: Global,
    files: &F,
    ways: &Ways<'_>,
    from: &FoundFile,
    uri: String,
) -> Result<FoundFile, LinkFault>
    ensures uri { IfOk result (λ file. string_bytes file.uri ≡ string_bytes uri) }
    ensures led { IfOk result (λ file. IsFoundAt (F.leads files.now) ways.now.maps.now
        (string_bytes uri) (string_bytes file.path)) }
{
    let leads = location(alloc, ways.maps, uri.as_str())?;
    check_name(alloc, ways, uri.as_str(), &leads)?;
    let path = real_path(alloc, files, ways, uri.as_str(), leads.path.as_str())?;
    let shown = shown_beside(alloc, ways, from, path.as_str())?;
    let by = found_by(&leads);
    let found = FoundFile {
        spelled: path.clone()?,
        path,
        shown,
        uri,
        by,
    };
    if !may_be_read(alloc, files, ways, &found, found.path.as_str())? {
        return Err(LinkFault::Outside);
    }
    Ok(found)
}
