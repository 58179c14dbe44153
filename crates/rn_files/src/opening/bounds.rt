// Which files may be read where a root folder is given, and what messages say of the others.
ghost use Rattle.std.specs.Prelude.{◌≡◌, IfOk, is_some, string_bytes, true};
ghost use Rattle.rn_files.specs.ReadableFiles.{LiesInMap, MayBeRead, lies_in};
ghost use Rattle.rn_files.specs.inside.Following.{root_path};

use super::files::{FileFault, Files, Kinds, STANDARD_INPUT};
use super::root_folder::{RootFolder, with_slash};
use crate::mapping::maps::{Map, behind_prefix, found_folder};
use crate::walking::walk::{FoundBy, FoundFile};
use std::alloc::{AllocError, Global};

/// Where files are looked for.
#[derive(Clone, Copy)]
pub struct Ways<'a> {
    /// Where URIs lie, in groups: each counts where those before it don't know a URI.
    pub maps: &'a [Vec<Map>],
    /// The real path of the current folder.
    pub current: &'a str,
    /// The root folder, if one is given.
    pub root: Option<&'a RootFolder>,
    /// The path of the file that standard input is read in place of, if one is given.
    pub input: Option<&'a str>,
}

/// Whether a path is that of a folder, or goes on behind it by whole segments.
fn lies_in(folder: &str, path: &str) -> bool
    ensures { result ≡ lies_in folder.now path.now }
{
    behind_prefix(path, folder).is_some()
}

/// Whether a file lies in the folder of the map that finds a URI. Where that folder isn't there, none does.
fn lies_in_map<F: Files>(
    alloc: Global,
    files: &F,
    maps: &[Vec<Map>],
    uri: &str,
    real: &str,
) -> Result<bool, AllocError>
    ensures { IfOk result (λ lies. lies ≡ true
        → LiesInMap (F.leads files.now) maps.now uri.now real.now) }
{
    let Some(folder) = found_folder(maps, uri) else {
        return Ok(false);
    };
    match files.real_path(alloc, folder, Kinds::Any) {
        Ok(folder) => Ok(lies_in(folder.as_str(), real)),
        Err(FileFault::Memory) => Err(AllocError),
        Err(_) => Ok(false),
    }
}

/// Whether a file that was found may be read, where this is its real path: with a root folder it lies in that, or a map
/// found it and it lies in the folder of the map, or it is standard input.
pub fn may_be_read<F: Files>(
    alloc: Global,
    files: &F,
    ways: &Ways<'_>,
    found: &FoundFile,
    real: &str,
) -> Result<bool, AllocError>
    ensures { IfOk result (λ allowed. allowed ≡ true
        → MayBeRead (F.leads files.now) (root_path ways.now.root) ways.now.maps.now
        (string_bytes found.now.uri) (string_bytes found.now.path) real.now) }
{
    let Some(root) = ways.root else {
        return Ok(true);
    };
    if found.path.as_str() == STANDARD_INPUT || lies_in(root.real.as_str(), real) {
        return Ok(true);
    }
    if found.by != FoundBy::Map {
        return Ok(false);
    }
    lies_in_map(alloc, files, ways.maps, found.uri.as_str(), real)
}

/// Whether a link lies on the way from a folder along the rest of a path.
fn passes_link<F: Files>(
    alloc: Global,
    files: &F,
    folder: &str,
    rest: &str,
) -> Result<bool, AllocError> {
    let mut path = with_slash(String::from_str(alloc, folder)?)?;
    for segment in rest.split('/') {
        path.push_str(segment)?;
        if files.is_link(path.as_str()) {
            return Ok(true);
        }
        path.push_str("/")?;
    }
    Ok(false)
}

/// Whether a path leads out of the root folder, or a link on its way may lead it out.
fn may_leave_root<F: Files>(
    alloc: Global,
    files: &F,
    root: &RootFolder,
    path: &str,
) -> Result<bool, AllocError> {
    if let Some(rest) = path.strip_prefix(root.spelled.as_str()) {
        return passes_link(alloc, files, root.spelled.as_str(), rest);
    }
    if let Some(rest) = path.strip_prefix(root.real.as_str()) {
        return passes_link(alloc, files, root.real.as_str(), rest);
    }
    Ok(true)
}

/// Whether the fault of a reference is hidden that leads from a URI to a path: with a root folder, where it may lead out
/// of that or of the folder of the map that finds it. Then the fault is the same for all, so that nothing outside tells
/// whether it is there.
pub fn is_hidden<F: Files>(
    alloc: Global,
    files: &F,
    ways: &Ways<'_>,
    uri: &str,
    path: &str,
) -> Result<bool, AllocError> {
    let Some(root) = ways.root else {
        return Ok(false);
    };
    match found_folder(ways.maps, uri) {
        Some(folder) => {
            let rest = path.strip_prefix(folder).unwrap_or(path);
            passes_link(alloc, files, folder, rest.strip_prefix('/').unwrap_or(rest))
        }
        None => may_leave_root(alloc, files, root, path),
    }
}
