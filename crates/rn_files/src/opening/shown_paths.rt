// How paths are told to people: from the current folder, or as real paths.
ghost use Rattle.std.specs.Prelude.{◌≡◌, ◌++◌, IfOk, string_bytes};
ghost use Rattle.rn_files.specs.inside.ShownPaths.{IsShownFrom, climbs};

use super::root_folder::{shared_folder, with_slash};
use std::alloc::{AllocError, Global};

/// The folder in which all files are.
const TOP: &str = "/";

/// A real path as it is told to people who are in the current folder: relative to that folder, with `../` for each folder
/// that it leads out of. A path that shares only the topmost folder with the current one, or is relative, stays as it is.
pub fn shown_path(alloc: Global, current: &str, path: &str) -> Result<String, AllocError>
    ensures { IfOk result (λ shown. IsShownFrom current.now path.now (string_bytes shown)) }
{
    let current = with_slash(String::from_str(alloc, current)?)?;
    let folder = shared_folder(current.as_str(), path);
    match (
        current.as_str().strip_prefix(folder),
        path.strip_prefix(folder),
    ) {
        (Some(outside), Some(rest))
            if !folder.is_empty() && (folder != TOP || outside.is_empty()) => {
            relative_path(alloc, outside, rest)
        }
        _ => String::from_str(alloc, path),
    }
}

/// The path that leads out of these folders, and then along the rest.
fn relative_path(alloc: Global, outside: &str, rest: &str) -> Result<String, AllocError>
    ensures { IfOk result (λ shown. string_bytes shown ≡ climbs outside.now ++ rest.now) }
{
    let mut shown = String::new(alloc);
    for byte in outside.as_bytes() {
        if *byte == b'/' {
            shown.push_str("../")?;
        }
    }
    shown.push_str(rest)?;
    Ok(shown)
}
