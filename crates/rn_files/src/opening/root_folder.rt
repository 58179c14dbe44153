// Folders: the root folder that is asked for, and the deepest one that holds all files.
ghost use Rattle.std.specs.Prelude.{◌≡◌, IfOk, string_bytes};
ghost use Rattle.rn_files.specs.ReadableFiles.{with_slash};

use super::files::{FileFault, Files, Kinds};
use crate::mapping::maps::ends_with_slash;
use std::alloc::{AllocError, Global};

/// The folder below which files must lie.
#[derive(Debug, Drop)]
pub struct RootFolder {
    /// The real path of the folder, with a slash at its end.
    pub real: String,
    /// The path as the folder was asked for, from the current folder, with a slash at its end.
    pub spelled: String,
}

/// The real path of a folder. What is there and is none is the fault `NoFolder`.
pub fn real_folder<F: Files>(alloc: Global, files: &F, named: &str) -> Result<String, FileFault>
    ensures { IfOk result (λ real. F.leads files.now named.now (string_bytes real)) }
{
    match files.real_path(alloc, named, Kinds::Regular) {
        Err(FileFault::Folder) => files.real_path(alloc, named, Kinds::Any),
        Ok(_) | Err(FileFault::Special) => Err(FileFault::NoFolder),
        Err(fault) => Err(fault),
    }
}

/// A path of a folder with a slash at its end.
pub fn with_slash(path: String) -> Result<String, AllocError>
    ensures { IfOk result (λ found. string_bytes found ≡ with_slash (string_bytes path)) }
{
    let mut path = path;
    if !ends_with_slash(path.as_str()) {
        path.push_str("/")?;
    }
    Ok(path)
}

/// A path up to its last slash, and with it; nothing where it has no slash.
pub fn up_to_last_slash(path: &str) -> &str {
    match path.rfind('/') {
        Some(at) => &path[..at + 1],
        None => "",
    }
}

/// The folder that a folder lies in, where both end in a slash.
fn outer_folder(folder: &str) -> &str {
    up_to_last_slash(folder.strip_suffix('/').unwrap_or(folder))
}

/// The deepest folder that has both the path and all of the folder in it.
pub fn shared_folder<'p>(folder: &'p str, path: &str) -> &'p str {
    let mut shared = folder;
    for _ in 0..folder.len() {
        if path.starts_with(shared) {
            break;
        }
        shared = outer_folder(shared);
    }
    shared
}

/// The deepest folder that holds all files, with its last slash; nothing where there are none.
pub fn common_folder<'p>(paths: &[&'p str]) -> &'p str {
    let [first, others @ ..] = paths else {
        return "";
    };
    let mut folder = up_to_last_slash(first);
    for path in others {
        folder = shared_folder(folder, path);
    }
    folder
}
