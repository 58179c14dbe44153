// The files of the system, as they are read.
ghost use Rattle.std.specs.Prelude.{◌≡◌, false};

use rn_files::{FileFault, Files, Kinds, MAX_TEXT, OpenedFile, STANDARD_INPUT};
use rn_merge::{Input, ReadFault, Source, read_input};
use std::alloc::Global;
use std::fs::{File, Metadata};
use std::io::ErrorKind;
use std::os::fd::AsRawFd;
use std::{fs, io};

/// What the system writes behind the path of an opened file that isn't there any more.
const GONE: &str = " (deleted)";

/// The files of the system, as they are read.
#[derive(Drop)]
pub struct System<'a> {
    /// What asks the system.
    pub rt: &'a HostRuntime,
}

impl Files for System<'_> {
    fn real_path(&self, alloc: Global, path: &str, kinds: Kinds) -> Result<String, FileFault> {
        let found = fs::metadata(self.rt, path).map_err(|error| fault_of(&error))?;
        if found.is_file() {
            return file_path(self.rt, alloc, path);
        }
        check_kind(&found, kinds)?;
        match resolved_path(self.rt, alloc, path) {
            // a pipe of a process, such as `/dev/fd/63`, has no other path
            Err(_) if path.starts_with('/') && !found.is_dir() => text(alloc, path),
            answer => answer,
        }
    }

    fn read(&self, alloc: Global, path: &str, kinds: Kinds) -> Result<OpenedFile, FileFault> {
        if path == STANDARD_INPUT {
            let bytes = read_all(alloc, &mut Input::new(self.rt.stdin()))?;
            let path = text(alloc, path)?;
            return Ok(OpenedFile { path, bytes });
        }
        // opening a pipe waits and opening a device acts, so the path is looked at before; what was opened decides
        let found = fs::metadata(self.rt, path).map_err(|error| fault_of(&error))?;
        check_kind(&found, kinds)?;
        let opened = File::open(self.rt, path).map_err(|error| fault_of(&error))?;
        let found = opened.metadata().map_err(|error| fault_of(&error))?;
        check_opened(&found, kinds)?;
        let path = match opened_path(self.rt, alloc, &opened) {
            Ok(real) => real,
            Err(FileFault::Memory) => return Err(FileFault::Memory),
            Err(_) => String::new(alloc),
        };
        let bytes = read_all(alloc, &mut Input::new(opened))?;
        Ok(OpenedFile { path, bytes })
    }

    fn is_link(&self, path: &str) -> bool {
        fs::symlink_metadata(self.rt, path).is_ok_and(|found| found.is_symlink())
    }
}

/// A copy of a text.
fn text(alloc: Global, text: &str) -> Result<String, FileFault> {
    String::from_str(alloc, text).map_err(|_| FileFault::Memory)
}

/// Refuses what is of another kind.
fn check_kind(found: &Metadata, kinds: Kinds) -> Result<(), FileFault> {
    if kinds == Kinds::Any || found.is_file() {
        return Ok(());
    }
    if found.is_dir() {
        Err(FileFault::Folder)
    } else {
        Err(FileFault::Special)
    }
}

/// Refuses what was opened and is of another kind, a folder or too large.
fn check_opened(found: &Metadata, kinds: Kinds) -> Result<(), FileFault> {
    check_kind(found, kinds)?;
    if found.is_dir() {
        return Err(FileFault::Folder);
    }
    if found.len() > MAX_TEXT as u64 {
        return Err(FileFault::Large);
    }
    Ok(())
}

/// The real path of a regular file. The system walks to it once, as it opens it; where it doesn't tell the path of what
/// it opened, or the file is gone, the path is resolved link by link.
fn file_path(rt: &HostRuntime, alloc: Global, path: &str) -> Result<String, FileFault> {
    let opened = File::open(rt, path).map_err(|error| fault_of(&error))?;
    match opened_path(rt, alloc, &opened) {
        Ok(real) if !real.ends_with(GONE) => Ok(real),
        _ => resolved_path(rt, alloc, path),
    }
}

/// The real path of what was opened. What has none, such as a pipe, is a fault.
fn opened_path(rt: &HostRuntime, alloc: Global, opened: &File) -> Result<String, FileFault> {
    let number = opened.as_raw_fd();
    let link = format!(in alloc; "/proc/self/fd/{number}").map_err(|_| FileFault::Memory)?;
    let real = fs::read_link(rt, link.as_str()).map_err(|error| fault_of(&error))?;
    let real = real.as_path().as_str();
    if !real.starts_with('/') {
        return Err(FileFault::Special);
    }
    text(alloc, real)
}

/// The real path of a file or a folder, as each of its links is followed.
fn resolved_path(rt: &HostRuntime, alloc: Global, path: &str) -> Result<String, FileFault> {
    let real = fs::canonicalize(rt, path).map_err(|error| fault_of(&error))?;
    text(alloc, real.as_path().as_str())
}

/// All bytes of a source, which are few enough.
fn read_all<S: Source>(alloc: Global, source: &mut S) -> Result<Vec<u8>, FileFault>
    requires fresh { S.has_failed source.old ≡ false }
    requires unended { S.has_ended source.old ≡ false }
{
    match read_input(alloc, source, MAX_TEXT) {
        Ok(bytes) => Ok(bytes),
        Err(ReadFault::Read) => Err(FileFault::Refused),
        Err(ReadFault::Large) => Err(FileFault::Large),
        Err(ReadFault::Memory) => Err(FileFault::Memory),
    }
}

/// Why the system gives no file.
fn fault_of(error: &io::Error) -> FileFault {
    match error.kind() {
        ErrorKind::NotFound => FileFault::Missing,
        ErrorKind::IsADirectory => FileFault::Folder,
        ErrorKind::PermissionDenied => FileFault::Denied,
        ErrorKind::FilesystemLoop => FileFault::Links,
        ErrorKind::NotADirectory => FileFault::Inner,
        ErrorKind::OutOfMemory => FileFault::Memory,
        _ => FileFault::Refused,
    }
}
