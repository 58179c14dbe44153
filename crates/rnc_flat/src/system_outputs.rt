// The files of the system, as they are written.
use rn_flat::{Outputs, WriteFault};
use std::fs::{File, Metadata, OpenOptions, Permissions};
use std::io::{ErrorKind, Write};
use std::os::unix::fs::{MetadataExt, PermissionsExt};
use std::{fs, io, process};

/// How many names are tried for a file beside another.
const ATTEMPTS: usize = 100;

/// The bits of a mode that say who may read, write and run a file.
const PERMISSIONS: u32 = 0o777;

/// The files of the system, as they are written.
#[derive(Drop)]
pub struct SystemOutputs<'a> {
    /// What asks the system.
    pub rt: &'a HostRuntime,
}

impl Outputs for SystemOutputs<'_> {
    fn replace(&mut self, path: &str, bytes: &[u8]) -> Result<(), WriteFault> {
        write_whole(self.rt, path, bytes).map_err(|error| fault_of(&error))
    }
}

/// Why the system takes no bytes.
pub fn fault_of(error: &io::Error) -> WriteFault {
    match error.kind() {
        ErrorKind::PermissionDenied => WriteFault::Denied,
        ErrorKind::NotFound => WriteFault::Missing,
        ErrorKind::IsADirectory => WriteFault::Folder,
        ErrorKind::NotADirectory => WriteFault::Inner,
        ErrorKind::StorageFull | ErrorKind::QuotaExceeded => WriteFault::Full,
        ErrorKind::ReadOnlyFilesystem => WriteFault::ReadOnly,
        ErrorKind::BrokenPipe => WriteFault::Closed,
        _ => WriteFault::Refused,
    }
}

/// A regular file or a new path gets these bytes whole or not at all. A link is followed; one that leads nowhere is
/// refused, and so is a file that may not be written. Anything else, as a terminal or a pipe, is written to, and may
/// hold a front after an error.
fn write_whole(rt: &HostRuntime, path: &str, bytes: &[u8]) -> io::Result<()> {
    let Ok(metadata) = fs::metadata(rt, path) else {
        return write_new(rt, path, bytes);
    };
    let mut opened = OpenOptions::new().write(true).open(rt, path)?;
    if metadata.is_file() {
        let former = opened.metadata()?;
        let real = fs::canonicalize(rt, path)?;
        return write_beside(rt, real.as_path().as_str(), bytes, Some(former));
    }
    opened.write_all(bytes)
}

/// Writes the bytes to a path at which there is nothing, not even a link.
fn write_new(rt: &HostRuntime, path: &str, bytes: &[u8]) -> io::Result<()> {
    if fs::symlink_metadata(rt, path).is_ok() {
        return Err(io::Error::from(ErrorKind::NotFound));
    }
    write_beside(rt, path, bytes, None)
}

/// Writes the bytes to a new file beside the one at the path, which then takes its place.
fn write_beside(
    rt: &HostRuntime,
    path: &str,
    bytes: &[u8],
    former: Option<Metadata>,
) -> io::Result<()> {
    let (beside, mut file) = new_beside(rt, path)?;
    let written = fill(&mut file, bytes, former);
    let done = written.and_then(|()| fs::rename(rt, beside.as_str(), path));
    if done.is_err() {
        let _ = fs::remove_file(rt, beside.as_str());
    }
    done
}

/// Writes the bytes to a new file, and sees that the disk has them. Who might use the former file may use this one; what
/// else its mode says is not kept, since the file may have another owner.
fn fill(file: &mut File, bytes: &[u8], former: Option<Metadata>) -> io::Result<()> {
    if let Some(metadata) = former {
        file.set_permissions(Permissions::from_mode(metadata.mode() & PERMISSIONS))?;
    }
    file.write_all(bytes)?;
    file.sync_all()
}

/// A path up to its last slash, and with it; nothing where it has no slash.
fn folder_of(path: &str) -> &str {
    match path.rfind('/') {
        Some(at) => &path[..at + 1],
        None => "",
    }
}

/// A new file in the folder of a path, and its path: `.rnc-flat-PROCESS-ATTEMPT.new`.
fn new_beside(rt: &HostRuntime, path: &str) -> io::Result<(String, File)> {
    let process = process::id(rt.process());
    let folder = folder_of(path);
    for attempt in 0..ATTEMPTS {
        let beside = format!(in rt.alloc(); "{folder}.rnc-flat-{process}-{attempt}.new")?;
        match File::create_new(rt, beside.as_str()) {
            Ok(file) => return Ok((beside, file)),
            Err(error) if error.kind() == ErrorKind::AlreadyExists => {}
            Err(error) => return Err(error),
        }
    }
    Err(io::Error::from(ErrorKind::AlreadyExists))
}
