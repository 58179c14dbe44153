// Files in memory.
ghost use Rattle.std.specs.Prelude.{◌≡◌, IfOk, string_bytes};
ghost use Rattle.std.specs.BTreeMap.{get_by_text};
ghost use Rattle.std.specs.List.{before_last};
ghost use Rattle.rn_files.specs.Paths.{is_slash};
ghost use Rattle.rn_files.specs.MemoryFiles.{IsFileOf};

use super::file_texts::MAX_TEXT;
use super::files::{FileFault, Files, Kinds, OpenedFile};
use std::alloc::{AllocError, Global};
use std::collections::BTreeMap;

/// What is at a path.
#[derive(Debug, Drop)]
pub enum MemoryEntry {
    /// A file of these bytes.
    File(Vec<u8>),
    /// A pipe that has these bytes.
    Pipe(Vec<u8>),
    /// A link to the file or folder at this real path.
    Link(String),
    /// A file that is looked up as one of its own; once it is opened, the file at this real path is in its place.
    Swapped(String),
}

/// Files and links in memory, by their paths, and a current folder. A folder is there where something lies in it.
/// Standard input is the file at `-`.
#[derive(Debug, Drop)]
pub struct MemoryFiles {
    current: String,
    entries: BTreeMap<String, MemoryEntry>,
}

/// The fault of a refused request for memory.
fn no_memory(_: AllocError) -> FileFault {
    FileFault::Memory
}

/// Cuts the last segment off, with the slash before it.
fn remove_last(path: &mut String)
    ensures { string_bytes path.new ≡ before_last is_slash (string_bytes path.old) }
{
    match path.as_str().rfind('/') {
        Some(at) => path.truncate(at),
        None => path.clear(),
    }
}

impl MemoryFiles {
    /// No files. The current folder is a real path.
    pub fn new(alloc: Global, current: &str) -> Result<MemoryFiles, AllocError> {
        Ok(MemoryFiles {
            current: String::from_str(alloc, current)?,
            entries: BTreeMap::new(alloc),
        })
    }

    /// Puts a file at a real path, in place of what was there. After an error what was there stays.
    pub fn add_file(&mut self, alloc: Global, path: &str, bytes: &[u8]) -> Result<(), AllocError> {
        let path = String::from_str(alloc, path)?;
        let bytes = bytes.to_vec(alloc)?;
        self.entries.insert(path, MemoryEntry::File(bytes))?;
        Ok(())
    }

    /// Puts a pipe at a real path, in place of what was there. Refused only where memory runs out: then what was there
    /// stays.
    pub fn add_pipe(&mut self, alloc: Global, path: &str, bytes: &[u8]) -> Result<(), AllocError> {
        let path = String::from_str(alloc, path)?;
        let bytes = bytes.to_vec(alloc)?;
        self.entries.insert(path, MemoryEntry::Pipe(bytes))?;
        Ok(())
    }

    /// Puts a link to a real path at a real path, in place of what was there. After an error what was there stays.
    pub fn add_link(&mut self, alloc: Global, path: &str, target: &str) -> Result<(), AllocError> {
        let path = String::from_str(alloc, path)?;
        let target = String::from_str(alloc, target)?;
        self.entries.insert(path, MemoryEntry::Link(target))?;
        Ok(())
    }

    /// Puts a file at a real path, in place of what was there, which is swapped for the one at another real path as soon
    /// as it was looked up. Refused only where memory runs out: then what was there stays.
    pub fn add_swapped(
        &mut self,
        alloc: Global,
        path: &str,
        target: &str,
    ) -> Result<(), AllocError> {
        let path = String::from_str(alloc, path)?;
        let target = String::from_str(alloc, target)?;
        self.entries.insert(path, MemoryEntry::Swapped(target))?;
        Ok(())
    }

    /// Goes on from a real path by a segment.
    fn enter(&self, path: &mut String, segment: &str) -> Result<(), AllocError> {
        match segment {
            "" | "." => Ok(()),
            ".." => {
                remove_last(path);
                Ok(())
            }
            name => {
                path.push_str("/")?;
                path.push_str(name)?;
                self.follow(path)
            }
        }
    }

    /// Goes from a link to where it leads.
    fn follow(&self, path: &mut String) -> Result<(), AllocError> {
        if let Some(MemoryEntry::Link(target)) = self.entries.get(path.as_str()) {
            path.clear();
            path.push_str(target.as_str())?;
        }
        Ok(())
    }

    /// Whether something lies in the folder.
    fn is_folder(&self, path: &str) -> bool {
        self.entries.keys().any(|key| match key.strip_prefix(path) {
            Some(rest) => rest.starts_with('/'),
            None => false,
        })
    }

    /// Refuses a real path at which nothing is, or what is of another kind.
    fn check_kind(&self, real: &str, kinds: Kinds) -> Result<(), FileFault> {
        let is_regular = kinds == Kinds::Regular;
        match self.entries.get(real) {
            Some(MemoryEntry::Pipe(_)) if is_regular => Err(FileFault::Special),
            Some(_) => Ok(()),
            None if !self.is_folder(real) => Err(FileFault::Missing),
            None if is_regular => Err(FileFault::Folder),
            None => Ok(()),
        }
    }

    /// Where a path is that is opened: a file that was swapped is at its other path.
    fn opened_path<'p>(&'p self, path: &'p str) -> &'p str {
        match self.entries.get(path) {
            Some(MemoryEntry::Swapped(target)) => target.as_str(),
            _ => path,
        }
    }

    /// The bytes of the file at a real path.
    fn bytes(&self, alloc: Global, path: &str, kinds: Kinds) -> Result<Vec<u8>, FileFault>
        ensures { IfOk result (λ bytes.
            IsFileOf (get_by_text self.now.entries path.now) bytes.items) }
    {
        match self.entries.get(path) {
            Some(MemoryEntry::File(bytes)) if bytes.len() > MAX_TEXT => Err(FileFault::Large),
            Some(MemoryEntry::File(bytes)) => bytes.as_slice().to_vec(alloc).map_err(no_memory),
            Some(MemoryEntry::Pipe(_)) if kinds == Kinds::Regular => Err(FileFault::Special),
            Some(MemoryEntry::Pipe(bytes)) => bytes.as_slice().to_vec(alloc).map_err(no_memory),
            _ if self.is_folder(path) => Err(FileFault::Folder),
            _ => Err(FileFault::Missing),
        }
    }
}

impl Files for MemoryFiles {
    ghost gives = { λ m _ real bytes. IsFileOf (get_by_text m.entries real) bytes };

    fn real_path(&self, alloc: Global, path: &str, kinds: Kinds) -> Result<String, FileFault> {
        let mut real = String::new(alloc);
        if !path.starts_with('/') {
            real.push_str(self.current.as_str()).map_err(no_memory)?;
        }
        for segment in path.split('/') {
            self.enter(&mut real, segment).map_err(no_memory)?;
        }
        self.check_kind(real.as_str(), kinds)?;
        if real.is_empty() {
            real.push_str("/").map_err(no_memory)?;
        }
        Ok(real)
    }

    fn read(&self, alloc: Global, path: &str, kinds: Kinds) -> Result<OpenedFile, FileFault> {
        let opened = self.opened_path(path);
        let bytes = self.bytes(alloc, opened, kinds)?;
        let path = String::from_str(alloc, opened).map_err(no_memory)?;
        Ok(OpenedFile { path, bytes })
    }

    fn is_link(&self, path: &str) -> bool {
        matches!(self.entries.get(path), Some(MemoryEntry::Link(_)))
    }
}
