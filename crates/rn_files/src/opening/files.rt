// What files are read from.
ghost use Rattle.std.specs.Prelude.{ℕ, List, IfOk, string_bytes};

use super::file_texts::MAX_TEXT;
use rn_outline::Grouped;
use std::alloc::Global;
use thiserror::Error;

/// Why a file can't be read.
#[derive(Clone, Copy, Debug, PartialEq, Eq, Error)]
pub enum FileFault {
    /// There is no such file.
    #[error("no such file")]
    Missing,
    /// The path leads to a folder.
    #[error("this is a folder")]
    Folder,
    /// The path leads to a file, where a folder is asked for.
    #[error("this is not a folder")]
    NoFolder,
    /// The path leads to a pipe, a device or a socket, where only a regular file is read.
    #[error("this is not a regular file")]
    Special,
    /// The file has more than [`MAX_TEXT`] bytes.
    #[error("the file is larger than {most} bytes", most = Grouped(MAX_TEXT))]
    Large,
    /// The user may not read it, or may not search a folder on the way.
    #[error("the file can't be read: permission denied")]
    Denied,
    /// The path goes through too many symbolic links, or they come back to one of them.
    #[error("the file can't be read: too many symbolic links, or a loop of them")]
    Links,
    /// What the path has as a folder is none.
    #[error("the file can't be read: a part of its path is not a folder")]
    Inner,
    /// The system failed to read it for another reason.
    #[error("the file can't be read")]
    Refused,
    /// A request for memory was refused.
    #[error("out of memory")]
    Memory,
}

/// The path that is standard input.
pub const STANDARD_INPUT: &str = "-";

/// Which files are looked up and opened at a path.
#[derive(Clone, Copy, Debug, PartialEq, Eq)]
pub enum Kinds {
    /// Regular files alone. A folder is the fault `Folder`, anything else `Special`, and isn't opened.
    Regular,
    /// Folders, pipes, devices and sockets too, for which the program may wait. A folder can't be read.
    Any,
}

/// A file that was opened, and what was read of it.
#[derive(Debug, Drop)]
pub struct OpenedFile {
    /// The real path of what was opened, which is asked for after the opening; nothing where the system doesn't tell it.
    pub path: String,
    /// The bytes of the file.
    pub bytes: Vec<u8>,
}

/// What files are read from, by paths whose segments are parted by `/`. A path that doesn't begin with `/` is one below
/// the current folder, which is the path `.`; [`STANDARD_INPUT`] is standard input.
pub trait Files {
    // What the path may lead to; a type that says nothing allows all.
    ghost leads: { Self → List ℕ → List ℕ → Type 0 } = { λ _ _ _. Unit {0} };

    // What may be opened at the path: a file that has this real path, and these bytes.
    ghost gives: { Self → List ℕ → List ℕ → List ℕ → Type 0 } = { λ _ _ _ _. Unit {0} };

    /// The one path of the file or the folder that the path leads to: it begins with `/`, and has no segment that is
    /// empty, `.`, `..` or a link. A pipe without such a path has the one by which it was asked for. A fault tells why
    /// there is none, or that memory ran out.
    fn real_path(&self, alloc: Global, path: &str, kinds: Kinds) -> Result<String, FileFault>
        ensures { IfOk result (λ found. leads self.now path.now (string_bytes found)) };

    /// Opens the file at the path, or standard input at [`STANDARD_INPUT`], once, and reads it. Its real path, its kind
    /// and its size are those of what was opened, whatever lies at the path by then. `Large` where it has more than
    /// `MAX_TEXT` bytes; another fault tells why it can't be read, or that memory ran out.
    fn read(&self, alloc: Global, path: &str, kinds: Kinds) -> Result<OpenedFile, FileFault>
        ensures { IfOk result (λ opened.
            gives self.now path.now (string_bytes opened.path) opened.bytes.items) };

    /// Whether a link lies at the path: its last segment is not followed.
    fn is_link(&self, path: &str) -> bool;
}
