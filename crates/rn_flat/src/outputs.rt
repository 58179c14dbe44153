// Where a product goes: a file, or standard output.
ghost use Rattle.std.specs.Prelude.{◌≡◌, ℕ, List, OnErr, OnOk, false};
ghost use Rattle.std.specs.List.{list_any};
ghost use Rattle.rn_flat.specs.Deliveries.{IsWritten, lies_at};
ghost use Rattle.rn_flat.specs.FlatFaults.{IsUnwritten};

use crate::flat_fault::{FlatFault, plain_lines};
use rn_files::{FileFault, Files, Kinds, SourceFile};
use rn_merge::{Failed, Sink, write_output};
use rn_report::{Format, MessageKind};
use std::alloc::{AllocError, Global};
use thiserror::Error;

/// What standard output is called.
pub const STANDARD_OUTPUT: &str = "standard output";

/// Why an output can't be written.
#[derive(Clone, Copy, Debug, PartialEq, Eq, Error)]
pub enum WriteFault {
    /// The user may not write it, or its folder.
    #[error("permission denied")]
    Denied,
    /// The folder of the path isn't there, or a link at the path leads nowhere.
    #[error("no such file or folder")]
    Missing,
    /// The path leads to a folder.
    #[error("this is a folder")]
    Folder,
    /// What the path has as a folder is none.
    #[error("a part of its path is not a folder")]
    Inner,
    /// No space is left, or the user may use no more.
    #[error("no space is left")]
    Full,
    /// The file system may only be read.
    #[error("the file system is read-only")]
    ReadOnly,
    /// The reader of a pipe has closed it.
    #[error("the pipe is closed")]
    Closed,
    /// The system failed to write it for another reason.
    #[error("the system refuses it")]
    Refused,
}

/// Files that are written.
pub trait Outputs {
    // What the file at a path may hold; a type that says nothing allows all.
    ghost holds: { Self → List ℕ → List ℕ → Type 0 } = { λ _ _ _. Unit {0} };

    /// Gives the file at the path these bytes, whole or not at all: an error leaves it as it was.
    fn replace(&mut self, path: &str, bytes: &[u8]) -> Result<(), WriteFault>
        ensures ok { OnOk result (holds self.new path.now bytes.now) }
        ensures err { OnErr result (self.new ≡ self.old) };
}

/// Whether one of the files that were read has this real path.
fn is_source(sources: &[SourceFile], real: &str) -> bool
    ensures { result ≡ list_any (lies_at real.now) sources.now }
{
    sources.iter().any(|source| source.path.as_str() == real)
}

/// Refuses to write a file that was read: the fault is `Usage`, since the words name it as both. A path at which there
/// is nothing yet is good.
pub fn check_output<F: Files>(
    alloc: Global,
    files: &F,
    sources: &[SourceFile],
    path: &str,
    format: Format,
) -> Result<(), FlatFault> {
    match files.real_path(alloc, path, Kinds::Any) {
        Ok(real) if is_source(sources, real.as_str()) => {
            let sentence = format!(in alloc; "{path} is one of the files that are read")?;
            let lines = plain_lines(alloc, MessageKind::Usage, sentence, format)?;
            Err(FlatFault::Usage(lines))
        }
        Err(FileFault::Memory) => Err(FlatFault::Memory),
        _ => Ok(()),
    }
}

/// Gives the file at the path these bytes. The one fault is `Unwritten`, which leaves the files as they were.
pub fn write_file<S: Outputs>(
    alloc: Global,
    outputs: &mut S,
    path: &str,
    bytes: &[u8],
    format: Format,
) -> Result<(), FlatFault>
    ensures ok { OnOk result (S.holds outputs.new path.now bytes.now) }
    ensures err { OnErr result (outputs.new ≡ outputs.old) }
{
    match outputs.replace(path, bytes) {
        Ok(()) => Ok(()),
        Err(fault) => Err(unwritten_fault(alloc, path, Some(fault), format)),
    }
}

/// Writes these bytes to standard output. The one fault is `Unwritten`, after which it has a front of them.
pub fn write_standard<W: Sink>(
    alloc: Global,
    out: &mut W,
    bytes: &[u8],
    format: Format,
) -> Result<(), FlatFault>
    requires { W.has_failed out.old ≡ false }
    ensures { IsWritten (W.contents out.old) (W.contents out.new) (W.has_failed out.new)
        bytes.now result }
{
    match write_output(out, bytes) {
        Ok(()) => Ok(()),
        Err(Failed) => Err(unwritten_fault(alloc, STANDARD_OUTPUT, None, format)),
    }
}

/// The fault of an output, with the reason where it is known. Where memory does not suffice for the line that says so,
/// there is none.
pub fn unwritten_fault(
    alloc: Global,
    output: &str,
    reason: Option<WriteFault>,
    format: Format,
) -> FlatFault
    ensures { IsUnwritten result }
{
    match unwritten_lines(alloc, output, reason, format) {
        Ok(lines) => FlatFault::Unwritten(lines),
        Err(_) => FlatFault::Unwritten(String::new(alloc)),
    }
}

/// That an output can't be written, with the reason where it is known.
fn unwritten_lines(
    alloc: Global,
    output: &str,
    reason: Option<WriteFault>,
    format: Format,
) -> Result<String, AllocError> {
    let mut sentence = format!(in alloc; "{output} can't be written")?;
    if let Some(reason) = reason {
        sentence.push_str(format!(in alloc; ": {reason}")?.as_str())?;
    }
    plain_lines(alloc, MessageKind::Unwritable, sentence, format)
}
