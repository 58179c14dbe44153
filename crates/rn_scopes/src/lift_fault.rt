// Why files can't be lifted.

use crate::plan::MAX_PLACES;
use rn_outline::Grouped;
use std::alloc::{AllocError, AllocFailed};
use thiserror::Error;

/// Why files can't be lifted: the index of the file, and the byte of its text, counted from its
/// start.
#[derive(Debug, Drop, PartialEq, Eq)]
pub struct LiftFault {
    /// The index of the file among those that are lifted.
    pub file: usize,
    /// The byte of the file's text, counted from its start.
    pub at: usize,
    /// What is wrong there. With `Many`, `Grown`, `Unsound` and `Memory` the file and the byte mean nothing.
    pub kind: LiftFaultKind,
}

/// Why files can't be lifted.
#[derive(Clone, Copy, Debug, PartialEq, Eq, Error)]
pub enum LiftFaultKind {
    /// An include names a file that is a pattern and no grammar (RELAX NG 2001, 4.7).
    #[error("a file that is a pattern can't be included")]
    IncludedPattern,
    /// `parent` outside a grammar that is in another one (RELAX NG 2001, 4.18).
    #[error("no grammar is around this one")]
    NoParent,
    /// A reference in an except names more than data, values and choices of them (RELAX NG 2001, 7.1.4), or comes
    /// back to itself there.
    #[error("what this stands for can't be excepted")]
    ExceptReference,
    /// `inherit =` of an external names a prefix that no declaration of the file binds (compact
    /// syntax, 4.1).
    #[error("a prefix without a declaration")]
    Prefix,
    /// An external or an include to which no file is given.
    #[error("no file is given for this")]
    NoFile,
    /// A reference to a name without a definition (RELAX NG 2001, 4.18): one in an except, or in a definition that
    /// one in an except leads to. The place is that of the reference to this name.
    #[error("nothing defines this")]
    Undefined,
    /// The texts that replace references in excepts would have more bytes than `MAX_EXCEPTS` of rn_lift.
    #[error("too long definitions are excepted")]
    Long,
    /// The files would make more than [`MAX_PLACES`] modules.
    #[error("more than {most} modules", most = Grouped(MAX_PLACES))]
    Many,
    /// The modules of the files' places would have over `MAX_GROWTH` of rn_lift more bytes than the files.
    #[error("modules much longer than the files")]
    Grown,
    /// The outline is not that of the text: a name or a literal is outside of it, or not in the order of
    /// the outline.
    #[error("an outline of another text")]
    Outline,
    /// What was made breaks what is promised of its names and links. No files are known for which this
    /// is so; it is checked before an answer is given.
    #[error("the names that were made are not free")]
    Unsound,
    /// A request for memory was refused. The place means nothing.
    #[error("out of memory")]
    Memory,
}

impl From<AllocError> for LiftFault {
    fn from(_: AllocError) -> Self {
        LiftFault {
            file: 0,
            at: 0,
            kind: LiftFaultKind::Memory,
        }
    }
}

impl<T: Drop> From<AllocFailed<T>> for LiftFault {
    fn from(_: AllocFailed<T>) -> Self {
        LiftFault {
            file: 0,
            at: 0,
            kind: LiftFaultKind::Memory,
        }
    }
}
