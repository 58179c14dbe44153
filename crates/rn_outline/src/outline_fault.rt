// Why a text has no outline.

use crate::outline::MAX_OPEN;
use std::alloc::{AllocError, AllocFailed};
use thiserror::Error;

/// What could come at the place of a fault, where it is one of few things (compact syntax, section 2). What an annotation
/// or a comment could be is left out.
#[derive(Clone, Copy, Debug, PartialEq, Eq, Error)]
pub enum Wanted {
    /// The `{` of `list`, `mixed`, `grammar`, `div` and of the content after a name class.
    #[error("`{{`")]
    Brace,
    /// The `}` that closes what is open where the tokens end.
    #[error("`}}`")]
    ClosingBrace,
    /// The `)` that closes what is open where the tokens end.
    #[error("`)`")]
    ClosingParenthesis,
    /// The `=` of a declaration, a parameter or `inherit`.
    #[error("`=`")]
    Equals,
    /// The sign after the name of a definition, or after `start`.
    #[error("`=`, `|=` or `&=`")]
    Assignment,
    /// A literal.
    #[error("a literal")]
    Literal,
    /// A name that is no keyword.
    #[error("a name")]
    Name,
    /// A name class.
    #[error("a name or `*`")]
    NameClass,
    /// A pattern.
    #[error("a pattern")]
    Pattern,
}

/// Why a text has no outline, with the place of it as a count of bytes from the start of the text.
#[derive(Debug, Drop, PartialEq, Eq, Error)]
pub enum OutlineFault {
    /// The first of `{`, `(` and `[` that makes more than [`MAX_OPEN`] open at once.
    #[error("more than {most} brackets are open at {at}", most = MAX_OPEN)]
    Deep {
        /// How many bytes of the text are before the bracket.
        at: usize,
    },
    /// The first token that can't be where it is; where the tokens end too early, the end of the last one.
    #[error("no file goes on like this at {at}")]
    Syntax {
        /// How many bytes of the text are before the fault.
        at: usize,
        /// What could come there, where it is one of few things.
        wanted: Option<Wanted>,
    },
    /// A request for memory was refused.
    #[error("out of memory")]
    Memory,
}

impl From<AllocError> for OutlineFault {
    fn from(_: AllocError) -> Self {
        OutlineFault::Memory
    }
}

/// Why a reader of tokens stopped.
#[derive(Clone, Copy)]
pub(crate) enum TokenFault {
    /// At the token of this index, or at the end.
    Stuck(usize),
    /// There too, where this could come.
    Lacking(usize, Wanted),
    Memory,
}

impl From<AllocError> for TokenFault {
    fn from(_: AllocError) -> Self {
        TokenFault::Memory
    }
}

impl<T: Drop> From<AllocFailed<T>> for TokenFault {
    fn from(_: AllocFailed<T>) -> Self {
        TokenFault::Memory
    }
}
