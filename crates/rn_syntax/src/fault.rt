// Kinds of faults of module texts, and why tokens are no module.
ghost use Rattle.std.specs.Prelude.{◌≡◌};
ghost use Rattle.rn_syntax.specs.Faults.{kind_and_place, kind_name};

use crate::brackets::MAX_OPEN;
use std::alloc::{AllocError, AllocFailed};
use thiserror::Error;

/// What may be wrong with a module text, in the order in which it is tested. `Encoding` and `Lexical` are the faults of
/// `rn_text::TextFault`, the others those of `SyntaxFault`.
#[derive(Clone, Copy, Debug, PartialEq, Eq)]
pub enum FaultKind {
    /// Bytes that are not UTF-8.
    Encoding,
    /// A character that XML lacks, or what begins no token.
    Lexical,
    /// Brackets, more than [`MAX_OPEN`] of them open at once.
    Deep,
    /// Tokens that are no module.
    Syntax,
    /// A prefix that is unbound or bound wrongly.
    Prefix,
    /// A type that the built-in library lacks, or a parameter of one that it has.
    Builtin,
    /// A value whose type looks at namespace bindings.
    ContextValue,
    /// A pattern that may not be excepted.
    Except,
}

impl FaultKind {
    /// The name of the kind, as the program prints it.
    pub fn name(self) -> &'static str
        ensures { result.now ≡ kind_name self }
    {
        match self {
            FaultKind::Encoding => "Encoding",
            FaultKind::Lexical => "Lexical",
            FaultKind::Deep => "Deep",
            FaultKind::Syntax => "Syntax",
            FaultKind::Prefix => "Prefix",
            FaultKind::Builtin => "Builtin",
            FaultKind::ContextValue => "ContextValue",
            FaultKind::Except => "Except",
        }
    }
}

/// What is wrong with the tokens of a text. The first kind in this order that stands is answered, at its first place:
/// `at` counts bytes from the start of the text.
#[derive(Debug, Drop, PartialEq, Eq, Error)]
pub enum SyntaxFault {
    /// The first of `{`, `(` and `[` that makes more than [`MAX_OPEN`] open at once.
    #[error("more than {most} brackets are open at {at}", most = MAX_OPEN)]
    Deep { at: usize },
    /// The first token with which the tokens so far begin no module; where all of them begin one and are none, the end
    /// of the last token.
    #[error("no module goes on like this at {at}")]
    Syntax { at: usize },
    /// A prefix that is used without a declaration, or declared twice or against its meaning; or a second default
    /// namespace.
    #[error("a prefix is unbound or bound wrongly at {at}")]
    Prefix { at: usize },
    /// A datatype of the built-in library other than `string` and `token`, or one of these with a parameter.
    #[error("no built-in datatype at {at}")]
    Builtin { at: usize },
    /// A value of `QName` or `NOTATION` of the XML Schema library.
    #[error("a value of a type that looks at namespace bindings at {at}")]
    ContextValue { at: usize },
    /// The `-` behind which something else than values, data, choices of them and `notAllowed` stands (RELAX NG 2001,
    /// 7.1.4).
    #[error("a pattern that may not be excepted at {at}")]
    Except { at: usize },
    /// A request for memory was refused.
    #[error("out of memory")]
    Memory,
}

impl SyntaxFault {
    /// The kind of the fault and its place in bytes from the start of the text. None where memory was refused.
    pub fn kind_and_place(&self) -> Option<(FaultKind, usize)>
        ensures { result ≡ kind_and_place self.now }
    {
        match self {
            SyntaxFault::Deep { at } => Some((FaultKind::Deep, *at)),
            SyntaxFault::Syntax { at } => Some((FaultKind::Syntax, *at)),
            SyntaxFault::Prefix { at } => Some((FaultKind::Prefix, *at)),
            SyntaxFault::Builtin { at } => Some((FaultKind::Builtin, *at)),
            SyntaxFault::ContextValue { at } => Some((FaultKind::ContextValue, *at)),
            SyntaxFault::Except { at } => Some((FaultKind::Except, *at)),
            SyntaxFault::Memory => None,
        }
    }
}

impl From<AllocError> for SyntaxFault {
    ghost use Rattle.rn_syntax.specs.declared.fault.SyntaxFault.TheVariants.{Memory};

    ghost from_gives = { λ _ r. r ≡ Memory };

    fn from(_: AllocError) -> Self {
        SyntaxFault::Memory
    }
}

/// Why a reader of tokens stopped.
#[derive(Clone, Copy)]
pub(crate) enum Fault {
    /// At the token of this number, or at the end.
    Stuck(usize),
    Memory,
}

impl From<AllocError> for Fault {
    ghost use Rattle.rn_syntax.specs.declared.fault.Fault.TheVariants as stop;

    ghost from_gives = { λ _ r. r ≡ stop.Memory };

    fn from(_: AllocError) -> Self {
        Fault::Memory
    }
}

impl<T: Drop> From<AllocFailed<T>> for Fault {
    ghost use Rattle.rn_syntax.specs.declared.fault.Fault.TheVariants as stop;

    ghost from_gives = { λ _ r. r ≡ stop.Memory };

    fn from(_: AllocFailed<T>) -> Self {
        Fault::Memory
    }
}
