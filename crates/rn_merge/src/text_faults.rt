// The fault of one module text.
ghost use Rattle.std.specs.Prelude.{◌≡◌, OnOk, IfErr};
ghost use Rattle.rn_merge.specs.TextFaults.{IsGood, HasPlace, kind_and_place, place_of};

use rn_syntax::{FaultKind, SyntaxFault, parse};
use rn_text::{TextFault, tokens};
use std::alloc::Global;
use thiserror::Error;

/// What is wrong with a module text. The first kind in this order is answered, at its first place:
/// `at` counts bytes from the start of the text.
#[derive(Debug, Drop, PartialEq, Eq, Error)]
pub enum Place {
    /// The text is not UTF-8: the length of the longest front that is.
    #[error("Encoding {at}")]
    Encoding { at: usize },
    /// The first character that XML does not allow; else where no token, white space or comment can
    /// be read.
    #[error("Lexical {at}")]
    Lexical { at: usize },
    /// The first of `{`, `(` and `[` that makes more than [`rn_syntax::MAX_OPEN`] open at once.
    #[error("Deep {at}")]
    Deep { at: usize },
    /// The first token with which the tokens so far begin no module; where all of them begin one
    /// and are none, the end of the last token.
    #[error("Syntax {at}")]
    Syntax { at: usize },
    /// A prefix that is used without a declaration, or declared twice or against its meaning; or a
    /// second default namespace.
    #[error("Prefix {at}")]
    Prefix { at: usize },
    /// A datatype of the empty library other than `string` and `token`, or one of these with a
    /// parameter: the start of its name.
    #[error("Builtin {at}")]
    Builtin { at: usize },
    /// A value of `QName` or `NOTATION` of the XML Schema library: the start of that name.
    #[error("ContextValue {at}")]
    ContextValue { at: usize },
    /// The `-` that something else follows than values, data, choices of them and `notAllowed`
    /// (RELAX NG 2001, 7.1.4).
    #[error("Except {at}")]
    Except { at: usize },
    /// A request for memory was refused.
    #[error("Memory")]
    Memory,
}

impl Place {
    /// The fault of a kind at a place.
    pub fn of(kind: FaultKind, at: usize) -> Self
        ensures { result ≡ place_of kind at }
    {
        match kind {
            FaultKind::Encoding => Place::Encoding { at },
            FaultKind::Lexical => Place::Lexical { at },
            FaultKind::Deep => Place::Deep { at },
            FaultKind::Syntax => Place::Syntax { at },
            FaultKind::Prefix => Place::Prefix { at },
            FaultKind::Builtin => Place::Builtin { at },
            FaultKind::ContextValue => Place::ContextValue { at },
            FaultKind::Except => Place::Except { at },
        }
    }

    /// The kind of the fault and its place in bytes from the start of the text. None where memory
    /// was refused.
    pub fn kind_and_place(&self) -> Option<(FaultKind, usize)>
        ensures { result ≡ kind_and_place self.now }
    {
        match self {
            Place::Encoding { at } => Some((FaultKind::Encoding, *at)),
            Place::Lexical { at } => Some((FaultKind::Lexical, *at)),
            Place::Deep { at } => Some((FaultKind::Deep, *at)),
            Place::Syntax { at } => Some((FaultKind::Syntax, *at)),
            Place::Prefix { at } => Some((FaultKind::Prefix, *at)),
            Place::Builtin { at } => Some((FaultKind::Builtin, *at)),
            Place::ContextValue { at } => Some((FaultKind::ContextValue, *at)),
            Place::Except { at } => Some((FaultKind::Except, *at)),
            Place::Memory => None,
        }
    }
}

impl From<TextFault> for Place {
    ghost use Rattle.rn_merge.specs.inside.Outcomes.{text_place};

    ghost from_gives = { λ fault place. place ≡ text_place fault };

    fn from(fault: TextFault) -> Self {
        match fault {
            TextFault::Encoding { at } => Place::Encoding { at },
            TextFault::Lexical { at } => Place::Lexical { at },
            TextFault::Memory => Place::Memory,
        }
    }
}

impl From<SyntaxFault> for Place {
    ghost use Rattle.rn_merge.specs.TextFaults.{syntax_place};

    ghost from_gives = { λ fault place. place ≡ syntax_place fault };

    fn from(fault: SyntaxFault) -> Self {
        match fault.kind_and_place() {
            Some((kind, at)) => Place::of(kind, at),
            None => Place::Memory,
        }
    }
}

/// The first fault of a module text of any length (RELAX NG Compact Syntax, 2, 3 and appendix A): of its bytes,
/// its tokens, and then its grammar. `Memory` where a request for memory was refused before a fault
/// was found.
pub fn check(alloc: Global, text: &[u8]) -> Result<(), Place>
    ensures ok { OnOk result (IsGood text.now) }
    ensures err { IfErr result (HasPlace text.now) }
{
    let tokens = tokens(alloc, text)?;
    drop(parse(alloc, tokens.as_slice())?);
    Ok(())
}
