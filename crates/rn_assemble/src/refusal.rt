// Why a set has no schema.
ghost use Rattle.std.specs.Prelude.{◌≡◌, Some, string_bytes};
ghost use Rattle.rn_assemble.specs.Refusal.{faulty};
ghost use Rattle.rn_assemble.specs.Refused.{refusal_view};

use crate::including::inclusion::INSTANCE_LIMIT;
use rn_modset::SetFault;
use rn_syntax::FaultKind;
use std::alloc::{AllocError, AllocFailed};
use thiserror::Error;

/// What components are combined under: the start, or a definition's name.
#[derive(Debug, Drop, PartialEq, Eq)]
pub enum Key {
    /// The start.
    Start,
    /// The definition of this name.
    Define(String),
}

/// Why a set has no schema, in the order in which it is tested: the first that stands is answered (sections of RELAX NG
/// 2001). `Encoding` to `Except` are one test: the first module by name whose text has a fault is answered, with the
/// first of these kinds that its text has. `module` is the name of the module that is at fault, `name` that of a
/// definition. Modules and names are compared by bytes; start stands before all names.
#[derive(Debug, Drop, PartialEq, Eq, Error)]
pub enum Refusal {
    /// The least module of which two contributions of the highest revision differ.
    #[error("the highest revision of a module has two contents")]
    Conflict {
        /// The module's name.
        module: String,
        /// Its highest revision.
        revision: u64,
    },
    /// The module's text is not UTF-8.
    #[error("a module's text is not UTF-8")]
    Encoding {
        module: String,
    },
    /// The module's text holds what XML does not allow, or what is no token, white space or comment.
    #[error("a module's text can't be cut into tokens")]
    Lexical {
        module: String,
    },
    /// The module's text has more than [`rn_syntax::MAX_OPEN`] brackets open at once.
    #[error("a module has too many brackets open at once")]
    Deep {
        module: String,
    },
    /// The module's text is no module of the compact syntax (RELAX NG Compact Syntax, appendix A).
    #[error("a module's tokens are no module")]
    Syntax {
        module: String,
    },
    /// The module has a prefix without a declaration, or one declared twice or against its meaning, or a second default
    /// namespace.
    #[error("a module has a prefix that is unbound or bound wrongly, or a second default namespace")]
    Prefix {
        module: String,
    },
    /// The module has a datatype of the empty library other than `string` and `token`, or one of these with a
    /// parameter.
    #[error("a module has an unknown datatype of the empty library, or gives `string` or `token` a parameter")]
    Builtin {
        module: String,
    },
    /// The module has a value of `QName` or `NOTATION` of the XML Schema library.
    #[error("a module has a value that looks at namespace bindings")]
    ContextValue {
        module: String,
    },
    /// The module excepts from data something else than values, data, choices of them and `notAllowed`
    /// (RELAX NG 2001, 7.1.4).
    #[error("a module has a pattern that may not be excepted")]
    Except {
        module: String,
    },
    /// The least module that includes a name under which no module is effective, and the least such name
    /// (RELAX NG 2001, 4.7).
    #[error("a module includes one that is not effective")]
    Missing {
        /// The name of the module with the include.
        module: String,
        /// The name that the include gives.
        wanted: String,
    },
    /// The least module that includes itself through one include or more (RELAX NG 2001, 4.7).
    #[error("a module includes itself")]
    Cycle {
        module: String,
    },
    /// All roots together have more than [`INSTANCE_LIMIT`] instances of modules.
    #[error("there are more than {} instances of modules", INSTANCE_LIMIT)]
    Instances,
    /// The least module with an include that defines what the included module lacks, and the least such key
    /// (RELAX NG 2001, 4.7).
    #[error("an include overrides what is not there")]
    Override {
        /// The name of the module with the include.
        module: String,
        /// What the include defines.
        key: Key,
    },
    /// The least key with two definitions by `=` (RELAX NG 2001, 4.17).
    #[error("a name is plainly defined twice")]
    PlainTwice {
        key: Key,
    },
    /// The least key with definitions by `|=` and by `&=` (RELAX NG 2001, 4.17).
    #[error("a name is combined by both methods")]
    MixedMethods {
        key: Key,
    },
    /// Nothing defines the start (RELAX NG 2001, 4.18).
    #[error("there is no start")]
    NoStart,
    /// The least name that is referred to, in reach of the start or not, and not defined (RELAX NG 2001, 4.18).
    #[error("a name is referred to and not defined")]
    Undefined {
        name: String,
    },
    /// The least name in reach of the start that comes back to itself outside elements (RELAX NG 2001, 4.19).
    #[error("a definition refers to itself outside elements")]
    Recursive {
        name: String,
    },
    /// The least key whose pattern has a name class that breaks the restrictions (RELAX NG 2001, 4.16).
    #[error("a name class breaks the restrictions")]
    NameClass {
        key: Key,
    },
    /// The printed text would have more bytes than a module's text may have ([`rn_modset::MAX_TEXT`]).
    #[error("the printed text would be too long")]
    OutputTooLarge,
    /// The printed text would have more than [`rn_syntax::MAX_OPEN`] brackets open at once.
    #[error("the printed text would have too many brackets open at once")]
    OutputTooDeep,
    /// A request for memory was refused.
    #[error("out of memory")]
    Memory,
}

impl Refusal {
    /// The refusal of a module whose text has a fault of this kind.
    pub(crate) fn of_fault(kind: FaultKind, module: String) -> Self
        ensures { refusal_view result ≡ Some (faulty kind (string_bytes «module»)) }
    {
        match kind {
            FaultKind::Encoding => Refusal::Encoding { module },
            FaultKind::Lexical => Refusal::Lexical { module },
            FaultKind::Deep => Refusal::Deep { module },
            FaultKind::Syntax => Refusal::Syntax { module },
            FaultKind::Prefix => Refusal::Prefix { module },
            FaultKind::Builtin => Refusal::Builtin { module },
            FaultKind::ContextValue => Refusal::ContextValue { module },
            FaultKind::Except => Refusal::Except { module },
        }
    }
}

impl From<AllocError> for Refusal {
    ghost use Rattle.rn_assemble.specs.declared.refusal.Refusal.TheVariants.{Memory};

    ghost from_gives = { λ _ r. r ≡ Memory };

    fn from(_: AllocError) -> Self {
        Refusal::Memory
    }
}

impl<T: Drop> From<AllocFailed<T>> for Refusal {
    ghost use Rattle.rn_assemble.specs.declared.refusal.Refusal.TheVariants.{Memory};

    ghost from_gives = { λ _ r. r ≡ Memory };

    fn from(_: AllocFailed<T>) -> Self {
        Refusal::Memory
    }
}

impl From<SetFault> for Refusal {
    ghost use Rattle.rn_assemble.specs.inside.SetFaults.{refusal_of};

    ghost from_gives = { λ fault r. r ≡ refusal_of fault };

    fn from(fault: SetFault) -> Self {
        match fault {
            SetFault::Conflict { module, revision } => Refusal::Conflict { module, revision },
            SetFault::Memory => Refusal::Memory,
        }
    }
}
