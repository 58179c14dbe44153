// Why a schema has no XML text.
use std::alloc::AllocError;
use thiserror::Error;

/// Why a schema has no XML text.
#[derive(Clone, Copy, Debug, PartialEq, Eq, Error)]
pub enum XmlFault {
    /// The text would have more than [`crate::MAX_XML`] bytes.
    #[error("the XML syntax would have too many bytes")]
    TooLarge,
    /// The text is no module of the compact syntax, or the module includes another.
    #[error("this is no flat schema")]
    NoSchema,
    /// A request for memory was refused.
    #[error("out of memory")]
    Memory,
}

impl From<AllocError> for XmlFault {
    ghost use Rattle.std.specs.Prelude.{◌≡◌};
    ghost use Rattle.rn_rng.specs.declared.xml_fault.XmlFault.TheVariants.{Memory};

    ghost from_gives = { λ _ fault. fault ≡ Memory };

    fn from(_: AllocError) -> Self {
        XmlFault::Memory
    }
}
