// Where a reader of a production stopped, and why.
ghost use Rattle.std.specs.Prelude.{◌≡◌, length};
ghost use Rattle.rn_xml.specs.declared.xml_fault.XmlFaultKind.TheVariants.{Memory};

use crate::xml_fault::XmlFaultKind;
use std::alloc::{AllocError, AllocFailed};

/// Where a reader stopped, and why.
#[derive(Clone, Copy)]
pub(crate) struct Stop {
    /// How many bytes of the text follow the place.
    pub(crate) left: usize,
    pub(crate) kind: XmlFaultKind,
}

impl Stop {
    /// A stop before the rest.
    pub(crate) fn before(rest: &str, kind: XmlFaultKind) -> Stop
        ensures left { result.left ≡ length rest.now }
        ensures kind { result.kind ≡ kind }
    {
        Stop {
            left: rest.len(),
            kind,
        }
    }
}

impl From<AllocError> for Stop {
    ghost from_gives = { λ _ stop. (stop.left ≡ 0) × (stop.kind ≡ Memory) };

    fn from(_: AllocError) -> Self {
        Stop {
            left: 0,
            kind: XmlFaultKind::Memory,
        }
    }
}

impl<T: Drop> From<AllocFailed<T>> for Stop {
    ghost from_gives = { λ _ stop. (stop.left ≡ 0) × (stop.kind ≡ Memory) };

    fn from(_: AllocFailed<T>) -> Self {
        Stop {
            left: 0,
            kind: XmlFaultKind::Memory,
        }
    }
}
