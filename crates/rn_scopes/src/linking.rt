// What a place is linked from: where it is, and the files that its parts name.

use crate::lift_fault::{LiftFault, LiftFaultKind};
use crate::units::Units;
use rn_outline::Span;

/// A place of which the links are made.
#[derive(Clone, Copy)]
pub(crate) struct Here {
    pub(crate) place: usize,
    pub(crate) unit: usize,
    pub(crate) scope: usize,
    pub(crate) namespace: usize,
    pub(crate) file: usize,
}

/// An external or an include: the file that it names, the prefix after `inherit =`, and the byte of
/// its literal.
#[derive(Clone, Copy)]
pub(crate) struct NamedFile {
    pub(crate) target: Option<usize>,
    pub(crate) inherit: Option<Span>,
    pub(crate) at: usize,
}

impl NamedFile {
    pub(crate) fn new(target: Option<usize>, inherit: Option<Span>, at: usize) -> Self {
        NamedFile {
            target,
            inherit,
            at,
        }
    }

    /// The unit of the file that is named.
    pub(crate) fn unit(self, units: &Units<'_>, here: Here) -> Result<usize, LiftFault> {
        match self.target.and_then(|file| units.number(file, 0)) {
            Some(unit) => Ok(unit),
            None => Err(fault(here.file, self.at, LiftFaultKind::NoFile)),
        }
    }
}

/// A fault at a byte of a file.
pub(crate) fn fault(file: usize, at: usize, kind: LiftFaultKind) -> LiftFault {
    LiftFault { file, at, kind }
}
