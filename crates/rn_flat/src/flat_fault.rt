// Why the program does not do its work.
ghost use Rattle.std.specs.Prelude.{◌≡◌};
ghost use Rattle.rn_flat.specs.FlatFaults.{status};

use rn_report::{Format, Message, MessageKind, Messages, Page, message_text};
use std::alloc::{AllocError, AllocFailed, Global};

/// Why the program does not do its work, with the lines that say so.
#[derive(Debug, Drop, PartialEq, Eq)]
pub enum FlatFault {
    /// The words can't be understood.
    Usage(String),
    /// The schema is refused, or a file is not the schema.
    Refused(String),
    /// A file can't be read.
    Unread(String),
    /// The output can't be written.
    Unwritten(String),
    /// A request for memory was refused.
    Memory,
}

impl From<AllocError> for FlatFault {
    ghost use Rattle.std.specs.Prelude.{◌≡◌};
    ghost use Rattle.rn_flat.specs.declared.flat_fault.FlatFault.TheVariants.{Memory};

    ghost from_gives = { λ _ fault. fault ≡ Memory };

    fn from(_: AllocError) -> Self {
        FlatFault::Memory
    }
}

impl<T: Drop> From<AllocFailed<T>> for FlatFault {
    ghost use Rattle.std.specs.Prelude.{◌≡◌};
    ghost use Rattle.rn_flat.specs.declared.flat_fault.FlatFault.TheVariants.{Memory};

    ghost from_gives = { λ _ fault. fault ≡ Memory };

    fn from(_: AllocFailed<T>) -> Self {
        FlatFault::Memory
    }
}

/// What is said where memory ran out.
const NO_MEMORY: &str = "rnc-flat: error: out of memory\n";

/// The same as an object.
const NO_MEMORY_OBJECT: &str =
    "{\"severity\":\"error\",\"kind\":\"memory\",\"sentence\":\"out of memory\",\"places\":[]}\n";

/// The lines of a fault, each with its line end. It takes no memory.
pub fn fault_lines(fault: &FlatFault, format: Format) -> &str {
    match fault {
        FlatFault::Usage(lines)
        | FlatFault::Refused(lines)
        | FlatFault::Unread(lines)
        | FlatFault::Unwritten(lines) => lines.as_str(),
        FlatFault::Memory => match format {
            Format::Lines(_) => NO_MEMORY,
            Format::Json => NO_MEMORY_OBJECT,
        },
    }
}

/// A message that is about no place, as it is told.
pub fn plain_lines(
    alloc: Global,
    kind: MessageKind,
    sentence: String,
    format: Format,
) -> Result<String, AllocError> {
    let message = Message::new(alloc, kind, None, sentence);
    let told = Messages::of_message(alloc, message)?;
    message_text(alloc, &[], &told, format)
}

/// The status with which the program ends after a fault: 1 where the schema is refused or differs, 2 for the words, 3
/// for files, the output and memory.
pub fn status(fault: &FlatFault) -> u8
    ensures { result ≡ status fault.now }
{
    match fault {
        FlatFault::Refused(_) => 1,
        FlatFault::Usage(_) => 2,
        FlatFault::Unread(_) | FlatFault::Unwritten(_) | FlatFault::Memory => 3,
    }
}

/// The files are refused, with what is told of them.
pub fn refusal_fault(
    alloc: Global,
    pages: &[Page<'_>],
    told: &Messages,
    format: Format,
) -> Result<FlatFault, AllocError> {
    let lines = message_text(alloc, pages, told, format)?;
    Ok(FlatFault::Refused(lines))
}
