// What is wrong with the files that are read.
use crate::flat_fault::FlatFault;
use rn_files::{Asked, Reading, ReadingFault};
use rn_report::{Format, attempt_pages, is_unread, message_text, reading_messages};
use std::alloc::{AllocError, Global};

/// The fault of reading.
pub fn reading_fault(
    alloc: Global,
    asked: &Asked<'_>,
    fault: &ReadingFault,
    format: Format,
) -> FlatFault {
    match fault {
        ReadingFault::Memory => FlatFault::Memory,
        ReadingFault::Faults(reading) => match reading_lines(alloc, asked, reading, format) {
            Ok(fault) => fault,
            Err(_) => FlatFault::Memory,
        },
    }
}

/// What is wrong with the files that are read, in lines.
fn reading_lines(
    alloc: Global,
    asked: &Asked<'_>,
    reading: &Reading,
    format: Format,
) -> Result<FlatFault, AllocError> {
    let told = reading_messages(alloc, asked, reading)?;
    let pages = attempt_pages(alloc, reading.files.as_slice())?;
    let lines = message_text(alloc, pages.as_slice(), &told, format)?;
    if reading.faults.iter().any(is_unread) {
        Ok(FlatFault::Unread(lines))
    } else {
        Ok(FlatFault::Refused(lines))
    }
}
