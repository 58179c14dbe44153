// How messages are written.
ghost use Rattle.std.specs.Prelude.{IfOk, string_bytes};
ghost use Rattle.rn_report.specs.MessageTexts.{AreMessagesIn};

use super::json_messages::message_objects;
use crate::report::{Colours, Messages, Page, message_lines};
use std::alloc::{AllocError, Global};

/// How messages are written.
#[derive(Clone, Copy, Debug, PartialEq, Eq)]
pub enum Format {
    /// As lines for people, in colours or not.
    Lines(Colours),
    /// As objects of JSON, each in a line.
    Json,
}

/// What is told, as [`message_lines`] or [`message_objects`] writes it.
pub fn message_text(
    alloc: Global,
    pages: &[Page<'_>],
    told: &Messages,
    format: Format,
) -> Result<String, AllocError>
    ensures { IfOk result (λ text. AreMessagesIn format pages.now told.now (string_bytes text)) }
{
    match format {
        Format::Lines(colours) => message_lines(alloc, pages, told, colours),
        Format::Json => message_objects(alloc, pages, told),
    }
}
