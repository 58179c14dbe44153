//! What is wrong with files, as sentences with their places: the faults of reading and lifting, and each refusal of a
//! set.
//!
//! Of the faults that are found, [`MAX_TOLD`] are told and the others counted. A [`Message`] is a sentence at a byte of
//! a file, and [`message_lines`] makes lines of messages, with the line of the file and a caret. Places come from what
//! the modules are made of: a module is read again, and each place in it leads back to the file that it comes from.
//!
//! An `AllocError` says that memory ran out. It is the only error unless said otherwise.
#![tactic(auto)]

mod finding;
mod message_kinds;
mod placing;
mod report;
mod showing;
mod wording;

pub use message_kinds::MessageKind;
pub use placing::placed_definitions::{DefinitionPlace, definition_places};
pub use report::{
    Colours, MAX_TOLD, Message, Messages, Page, Spot, attempt_pages, message_lines, push_printable,
    source_pages,
};
pub use showing::formats::{Format, message_text};
pub use showing::json_messages::message_objects;
pub use showing::shown_lines::{SHOWN, skipped_front};
pub use wording::fault_messages::{is_unread, set_message};
pub use wording::file_messages::{lift_messages, reading_messages};
pub use wording::sentences::{refusal_messages, refusal_messages_of_parts};
