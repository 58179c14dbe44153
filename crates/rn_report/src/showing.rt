// Messages as lines, and as JSON.
pub(crate) mod formats;
pub(crate) mod json_messages;
pub(crate) mod shown_lines;
