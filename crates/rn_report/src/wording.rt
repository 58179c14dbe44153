// The sentences.
pub(crate) mod check_sentences;
pub(crate) mod fault_messages;
pub(crate) mod file_messages;
pub(crate) mod general_sentences;
pub(crate) mod link_sentences;
pub(crate) mod sentences;
pub(crate) mod token_sentences;
