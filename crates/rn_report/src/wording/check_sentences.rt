// The fault of a text as a sentence.
use super::token_sentences::{lexical_sentence, prefix_sentence, unexpected_sign};
use crate::message_kinds::MessageKind;
use rn_merge::Place;
use rn_outline::{Grouped, MAX_OPEN};
use std::alloc::{AllocError, Global};

/// The sentence on bytes that are no UTF-8.
pub const ENCODING: &str = "the file is not UTF-8 from here on";

/// The sentence on a request for memory that was refused.
pub const MEMORY: &str = "out of memory";

/// A sentence that names a limit: what is before it, the number with its digits in groups, and what is after it.
pub fn limit_sentence(
    alloc: Global,
    before: &str,
    limit: usize,
    behind: &str,
) -> Result<String, AllocError> {
    let limit = Grouped(limit);
    format!(in alloc; "{before} {limit} {behind}")
}

/// The sentence on a bracket too many.
pub fn deep_sentence(alloc: Global) -> Result<String, AllocError> {
    limit_sentence(alloc, "more than", MAX_OPEN, "brackets are open here")
}

/// The byte where a text is at fault; the first one where memory did not suffice.
pub fn fault_byte(place: &Place) -> usize {
    place.kind_and_place().map_or(0, |(_, at)| at)
}

/// Whether the fault is one of prefixes, datatypes and values. The others are found when a file is read, or are none in
/// the whole language.
pub fn is_of_meaning(place: &Place) -> bool {
    matches!(
        place,
        Place::Prefix { .. } | Place::Builtin { .. } | Place::ContextValue { .. }
    )
}

/// What a message on the fault of a text is about.
pub fn check_kind(place: &Place) -> MessageKind {
    match place {
        Place::Syntax { .. } => MessageKind::Syntax,
        Place::Deep { .. } => MessageKind::Limit,
        Place::Encoding { .. } => MessageKind::Encoding,
        Place::Lexical { .. } => MessageKind::Lexical,
        Place::Prefix { .. } => MessageKind::Prefix,
        Place::Builtin { .. } | Place::ContextValue { .. } => MessageKind::Datatype,
        Place::Except { .. } => MessageKind::Except,
        Place::Memory => MessageKind::Memory,
    }
}

/// The sentence on the fault of a text.
pub fn check_sentence(alloc: Global, text: &str, place: &Place) -> Result<String, AllocError> {
    let sentence = match place {
        Place::Syntax { at } => return unexpected_sign(alloc, text, *at),
        Place::Prefix { at } => return prefix_sentence(alloc, text, *at),
        Place::Deep { .. } => return deep_sentence(alloc),
        Place::Encoding { .. } => ENCODING,
        Place::Lexical { at } => lexical_sentence(text, *at),
        Place::Builtin { .. } =>
            "without a datatype library there are only `string` and `token`, without parameters",
        Place::ContextValue { .. } =>
            "a value of the type QName or NOTATION depends on where it is written, and can't be merged",
        Place::Except { .. } => "only data, values and choices of them can be excepted from data",
        Place::Memory => MEMORY,
    };
    String::from_str(alloc, sentence)
}
