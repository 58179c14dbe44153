// The sentences on refusals that are about all files together.
use super::check_sentences::{MEMORY, limit_sentence};
use crate::message_kinds::MessageKind;
use rn_assemble::{INSTANCE_LIMIT, Refusal};
use rn_modset::MAX_TEXT;
use rn_outline::MAX_OPEN;
use std::alloc::{AllocError, Global};

/// The sentence on a refusal that has no place; of another one, what is said of its kind.
pub fn general_sentence(alloc: Global, refusal: &Refusal) -> Result<String, AllocError> {
    match refusal {
        Refusal::NoStart => String::from_str(alloc, "none of the files defines start"),
        Refusal::Instances => instances_sentence(alloc),
        Refusal::OutputTooLarge => limit_sentence(
            alloc,
            "the flat schema would have more than",
            MAX_TEXT,
            "bytes",
        ),
        Refusal::OutputTooDeep => deep_output_sentence(alloc),
        Refusal::Memory => String::from_str(alloc, MEMORY),
        _ => format!(in alloc; "{refusal}"),
    }
}

/// What a message on a refusal that has no place is about.
pub fn general_kind(refusal: &Refusal) -> MessageKind {
    match refusal {
        Refusal::NoStart => MessageKind::Start,
        Refusal::Instances | Refusal::OutputTooLarge | Refusal::OutputTooDeep => MessageKind::Limit,
        Refusal::Memory => MessageKind::Memory,
        _ => MessageKind::Internal,
    }
}

fn instances_sentence(alloc: Global) -> Result<String, AllocError> {
    let behind =
        "instances of modules in all: each file that nobody includes is one, each inclusion is one, and each external or nested grammar is two";
    limit_sentence(alloc, "the files come to more than", INSTANCE_LIMIT, behind)
}

fn deep_output_sentence(alloc: Global) -> Result<String, AllocError> {
    let before = "the flat schema would have more than";
    limit_sentence(alloc, before, MAX_OPEN, "brackets open at once")
}
