// The faults of reading, lifting and gathering, as messages.
use super::check_sentences::{ENCODING, MEMORY, deep_sentence, limit_sentence};
use super::link_sentences::{catalog_sentence, far_catalog_sentence, link_kind, link_sentence};
use super::token_sentences::{lexical_sentence, name_at, unexpected_token};
use crate::finding::near_names::NearestName;
use crate::message_kinds::MessageKind;
use crate::report::{MAX_TOLD, Message, Page, Spot, shown_name, text_of_page};
use rn_files::{
    Asked, FaultPlace, LinkFault, MAX_SOURCES, SourceFault, SourceFaultKind, SourceFile,
};
use rn_lift::{Lifted, MAX_EXCEPTS, MAX_GROWTH};
use rn_modset::{AddFault, MAX_CONTRIBUTIONS, MAX_NAME, MAX_TEXT};
use rn_outline::{FilePartKind, name_in};
use rn_scopes::{LiftFault, LiftFaultKind, MAX_PLACES};
use rn_translate::RngFaultKind;
use rn_xml::{FaultSentence, XmlFault, XmlFaultKind};
use std::alloc::{AllocError, Global};

/// What is said of a text in UTF-16.
const UTF16: &str = "the file is in UTF-16, and only UTF-8 is read";

/// What is said of a catalog that led to itself.
const CATALOG_LOOP: &str = "the catalog leads back to itself by nextCatalog";

/// What is said of sources that don't keep what is promised of them.
const UNSOUND: &str = "what was read of the files does not fit together";

/// What is said where a file in the XML syntax includes a pattern.
const INCLUDED_PATTERN_XML: &str =
    "the file is a pattern, and only a grammar can be included; externalRef takes a pattern";

/// What is said where a file in the XML syntax refers to a grammar that is not around.
const NO_PARENT_XML: &str = "there is no grammar around this one that parentRef could mean";

/// Where a fault of reading is told; nowhere where it is about a word, a folder or catalogs.
pub fn reading_spot(place: FaultPlace) -> Option<Spot> {
    match place {
        FaultPlace::Text { file, at } => Some(Spot { file, at }),
        FaultPlace::Word(_) | FaultPlace::Root | FaultPlace::Current | FaultPlace::Catalogs => None,
    }
}

/// The message of a fault of reading what is asked for.
pub fn reading_message(
    alloc: Global,
    asked: &Asked<'_>,
    pages: &[Page<'_>],
    fault: &SourceFault,
) -> Result<Message, AllocError> {
    let sentence = reading_sentence(alloc, pages, fault)?;
    let sentence = match fault.place {
        FaultPlace::Text { .. } | FaultPlace::Catalogs => sentence,
        FaultPlace::Word(number) => {
            let word = asked.files.get(number).map_or("-", |word| word.as_str());
            sentence_about(alloc, word, sentence.as_str())?
        }
        FaultPlace::Root => sentence_about(alloc, asked.root.unwrap_or("."), sentence.as_str())?,
        FaultPlace::Current => sentence_about(alloc, "the current folder", sentence.as_str())?,
    };
    let kind = reading_kind(&fault.kind);
    Ok(Message::new(alloc, kind, reading_spot(fault.place), sentence))
}

/// What a message on a fault of reading is about.
fn reading_kind(kind: &SourceFaultKind) -> MessageKind {
    match kind {
        SourceFaultKind::Link { fault, .. } => link_kind(*fault),
        SourceFaultKind::FarCatalog(_) => MessageKind::Reference,
        SourceFaultKind::Loop(_) | SourceFaultKind::CatalogLoop => MessageKind::FileLoop,
        SourceFaultKind::Encoding | SourceFaultKind::Utf16 => MessageKind::Encoding,
        SourceFaultKind::Lexical => MessageKind::Lexical,
        SourceFaultKind::Syntax(_) | SourceFaultKind::Catalog(_) => MessageKind::Syntax,
        SourceFaultKind::Document(kind) => document_kind(*kind),
        SourceFaultKind::Schema(kind) => schema_kind(kind),
        SourceFaultKind::Deep | SourceFaultKind::ManyCatalogs => MessageKind::Limit,
        SourceFaultKind::Unsound => MessageKind::Internal,
    }
}

/// What a message on a document that is no XML is about.
fn document_kind(kind: XmlFaultKind) -> MessageKind {
    match kind {
        XmlFaultKind::Encoding | XmlFaultKind::NotEncoded(_) => MessageKind::Encoding,
        XmlFaultKind::Character => MessageKind::Lexical,
        XmlFaultKind::Prefix => MessageKind::Prefix,
        XmlFaultKind::Deep => MessageKind::Limit,
        _ => MessageKind::Syntax,
    }
}

/// What a message on a document that is no schema is about.
fn schema_kind(kind: &RngFaultKind) -> MessageKind {
    match kind {
        RngFaultKind::Prefix(_) => MessageKind::Prefix,
        RngFaultKind::Large => MessageKind::Limit,
        _ => MessageKind::Syntax,
    }
}

/// A sentence about something that is named before it.
fn sentence_about(alloc: Global, what: &str, sentence: &str) -> Result<String, AllocError> {
    format!(in alloc; "{what}: {sentence}")
}

/// What is wrong, where a fault of reading is.
fn reading_sentence(
    alloc: Global,
    pages: &[Page<'_>],
    fault: &SourceFault,
) -> Result<String, AllocError> {
    let place = fault.place;
    match &fault.kind {
        SourceFaultKind::Link { fault, tried } => link_sentence(alloc, place, *fault, tried),
        SourceFaultKind::Document(kind) => document_sentence(alloc, pages, place, *kind),
        SourceFaultKind::Schema(kind) => format!(in alloc; "{kind}"),
        SourceFaultKind::Catalog(kind) => catalog_sentence(alloc, pages, place, *kind),
        SourceFaultKind::FarCatalog(uri) => far_catalog_sentence(alloc, uri.as_str()),
        SourceFaultKind::ManyCatalogs => {
            limit_sentence(alloc, "there are more than", MAX_SOURCES, "catalogs")
        }
        SourceFaultKind::Loop(files) => loop_sentence(alloc, pages, files.as_slice()),
        SourceFaultKind::Deep => deep_sentence(alloc),
        SourceFaultKind::Syntax(wanted) => {
            let (text, at) = text_at(pages, place);
            unexpected_token(alloc, text, at, *wanted)
        }
        SourceFaultKind::Lexical => {
            let (text, at) = text_at(pages, place);
            String::from_str(alloc, lexical_sentence(text, at))
        }
        SourceFaultKind::Encoding => String::from_str(alloc, ENCODING),
        SourceFaultKind::Utf16 => String::from_str(alloc, UTF16),
        SourceFaultKind::CatalogLoop => String::from_str(alloc, CATALOG_LOOP),
        SourceFaultKind::Unsound => String::from_str(alloc, UNSOUND),
    }
}

/// What is wrong with a document.
pub(crate) fn document_sentence(
    alloc: Global,
    pages: &[Page<'_>],
    place: FaultPlace,
    kind: XmlFaultKind,
) -> Result<String, AllocError> {
    let FaultPlace::Text { file, at } = place else {
        return String::from_str(alloc, "this is no document");
    };
    let text = pages.get(file).map_or("", |page| page.written_text());
    let FaultSentence { kind, name, open } = XmlFault { at, kind }.sentence(text);
    let name = shown_name(alloc, name)?;
    let open = shown_name(alloc, open)?;
    let sentence = FaultSentence {
        kind,
        name: name.as_str(),
        open: open.as_str(),
    };
    format!(in alloc; "{sentence}")
}

/// The text of a place, and the byte of it; no text where the place is in none.
fn text_at<'a>(pages: &[Page<'a>], place: FaultPlace) -> (&'a str, usize) {
    match place {
        FaultPlace::Text { file, at } => (text_of_page(pages, file), at),
        _ => ("", 0),
    }
}

/// The files of a loop of references, in order, which comes back to the first. Of a long one the first files are named.
fn loop_sentence(alloc: Global, pages: &[Page<'_>], files: &[usize]) -> Result<String, AllocError> {
    let mut sentence = String::from_str(alloc, "the file refers to itself: ")?;
    for file in files.iter().take(MAX_TOLD) {
        push_path(&mut sentence, pages, *file)?;
        sentence.push_str(", ")?;
    }
    let others = files.len().saturating_sub(MAX_TOLD);
    if others > 0 {
        sentence.push_str(format!(in alloc; "{others} more, ")?.as_str())?;
    }
    match files.first() {
        Some(first) => push_path(&mut sentence, pages, *first)?,
        None => {}
    }
    Ok(sentence)
}

/// Appends the path of a file.
fn push_path(sentence: &mut String, pages: &[Page<'_>], file: usize) -> Result<(), AllocError> {
    match pages.get(file) {
        Some(page) => sentence.push_str(page.path),
        None => sentence.push_str("-"),
    }
}

/// Whether the fault is of a file that can't be read, and not of what is in the files.
pub fn is_unread(fault: &SourceFault) -> bool {
    matches!(
        &fault.kind,
        SourceFaultKind::Link {
            fault: LinkFault::File(_),
            ..
        }
    )
}

/// Where a fault of lifting is told; nowhere where it is about all files.
pub fn lift_spot(fault: &LiftFault) -> Option<Spot> {
    match fault.kind {
        LiftFaultKind::Many
        | LiftFaultKind::Grown
        | LiftFaultKind::Unsound
        | LiftFaultKind::Memory => None,
        _ => Some(Spot {
            file: fault.file,
            at: fault.at,
        }),
    }
}

/// The message of a fault of lifting these files.
pub fn lift_message(
    alloc: Global,
    files: &[SourceFile],
    fault: &LiftFault,
) -> Result<Message, AllocError> {
    let sentence = match (fault.kind, is_xml_file(files, fault.file)) {
        (LiftFaultKind::Undefined, _) => undefined_sentence(alloc, files, fault)?,
        (LiftFaultKind::Prefix, _) => undeclared_sentence(alloc, files, fault)?,
        (LiftFaultKind::IncludedPattern, true) => String::from_str(alloc, INCLUDED_PATTERN_XML)?,
        (LiftFaultKind::NoParent, true) => String::from_str(alloc, NO_PARENT_XML)?,
        (kind, _) => lift_sentence(alloc, kind)?,
    };
    Ok(Message::new(alloc, lift_kind(fault.kind), lift_spot(fault), sentence))
}

/// Whether the file with this number is in the XML syntax.
fn is_xml_file(files: &[SourceFile], number: usize) -> bool {
    files.get(number).is_some_and(|file| file.written.is_some())
}

/// What a message on a fault of lifting is about.
fn lift_kind(kind: LiftFaultKind) -> MessageKind {
    match kind {
        LiftFaultKind::IncludedPattern | LiftFaultKind::NoFile => MessageKind::Reference,
        LiftFaultKind::NoParent => MessageKind::Parent,
        LiftFaultKind::ExceptReference => MessageKind::Except,
        LiftFaultKind::Prefix => MessageKind::Prefix,
        LiftFaultKind::Undefined => MessageKind::Undefined,
        LiftFaultKind::Long | LiftFaultKind::Many | LiftFaultKind::Grown => MessageKind::Limit,
        LiftFaultKind::Outline | LiftFaultKind::Unsound => MessageKind::Internal,
        LiftFaultKind::Memory => MessageKind::Memory,
    }
}

/// The text of the file in which a fault of lifting is.
fn text_of_fault<'f>(files: &'f [SourceFile], fault: &LiftFault) -> &'f str {
    match files.get(fault.file) {
        Some(file) => file.text.as_str(),
        None => "",
    }
}

/// That the name at a fault is not defined, with the nearest one that the files define.
fn undefined_sentence(
    alloc: Global,
    files: &[SourceFile],
    fault: &LiftFault,
) -> Result<String, AllocError> {
    let name = name_at(alloc, text_of_fault(files, fault), fault.at)?;
    let mut nearest = NearestName::new();
    for file in files {
        offer_names(alloc, name.as_str(), file, &mut nearest)?;
    }
    nearest.sentence(alloc, name.as_str())
}

/// Offers the names that a file defines in the place of a name.
fn offer_names<'f>(
    alloc: Global,
    name: &str,
    file: &'f SourceFile,
    nearest: &mut NearestName<'f>,
) -> Result<(), AllocError> {
    for part in &file.outline.parts {
        if let FilePartKind::Define { name: defined, .. } = &part.kind {
            nearest.offer(alloc, name, name_in(file.text.as_str(), *defined))?;
        }
    }
    Ok(())
}

/// That the prefix at a fault is not declared.
fn undeclared_sentence(
    alloc: Global,
    files: &[SourceFile],
    fault: &LiftFault,
) -> Result<String, AllocError> {
    let prefix = name_at(alloc, text_of_fault(files, fault), fault.at)?;
    format!(in alloc; "the prefix `{prefix}` is not declared")
}

/// The sentence on a fault of lifting, of a kind whose sentence names nothing of the files.
fn lift_sentence(alloc: Global, kind: LiftFaultKind) -> Result<String, AllocError> {
    let sentence = match kind {
        LiftFaultKind::Long => {
            let before = "what is excepted by names becomes longer than";
            return limit_sentence(alloc, before, MAX_EXCEPTS, "bytes");
        }
        LiftFaultKind::Many => return limit_sentence(
            alloc,
            "the files become more than",
            MAX_PLACES,
            "modules",
        ),
        LiftFaultKind::Grown => {
            let before = "what the files become is longer than they are by more than";
            let behind =
                "bytes: a file's declarations go along with each grammar in it, and a file that is used in several ways is written for each";
            return limit_sentence(alloc, before, MAX_GROWTH, behind);
        }
        LiftFaultKind::IncludedPattern => {
            "the file is a pattern, and only a grammar can be included; external takes a pattern"
        }
        LiftFaultKind::NoParent => "there is no grammar around this one that parent could mean",
        LiftFaultKind::ExceptReference => {
            "this stands for more than data, values and choices of them, which alone can be excepted"
        }
        LiftFaultKind::Prefix => "this prefix is not declared",
        LiftFaultKind::NoFile => "no file is known that this means",
        LiftFaultKind::Undefined => "this is not defined",
        LiftFaultKind::Outline => "what was read here is not what the file holds",
        LiftFaultKind::Unsound => "the names that were made for the files are not free",
        LiftFaultKind::Memory => MEMORY,
    };
    String::from_str(alloc, sentence)
}

/// The message of a module, by its number, that can't be added to the set.
pub fn set_message(
    alloc: Global,
    lifted: &Lifted,
    module: usize,
    fault: &AddFault,
) -> Result<Message, AllocError> {
    let spot = start_of(lifted, module);
    let kind = match fault {
        AddFault::Memory => MessageKind::Memory,
        _ => MessageKind::Limit,
    };
    Ok(Message::new(alloc, kind, spot, set_sentence(alloc, fault)?))
}

fn set_sentence(alloc: Global, fault: &AddFault) -> Result<String, AllocError> {
    match fault {
        AddFault::BadName => limit_sentence(
            alloc,
            "the name of a module is longer than",
            MAX_NAME,
            "bytes",
        ),
        AddFault::TooLong => limit_sentence(
            alloc,
            "the text of a module is longer than",
            MAX_TEXT,
            "bytes",
        ),
        AddFault::Full => limit_sentence(
            alloc,
            "there are more than",
            MAX_CONTRIBUTIONS,
            "modules",
        ),
        AddFault::Memory => String::from_str(alloc, MEMORY),
    }
}

/// Where a module begins in the files.
fn start_of(lifted: &Lifted, module: usize) -> Option<Spot> {
    let (file, at) = lifted.modules.get(module)?.origin(0)?;
    Some(Spot { file, at })
}
