// Why a document is no schema that is translated.
use crate::kinds::Kind;
use std::alloc::{AllocError, AllocFailed, Global};
use thiserror::Error;

/// The most characters of a name or a URI of the document that a sentence has.
const SHOWN: usize = 80;

/// What is wrong with a schema in the XML syntax. Of names and URIs the first 80 characters are kept.
#[derive(Debug, Drop, PartialEq, Eq, Error)]
pub enum RngFaultKind {
    /// The root is no pattern of RELAX NG (section 3).
    #[error("this is no RELAX NG schema: its root is `{local}` of the namespace \"{uri}\"")]
    NoSchema {
        /// The local name of the root.
        local: String,
        /// The namespace of the root.
        uri: String,
    },
    /// An element of the namespace of RELAX NG that has another name than those of section 3.
    #[error("`{0}` is no element of RELAX NG")]
    Element(String),
    /// An element that can't be in the one around it (section 3).
    #[error("`{}` can't stand in `{}`", .inner.name(), .outer.name())]
    Misplaced {
        /// The element.
        inner: Kind,
        /// The element around it.
        outer: Kind,
    },
    /// An element of another vocabulary in one that holds a text alone (section 3).
    #[error("an element of another namespace can't stand in `{}`", .0.name())]
    Foreign(Kind),
    /// A pattern too many: `start` and `attribute` have one.
    #[error("`{}` has one pattern", .0.name())]
    SecondPattern(Kind),
    /// Something after the except of data or of a name class, or a second one.
    #[error("`{}` has one except, which comes last", .0.name())]
    BehindExcept(Kind),
    /// An element that needs a pattern and has none.
    #[error("`{}` has no pattern", .0.name())]
    NoPattern(Kind),
    /// An element that needs a name class and has none.
    #[error("`{}` has no name class", .0.name())]
    NoNameClass(Kind),
    /// An element that has neither the attribute `name` nor a name class.
    #[error("`{}` has neither the attribute name nor a name class", .0.name())]
    NoName(Kind),
    /// Text other than white space where none can be.
    #[error("text can't stand in `{}`", .0.name())]
    Text(Kind),
    /// An attribute without namespace, or of the namespace of RELAX NG, that the element doesn't have.
    #[error("`{}` has no attribute `{name}`", .element.name())]
    Attribute {
        /// The element.
        element: Kind,
        /// The attribute, as it is written.
        name: String,
    },
    /// An attribute that the element needs.
    #[error("`{}` lacks its attribute {attribute}", .element.name())]
    Lacking {
        /// The element.
        element: Kind,
        /// The name of the attribute.
        attribute: &'static str,
    },
    /// A value of `combine` other than `choice` and `interleave`.
    #[error("combine is choice or interleave")]
    Combine,
    /// A fragment in a value of `href` (4.5).
    #[error("an href has no fragment")]
    Fragment,
    /// `xml:base` at an element of RELAX NG.
    #[error("xml:base is not followed: write it into the href")]
    Base,
    /// A value that is to be a name.
    #[error("`{0}` is no name")]
    Name(String),
    /// The prefix of a name, which nothing declares (4.10).
    #[error("the prefix `{0}` is not declared")]
    Prefix(String),
    /// A value with a character that XML doesn't have. No document that was read has one.
    #[error("a character that XML does not have can't stand in a schema")]
    Character,
    /// The compact text would have more than [`MAX_TEXT`](crate::MAX_TEXT) bytes.
    #[error("the schema would have more than 4,194,304 bytes in the compact syntax")]
    Large,
    /// A request for memory was refused; the place means nothing.
    #[error("out of memory")]
    Memory,
}

/// The first fault of a document that is no schema, and its place.
#[derive(Debug, Drop, PartialEq, Eq)]
pub struct RngFault {
    /// The byte of the document's text where the fault is, counted from 0.
    pub at: usize,
    /// What is wrong there.
    pub kind: RngFaultKind,
}

impl From<AllocError> for RngFault {
    fn from(_: AllocError) -> Self {
        RngFault {
            at: 0,
            kind: RngFaultKind::Memory,
        }
    }
}

impl<T: Drop> From<AllocFailed<T>> for RngFault {
    fn from(_: AllocFailed<T>) -> Self {
        RngFault {
            at: 0,
            kind: RngFaultKind::Memory,
        }
    }
}

impl RngFault {
    /// A fault at a place.
    pub(crate) fn new(at: usize, kind: RngFaultKind) -> RngFault {
        RngFault { at, kind }
    }
}

/// A name or a URI as a sentence has it: of a longer one the first characters, and then two dots.
pub(crate) fn shown(alloc: Global, name: &str) -> Result<String, AllocError> {
    let mut shown = format!(in alloc; "{name:.SHOWN$}")?;
    if shown.len() < name.len() {
        shown.push_str("..")?;
    }
    Ok(shown)
}
