// What is wrong with files, and where.

use crate::opening::files::FileFault;
use crate::references::uri_references::ReferenceFault;
use rn_catalog::CatalogFaultKind;
use rn_outline::Wanted;
use rn_translate::RngFaultKind;
use rn_xml::XmlFaultKind;
use std::alloc::{AllocError, Global};

/// What a fault is about.
#[derive(Clone, Copy, Debug, PartialEq, Eq)]
pub enum FaultPlace {
    /// The file with this number among those that are asked for.
    Word(usize),
    /// The root folder.
    Root,
    /// The current folder.
    Current,
    /// The catalogs that are asked for.
    Catalogs,
    /// This byte of the file with this number among those that were read.
    Text {
        /// The number of the file.
        file: usize,
        /// The byte of the file's text, counted from 0.
        at: usize,
    },
}

/// Why a word or a reference leads to no file.
#[derive(Clone, Copy, Debug, PartialEq, Eq)]
pub enum LinkFault {
    /// The reference names no file.
    Reference(ReferenceFault),
    /// The file or the folder can't be read.
    File(FileFault),
    /// The file may not be read, since it lies outside of the root folder.
    Outside,
    /// The name of the file's module is longer than [`rn_modset::MAX_NAME`] bytes.
    Name,
    /// The file was named before by another word, or another file has the name of its module.
    Twice,
    /// With the file there are more than [`MAX_SOURCES`](crate::MAX_SOURCES).
    Count,
    /// A request for memory was refused.
    Memory,
}

impl From<AllocError> for LinkFault {
    fn from(_: AllocError) -> Self {
        LinkFault::Memory
    }
}

impl From<FileFault> for LinkFault {
    fn from(fault: FileFault) -> Self {
        match fault {
            FileFault::Memory => LinkFault::Memory,
            fault => LinkFault::File(fault),
        }
    }
}

impl From<ReferenceFault> for LinkFault {
    fn from(fault: ReferenceFault) -> Self {
        match fault {
            ReferenceFault::Memory => LinkFault::Memory,
            fault => LinkFault::Reference(fault),
        }
    }
}

/// What was tried for a reference that led to no file.
#[derive(Debug, Drop, PartialEq, Eq)]
pub struct Tried {
    /// The URI that the reference means, or is, if a map finds it.
    pub uri: Option<String>,
    /// The path where the file was looked for, as it is told to people; or the URI where no path is known, or that to which
    /// a map leads. Empty where nothing was tried.
    pub place: String,
}

impl Tried {
    /// Nothing was tried.
    pub fn nothing(alloc: Global) -> Tried {
        Tried::at(String::new(alloc))
    }

    /// A place was tried that no map found.
    pub fn at(place: String) -> Tried {
        Tried { uri: None, place }
    }
}

/// What is wrong at the place of a fault.
#[derive(Debug, Drop, PartialEq, Eq)]
pub enum SourceFaultKind {
    /// A word, a folder, a reference or a catalog leads to no file that is read.
    Link {
        /// Why it leads to none.
        fault: LinkFault,
        /// What was tried for it.
        tried: Tried,
    },
    /// The text begins with the byte order mark of UTF-16.
    Utf16,
    /// The text is not UTF-8 from the place of the fault on.
    Encoding,
    /// At the place of the fault is what XML does not allow, or what is no token, white space or comment.
    Lexical,
    /// With the token at the place of the fault, the text is no pattern and no grammar any more; what could come there,
    /// where it is one of few things.
    Syntax(Option<Wanted>),
    /// With the bracket at the place of the fault, too many are open at once.
    Deep,
    /// The document is not well-formed at the place of the fault.
    Document(XmlFaultKind),
    /// The document is no schema in the XML syntax, at the place of the fault.
    Schema(RngFaultKind),
    /// The text is no catalog.
    Catalog(CatalogFaultKind),
    /// The catalog that is named is one that led here, by further catalogs.
    CatalogLoop,
    /// The catalog that is named is at this URI, which is no file's.
    FarCatalog(String),
    /// With the catalog that is named there are more than [`MAX_SOURCES`](crate::MAX_SOURCES).
    ManyCatalogs,
    /// The reference closes a loop through these files, in order, of which the first is the one that is referred to
    /// here.
    Loop(Vec<usize>),
    /// The sources don't keep what is promised of them; no files are known for which this is so.
    Unsound,
}

/// A fault and its place.
#[derive(Debug, Drop, PartialEq, Eq)]
pub struct SourceFault {
    /// What the fault is about.
    pub place: FaultPlace,
    /// What is wrong there.
    pub kind: SourceFaultKind,
}

impl SourceFault {
    /// The fault of a link for which nothing was tried.
    pub(crate) fn untried(alloc: Global, place: FaultPlace, fault: LinkFault) -> SourceFault {
        let tried = Tried::nothing(alloc);
        SourceFault {
            place,
            kind: SourceFaultKind::Link { fault, tried },
        }
    }
}
