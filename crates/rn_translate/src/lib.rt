//! Schemas in the XML syntax of RELAX NG, translated into the compact syntax.
//!
//! [`compact_text`] makes a compact text of a document, with the place of each piece, so that what is wrong with the
//! text is told of the document. It goes element by element and looks nowhere else, so work and memory grow with the
//! document and the text; nothing recurses.
#![tactic(auto)]

mod content;
mod datatypes;
mod document_parts;
mod draft;
mod elements;
mod items;
mod kinds;
mod name_classes;
mod prefixes;
mod printing;
mod rng_fault;
mod signs;
mod standing;
mod terms;
mod tokens;
mod translated;
mod translation;
mod translator;
mod uris;
mod walk;
mod written_names;

pub use draft::{MAX_TEXT, Origin};
pub use kinds::Kind;
pub use rng_fault::{RngFault, RngFaultKind};
pub use translated::{Origins, Translated};
pub use translation::compact_text;
