//! Documents of XML 1.0 (Fifth Edition) with Namespaces 1.0, without a document type declaration.
//!
//! [`decode`] makes a text of the bytes of a file, and [`read_document`] reads it. Nothing is expanded or fetched. Each
//! element, attribute and text has its place, a byte offset in the decoded text. What is no such document is refused with
//! its first fault. Time and memory grow with the bytes; nothing recurses.
#![tactic(auto)]

mod characters;
mod declaration;
mod document;
mod encoding;
mod indices;
mod markup;
mod reader;
mod references;
mod scopes;
mod sentences;
mod stop;
mod tables;
mod tags;
mod utf16;
mod values;
mod xml_fault;

pub use document::{
    NO_NAMESPACE, Rows, XML_NAMESPACE, XmlAttribute, XmlDeclaration, XmlDocument, XmlElement,
    XmlName, XmlText,
};
pub use encoding::{decode, is_xml};
pub use reader::read_document;
pub use scopes::Scopes;
pub use sentences::FaultSentence;
pub use xml_fault::{Encoding, MAX_DEPTH, Undecoded, XmlFault, XmlFaultKind};
