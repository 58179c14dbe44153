//! The XML syntax of RELAX NG: a module of the compact syntax as one canonical XML text.
//!
//! [`module_xml`] writes the XML that a module means by the compact syntax's specification, in one spelling;
//! [`schema_xml`] does so for the text of a module, such as a printed schema.
#![tactic(auto)]

mod class_xml;
mod data_xml;
mod element_context;
mod escapes;
pub mod grammar_xml;
pub mod laws;
mod lines;
pub mod meaning_laws;
mod namespaces;
mod pattern_xml;
pub mod schema_text;
mod tag;
pub mod xml_fault;

pub use grammar_xml::module_xml;
pub use lines::MAX_XML;
pub use schema_text::schema_xml;
pub use xml_fault::XmlFault;
