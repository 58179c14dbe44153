//! Modules of the RELAX NG compact syntax, from tokens to trees as they are written.
#![tactic(auto)]

mod bindings;
mod brackets;
mod constructors;
pub mod fault;
pub mod included;
pub mod laws;
mod places;
mod productions;
pub mod reader;
mod rules;
pub mod tree;

pub use bindings::{Bindings, XML_URI, XSD_URI};
pub use brackets::MAX_OPEN;
pub use fault::{FaultKind, SyntaxFault};
pub use included::includes;
pub use reader::parse;
pub use tree::{
    AnyName, Data, Datatype, Declaration, Include, Item, Method, Module, Named, Nc, Operator,
    Param, Pat, Postfix, Prefix, PrefixedName, Uri, Value,
};
