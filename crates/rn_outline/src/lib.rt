//! Outlines of files of the whole RELAX NG compact syntax: what a file is made of, with `external`,
//! `parent`, nested `grammar` and bare patterns (compact syntax, section 2; RELAX NG 2001, 4.5 to
//! 4.7, 4.18, 4.19). Nothing of an outline is borrowed, so it is kept beside its text.
//!
//! An `AllocError`, and `Memory` of a fault, says that memory ran out. It is the only error unless said otherwise.
#![tactic(auto)]

pub mod annotations;
mod declarations;
pub mod file_parts;
mod grouped;
mod items;
mod operands;
pub mod outline;
pub mod outline_fault;
mod outline_reader;
mod signs;
mod skips;

pub use annotations::annotation_end;
pub use file_parts::{
    DeclarationKind, FilePart, FilePartKind, Outline, OutlineDeclaration, OutlineMethod,
    OutlineUri, Shape, Span, is_link, name_in, unquoted_name,
};
pub use grouped::Grouped;
pub use outline::{MAX_OPEN, read_outline};
pub use outline_fault::{OutlineFault, Wanted};
