//! How files of the whole RELAX NG compact syntax become modules without `external`, `parent`, nested
//! `grammar` and bare patterns, each byte with its origin (RELAX NG 2001, 4.6, 4.7, 4.18, 7.1.4).
#![tactic(auto)]

mod added_prefixes;
mod body_chunks;
mod draft;
mod edits;
mod except_references;
mod excepts;
pub mod lifted;
pub mod lifting;
mod module_texts;
mod scope_definitions;

pub use excepts::MAX_EXCEPTS;
pub use lifted::{Basis, Lifted, LiftedModule, Piece};
pub use lifting::{MAX_GROWTH, lift};
