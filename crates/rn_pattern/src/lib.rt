//! Patterns and name classes with their names resolved, their order, and stores of canonical patterns (RELAX NG 2001,
//! section 3, after the simplification of section 4).
//!
//! A [`Patterns`] store names each pattern by an id. Its constructors bring a pattern into canonical form on the way
//! in: `notAllowed` and `empty` are propagated (4.20, 4.21), lists within lists of their kind are opened, and the
//! members of a choice or an interleave are put in one order. [`Plain`] keeps each pattern that it is asked for; in
//! [`Interned`] equal patterns have equal ids.
//!
//! [`laws`] has what is proved of canonical patterns. [`name_classes`] has the restrictions on name classes (4.16).
//! [`ReferenceRows`] are the references of definitions, everywhere and outside elements, as edges of graphs.
//!
//! [`new_box`] puts a value in a box of its own, [`new_shared`] where it can be shared.
//!
//! Where a call answers `AllocError`, memory ran out; it refuses nothing else.
#![tactic(auto)]

mod canonical;
mod connector;
mod copies;
mod heads;
mod name_class;
pub mod name_classes;
pub mod node;
mod node_parts;
mod order;
pub mod references;
pub mod small_string;
pub mod tables;
pub mod tree;

pub use name_classes::XMLNS_URI;
pub use node::{Node, NodeId};
pub use references::{NodeReferences, Reach, ReferenceRows};
pub use small_string::SmallString;
pub use tables::hashing::Seed;
pub use tables::interned::Interned;
pub use tables::pattern_store::Patterns;
pub use tables::plain::Plain;
pub use tree::{Data, NameClass, Named, Pattern, Value, new_box, new_shared};

pub mod laws;
