//! The canonical grammar of a grammar, and its text.
//!
//! [`normalise`] settles the references whose definitions come to notAllowed or empty, brings each pattern into its
//! canonical form, and keeps the definitions that are reached from the start. [`print`] gives the one text of a
//! canonical grammar in the compact syntax.
//!
//! An `AllocError` says that memory ran out. It is the only error unless said otherwise.
#![tactic(auto)]

mod class_text;
mod declared_prefixes;
mod evaluation;
mod form_kind;
mod joined_bodies;
pub mod laws;
mod mentions;
pub mod normal;
pub mod normalising;
mod pattern_text;
pub mod printing;
mod reachable;
mod rebuilding;
mod references;
mod repeated_members;
mod settled_definitions;
mod shapes;
mod stored_forms;
mod writer;

pub use normal::Normal;
pub use normalising::{normalise, normalise_in};
pub use printing::{print, print_long};
