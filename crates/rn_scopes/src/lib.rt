//! Which modules files of the whole RELAX NG compact syntax become: the grammars of the files, the
//! scopes and namespaces in which they are placed, and the names generated for all of these
//! (RELAX NG 2001, 4.6, 4.7, 4.8, 4.18).
//!
//! An `AllocError`, and `Memory` of a fault, says that memory ran out. It is the only error unless said otherwise.
#![tactic(auto)]

mod free_names;
pub mod input_files;
pub mod lift_fault;
mod linking;
mod marks;
mod namespaces;
mod outline_bindings;
pub mod own_names;
pub mod plan;
mod root_includes;
pub mod scopes;
pub mod units;

pub use input_files::{InputFile, Lifting};
pub use lift_fault::{LiftFault, LiftFaultKind};
pub use own_names::{Names, Taken, own_name};
pub use plan::{MAX_PLACES, make_plan};
pub use scopes::{Link, PlacedUnit, Plan, ROOT, Scope};
pub use units::{Unit, Units};
