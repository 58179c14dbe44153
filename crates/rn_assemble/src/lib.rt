//! From a set of contributions to one grammar: includes, overrides, namespaces, combining, and the refusals of a set.
//!
//! Where a call answers `AllocError`, memory ran out; it refuses nothing else.
#![tactic(auto)]

pub mod assembly;
mod by_key;
pub mod diagnosing;
pub mod grammar;
mod including;
mod reading;
pub mod refusal;
mod resolving;
pub mod short_uris;
mod shortening;

pub use assembly::{ShortGrammar, assemble, assemble_short};
pub use diagnosing::diagnosis::{Diagnosis, diagnose};
pub use diagnosing::findings::Finding;
pub use diagnosing::places::{ComponentPlace, IncludePlace, LeftDefinition, ReferencePlace};
pub use grammar::{Definitions, Grammar};
pub use including::inclusion::INSTANCE_LIMIT;
pub use reading::keys::KeyId;
pub use reading::named_modules::ModuleId;
pub use refusal::{Key, Refusal};
pub use short_uris::{MAX_KEPT_URI, ShortUris};

pub mod laws;
