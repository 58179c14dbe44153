//! The files of a schema: those that are named and all that they include or refer to, each one read once.
//!
//! [`read_sources`] follows each reference from the URI of its file (RFC 3986, section 5.2), through maps of URIs to
//! folders, to a file that [`Files`] reads. Each file is one source with a module's name, however it is spelled.
//! With a root folder, what was opened is read only where it lies in that folder, or in the folder of the map that found
//! it. [`position`] and [`line_of`] say where a byte of a text stands.
//!
//! Work and memory grow with the bytes that are read and the references in them; nothing recurses.
//! An `AllocError`, and `Memory` of a fault, says that memory ran out. It is the only error unless said otherwise.
#![tactic(auto)]

pub mod laws;
mod line_breaks;
mod mapping;
mod module_names;
mod opening;
mod positions;
mod references;
mod source_faults;
mod sources;
mod walking;

pub use line_breaks::Position;
pub use mapping::catalogs::read_catalogs;
pub use mapping::maps::{Map, MapPlace, MapTarget, UriPart};
pub use module_names::module_name;
pub use opening::file_texts::MAX_TEXT;
pub use opening::files::{FileFault, Files, Kinds, OpenedFile, STANDARD_INPUT};
pub use opening::memory_files::MemoryFiles;
pub use positions::{line_of, position};
pub use references::paths::remove_dot_segments;
pub use references::uri_references::{ReferenceFault, resolve};
pub use rn_catalog::CatalogFaultKind;
pub use source_faults::{FaultPlace, LinkFault, SourceFault, SourceFaultKind, Tried};
pub use sources::{Asked, Attempt, SourceFile, Sources, XmlSource};
pub use walking::source_reading::{
    LinkedFiles, Reading, ReadingFault, read_files, read_sources, sources_of,
};
pub use walking::walk::MAX_SOURCES;
