// Patterns with their names resolved, under the namespace that a module inherits.
pub(crate) mod constants;
pub(crate) mod context;
pub(crate) mod declared_uris;
pub(crate) mod nodes;
pub(crate) mod resolution;
