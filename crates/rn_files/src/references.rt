// URIs and paths as they are written, and what a reference of a file stands for.
pub(crate) mod escapes;
pub(crate) mod paths;
pub(crate) mod uri_references;
pub(crate) mod uris;
