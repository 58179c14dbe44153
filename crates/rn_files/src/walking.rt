// From the files that are named to all that they refer to, each read once.
pub(crate) mod file_names;
pub(crate) mod following;
pub(crate) mod links;
pub(crate) mod meant_uris;
pub(crate) mod soundness;
pub(crate) mod source_reading;
pub(crate) mod walk;
