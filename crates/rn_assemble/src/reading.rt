// What is read of the modules of a set: names, components by their keys, and includes.
pub(crate) mod contents;
pub(crate) mod key_rows;
pub(crate) mod keys;
pub(crate) mod named_modules;
