// What is opened and read: files, their bounds, the root folder, files in memory.
pub(crate) mod bounds;
pub(crate) mod file_texts;
pub(crate) mod files;
pub(crate) mod memory_files;
pub(crate) mod root_folder;
pub(crate) mod shown_paths;
