// What is refused or fails: sets, texts, words, sources and sinks, memory; and the lines that say so.
pub mod checks;
pub mod lines;
pub mod memory_of_merges;
pub mod memory_of_schemas;
pub mod refusals;
pub mod streams;
pub mod words;
