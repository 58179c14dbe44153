//! Merging a set of modules into one flat schema, and the work of the program `rnc-merge`.
//!
//! An `AllocError`, and `Memory` of a fault, says that memory ran out. It is the only error unless said otherwise.
#![tactic(auto)]

pub mod laws;
pub mod lines;
pub mod run;
pub mod streams;
pub mod text_faults;
pub mod verdict;
pub mod words;

pub use lines::{fault_line, list_line, refusal_line, status};
pub use run::{RunFault, Status, read_bundles, run_print};
pub use streams::{
    Failed, Input, MAX_INPUT, Output, ReadFault, Sink, Source, read_input, write_output,
};
pub use text_faults::{Place, check};
pub use verdict::merge;
pub use words::{Job, ProgramFault, STANDARD_INPUT, copies, plan};
