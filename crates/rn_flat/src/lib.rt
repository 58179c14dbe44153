//! From files to one flat schema: the work of the program `rnc-flat`.
//!
//! [`read_words`] says what words ask for, and [`perform`] does it: it reads the files with all that they reach, lifts
//! them to modules, and writes or compares the schema of their set. The text that it writes is the one that
//! `rn_merge::merge` answers, and where there is none it writes nothing.
//!
//! An `AllocError`, and `Memory` of a fault, says that memory ran out. It is the only error unless said otherwise.
#![tactic(auto)]

mod asked_tasks;
mod catalogs;
pub mod compare;
pub mod definition_lines;
pub mod ending;
pub mod flat_fault;
mod gathering;
pub mod jobs;
pub mod lint;
pub mod module_set;
pub mod outputs;
mod products;
mod reading_faults;
pub mod unreached;
pub mod words;

pub use ending::{Ending, ending_status};
pub use flat_fault::{FlatFault, fault_lines, status};
pub use jobs::perform;
pub use outputs::{Outputs, STANDARD_OUTPUT, WriteFault, unwritten_fault};
pub use rn_report::{Colours, Format};
pub use words::{ColourChoice, Job, Product, Syntax, Task, Words, read_words};
