// What is done key by key: checks, references, combining, and the order of definitions.
pub(crate) mod checks;
pub(crate) mod combining;
pub(crate) mod references;
pub(crate) mod settling_order;
