//! What stands against a set, with the definitions and includes that it speaks of.
pub mod diagnosis;
pub mod findings;
pub(crate) mod left_definitions;
pub(crate) mod loops;
pub(crate) mod occurrences;
pub mod places;
pub(crate) mod undefined_names;
