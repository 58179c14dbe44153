//! Stores of canonical patterns, and the tables that they rest on.
pub mod hashing;
pub mod interned;
pub(crate) mod libraries;
pub(crate) mod node_table;
pub mod pattern_store;
pub mod plain;
pub(crate) mod store;
