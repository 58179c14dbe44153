//! Tests of rn_catalog by example.
#![tactic(auto)]

#[cfg(test)]
mod catalogs;
