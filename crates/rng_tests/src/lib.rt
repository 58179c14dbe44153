//! Tests of schemas in the XML syntax: texts of the compact syntax with the XML that they stand for, worked out by hand.
#![tactic(auto)]

#[cfg(test)]
mod data;
#[cfg(test)]
mod faults;
#[cfg(test)]
mod names;
#[cfg(test)]
mod namespaces;
#[cfg(test)]
mod patterns;
#[cfg(test)]
mod rows;
