//! Unit tests of single layers, and the samples that tests are given.
#![tactic(auto)]

#[cfg(test)]
mod bundles;
#[cfg(test)]
mod characters;
#[cfg(test)]
mod contributions;
#[cfg(test)]
mod grammars;
#[cfg(test)]
mod literals;
#[cfg(test)]
mod memory_of_grammars;
#[cfg(test)]
mod memory_of_sets;
#[cfg(test)]
mod modules;
#[cfg(test)]
mod order;
#[cfg(test)]
mod pattern_lines;
#[cfg(test)]
mod pattern_parts;
pub mod samples;
#[cfg(test)]
mod sets;
#[cfg(test)]
mod settling_orders;
#[cfg(test)]
mod sizes;
#[cfg(test)]
mod small_strings;
#[cfg(test)]
mod stores;
#[cfg(test)]
mod tokens;
