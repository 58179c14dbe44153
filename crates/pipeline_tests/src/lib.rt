//! Tests over all crates: sets and texts with the answers that the rules give them, worked out by hand.
#![tactic(auto)]

#[cfg(test)]
mod faults;
#[cfg(test)]
mod schemas;
#[cfg(test)]
mod shared;
