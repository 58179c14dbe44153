//! Tests of documents of XML: texts with the tables or the fault that they have, worked out by hand.
#![tactic(auto)]

#[cfg(test)]
mod encodings;
#[cfg(test)]
mod faults;
#[cfg(test)]
mod hostile;
#[cfg(test)]
mod infosets;
#[cfg(test)]
mod namespaces;
#[cfg(test)]
mod productions;
#[cfg(test)]
mod rows;
#[cfg(test)]
mod sentences;
