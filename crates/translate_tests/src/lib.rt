//! Tests of schemas in the XML syntax that are translated: documents with their compact text, or with
//! the place and the sentence of their fault, worked out by hand.
#![tactic(auto)]

#[cfg(test)]
mod data;
#[cfg(test)]
mod faults;
#[cfg(test)]
mod items;
#[cfg(test)]
mod names;
#[cfg(test)]
mod patterns;
#[cfg(test)]
mod places;
#[cfg(test)]
mod rows;
