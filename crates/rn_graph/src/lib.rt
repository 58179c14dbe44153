//! Graphs whose nodes are numbers: definitions and what they refer to, modules and what they include.
//!
//! The edges of a graph are [`Rows`]: of each node, the nodes that its edges lead to. [`graph`] finds the nodes that are
//! reached. [`ranks`] puts each node after those that its edges lead to, or finds the least node on a loop. [`loops`]
//! finds a shortest loop through a node. Work and memory grow with the nodes and edges; nothing recurses. Where a call
//! answers `AllocError`, memory ran out; it refuses nothing else.
#![tactic(auto)]

pub mod graph;
pub mod loops;
pub mod ranks;
pub mod rows;
mod search;

pub use rows::Rows;
