// Includes followed: their order, how often modules are read, and the segments of a set.
pub(crate) mod inclusion;
pub(crate) mod pieces;
pub(crate) mod segments;
