// Where in the files that stands which a refusal speaks of.
pub(crate) mod cursor;
pub(crate) mod placed_definitions;
pub(crate) mod sites;
