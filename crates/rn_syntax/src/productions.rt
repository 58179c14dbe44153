// One function for each production of the grammar.
pub(crate) mod annotations;
pub(crate) mod datatypes;
pub(crate) mod declarations;
pub(crate) mod items;
pub(crate) mod literals;
pub(crate) mod modules;
pub(crate) mod names;
pub(crate) mod patterns;
pub(crate) mod terminals;
