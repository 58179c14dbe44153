// Where a URI is looked for: maps, catalogs, and the locations that both give.
pub(crate) mod catalog_maps;
pub(crate) mod catalogs;
pub(crate) mod locations;
pub(crate) mod maps;
