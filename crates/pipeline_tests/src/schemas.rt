// Sets that print a schema: how patterns are printed and combined, long URIs, limits.
pub mod combining;
pub mod large;
pub mod lists;
pub mod long_uris;
pub mod printing;
pub mod repeats;
pub mod settling;
pub mod uri_orders;
