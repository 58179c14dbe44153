// What is wrong beside the first refusal, and which names are near to one that isn't there.
pub(crate) mod findings;
pub(crate) mod near_names;
pub(crate) mod nearest_keys;
