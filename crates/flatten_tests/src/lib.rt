//! Tests of outlines and of lifting, and of limits that they have in common with modules.
#![tactic(auto)]

#[cfg(test)]
mod excepts;
#[cfg(test)]
mod free_names;
#[cfg(test)]
mod grouped;
#[cfg(test)]
mod lifted_files;
#[cfg(test)]
mod limits;
#[cfg(test)]
mod outlines;
#[cfg(test)]
mod scopes;
