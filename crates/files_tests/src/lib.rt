//! Tests of files and of what they refer to.
#![tactic(auto)]

#[cfg(test)]
mod asked_files;
#[cfg(test)]
mod catalogs;
#[cfg(test)]
mod comparing;
#[cfg(test)]
mod line_breaks;
#[cfg(test)]
mod source_faults;
#[cfg(test)]
mod source_limits;
#[cfg(test)]
mod source_reading;
#[cfg(test)]
mod uri_references;
#[cfg(test)]
mod xml_files;
