// Where URIs lie, by the words of a job and by the catalogs that they name.
use crate::flat_fault::FlatFault;
use crate::reading_faults::reading_fault;
use crate::words::Job;
use rn_files::{Asked, Files, Map, read_catalogs};
use rn_report::Format;
use std::alloc::{AllocError, Global};

/// The maps of a job, in groups: first those of its words, and then what its catalogs say. `Unread` where a catalog can't
/// be read, `Refused` where one is at fault.
pub fn job_maps<F: Files>(
    alloc: Global,
    files: &F,
    job: &Job,
    format: Format,
) -> Result<Vec<Vec<Map>>, FlatFault> {
    let mut groups = Vec::new(alloc);
    groups.push(copies_of(alloc, job.maps.as_slice())?)?;
    match read_catalogs(alloc, files, job.catalogs.as_slice()) {
        Ok(said) => {
            append(&mut groups, said)?;
            Ok(groups)
        }
        Err(fault) => Err(reading_fault(alloc, &Asked::nothing(), &fault, format)),
    }
}

/// Puts groups behind others.
fn append(groups: &mut Vec<Vec<Map>>, others: Vec<Vec<Map>>) -> Result<(), AllocError> {
    for group in others {
        groups.push(group)?;
    }
    Ok(())
}

/// Copies of maps.
fn copies_of(alloc: Global, maps: &[Map]) -> Result<Vec<Map>, AllocError> {
    let mut copies = Vec::new(alloc);
    for map in maps {
        copies.push(map.clone()?)?;
    }
    Ok(copies)
}
