// The nearest of the names that a schema has, in the place of one that it lacks.
use super::findings::{Telling, ToldFinding, spelled_key};
use super::near_names::NearestName;
use crate::placing::sites::{Site, Sites, include_of, key_of};
use std::alloc::{AllocError, Global};

/// A name that is not defined, with the nearest one of its grammar.
pub fn undefined_name(
    telling: &Telling<'_>,
    finding: ToldFinding<'_>,
) -> Result<String, AllocError> {
    let mut nearest = NearestName::new();
    let used = finding.here.and_then(|site| telling.sites.used_name(site));
    let stem = stem_of(used, finding.name);
    for key in telling.diagnosis.defined_names(telling.alloc)? {
        offer_key(telling, finding.name, stem, key, &mut nearest)?;
    }
    nearest.sentence(telling.alloc, finding.name)
}

/// What stands in the modules before a name that a file writes.
fn stem_of<'t>(name: Option<&'t str>, written: &str) -> &'t str {
    name.and_then(|name| name.strip_suffix(written))
        .unwrap_or("")
}

/// Offers a key as the file writes it in the place of a name, if it is one of the grammar whose names have this stem.
fn offer_key<'t>(
    telling: &Telling<'t>,
    name: &str,
    stem: &str,
    key: &'t str,
    nearest: &mut NearestName<'t>,
) -> Result<(), AllocError> {
    match key.strip_prefix(stem) {
        Some(other) if !key.is_empty() && spelled_key(telling, key) == other => {
            nearest.offer(telling.alloc, name, other)
        }
        _ => Ok(()),
    }
}

/// What is said of the nearest name that the file that is included there defines, with what it includes.
pub fn provided_advice(
    telling: &Telling<'_>,
    finding: ToldFinding<'_>,
    include: Site,
) -> Result<String, AllocError> {
    let mut nearest = NearestName::new();
    let key = finding.here.and_then(|site| telling.sites.key(site));
    let stem = stem_of(key, finding.name);
    if let Some(module) = telling.sites.included_module(include) {
        for key in provided_keys(telling.alloc, telling.sites, module)? {
            offer_key(telling, finding.name, stem, key, &mut nearest)?;
        }
    }
    nearest.advice(telling.alloc)
}

/// The keys that a module, with all that it includes, defines, in order; nothing stands for the start.
fn provided_keys<'v>(
    alloc: Global,
    sites: &'v Sites<'_>,
    module: usize,
) -> Result<Vec<&'v str>, AllocError> {
    let mut keys = Vec::new(alloc);
    let mut brought = vec![in alloc; module]?;
    let mut is_brought = vec![in alloc; false; sites.modules.len()]?;
    for number in 0..sites.modules.len() {
        let Some(module) = brought.get(number).copied() else {
            break;
        };
        push_keys(sites, module, &mut keys)?;
        push_included(sites, module, &mut is_brought, &mut brought)?;
    }
    keys.sort()?;
    Ok(keys)
}

/// Adds the keys that a module defines itself.
fn push_keys<'v>(
    sites: &'v Sites<'_>,
    module: usize,
    keys: &mut Vec<&'v str>,
) -> Result<(), AllocError> {
    let text = sites.text(module);
    for part in sites.parts(module) {
        if let Some(key) = key_of(text, part) {
            keys.push(key)?;
        }
    }
    Ok(())
}

/// Adds the modules that a module includes and that weren't brought before.
fn push_included(
    sites: &Sites<'_>,
    module: usize,
    is_brought: &mut [bool],
    brought: &mut Vec<usize>,
) -> Result<(), AllocError> {
    for part in sites.parts(module) {
        let included = include_of(part).and_then(|name| sites.number_of(name));
        if let Some(target) = included {
            if let Some(mark) = is_brought.get_mut(target) {
                if !*mark {
                    *mark = true;
                    brought.push(target)?;
                }
            }
        }
    }
    Ok(())
}
