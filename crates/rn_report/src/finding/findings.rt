// What is told of a finding, before it is a sentence: the name that it is about, and the sites that are told.
use crate::placing::sites::{Site, Sites};
use crate::report::Page;
use rn_assemble::{Diagnosis, Finding, IncludePlace, Key, KeyId, Refusal, diagnose};
use rn_lift::Lifted;
use rn_modset::ModuleSet;
use std::alloc::{AllocError, Global};
use std::collections::BTreeMap;

/// What sentences are made from: the files, the modules and what these are made of, and what stands against them.
#[derive(Clone, Copy)]
pub struct Telling<'a> {
    /// Where sentences are held.
    pub alloc: Global,
    /// The files.
    pub pages: &'a [Page<'a>],
    /// The modules.
    pub sites: &'a Sites<'a>,
    /// What stands against the set of the modules.
    pub diagnosis: &'a Diagnosis<'a>,
}

/// The kind of a finding, in the order in which a set is refused for them.
#[derive(Clone, Copy, Debug, PartialEq, Eq, PartialOrd, Ord)]
pub enum FindingKind {
    /// An include overrides what is not there (RELAX NG 2001, 4.7).
    Override,
    /// A name is defined twice by `=` (RELAX NG 2001, 4.17).
    PlainTwice,
    /// A name is combined by both methods (RELAX NG 2001, 4.17).
    MixedMethods,
    /// There is no start (RELAX NG 2001, 4.18).
    NoStart,
    /// A name is referred to and not defined (RELAX NG 2001, 4.18).
    Undefined,
}

/// What is told of a finding.
#[derive(Clone, Copy, Debug, PartialEq, Eq, PartialOrd, Ord)]
pub struct ToldFinding<'v> {
    /// The kind of the finding.
    pub kind: FindingKind,
    /// The key or the name, as the file writes it.
    pub name: &'v str,
    /// Where the finding is told; `None` where that is not found.
    pub here: Option<Site>,
    /// The other definition or the include that the finding speaks of, or the first of two includes.
    pub there: Option<Site>,
    /// The other one of two includes by which a definition comes twice.
    pub elsewhere: Option<Site>,
}

/// Whether the whole schema is looked at, or parts of one, which may lack a start and definitions.
#[derive(Clone, Copy, Debug, PartialEq, Eq)]
pub enum Extent {
    /// All of a schema.
    Whole,
    /// Parts of a schema: neither the lack of a start nor a name that nothing defines is a fault.
    Parts,
}

impl Extent {
    /// Whether a finding of this kind is a fault.
    pub fn counts(self, kind: FindingKind) -> bool {
        self == Extent::Whole || !matches!(kind, FindingKind::NoStart | FindingKind::Undefined)
    }
}

/// What stands against a set that is refused; `None` where it is refused for its texts or includes.
pub fn diagnosis_of<'s>(
    alloc: Global,
    set: &'s ModuleSet,
    refusal: Option<&Refusal>,
) -> Result<Option<Diagnosis<'s>>, AllocError> {
    match diagnose(alloc, set, refusal) {
        Ok(diagnosis) => Ok(Some(diagnosis)),
        Err(Refusal::Memory) => Err(AllocError),
        Err(_) => Ok(None),
    }
}

/// Whether a refusal has findings: all of its kind are found, and it is the first of them.
pub fn has_findings(refusal: &Refusal) -> bool {
    matches!(
        refusal,
        Refusal::Override { .. }
            | Refusal::PlainTwice { .. }
            | Refusal::MixedMethods { .. }
            | Refusal::NoStart
            | Refusal::Undefined { .. }
    )
}

/// The name of a key; nothing for the start.
pub fn name_of_key(key: &Key) -> &str {
    match key {
        Key::Start => "",
        Key::Define(name) => name.as_str(),
    }
}

/// A key as the file writes it.
pub fn spelled_key<'k>(telling: &Telling<'_>, key: &'k str) -> &'k str {
    if key.is_empty() {
        "start"
    } else {
        telling.sites.lifted.written_name(key)
    }
}

/// What is told of a finding.
pub fn told_finding<'a>(telling: &Telling<'a>, finding: &Finding<'a>) -> ToldFinding<'a> {
    let sites = telling.sites;
    match finding {
        Finding::Override {
            key,
            component,
            include,
        } => of_key(
            telling,
            FindingKind::Override,
            *key,
            sites.definition(*component),
            sites.include(*include),
        ),
        Finding::PlainTwice {
            key,
            first,
            second,
            parting,
        } => {
            let here = sites.definition(*first);
            let there = if first == second {
                None
            } else {
                sites.definition(*second)
            };
            let told = of_key(telling, FindingKind::PlainTwice, *key, here, there);
            with_parting(telling, told, *parting)
        }
        Finding::MixedMethods {
            key,
            choice,
            interleave,
        } => of_key(
            telling,
            FindingKind::MixedMethods,
            *key,
            sites.definition(*choice),
            sites.definition(*interleave),
        ),
        Finding::NoStart => of_name(telling, FindingKind::NoStart, "", None, None),
        Finding::Undefined { name, reference } => of_name(
            telling,
            FindingKind::Undefined,
            name,
            sites.reference(*reference),
            None,
        ),
    }
}

/// A finding of a key that is told at these sites.
fn of_key<'a>(
    telling: &Telling<'a>,
    kind: FindingKind,
    key: KeyId,
    here: Option<Site>,
    there: Option<Site>,
) -> ToldFinding<'a> {
    of_name(telling, kind, telling.diagnosis.name(key), here, there)
}

/// A finding of a name that is told at these sites.
fn of_name<'a>(
    telling: &Telling<'a>,
    kind: FindingKind,
    name: &'a str,
    here: Option<Site>,
    there: Option<Site>,
) -> ToldFinding<'a> {
    ToldFinding {
        kind,
        name: spelled_key(telling, name),
        here,
        there,
        elsewhere: None,
    }
}

/// A finding with the two includes at which the ways part by which one definition comes twice, if there are any.
fn with_parting<'a>(
    telling: &Telling<'a>,
    told: ToldFinding<'a>,
    parting: Option<(IncludePlace, IncludePlace)>,
) -> ToldFinding<'a> {
    let Some((one, other)) = parting else {
        return told;
    };
    let mut told = told;
    told.there = telling.sites.include(one);
    told.elsewhere = telling.sites.include(other);
    told
}

/// For each module the first one that is made of the same grammar of the same file. Parts of one number come from one
/// place in both.
pub fn first_alike(alloc: Global, lifted: &Lifted) -> Result<Vec<usize>, AllocError> {
    let mut known = BTreeMap::new(alloc);
    let mut firsts = Vec::new(alloc);
    for (number, module) in lifted.modules.as_slice().iter().enumerate() {
        let mut first = number;
        if let Some(basis) = module.basis {
            let made_of = (basis.file, basis.grammar);
            match known.get(&made_of).copied() {
                Some(former) => first = former,
                None => {
                    known.insert(made_of, number)?;
                }
            }
        }
        firsts.push(first)?;
    }
    Ok(firsts)
}

/// The site in the first module that is alike.
fn site_alike(firsts: &[usize], site: Site) -> Site {
    match firsts.get(site.module).copied() {
        Some(module) => Site {
            module,
            part: site.part,
        },
        None => site,
    }
}

/// The finding with sites in the first modules that are alike, so that all of which the same is told are one.
pub fn finding_alike<'v>(firsts: &[usize], finding: ToldFinding<'v>) -> ToldFinding<'v> {
    ToldFinding {
        kind: finding.kind,
        name: finding.name,
        here: finding.here.map(|site| site_alike(firsts, site)),
        there: finding.there.map(|site| site_alike(firsts, site)),
        elsewhere: finding.elsewhere.map(|site| site_alike(firsts, site)),
    }
}
