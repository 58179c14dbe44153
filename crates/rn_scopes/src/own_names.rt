// Generated names: distinct from all that are written, and from each other.
ghost use Rattle.std.specs.Prelude.{◌≡◌, ◌∷◌, ◌++◌, false, not, IfOk, OnOk, string_bytes};
ghost use Rattle.std.specs.BTreeSet.{contains_text};
ghost use Rattle.rn_scopes.specs.FreeNames.{name_span};
ghost use Rattle.rn_scopes.specs.NameSets.{Takes};

use crate::input_files::InputFile;
use crate::units::Units;
use rn_outline::{FilePartKind, Span, name_in};
use std::alloc::{AllocError, Global};
use std::collections::{BTreeMap, BTreeSet};

/// The most characters of a file's name that the stem of a generated name takes.
const STEM_LIMIT: usize = 80;

/// Names that are taken, and from which number on others made of the same name may be free.
#[derive(Drop)]
pub struct Taken {
    pub(crate) names: BTreeSet<String>,
    next: BTreeMap<String, u64>,
}

/// A name with a number after it; without one for the first.
fn numbered_name(alloc: Global, name: &str, number: u64) -> Result<String, AllocError> {
    if number <= 1 {
        return String::from_str(alloc, name);
    }
    format!(in alloc; "{name}-{number}")
}

fn add(names: &mut BTreeSet<String>, name: String) -> Result<(), AllocError>
    ensures { OnOk result (Takes (string_bytes name) names.old names.new) }
{
    names.insert(name)?;
    Ok(())
}

impl Taken {
    /// No name is taken.
    pub fn new(alloc: Global) -> Self {
        Taken {
            names: BTreeSet::new(alloc),
            next: BTreeMap::new(alloc),
        }
    }

    /// Takes a name: whether it was free.
    pub fn take(&mut self, alloc: Global, name: &str) -> Result<bool, AllocError>
        ensures free { IfOk result (λ r. r ≡ not (contains_text self.old.names name.now)) }
        ensures takes { OnOk result (Takes name.now self.old.names self.new.names) }
    {
        if self.names.contains(name) {
            return Ok(false);
        }
        add(&mut self.names, String::from_str(alloc, name)?)?;
        Ok(true)
    }

    /// Takes the first free one of a name, the name with `-2` after it, with `-3` and so on.
    pub fn fresh_name(&mut self, alloc: Global, name: &str) -> Result<String, AllocError>
        ensures free { IfOk result (λ r. contains_text self.old.names (string_bytes r) ≡ false) }
        ensures takes { IfOk result (λ r. Takes (string_bytes r) self.old.names self.new.names) }
    {
        let (made, number) = self.first_free_name(alloc, name)?;
        self.next.insert(String::from_str(alloc, name)?, number)?;
        add(&mut self.names, made.clone()?)?;
        Ok(made)
    }

    /// The first free one of a name, the name with `-2` after it, with `-3` and so on, and its number: 1 for the name
    /// itself.
    fn first_free_name(&self, alloc: Global, name: &str) -> Result<(String, u64), AllocError>
        ensures { IfOk result (λ r. contains_text self.now.names (string_bytes r.0) ≡ false) }
    {
        let first = self.next.get(name).copied().unwrap_or(1);
        for number in first..u64::MAX {
            let made = numbered_name(alloc, name, number)?;
            if !self.names.contains(made.as_str()) {
                return Ok((made, number));
            }
        }
        Err(AllocError)
    }
}

/// What follows the last slash.
fn last_segment(path: &str) -> &str {
    match path.rsplit_once('/') {
        Some((_, last)) => last,
        None => path,
    }
}

/// The stem of a file's name: its last segment without `.rnc`, made a name without dots, at most [`STEM_LIMIT`]
/// characters of it.
fn stem_of(alloc: Global, path: &str) -> Result<String, AllocError> {
    let last = last_segment(path);
    let name = last.strip_suffix(".rnc").unwrap_or(last);
    let mut stem = String::new(alloc);
    for c in name.chars().take(STEM_LIMIT) {
        push_stem(&mut stem, c)?;
    }
    if stem.is_empty() {
        stem.push('_')?;
    }
    Ok(stem)
}

/// Appends a character of a stem, so that the whole stays a name without dots.
fn push_stem(stem: &mut String, c: char) -> Result<(), AllocError> {
    if c.is_ascii_alphabetic() || c == '_' {
        return stem.push(c);
    }
    if stem.is_empty() {
        stem.push('_')?;
    }
    if c.is_ascii_digit() || c == '-' {
        return stem.push(c);
    }
    stem.push('_')
}

/// The token that is the name which a part defines or refers to.
pub(crate) fn name_span(kind: &FilePartKind) -> Option<Span>
    ensures { result ≡ name_span kind.now }
{
    match kind {
        FilePartKind::Define { name, .. }
        | FilePartKind::Reference { name }
        | FilePartKind::Parent { name } => { Some(*name) }
        _ => None,
    }
}

/// The name that a part defines or refers to; nothing, if it does neither.
pub(crate) fn written_name<'a>(text: &'a str, kind: &FilePartKind) -> &'a str {
    match name_span(kind) {
        Some(span) => name_in(text, span),
        None => "",
    }
}

/// A generated name: a stem, a dot and a name.
pub fn own_name(alloc: Global, stem: &str, name: &str) -> Result<String, AllocError>
    ensures { IfOk result (λ own. string_bytes own ≡ stem.now ++ (46 ∷ name.now)) }
{
    let mut own = String::from_str(alloc, stem)?;
    own.push_str(".")?;
    own.push_str(name)?;
    Ok(own)
}

/// The names that scopes and modules are given.
#[derive(Drop)]
pub struct Names {
    /// What is before the first dot of names, generated ones too.
    taken_stems: Taken,
    modules: Taken,
    /// Of each file, whether no module has its name yet.
    is_free: Vec<bool>,
    /// The generated stems.
    pub made_stems: BTreeSet<String>,
    /// What follows the dot for a start: a name that nobody writes.
    pub start: String,
}

impl Names {
    /// The names beside all that these files write and are called.
    pub(crate) fn of(alloc: Global, units: &Units<'_>) -> Result<Self, AllocError> {
        let mut names = Names {
            taken_stems: Taken::new(alloc),
            modules: Taken::new(alloc),
            is_free: Vec::new(alloc),
            made_stems: BTreeSet::new(alloc),
            start: String::new(alloc),
        };
        let mut starts = Taken::new(alloc);
        for given in &units.files {
            let is_free = names.modules.take(alloc, given.file.name)?;
            names.is_free.push(is_free)?;
            names.take_written(alloc, &mut starts, given)?;
        }
        names.start = starts.fresh_name(alloc, "start")?;
        Ok(names)
    }

    fn take_written(
        &mut self,
        alloc: Global,
        starts: &mut Taken,
        given: &InputFile<'_>,
    ) -> Result<(), AllocError> {
        let outline = given.file.outline;
        for part in &outline.parts {
            let name = written_name(given.file.text, &part.kind);
            if let Some((front, _)) = name.split_once('.') {
                self.taken_stems.take(alloc, front)?;
            }
            if name.starts_with("start") {
                starts.take(alloc, name)?;
            }
        }
        Ok(())
    }

    /// A stem for the names of a unit.
    pub(crate) fn stem(
        &mut self,
        alloc: Global,
        units: &Units<'_>,
        unit: usize,
    ) -> Result<String, AllocError>
        ensures free { IfOk result (λ r.
            contains_text self.old.taken_stems.names (string_bytes r) ≡ false) }
        ensures taken { IfOk result (λ r.
            Takes (string_bytes r) self.old.taken_stems.names self.new.taken_stems.names) }
        ensures own { IfOk result (λ r.
            Takes (string_bytes r) self.old.made_stems self.new.made_stems) }
    {
        let wished = wished_stem(alloc, units, unit)?;
        let stem = self.taken_stems.fresh_name(alloc, wished.as_str())?;
        add(&mut self.made_stems, stem.clone()?)?;
        Ok(stem)
    }

    /// A name for the module of a unit in the scope of a stem: the file's own, if it is still free and the scope that
    /// of the roots.
    pub(crate) fn module(
        &mut self,
        alloc: Global,
        units: &Units<'_>,
        unit: usize,
        stem: &str,
    ) -> Result<String, AllocError> {
        if stem.is_empty() {
            if let Some(name) = self.file_name(units, unit) {
                return String::from_str(alloc, name);
            }
        }
        let wished = wished_stem(alloc, units, unit)?;
        let wished = wished.as_str();
        let name = format!(in alloc; "~{stem}~{wished}")?;
        self.modules.fresh_name(alloc, name.as_str())
    }

    /// A name for the module that brings in the scope of a stem.
    pub(crate) fn entry(&mut self, alloc: Global, stem: &str) -> Result<String, AllocError>
        ensures free { IfOk result (λ r.
            contains_text self.old.modules.names (string_bytes r) ≡ false) }
        ensures taken { IfOk result (λ r.
            Takes (string_bytes r) self.old.modules.names self.new.modules.names) }
    {
        let name = format!(in alloc; "~{stem}")?;
        self.modules.fresh_name(alloc, name.as_str())
    }

    /// The name of a unit's file, if it is the file's own and no module has it yet.
    fn file_name<'a>(&mut self, units: &Units<'a>, unit: usize) -> Option<&'a str> {
        let unit = units.units.get(unit)?;
        let is_free = self.is_free.get_mut(unit.file)?;
        if unit.grammar != 0 || !*is_free {
            return None;
        }
        *is_free = false;
        Some(units.files.get(unit.file)?.file.name)
    }
}

/// The stem of a unit's file, with the number of a nested grammar.
fn wished_stem(alloc: Global, units: &Units<'_>, unit: usize) -> Result<String, AllocError> {
    let Some(unit) = units.units.get(unit) else {
        return String::from_str(alloc, "_");
    };
    let name = match units.files.get(unit.file) {
        Some(given) => given.file.name,
        None => "_",
    };
    let stem = stem_of(alloc, name)?;
    if unit.grammar == 0 {
        return Ok(stem);
    }
    let grammar = unit.grammar;
    let stem = stem.as_str();
    format!(in alloc; "{stem}-{grammar}")
}
