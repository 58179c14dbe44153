// Grammars: those of the files, and nested ones, each with the parts that belong to it.
ghost use Rattle.std.specs.Prelude.{◌≡◌, [], ◌∷◌, ◌++◌, All, IfOk, OnOk};
ghost use Rattle.rn_scopes.specs.UnitFiles.{HasTargets, files_of};

use crate::input_files::{InputFile, Lifting};
use crate::marks::{is_marked, marked_nodes, spread};
use crate::own_names::written_name;
use rn_outline::{FilePart, FilePartKind, Outline, Shape, Span};
use std::alloc::{AllocError, Global};

/// A grammar of a file, or the pattern that a file is.
#[derive(Drop)]
pub struct Unit {
    /// The index of the file.
    pub file: usize,
    /// The index of the grammar in the file's outline; 0 is the file's own.
    pub grammar: usize,
    /// The indices of the unit's parts, in the order of the outline.
    pub parts: Vec<usize>,
    /// What is in the unit: the file after its declarations, or what is between the braces.
    pub inside: Span,
    /// Whether what the unit becomes depends on the namespace that it inherits: it has externals or
    /// nested grammars, or includes what has.
    pub(crate) needs_namespace: bool,
    /// Whether the unit says `parent`, or includes or places what does.
    pub(crate) says_parent: bool,
}

impl Unit {
    fn add(&mut self, part: usize, kind: &FilePartKind) -> Result<(), AllocError> {
        match kind {
            FilePartKind::External { .. } | FilePartKind::Grammar { .. } => self.needs_namespace =
                true,
            FilePartKind::Parent { .. } => self.says_parent = true,
            _ => {}
        }
        self.parts.push(part)?;
        Ok(())
    }
}

/// The grammars of files, those of a file side by side in the order of their indices.
#[derive(Drop)]
pub struct Units<'a> {
    /// The files, in the order in which they were given.
    pub files: Vec<InputFile<'a>>,
    /// The units of all files, those of the first file first.
    pub units: Vec<Unit>,
}

impl<'a> Units<'a> {
    /// The units of files.
    pub fn of(alloc: Global, files: &[Lifting<'a>]) -> Result<Self, AllocError>
        ensures files { IfOk result (λ u. files_of u ≡ files.now) }
        ensures targets { IfOk result (λ u. All HasTargets u.files.items) }
    {
        let mut all = Units {
            files: Vec::new(alloc),
            units: Vec::new(alloc),
        };
        for file in files {
            all.add(alloc, *file)?;
        }
        all.mark(alloc)?;
        Ok(all)
    }

    fn add(&mut self, alloc: Global, file: Lifting<'a>) -> Result<(), AllocError>
        ensures files { OnOk result (files_of self.new ≡ files_of self.old ++ (file.entry ∷ [])) }
        ensures targets { OnOk result (All HasTargets self.old.files.items
            → All HasTargets self.new.files.items) }
    {
        let first = self.units.len();
        let number = self.files.len();
        self.files.push(InputFile::of(alloc, file, first)?)?;
        self.add_units(alloc, number, file.outline)?;
        self.add_parts(first, file.outline)
    }

    /// Adds the units of a file, which have no parts yet.
    fn add_units(&mut self, alloc: Global, file: usize, outline: &Outline) -> Result<(), AllocError>
        ensures { self.new.files ≡ self.old.files }
    {
        for grammar in 0..outline.grammars {
            self.units.push(Unit {
                file,
                grammar,
                parts: Vec::new(alloc),
                inside: outline.body,
                needs_namespace: false,
                says_parent: false,
            })?;
        }
        Ok(())
    }

    fn add_parts(&mut self, first: usize, outline: &Outline) -> Result<(), AllocError>
        ensures { self.new.files ≡ self.old.files }
    {
        for (number, part) in outline.parts.iter().enumerate() {
            self.note_inside(first, &part.kind);
            let unit = first.saturating_add(part.grammar);
            if let Some(unit) = self.units.get_mut(unit) {
                unit.add(number, &part.kind)?;
            }
        }
        Ok(())
    }

    /// Notes what is in the unit of a nested grammar.
    fn note_inside(&mut self, first: usize, kind: &FilePartKind)
        ensures { self.new.files ≡ self.old.files }
    {
        if let FilePartKind::Grammar { number, inside } = kind {
            if let Some(unit) = self.units.get_mut(first.saturating_add(*number)) {
                unit.inside = *inside;
            }
        }
    }

    /// Whether a part of any of the files is excepted from data.
    pub fn have_excepts(&self) -> bool {
        self.files
            .iter()
            .any(|given| given.file.outline.has_excepts())
    }

    /// The name that a part of a file defines or refers to; nothing, for a start.
    pub fn name_meant(&self, file: usize, kind: &FilePartKind) -> &'a str {
        match self.files.get(file) {
            Some(given) => written_name(given.file.text, kind),
            None => "",
        }
    }

    /// Whether a part of a unit is an include.
    pub fn is_include(&self, unit: usize, part: usize) -> bool {
        let file = self.units.get(unit).map(|unit| unit.file);
        match file
            .and_then(|file| self.files.get(file))
            .and_then(|given| given.part(part))
        {
            Some(part) => matches!(&part.kind, FilePartKind::Include { .. }),
            None => false,
        }
    }

    /// The index of the unit of a file and a grammar.
    pub(crate) fn number(&self, file: usize, grammar: usize) -> Option<usize> {
        let given = self.files.get(file)?;
        let outline = given.file.outline;
        if grammar >= outline.grammars {
            return None;
        }
        given.first.checked_add(grammar)
    }

    /// Whether a unit is a file that is a pattern.
    pub(crate) fn is_pattern(&self, unit: usize) -> bool {
        match self.units.get(unit) {
            Some(unit) => unit.grammar == 0 && self.is_pattern_file(unit.file),
            None => false,
        }
    }

    /// Whether what a unit becomes depends on the namespace that it inherits.
    pub(crate) fn needs_namespace(&self, unit: usize) -> bool {
        match self.units.get(unit) {
            Some(unit) => unit.needs_namespace,
            None => false,
        }
    }

    /// Whether what a unit means depends on the grammar around it.
    pub(crate) fn depends_on_around(&self, unit: usize) -> bool {
        self.is_pattern(unit) || self.says_parent(unit)
    }

    fn says_parent(&self, unit: usize) -> bool {
        match self.units.get(unit) {
            Some(unit) => unit.says_parent,
            None => false,
        }
    }

    pub(crate) fn is_pattern_file(&self, file: usize) -> bool {
        match self.files.get(file) {
            Some(given) => is_pattern(given.file.outline),
            None => false,
        }
    }

    /// The part of this index of a unit's file.
    pub fn part(&self, unit: &Unit, number: usize) -> Option<&'a FilePart> {
        self.files.get(unit.file)?.part(number)
    }

    /// The index of the file that the part of this index of a unit's file names.
    pub(crate) fn target(&self, unit: &Unit, number: usize) -> Option<usize> {
        self.files.get(unit.file)?.target(number)
    }

    /// Marks the units that need the namespace that they inherit, and those that say `parent`.
    fn mark(&mut self, alloc: Global) -> Result<(), AllocError>
        ensures { self.new.files ≡ self.old.files }
    {
        let users = self.users(alloc)?;
        let needing = self.units.iter().map(|unit| unit.needs_namespace);
        let needing = spread_to_users(alloc, needing.collect(alloc)?, users.as_slice())?;
        let saying = self.units.iter().map(|unit| unit.says_parent);
        let saying = spread_to_users(alloc, saying.collect(alloc)?, users.as_slice())?;
        for (number, unit) in self.units.iter_mut().enumerate() {
            unit.needs_namespace = is_marked(needing.as_slice(), number);
            unit.says_parent = is_marked(saying.as_slice(), number);
        }
        Ok(())
    }

    /// For each unit, those that include it, and those that place it, where it is a pattern: their names mean the same.
    fn users(&self, alloc: Global) -> Result<Vec<Vec<usize>>, AllocError> {
        let mut users = Vec::new(alloc);
        for _ in &self.units {
            users.push(Vec::new(alloc))?;
        }
        for (number, unit) in self.units.iter().enumerate() {
            self.add_uses(&mut users, number, unit)?;
        }
        Ok(users)
    }

    fn add_uses(
        &self,
        users: &mut Vec<Vec<usize>>,
        number: usize,
        unit: &Unit,
    ) -> Result<(), AllocError> {
        for part in &unit.parts {
            if let Some(used) = self.used_unit(unit, *part) {
                if let Some(row) = users.get_mut(used) {
                    row.push(number)?;
                }
            }
        }
        Ok(())
    }

    /// The unit that a part includes, or places as a pattern.
    fn used_unit(&self, unit: &Unit, part: usize) -> Option<usize> {
        let target = self.target(unit, part)?;
        match &self.part(unit, part)?.kind {
            FilePartKind::External { .. } if !self.is_pattern_file(target) => None,
            _ => self.number(target, 0),
        }
    }
}

fn is_pattern(outline: &Outline) -> bool {
    outline.shape == Shape::Pattern
}

/// The marked units, and all that use them.
fn spread_to_users(
    alloc: Global,
    marks: Vec<bool>,
    users: &[Vec<usize>],
) -> Result<Vec<bool>, AllocError> {
    let waiting = marked_nodes(alloc, marks.as_slice())?;
    spread(marks, waiting, users)
}
