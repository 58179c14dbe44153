// What the modules define, refer to and include, and where.
use crate::report::Spot;
use rn_assemble::{ComponentPlace, IncludePlace, ReferencePlace};
use rn_lift::Lifted;
use rn_outline::{FilePart, FilePartKind, OutlineFault, name_in, read_outline};
use rn_text::{TextFault, tokens};
use std::alloc::{AllocError, Global};

/// What a module is made of.
#[derive(Debug, Drop)]
pub struct ModuleSites {
    /// The definitions, references and includes of the module, in the order of its text.
    pub parts: Vec<FilePart>,
    /// The numbers of the parts that are definitions.
    pub definitions: Vec<usize>,
    /// The numbers of the parts that are includes.
    pub includes: Vec<usize>,
}

/// The modules, and what each is made of.
#[derive(Debug, Drop)]
pub struct Sites<'a> {
    /// The modules, in the order of their names.
    pub lifted: &'a Lifted,
    /// What each module is made of, in the order of the modules.
    pub modules: Vec<ModuleSites>,
}

/// A part of a module.
#[derive(Clone, Copy, Debug, PartialEq, Eq, PartialOrd, Ord)]
pub struct Site {
    /// The number of the module.
    pub module: usize,
    /// The number of the part among those of the module.
    pub part: usize,
}

/// The key that a part defines, where it is a definition: a name, or nothing for the start.
pub fn key_of<'a>(text: &'a str, part: &FilePart) -> Option<&'a str> {
    match &part.kind {
        FilePartKind::Define { name, .. } => Some(name_in(text, *name)),
        FilePartKind::Start { .. } => Some(""),
        _ => None,
    }
}

/// The name of the module that a part includes.
pub fn include_of(part: &FilePart) -> Option<&str> {
    match &part.kind {
        FilePartKind::Include { literal, .. } => Some(literal.as_str()),
        _ => None,
    }
}

/// The modules with what they are made of. A text that is none of the language is made of nothing.
pub fn sites_of(alloc: Global, lifted: &Lifted) -> Result<Sites<'_>, AllocError> {
    let mut modules = Vec::new(alloc);
    for module in lifted.modules.as_slice() {
        let parts = parts_of(alloc, module.text.as_str())?;
        modules.push(module_sites(alloc, parts)?)?;
    }
    Ok(Sites { lifted, modules })
}

/// The parts of a text; nothing where it is none of the language.
fn parts_of(alloc: Global, text: &str) -> Result<Vec<FilePart>, AllocError> {
    let tokens = match tokens(alloc, text.as_bytes()) {
        Ok(tokens) => tokens,
        Err(TextFault::Memory) => return Err(AllocError),
        Err(_) => return Ok(Vec::new(alloc)),
    };
    match read_outline(alloc, text, tokens.as_slice()) {
        Ok(outline) => Ok(outline.parts),
        Err(OutlineFault::Memory) => Err(AllocError),
        Err(_) => Ok(Vec::new(alloc)),
    }
}

/// Parts, with the numbers of definitions and includes among them.
fn module_sites(alloc: Global, parts: Vec<FilePart>) -> Result<ModuleSites, AllocError> {
    let mut definitions = Vec::new(alloc);
    let mut includes = Vec::new(alloc);
    for (number, part) in parts.iter().enumerate() {
        match &part.kind {
            FilePartKind::Define { .. } | FilePartKind::Start { .. } => definitions.push(number)?,
            FilePartKind::Include { .. } => includes.push(number)?,
            _ => {}
        }
    }
    Ok(ModuleSites {
        parts,
        definitions,
        includes,
    })
}

impl Sites<'_> {
    /// The number of the module of this name.
    pub fn number_of(&self, name: &str) -> Option<usize> {
        self.lifted
            .modules
            .binary_search_by(|module| module.name.as_str().cmp(&name))
            .ok()
    }

    /// The name of a module.
    pub fn name(&self, module: usize) -> &str {
        match self.lifted.modules.get(module) {
            Some(module) => module.name.as_str(),
            None => "",
        }
    }

    /// The text of a module.
    pub fn text(&self, module: usize) -> &str {
        match self.lifted.modules.get(module) {
            Some(module) => module.text.as_str(),
            None => "",
        }
    }

    /// The parts of a module.
    pub fn parts(&self, module: usize) -> &[FilePart] {
        match self.modules.get(module) {
            Some(held) => held.parts.as_slice(),
            None => &[],
        }
    }

    /// Where a definition is.
    pub fn definition(&self, place: ComponentPlace) -> Option<Site> {
        let module = place.module.0;
        let part = *self.modules.get(module)?.definitions.get(place.number)?;
        Some(Site { module, part })
    }

    /// Where an include is.
    pub fn include(&self, place: IncludePlace) -> Option<Site> {
        let module = place.module.0;
        let part = *self.modules.get(module)?.includes.get(place.number)?;
        Some(Site { module, part })
    }

    /// Where a reference is: the references of a definition follow it.
    pub fn reference(&self, place: ReferencePlace) -> Option<Site> {
        let Site { module, part } = self.definition(place.component)?;
        let first = part.saturating_add(1);
        let (offset, _) = self
            .parts(module)
            .get(first..)?
            .iter()
            .enumerate()
            .filter(|(_, part)| matches!(&part.kind, FilePartKind::Reference { .. }))
            .nth(place.number)?;
        Some(Site {
            module,
            part: first.saturating_add(offset),
        })
    }

    /// The part at a site.
    fn part(&self, site: Site) -> Option<&FilePart> {
        self.parts(site.module).get(site.part)
    }

    /// The key that is defined at a site.
    pub fn key(&self, site: Site) -> Option<&str> {
        let part = self.part(site)?;
        key_of(self.text(site.module), part)
    }

    /// The name that is referred to at a site.
    pub fn used_name(&self, site: Site) -> Option<&str> {
        match &self.part(site)?.kind {
            FilePartKind::Reference { name } => Some(name_in(self.text(site.module), *name)),
            _ => None,
        }
    }

    /// The module that a site includes.
    pub fn included_module(&self, site: Site) -> Option<usize> {
        let part = self.part(site)?;
        self.number_of(include_of(part)?)
    }

    /// Where a definition, a reference or an include is in the files: its name or its literal.
    pub fn spot(&self, site: Site) -> Option<Spot> {
        let at = self.part(site)?.mark().from;
        let (file, at) = self.lifted.modules.get(site.module)?.origin(at)?;
        Some(Spot { file, at })
    }
}
