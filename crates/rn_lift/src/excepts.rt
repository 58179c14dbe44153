// What replaces references in excepts (RELAX NG 2001, 7.1.4).
ghost use Rattle.std.specs.Prelude.{◌≡◌, false, [], IfOk, string_bytes};
ghost use Rattle.std.specs.List.{list_any};
ghost use Rattle.rn_lift.specs.inside.Excepted.{is_excepted};

use crate::added_prefixes::AddedPrefixes;
use crate::body_chunks::{BodyChunks, Chunk};
use crate::except_references::{Reference, are_data, file_of, key_of, undefined};
use crate::scope_definitions::{Definition, Definitions, ScopedName};
use rn_outline::Outline;
use rn_scopes::{LiftFault, LiftFaultKind, Plan, Unit, Units};
use std::alloc::{AllocError, Global};
use std::collections::{BTreeMap, BTreeSet};

/// How many bytes all texts in excepts may have together: as many as a printed text and a module's text may have,
/// `MAX_TEXT` of rn_modset, which this crate does not use.
pub const MAX_EXCEPTS: usize = 4_194_304;

/// In how many steps a text in an except is written at most: each byte of it takes two or fewer.
const MAX_STEPS: usize = MAX_EXCEPTS * 2;

/// What replaces the references in excepts of a place, and the declarations that this needs.
#[derive(Drop)]
pub(crate) struct Spliced {
    pub(crate) declarations: String,
    /// What replaces each reference, by the indices of the parts, which rise.
    texts: Vec<(usize, String)>,
}

impl Spliced {
    fn nothing(alloc: Global) -> Self
        ensures { string_bytes result.declarations ≡ [] }
    {
        Spliced {
            declarations: String::new(alloc),
            texts: Vec::new(alloc),
        }
    }

    fn text(&self, part: usize) -> Option<&String> {
        let number = self.texts.binary_search_by(|text| text.0.cmp(&part)).ok()?;
        Some(&self.texts.get(number)?.1)
    }

    /// What replaces a part in an except, as a copy.
    pub(crate) fn copied_text(&self, part: usize) -> Result<Option<String>, AllocError> {
        match self.text(part) {
            Some(text) => Ok(Some(text.clone()?)),
            None => Ok(None),
        }
    }
}

#[derive(Drop)]
pub(crate) struct Excepts {
    definitions: Definitions,
    bodies: BodyChunks,
    /// For each name with nothing but a reference as its definition, the last of the references that lead on from it.
    lasts: BTreeMap<ScopedName, Reference>,
    /// How many bytes are left of the limit.
    left: usize,
}

/// What is still to be written, last first.
#[derive(Drop)]
enum ToWrite {
    Text(&'static str),
    /// A body of a definition at a place, from a chunk on.
    Body {
        place: usize,
        body: usize,
        next: usize,
    },
    /// The end of what replaces a key.
    Leave(ScopedName),
}

/// A reference in an except that is followed: where it is, and what was written for it so far.
#[derive(Drop)]
struct Trail {
    file: usize,
    at: usize,
    text: String,
    rest: Vec<ToWrite>,
    /// What is being followed.
    open: BTreeSet<ScopedName>,
}

impl Trail {
    fn fault(&self, kind: LiftFaultKind) -> LiftFault {
        LiftFault {
            file: self.file,
            at: self.at,
            kind,
        }
    }
}

impl Excepts {
    pub(crate) fn new(alloc: Global, units: &Units<'_>, plan: &Plan) -> Result<Self, AllocError> {
        Ok(Excepts {
            definitions: Definitions::of(alloc, units, plan)?,
            bodies: BodyChunks::new(alloc),
            lasts: BTreeMap::new(alloc),
            left: MAX_EXCEPTS,
        })
    }

    /// What replaces the references in excepts of a place, which is that of this unit of a file.
    pub(crate) fn splice(
        &mut self,
        alloc: Global,
        units: &Units<'_>,
        plan: &Plan,
        place: usize,
        unit: &Unit,
        outline: &Outline,
    ) -> Result<Spliced, LiftFault>
        ensures { IfOk result (λ s. list_any (λ p. p.in_except) outline.now.parts.items ≡ false
            → string_bytes s.declarations ≡ []) }
    {
        if !has_excepts(unit, outline) {
            return Ok(Spliced::nothing(alloc));
        }
        let mut texts = Vec::new(alloc);
        let mut prefixes = AddedPrefixes::new(alloc, unit.file);
        for number in &unit.parts {
            if let Some(part) = units.part(unit, *number) {
                if part.in_except {
                    let trail = new_trail(alloc, unit.file, part.at.from);
                    let reference = Reference {
                        place,
                        part: *number,
                    };
                    let text = self.followed_text(
                        alloc,
                        units,
                        plan,
                        &mut prefixes,
                        trail,
                        reference,
                    )?;
                    texts.push((*number, text))?;
                }
            }
        }
        Ok(Spliced {
            declarations: prefixes.into_declarations(),
            texts,
        })
    }

    /// What replaces a part in an except, within brackets.
    fn followed_text(
        &mut self,
        alloc: Global,
        units: &Units<'_>,
        plan: &Plan,
        prefixes: &mut AddedPrefixes,
        mut trail: Trail,
        reference: Reference,
    ) -> Result<String, LiftFault> {
        self.open_bracketed(alloc, units, plan, &mut trail, reference)?;
        for _ in 0..MAX_STEPS {
            let Some(next) = trail.rest.pop() else {
                self.left = self.left.saturating_sub(trail.text.len());
                return Ok(trail.text);
            };
            self.step(alloc, units, plan, prefixes, &mut trail, next)?;
            if trail.text.len() > self.left {
                break;
            }
        }
        Err(trail.fault(LiftFaultKind::Long))
    }

    fn step(
        &mut self,
        alloc: Global,
        units: &Units<'_>,
        plan: &Plan,
        prefixes: &mut AddedPrefixes,
        trail: &mut Trail,
        next: ToWrite,
    ) -> Result<(), LiftFault> {
        match next {
            ToWrite::Text(text) => Ok(trail.text.push_str(text)?),
            ToWrite::Leave(key) => {
                trail.open.remove(&key);
                Ok(())
            }
            ToWrite::Body { place, body, next } => {
                self.step_body(alloc, units, plan, prefixes, trail, place, body, next)
            }
        }
    }

    /// Writes a chunk of a body.
    fn step_body(
        &mut self,
        alloc: Global,
        units: &Units<'_>,
        plan: &Plan,
        prefixes: &mut AddedPrefixes,
        trail: &mut Trail,
        place: usize,
        body: usize,
        next: usize,
    ) -> Result<(), LiftFault> {
        let Some(chunk) = self.bodies.chunk(body, next) else {
            return Ok(());
        };
        trail.rest.push(ToWrite::Body {
            place,
            body,
            next: next.saturating_add(1),
        })?;
        match chunk {
            Chunk::Text(text) => Ok(trail.text.push_str(text.as_str())?),
            Chunk::Datatype { prefix, local } => {
                let from = file_of(units, plan, place);
                prefixes.push_prefix(alloc, units, from, prefix.as_str(), &mut trail.text)?;
                trail.text.push(':')?;
                Ok(trail.text.push_str(local.as_str())?)
            }
            Chunk::Link { part, is_excepted } => {
                let reference = Reference { place, part: *part };
                if *is_excepted {
                    self.open_bracketed(alloc, units, plan, trail, reference)
                } else {
                    self.open(alloc, units, plan, trail, reference)
                }
            }
        }
    }

    /// Begins what replaces a reference, within brackets. So a choice is one pattern.
    fn open_bracketed(
        &mut self,
        alloc: Global,
        units: &Units<'_>,
        plan: &Plan,
        trail: &mut Trail,
        reference: Reference,
    ) -> Result<(), LiftFault> {
        trail.text.push('(')?;
        trail.rest.push(ToWrite::Text(")"))?;
        self.open(alloc, units, plan, trail, reference)
    }

    /// Begins what replaces a reference: a choice, or a member of the one around it.
    fn open(
        &mut self,
        alloc: Global,
        units: &Units<'_>,
        plan: &Plan,
        trail: &mut Trail,
        reference: Reference,
    ) -> Result<(), LiftFault> {
        let key = self.last_name(alloc, units, plan, trail, reference)?;
        if trail.open.contains(&key) {
            return Err(trail.fault(LiftFaultKind::ExceptReference));
        }
        let standing = self
            .definitions
            .standing_definitions(alloc, units, plan, &key)?;
        trail.open.insert(key.copy(alloc)?)?;
        trail.rest.push(ToWrite::Leave(key))?;
        push_bodies(alloc, units, plan, &mut self.bodies, trail, standing)
    }

    /// The name that a reference leads to. Definitions that are nothing but a reference are passed, each of them once
    /// in all; those of the name itself aren't.
    fn last_name(
        &mut self,
        alloc: Global,
        units: &Units<'_>,
        plan: &Plan,
        trail: &Trail,
        reference: Reference,
    ) -> Result<ScopedName, LiftFault> {
        let mut passed = BTreeSet::new(alloc);
        let mut last = reference;
        for _ in 0..usize::MAX {
            let Some(name) = key_of(alloc, units, plan, last)? else {
                break;
            };
            if let Some(known) = self.lasts.get(&name).copied() {
                passed.insert(name)?;
                last = known;
                continue;
            }
            let Some(next) = self.next_reference(alloc, units, plan, trail, last, &name)? else {
                self.keep_last(passed, last)?;
                return Ok(name);
            };
            if !passed.insert(name)? {
                break;
            }
            last = next;
        }
        Err(trail.fault(LiftFaultKind::ExceptReference))
    }

    /// The reference that is all of the definition of a name, to which this one leads; `None` where there is more.
    fn next_reference(
        &mut self,
        alloc: Global,
        units: &Units<'_>,
        plan: &Plan,
        trail: &Trail,
        reference: Reference,
        name: &ScopedName,
    ) -> Result<Option<Reference>, LiftFault> {
        let standing = self
            .definitions
            .standing_definitions(alloc, units, plan, name)?;
        if standing.is_empty() {
            return Err(undefined(units, plan, reference));
        }
        if !are_data(units, plan, standing) {
            return Err(trail.fault(LiftFaultKind::ExceptReference));
        }
        let [Definition { place, part, .. }] = standing else {
            return Ok(None);
        };
        let file = file_of(units, plan, *place);
        let body = self.bodies.number(alloc, units, file, *part)?;
        let lone = self.bodies.lone_part(body);
        Ok(lone.map(|part| Reference {
            place: *place,
            part,
        }))
    }

    /// Keeps what these names lead to.
    fn keep_last(
        &mut self,
        names: BTreeSet<ScopedName>,
        last: Reference,
    ) -> Result<(), AllocError> {
        for name in names {
            self.lasts.insert(name, last)?;
        }
        Ok(())
    }
}

/// Whether a part of a unit is in an except; the outline is that of the unit's file. Of a file with many grammars only
/// the parts of the unit are visited.
fn has_excepts(unit: &Unit, outline: &Outline) -> bool
    ensures { result ≡ list_any (is_excepted outline.now.parts.items) unit.now.parts.items }
{
    unit.parts
        .iter()
        .any(|number| is_in_except(outline, *number))
}

/// Whether the part of that index is in an except.
fn is_in_except(outline: &Outline, number: usize) -> bool
    ensures { result ≡ is_excepted outline.now.parts.items number }
{
    match outline.parts.get(number) {
        Some(part) => part.in_except,
        None => false,
    }
}

/// Adds the bodies of definitions to what is to be written, with `|` between each two.
fn push_bodies(
    alloc: Global,
    units: &Units<'_>,
    plan: &Plan,
    bodies: &mut BodyChunks,
    trail: &mut Trail,
    standing: &[Definition],
) -> Result<(), LiftFault> {
    for (number, definition) in standing.iter().rev().enumerate() {
        if number > 0 {
            trail.rest.push(ToWrite::Text(" | "))?;
        }
        let file = file_of(units, plan, definition.place);
        let body = bodies.number(alloc, units, file, definition.part)?;
        trail.rest.push(ToWrite::Body {
            place: definition.place,
            body,
            next: 0,
        })?;
    }
    Ok(())
}

fn new_trail(alloc: Global, file: usize, at: usize) -> Trail {
    Trail {
        file,
        at,
        text: String::new(alloc),
        rest: Vec::new(alloc),
        open: BTreeSet::new(alloc),
    }
}
