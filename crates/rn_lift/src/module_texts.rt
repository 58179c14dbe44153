// The text of each module.
ghost use Rattle.std.specs.Prelude.{◌≡◌, ◌≢◌, ◌<◌, ◌≤◌, ◌⊎◌, [], ◌∷◌, ◌++◌, false, length, IfOk, IfSome, IsSome, MatchOption, OnOk, None, Some, string_bytes};
ghost use Rattle.std.specs.List.{list_any};
ghost use Rattle.rn_text.specs.Literals.{literal_bytes};
ghost use Rattle.rn_scopes.specs.UnitFiles.{target_of};
ghost use Rattle.rn_lift.specs.LiftedModules.{front};
ghost use Rattle.rn_lift.specs.StandIns.{IsIncluded, IsLifted, KindStays, Stays};
ghost use Rattle.rn_lift.specs.inside.Planned.{IsPlaceWithFile, IsModuleOfPlace, IsModuleAt, IsPlaceOf, IsPlanned, IsPlannedScope, IsScopeOf, StandsForAt, StandsForKindAt};

use crate::draft::Draft;
use crate::edits::edits_of;
use crate::excepts::{Excepts, Spliced};
use crate::lifted::{Basis, LiftedModule};
use rn_outline::{FilePart, FilePartKind, Span, name_in};
use rn_scopes::{
    InputFile, LiftFault, LiftFaultKind, PlacedUnit, Plan, ROOT, Scope, Unit, Units, own_name,
};
use rn_text::write_literal;
use std::alloc::{AllocError, Global};

/// A place of which the text is written, and what it is written from.
#[derive(Clone, Copy)]
pub(crate) struct PlaceView<'u, 'a> {
    units: &'u Units<'a>,
    plan: &'u Plan,
    pub(crate) given: &'u InputFile<'a>,
    /// The index of the place.
    number: usize,
    /// What it is made of.
    pub(crate) basis: Basis,
}

/// What was planned does not fit the files, or the names of the modules don't rise.
pub(crate) fn unsound_fault() -> LiftFault {
    LiftFault {
        file: 0,
        at: 0,
        kind: LiftFaultKind::Unsound,
    }
}

/// The module of the place of this index.
pub(crate) fn module_at(
    alloc: Global,
    units: &Units<'_>,
    plan: &Plan,
    excepts: &mut Excepts,
    number: usize,
) -> Result<LiftedModule, LiftFault>
    ensures { IfOk result (IsModuleOfPlace units.now plan.now number) }
{
    let Some(found) = place_with_file(units, plan, number) else {
        return Err(unsound_fault());
    };
    let PlaceWithFile { place, unit, given } = found;
    let spliced = excepts.splice(alloc, units, plan, number, unit, given.file.outline)?;
    let basis = Basis {
        file: unit.file,
        grammar: unit.grammar,
        scope: place.scope,
    };
    let view = PlaceView {
        units,
        plan,
        given,
        number,
        basis,
    };
    let draft = draft_of(alloc, &view, unit, &spliced)?;
    let name = place.module.clone()?;
    Ok(draft.finish(name, basis))
}

/// A place, with its unit and its file.
#[derive(Clone, Copy)]
struct PlaceWithFile<'u, 'a> {
    place: &'u PlacedUnit,
    unit: &'u Unit,
    given: &'u InputFile<'a>,
}

/// The place of this index, with its unit and its file.
fn place_with_file<'u, 'a>(
    units: &'u Units<'a>,
    plan: &'u Plan,
    number: usize,
) -> Option<PlaceWithFile<'u, 'a>>
    ensures { IfSome result (λ f.
        IsPlaceWithFile units.now plan.now number f.place.now f.unit.now f.given.now) }
{
    let place = plan.places.get(number)?;
    let unit = units.units.get(place.unit)?;
    let given = units.files.get(unit.file)?;
    Some(PlaceWithFile { place, unit, given })
}

/// The text of a place.
fn draft_of<'a>(
    alloc: Global,
    view: &PlaceView<'_, 'a>,
    unit: &Unit,
    spliced: &Spliced,
) -> Result<Draft<'a>, LiftFault>
    requires grammar { unit.now.grammar ≡ view.now.basis.grammar }
    requires declarations { list_any (λ p. p.in_except)
        view.now.given.now.file.outline.now.parts.items ≡ false
        → string_bytes spliced.now.declarations ≡ [] }
    ensures { IfOk result (λ d. IsModuleAt view.now (string_bytes d.text)) }
{
    let edits = edits_of(alloc, view, unit, spliced)?;
    let given = view.given;
    let source = given.file.text;
    let inside = inside_of(view, unit);
    let mut draft = Draft::new(alloc, view.basis.file, source);
    let is_whole = view.basis.grammar == 0 && spliced.declarations.is_empty();
    let from = if is_whole {
        0
    } else {
        write_front(&mut draft, given, spliced)?;
        inside.from
    };
    draft.apply(edits.as_slice(), from, inside.to)?;
    Ok(draft)
}

/// What is in a unit: the file after its declarations, or what is between the braces.
fn inside_of(view: &PlaceView<'_, '_>, unit: &Unit) -> Span
    ensures { view.now.basis.grammar ≡ 0 → result ≡ record {
      from = view.now.given.now.file.outline.now.body.from;
      to = length view.now.given.now.file.text.now;
    } }
{
    let given = view.given;
    if view.basis.grammar > 0 {
        return unit.inside;
    }
    let outline = given.file.outline;
    Span {
        from: outline.body.from,
        to: given.file.text.len(),
    }
}

/// Writes the declarations of the file, and those that texts in excepts need.
fn write_front(
    draft: &mut Draft<'_>,
    given: &InputFile<'_>,
    spliced: &Spliced,
) -> Result<(), LiftFault>
    requires { draft.old.source.now ≡ given.now.file.text.now }
    ensures text { OnOk result (string_bytes draft.new.text ≡ string_bytes draft.old.text
        ++ front given.now.file (string_bytes spliced.now.declarations)) }
    ensures source { draft.new.source ≡ draft.old.source }
{
    let outline = given.file.outline;
    let head = outline.body.from;
    draft.copy(0, head)?;
    draft.make("\n", head)?;
    Ok(draft.make(spliced.declarations.as_str(), head)?)
}

/// The literal of a text.
fn written_literal(alloc: Global, text: &str) -> Result<String, AllocError>
    ensures { IfOk result (λ t. string_bytes t ≡ literal_bytes text.now) }
{
    let mut literal = String::new(alloc);
    write_literal(&mut literal, text)?;
    Ok(literal)
}

/// A reference to the start of the scope of a stem. A space parts it from what follows.
fn reference_to(alloc: Global, stem: &str, start: &str) -> Result<String, AllocError>
    ensures { IfOk result (λ t. string_bytes t ≡ (stem.now ++ (46 ∷ start.now)) ++ (32 ∷ [])) }
{
    let mut name = own_name(alloc, stem, start)?;
    name.push_str(" ")?;
    Ok(name)
}

impl<'u, 'a> PlaceView<'u, 'a> {
    /// What replaces a part, or its name, if it doesn't stay.
    pub(crate) fn text_for(
        &self,
        alloc: Global,
        number: usize,
        part: &FilePart,
        spliced: &Spliced,
    ) -> Result<Option<String>, LiftFault>
        ensures { IfOk result (λ r. MatchOption r (Stays self.now.basis.scope part.now)
            (λ text. StandsForAt self.now number part.now (string_bytes text))) }
    {
        if !part.in_except {
            return self.stand_in(alloc, number, &part.kind);
        }
        match spliced.copied_text(number)? {
            Some(text) => Ok(Some(text)),
            None => Err(unsound_fault()),
        }
    }

    /// What replaces a part that isn't in an except, or its name, if it doesn't stay.
    fn stand_in(
        &self,
        alloc: Global,
        number: usize,
        kind: &FilePartKind,
    ) -> Result<Option<String>, LiftFault>
        ensures { IfOk result (λ r. MatchOption r (KindStays self.now.basis.scope kind.now)
            (λ text. StandsForKindAt self.now number kind.now (string_bytes text))) }
    {
        let given = self.given;
        let text = given.file.text;
        let plan = self.plan;
        let scope = self.basis.scope;
        match kind {
            FilePartKind::Define { name, .. } => self.name(alloc, scope, name_in(text, *name)),
            FilePartKind::Start { word, .. } => self.start(alloc, *word),
            FilePartKind::Reference { name } => {
                self.name(alloc, plan.reference_scope_of(scope), name_in(text, *name))
            }
            FilePartKind::Parent { name } => self.parent(alloc, *name),
            FilePartKind::Include { .. } => Ok(Some(self.include(alloc, number)?)),
            FilePartKind::External { .. } => {
                Ok(Some(self.lifted_reference(alloc, number, given.target(number), 0)?))
            }
            FilePartKind::Grammar {
                number: grammar,
                ..
            } => {
                Ok(Some(self.lifted_reference(alloc, number, Some(self.basis.file), *grammar)?))
            }
        }
    }

    /// A name in a scope, if it is not the name that is written.
    fn name(&self, alloc: Global, scope: usize, name: &str) -> Result<Option<String>, LiftFault>
        ensures { IfOk result (λ r. MatchOption r (scope ≡ 0) (λ _. scope ≢ 0)) }
    {
        if scope == ROOT {
            return Ok(None);
        }
        let plan = self.plan;
        Ok(Some(own_name(alloc, plan.stem_of(scope), name)?))
    }

    /// The start of the scope, where `start` is written, or nothing in a file that is a pattern.
    fn start(&self, alloc: Global, word: Span) -> Result<Option<String>, LiftFault>
        ensures { IfOk result (λ r. MatchOption r
            ((self.now.basis.scope ≡ 0) × (word.from < word.to))
            (λ _. (self.now.basis.scope ≢ 0) ⊎ (word.to ≤ word.from))) }
    {
        let plan = self.plan;
        let name = self.name(alloc, self.basis.scope, plan.names.start.as_str())?;
        if word.from < word.to {
            return Ok(name);
        }
        let mut name = match name {
            Some(name) => name,
            None => String::from_str(alloc, "start")?,
        };
        name.push_str(" = ")?;
        Ok(Some(name))
    }

    /// What `parent` and a name mean.
    fn parent(&self, alloc: Global, name: Span) -> Result<Option<String>, LiftFault>
        ensures { IfOk result IsSome }
    {
        let given = self.given;
        let text = given.file.text;
        let plan = self.plan;
        let scope = plan.parent_of(self.basis.scope);
        match self.name(alloc, scope.unwrap_or(ROOT), name_in(text, name))? {
            Some(name) => Ok(Some(name)),
            None => {
                let written = text.get(name.from..name.to).unwrap_or("");
                Ok(Some(String::from_str(alloc, written)?))
            }
        }
    }

    /// The literal of an include: that of the module's name which it leads to.
    fn include(&self, alloc: Global, part: usize) -> Result<String, LiftFault>
        ensures { IfOk result (λ text. IsIncluded (IsPlanned self.now.units.now self.now.plan.now)
            self.now.basis.scope (target_of self.now.given.now part) (string_bytes text)) }
    {
        let Some(place) = self.included_place(part) else {
            return Err(unsound_fault());
        };
        let module = place.module.as_str();
        let literal = written_literal(alloc, module)?;
        Ok(literal)
    }

    /// The place that an include leads to, if it is one of the file that the include names, in the
    /// same scope.
    fn included_place(&self, part: usize) -> Option<&'u PlacedUnit>
        ensures { IfSome result (λ place. IsPlaceOf self.now self.now.basis.scope
            (target_of self.now.given.now part) 0 place.now) }
    {
        let plan = self.plan;
        let units = self.units;
        let given = self.given;
        let number = plan.leads_to(self.number, part)?;
        let place = plan.places.get(number)?;
        let unit = units.units.get(place.unit)?;
        let file = given.target(part)?;
        if unit.file == file && unit.grammar == 0 && place.scope == self.basis.scope {
            Some(place)
        } else {
            None
        }
    }

    /// The reference that replaces an external or a nested grammar, of this file and this grammar:
    /// to the start of the scope that it leads to.
    fn lifted_reference(
        &self,
        alloc: Global,
        part: usize,
        file: Option<usize>,
        grammar: usize,
    ) -> Result<String, LiftFault>
        ensures { IfOk result (λ text. IsLifted (IsPlanned self.now.units.now self.now.plan.now)
            (IsPlannedScope self.now.plan.now) (string_bytes self.now.plan.now.names.start)
            file grammar (string_bytes text)) }
    {
        let plan = self.plan;
        let Some(scope) = self.brought_scope(part, file, grammar) else {
            return Err(unsound_fault());
        };
        let stem = scope.stem.as_str();
        let start = plan.names.start.as_str();
        let reference = reference_to(alloc, stem, start)?;
        Ok(reference)
    }

    /// The scope that an external or a nested grammar leads to, if its first place is one of this file
    /// and this grammar.
    fn brought_scope(&self, part: usize, file: Option<usize>, grammar: usize) -> Option<&'u Scope>
        ensures { IfSome result (λ scope. IsScopeOf self.now file grammar scope.now) }
    {
        let plan = self.plan;
        let units = self.units;
        let number = plan.leads_to(self.number, part)?;
        if number == ROOT {
            return None;
        }
        let scope = plan.scopes.get(number)?;
        let place = plan.places.get(scope.entry)?;
        let unit = units.units.get(place.unit)?;
        let Some(file) = file else {
            return None;
        };
        if unit.file == file && unit.grammar == grammar && place.scope == number {
            Some(scope)
        } else {
            None
        }
    }
}
