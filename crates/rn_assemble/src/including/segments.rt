// The segments of a set: the components that a module has between its includes, each time that the module is brought in.
ghost use Rattle.std.specs.Prelude.{◌≡◌, ◌<◌, ◌↔◌, [], ℕ, List, IfOk, IfSome, length, flat_map};
ghost use Rattle.std.specs.Rc.{rc_str_bytes};
ghost use Rattle.rn_text.specs.Texts.{Text};
ghost use Rattle.rn_syntax.specs.Tree.{Declaration};
ghost use Rattle.rn_assemble.specs.Components as specs;
ghost use Rattle.rn_assemble.specs.inside.Bringing.{Brings, CanAdd, CanBring, CanInclude, InclusionLacks, IsLackIn, OfRoots, brought_in, own_components};
ghost use Rattle.rn_assemble.specs.inside.ContentsOf.{name_at, written_at};
ghost use Rattle.rn_assemble.specs.inside.Lacking.{LacksFrom, LacksWithin};
ghost use Rattle.rn_assemble.specs.inside.Placing.{AddsSegment, IsFirstOf, NotesPlace, PushesAt};
ghost use Rattle.rn_assemble.specs.inside.Segments.{AreSegments, AreSegmentsOf, HavePlaces, places_at, places_in};
ghost use Rattle.rn_assemble.specs.inside.Views.{inclusion_view, module_numbers};

use crate::including::inclusion::INSTANCE_LIMIT;
use crate::reading::contents::{Contents, Include};
use crate::reading::named_modules::ModuleId;
use crate::resolving::constants::Constants;
use crate::resolving::context::Context;
use std::alloc::{AllocError, Global};
use std::rc::RcStr;

/// Components of a module that no include parts, under the namespace that the module inherits.
#[derive(Clone, Copy)]
pub(crate) struct Segment<'c, 't> {
    pub module: ModuleId,
    pub context: Context<'c, 't>,
    /// The first of the components, as a number among those of the module.
    pub from: usize,
    /// The number behind the last one.
    pub to: usize,
    /// The first segment of the set that has the same components under the same namespace.
    pub first: usize,
}

/// An include that was followed, with the segments that it brought in: from one place up to another.
#[derive(Clone, Copy)]
pub(crate) struct FollowedInclude {
    /// The module whose include it is.
    pub module: ModuleId,
    /// The number of the include among those of its module.
    pub number: usize,
    /// The first of the include's own components, as a number among those of the module.
    pub own_from: usize,
    /// The number behind the last one.
    pub own_to: usize,
    pub from: usize,
    pub to: usize,
}

/// The segments of a set in the order of its components. There are fewer than twice as many as instances of modules.
#[derive(Drop)]
pub(crate) struct Segments<'c, 't, 's> {
    pub contents: &'c [Contents<'t, 's>],
    pub list: Vec<Segment<'c, 't>>,
    /// Each include that was followed, behind those in what it brought.
    pub brought: Vec<FollowedInclude>,
    /// Of each module, the places of its first segments, those of its second ones, and so on.
    places: Vec<Vec<Vec<usize>>>,
}

impl<'c, 't, 's> Segments<'c, 't, 's> {
    /// The segments of these modules, in turn, under the empty namespace, with what they include.
    pub fn of_roots(
        alloc: Global,
        contents: &'c [Contents<'t, 's>],
        constants: &'c Constants,
        roots: &[ModuleId],
    ) -> Result<Segments<'c, 't, 's>, AllocError>
        ensures segments { OfRoots contents.now (module_numbers roots.now) (λ modules. IfOk result
            (λ x. AreSegmentsOf modules x (flat_map
            (λ r. specs.components modules (name_at modules r) []) (module_numbers roots.now)))) }
        ensures lacks { OfRoots contents.now (module_numbers roots.now) (λ modules. IfOk result
            (λ x. (y : Text) (k : specs.Key) → IsLackIn modules x.list.items x.brought.items y k
            ↔ LacksFrom modules (module_numbers roots.now) y k)) }
    {
        let mut segments = Segments::new(alloc, contents)?;
        for root in roots {
            segments.bring(*root, &constants.none, INSTANCE_LIMIT + 1)?;
        }
        Ok(segments)
    }

    /// No segments of modules with these contents.
    fn new(
        alloc: Global,
        contents: &'c [Contents<'t, 's>],
    ) -> Result<Segments<'c, 't, 's>, AllocError>
        ensures contents { IfOk result (λ x. x.contents ≡ contents.entry) }
        ensures list { IfOk result (λ x. x.list.items ≡ []) }
        ensures brought { IfOk result (λ x. x.brought.items ≡ []) }
        ensures places { (m j : ℕ) → IfOk result (λ x. places_at x.places.items m j ≡ []) }
        ensures sizes { IfOk result (λ x. HavePlaces x.contents.now x.places.items) }
    {
        let mut places = Vec::with_capacity(alloc, contents.len())?;
        for content in contents {
            places.push(no_places(alloc, content.includes.len() + 1)?)?;
        }
        Ok(Segments {
            contents,
            list: Vec::new(alloc),
            brought: Vec::new(alloc),
            places,
        })
    }

    /// Adds the segments of a module and those that its includes bring in, with includes followed fewer than `depth`
    /// times one inside the other.
    #[cycle(bring)]
    fn bring(
        &mut self,
        module: ModuleId,
        inherited: &'c RcStr,
        depth: usize,
    ) -> Result<(), AllocError>
        ensures { (modules : List specs.NamedModule) → CanBring modules self.old
            → «module».0 < length modules → IfOk result (λ _. Brings modules self.old self.new
            (specs.components_within depth modules (name_at modules «module».0)
            (rc_str_bytes inherited.now))
            (specs.components_within depth modules (name_at modules «module».0)
            (rc_str_bytes inherited.now))
            (LacksWithin depth modules (name_at modules «module».0) (rc_str_bytes inherited.now))) }
    {
        if depth == 0 {
            return Ok(());
        }
        let contents = self.contents;
        let Some(content) = contents.get(module.0) else {
            return Ok(());
        };
        let context = Context::of(&content.bindings, inherited);
        let mut number = 0;
        let mut from = 0;
        'includes: for include in &content.includes {
            self.add(module, number, context, from, include.from)?;
            self.bring_included(module, number, context, include, depth - 1)?;
            number += 1;
            from = include.from;
        }
        self.add(module, number, context, from, content.count)
    }

    /// Adds what the include of a module brings in that has that number among those of the module.
    #[cycle(bring)]
    fn bring_included(
        &mut self,
        module: ModuleId,
        number: usize,
        context: Context<'c, 't>,
        include: &Include<'s>,
        depth: usize,
    ) -> Result<(), AllocError>
        ensures { (modules : List specs.NamedModule) (ds : List Declaration)
            → CanBring modules self.old → CanInclude modules self.old.contents.now «module».0
            number context.entry include.now ds → IfOk result (λ _. Brings modules self.old self.new
            (specs.without_overridden (brought_in depth modules
            (rc_str_bytes context.entry.inherited.now) ds (inclusion_view include.now))
            (own_components modules «module».0 (rc_str_bytes context.entry.inherited.now) ds
            (inclusion_view include.now)))
            (brought_in depth modules (rc_str_bytes context.entry.inherited.now) ds
            (inclusion_view include.now))
            (InclusionLacks depth modules (name_at modules «module».0)
            (rc_str_bytes context.entry.inherited.now) ds (written_at modules «module».0)
            (inclusion_view include.now))) }
    {
        let from = self.list.len();
        if let Some(included) = include.module {
            let inherited = context.handed_on(include.inherit);
            self.bring(included, inherited, depth)?;
        }
        self.brought.push(FollowedInclude {
            module,
            number,
            own_from: include.from,
            own_to: include.to,
            from,
            to: self.list.len(),
        })?;
        Ok(())
    }

    /// Adds the segment of a module that has that number among those of the module.
    fn add(
        &mut self,
        module: ModuleId,
        number: usize,
        context: Context<'c, 't>,
        from: usize,
        to: usize,
    ) -> Result<(), AllocError>
        ensures contents { self.new.contents ≡ self.old.contents }
        ensures brought { self.new.brought ≡ self.old.brought }
        ensures added { (modules : List specs.NamedModule) → AreSegments modules self.old
            → CanAdd modules self.old «module».0 number context.entry from to
            → IfOk result (λ _. AddsSegment modules self.old self.new «module».0
            context.entry from to) }
    {
        let place = self.list.len();
        let first = self
            .first_like(module, number, context.inherited)
            .unwrap_or(place);
        self.list.push(Segment {
            module,
            context,
            from,
            to,
            first,
        })?;
        self.note_place(module, number, place)
    }

    /// The `first` of the segments of that module and number under the namespace, if there are any.
    fn first_like(&self, module: ModuleId, number: usize, inherited: &RcStr) -> Option<usize>
        ensures { IfSome result (λ first. IsFirstOf self.now «module».0 number
            (rc_str_bytes inherited.now) first) }
    {
        for place in self.places_of(module, number) {
            let Some(segment) = self.list.get(*place) else {
                continue;
            };
            if segment.context.inherited.as_str() == inherited.as_str() {
                return Some(segment.first);
            }
        }
        None
    }

    /// Notes that the segment at the place has that number among those of the module.
    fn note_place(
        &mut self,
        module: ModuleId,
        number: usize,
        place: usize,
    ) -> Result<(), AllocError>
        ensures contents { self.new.contents ≡ self.old.contents }
        ensures list { self.new.list ≡ self.old.list }
        ensures brought { self.new.brought ≡ self.old.brought }
        ensures noted { IfOk result (λ _. NotesPlace self.old.places.items self.new.places.items
            «module».0 number place) }
    {
        if module.0 < self.places.len() {
            push_at(&mut self.places[module.0], number, place)?;
        }
        Ok(())
    }

    /// The places of the segments of a module that have that number among those of the module.
    pub fn places_of(&self, module: ModuleId, number: usize) -> &[usize]
        ensures { result.now ≡ places_at self.now.places.items «module».0 number }
    {
        match self.places.get(module.0) {
            Some(numbers) => match numbers.get(number) {
                Some(places) => places,
                None => &[],
            },
            None => &[],
        }
    }
}

/// Adds a place to the list of that number, if there is one.
fn push_at(lists: &mut Vec<Vec<usize>>, number: usize, place: usize) -> Result<(), AllocError>
    ensures { IfOk result (λ _. PushesAt lists.old.items lists.new.items number place) }
{
    if number < lists.len() {
        lists[number].push(place)?;
    }
    Ok(())
}

/// So many empty lists.
fn no_places(alloc: Global, count: usize) -> Result<Vec<Vec<usize>>, AllocError>
    ensures size { IfOk result (λ lists. length lists.items ≡ count) }
    ensures empty { (n : ℕ) → IfOk result (λ lists. places_in lists.items n ≡ []) }
{
    let mut places = Vec::with_capacity(alloc, count)?;
    for _ in 0..count {
        places.push(Vec::new(alloc))?;
    }
    Ok(places)
}
