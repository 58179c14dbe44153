// The pieces of a key: which of the components that modules define under it stand in each segment.
ghost use Rattle.std.specs.Prelude.{◌≡◌, ◌<◌, ◌≤◌, ◌↔◌, Contains, IfOk, IsTrue, Some, false, length, map, min, option_map, slice_get};
ghost use Rattle.std.specs.Option.{option_map_or};
ghost use Rattle.std.specs.List.{AllByRecursion};
ghost use Rattle.std.specs.List.Sorted.{IsStrictlyIncreasing};
ghost use Rattle.rn_assemble.specs.declared.reading.contents.Contents.{Contents};
ghost use Rattle.rn_assemble.specs.declared.reading.contents.Include.{Include};
ghost use Rattle.rn_assemble.specs.declared.reading.named_modules.ModuleId.{ModuleId};
ghost use Rattle.rn_assemble.specs.declared.including.pieces.Piece.{Piece};
ghost use Rattle.rn_assemble.specs.declared.including.segments.FollowedInclude.{FollowedInclude};
ghost use Rattle.rn_assemble.specs.inside.ContentsOf.{AreApart, HasOrderedIncludes};
ghost use Rattle.rn_assemble.specs.inside.Pieces.{AreAllPieces, AreLeft, ArePieces, IsKnownRow, IsLeastLacking, OfRow, overrides_in};
ghost use Rattle.rn_assemble.specs.inside.Runs.{AddsRun, ArePiecesIn, IsEndOfRun, IsFirstOwn, IsLackByPieces, IsOrderedRow, marked, marked_in};

use crate::including::segments::{FollowedInclude, Segments};
use crate::reading::key_rows::WrittenComponent;
use crate::reading::named_modules::ModuleId;
use std::alloc::AllocError;

/// The components that a segment has of a key.
#[derive(Clone, Copy)]
pub(crate) struct Piece {
    /// The place of the segment.
    pub segment: usize,
    /// The first of the components, as an index among those that modules define under the key.
    pub from: usize,
    /// The index behind the last one.
    pub to: usize,
    /// Whether an include overrides the key there.
    is_overridden: bool,
}

impl Segments<'_, '_, '_> {
    /// Puts the pieces of a key that no include overrides into `pieces`, in the order of components, in the place of
    /// what it held; `row` has the components that modules define under the key.
    pub fn live_pieces(
        &self,
        row: &[WrittenComponent<'_>],
        pieces: &mut Vec<Piece>,
    ) -> Result<(), AllocError>
        requires { IsKnownRow row.now self.now }
        ensures pieces { OfRow row.now self.now (λ modules k cs. IfOk result (λ _.
            ArePieces modules self.now.list.items k row.now cs pieces.new.items)) }
        ensures left { OfRow row.now self.now (λ modules k cs. IfOk result (λ _.
            AreLeft modules self.now k row.now pieces.new.items)) }
    {
        self.all_pieces(row, pieces)?;
        if self.mark_overridden(row, pieces) {
            pieces.retain(|piece: &Piece| !piece.is_overridden);
        }
        Ok(())
    }

    /// Puts the pieces of a key into `pieces`, in the order of components, also those that includes override.
    pub fn all_pieces(
        &self,
        row: &[WrittenComponent<'_>],
        pieces: &mut Vec<Piece>,
    ) -> Result<(), AllocError>
        requires { IsKnownRow row.now self.now }
        ensures { OfRow row.now self.now (λ modules k cs. IfOk result (λ _.
            AreAllPieces self.now.list.items row.now pieces.new.items)) }
    {
        pieces.clear();
        let mut from = 0;
        let mut runs = 0usize;
        while from < row.len() {
            from = self.push_run(row, from, pieces)?;
            runs = runs.saturating_add(1);
        }
        if runs > 1 {
            pieces.sort_unstable_by_key(|piece: &Piece| piece.segment);
        }
        Ok(())
    }

    /// Adds the pieces of a module's components from an index on that no include parts. Answers the index behind them.
    fn push_run(
        &self,
        row: &[WrittenComponent<'_>],
        from: usize,
        pieces: &mut Vec<Piece>,
    ) -> Result<usize, AllocError>
        requires within { from < length row.now }
        requires ordered { AllByRecursion HasOrderedIncludes self.now.contents.now }
        ensures { IfOk result (λ to.
            AddsRun self.now row.now from to pieces.old.items pieces.new.items) }
    {
        let WrittenComponent { module, number, .. } = &row[from];
        let Some(content) = self.contents.get(module.0) else {
            return Ok(row.len());
        };
        let segment = content.segment_of(*number);
        let to = end_of_run(row, from, *module, content.end_of_segment(segment));
        for place in self.places_of(*module, segment) {
            pieces.push(Piece {
                segment: *place,
                from,
                to,
                is_overridden: false,
            })?;
        }
        Ok(to)
    }

    /// Whether one of the components is an include's own. Where none is, no include overrides the key.
    pub fn has_own(&self, row: &[WrittenComponent<'_>]) -> bool
        requires { IsKnownRow row.now self.now }
        ensures { (b : FollowedInclude) → Contains self.now.brought.items b
            → IsTrue (overrides_in row.now b) → IsTrue result }
    {
        for component in row {
            if self.is_own(component) {
                return true;
            }
        }
        false
    }

    /// Whether the component is an include's own.
    fn is_own(&self, component: &WrittenComponent<'_>) -> bool
        requires { (c : Contents)
            → slice_get self.now.contents.now component.now.«module».0 ≡ Some c
            → HasOrderedIncludes c × AreApart c.includes.items }
        ensures { (c : Contents) (i : Include)
            → slice_get self.now.contents.now component.now.«module».0 ≡ Some c
            → Contains c.includes.items i → i.from ≤ component.now.number
            → component.now.number < i.to → IsTrue result }
    {
        match self.contents.get(component.module.0) {
            Some(content) => content.is_own(component.number),
            None => false,
        }
    }

    /// Marks the pieces that includes override, and answers whether there are any.
    fn mark_overridden(&self, row: &[WrittenComponent<'_>], pieces: &mut [Piece]) -> bool
        requires known { IsKnownRow row.now self.now }
        requires all { AreAllPieces self.now.list.items row.now pieces.old }
        ensures marked { pieces.new ≡ map (marked_in row.now self.now.brought.items) pieces.old }
        ensures none { result ≡ false → (b : FollowedInclude) → Contains self.now.brought.items b
            → overrides_in row.now b ≡ false }
    {
        if !self.has_own(row) {
            return false;
        }
        let mut has_marked = false;
        for brought in &self.brought {
            if overrides(row, brought) {
                let (from, to) = pieces_in(pieces, brought);
                mark(&mut pieces[from..to]);
                has_marked = true;
            }
        }
        has_marked
    }

    /// The least module with an include that overrides the key and brings nothing of it in, where these are all its pieces.
    pub fn least_lacking(&self, row: &[WrittenComponent<'_>], pieces: &[Piece]) -> Option<ModuleId>
        requires known { IsKnownRow row.now self.now }
        requires all { AreAllPieces self.now.list.items row.now pieces.now }
        ensures { OfRow row.now self.now (λ modules k cs.
            IsLeastLacking modules self.now k result) }
    {
        if !self.has_own(row) {
            return None;
        }
        let mut least = None;
        for brought in &self.brought {
            if lacks(row, pieces, brought) {
                least = Some(lesser(least, brought.module));
            }
        }
        least
    }
}

/// Whether the include overrides the key, of which it brought nothing in; `pieces` has all pieces of the key.
pub(crate) fn lacks(
    row: &[WrittenComponent<'_>],
    pieces: &[Piece],
    brought: &FollowedInclude,
) -> bool
    requires row_ordered { IsOrderedRow row.now }
    requires rise { IsStrictlyIncreasing (map (λ (p : Piece). p.segment) pieces.now) }
    requires ordered { brought.now.from ≤ brought.now.to }
    ensures { IsTrue result ↔ IsLackByPieces row.now pieces.now brought.now }
{
    let (from, to) = pieces_in(pieces, brought);
    from == to && overrides(row, brought)
}

/// The lesser of a module and the one that there may be.
fn lesser(held: Option<ModuleId>, other: ModuleId) -> ModuleId
    ensures { result.0 ≡ option_map_or (λ (m : ModuleId). min m.0 other.0) held other.0 }
{
    match held {
        Some(held) => held.min(other),
        None => other,
    }
}

/// Marks pieces as overridden.
fn mark(pieces: &mut [Piece])
    ensures { pieces.new ≡ map marked pieces.old }
{
    for piece in pieces.iter_mut() {
        piece.is_overridden = true;
    }
}

/// The index behind the components from one on that are of the module and have numbers below `end`.
fn end_of_run(row: &[WrittenComponent<'_>], from: usize, module: ModuleId, end: usize) -> usize
    requires { from < length row.now }
    ensures { IsEndOfRun row.now from «module».0 end result }
{
    let mut to = from + 1;
    while to < row.len() && row[to].module == module && row[to].number < end {
        to += 1;
    }
    to
}

/// Whether the include's own components have the key.
fn overrides(row: &[WrittenComponent<'_>], brought: &FollowedInclude) -> bool
    requires { IsOrderedRow row.now }
    ensures { result ≡ overrides_in row.now brought.now }
{
    first_own(row, brought).is_some()
}

/// The first of the include's own components that has the key.
pub(crate) fn first_own<'r, 's>(
    row: &'r [WrittenComponent<'s>],
    brought: &FollowedInclude,
) -> Option<&'r WrittenComponent<'s>>
    requires { IsOrderedRow row.now }
    ensures { IsFirstOwn row.now brought.now (option_map (λ w. w.now) result) }
{
    let at = row.partition_point(|component: &WrittenComponent<'_>| {
        component.module < brought.module
            || (component.module == brought.module && component.number < brought.own_from)
    });
    match row.get(at) {
        Some(component)
            if component.module == brought.module && component.number < brought.own_to => {
            Some(component)
        }
        _ => None,
    }
}

/// Where the pieces of the segments that the include brought in begin, and where they end.
fn pieces_in(pieces: &[Piece], brought: &FollowedInclude) -> (usize, usize)
    requires rise { IsStrictlyIncreasing (map (λ (p : Piece). p.segment) pieces.now) }
    requires ordered { brought.now.from ≤ brought.now.to }
    ensures { ArePiecesIn pieces.now brought.now result.0 result.1 }
{
    let from = pieces.partition_point(|piece: &Piece| piece.segment < brought.from);
    let to = pieces.partition_point(|piece: &Piece| piece.segment < brought.to);
    (from, to)
}
