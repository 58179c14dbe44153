// Members of a joined list that repeat an earlier one (RELAX NG 2001, 4.17).
ghost use Rattle.std.specs.Prelude.{◌≡◌, ◌≤◌, ◌<◌, IfOk, IfSome, List, Some, map, slice_get, slice_index_or};
ghost use Rattle.rn_assemble.specs.Firsts.{AreFirsts};
ghost use Rattle.rn_pattern.specs.Tree.{Tree};
ghost use Rattle.rn_pattern.specs.View.{pattern_view, shared_view};
ghost use Rattle.rn_simplify.specs.inside.Repeats.{AreFirstsAmong, AreFirstsOf, AreSameButRepeats};
ghost use Rattle.rn_pattern.specs.Canonical.{HaveSameMembers};

use rn_pattern::{Pattern, new_box};
use std::alloc::{AllocError, Global};
use std::rc::Rc;

/// The index of the first member that is the same as the one at the index.
pub(crate) fn first_of(firsts: &[u32], index: usize) -> usize
    ensures { (members : List Tree) (p : Tree) → AreFirsts firsts.now members
        → slice_get members index ≡ Some p
        → (result ≤ index) × (slice_index_or members result p ≡ p) }
{
    match firsts.get(index) {
        Some(first) => *first as usize,
        None => index,
    }
}

/// The members, in their order, without those that repeat an earlier one.
pub(crate) fn distinct_members(
    alloc: Global,
    members: &[Rc<Pattern>],
    firsts: &[u32],
) -> Result<Vec<Rc<Pattern>>, AllocError>
    requires { AreFirstsAmong firsts.now members.now }
    ensures { IfOk result
        (λ v. HaveSameMembers (map shared_view v.items) (map shared_view members.now)) }
{
    let mut found = Vec::new(alloc);
    for index in 0..members.len() {
        if first_of(firsts, index) >= index {
            found.push(members[index].clone()?)?;
        }
    }
    Ok(found)
}

/// The body without the members that repeat an earlier one. `None` where `firsts` is empty, or the body is no list to
/// which components are joined.
pub(crate) fn without_repeats(
    alloc: Global,
    body: &Pattern,
    firsts: &[u32],
) -> Result<Option<Box<Pattern>>, AllocError>
    requires { AreFirstsOf firsts.now body.now }
    ensures { IfOk result (λ found. IfSome found
        (λ p. AreSameButRepeats (pattern_view p.value) (pattern_view body.now))) }
{
    if firsts.is_empty() {
        return Ok(None);
    }
    match body {
        Pattern::Choice(members) => {
            let members = distinct_members(alloc, members, firsts)?;
            Ok(Some(new_box(alloc, Pattern::Choice(members))?))
        }
        Pattern::Interleave(members) => {
            let members = distinct_members(alloc, members, firsts)?;
            Ok(Some(new_box(alloc, Pattern::Interleave(members))?))
        }
        _ => Ok(None),
    }
}
