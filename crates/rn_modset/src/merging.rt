// The union of two lists that rise, in time linear in the bytes of both.
ghost use Rattle.std.specs.Prelude.{◌≡◌, ◌+◌, ◌<◌, ◌≤◌, [], length, true, false, IfOk, MatchOption, MatchBool, vec_len};
ghost use Rattle.rn_modset.specs.Contributions.{member, members_of};
ghost use Rattle.rn_modset.specs.Sets.{Rises, has, union};
ghost use Rattle.rn_modset.specs.inside.Merges.{missing, IsNotBelow, KeepsFrom, AreApart, EndsAbove, TakesGreatest};
ghost use Rattle.rn_modset.specs.inside.Digested.{members_in, IsDigested, AreDigested, HasRoom};

use crate::contribution::Contribution;
use crate::members::{Digested, Members};
use std::alloc::{AllocError, Global};

/// How many contributions of the second list the first doesn't hold.
pub fn count_missing(held: &[Contribution], others: &[Contribution]) -> usize
    requires held { Rises (members_of held.now) }
    requires others { Rises (members_of others.now) }
    ensures count { result ≡ length (missing (members_of held.now) (members_of others.now)) }
    ensures few { result ≤ length others.now }
{
    let mut rest = held;
    let mut count = 0;
    for contribution in others {
        rest = skip_below(rest, contribution);
        if !begins_with(rest, contribution) {
            count += 1;
        }
    }
    count
}

/// Copies of the members of `others` that `held` lacks, of which there are `count`, with their digests.
pub fn copy_missing(
    alloc: Global,
    held: &[Contribution],
    others: &Members,
    count: usize,
) -> Result<Members, AllocError>
    requires held { Rises (members_of held.now) }
    requires others { Rises (members_in others.now) }
    requires digested { AreDigested others.now }
    ensures copies { IfOk result (λ copies. members_of copies.contributions.items
        ≡ missing (members_of held.now) (members_in others.now)) }
    ensures digested { IfOk result AreDigested }
{
    let contributions = others.contributions.as_slice();
    let mut copies = Members::with_capacity(alloc, count)?;
    let mut rest = held;
    for (at, contribution) in contributions.iter().enumerate() {
        rest = skip_below(rest, contribution);
        if !begins_with(rest, contribution) {
            copies.push(Digested {
                contribution: contribution.clone()?,
                digest: others.digests[at],
            })?;
        }
    }
    Ok(copies)
}

/// What is left of the list behind the contributions that are below this one.
fn skip_below<'a>(held: &'a [Contribution], contribution: &Contribution) -> &'a [Contribution]
    requires { Rises (members_of held.now) }
    ensures rises { Rises (members_of result.now) }
    ensures kept { KeepsFrom (members_of held.now) (members_of result.now)
        (member contribution.now) }
    ensures from { IsNotBelow (members_of result.now) (member contribution.now) }
{
    let mut rest = held;
    while let Some((first, behind)) = rest.split_first() {
        if !first.cmp(contribution).is_lt() {
            break;
        }
        rest = behind;
    }
    rest
}

/// Whether the contribution is the first of the list, in which none is below it.
fn begins_with(rest: &[Contribution], contribution: &Contribution) -> bool
    requires rises { Rises (members_of rest.now) }
    requires from { IsNotBelow (members_of rest.now) (member contribution.now) }
    ensures { result ≡ has (members_of rest.now) (member contribution.now) }
{
    match rest.split_first() {
        Some((first, _)) => first.cmp(contribution).is_eq(),
        None => false,
    }
}

/// Moves all of both lists, which share none, into the empty one, in order.
pub fn merge_members(held: &mut Members, added: &mut Members, merged: &mut Members)
    requires held { Rises (members_in held.old) × AreDigested held.old }
    requires added { Rises (members_in added.old) × AreDigested added.old }
    requires apart { AreApart (members_in held.old) (members_in added.old) }
    requires empty { (merged.old.contributions.items ≡ []) × AreDigested merged.old }
    requires room { HasRoom merged.old
        (vec_len held.old.contributions + vec_len added.old.contributions) }
    ensures all { members_in merged.new ≡ union (members_in held.old) (members_in added.old) }
    ensures digested { AreDigested merged.new }
{
    while let Some(greatest) = pop_greatest(held, added) {
        if merged.push(greatest).is_err() {
            unreachable!()
        }
    }
    merged.reverse();
}

/// The greatest of both lists, taken from the end of its own.
fn pop_greatest(held: &mut Members, added: &mut Members) -> Option<Digested>
    requires held { Rises (members_in held.old) × AreDigested held.old }
    requires added { Rises (members_in added.old) × AreDigested added.old }
    requires apart { AreApart (members_in held.old) (members_in added.old) }
    ensures greatest { MatchOption result
        ((held.old.contributions.items ≡ []) × (added.old.contributions.items ≡ []))
        (λ d. TakesGreatest (members_in held.old) (members_in added.old) (members_in held.new)
        (members_in added.new) (member d.contribution)) }
    ensures fewer { MatchOption result
        (vec_len held.old.contributions + vec_len added.old.contributions ≡ 0)
        (λ d. vec_len held.new.contributions + vec_len added.new.contributions + 1
        ≡ vec_len held.old.contributions + vec_len added.old.contributions) }
    ensures digested { MatchOption result (vec_len held.old.contributions ≡ 0) IsDigested }
    ensures held { AreDigested held.new }
    ensures added { AreDigested added.new }
{
    if ends_above(
        added.contributions.as_slice(),
        held.contributions.as_slice(),
    ) {
        return added.pop();
    }
    held.pop()
}

/// Whether the first list ends in what is greater than all of the second; else the second ends so, or both are empty.
fn ends_above(first: &[Contribution], second: &[Contribution]) -> bool
    requires first { Rises (members_of first.now) }
    requires second { Rises (members_of second.now) }
    requires apart { AreApart (members_of second.now) (members_of first.now) }
    ensures { MatchBool result (EndsAbove (members_of first.now) (members_of second.now))
        (EndsAbove (members_of second.now) (members_of first.now)) }
{
    let Some((last, _)) = first.split_last() else {
        return false;
    };
    let Some((other, _)) = second.split_last() else {
        return true;
    };
    other.cmp(last).is_lt()
}
