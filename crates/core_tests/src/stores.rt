// Stores of patterns: what constructors make of members, and which patterns are new.
ghost use Rattle.std.specs.Prelude.{IfOk, IsTrue};

use rn_pattern::{Interned, Patterns, Plain};
use std::alloc::AllocError;
use std::process::Abort;

/// What is told of a store holds.
fn is_told(rt: &impl Abort, told: Result<bool, AllocError>, said: &str) {
    assert!(rt; told.expect(rt, "no memory"), "{said}");
}

/// Whether a group within a group leaves its members in it, each as often as before.
fn joins_groups(store: &mut Interned) -> Result<bool, AllocError> {
    let a = store.reference("a")?;
    let b = store.reference("b")?;
    let ab = store.group(&[a, b])?;
    let aab = store.group(&[a, ab])?;
    Ok(store.group(&[a, a, b])? == aab)
}

#[test]
fn groups_are_joined(rt: HostRuntime) {
    is_told(
        &rt,
        joins_groups(&mut Interned::new(rt.alloc())),
        "a group is no member of a group",
    );
}

/// Whether an interleave keeps each member as often as it stands, in order.
fn keeps_repeats(store: &mut Interned) -> Result<bool, AllocError> {
    let a = store.reference("a")?;
    let b = store.reference("b")?;
    let bab = store.ileave(&[b, a, b])?;
    Ok(store.ileave(&[a, b, b])? == bab && store.ileave(&[a, b])? != bab)
}

#[test]
fn interleaves_keep_repeats(rt: HostRuntime) {
    is_told(
        &rt,
        keeps_repeats(&mut Interned::new(rt.alloc())),
        "an interleave keeps repeats",
    );
}

/// Whether `notAllowed` leaves a choice and takes what holds it along.
fn spreads_not_allowed(store: &mut Plain) -> Result<bool, AllocError> {
    let no = store.not_allowed()?;
    let a = store.reference("a")?;
    Ok(store.choice(&[no, a, no])? == a && store.list(no)? == no && store.one_or_more(no)? == no)
}

#[test]
fn not_allowed_spreads(rt: HostRuntime) {
    is_told(
        &rt,
        spreads_not_allowed(&mut Plain::new(rt.alloc())),
        "notAllowed spreads",
    );
}

/// Whether a repetition of a repetition is that repetition.
fn repeats_once(store: &mut Plain) -> Result<bool, AllocError> {
    let a = store.reference("a")?;
    let some = store.one_or_more(a)?;
    Ok(store.one_or_more(some)? == some)
}

#[test]
fn a_repetition_is_repeated_once(rt: HostRuntime) {
    is_told(
        &rt,
        repeats_once(&mut Plain::new(rt.alloc())),
        "a repetition of a repetition is that one",
    );
}

/// Whether a choice that is there already is found, whatever the order of its members.
fn shares_choices(store: &mut Interned) -> Result<bool, AllocError> {
    let a = store.reference("a")?;
    let b = store.reference("b")?;
    let first = store.choice(&[b, a])?;
    Ok(store.choice(&[a, b, a])? == first)
}

/// Whether an interleave of a pattern twice is another pattern, and a choice of it twice is that one.
fn makes_an_interleave(store: &mut Interned) -> Result<bool, AllocError> {
    let a = store.reference("a")?;
    Ok(store.ileave(&[a, a])? != a && store.choice(&[a, a])? == a)
}

#[test]
fn an_interned_store_counts_new_patterns(rt: HostRuntime) {
    let mut store = Interned::new(rt.alloc());
    assert_eq!(rt; store.nodes(), 0);
    is_told(&rt, shares_choices(&mut store), "a choice is shared");
    assert_eq!(rt; store.nodes(), 3);
    is_told(
        &rt,
        makes_an_interleave(&mut store),
        "an interleave of a pattern twice",
    );
    assert_eq!(rt; store.nodes(), 4);
}

/// Whether a reference that is there already is made anew, and a choice of the two is the first.
fn makes_anew(store: &mut Plain) -> Result<bool, AllocError> {
    let a = store.reference("a")?;
    let again = store.reference("a")?;
    Ok(a != again && store.choice(&[a, again])? == a)
}

#[test]
fn a_plain_store_counts_each_pattern(rt: HostRuntime) {
    let mut store = Plain::new(rt.alloc());
    is_told(&rt, makes_anew(&mut store), "a reference is made anew");
    assert_eq!(rt; store.nodes(), 2);
}

/// Two towers of that many nested lists, which differ at the bottom alone.
fn towers<P: Patterns>(store: &mut P, height: usize) -> Result<(P::Id, P::Id), AllocError>
    ensures { IfOk result (λ both. IsTrue (P.knows store.new both.0)
        × IsTrue (P.knows store.new both.1)) }
{
    let mut a = store.reference("a")?;
    let mut b = store.reference("b")?;
    for _ in 0..height {
        a = store.list(a)?;
        b = store.list(b)?;
    }
    Ok((a, b))
}

/// Whether the choice of two towers is the same in either order, and neither of them.
fn compares_towers(store: &mut Interned, height: usize) -> Result<bool, AllocError> {
    let (a, b) = towers(store, height)?;
    let choice = store.choice(&[b, a])?;
    Ok(choice != a && choice != b && store.choice(&[a, b])? == choice)
}

#[test]
fn towers_of_lists_are_compared_without_a_call_for_each(rt: HostRuntime) {
    is_told(
        &rt,
        compares_towers(&mut Interned::new(rt.alloc()), 20_000),
        "the order of two towers counts",
    );
}
