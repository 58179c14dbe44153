// The kind of each definition's canonical form, by its body and by those that the body refers to outside elements.
ghost use Rattle.std.specs.Prelude.{◌≡◌, ◌<◌, ℕ, IfOk, OnOk, length, slice_index_or, slice_set};
ghost use Rattle.rn_assemble.specs.GrammarView.{definitions_view, grammar_view};
ghost use Rattle.rn_pattern.specs.Tree.{Tree};
ghost use Rattle.rn_text.specs.Texts.{Text};
ghost use Rattle.rn_pattern.specs.View.{pattern_view, shared_trees};
ghost use Rattle.rn_simplify.specs.Settling.{IsSettling};
ghost use Rattle.rn_simplify.specs.inside.FormKinds.{becomes, tree_kind, group_kind, choice_kind, kind_in, kind_of, settled_form};
ghost use Rattle.rn_simplify.specs.inside.Repeats.{AreFirstsOf};

use crate::form_kind::FormKind;
use crate::repeated_members::without_repeats;
use crate::settled_definitions::{DefinitionId, SettledDefinitions};
use rn_assemble::Grammar;
use rn_pattern::Pattern;
use std::alloc::{AllocError, Global};
use std::rc::Rc;

/// What the references to the definitions of a grammar become. Each definition is settled after those that it refers to
/// outside elements.
pub(crate) fn settle_all<'g>(
    alloc: Global,
    grammar: &'g Grammar,
) -> Result<SettledDefinitions<'g>, AllocError>
    ensures definitions { IfOk result (λ s. definitions_view s.definitions.now.entries
        ≡ (grammar_view grammar.now).definitions) }
    ensures exact { IfOk result (λ s. (rank : Text → ℕ) × IsSettling (grammar_view grammar.now)
        (becomes s) rank) }
{
    let order = grammar.settling_order();
    let mut settled = SettledDefinitions::none(alloc, grammar.defs())?;
    for index in order {
        settle_definition(alloc, grammar, DefinitionId(*index), &mut settled)?;
    }
    Ok(settled)
}

/// Settles a definition by its body.
fn settle_definition(
    alloc: Global,
    grammar: &Grammar,
    id: DefinitionId,
    settled: &mut SettledDefinitions<'_>,
) -> Result<(), AllocError>
    requires within { id.0 < length settled.old.definitions.now.entries }
    requires of { definitions_view settled.old.definitions.now.entries
        ≡ (grammar_view grammar.now).definitions }
    ensures definitions { settled.new.definitions.now.entries
        ≡ settled.old.definitions.now.entries }
    ensures settled { OnOk result ((d : Text × Tree) → settled.new.kinds.items
        ≡ slice_set settled.old.kinds.items id.0 (kind_of (settled_form settled.old
        (slice_index_or (definitions_view settled.old.definitions.now.entries)
        id.0 d).1))) }
{
    let body = settled.body_of(id);
    let kind = evaluate_body(alloc, settled, body, grammar.firsts(id.0))?;
    settled.set(id, kind);
    Ok(())
}

/// The kind of the canonical form of a body. A member that repeats an earlier one isn't evaluated again.
fn evaluate_body(
    alloc: Global,
    settled: &SettledDefinitions<'_>,
    body: &Pattern,
    firsts: &[u32],
) -> Result<FormKind, AllocError>
    requires { AreFirstsOf firsts.now body.now }
    ensures { IfOk result (λ w. w ≡ tree_kind (kind_in settled.now) (pattern_view body.now)) }
{
    match without_repeats(alloc, body, firsts)? {
        Some(distinct) => Ok(evaluate_pattern(settled, &distinct)),
        None => Ok(evaluate_pattern(settled, body)),
    }
}

/// The kind of the canonical form of a pattern. The contents of elements don't matter.
#[cycle(evaluate_pattern)]
fn evaluate_pattern(settled: &SettledDefinitions<'_>, pattern: &Pattern) -> FormKind
    ensures { result ≡ tree_kind (kind_in settled.now) (pattern_view pattern.now) }
{
    match pattern {
        Pattern::NotAllowed => FormKind::NotAllowed,
        Pattern::Empty => FormKind::Empty,
        Pattern::Ref(name) => settled.kind_of(name.as_str()),
        Pattern::List(content) => evaluate_pattern(settled, content).around(),
        Pattern::Attribute(named) => evaluate_pattern(settled, &named.content).around(),
        Pattern::OneOrMore(content) => evaluate_pattern(settled, content),
        Pattern::Group(members) => evaluate_all(settled, members),
        Pattern::Interleave(members) => evaluate_all(settled, members),
        Pattern::Choice(members) => evaluate_any(settled, members),
        Pattern::Text | Pattern::Value(_) | Pattern::Datum(_, _) | Pattern::Element(_) =>
            FormKind::Other,
    }
}

/// The kind of the canonical form of a group or an interleave of the members.
#[cycle(evaluate_pattern)]
fn evaluate_all(settled: &SettledDefinitions<'_>, members: &[Rc<Pattern>]) -> FormKind
    ensures { result ≡ group_kind (kind_in settled.now)
        (shared_trees members.now) }
{
    let mut kind = FormKind::Empty;
    for member in members {
        kind = kind.both(evaluate_pattern(settled, member));
    }
    kind
}

/// The kind of the canonical form of a choice of the members.
#[cycle(evaluate_pattern)]
fn evaluate_any(settled: &SettledDefinitions<'_>, members: &[Rc<Pattern>]) -> FormKind
    ensures { result ≡ choice_kind (kind_in settled.now)
        (shared_trees members.now) }
{
    let mut kind = FormKind::NotAllowed;
    for member in members {
        kind = kind.either(evaluate_pattern(settled, member));
    }
    kind
}
