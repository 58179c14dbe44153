// From a grammar to its canonical grammar.
ghost use Rattle.std.specs.Prelude.{◌≡◌, IfOk, bytes_eq, map};
ghost use Rattle.std.specs.List.{IsDistinct};
ghost use Rattle.rn_assemble.specs.GrammarView.{definitions_view, grammar_view};
ghost use Rattle.rn_pattern.specs.Matching.{ValidAlike};
ghost use Rattle.rn_pattern.specs.Reached.{IsCanonicalOf};
ghost use Rattle.rn_pattern.specs.Store.{KeepsIds};
ghost use Rattle.rn_pattern.specs.View.{pattern_view};
ghost use Rattle.rn_simplify.specs.NormalView.{normal_view};
ghost use Rattle.rn_simplify.specs.inside.DefinitionForms.{HaveForms};
ghost use Rattle.rn_simplify.specs.inside.FormKinds.{becomes, settled_form};
ghost use Rattle.rn_simplify.specs.inside.Repeats.{AreFirstsOf};

use crate::evaluation::settle_all;
use crate::joined_bodies::canonical_body;
use crate::normal::Normal;
use crate::reachable::reached_forms;
use crate::rebuilding::rebuild;
use crate::settled_definitions::{DefinitionId, SettledDefinitions};
use rn_assemble::Grammar;
use rn_pattern::{Interned, Pattern, Patterns};
use std::alloc::{AllocError, Global};

/// The canonical grammar of a grammar, built in a store of its own. It is valid for exactly the same documents, for
/// every table of datatypes (RELAX NG 2001, 4.18 to 4.21 and 6).
pub fn normalise(alloc: Global, grammar: &Grammar) -> Result<Normal, AllocError>
    ensures canonical { IfOk result
        (λ n. IsCanonicalOf (grammar_view grammar.now) (normal_view n)) }
    ensures documents { IfOk result
        (λ n. ValidAlike (grammar_view grammar.now) (normal_view n)) }
{
    let mut store = Interned::with_seed(alloc, *grammar.defs().hasher());
    normalise_in(alloc, grammar, &mut store)
}

/// The canonical grammar of a grammar, built in `store`, whose earlier ids keep their patterns. After an error they
/// keep them too, and the store may hold more ids.
pub fn normalise_in<P: Patterns>(
    alloc: Global,
    grammar: &Grammar,
    store: &mut P,
) -> Result<Normal, AllocError>
    ensures canonical { IfOk result
        (λ n. IsCanonicalOf (grammar_view grammar.now) (normal_view n)) }
    ensures documents { IfOk result
        (λ n. ValidAlike (grammar_view grammar.now) (normal_view n)) }
    ensures kept { KeepsIds P.knows P.tree_of store.old store.new }
{
    let settled = settle_all(alloc, grammar)?;
    let start = body_form(
        alloc,
        store,
        &settled,
        grammar.start(),
        grammar.start_firsts(),
    )?;
    let forms = definition_forms(alloc, store, &settled, grammar)?;
    let defs = reached_forms(alloc, settled.definitions, &start, forms)?;
    Ok(Normal { start, defs })
}

/// The canonical form of a body, built in the store.
fn body_form<P: Patterns>(
    alloc: Global,
    store: &mut P,
    settled: &SettledDefinitions<'_>,
    body: &Pattern,
    firsts: &[u32],
) -> Result<Pattern, AllocError>
    requires { AreFirstsOf firsts.now body.now }
    ensures made { IfOk result (λ p. pattern_view p ≡ settled_form settled.now
        (pattern_view body.now)) }
    ensures kept { KeepsIds P.knows P.tree_of store.old store.new }
{
    let form = canonical_body(alloc, store, settled, body, firsts)?;
    rebuild(alloc, store, form)
}

/// The definitions, each of those that the start reaches with its canonical form.
fn definition_forms<P: Patterns>(
    alloc: Global,
    store: &mut P,
    settled: &SettledDefinitions<'_>,
    grammar: &Grammar,
) -> Result<Vec<(String, Pattern)>, AllocError>
    requires { definitions_view settled.now.definitions.now.entries
        ≡ (grammar_view grammar.now).definitions }
    ensures named { IfOk result (λ forms. map (λ d. d.0) (definitions_view forms.items)
        ≡ map (λ d. d.0) (definitions_view settled.now.definitions.now.entries)) }
    ensures distinct { IfOk result
        (λ forms. IsDistinct bytes_eq (map (λ d. d.0) (definitions_view forms.items))) }
    ensures made { IfOk result (λ forms. HaveForms (grammar_view grammar.now)
        (becomes settled.now) (definitions_view forms.items)) }
    ensures kept { KeepsIds P.knows P.tree_of store.old store.new }
{
    let order = grammar.settling_order();
    let mut forms = unformed(alloc, settled)?;
    for index in order {
        let body = settled.body_of(DefinitionId(*index));
        let form = body_form(alloc, store, settled, body, grammar.firsts(*index))?;
        forms[*index].1 = form;
    }
    Ok(forms)
}

/// The names of the definitions, without their forms yet.
fn unformed(
    alloc: Global,
    settled: &SettledDefinitions<'_>,
) -> Result<Vec<(String, Pattern)>, AllocError>
    ensures named { IfOk result (λ forms. map (λ d. d.0) (definitions_view forms.items)
        ≡ map (λ d. d.0) (definitions_view settled.now.definitions.now.entries)) }
    ensures distinct { IfOk result
        (λ forms. IsDistinct bytes_eq (map (λ d. d.0) (definitions_view forms.items))) }
{
    let mut forms = Vec::with_capacity(alloc, settled.definitions.len())?;
    for index in 0..settled.definitions.len() {
        let name = settled.name_of(DefinitionId(index)).clone()?;
        forms.push((name, Pattern::NotAllowed))?;
    }
    Ok(forms)
}
