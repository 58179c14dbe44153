// The definitions of a grammar that the start doesn't reach.
ghost use Rattle.std.specs.Prelude.{◌≡◌, ◌<◌, ◌||◌, [], ◌∷◌, ◌++◌, IfOk, OnOk, if◌then◌else◌, length, map, slice_index_or, string_bytes, vec_len, ℕ};
ghost use Rattle.rn_graph.specs.Graph.{AllBelow, is_marked};
ghost use Rattle.rn_assemble.specs.GrammarView.{definitions_view, grammar_view};
ghost use Rattle.rn_assemble.specs.SettlingOrder.{holds};
ghost use Rattle.rn_flat.specs.UnreachedNames.{AreUnreached, TellReached, names_of_definitions, unmarked};

use rn_assemble::{Definitions, Grammar};
use std::alloc::{AllocError, Global};

/// The names of the definitions that the start doesn't reach (RELAX NG 2001, 4.19), in the order of the grammar.
pub fn unreached_names(alloc: Global, grammar: &Grammar) -> Result<Vec<String>, AllocError>
    ensures { IfOk result (λ names.
        AreUnreached (grammar_view grammar.now) (map string_bytes names.items)) }
{
    let defs = grammar.defs();
    let reached = reached_marks(alloc, grammar)?;
    unmarked_names(alloc, defs, reached.as_slice())
}

/// For each definition whether the start reaches it.
fn reached_marks(alloc: Global, grammar: &Grammar) -> Result<Vec<bool>, AllocError>
    ensures { IfOk result (λ marks. TellReached (grammar_view grammar.now) marks.items) }
{
    let defs = grammar.defs();
    let mut marks = vec![in alloc; false; defs.len()]?;
    set_marks(&mut marks, grammar.settling_order());
    Ok(marks)
}

/// Sets the marks of these numbers.
fn set_marks(marks: &mut Vec<bool>, numbers: &[usize])
    requires { AllBelow (vec_len marks.old) numbers.now }
    ensures size { vec_len marks.new ≡ vec_len marks.old }
    ensures marks { (x : ℕ) → is_marked marks.new.items x
        ≡ (is_marked marks.old.items x || holds numbers.now x) }
{
    for number in numbers {
        marks[*number] = true;
    }
}

/// The names of the definitions without a mark, in their order.
fn unmarked_names(
    alloc: Global,
    defs: &Definitions,
    marks: &[bool],
) -> Result<Vec<String>, AllocError>
    requires { length marks.now ≡ length (definitions_view defs.now.entries) }
    ensures { IfOk result (λ names. map string_bytes names.items
        ≡ unmarked marks.now (names_of_definitions (definitions_view defs.now.entries))) }
{
    let mut names = Vec::new(alloc);
    for number in 0..marks.len() {
        push_unmarked(defs, number, marks[number], &mut names)?;
    }
    Ok(names)
}

/// Adds the name of the definition with this number, unless that has a mark.
fn push_unmarked(
    defs: &Definitions,
    number: usize,
    has_mark: bool,
    names: &mut Vec<String>,
) -> Result<(), AllocError>
    requires { number < length (definitions_view defs.now.entries) }
    ensures { OnOk result (map string_bytes names.new.items ≡ map string_bytes names.old.items
        ++ (if has_mark then [] else slice_index_or
        (names_of_definitions (definitions_view defs.now.entries)) number [] ∷ [])) }
{
    if has_mark {
        return Ok(());
    }
    if let Some((name, _)) = defs.get_index(number) {
        names.push(name.clone()?)?;
    }
    Ok(())
}
