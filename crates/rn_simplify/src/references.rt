// The references of a pattern to the definitions of a grammar, in elements and outside (RELAX NG 2001, 4.18).
ghost use Rattle.std.specs.Prelude.{◌≡◌, ◌∷◌, ◌++◌, [], OnOk};
ghost use Rattle.rn_assemble.specs.GrammarView.{definitions_view};
ghost use Rattle.rn_graph.specs.Graph.{open_row, rows_of};
ghost use Rattle.rn_pattern.specs.View.{pattern_view, shared_trees};
ghost use Rattle.rn_simplify.specs.inside.DefinitionNumbers.{all_reference_numbers, numbers_of, reference_numbers};

use rn_assemble::Definitions;
use rn_graph::Rows;
use rn_pattern::Pattern;
use std::alloc::AllocError;
use std::rc::Rc;

/// Adds the definitions that a pattern refers to, in the order of the references, to the row that has not ended. Names
/// that have no definition are passed over.
#[cycle(add_references)]
pub(crate) fn add_references(
    rows: &mut Rows,
    definitions: &Definitions,
    pattern: &Pattern,
) -> Result<(), AllocError>
    ensures rows { rows_of rows.new ≡ rows_of rows.old }
    ensures open { OnOk result (open_row rows.new ≡ open_row rows.old ++ reference_numbers
        (definitions_view definitions.now.entries) (pattern_view pattern.now)) }
{
    match pattern {
        Pattern::Ref(name) => add_name(rows, definitions, name.as_str()),
        Pattern::Datum(_, Some(content)) => add_references(rows, definitions, content),
        Pattern::List(content) | Pattern::OneOrMore(content) => {
            add_references(rows, definitions, content)
        }
        Pattern::Attribute(named) | Pattern::Element(named) => {
            add_references(rows, definitions, &named.content)
        }
        Pattern::Group(members) | Pattern::Interleave(members) | Pattern::Choice(members) => {
            add_all(rows, definitions, members)
        }
        Pattern::NotAllowed
        | Pattern::Empty
        | Pattern::Text
        | Pattern::Value(_)
        | Pattern::Datum(_, None) => Ok(()),
    }
}

/// Adds the references of the members of a list.
#[cycle(add_references)]
fn add_all(
    rows: &mut Rows,
    definitions: &Definitions,
    members: &[Rc<Pattern>],
) -> Result<(), AllocError>
    ensures rows { rows_of rows.new ≡ rows_of rows.old }
    ensures open { OnOk result (open_row rows.new ≡ open_row rows.old ++ all_reference_numbers
        (definitions_view definitions.now.entries) (shared_trees members.now)) }
{
    for member in members {
        add_references(rows, definitions, member)?;
    }
    Ok(())
}

/// Adds the reference to a name, if it has a definition.
#[inline(always)]
fn add_name(rows: &mut Rows, definitions: &Definitions, name: &str) -> Result<(), AllocError>
    ensures rows { rows_of rows.new ≡ rows_of rows.old }
    ensures open { OnOk result (open_row rows.new ≡ open_row rows.old
        ++ numbers_of (definitions_view definitions.now.entries) (name.now ∷ [])) }
{
    if let Some(index) = definitions.get_index_of(name) {
        rows.add(index)?;
    }
    Ok(())
}
