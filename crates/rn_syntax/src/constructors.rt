// Patterns made by their readers, each in its box with the index behind it; and lists of them, out of their boxes.
ghost use Rattle.std.specs.Prelude.{◌≡◌, ◌++◌, ◌∷◌, [], None, OnOk, Some};
ghost use Rattle.std.specs.Cow.{cow_str_bytes};
ghost use Rattle.rn_syntax.specs.inside.Readers.{Makes};
ghost use Rattle.rn_syntax.specs.Tree as tree;
ghost use Rattle.rn_syntax.specs.View.{boxed_view, class_view, datatype_view, params_view, pattern_view, patterns_view, type_view};

use crate::fault::Fault;
use crate::tree::{Data, Datatype, Named, Operator, Param, Pat, Postfix, Value};
use std::alloc::{AllocError, Global};
use std::borrow::CowStr;

/// What was read, in its box, and the index behind it. The readers hand boxes on, which are small.
pub(crate) fn boxed<T: Drop>(alloc: Global, value: T, end: usize) -> Result<(Box<T>, usize), Fault>
    ensures { Makes (λ b. b.value) value end result }
{
    Ok((Box::new(alloc, value)?, end))
}

/// Adds a member, out of its box, to those of a chain or a choice, which lie side by side.
pub(crate) fn push_member<T: Drop>(members: &mut Vec<T>, member: Box<T>) -> Result<(), AllocError>
    ensures { OnOk result (members.new.items
        ≡ members.old.items ++ member.value ∷ []) }
{
    members.push(Box::into_inner(member))?;
    Ok(())
}

pub(crate) fn element<'a>(
    alloc: Global,
    named: Box<Named<'a>>,
    end: usize,
) -> Result<(Box<Pat<'a>>, usize), Fault>
    ensures { Makes boxed_view (tree.element (class_view named.entry.value.class)
        (pattern_view named.entry.value.content)) end result }
{
    boxed(alloc, Pat::Element(named), end)
}

pub(crate) fn attribute<'a>(
    alloc: Global,
    named: Box<Named<'a>>,
    end: usize,
) -> Result<(Box<Pat<'a>>, usize), Fault>
    ensures { Makes boxed_view (tree.attribute (class_view named.entry.value.class)
        (pattern_view named.entry.value.content)) end result }
{
    boxed(alloc, Pat::Attribute(named), end)
}

pub(crate) fn list<'a>(
    alloc: Global,
    content: Pat<'a>,
    end: usize,
) -> Result<(Box<Pat<'a>>, usize), Fault>
    ensures { Makes boxed_view (tree.list (pattern_view content.entry)) end result }
{
    let content = Box::new(alloc, content)?;
    boxed(alloc, Pat::List(content), end)
}

pub(crate) fn mixed<'a>(
    alloc: Global,
    content: Pat<'a>,
    end: usize,
) -> Result<(Box<Pat<'a>>, usize), Fault>
    ensures { Makes boxed_view (tree.mixed (pattern_view content.entry)) end result }
{
    let content = Box::new(alloc, content)?;
    boxed(alloc, Pat::Mixed(content), end)
}

pub(crate) fn empty<'a>(alloc: Global, end: usize) -> Result<(Box<Pat<'a>>, usize), Fault>
    ensures { Makes boxed_view tree.empty end result }
{
    boxed(alloc, Pat::Empty, end)
}

pub(crate) fn not_allowed<'a>(alloc: Global, end: usize) -> Result<(Box<Pat<'a>>, usize), Fault>
    ensures { Makes boxed_view tree.not_allowed end result }
{
    boxed(alloc, Pat::NotAllowed, end)
}

pub(crate) fn text<'a>(alloc: Global, end: usize) -> Result<(Box<Pat<'a>>, usize), Fault>
    ensures { Makes boxed_view tree.text end result }
{
    boxed(alloc, Pat::Text, end)
}

pub(crate) fn reference(
    alloc: Global,
    name: &str,
    end: usize,
) -> Result<(Box<Pat<'_>>, usize), Fault>
    ensures { Makes boxed_view (tree.ref name.now) end result }
{
    boxed(alloc, Pat::Ref(name), end)
}

/// A value, which lies in a box of its own.
fn boxed_value<'a>(
    alloc: Global,
    value: Value<'a>,
    end: usize,
) -> Result<(Box<Pat<'a>>, usize), Fault>
    ensures { Makes boxed_view (tree.value (type_view value.entry.datatype)
        (cow_str_bytes value.entry.text)) end result }
{
    let value = Box::new(alloc, value)?;
    boxed(alloc, Pat::Value(value), end)
}

pub(crate) fn plain_value(
    alloc: Global,
    text: CowStr<'_>,
    end: usize,
) -> Result<(Box<Pat<'_>>, usize), Fault>
    ensures { Makes boxed_view (tree.value None (cow_str_bytes text.entry)) end result }
{
    boxed_value(
        alloc,
        Value {
            datatype: None,
            text,
        },
        end,
    )
}

pub(crate) fn value<'a>(
    alloc: Global,
    datatype: Datatype<'a>,
    text: CowStr<'a>,
    end: usize,
) -> Result<(Box<Pat<'a>>, usize), Fault>
    ensures { Makes boxed_view (tree.value (Some (datatype_view datatype.entry))
        (cow_str_bytes text.entry)) end result }
{
    boxed_value(
        alloc,
        Value {
            datatype: Some(datatype),
            text,
        },
        end,
    )
}

pub(crate) fn datum<'a>(
    alloc: Global,
    datatype: Datatype<'a>,
    params: Vec<Param<'a>>,
    end: usize,
) -> Result<(Box<Pat<'a>>, usize), Fault>
    ensures { Makes boxed_view (tree.datum (datatype_view datatype.entry)
        (params_view params.entry.items)) end result }
{
    let data = Box::new(alloc, Data { datatype, params })?;
    boxed(alloc, Pat::Datum(data), end)
}

pub(crate) fn datum_but<'a>(
    alloc: Global,
    datatype: Datatype<'a>,
    params: Vec<Param<'a>>,
    at: usize,
    except: Box<Pat<'a>>,
    end: usize,
) -> Result<(Box<Pat<'a>>, usize), Fault>
    ensures { Makes boxed_view (tree.datum_but (datatype_view datatype.entry)
        (params_view params.entry.items) at (boxed_view except.entry)) end result }
{
    let data = Box::new(alloc, Data { datatype, params })?;
    boxed(alloc, Pat::DatumBut(data, at, except), end)
}

pub(crate) fn repeated<'a>(
    alloc: Global,
    postfix: Postfix,
    primary: Box<Pat<'a>>,
    end: usize,
) -> Result<(Box<Pat<'a>>, usize), Fault>
    ensures { Makes boxed_view (tree.repeated postfix (boxed_view primary.entry)) end result }
{
    boxed(alloc, Pat::Repeated(postfix, primary), end)
}

pub(crate) fn chain<'a>(
    alloc: Global,
    operator: Operator,
    members: Vec<Pat<'a>>,
    end: usize,
) -> Result<(Box<Pat<'a>>, usize), Fault>
    ensures { Makes boxed_view (tree.chain operator
        (patterns_view members.entry.items)) end result }
{
    boxed(alloc, Pat::Chain(operator, members), end)
}
