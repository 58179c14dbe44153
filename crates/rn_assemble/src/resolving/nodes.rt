// The nodes of resolved patterns.
ghost use Rattle.std.specs.Prelude.{◌≡◌, IfOk, MatchOption};
ghost use Rattle.std.specs.Rc.{rc_str_bytes};
ghost use Rattle.rn_pattern.specs.Opened.{pair};
ghost use Rattle.rn_pattern.specs.Tree as tree;
ghost use Rattle.rn_pattern.specs.View.{parameters_view, pattern_view, shared_view, boxed_view, shared_trees};

use crate::resolving::constants::Constants;
use rn_pattern::{Data, Pattern, SmallString, Value, new_box, new_shared};
use std::alloc::{AllocError, Global};
use std::rc::{Rc, RcStr};

/// A value of a datatype: the URI of its library, its name there, and the value's text.
pub(crate) fn typed_value(
    alloc: Global,
    library: &RcStr,
    type_name: &str,
    text: &str,
) -> Result<Pattern, AllocError>
    ensures { IfOk result (λ p. pattern_view p
        ≡ tree.value (rc_str_bytes library.now) type_name.now text.now) }
{
    let value = Value {
        library: library.clone()?,
        type_name: String::from_str(alloc, type_name)?,
        text: String::from_str(alloc, text)?,
    };
    Ok(Pattern::Value(Box::new(alloc, value)?))
}

/// A datatype with its parameters, and what is excepted.
pub(crate) fn typed_datum(
    alloc: Global,
    library: &RcStr,
    type_name: &str,
    params: Vec<(String, String)>,
    except: Option<Box<Pattern>>,
) -> Result<Pattern, AllocError>
    ensures { IfOk result (λ p. MatchOption except
        (pattern_view p ≡ tree.datum (rc_str_bytes library.now) type_name.now
        (parameters_view params.items))
        (λ e. pattern_view p ≡ tree.datum_but (rc_str_bytes library.now) type_name.now
        (parameters_view params.items)
        (boxed_view e))) }
{
    let data = Data {
        library: library.clone()?,
        type_name: String::from_str(alloc, type_name)?,
        params,
    };
    Ok(Pattern::Datum(Box::new(alloc, data)?, except))
}

pub(crate) fn list(content: Box<Pattern>) -> Pattern
    ensures { pattern_view result ≡ tree.list (boxed_view content) }
{
    Pattern::List(content)
}

pub(crate) fn one_or_more(alloc: Global, content: Pattern) -> Result<Pattern, AllocError>
    ensures { IfOk result (λ p. pattern_view p ≡ tree.one_or_more (pattern_view content)) }
{
    Ok(Pattern::OneOrMore(new_box(alloc, content)?))
}

pub(crate) fn reference(alloc: Global, name: &str) -> Result<Pattern, AllocError>
    ensures { IfOk result (λ p. pattern_view p ≡ tree.ref name.now) }
{
    Ok(Pattern::Ref(SmallString::from_str(alloc, name)?))
}

/// The pattern, to be a member of a list. All that are `empty` share one, and so do all that are `text`.
pub(crate) fn new_member(
    alloc: Global,
    constants: &Constants,
    pattern: Pattern,
) -> Result<Rc<Pattern>, AllocError>
    ensures { IfOk result (λ p. shared_view p ≡ pattern_view pattern) }
{
    match pattern {
        Pattern::Empty => constants.empty(),
        Pattern::Text => constants.text(),
        other => new_shared(alloc, other),
    }
}

/// The two patterns as the members of a list.
#[inline(always)]
fn pair_members(
    alloc: Global,
    first: Rc<Pattern>,
    second: Rc<Pattern>,
) -> Result<Vec<Rc<Pattern>>, AllocError>
    ensures { IfOk result (λ v. shared_trees v.items
        ≡ pair (shared_view first) (shared_view second)) }
{
    let mut members = Vec::with_capacity(alloc, 2)?;
    members.push(first)?;
    members.push(second)?;
    Ok(members)
}

pub(crate) fn group(members: Vec<Rc<Pattern>>) -> Pattern
    ensures { pattern_view result ≡ tree.group (shared_trees members.items) }
{
    Pattern::Group(members)
}

pub(crate) fn interleave(members: Vec<Rc<Pattern>>) -> Pattern
    ensures { pattern_view result ≡ tree.interleave (shared_trees members.items) }
{
    Pattern::Interleave(members)
}

pub(crate) fn choice(members: Vec<Rc<Pattern>>) -> Pattern
    ensures { pattern_view result ≡ tree.choice (shared_trees members.items) }
{
    Pattern::Choice(members)
}

/// The choice of the pattern and empty.
#[inline(always)]
pub(crate) fn optional_pattern(
    alloc: Global,
    constants: &Constants,
    content: Pattern,
) -> Result<Pattern, AllocError>
    ensures { IfOk result (λ p. pattern_view p
        ≡ tree.choice (pair (pattern_view content) tree.empty)) }
{
    let content = new_member(alloc, constants, content)?;
    let empty = constants.empty()?;
    Ok(choice(pair_members(alloc, content, empty)?))
}

/// The interleave of the pattern and text.
pub(crate) fn mixed_pattern(
    alloc: Global,
    constants: &Constants,
    content: Pattern,
) -> Result<Pattern, AllocError>
    ensures { IfOk result (λ p. pattern_view p
        ≡ tree.interleave (pair (pattern_view content) tree.text)) }
{
    let content = new_member(alloc, constants, content)?;
    let text = constants.text()?;
    Ok(interleave(pair_members(alloc, content, text)?))
}
