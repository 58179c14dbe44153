// Which patterns and name classes need parentheses as an operand or before a postfix (compact syntax, section 2).
ghost use Rattle.std.specs.Prelude.{◌≡◌};
ghost use Rattle.rn_simplify.specs.Spelling.{Prefixes, written_choice, written_interleave, written_name, written_tree};
ghost use Rattle.rn_pattern.specs.View.{name_class_view, pattern_view};
ghost use Rattle.rn_simplify.specs.inside.Writes.{begins, written_members, shape_view};

use rn_pattern::{NameClass, Pattern};
use std::rc::Rc;

/// How a pattern or a name class is written.
#[derive(Clone, Copy, PartialEq, Eq)]
pub(crate) enum Shape {
    /// It needs no parentheses anywhere.
    Closed,
    /// It ends in a postfix, so it needs parentheses before another one.
    Postfixed,
    /// It is a chain of operands or has an except, so it needs parentheses in each operand.
    Chained,
}

/// Whether the first member is empty, which comes before all others: the choice is written with a postfix.
pub(crate) fn begins_with_empty(members: &[Rc<Pattern>]) -> bool
    ensures { (f : Prefixes) → result ≡ begins (λ w. w.is_empty) (written_members f members.now) }
{
    match members.first() {
        Some(first) => matches!(&**first, Pattern::Empty),
        None => false,
    }
}

/// Whether the first member is text, which comes before all others but empty: the interleave is mixed.
pub(crate) fn begins_with_text(members: &[Rc<Pattern>]) -> bool
    ensures { (f : Prefixes) → result ≡ begins (λ w. w.is_text) (written_members f members.now) }
{
    match members.first() {
        Some(first) => matches!(&**first, Pattern::Text),
        None => false,
    }
}

/// The shape of an interleave, which is mixed if its first member is text.
fn shape_of_interleave(members: &[Rc<Pattern>]) -> Shape
    ensures { (f : Prefixes) → shape_view result
        ≡ (written_interleave (written_members f members.now)).shape }
{
    if members.is_empty() || begins_with_text(members) {
        Shape::Closed
    } else {
        Shape::Chained
    }
}

/// The shape of a choice, which has a postfix if its first member is `empty`.
fn shape_of_choice(members: &[Rc<Pattern>]) -> Shape
    ensures { (f : Prefixes) → shape_view result
        ≡ (written_choice (written_members f members.now)).shape }
{
    if members.is_empty() {
        Shape::Closed
    } else if begins_with_empty(members) {
        Shape::Postfixed
    } else {
        Shape::Chained
    }
}

pub(crate) fn shape_of_pattern(pattern: &Pattern) -> Shape
    ensures { (f : Prefixes) → shape_view result
        ≡ (written_tree f (pattern_view pattern.now)).shape }
{
    match pattern {
        Pattern::Datum(_, Some(_)) => Shape::Chained,
        Pattern::OneOrMore(_) => Shape::Postfixed,
        Pattern::Group(_) => Shape::Chained,
        Pattern::Interleave(members) => shape_of_interleave(members),
        Pattern::Choice(members) => shape_of_choice(members),
        _ => Shape::Closed,
    }
}

pub(crate) fn shape_of_class(class: &NameClass) -> Shape
    ensures { (f : Prefixes) → shape_view result
        ≡ (written_name f (name_class_view class.now)).shape }
{
    match class {
        NameClass::AnyName(Some(_)) => Shape::Chained,
        NameClass::NsName(_, Some(_)) => Shape::Chained,
        NameClass::Choice(_) => Shape::Chained,
        _ => Shape::Closed,
    }
}
