// Patterns and name classes whose names are resolved, and the boxes that their parts are in.
ghost use Rattle.std.specs.Prelude.{◌≡◌, IfOk};

use crate::small_string::SmallString;
use std::alloc::{AllocError, Global};
use std::rc::{Rc, RcStr};

/// A name class. Namespaces and local names are UTF-8. A namespace is shared by all names that are made of one binding,
/// so a long one is stored once.
#[derive(Drop)]
pub enum NameClass {
    /// Every name, without those of the except.
    AnyName(Option<Box<NameClass>>),
    /// Every name of a namespace, without those of the except.
    NsName(RcStr, Option<Box<NameClass>>),
    /// A namespace and a local name.
    Name(RcStr, SmallString),
    /// The names of each member, of which there are two or more.
    Choice(Vec<NameClass>),
}

/// A value of a datatype. All texts are UTF-8, and the library is shared like a namespace.
#[derive(Drop)]
pub struct Value {
    /// The URI of the datatype library; empty for the built-in one (6.2.9).
    pub library: RcStr,
    /// The datatype's name in the library.
    pub type_name: String,
    /// The string, before its datatype normalises it.
    pub text: String,
}

/// Data: the library of the datatype, its name there, and its parameters in their order, each a name and a text.
#[derive(Drop)]
pub struct Data {
    /// The URI of the datatype library; empty for the built-in one (6.2.9).
    pub library: RcStr,
    /// The datatype's name in the library.
    pub type_name: String,
    /// A name and a text each, as often and in the order in which they are written.
    pub params: Vec<(String, String)>,
}

/// What an element or an attribute is made of: its names, and the pattern of what stands in it.
#[derive(Drop)]
#[cycle(pattern)]
pub struct Named {
    /// The names that it may have.
    pub class: NameClass,
    /// The pattern of its content.
    pub content: Pattern,
}

/// A pattern. The members of a list are shared, since one body may stand in many lists. What is large is in a box,
/// since most patterns are references and lists.
#[derive(Drop)]
#[cycle(pattern)]
pub enum Pattern {
    /// Matches nothing.
    NotAllowed,
    /// No attribute and no content (6.2.3).
    Empty,
    /// Any strings (6.2.4).
    Text,
    /// The name of a definition.
    Ref(SmallString),
    /// A string that its datatype takes as equal to the value (6.2.8).
    Value(Box<Value>),
    /// Data, and what is excepted of it (6.2.8).
    Datum(Box<Data>, Option<Box<Pattern>>),
    /// The pattern of a string's words (6.2.10).
    List(Box<Pattern>),
    /// Its content is the pattern of the text (6.2.7).
    Attribute(Box<Named>),
    /// Its content is the pattern of the attributes and the children (6.2.7).
    Element(Box<Named>),
    /// One or more of the pattern (6.2.5).
    OneOrMore(Box<Pattern>),
    /// The members in their order (6.2.2).
    Group(Vec<Rc<Pattern>>),
    /// The members in any order, parts of one among those of others (6.2.6).
    Interleave(Vec<Rc<Pattern>>),
    /// One of the members (6.2.1).
    Choice(Vec<Rc<Pattern>>),
}

/// The value in its box. Like [`new_shared`] it is small and of any type, since a call that may give a pattern back is
/// costly to prove.
pub fn new_box<T: Drop>(alloc: Global, value: T) -> Result<Box<T>, AllocError>
    ensures { IfOk result (λ b. b.value ≡ value) }
{
    Ok(Box::new(alloc, value)?)
}

/// The value, to be shared.
pub fn new_shared<T: Drop>(alloc: Global, value: T) -> Result<Rc<T>, AllocError>
    ensures { IfOk result (λ r. r.value ≡ value) }
{
    Ok(Rc::new(alloc, value)?)
}
