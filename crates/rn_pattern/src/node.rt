// Nodes of a store, and the ids that name them.
use crate::small_string::SmallString;
use crate::tree::NameClass;
use std::rc::RcStr;

/// The id of a pattern in a store: the place of the pattern's node, counted from 0. It says nothing of another store.
#[derive(Clone, Copy, PartialEq, Eq, PartialOrd, Ord, Hash, Drop)]
pub struct NodeId(pub(crate) usize);

/// A node of a store: a pattern with ids for the patterns in it.
#[derive(Drop)]
pub enum Node<Id> {
    /// Matches nothing.
    NotAllowed,
    /// No attribute and no content.
    Empty,
    /// Any strings.
    Text,
    /// The name of a definition.
    Ref(SmallString),
    /// The datatype library, the type and the text. The library is shared by all nodes of a store.
    Value(RcStr, String, String),
    /// The datatype library, the type, its parameters and what is excepted. The library is shared by all nodes of a
    /// store.
    Datum(RcStr, String, Vec<(String, String)>, Option<Id>),
    /// The pattern of a string's words.
    List(Id),
    /// The names, and the pattern of the text.
    Attribute(NameClass, Id),
    /// The names, and the pattern of the attributes and the content.
    Element(NameClass, Id),
    /// One or more of the pattern.
    OneOrMore(Id),
    /// The members in their order.
    Group(Vec<Id>),
    /// The members in any order, parts of one among those of others.
    Interleave(Vec<Id>),
    /// One of the members.
    Choice(Vec<Id>),
}
