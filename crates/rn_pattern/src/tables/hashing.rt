// Nodes as keys: when two are equal, and their hash; and hashes that depend on a seed.
ghost use Rattle.std.specs.Prelude.{◌≡◌, fold};
ghost use Rattle.rn_pattern.specs.inside.Hashing.{name_writes, names_writes, node_eq, node_writes, parameters_writes, places_writes};
ghost use Rattle.rn_pattern.specs.View.{name_class_view, parameters_view};
ghost use Rattle.rn_pattern.specs.inside.PartViews.{name_classes_view};
ghost use Rattle.rn_pattern.specs.inside.Hashing.{node_eq_equiv, node_eq_writes};
ghost use Rattle.std.specs.Cmp.{partial_equiv_from_equiv};
ghost use Rattle.std.specs.Hash.DefaultHasher as sip;

use crate::heads::compare_heads;
use crate::node::{Node, NodeId};
use crate::node_parts::{parts_of, rank};
use crate::tree::NameClass;
use std::cmp::Ordering;
use std::hash::{BuildHasher, DefaultHasher, Hash, Hasher};

impl PartialEq for Node<NodeId> {
    ghost eq = { node_eq };

    ghost laws = { partial_equiv_from_equiv node_eq_equiv };

    fn eq(&self, other: &Node<NodeId>) -> bool {
        let x = parts_of(self);
        let y = parts_of(other);
        match compare_heads(x.heads, y.heads) {
            Ordering::Equal => x.members == y.members,
            _ => false,
        }
    }
}

impl Eq for Node<NodeId> {
    ghost laws = { node_eq_equiv };
}

impl Hash for Node<NodeId> {
    ghost hash_input = { node_writes };

    ghost respects_eq = { node_eq_writes };

    fn hash<H: Hasher>(&self, state: &mut H) {
        state.write_u8(rank(self));
        match self {
            Node::NotAllowed | Node::Empty | Node::Text => {}
            Node::Ref(name) => name.as_str().hash(state),
            Node::Value(library, type_name, text) => {
                library.hash(state);
                type_name.hash(state);
                text.hash(state);
            }
            Node::Datum(library, type_name, parameters, except) => {
                library.hash(state);
                type_name.hash(state);
                hash_parameters(parameters, state);
                hash_places(except.as_slice(), state);
            }
            Node::List(content) | Node::OneOrMore(content) => state.write_usize(content.0),
            Node::Attribute(class, content) | Node::Element(class, content) => {
                hash_name_class(class, state);
                state.write_usize(content.0);
            }
            Node::Group(members) | Node::Interleave(members) | Node::Choice(members) => {
                hash_places(members, state);
            }
        }
    }
}

/// Hashes the names and the texts of the parameters, in turn.
fn hash_parameters<H: Hasher>(parameters: &[(String, String)], state: &mut H)
    ensures { state.new
        ≡ fold H.write state.old (parameters_writes (parameters_view parameters.now)) }
{
    for (name, value) in parameters {
        name.hash(state);
        value.hash(state);
    }
}

/// Hashes the places of the ids, in turn.
fn hash_places<H: Hasher>(ids: &[NodeId], state: &mut H)
    ensures { state.new ≡ fold H.write state.old (places_writes ids.now) }
{
    for id in ids {
        state.write_usize(id.0);
    }
}

/// Hashes a number for the kind of the name class, then the parts of the name class.
#[cycle(hash_names)]
fn hash_name_class<H: Hasher>(class: &NameClass, state: &mut H)
    ensures { state.new ≡ fold H.write state.old (name_writes (name_class_view class.now)) }
{
    match class {
        NameClass::AnyName(None) => state.write_u8(0),
        NameClass::AnyName(Some(except)) => {
            state.write_u8(1);
            hash_name_class(except, state);
        }
        NameClass::NsName(uri, None) => {
            state.write_u8(2);
            uri.hash(state);
        }
        NameClass::NsName(uri, Some(except)) => {
            state.write_u8(3);
            uri.hash(state);
            hash_name_class(except, state);
        }
        NameClass::Name(uri, local) => {
            state.write_u8(4);
            uri.hash(state);
            local.as_str().hash(state);
        }
        NameClass::Choice(members) => {
            state.write_u8(5);
            hash_name_classes(members, state);
        }
    }
}

/// Hashes the name classes, in turn.
#[cycle(hash_names)]
fn hash_name_classes<H: Hasher>(classes: &[NameClass], state: &mut H)
    ensures { state.new ≡ fold H.write state.old (names_writes (name_classes_view classes.now)) }
{
    for class in classes {
        hash_name_class(class, state);
    }
}

/// Makes the hashers of a map: SipHash-1-3 behind the bytes of a seed. Who writes the keys of a map can make them fall
/// into one bucket if the seed is known to them before; so the seed is a digest of all that they wrote.
#[derive(Clone, Copy)]
pub struct Seed {
    hasher: DefaultHasher,
}

impl Seed {
    /// The seed of these bytes.
    pub fn of(bytes: &[u8]) -> Seed
        ensures { ⟦<Seed as BuildHasher>⟧.build_hasher result ≡ sip.write sip.initial bytes.now }
    {
        let mut hasher = DefaultHasher::new();
        hasher.write(bytes);
        Seed { hasher }
    }
}

impl BuildHasher for Seed {
    type Hasher = DefaultHasher;

    ghost build_hasher = { λ s. s.hasher };

    fn build_hasher(&self) -> DefaultHasher {
        self.hasher
    }
}
