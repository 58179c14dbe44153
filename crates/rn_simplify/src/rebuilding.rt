// From an id of a store back to its pattern.
ghost use Rattle.std.specs.Prelude.{◌≡◌, IfOk, IfSome, IsSome, IsTrue, Some, map, string_bytes};
ghost use Rattle.std.specs.Option.{option_map};
ghost use Rattle.std.specs.Rc.{rc_str_bytes};
ghost use Rattle.rn_pattern.specs.Nodes.{node_members};
ghost use Rattle.rn_pattern.specs.Store.{node_view, KnowsAll};
ghost use Rattle.rn_pattern.specs.Tree.{Tree, value};
ghost use Rattle.rn_pattern.specs.View.{excepted_view, name_class_view, named_view, parameters_view, pattern_view, shared_view};
ghost use Rattle.rn_simplify.specs.inside.NodeKinds.{datum_over, except_trees, has_members, is_leaf, node_content};

use rn_pattern::{Data, NameClass, Named, Node, Pattern, Patterns, Value, new_box, new_shared};
use std::alloc::{AllocError, Global};
use std::rc::{Rc, RcStr};

/// The pattern of an id.
#[cycle(rebuild)]
pub(crate) fn rebuild<P: Patterns>(
    alloc: Global,
    store: &P,
    id: P::Id,
) -> Result<Pattern, AllocError>
    requires { IsTrue (P.knows store.now id) }
    ensures { IfOk result (λ p. pattern_view p ≡ P.tree_of store.now id) }
{
    let node = store.node(id);
    match node {
        Node::NotAllowed | Node::Empty | Node::Text | Node::Ref(_) | Node::Value(_, _, _) => {
            leaf_pattern(alloc, node)
        }
        Node::Datum(library, type_name, params, except) => {
            let except = rebuild_except(alloc, store, *except)?;
            datum_pattern(alloc, library, type_name, params, except)
        }
        Node::List(content)
        | Node::Attribute(_, content)
        | Node::Element(_, content)
        | Node::OneOrMore(content) => {
            let content = rebuild(alloc, store, *content)?;
            pattern_over_content(alloc, node, content)
        }
        Node::Group(members) | Node::Interleave(members) | Node::Choice(members) => {
            let members = rebuild_members(alloc, store, members)?;
            Ok(pattern_over_members(node, members))
        }
    }
}

/// The pattern of a node that names no other.
fn leaf_pattern<Id>(alloc: Global, node: &Node<Id>) -> Result<Pattern, AllocError>
    requires { IsTrue (is_leaf node.now) }
    ensures { (at : Id → Tree) → IfOk result (λ p. pattern_view p ≡ node_view at node.now) }
{
    match node {
        Node::NotAllowed => Ok(Pattern::NotAllowed),
        Node::Empty => Ok(Pattern::Empty),
        Node::Text => Ok(Pattern::Text),
        Node::Ref(name) => Ok(Pattern::Ref(name.try_clone()?)),
        Node::Value(library, type_name, text) => value_pattern(alloc, library, type_name, text),
        _ => unreachable!(),
    }
}

fn value_pattern(
    alloc: Global,
    library: &RcStr,
    type_name: &String,
    text: &String,
) -> Result<Pattern, AllocError>
    ensures { IfOk result (λ p. pattern_view p ≡ value (rc_str_bytes library.now)
        (string_bytes type_name.now) (string_bytes text.now)) }
{
    let value = Value {
        library: library.clone()?,
        type_name: type_name.clone()?,
        text: text.clone()?,
    };
    Ok(Pattern::Value(new_box(alloc, value)?))
}

fn datum_pattern(
    alloc: Global,
    library: &RcStr,
    type_name: &String,
    params: &[(String, String)],
    except: Option<Box<Pattern>>,
) -> Result<Pattern, AllocError>
    ensures { IfOk result (λ p. pattern_view p
        ≡ datum_over (rc_str_bytes library.now) (string_bytes type_name.now)
        (parameters_view params.now) (excepted_view except)) }
{
    let data = Data {
        library: library.clone()?,
        type_name: type_name.clone()?,
        params: params.to_vec(alloc)?,
    };
    Ok(Pattern::Datum(new_box(alloc, data)?, except))
}

/// The pattern of a node with a content, over the content's pattern.
fn pattern_over_content<Id>(
    alloc: Global,
    node: &Node<Id>,
    content: Pattern,
) -> Result<Pattern, AllocError>
    requires { IsSome (node_content node.now) }
    ensures { (at : Id → Tree) → option_map at (node_content node.now)
        ≡ Some (pattern_view content)
        → IfOk result (λ p. pattern_view p ≡ node_view at node.now) }
{
    match node {
        Node::List(_) => Ok(Pattern::List(new_box(alloc, content)?)),
        Node::Attribute(class, _) => Ok(Pattern::Attribute(boxed_named(alloc, class, content)?)),
        Node::Element(class, _) => Ok(Pattern::Element(boxed_named(alloc, class, content)?)),
        Node::OneOrMore(_) => Ok(Pattern::OneOrMore(new_box(alloc, content)?)),
        _ => unreachable!(),
    }
}

/// A copy of the name class with the content, in a box.
fn boxed_named(alloc: Global, class: &NameClass, content: Pattern) -> Result<Box<Named>, AllocError>
    ensures { IfOk result (λ n. named_view n.value
        ≡ (name_class_view class.now, pattern_view content)) }
{
    let class = class.try_clone(alloc)?;
    new_box(alloc, Named { class, content })
}

/// The pattern of a node with a list of members, over the members' patterns.
fn pattern_over_members<Id>(node: &Node<Id>, members: Vec<Rc<Pattern>>) -> Pattern
    requires { IsTrue (has_members node.now) }
    ensures { (at : Id → Tree) → map at (node_members node.now) ≡ map shared_view members.items
        → pattern_view result ≡ node_view at node.now }
{
    match node {
        Node::Group(_) => Pattern::Group(members),
        Node::Interleave(_) => Pattern::Interleave(members),
        Node::Choice(_) => Pattern::Choice(members),
        _ => unreachable!(),
    }
}

/// The pattern of an id, in its box.
#[cycle(rebuild)]
fn rebuild_box<P: Patterns>(alloc: Global, store: &P, id: P::Id) -> Result<Box<Pattern>, AllocError>
    requires { IsTrue (P.knows store.now id) }
    ensures { IfOk result (λ p. pattern_view p.value ≡ P.tree_of store.now id) }
{
    new_box(alloc, rebuild(alloc, store, id)?)
}

/// The pattern of an id, to be shared.
#[cycle(rebuild)]
fn rebuild_shared<P: Patterns>(
    alloc: Global,
    store: &P,
    id: P::Id,
) -> Result<Rc<Pattern>, AllocError>
    requires { IsTrue (P.knows store.now id) }
    ensures { IfOk result (λ p. shared_view p ≡ P.tree_of store.now id) }
{
    new_shared(alloc, rebuild(alloc, store, id)?)
}

#[cycle(rebuild)]
fn rebuild_except<P: Patterns>(
    alloc: Global,
    store: &P,
    except: Option<P::Id>,
) -> Result<Option<Box<Pattern>>, AllocError>
    requires { IfSome except (λ i. IsTrue (P.knows store.now i)) }
    ensures { IfOk result (λ o. excepted_view o ≡ except_trees (P.tree_of store.now) except) }
{
    match except {
        None => Ok(None),
        Some(id) => Ok(Some(rebuild_box(alloc, store, id)?)),
    }
}

/// The patterns of the ids. Neighbours with one id share one pattern.
#[cycle(rebuild)]
fn rebuild_members<P: Patterns>(
    alloc: Global,
    store: &P,
    ids: &[P::Id],
) -> Result<Vec<Rc<Pattern>>, AllocError>
    requires { KnowsAll (P.knows store.now) ids.now }
    ensures { IfOk result (λ v. map shared_view v.items ≡ map (P.tree_of store.now) ids.now) }
{
    let mut members: Vec<Rc<Pattern>> = Vec::with_capacity(alloc, ids.len())?;
    for (i, id) in ids.iter().enumerate() {
        let member = if i > 0 && *id == ids[i - 1] {
            members[i - 1].clone()?
        } else {
            rebuild_shared(alloc, store, *id)?
        };
        members.push(member)?;
    }
    Ok(members)
}
