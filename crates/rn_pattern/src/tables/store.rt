// The constructors of a store, written once for all ways in which nodes may lie.
ghost use Rattle.std.specs.Prelude.{◌≡◌, ◌+◌, ◌≤◌, IfOk, IfSome, IsTrue, List, OnErr, length};
ghost use Rattle.std.specs.Option.{option_map};
ghost use Rattle.std.specs.Rc.{rc_str_bytes};
ghost use Rattle.rn_pattern.specs.inside.Hashing.{tree_at-same};
ghost use Rattle.rn_pattern.specs.Matching.{MatchAlike};
ghost use Rattle.rn_pattern.specs.inside.Stored.{NamesBelow, knows, tree_at, trees_of_nodes};
ghost use Rattle.rn_pattern.specs.inside.Reduced.{IsReducedIn, reduced_tree};
ghost use Rattle.rn_pattern.specs.Store.{AddsAnswerOnly, AddsOnly, KeepsIds, StandsFor, datum_by, datum_step, node_view};
ghost use Rattle.rn_pattern.specs.inside.Count.{ids_counted};
ghost use Rattle.rn_pattern.specs.Tree.{Tree};
ghost use Rattle.rn_pattern.specs.View.{parameters_view};

use super::node_table::NodeTable;
use super::pattern_store::Patterns;
use crate::canonical::{self, Reduced};
use crate::node::{Node, NodeId};
use crate::small_string::SmallString;
use crate::tree::NameClass;
use std::alloc::{AllocError, Global};
use std::rc::RcStr;

/// Where the nodes of a store lie, and how one is added.
pub trait NodeStore {
    // The trees of the ids, in the order of the ids.
    ghost trees: { Self → List Tree };

    fn allocator(&self) -> Global;

    fn table(&self) -> NodeTable<'_>
        ensures { trees_of_nodes result.nodes.now ≡ trees self.now };

    /// The library as a text that the store shares. No id comes or goes.
    fn library(&mut self, library: &str) -> Result<RcStr, AllocError>
        ensures text { IfOk result (λ text. rc_str_bytes text ≡ library.now) }
        ensures kept { trees self.new ≡ trees self.old };

    /// The id of the node, which is added, or of an equal one. After an error the ids are what they
    /// were.
    fn add(&mut self, node: Node<NodeId>) -> Result<NodeId, AllocError>
        requires { NamesBelow (length (trees self.old)) node }
        ensures made { IfOk result (StandsFor (knows (trees self.new)) (tree_at (trees self.new))
            (node_view (tree_at (trees self.old)) node)) }
        ensures kept { KeepsIds knows tree_at (trees self.old) (trees self.new) }
        ensures adds { IfOk result (AddsOnly (knows (trees self.old)) (knows (trees self.new))) }
        ensures grows { length (trees self.new) ≤ length (trees self.old) + 1 }
        ensures refused { OnErr result (trees self.new ≡ trees self.old) };
}

/// The id of a pattern that is reduced: the one it has, or that of the node, which is added.
fn keep<S: NodeStore>(store: &mut S, pattern: Reduced) -> Result<NodeId, AllocError>
    requires { IsReducedIn (S.trees store.old) pattern }
    ensures made { IfOk result (StandsFor (knows (S.trees store.new)) (tree_at (S.trees store.new))
        (reduced_tree (S.trees store.old) pattern)) }
    ensures kept { KeepsIds knows tree_at (S.trees store.old) (S.trees store.new) }
    ensures adds { IfOk result (AddsOnly (knows (S.trees store.old)) (knows (S.trees store.new))) }
    ensures grows { length (S.trees store.new) ≤ length (S.trees store.old) + 1 }
    ensures refused { OnErr result (S.trees store.new ≡ S.trees store.old) }
{
    match pattern {
        Reduced::Stored(id) => Ok(id),
        Reduced::New(node) => store.add(node),
    }
}

impl<S: NodeStore> Patterns for S {
    type Id = NodeId;

    ghost knows = { λ s i. knows (S.trees s) i };

    ghost tree_of = { λ s i. tree_at (S.trees s) i };

    ghost size = { λ s. length (S.trees s) };

    fn node(&self, id: NodeId) -> &Node<NodeId> {
        self.table().get(id)
    }

    fn not_allowed(&mut self) -> Result<NodeId, AllocError> {
        self.add(Node::NotAllowed)
    }

    fn empty(&mut self) -> Result<NodeId, AllocError> {
        self.add(Node::Empty)
    }

    fn text(&mut self) -> Result<NodeId, AllocError> {
        self.add(Node::Text)
    }

    fn reference(&mut self, name: &str) -> Result<NodeId, AllocError> {
        let name = SmallString::from_str(self.allocator(), name)?;
        self.add(Node::Ref(name))
    }

    fn value(&mut self, library: &str, type_name: &str, text: &str) -> Result<NodeId, AllocError> {
        let library = self.library(library)?;
        let type_name = String::from_str(self.allocator(), type_name)?;
        let text = String::from_str(self.allocator(), text)?;
        self.add(Node::Value(library, type_name, text))
    }

    fn datum(
        &mut self,
        library: &str,
        type_name: &str,
        params: &[(String, String)],
        except: Option<NodeId>,
    ) -> Result<NodeId, AllocError>
        requires { IfSome except (λ i. IsTrue (knows (S.trees self.old) i)) }
        ensures made { IfOk result (StandsFor
            (knows (S.trees self.new)) (tree_at (S.trees self.new))
            (datum_step library.now type_name.now (parameters_view params.now)
            (option_map (tree_at (S.trees self.old)) except))) }
        ensures means { IfOk result (λ i. MatchAlike
            (datum_by library.now type_name.now (parameters_view params.now)
            (option_map (tree_at (S.trees self.old)) except))
            (tree_at (S.trees self.new) i)) }
        ensures kept { AddsAnswerOnly knows tree_at length
            (S.trees self.old) (S.trees self.new) result }
    {
        let library = self.library(library)?;
        let pattern = canonical::datum(
            &self.table(),
            self.allocator(),
            library,
            type_name,
            params,
            except,
        )?;
        keep(self, pattern)
    }

    fn list(&mut self, content: NodeId) -> Result<NodeId, AllocError> {
        let pattern = canonical::list(&self.table(), content);
        keep(self, pattern)
    }

    fn attribute(&mut self, nc: &NameClass, content: NodeId) -> Result<NodeId, AllocError> {
        let pattern = canonical::attribute(&self.table(), self.allocator(), nc, content)?;
        keep(self, pattern)
    }

    fn element(&mut self, nc: &NameClass, content: NodeId) -> Result<NodeId, AllocError> {
        let nc = nc.canonical(self.allocator())?;
        self.add(Node::Element(nc, content))
    }

    fn choice(&mut self, members: &[NodeId]) -> Result<NodeId, AllocError> {
        let pattern = canonical::choice(&self.table(), self.allocator(), members)?;
        keep(self, pattern)
    }

    fn group(&mut self, members: &[NodeId]) -> Result<NodeId, AllocError> {
        let pattern = canonical::group(&self.table(), self.allocator(), members)?;
        keep(self, pattern)
    }

    fn ileave(&mut self, members: &[NodeId]) -> Result<NodeId, AllocError> {
        let pattern = canonical::interleave(&self.table(), self.allocator(), members)?;
        keep(self, pattern)
    }

    fn one_or_more(&mut self, content: NodeId) -> Result<NodeId, AllocError> {
        let pattern = canonical::one_or_more(&self.table(), content);
        keep(self, pattern)
    }

    ghost counted = { λ s. ids_counted (S.trees s) };

    ghost same = { λ s i j h. tree_at-same (S.trees s) i j h };
}
