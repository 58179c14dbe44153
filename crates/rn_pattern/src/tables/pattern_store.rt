// What a store of patterns does.
ghost use Rattle.std.specs.Prelude.{◌≡◌, ℕ, Bool, IfOk, IfSome, IsTrue, map};
ghost use Rattle.std.specs.Option.{option_map};
ghost use Rattle.rn_pattern.specs.Canonical.{attribute_step, canonical_name, choice_step, group_step, interleave_step, list_step, one_or_more_step};
ghost use Rattle.rn_pattern.specs.Matching.{MatchAlike};
ghost use Rattle.rn_pattern.specs.Nodes.{node_members};
ghost use Rattle.rn_pattern.specs.Store.{AddsAnswerOnly, HasCount, KnowsAll, StandsFor, datum_by, datum_step, node_view};
ghost use Rattle.rn_pattern.specs.Tree as tree;
ghost use Rattle.rn_pattern.specs.Tree.{Tree, trees_of};
ghost use Rattle.rn_pattern.specs.View.{name_class_view, parameters_view};

use crate::node::Node;
use crate::tree::NameClass;
use std::alloc::AllocError;

/// A store of canonical patterns, named by ids. Each constructor takes ids of this store and answers the id of the
/// canonical form of its node, which matches what the node matches, in every schema (RELAX NG 2001, 4.20, 4.21, 6.2).
/// Earlier ids keep their patterns. A refused call changes no id's pattern and leaves the
/// number of ids. No limit bounds how deep patterns nest. The constructors of [`Interned`](crate::Interned)
/// nest no call for each nested pattern; those of [`Plain`](crate::Plain) do, for members before the last of a list.
pub trait Patterns {
    type Id: Copy + Eq + Drop;

    // Whether the id is one of this store's.
    ghost knows: { Self → Self.Id → Bool };

    // The pattern that the id names.
    ghost tree_of: { Self → Self.Id → Tree };

    // How many ids the store has.
    ghost size: { Self → ℕ };

    /// The root of the id's pattern.
    fn node(&self, id: Self::Id) -> &Node<Self::Id>
        requires { IsTrue (knows self.now id) }
        ensures root { node_view (tree_of self.now) result.now ≡ tree_of self.now id }
        ensures within { KnowsAll (knows self.now) (node_members result.now) };

    /// The id of `notAllowed`, the pattern that matches nothing.
    fn not_allowed(&mut self) -> Result<Self::Id, AllocError>
        ensures made { IfOk result (StandsFor (knows self.new) (tree_of self.new)
            tree.not_allowed) }
        ensures kept { AddsAnswerOnly knows tree_of size self.old self.new result };

    /// The id of `empty`, the pattern of no attribute and no content (6.2.3).
    fn empty(&mut self) -> Result<Self::Id, AllocError>
        ensures made { IfOk result (StandsFor (knows self.new) (tree_of self.new) tree.empty) }
        ensures kept { AddsAnswerOnly knows tree_of size self.old self.new result };

    /// The id of `text`, the pattern of any strings (6.2.4).
    fn text(&mut self) -> Result<Self::Id, AllocError>
        ensures made { IfOk result (StandsFor (knows self.new) (tree_of self.new) tree.text) }
        ensures kept { AddsAnswerOnly knows tree_of size self.old self.new result };

    /// A reference to a definition. What the definition is worth is not looked at.
    fn reference(&mut self, name: &str) -> Result<Self::Id, AllocError>
        ensures made { IfOk result (StandsFor (knows self.new) (tree_of self.new)
            (tree.ref name.now)) }
        ensures kept { AddsAnswerOnly knows tree_of size self.old self.new result };

    /// A value of a datatype: its library, its type and the text.
    fn value(&mut self, library: &str, type_name: &str, text: &str) -> Result<Self::Id, AllocError>
        ensures made { IfOk result (StandsFor (knows self.new) (tree_of self.new)
            (tree.value library.now type_name.now text.now)) }
        ensures kept { AddsAnswerOnly knows tree_of size self.old self.new result };

    /// A datatype with its parameters in their order, and without an except that is `notAllowed`.
    fn datum(
        &mut self,
        library: &str,
        type_name: &str,
        params: &[(String, String)],
        except: Option<Self::Id>,
    ) -> Result<Self::Id, AllocError>
        requires { IfSome except (λ i. IsTrue (knows self.old i)) }
        ensures made { IfOk result (StandsFor (knows self.new) (tree_of self.new)
            (datum_step library.now type_name.now (parameters_view params.now)
            (option_map (tree_of self.old) except))) }
        ensures means { IfOk result (λ i. MatchAlike
            (datum_by library.now type_name.now (parameters_view params.now)
            (option_map (tree_of self.old) except)) (tree_of self.new i)) }
        ensures kept { AddsAnswerOnly knows tree_of size self.old self.new result };

    /// A list of that content; `notAllowed` where the content is (4.20).
    fn list(&mut self, content: Self::Id) -> Result<Self::Id, AllocError>
        requires { IsTrue (knows self.old content) }
        ensures made { IfOk result (StandsFor (knows self.new) (tree_of self.new)
            (list_step (tree_of self.old content))) }
        ensures means { IfOk result (λ i. MatchAlike
            (tree.list (tree_of self.old content)) (tree_of self.new i)) }
        ensures kept { AddsAnswerOnly knows tree_of size self.old self.new result };

    /// An attribute, its name class in canonical form; `notAllowed` where the content is (4.20).
    fn attribute(&mut self, nc: &NameClass, content: Self::Id) -> Result<Self::Id, AllocError>
        requires { IsTrue (knows self.old content) }
        ensures made { IfOk result (StandsFor (knows self.new) (tree_of self.new)
            (attribute_step (canonical_name (name_class_view nc.now)) (tree_of self.old content))) }
        ensures means { IfOk result (λ i. MatchAlike
            (tree.attribute (name_class_view nc.now) (tree_of self.old content))
            (tree_of self.new i)) }
        ensures kept { AddsAnswerOnly knows tree_of size self.old self.new result };

    /// An element, its name class in canonical form. Its content stays, `notAllowed` too.
    fn element(&mut self, nc: &NameClass, content: Self::Id) -> Result<Self::Id, AllocError>
        requires { IsTrue (knows self.old content) }
        ensures made { IfOk result (StandsFor (knows self.new) (tree_of self.new)
            (tree.element (canonical_name (name_class_view nc.now)) (tree_of self.old content))) }
        ensures means { IfOk result (λ i. MatchAlike
            (tree.element (name_class_view nc.now) (tree_of self.old content))
            (tree_of self.new i)) }
        ensures kept { AddsAnswerOnly knows tree_of size self.old self.new result };

    /// A choice: the members of choices among the members in their place, without `notAllowed`, in order, each pattern
    /// once. With no member left it is `notAllowed`; with one left it is that member.
    fn choice(&mut self, members: &[Self::Id]) -> Result<Self::Id, AllocError>
        requires { KnowsAll (knows self.old) members.now }
        ensures made { IfOk result (StandsFor (knows self.new) (tree_of self.new)
            (choice_step (map (tree_of self.old) members.now))) }
        ensures means { IfOk result (λ i. MatchAlike
            (tree.choice (trees_of (map (tree_of self.old) members.now))) (tree_of self.new i)) }
        ensures kept { AddsAnswerOnly knows tree_of size self.old self.new result };

    /// A group: the members of groups among the members in their place, without `empty`, the order kept; `notAllowed`
    /// where a member is (4.20, 4.21). With no member left it is `empty`; with one left it is that member.
    fn group(&mut self, members: &[Self::Id]) -> Result<Self::Id, AllocError>
        requires { KnowsAll (knows self.old) members.now }
        ensures made { IfOk result (StandsFor (knows self.new) (tree_of self.new)
            (group_step (map (tree_of self.old) members.now))) }
        ensures means { IfOk result (λ i. MatchAlike
            (tree.group (trees_of (map (tree_of self.old) members.now))) (tree_of self.new i)) }
        ensures kept { AddsAnswerOnly knows tree_of size self.old self.new result };

    /// An interleave: the members of interleaves among the members in their place, without `empty`, in order, repeats
    /// kept; `notAllowed` where a member is (4.20, 4.21). With no member left it is `empty`; with one left it is that
    /// member.
    fn ileave(&mut self, members: &[Self::Id]) -> Result<Self::Id, AllocError>
        requires { KnowsAll (knows self.old) members.now }
        ensures made { IfOk result (StandsFor (knows self.new) (tree_of self.new)
            (interleave_step (map (tree_of self.old) members.now))) }
        ensures means { IfOk result (λ i. MatchAlike
            (tree.interleave (trees_of (map (tree_of self.old) members.now)))
            (tree_of self.new i)) }
        ensures kept { AddsAnswerOnly knows tree_of size self.old self.new result };

    /// A repetition; `notAllowed`, `empty` and a repetition stay what they are.
    fn one_or_more(&mut self, content: Self::Id) -> Result<Self::Id, AllocError>
        requires { IsTrue (knows self.old content) }
        ensures made { IfOk result (StandsFor (knows self.new) (tree_of self.new)
            (one_or_more_step (tree_of self.old content))) }
        ensures means { IfOk result (λ i. MatchAlike
            (tree.one_or_more (tree_of self.old content)) (tree_of self.new i)) }
        ensures kept { AddsAnswerOnly knows tree_of size self.old self.new result };

    // The size is the number of the ids that the store knows.
    ghost counted: { (s : Self) → HasCount (knows s) (size s) };

    // Equal ids name equal patterns, in every store of the type.
    ghost same: { (s : Self) (i j : Self.Id) → IsTrue (Self.Id.eq i j) → tree_of s i ≡ tree_of s j };
}
