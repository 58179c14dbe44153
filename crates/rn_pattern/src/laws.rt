// Laws of canonical patterns: what they match, their shape and their order.
ghost use Rattle.std.specs.Prelude.{◌≡◌, ◌↔◌, ℕ, ◌+◌, length, List, IsPermutation, IsTrue};
ghost use Rattle.std.specs.List.Sorted.{IsStrictlySortedBy};
ghost use Rattle.std.specs.Cmp.{IsTotalOrder};
ghost use Rattle.std.specs.declared.cmp.Ordering.TheVariants.{Equal};
ghost use Rattle.rn_pattern.specs.Tree.{Parameters, NameTree, Tree, ref, datum_but, list, attribute, element, one_or_more, group, interleave, choice, trees_of};
ghost use Rattle.rn_text.specs.Texts.{Text};
ghost use Rattle.rn_pattern.specs.HeldNames.{HoldAlike};
ghost use Rattle.rn_pattern.specs.Matching.{Grammar, MatchAlike, ValidAlike};
ghost use Rattle.rn_pattern.specs.Order.{name_cmp, tree_cmp};
ghost use Rattle.rn_pattern.specs.Canonical.{sorted, sorted_once, canonical_name, choice_step, group_step, interleave_step, one_or_more_step, list_step, attribute_step, datum_but_step, canonical, settled_in, settled_within, canonical_within, HaveSameMembers};
ghost use Rattle.rn_pattern.specs.CanonicalShape.{IsAscending, IsCanonicalName, IsCanonicalPattern, MakesCanonical, KeepsCanonical};
ghost use Rattle.rn_pattern.specs.Excepts.{DefinesExcepts, HasExcepts};
ghost use Rattle.rn_pattern.specs.Opened.{opened, opened_grammar};
ghost use Rattle.rn_pattern.specs.Pairing.{PairedUp};
ghost use Rattle.rn_pattern.specs.Reached.{IsCanonicalOf, formed};
ghost use Rattle.rn_pattern.specs.Replaced.{replaced_grammar};
ghost use Rattle.rn_pattern.specs.Built.{StaysCanonical};
ghost use Rattle.rn_pattern.specs.Store.{AddsOnly, KeepsIds, StandsFor};

use crate::node::NodeId;
use crate::tables::interned::Interned;
use crate::tables::pattern_store::Patterns;
use crate::tables::plain::Plain;

/// Each canonical step gives a pattern that matches exactly what the node over its parts matches, in every grammar, for
/// every table of datatypes, at every depth of references (RELAX NG 2001, 4.20, 4.21 and 6.2).
pub fn canonical_steps_keep_matching()
    ensures of_choice { (ps : List Tree) → MatchAlike (choice (trees_of ps)) (choice_step ps) }
    ensures of_group { (ps : List Tree) → MatchAlike (group (trees_of ps)) (group_step ps) }
    ensures of_interleave { (ps : List Tree)
        → MatchAlike (interleave (trees_of ps)) (interleave_step ps) }
    ensures of_one_or_more { (p : Tree) → MatchAlike (one_or_more p) (one_or_more_step p) }
    ensures of_list { (p : Tree) → MatchAlike (list p) (list_step p) }
    ensures of_data { (library type : Text) (params : Parameters) (p : Tree)
        → MatchAlike (datum_but library type params p) (datum_but_step library type params p) }
    ensures of_attribute { (c : NameTree) (p : Tree)
        → MatchAlike (attribute c p) (attribute_step (canonical_name c) p) }
    ensures of_element { (c : NameTree) (p : Tree)
        → MatchAlike (element c p) (element (canonical_name c) p) }
{}

/// The members of a choice or an interleave, put together two by two in any pairs and any order, match what the list of
/// them matches; so do those of a group, in their order (sections 4.12 and 4.17).
pub fn pairs_match_lists()
    ensures of_choice { (ps qs : List Tree) (p : Tree) → IsPermutation ps qs
        → PairedUp choice ps p → MatchAlike p (choice (trees_of qs)) }
    ensures of_interleave { (ps qs : List Tree) (p : Tree) → IsPermutation ps qs
        → PairedUp interleave ps p → MatchAlike p (interleave (trees_of qs)) }
    ensures of_group { (ps : List Tree) (p : Tree)
        → PairedUp group ps p → MatchAlike p (group (trees_of ps)) }
{}

/// The canonical form of a name class holds the same names (section 6.1).
pub fn canonical_name_classes_keep_names()
    ensures { (c : NameTree) → HoldAlike c (canonical_name c) }
{}

/// The canonical form has the shape of a canonical pattern, where what references become has it; that of a name class
/// has the shape of a canonical name class.
pub fn canonical_forms_are_canonical()
    ensures patterns { (settled : Text → Tree) → ((x : Text) → IsCanonicalPattern (settled x))
        → (p : Tree) → IsCanonicalPattern (canonical settled p) }
    ensures within_grammars { (k : ℕ) (G : Grammar) (p : Tree)
        → IsCanonicalPattern (canonical_within k G p) }
    ensures name_classes { (c : NameTree) → IsCanonicalName (canonical_name c) }
{}

/// Each canonical step makes a canonical pattern of canonical parts (sections 4.20 and 4.21).
pub fn canonical_steps_are_canonical()
    ensures of_choice { MakesCanonical choice_step }
    ensures of_group { MakesCanonical group_step }
    ensures of_interleave { MakesCanonical interleave_step }
    ensures of_one_or_more { KeepsCanonical one_or_more_step }
    ensures of_list { KeepsCanonical list_step }
    ensures of_data { (library type : Text) (params : Parameters)
        → KeepsCanonical (datum_but_step library type params) }
    ensures of_attribute { (c : NameTree) → KeepsCanonical (attribute_step (canonical_name c)) }
    ensures of_element { (c : NameTree) → KeepsCanonical (element (canonical_name c)) }
{}

/// What is sorted has the same members, each as often, in order; what is sorted without repeats has the same members,
/// each once, in order.
pub fn sorted_lists_keep_their_members()
    ensures as_often { (ps : List Tree) → IsPermutation ps (sorted tree_cmp ps) }
    ensures in_order { (ps : List Tree) → IsAscending tree_cmp (sorted tree_cmp ps) }
    ensures the_same { (ps : List Tree) → HaveSameMembers (sorted_once tree_cmp ps) ps }
    ensures each_once { (ps : List Tree) → IsStrictlySortedBy tree_cmp (sorted_once tree_cmp ps) }
    ensures the_same_names { (cs : List NameTree) → HaveSameMembers (sorted_once name_cmp cs) cs }
    ensures each_name_once { (cs : List NameTree)
        → IsStrictlySortedBy name_cmp (sorted_once name_cmp cs) }
{}

/// The ids of a store name canonical patterns alone: so it begins, and so each constructor leaves it, whether it
/// answers or is refused memory. `IsMade` has what each constructor makes of ids that the store knows.
pub fn stores_stay_canonical()
    ensures interned { let ids = ⟦<Interned as Patterns>⟧ in
        StaysCanonical ids.knows ids.tree_of ids.size }
    ensures plain { let ids = ⟦<Plain as Patterns>⟧ in
        StaysCanonical ids.knows ids.tree_of ids.size }
{}

/// A canonical pattern is its own canonical form, so that a second time changes nothing; and it is the canonical form
/// of the pattern that it is read back as. So with name classes.
pub fn canonical_forms_stay()
    ensures patterns { (p : Tree) → IsCanonicalPattern p → canonical ref p ≡ p }
    ensures twice { (k : ℕ) (G : Grammar) (p : Tree)
        → canonical ref (canonical_within k G p) ≡ canonical_within k G p }
    ensures opened_patterns { (p : Tree) → IsCanonicalPattern p → canonical ref (opened p) ≡ p }
    ensures name_classes { (c : NameTree) → canonical_name (canonical_name c) ≡ canonical_name c }
{}

/// The orders of patterns and of name classes are total, and tell apart all that differs.
pub fn orders_are_total()
    ensures patterns { IsTotalOrder tree_cmp }
    ensures equal_patterns { (p q : Tree) → (tree_cmp p q ≡ Equal) ↔ (p ≡ q) }
    ensures name_classes { IsTotalOrder name_cmp }
    ensures equal_name_classes { (c d : NameTree) → (name_cmp c d ≡ Equal) ↔ (c ≡ d) }
{}

/// A pattern with its optional and mixed parts opened matches exactly what it did (sections 4.13 to 4.15), and a
/// grammar with its patterns opened is valid for the same documents.
pub fn opened_patterns_keep_matching()
    ensures patterns { (p : Tree) → MatchAlike p (opened p) }
    ensures grammars { (G : Grammar) → ValidAlike G (opened_grammar G) }
{}

/// A grammar with each pattern in its canonical form, looking through any number of references, is valid for the same
/// documents; so is its canonical grammar, which has the definitions that are reached from the start alone. Premise: an
/// except of a datatype holds data, values and choices of them alone (section 7.1.4).
pub fn canonical_patterns_keep_validity()
    ensures grammars { (G N : Grammar) → IsCanonicalOf G N → HasExcepts G.start → DefinesExcepts G
        → ValidAlike G N }
    ensures patterns { (k : ℕ) (G : Grammar) → HasExcepts G.start → DefinesExcepts G
        → ValidAlike G (formed (settled_within k G) G) }
{}

/// A grammar in which notAllowed or empty replaces each reference whose definition is worth that, looking through any
/// number of references, and nothing else is changed, is valid for the same documents (sections 4.19 to 4.21). Premise:
/// an except of a datatype holds data, values and choices of them alone (7.1.4).
pub fn settled_references_keep_validity()
    ensures { (k : ℕ) (G : Grammar) → HasExcepts G.start → DefinesExcepts G
        → ValidAlike G (replaced_grammar (settled_within k G) G) }
{}

/// Looking through as many references as there are definitions settles each name that any number would settle, loops
/// or not.
pub fn settling_ends()
    ensures { (G : Grammar) (k : ℕ) (x : Text)
        → settled_within (length G.definitions + k) G x ≡ settled_in G x }
{}

/// In an [`Interned`] store ids are equal exactly if their patterns are.
pub fn interned_ids_are_patterns()
    ensures { (s : Interned) (i j : NodeId) → let ids = ⟦<Interned as Patterns>⟧ in
        IsTrue (ids.knows s i) → IsTrue (ids.knows s j)
        → (i ≡ j) ↔ (ids.tree_of s i ≡ ids.tree_of s j) }
{}

/// A call that keeps an [`Interned`] store's ids and adds none but the one that it answers, as each constructor does,
/// answers the id that the pattern had before, if it had one, and then the number of ids stays.
pub fn interned_patterns_are_shared()
    ensures { (old new : Interned) (t : Tree) (i answered : NodeId) →
        let ids = ⟦<Interned as Patterns>⟧ in
        KeepsIds ids.knows ids.tree_of old new → AddsOnly (ids.knows old) (ids.knows new) answered
        → StandsFor (ids.knows old) (ids.tree_of old) t i
        → StandsFor (ids.knows new) (ids.tree_of new) t answered
        → (answered ≡ i) × (ids.size new ≡ ids.size old) }
{}
