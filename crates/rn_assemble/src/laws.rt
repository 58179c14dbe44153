// Laws of components, of what is combined of them, and of refusals.
ghost use Rattle.std.specs.Prelude.{◌≡◌, ◌↔◌, ◌≤◌, ◌+◌, ℕ, List, [], IfSome, true};
ghost use Rattle.std.specs.List.{AllByRecursion};
ghost use Rattle.rn_text.specs.Texts.{Text};
ghost use Rattle.rn_pattern.specs.Document.{Item};
ghost use Rattle.rn_pattern.specs.Datatype.{Table};
ghost use Rattle.rn_pattern.specs.Excepts.{HasExcepts};
ghost use Rattle.rn_pattern.specs.Matching.{Grammar, definition_of, IsValid};
ghost use Rattle.rn_modset.specs.Contributions.{Member};
ghost use Rattle.rn_syntax.specs.Places.{except_places};
ghost use Rattle.rn_assemble.specs.Components.{Key, Component, NamedModule, components_within, has_key, instances_within, set_components, start_key};
ghost use Rattle.rn_assemble.specs.Combine.{IsCombination, IsPlainTwice, IsMixed, joined_grammar, components_of, AreDistinct};
ghost use Rattle.rn_assemble.specs.WellFormed.{IsWellFormed, HasWritableTexts};
ghost use Rattle.rn_assemble.specs.Renamed.{IsRenaming};
ghost use Rattle.rn_assemble.specs.ShortTexts.{IsKnown, IsTable, ShortTexts, long_uri};
ghost use Rattle.rn_assemble.specs.Refusal.{Refusal, Stands, IsFirst, IsFirstFor, IsAssembled, AreModules, grammar_of};

/// Components may be combined in any pairs and in any order: each combination is valid for exactly the documents of the
/// grammar in which each name's components are joined in one list, for every table of datatypes (RELAX NG 2001,
/// 4.17 and 6).
pub fn combinations_are_valid_alike()
    ensures { (cs : List Component) (C : Grammar) → IsCombination cs C → (T : Table) (doc : Item)
        → IsValid C T doc ↔ IsValid (joined_grammar cs) T doc }
{}

/// Components with a start have a combination.
pub fn components_have_a_combination()
    ensures { (cs : List Component) → has_key start_key cs ≡ true
        → (C : Grammar) × IsCombination cs C }
{}

/// The components of modules in which no except is at fault have excepts of data, values and choices of them alone, and
/// so has each definition of the joined grammar (RELAX NG 2001, 7.1.4).
pub fn components_keep_excepts()
    ensures components { (modules : List NamedModule)
        → AllByRecursion (λ (m : NamedModule). except_places m.tree ≡ []) modules
        → AllByRecursion (λ (c : Component). HasExcepts c.body) (set_components modules) }
    ensures start { (cs : List Component) → AllByRecursion (λ (c : Component). HasExcepts c.body) cs
        → HasExcepts (joined_grammar cs).start }
    ensures definitions { (cs : List Component)
        → AllByRecursion (λ (c : Component). HasExcepts c.body) cs → (x : Text)
        → IfSome (definition_of (joined_grammar cs) x) HasExcepts }
{}

/// A grammar of distinct names, as one plain component for each key, is joined to itself; no key of these components
/// has two plain ones, or both methods (RELAX NG 2001, 4.17).
pub fn plain_components_are_joined()
    ensures joined { (G : Grammar) → AreDistinct G.definitions
        → joined_grammar (components_of G) ≡ G }
    ensures plain_once { (G : Grammar) → AreDistinct G.definitions → (k : Key)
        → ¬ IsPlainTwice k (components_of G) }
    ensures one_method { (G : Grammar) → AreDistinct G.definitions → (k : Key)
        → ¬ IsMixed k (components_of G) }
{}

/// Includes followed as deep as a module has instances, or deeper, give the same instances and the same components
/// (RELAX NG 2001, 4.7).
pub fn includes_end()
    ensures same_instances { (modules : List NamedModule) (more depth : ℕ) (x : Text)
        → instances_within depth modules x ≤ depth
        → instances_within (depth + more) modules x ≡ instances_within depth modules x }
    ensures same_components { (modules : List NamedModule) (more depth : ℕ) (x inherited : Text)
        → instances_within depth modules x ≤ depth
        → components_within (depth + more) modules x inherited
        ≡ components_within depth modules x inherited }
{}

/// A set has one first refusal at most, with all its fields, and one grammar at most; so have its modules.
pub fn one_first_refusal()
    ensures of_modules { (modules : List NamedModule) (q r : Refusal) → IsFirstFor modules q
        → IsFirstFor modules r → q ≡ r }
    ensures of_sets { (s : List Member) (q r : Refusal) → IsFirst s q → IsFirst s r → q ≡ r }
    ensures one_grammar { (s : List Member) (g h : Grammar) → IsAssembled s g → IsAssembled s h
        → g ≡ h }
{}

/// The grammar of a set keeps what the refusals exclude. Its names and texts can be written again: the modules' texts
/// are of XML characters, their names are names, and no datatype or except in them is at fault (RELAX NG 2001, 7.1.4;
/// XML 1.0, section 2.2). Where no refusal stands, every reference is defined, no loop is reached, and name classes
/// keep their restrictions (RELAX NG 2001, 4.16, 4.18 and 4.19).
pub fn grammars_of_sets_are_well_formed()
    ensures writable { (s : List Member) (modules : List NamedModule) → AreModules s modules
        → HasWritableTexts (grammar_of modules) }
    ensures well_formed { (s : List Member) (modules : List NamedModule) → AreModules s modules
        → ((r : Refusal) → ¬ Stands s r) → IsWellFormed (grammar_of modules) }
{}

/// A table of short texts is a renaming: known texts are in the order of their URIs, and URIs that mean something by
/// themselves keep their texts.
pub fn tables_rename()
    ensures { (es : ShortTexts) → IsTable es → IsRenaming (long_uri es) (IsKnown es) }
{}
