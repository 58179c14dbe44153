// Laws of canonical grammars and of their texts.
ghost use Rattle.std.specs.Prelude.{◌≡◌, ◌↔◌, ◌≤◌, ℕ, length, List, [], ◌∷◌, Contains, IfSome};
ghost use Rattle.std.specs.List.{AllByRecursion};
ghost use Rattle.rn_pattern.specs.Tree.{Tree};
ghost use Rattle.rn_text.specs.Texts.{Text};
ghost use Rattle.rn_pattern.specs.Document.{Item};
ghost use Rattle.rn_pattern.specs.Datatype.{Table};
ghost use Rattle.rn_pattern.specs.Excepts.{HasExcepts};
ghost use Rattle.rn_pattern.specs.Matching.{Grammar, definition_of, IsValid};
ghost use Rattle.rn_pattern.specs.Opened.{opened_grammar};
ghost use Rattle.rn_pattern.specs.Reached.{formed, all_canonical, IsPruned, IsCanonicalOf};
ghost use Rattle.rn_modset.specs.Contributions.{Member};
ghost use Rattle.rn_modset.specs.Modules.{AreEffective};
ghost use Rattle.rn_syntax.specs.Places.{except_places};
ghost use Rattle.rn_assemble.specs.Components.{Component, NamedModule, set_components};
ghost use Rattle.rn_assemble.specs.Combine.{IsCombination, joined_grammar, module_grammar};
ghost use Rattle.rn_assemble.specs.Renamed.{IsOfKnownUris, IsRenaming, renamed_grammar};
ghost use Rattle.rn_assemble.specs.WellFormed.{IsWellFormed, HasWritableTexts};
ghost use Rattle.rn_assemble.specs.Refusal.{Refusal, StandsFor};
ghost use Rattle.rn_modset.specs.Limits.{max_text};
ghost use Rattle.rn_simplify.specs.ReadBack.{IsReadBack};
ghost use Rattle.rn_simplify.specs.Settling.{IsSettling};
ghost use Rattle.rn_simplify.specs.Spellable.{IsSpellable};
ghost use Rattle.rn_simplify.specs.Spelling.{spelling};
ghost use Rattle.rn_simplify.specs.Verdict.{Verdict, prints, IsVerdict};
ghost use Rattle.rn_simplify.specs.ReadAgain.{IsReadAgain};

/// The text of a grammar is read back as the grammar, opened.
pub fn spelling_reads_back()
    ensures { (n : Grammar) → IsSpellable n → IsReadBack n }
{}

/// A grammar whose names and texts can be written, and whose datatypes may be there, has such a canonical grammar. If
/// the text of that is no longer than a module's may be, it is read back as the canonical grammar, opened.
pub fn canonical_texts_are_read_back()
    ensures writable { (G N : Grammar) → IsCanonicalOf G N → HasWritableTexts G
        → HasWritableTexts N }
    ensures spellable { (G N : Grammar) → IsCanonicalOf G N → HasWritableTexts G
        → length (spelling N) ≤ max_text → IsSpellable N }
    ensures read_back { (G N : Grammar) → IsCanonicalOf G N → HasWritableTexts G
        → length (spelling N) ≤ max_text → IsReadBack N }
{}

/// The canonical grammar of a grammar is valid for exactly its documents, for every table of datatypes (RELAX NG 2001,
/// 4.18 to 4.21 and 6). Dropping what no reference reaches needs no premise; the canonical form of the patterns needs
/// that an except of a datatype holds data, values and choices of them alone (RELAX NG 2001, 7.1.4).
pub fn canonical_grammars_are_valid_alike()
    ensures pruned { (G N : Grammar) → IsCanonicalOf G N → (T : Table) (doc : Item)
        → IsValid (all_canonical G) T doc ↔ IsValid N T doc }
    ensures canonical { (G N : Grammar) → IsCanonicalOf G N → HasExcepts G.start
        → ((x : Text) → IfSome (definition_of G x) HasExcepts) → (T : Table) (doc : Item)
        → IsValid G T doc ↔ IsValid N T doc }
{}

/// A grammar with its optional and mixed patterns opened is valid for exactly the documents of the grammar (RELAX NG
/// 2001, 4.13 to 4.15).
pub fn opened_grammars_are_valid_alike()
    ensures { (N : Grammar) (T : Table) (doc : Item) → IsValid N T doc
        ↔ IsValid (opened_grammar N) T doc }
{}

/// A grammar has one canonical grammar at most.
pub fn one_canonical_grammar()
    ensures { (G N M : Grammar) → IsCanonicalOf G N → IsCanonicalOf G M → N ≡ M }
{}

/// A canonical grammar, opened, has itself as its canonical grammar, and no other: a second time changes nothing.
pub fn canonical_again()
    ensures same { (G N : Grammar) → IsCanonicalOf G N → IsCanonicalOf (opened_grammar N) N }
    ensures no_other { (G N M : Grammar) → IsCanonicalOf G N → IsCanonicalOf (opened_grammar N) M
        → M ≡ N }
{}

/// References that are settled one after the other, each after those that its definition refers to outside elements,
/// give the canonical grammar.
pub fn settling_in_order_is_canonical()
    ensures { (G N : Grammar) (settled : Text → Tree) (rank : Text → ℕ) → IsSettling G settled rank
        → IsPruned (formed settled G) N → IsCanonicalOf G N }
{}

/// Renaming the known URIs of a grammar, so that their order and those that mean something by themselves are kept,
/// renames the same URIs in its canonical grammar and changes nothing else. The canonical grammar has no URI that the
/// grammar does not have.
pub fn canonical_grammars_are_renamed()
    ensures renamed { (named : Text → Text) (known : List Text) → IsRenaming named (Contains known)
        → (G N : Grammar) → IsOfKnownUris (Contains known) G → IsCanonicalOf G N
        → IsCanonicalOf (renamed_grammar named G) (renamed_grammar named N) }
    ensures known { (known : List Text) (G N : Grammar) → IsOfKnownUris (Contains known) G
        → IsCanonicalOf G N → IsOfKnownUris (Contains known) N }
{}

/// What a grammar keeps its canonical grammar keeps, and that grammar opened: every reference is defined, no loop is
/// reached, and excepts and name classes keep their restrictions.
pub fn canonical_grammars_are_well_formed()
    ensures canonical { (G N : Grammar) → IsCanonicalOf G N → IsWellFormed G → IsWellFormed N }
    ensures opened { (N : Grammar) → IsWellFormed N → IsWellFormed (opened_grammar N) }
{}

/// Each combination of components, in any pairs and any order, is valid for exactly the documents of what is read back
/// of the canonical text; so is each of the components of modules in which no except is at fault.
pub fn combinations_are_read_back()
    ensures components { (cs : List Component) (C N : Grammar)
        → AllByRecursion (λ (c : Component). HasExcepts c.body) cs → IsCombination cs C
        → IsCanonicalOf (joined_grammar cs) N → (r : IsReadBack N) (T : Table) (doc : Item)
        → IsValid C T doc ↔ IsValid (module_grammar r.tree) T doc }
    ensures modules { (modules : List NamedModule) (C N : Grammar)
        → AllByRecursion (λ (m : NamedModule). except_places m.tree ≡ []) modules
        → IsCombination (set_components modules) C
        → IsCanonicalOf (joined_grammar (set_components modules)) N
        → (r : IsReadBack N) (T : Table) (doc : Item) → IsValid C T doc
        ↔ IsValid (module_grammar r.tree) T doc }
{}

/// What is read back of a canonical text has the canonical grammar that was printed, and no other. Where the grammar was
/// well formed, it is too, and none of the refusals of modules is true of it, under any name of the module.
pub fn what_is_read_back_stays()
    ensures same { (G N : Grammar) → IsCanonicalOf G N → (r : IsReadBack N)
        → IsCanonicalOf (module_grammar r.tree) N }
    ensures no_other { (G N M : Grammar) → IsCanonicalOf G N → (r : IsReadBack N)
        → IsCanonicalOf (module_grammar r.tree) M → M ≡ N }
    ensures well_formed { (G N : Grammar) → IsCanonicalOf G N → IsWellFormed G
        → (r : IsReadBack N) → IsWellFormed (module_grammar r.tree) }
    ensures no_refusal { (G N : Grammar) → IsCanonicalOf G N → IsWellFormed G
        → (r : IsReadBack N) (name : Text) (q : Refusal)
        → ¬ StandsFor (record { name = name; tree = r.tree } ∷ []) q }
{}

/// A set has one verdict at most: one refusal with all its fields, or one text, and never both.
pub fn one_verdict()
    ensures { (s : List Member) (v w : Verdict) → IsVerdict s v → IsVerdict s w → v ≡ w }
{}

/// The text that is the verdict of a set is that of its canonical grammar. It has no fault, and is read back as a module
/// that is valid for exactly the documents of the set's definitions, in any combination (RELAX NG 2001, 4.17).
pub fn printed_sets_are_read_back()
    ensures { (s : List Member) (text : Text) → IsVerdict s (prints text) → IsReadAgain s text }
{}

/// The text that is a set's verdict is the verdict of each set of which it is the one effective module, of any name.
pub fn printed_texts_are_printed_again()
    ensures { (s : List Member) (text : Text) → IsVerdict s (prints text)
        → (u : List Member) (name : Text) → AreEffective u ((name, text) ∷ [])
        → IsVerdict u (prints text) }
{}
