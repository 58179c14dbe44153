// Laws of what RELAX NG makes of a schema in the XML syntax.
ghost use Rattle.std.specs.Prelude.{◌≡◌, ◌↔◌, ℕ, List, [], Some, None};
ghost use Rattle.rn_text.specs.Texts.{Text};
ghost use Rattle.rn_text.specs.Tokens.{Lexeme, HasTokens};
ghost use Rattle.rn_pattern.specs.Document.{Item};
ghost use Rattle.rn_pattern.specs.Datatype.{Table};
ghost use Rattle.rn_pattern.specs.Matching.{Grammar, IsValid};
ghost use Rattle.rn_modset.specs.Contributions.{Member};
ghost use Rattle.rn_syntax.specs.Tree.{Module, includes};
ghost use Rattle.rn_syntax.specs.TokenTerminals.{terminals};
ghost use Rattle.rn_syntax.specs.Beginnings.{HasTree};
ghost use Rattle.rn_assemble.specs.Components.{set_components};
ghost use Rattle.rn_assemble.specs.Combine.{IsCombination, module_grammar};
ghost use Rattle.rn_assemble.specs.Refusal.{IsModuleOf};
ghost use Rattle.rn_simplify.specs.ReadAgain.{IsReadAgain};
ghost use Rattle.rn_rng.specs.Translation.{xml_of};
ghost use Rattle.rn_rng.specs.GrammarElement.{grammar_of};
ghost use Rattle.rn_rng.specs.PrintedSchemas.{IsValidBy};
ghost use Rattle.rn_rng.specs.SchemaExamples.{inherited_namespaces, of_inherited_namespaces, name_classes};
ghost use Rattle.rn_rng.specs.SchemaExamples.{of_name_classes, unbound_prefix, inherited_libraries};
ghost use Rattle.rn_rng.specs.SchemaExamples.{of_inherited_libraries, combined_definitions, of_combined_definitions};

/// What RELAX NG 2001, 4.2 to 4.18 makes of the XML of a text's module that includes no other is the grammar of that
/// module.
pub fn xml_means_its_module()
    ensures { (characters : List ℕ) (tokens : List Lexeme) (m : Module)
        → HasTokens characters tokens → HasTree (terminals tokens) m → includes m.items ≡ []
        → grammar_of (xml_of m) ≡ Some (module_grammar m) }
{}

/// The XML of a set's printed text is, by RELAX NG 2001, 4.2 to 4.18, valid for exactly the documents of the set's
/// definitions, combined in any pairs and any order (4.17). Of what `merge` answers its clause `documents` says
/// `IsReadAgain`.
pub fn printed_xml_has_the_documents()
    ensures { (s : List Member) (text : Text) (r : IsReadAgain s text) (m : Module)
        → IsModuleOf text m → (C : Grammar) → IsCombination (set_components r.modules) C
        → (T : Table) (doc : Item) → IsValid C T doc ↔ IsValidBy (xml_of m) T doc }
{}

/// Examples by hand: what the standard makes of schemas with inherited namespaces and libraries, with name classes,
/// with a prefix that is not bound, and with several definitions of a name.
pub fn schemas_have_these_grammars()
    ensures namespaces { grammar_of inherited_namespaces ≡ Some of_inherited_namespaces }
    ensures classes { grammar_of name_classes ≡ Some of_name_classes }
    ensures unbound { grammar_of unbound_prefix ≡ None }
    ensures libraries { grammar_of inherited_libraries ≡ Some of_inherited_libraries }
    ensures definitions { grammar_of combined_definitions ≡ Some of_combined_definitions }
{}
