// Laws of the XML text. Each function does nothing: what it ensures is the law.
ghost use Rattle.std.specs.Prelude.{ℕ, List};
ghost use Rattle.rn_text.specs.Tokens.{Lexeme, HasTokens};
ghost use Rattle.rn_pattern.specs.Document.{Item};
ghost use Rattle.rn_syntax.specs.Tree.{Module};
ghost use Rattle.rn_syntax.specs.TokenTerminals.{terminals};
ghost use Rattle.rn_syntax.specs.Beginnings.{HasTree};
ghost use Rattle.rn_rng.specs.Layout.{xml_text};
ghost use Rattle.rn_rng.specs.Translation.{xml_of};
ghost use Rattle.rn_rng.specs.SpellableItems.{IsSpellableRoot};
ghost use Rattle.rn_rng.specs.XmlDocument.{IsXml};

/// If the names of a root are names of XML and its texts XML characters, its text is a document of XML 1.0 (Fifth
/// Edition) in UTF-8 with the root as its infoset.
pub fn xml_is_a_document()
    ensures { (x : Item) → IsSpellableRoot x → IsXml (xml_text x) x }
{}

/// The element of each module that a text has is such a root, so its text is a document with that infoset.
pub fn modules_are_documents()
    ensures spellable { (cs : List ℕ) (tokens : List Lexeme) (m : Module) → HasTokens cs tokens
        → HasTree (terminals tokens) m → IsSpellableRoot (xml_of m) }
    ensures document { (cs : List ℕ) (tokens : List Lexeme) (m : Module) → HasTokens cs tokens
        → HasTree (terminals tokens) m → IsXml (xml_text (xml_of m)) (xml_of m) }
{}
