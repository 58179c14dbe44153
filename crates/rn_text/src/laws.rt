// Laws of tokens and literals. Each function does nothing: what it ensures is the law.
ghost use Rattle.std.specs.Prelude.{◌≡◌, ◌≢◌, ◌⊎◌, ◌↔◌, ◌++◌, ◌∷◌, ℕ, List, true};
ghost use Rattle.std.specs.List.{AllByRecursion, list_all};
ghost use Rattle.std.specs.Str.{chars, IsUtf8, IsValidUpTo};
ghost use Rattle.rn_text.specs.Characters.{is_xml_char};
ghost use Rattle.rn_text.specs.Literals.{literal_bytes, literal_of};
ghost use Rattle.rn_text.specs.Parts.{IsFirstPart, IsSpelled, ends_token, spells};
ghost use Rattle.rn_text.specs.SegmentReading.{EscapesHold, IsReadAs};
ghost use Rattle.rn_text.specs.Segments.{between_delimiters, is_delimited, is_segment, segment_text};
ghost use Rattle.rn_text.specs.Tokens.{HasFault, HasTokens, IsLexicalPlace, Lexeme, SegmentsHaveText, StandInOrder};

use crate::parts::{Kind, Part};
use crate::source::TextFault;

/// A source has tokens, or it has a fault, unless memory runs out. It never has both, nor two faults.
pub fn sources_have_tokens_or_one_fault()
    ensures some { (src : List ℕ) → ((tokens : List Lexeme) × IsUtf8 src
        × HasTokens (chars src) tokens) ⊎
        ((fault : TextFault) × HasFault src fault × (fault ≢ TextFault.Memory)) }
    ensures not_both { (src : List ℕ) (tokens : List Lexeme) (fault : TextFault) → IsUtf8 src
        → HasTokens (chars src) tokens → HasFault src fault → fault ≡ TextFault.Memory }
    ensures one { (src : List ℕ) (fault other : TextFault) → HasFault src fault → HasFault src other
        → fault ≢ TextFault.Memory → other ≢ TextFault.Memory → fault ≡ other }
{}

/// The text of a source has one token list, or it is faulty at one place, and never both. A source that is not UTF-8
/// stops being so at one place.
pub fn one_token_list()
    ensures some { (cs : List ℕ) → ((tokens : List Lexeme) × HasTokens cs tokens)
        ⊎ ((place : ℕ) × IsLexicalPlace cs place) }
    ensures some_front { (src : List ℕ) → IsUtf8 src
        ⊎ ((¬ IsUtf8 src) × ((place : ℕ) × IsValidUpTo src place)) }
    ensures one { (cs : List ℕ) (first second : List Lexeme) → HasTokens cs first
        → HasTokens cs second → first ≡ second }
    ensures or_place { (cs : List ℕ) (tokens : List Lexeme) (place : ℕ) → HasTokens cs tokens
        → ¬ (IsLexicalPlace cs place) }
    ensures one_place { (cs : List ℕ) (first second : ℕ) → IsLexicalPlace cs first
        → IsLexicalPlace cs second → first ≡ second }
    ensures one_front { (src : List ℕ) (first second : ℕ) → IsValidUpTo src first
        → IsValidUpTo src second → first ≡ second }
{}

/// The tokens stand in the source in order, and the text of each is the source between its places.
pub fn tokens_stand_in_order()
    ensures { (src : List ℕ) (tokens : List Lexeme) → IsUtf8 src → HasTokens (chars src) tokens
        → StandInOrder src 0 tokens }
{}

/// The text of each token spells its kind.
pub fn tokens_are_spelled()
    ensures { (cs : List ℕ) (tokens : List Lexeme) → HasTokens cs tokens → AllByRecursion
        (λ t. IsSpelled t.kind (chars t.text)) tokens }
{}

/// What spells a kind is told by plain words of it: two names with a colon between them spell a prefixed one, and so on.
pub fn kinds_are_spelled()
    ensures { (k : Kind) (cs : List ℕ) → (spells (Part.Token k) cs ≡ true) ↔ IsSpelled k cs }
{}

/// What spells a token is that token, where the text ends behind it or goes on with white space, one
/// of `(` `)` `[` `]` `}`, a comma or a sign of repetition.
pub fn tokens_end_at_breaks()
    ensures { (kind : Kind) (front after : List ℕ) → spells (Part.Token kind) front ≡ true
        → ends_token after ≡ true → IsFirstPart (front ++ after) (Part.Token kind) front after }
{}

/// A segment is what is delimited as one and has, between its delimiters, escapes that stand for characters of XML
/// other than the delimiter (RELAX NG Compact Syntax, 2.1 and appendix A, literalSegment).
pub fn escapes_stand_between_delimiters()
    ensures { (delimiter : ℕ) (cs : List ℕ) → (is_segment (delimiter ∷ cs) ≡ true)
        ↔ ((is_delimited (delimiter ∷ cs) ≡ true)
        × EscapesHold delimiter (between_delimiters (delimiter ∷ cs))) }
{}

/// The text of a segment is what is read of the characters between its delimiters, escape by escape and line end by
/// line end (RELAX NG Compact Syntax, 2.1 and 2.2); nothing else is.
pub fn segments_are_read()
    ensures { (cs text : List ℕ) → is_segment cs ≡ true
        → IsReadAs (between_delimiters cs) text ↔ (text ≡ segment_text cs) }
{}

/// The literal of a text reads back to the text.
pub fn literals_read_back()
    ensures characters { (cs : List ℕ) → list_all is_xml_char cs ≡ true → (tokens : List Lexeme)
        × HasTokens (literal_of cs) tokens × SegmentsHaveText tokens cs }
    ensures bytes { (text : List ℕ) → list_all is_xml_char (chars text) ≡ true
        → IsUtf8 (literal_bytes text) × ((tokens : List Lexeme)
        × HasTokens (chars (literal_bytes text)) tokens × SegmentsHaveText tokens (chars text)) }
{}
