// Laws of tokens and of the grammar.
ghost use Rattle.std.specs.Prelude.{◌≡◌, ◌≢◌, ℕ, List, map};
ghost use Rattle.std.specs.Str.{IsUtf8, chars};
ghost use Rattle.rn_text.specs.Tokens.{HasTokens, lexeme_of};
ghost use Rattle.rn_text.specs.declared.source.Token as source;
ghost use Rattle.rn_syntax.specs.Beginnings.{HasTree};
ghost use Rattle.rn_syntax.specs.Faults.{IsFault, IsSound, kind_places};
ghost use Rattle.rn_syntax.specs.Grammar.{Tokens};
ghost use Rattle.rn_syntax.specs.Spelled.{AreSpelled};
ghost use Rattle.rn_syntax.specs.TextOrder.{Rise};
ghost use Rattle.rn_syntax.specs.TokenTerminals.{terminals_of};
ghost use Rattle.rn_syntax.specs.Tree.{Module};

use crate::fault::{FaultKind, SyntaxFault};

/// Tokens are one module at most: the grammar of the compact syntax is unambiguous, places included.
pub fn one_module_tree()
    ensures { (ts : Tokens) (m n : Module) → HasTree ts m → HasTree ts n → m ≡ n }
{}

/// Tokens that are spelled as their kinds say have at most one fault, unless memory runs out, and none where they are a
/// module that has none. That they are no such module and have no fault either is impossible.
pub fn tokens_are_a_module_or_have_one_fault()
    ensures never_neither { (xs : List source.Token) → AreSpelled xs
        → ¬ (((m : Module) → ¬ IsSound xs m)
        × ((fault : SyntaxFault) → IsFault xs fault → fault ≡ SyntaxFault.Memory)) }
    ensures not_both { (xs : List source.Token) (m : Module) (fault : SyntaxFault) → AreSpelled xs
        → IsSound xs m → IsFault xs fault → fault ≡ SyntaxFault.Memory }
    ensures one { (xs : List source.Token) (fault other : SyntaxFault) → AreSpelled xs
        → IsFault xs fault → IsFault xs other
        → fault ≢ SyntaxFault.Memory → other ≢ SyntaxFault.Memory → fault ≡ other }
{}

/// The places at which a module of a text is at fault rise, for each kind of fault: the head of their list, which is
/// told, is the first in the text.
pub fn places_of_faults_rise()
    ensures { (src : List ℕ) (tokens : List source.Token) (m : Module) (kind : FaultKind)
        → IsUtf8 src → HasTokens (chars src) (map lexeme_of tokens)
        → HasTree (terminals_of tokens) m → Rise (kind_places kind m) }
{}

/// The tokens of a text are spelled as their kinds say, as the answers of `parse` want them.
pub fn tokens_of_texts_are_spelled()
    ensures { (cs : List ℕ) (tokens : List source.Token) → HasTokens cs (map lexeme_of tokens)
        → AreSpelled tokens }
{}
