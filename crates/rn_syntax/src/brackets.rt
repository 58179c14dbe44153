// How deep brackets nest.
ghost use Rattle.std.specs.Prelude.{◌≡◌, ◌≤◌, ◌∷◌, ℕ, MatchOption};
ghost use Rattle.rn_text.specs.Tokens.{lexeme_of};
ghost use Rattle.rn_syntax.specs.Grammar as grammar;
ghost use Rattle.rn_syntax.specs.Places.{deep, max_open};
ghost use Rattle.rn_syntax.specs.inside.Readers.{seen};
ghost use Rattle.rn_syntax.specs.Terminal as term;
ghost use Rattle.rn_syntax.specs.Terminal.{◌#◌};
ghost use Rattle.rn_syntax.specs.TokenTerminals.{placed, terminals_of};

use crate::productions::terminals::{Terminal, symbol};
use rn_text::{Kind, Token};

/// How many brackets a module may have open at once.
pub const MAX_OPEN: usize = 256;

/// How many brackets are open behind a terminal, unless they are too many.
fn open_behind(depth: usize, terminal: Terminal<'_>) -> Option<usize>
    requires { depth ≤ max_open }
    ensures bound { MatchOption result (depth ≡ max_open) (λ n. n ≤ max_open) }
    ensures step { (x : term.Terminal) (i : ℕ) (ts : grammar.Tokens) → seen terminal.entry ≡ Some x
        → MatchOption result (deep depth (x # i ∷ ts) ≡ Some i)
        (λ n. deep depth (x # i ∷ ts) ≡ deep n ts) }
{
    match terminal {
        Terminal::LeftBrace | Terminal::LeftParen | Terminal::LeftBracket => {
            if depth < MAX_OPEN {
                Some(depth + 1)
            } else {
                None
            }
        }
        Terminal::RightBrace | Terminal::RightParen | Terminal::RightBracket => {
            Some(depth.saturating_sub(1))
        }
        _ => Some(depth),
    }
}

/// How many brackets are open behind a token, unless there are too many.
fn open_behind_token(depth: usize, token: Token<'_>) -> Option<usize>
    requires { depth ≤ max_open }
    ensures bound { MatchOption result (depth ≡ max_open) (λ n. n ≤ max_open) }
    ensures step { (ts : grammar.Tokens)
        → MatchOption result
        (deep depth (placed (lexeme_of token.entry) ∷ ts) ≡ Some token.entry.start)
        (λ n. deep depth (placed (lexeme_of token.entry) ∷ ts) ≡ deep n ts) }
{
    match token.kind {
        Kind::Symbol => open_behind(depth, symbol(token.text)),
        _ => Some(depth),
    }
}

/// The byte at which the first bracket begins that makes more than [`MAX_OPEN`] open at once.
pub(crate) fn too_deep(tokens: &[Token<'_>]) -> Option<usize>
    ensures { result ≡ deep 0 (terminals_of tokens.now) }
{
    let mut depth: usize = 0;
    'tokens: for token in tokens {
        match open_behind_token(depth, *token) {
            Some(behind) => depth = behind,
            None => return Some(token.start),
        }
    }
    None
}
