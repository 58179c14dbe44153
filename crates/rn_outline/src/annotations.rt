// Annotations, as one finds them in a run of tokens.
ghost use Rattle.std.specs.Prelude.{length, IfSome};
ghost use Rattle.rn_text.specs.Reading.{Advanced};

use crate::signs::{Sign, sign_at};
use crate::skips::{annotation, follow};
use rn_text::Token;

/// The index of the token after the annotation, or the following annotation, that begins at this
/// index; `None` where no whole one begins (compact syntax, section 2, annotations and
/// followAnnotation).
pub fn annotation_end(tokens: &[Token<'_>], at: usize) -> Option<usize>
    ensures { IfSome result (λ r. Advanced at r (length tokens.now)) }
{
    match sign_at(tokens, at) {
        Sign::LeftBracket => annotation(tokens, at).ok(),
        Sign::Follow => follow(tokens, at + 1).ok(),
        _ => None,
    }
}
