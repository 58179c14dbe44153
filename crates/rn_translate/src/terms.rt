// The terms of a compact text: its tokens before prefixes are chosen, and the white space between them.
ghost use Rattle.std.specs.Prelude.{◌≡◌, true};
ghost use Rattle.rn_translate.specs.inside.TermNames.{has_names};

use crate::signs::Sign;
use crate::uris::Uri;
use rn_text::Keyword;

/// A token of the compact text, or white space and signs. A prefix is chosen once all terms are known.
#[derive(Clone, Copy, Debug)]
pub(crate) enum Term<'d> {
    /// White space, brackets and operators.
    Sign(Sign),
    /// A keyword.
    Keyword(Keyword),
    /// The name of a definition.
    Identifier(&'d str),
    /// A name without prefix.
    Local(&'d str),
    /// A name with the prefix of its namespace.
    Named(Uri, &'d str),
    /// `(`.
    Parenthesis,
    /// The class of all names.
    AnyName,
    /// The class of all names of a namespace.
    AnyOf(Uri),
    /// The prefix of a namespace, by itself.
    Prefix(Uri),
    /// A datatype with the prefix of its library.
    Datatype(Uri, &'d str),
    /// The literal of a text.
    Literal(&'d str),
}

/// A term, and the place in the document that it is made for.
#[derive(Clone, Copy, Debug)]
pub(crate) struct Placed<'d> {
    /// The term.
    pub term: Term<'d>,
    /// The byte of the document's text.
    pub at: usize,
    ghost named: { has_names term ≡ true },
}
