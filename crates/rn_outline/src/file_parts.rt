// What a file is made of.
ghost use Rattle.std.specs.Prelude.{◌≡◌, ◌<◌, ◌≤◌, ◌⊎◌, [], length, slice_range, IfOk};
ghost use Rattle.std.specs.List.{list_any};
ghost use Rattle.std.specs.Str.{IsCharBoundary};
ghost use Rattle.rn_outline.specs.Links.{is_link, link_numbers};
ghost use Rattle.rn_outline.specs.Spans.{front_end, mark};
ghost use Rattle.rn_outline.specs.TokenNames.{unquoted_name};

use std::alloc::{AllocError, Global};

/// What a file is (RELAX NG 2001, 3): a grammar, with or without `grammar { .. }` round its items, or
/// another pattern.
#[derive(Clone, Copy, Debug, PartialEq, Eq)]
pub enum Shape {
    /// `grammar { .. }`, or its items alone.
    Grammar,
    /// A pattern that is no `grammar`, which external takes and include does not (4.6, 4.7).
    Pattern,
}

/// Bytes of a text, counted from its start: from the first one up to, and without, the second.
#[derive(Clone, Copy, Debug, PartialEq, Eq)]
pub struct Span {
    /// The first byte.
    pub from: usize,
    /// The byte after the last one.
    pub to: usize,
}

/// How a definition is combined with others of its name (RELAX NG 2001, 4.17): `=`, `|=`, `&=`. rn_syntax's `Method` is
/// that of a module's tree; this one is of files that may be no modules yet, and whose reader uses rn_text alone.
#[derive(Clone, Copy, Debug, PartialEq, Eq)]
pub enum OutlineMethod {
    /// `=`, which one definition of a name has at most.
    Plain,
    /// `|=`, by a choice.
    Choice,
    /// `&=`, by an interleave.
    Interleave,
}

/// What a declaration binds (compact syntax, section 2, decl).
#[derive(Clone, Copy, Debug, PartialEq, Eq)]
pub enum DeclarationKind {
    /// `default namespace`, which may bind a prefix too.
    Default,
    /// `namespace`, which binds a prefix to a namespace.
    Namespace,
    /// `datatypes`, which binds a prefix to a datatype library.
    Datatypes,
}

/// What a declaration binds its prefix to. Unlike rn_syntax's `Uri`, which may borrow its text from the source, it owns
/// it.
#[derive(Debug, Drop, PartialEq, Eq)]
pub enum OutlineUri {
    /// The text of the literal, its segments put together.
    Literal(String),
    /// `inherit`: the namespace inherited from the including file.
    Inherited,
}

/// A declaration (compact syntax, section 2, decl) by the bytes that it takes, so that it can be cut out of its text,
/// where rn_syntax's `Declaration` has names and the places that faults name. Whether its prefix is bound twice, or may
/// be bound at all, is not checked here.
#[derive(Debug, Drop, PartialEq, Eq)]
pub struct OutlineDeclaration {
    /// Which keywords it begins with.
    pub kind: DeclarationKind,
    /// The token that is the prefix; `None` for a default namespace without one.
    pub prefix: Option<Span>,
    /// What the prefix, or the default namespace, is bound to.
    pub uri: OutlineUri,
    /// From the first keyword to the end of the literal or of `inherit`.
    pub at: Span,
}

/// A part of a file. Parts are in the order in which they begin; one is within another, or apart
/// from it.
#[derive(Debug, Drop, PartialEq, Eq)]
pub struct FilePart {
    /// From its first token to the end of its last one.
    pub at: Span,
    /// The grammar that it belongs to: 0 is the file's own, and each nested one has a number of its
    /// own.
    pub grammar: usize,
    /// Whether it is excepted from data: it follows a `-`, with no more than parentheses and
    /// operators between.
    pub in_except: bool,
    /// What kind of part it is, with the bytes of what it is made of.
    pub kind: FilePartKind,
}

/// What a part is, with the bytes of what it is made of.
#[derive(Debug, Drop, PartialEq, Eq)]
pub enum FilePartKind {
    /// A definition (RELAX NG 2001, 4.17).
    Define {
        /// The token that is its name.
        name: Span,
        /// How it is combined with other definitions of its name.
        method: OutlineMethod,
        /// Its pattern, with annotations.
        body: Span,
        /// Of an override, the index of the part that is its include (4.7).
        within: Option<usize>,
        /// Whether the body is made of data, values, `notAllowed`, references, externals, grammars
        /// and choices of them alone.
        only_data: bool,
    },
    /// A definition of the start. In a file that is a pattern this is the first part; its body is
    /// the pattern, and `word` is empty.
    Start {
        /// The token `start`.
        word: Span,
        /// How it is combined with other starts of its grammar.
        method: OutlineMethod,
        /// Its pattern, with annotations.
        body: Span,
        /// Of an override, the index of the part that is its include (4.7).
        within: Option<usize>,
        /// Whether the body is made of data, values, `notAllowed`, references, externals, grammars and choices of them
        /// alone.
        only_data: bool,
    },
    /// A reference to a definition of its grammar.
    Reference {
        /// The token that is the name.
        name: Span,
    },
    /// `parent` and a name: a reference to a definition of the grammar around (4.18).
    Parent {
        /// The token that is the name.
        name: Span,
    },
    /// `external` (4.6).
    External {
        /// The text of its literal, its segments put together.
        literal: String,
        /// The literal.
        literal_at: Span,
        /// The prefix after `inherit =`.
        inherit: Option<Span>,
    },
    /// `include` (4.7). The part ends with its overrides.
    Include {
        /// The text of its literal, its segments put together.
        literal: String,
        /// The literal.
        literal_at: Span,
        /// The prefix after `inherit =`.
        inherit: Option<Span>,
    },
    /// A nested `grammar { .. }` (4.18).
    Grammar {
        /// Its number, which parts of it have as their grammar.
        number: usize,
        /// What is between its braces.
        inside: Span,
    },
}

/// What a file is made of. Nothing of it is borrowed.
#[derive(Debug, Drop, PartialEq, Eq)]
pub struct Outline {
    /// Whether the file is a grammar or another pattern.
    pub shape: Shape,
    /// The declarations, in the order of the text.
    pub declarations: Vec<OutlineDeclaration>,
    /// What follows the declarations.
    pub body: Span,
    /// The parts of the body, in the order in which they begin.
    pub parts: Vec<FilePart>,
    /// How many grammars the parts belong to, the file's own among them.
    pub grammars: usize,
}

impl Outline {
    /// Whether a reference, an external or a nested grammar is excepted from data.
    pub fn has_excepts(&self) -> bool
        ensures { result ≡ list_any (λ p. p.in_except) self.now.parts.items }
    {
        self.parts.iter().any(|part| part.in_except)
    }

    /// The indices of the parts that name another file, externals and includes, in the order of the
    /// text.
    pub fn links(&self, alloc: Global) -> Result<Vec<usize>, AllocError>
        ensures { IfOk result (λ v. v.items ≡ link_numbers self.now.parts.items) }
    {
        let mut links = Vec::new(alloc);
        let mut rest = self.parts.as_slice();
        let mut number = 0;
        'parts: while let Some((part, behind)) = rest.split_first() {
            if is_link(part) {
                links.push(number)?;
            }
            number += 1;
            rest = behind;
        }
        Ok(links)
    }
}

impl FilePart {
    /// The bytes that are replaced if something else replaces the part: of a definition the
    /// name that it defines, of an include its literal; else the whole part.
    pub fn mark(&self) -> Span
        ensures { result ≡ mark self.now }
    {
        match &self.kind {
            FilePartKind::Define { name, .. } => *name,
            FilePartKind::Start { word, .. } => *word,
            FilePartKind::Include { literal_at, .. } => *literal_at,
            _ => self.at,
        }
    }

    /// The byte after the mark; of a nested grammar, the first byte between its braces.
    pub(crate) fn front_end(&self) -> usize
        ensures { result ≡ front_end self.now }
    {
        match &self.kind {
            FilePartKind::Grammar { inside, .. } => inside.from,
            _ => self.mark().to,
        }
    }
}

/// Whether a part names another file: an external or an include.
pub fn is_link(part: &FilePart) -> bool
    ensures { result ≡ is_link part.now }
{
    matches!(
        &part.kind,
        FilePartKind::External { .. } | FilePartKind::Include { .. }
    )
}

/// The name that a token of the text is: without the backslash of a quoted one. Of a span outside the
/// text, nothing.
pub fn name_in(text: &str, span: Span) -> &str
    ensures inside { span.from ≤ span.to → IsCharBoundary text.now span.from
        → IsCharBoundary text.now span.to
        → result.now ≡ unquoted_name (slice_range text.now span.from span.to) }
    ensures outside { (span.to < span.from) ⊎ (length text.now < span.to) → result.now ≡ [] }
{
    match text.get(span.from..span.to) {
        Some(token) => unquoted_name(token),
        None => "",
    }
}

/// A name without the backslash of a quoted one.
pub fn unquoted_name(token: &str) -> &str
    ensures { result.now ≡ unquoted_name token.now }
{
    if let Some(name) = token.strip_prefix('\\') {
        return name;
    }
    token
}
