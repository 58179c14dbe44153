// The tree of a module as it is written: names keep their prefixes, and what is resolved later keeps its place in
// bytes. Names are slices of the source; literals are too where they are one segment without escape and carriage
// return.
use std::borrow::CowStr;

/// What joins patterns to a chain: `,`, `&`, `|`.
#[derive(Clone, Copy, Debug, PartialEq, Eq)]
pub enum Operator {
    /// `,`, a group.
    Comma,
    /// `&`, an interleave.
    Ampersand,
    /// `|`, a choice.
    Bar,
}

/// What follows a pattern: `?`, `*`, `+`.
#[derive(Clone, Copy, Debug, PartialEq, Eq)]
pub enum Postfix {
    /// `?`, once or not at all.
    Question,
    /// `*`, any number of times.
    Star,
    /// `+`, once or more.
    Plus,
}

/// How a definition is combined with others of its name (RELAX NG Compact Syntax, 2, assignMethod).
#[derive(Clone, Copy, Debug, PartialEq, Eq)]
pub enum Method {
    /// `=`.
    Plain,
    /// `|=`, by a choice.
    Choice,
    /// `&=`, by an interleave.
    Interleave,
}

/// A prefix, and its place: the byte of the source at which its token begins.
#[derive(Clone, Copy, Debug)]
pub struct Prefix<'a> {
    /// The prefix as it is written, without the backslash of a quoted one.
    pub name: &'a str,
    /// How many bytes of the source stand before the token.
    pub at: usize,
}

/// A name with a prefix, a CName.
#[derive(Clone, Copy, Debug)]
pub struct PrefixedName<'a> {
    /// The prefix before the colon.
    pub prefix: Prefix<'a>,
    /// The local name behind the colon.
    pub local: &'a str,
}

/// `*`, or a prefix behind which `:*` stands.
#[derive(Clone, Copy, Debug)]
pub enum AnyName<'a> {
    /// `*`, any name.
    Any,
    /// Any name of the prefix's namespace.
    AnyOf(Prefix<'a>),
}

/// A name class (RELAX NG Compact Syntax, 2, nameClass). What is rare is in a box, so that a class takes little room
/// beside its pattern.
#[derive(Drop)]
pub enum Nc<'a> {
    /// One name, without a prefix.
    Local(&'a str),
    /// One name, with a prefix.
    Prefixed(Box<PrefixedName<'a>>),
    /// All names, or all of a namespace.
    All(Box<AnyName<'a>>),
    /// All names, or all of a namespace, but those of the class behind the `-`.
    AllBut(Box<AnyName<'a>>, Box<Nc<'a>>),
    /// Two or more, in the order of the text.
    Choice(Box<Vec<Nc<'a>>>),
}

/// The name of a datatype; `string` and `token` with the bytes of the source at which they begin.
#[derive(Clone, Copy, Debug)]
pub enum Datatype<'a> {
    /// `string` of the built-in library.
    String(usize),
    /// `token` of the built-in library.
    Token(usize),
    /// The prefix of a library, and the local name behind the colon.
    Named(Prefix<'a>, &'a str),
}

/// A parameter of a datatype.
#[derive(Drop)]
pub struct Param<'a> {
    /// The parameter's name, left of the `=`.
    pub name: &'a str,
    /// The parameter's text, right of the `=`, without delimiters and escapes.
    pub text: CowStr<'a>,
}

/// A value; one without a datatype is of the built-in token.
#[derive(Drop)]
pub struct Value<'a> {
    /// The datatype that is written before the literal, if one is.
    pub datatype: Option<Datatype<'a>>,
    /// The text of the literal, without delimiters and escapes.
    pub text: CowStr<'a>,
}

/// Data: a datatype and its parameters.
#[derive(Drop)]
pub struct Data<'a> {
    /// The name before the braces.
    pub datatype: Datatype<'a>,
    /// The parameters in the braces, in the order of the text.
    pub params: Vec<Param<'a>>,
}

/// A pattern. A chain of one operator is one list of two or more; parentheses leave nothing. What is large is in a box,
/// since most patterns are references and chains.
#[cycle(pattern)]
#[derive(Drop)]
pub enum Pat<'a> {
    /// `element nc { .. }`
    Element(Box<Named<'a>>),
    /// `attribute nc { .. }`
    Attribute(Box<Named<'a>>),
    /// `list { .. }`
    List(Box<Pat<'a>>),
    /// `mixed { .. }`
    Mixed(Box<Pat<'a>>),
    /// `empty`, the pattern of no attribute and no content.
    Empty,
    /// `notAllowed`, the pattern that nothing matches.
    NotAllowed,
    /// `text`, the pattern of any strings.
    Text,
    /// The name of a definition, without the backslash of a quoted one.
    Ref(&'a str),
    /// A literal, with a datatype or without.
    Value(Box<Value<'a>>),
    /// A datatype without an except.
    Datum(Box<Data<'a>>),
    /// A datatype with an except. The number is the byte of the source at which the `-` begins.
    DatumBut(Box<Data<'a>>, usize, Box<Pat<'a>>),
    /// A pattern before `?`, `*` or `+`.
    Repeated(Postfix, Box<Pat<'a>>),
    /// Two or more members, in the order of the text.
    Chain(Operator, Vec<Pat<'a>>),
}

/// What has a name class and, in braces, a pattern.
#[cycle(pattern)]
#[derive(Drop)]
pub struct Named<'a> {
    /// The name class.
    pub class: Nc<'a>,
    /// The pattern in braces.
    pub content: Pat<'a>,
}

/// The URI of a declaration.
#[derive(Drop)]
pub enum Uri<'a> {
    /// A literal, without delimiters and escapes.
    Literal(CowStr<'a>),
    /// `inherit`: the namespace that the including module hands on.
    Inherited,
}

/// A declaration. A default one has the byte of the source at which its `default` begins.
#[derive(Drop)]
pub enum Declaration<'a> {
    /// `namespace prefix = ..`
    Namespace(Prefix<'a>, Uri<'a>),
    /// `default namespace = ..`, with a prefix or without.
    Default(usize, Option<Prefix<'a>>, Uri<'a>),
    /// `datatypes prefix = ..`, with the URI of a datatype library.
    Datatypes(Prefix<'a>, CowStr<'a>),
}

/// What a grammar is made of (RELAX NG Compact Syntax, 2, grammarContent). Most are definitions, so an include, which
/// is large, is in a box.
#[cycle(item)]
#[derive(Drop)]
pub enum Item<'a> {
    /// A definition.
    Define {
        /// The name of the definition, without the backslash of a quoted one.
        name: &'a str,
        /// How it is combined with others of its name.
        method: Method,
        /// The pattern that the name means.
        body: Box<Pat<'a>>,
    },
    /// The pattern that a document matches.
    Start {
        /// How it is combined with other starts.
        method: Method,
        /// The pattern behind the method.
        body: Box<Pat<'a>>,
    },
    /// `div { .. }`, with its items in the order of the text.
    Div(Vec<Item<'a>>),
    /// `include ".." inherit = .. { .. }`
    Include(Box<Include<'a>>),
}

/// An include: another module, and what is overridden in it.
#[cycle(item)]
#[derive(Drop)]
pub struct Include<'a> {
    /// The literal, which names a module.
    pub wanted: CowStr<'a>,
    /// The word behind `inherit =`, where it is written.
    pub inherit: Option<Prefix<'a>>,
    /// The overrides, in the order of the text.
    pub items: Vec<Item<'a>>,
}

/// A module (RELAX NG Compact Syntax, 2, topLevel): a grammar, as it is written.
#[derive(Drop)]
pub struct Module<'a> {
    /// The declarations, in the order of the text.
    pub decls: Vec<Declaration<'a>>,
    /// The items, in the order of the text; those of a `grammar` in braces too.
    pub items: Vec<Item<'a>>,
}
