// What messages are about.
ghost use Rattle.std.specs.Prelude.{◌≡◌};
ghost use Rattle.rn_report.specs.JsonMessages.{kind_word};

/// What a message is about.
#[derive(Clone, Copy, Debug, PartialEq, Eq)]
pub enum MessageKind {
    /// A file or a folder can't be read.
    Unreadable,
    /// A reference names no file, or one that may not be read or used there.
    Reference,
    /// Files refer to each other in a loop.
    FileLoop,
    /// A text is not UTF-8.
    Encoding,
    /// A text has what is no token.
    Lexical,
    /// A token isn't allowed where it is.
    Syntax,
    /// A prefix is not declared, or may not be declared so; or there is a second default namespace.
    Prefix,
    /// A datatype of the empty library, or a value that depends on where it is written.
    Datatype,
    /// What can't be excepted is excepted.
    Except,
    /// `parent` outside a nested grammar.
    Parent,
    /// A name is not defined.
    Undefined,
    /// A name is defined twice by `=`.
    Duplicate,
    /// A name is combined by `|=` and by `&=`.
    Combine,
    /// An include overrides what the included file lacks.
    Override,
    /// No file defines `start`.
    Start,
    /// A name refers to itself outside elements.
    Recursive,
    /// A name class that is not allowed.
    NameClass,
    /// More than is taken: files, bytes, brackets, modules.
    Limit,
    /// A file is not the schema.
    Difference,
    /// The words contradict each other.
    Usage,
    /// An output can't be written.
    Unwritable,
    /// What was made doesn't keep what is promised of it. No files are known for which this is so.
    Internal,
    /// A request for memory was refused.
    Memory,
}

/// The word of a kind, as programs read it.
pub fn kind_word(kind: MessageKind) -> &'static str
    ensures { result.now ≡ kind_word kind }
{
    match kind {
        MessageKind::Unreadable => "unreadable",
        MessageKind::Reference => "reference",
        MessageKind::FileLoop => "file-loop",
        MessageKind::Encoding => "encoding",
        MessageKind::Lexical => "lexical",
        MessageKind::Syntax => "syntax",
        MessageKind::Prefix => "prefix",
        MessageKind::Datatype => "datatype",
        MessageKind::Except => "except",
        MessageKind::Parent => "parent",
        MessageKind::Undefined => "undefined",
        MessageKind::Duplicate => "duplicate",
        MessageKind::Combine => "combine",
        MessageKind::Override => "override",
        MessageKind::Start => "start",
        MessageKind::Recursive => "recursive",
        MessageKind::NameClass => "name-class",
        MessageKind::Limit => "limit",
        MessageKind::Difference => "difference",
        MessageKind::Usage => "usage",
        MessageKind::Unwritable => "unwritable",
        MessageKind::Internal => "internal",
        MessageKind::Memory => "memory",
    }
}
