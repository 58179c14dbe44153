// Why bytes are no document that is read.

/// How many elements may be open at once.
pub const MAX_DEPTH: usize = 512;

/// An encoding of characters.
#[derive(Clone, Copy, Debug, PartialEq, Eq)]
pub enum Encoding {
    /// UTF-8, which is meant where nothing is declared.
    Utf8,
    /// UTF-16 behind its mark, of either order of bytes.
    Utf16,
    /// ISO-8859-1.
    Latin1,
    /// US-ASCII.
    Ascii,
}

/// What is wrong with a document. The names that a sentence has stand in the text at the place of the fault.
#[derive(Clone, Copy, Debug, PartialEq, Eq)]
pub enum XmlFaultKind {
    /// The declared encoding is none of those that are read. The place is that of its name.
    Encoding,
    /// The text ends where the next bytes are no character in this encoding.
    NotEncoded(Encoding),
    /// What begins with `<?xml` is no XML declaration (XML 1.0, production 23), or stands behind something.
    Declaration,
    /// A document type declaration.
    Doctype,
    /// A character that no document has (XML 1.0, production 2).
    Character,
    /// `&` begins no reference (XML 1.0, productions 66 to 68).
    Reference,
    /// A reference to an entity that isn't predefined (XML 1.0, 4.1).
    Entity,
    /// A reference to a character that no document has (XML 1.0, 4.1, Legal Character).
    CharacterReference,
    /// No name where one is needed, or none with at most one colon within it (Namespaces in XML 1.0, productions 4 to 8).
    Name,
    /// No `=` behind the name of an attribute.
    Equals,
    /// The value of an attribute isn't in quotes.
    Quotes,
    /// `<` in the value of an attribute.
    LessThan,
    /// The value of an attribute that begins here isn't closed.
    OpenValue,
    /// In a tag something else than white space and an attribute, `>` or `/>`.
    Tag,
    /// `]]>` in characters.
    SectionEnd,
    /// A comment that isn't closed, or has `--` within it (XML 1.0, production 15).
    Comment,
    /// A processing instruction that isn't closed, or whose name isn't allowed (XML 1.0, productions 16 and 17).
    Instruction,
    /// A CDATA section that isn't closed (XML 1.0, production 18).
    Section,
    /// An end tag for another element than the one that is open.
    EndTag {
        /// How many bytes of the text stand before the `<` of the element that is open.
        open: usize,
    },
    /// An element that isn't closed. The place is that of its `<`.
    NotClosed,
    /// No element.
    NoRoot,
    /// A second root element.
    SecondRoot,
    /// Text outside of the root element.
    Outside,
    /// An attribute for the second time in one tag, also under another prefix of the same namespace.
    Repeated,
    /// A prefix that isn't declared.
    Prefix,
    /// A declaration that Namespaces in XML 1.0, 3 forbids: of `xmlns`, of `xml` or its namespace for another, or of none
    /// for a prefix.
    Reserved,
    /// More than [`MAX_DEPTH`] elements are open.
    Deep,
    /// Memory was refused. The place means nothing.
    Memory,
}

/// Why a text is no document that is read: the first fault.
#[derive(Clone, Copy, Debug, PartialEq, Eq)]
pub struct XmlFault {
    /// How many bytes of the text stand before the fault.
    pub at: usize,
    /// What is wrong there.
    pub kind: XmlFaultKind,
}

/// Why bytes have no text that is read: the first fault, and the text as far as it was decoded.
#[derive(Debug, Drop)]
pub struct Undecoded {
    /// The text before the fault; of a declared encoding that isn't read all that is UTF-8.
    pub text: String,
    /// The fault.
    pub fault: XmlFault,
}
