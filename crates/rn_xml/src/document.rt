// What a document of XML is, as its information set (XML 1.0 Fifth Edition; Namespaces in XML 1.0, Third Edition).
ghost use Rattle.std.specs.Prelude.{◌≡◌};
ghost use Rattle.rn_xml.specs.TableRows.{rows_of};

/// The index of no namespace in [`XmlDocument::uris`].
pub const NO_NAMESPACE: usize = 0;

/// The index of the namespace of `xml:` in [`XmlDocument::uris`].
pub const XML_NAMESPACE: usize = 1;

/// A range of indices of a table, `from` among them and `to` not.
#[derive(Clone, Copy, Debug, PartialEq, Eq)]
pub struct Rows {
    /// The first index.
    pub from: usize,
    /// The index after the last one; `from` where there is none.
    pub to: usize,
}

/// A name as it is written, and its namespace (Namespaces in XML 1.0, 5 and 6).
#[derive(Clone, Copy, Debug)]
pub struct XmlName<'a> {
    /// The index of the namespace's name in [`XmlDocument::uris`].
    pub uri: usize,
    /// The part before the colon; empty where there is no colon.
    pub prefix: &'a str,
    /// The part after the colon, or the whole name.
    pub local: &'a str,
}

/// An element of a document.
#[derive(Clone, Copy, Debug)]
pub struct XmlElement<'a> {
    /// Its name. Without a prefix it has the default namespace.
    pub name: XmlName<'a>,
    /// How many bytes of the text stand before its `<`.
    pub at: usize,
    /// The index of the element that it is a child of; none of the root, which has index 0.
    pub parent: Option<usize>,
    /// Its attributes, in text order: indices in [`XmlDocument::attributes`].
    pub attributes: Rows,
    /// The namespaces that it declares, in text order: indices in [`XmlDocument::declarations`].
    pub declarations: Rows,
    /// The index after its last descendant, or after itself: its children are among the elements from here back to it.
    pub end: usize,
}

/// An attribute that declares no namespace.
#[derive(Debug, Drop)]
pub struct XmlAttribute<'a> {
    /// Its name. Without a prefix it has no namespace.
    pub name: XmlName<'a>,
    /// How many bytes of the text stand before its name.
    pub at: usize,
    /// Its value: references are characters, and white space is spaces (XML 1.0, 3.3.3).
    pub value: String,
    /// How many bytes of the text stand before what is between its quotes.
    pub value_at: usize,
}

/// What declares a prefix or the default namespace in an element (Namespaces in XML 1.0, 3).
#[derive(Clone, Copy, Debug)]
pub struct XmlDeclaration<'a> {
    /// The prefix; empty of the default namespace.
    pub prefix: &'a str,
    /// The index of the namespace's name in [`XmlDocument::uris`].
    pub uri: usize,
    /// How many bytes of the text stand before the attribute's name.
    pub at: usize,
}

/// The characters between two tags of an element, those of references and of CDATA sections among them. What a
/// comment or a processing instruction parts is one text.
#[derive(Debug, Drop)]
pub struct XmlText {
    /// The index of the element that it is in.
    pub parent: usize,
    /// How many bytes of the text stand before its first character, or before what stands for that.
    pub at: usize,
    /// The characters; never empty.
    pub content: String,
}

/// A document: its root and all that is in it, each table in text order. The names are lent by the document's text.
#[derive(Debug, Drop)]
pub struct XmlDocument<'a> {
    /// The names of namespaces, each once: the empty one, that of `xml:`, and those that are declared.
    pub uris: Vec<String>,
    /// The elements; the first is the root.
    pub elements: Vec<XmlElement<'a>>,
    /// The attributes of all elements.
    pub attributes: Vec<XmlAttribute<'a>>,
    /// The declarations of namespaces of all elements.
    pub declarations: Vec<XmlDeclaration<'a>>,
    /// The texts of all elements.
    pub texts: Vec<XmlText>,
}

impl<'a> XmlDocument<'a> {
    /// The attributes of the element, in text order.
    pub fn attributes_of(&self, element: &XmlElement<'_>) -> &[XmlAttribute<'a>]
        ensures { result.now ≡ rows_of element.now.attributes self.now.attributes.items }
    {
        let Rows { from, to } = element.attributes;
        let table = self.attributes.as_slice();
        if from <= to && to <= table.len() {
            &table[from..to]
        } else {
            &table[..0]
        }
    }

    /// The namespaces that the element declares, in text order.
    pub fn declarations_of(&self, element: &XmlElement<'_>) -> &[XmlDeclaration<'a>]
        ensures { result.now ≡ rows_of element.now.declarations self.now.declarations.items }
    {
        let Rows { from, to } = element.declarations;
        let table = self.declarations.as_slice();
        if from <= to && to <= table.len() {
            &table[from..to]
        } else {
            &table[..0]
        }
    }
}
