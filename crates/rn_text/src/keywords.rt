// The keywords of the compact syntax.
ghost use Rattle.std.specs.Prelude.{◌≡◌, ◌≢◌, MatchOption};
ghost use Rattle.std.specs.Str.{chars};
ghost use Rattle.rn_text.specs.Characters.{is_keyword};
ghost use Rattle.rn_text.specs.Keywords.{spelling};

/// One of the 19 keywords (RELAX NG Compact Syntax, appendix A, keyword), named as it is spelled.
#[derive(Clone, Copy, Debug, PartialEq, Eq)]
pub enum Keyword {
    /// `attribute`, of a pattern of attributes.
    Attribute,
    /// `default`, of the namespace that names without a prefix have.
    Default,
    /// `datatypes`, of a prefix bound to a datatype library.
    Datatypes,
    /// `div`, of components that stand together.
    Div,
    /// `element`, of a pattern of an element.
    Element,
    /// `empty`, the pattern of no content.
    Empty,
    /// `external`, of the pattern that another schema is.
    External,
    /// `grammar`, of a pattern with definitions of its own.
    Grammar,
    /// `include`, of a grammar whose components are taken over.
    Include,
    /// `inherit`, of the namespace that an include or an external passes on.
    Inherit,
    /// `list`, of a pattern of words with white space between.
    List,
    /// `mixed`, of a pattern with text between its elements.
    Mixed,
    /// `namespace`, of a prefix bound to a namespace.
    Namespace,
    /// `notAllowed`, the pattern that nothing matches.
    NotAllowed,
    /// `parent`, of a name that the grammar around defines.
    Parent,
    /// `start`, of the definition where a grammar begins.
    Start,
    /// `string`, a datatype of the built-in library: all characters count.
    String,
    /// `text`, the pattern of any text.
    Text,
    /// `token`, a datatype of the built-in library: white space is normalised.
    Token,
}

/// The keyword that the bytes spell.
fn keyword_of_bytes(bytes: &[u8]) -> Option<Keyword>
    ensures { MatchOption result ((k : Keyword) → bytes.now ≢ spelling k)
        (λ k. bytes.now ≡ spelling k) }
{
    let keyword = match bytes {
        b"attribute" => Keyword::Attribute,
        b"default" => Keyword::Default,
        b"datatypes" => Keyword::Datatypes,
        b"div" => Keyword::Div,
        b"element" => Keyword::Element,
        b"empty" => Keyword::Empty,
        b"external" => Keyword::External,
        b"grammar" => Keyword::Grammar,
        b"include" => Keyword::Include,
        b"inherit" => Keyword::Inherit,
        b"list" => Keyword::List,
        b"mixed" => Keyword::Mixed,
        b"namespace" => Keyword::Namespace,
        b"notAllowed" => Keyword::NotAllowed,
        b"parent" => Keyword::Parent,
        b"start" => Keyword::Start,
        b"string" => Keyword::String,
        b"text" => Keyword::Text,
        b"token" => Keyword::Token,
        _ => return None,
    };
    Some(keyword)
}

/// The keyword that the text spells, if it spells one (RELAX NG Compact Syntax, appendix A, keyword).
pub fn keyword_of(text: &str) -> Option<Keyword>
    ensures { MatchOption result ((k : Keyword) → chars text.now ≢ spelling k)
        (λ k. chars text.now ≡ spelling k) }
{
    keyword_of_bytes(text.as_bytes())
}

/// Whether the text spells one of the 19 keywords (RELAX NG Compact Syntax, appendix A, keyword).
pub fn is_keyword(text: &str) -> bool
    ensures { result ≡ is_keyword (chars text.now) }
{
    keyword_of(text).is_some()
}
