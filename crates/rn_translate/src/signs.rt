// Signs and keywords, and how they are written.
ghost use Rattle.std.specs.Prelude.{◌≡◌, ◌≢◌, ◌<◌, length};
ghost use Rattle.rn_text.specs.Keywords.{spelling};
ghost use Rattle.rn_translate.specs.Cuts.{IsSign};
ghost use Rattle.rn_translate.specs.inside.SignTokens.{sign_tokens};

use rn_text::Keyword;

/// White space, brackets and operators, as they stand in the compact text with the white space round them. Each may stand
/// behind a word, and before anything.
#[derive(Clone, Copy, Debug, PartialEq, Eq)]
pub(crate) enum Sign {
    /// Nothing at all.
    Nothing,
    /// A space.
    Space,
    /// The end of a line.
    LineEnd,
    /// `,`, of a group.
    Comma,
    /// `&`, of an interleave.
    Ampersand,
    /// `|`, of a choice.
    Bar,
    /// `-`, of an except.
    Minus,
    /// `=`.
    Equals,
    /// `|=`, of definitions that are combined by choice.
    ChoiceEquals,
    /// `&=`, of definitions that are combined by interleave.
    InterleaveEquals,
    /// `)`.
    CloseParenthesis,
    /// `{`.
    OpenBrace,
    /// `{`, with which a line ends.
    OpenBraceLine,
    /// `}`.
    CloseBrace,
    /// `}`, which stands on a line of its own.
    CloseBraceAlone,
    /// `}`, which is a line.
    CloseBraceLine,
    /// The content `text`, between braces.
    BracedText,
    /// `?`.
    Question,
    /// `*`.
    Star,
    /// `+`.
    Plus,
}

impl Sign {
    /// The sign as it is written.
    pub fn text(self) -> &'static str
        ensures sign { IsSign result.now (sign_tokens self) }
        ensures some { self ≢ Sign.Nothing → 0 < length result.now }
    {
        match self {
            Sign::Nothing => "",
            Sign::Space => " ",
            Sign::LineEnd => "\n",
            Sign::Comma => ", ",
            Sign::Ampersand => " & ",
            Sign::Bar => " | ",
            Sign::Minus => " - ",
            Sign::Equals => " = ",
            Sign::ChoiceEquals => " |= ",
            Sign::InterleaveEquals => " &= ",
            Sign::CloseParenthesis => ")",
            Sign::OpenBrace => " { ",
            Sign::OpenBraceLine => " {\n",
            Sign::CloseBrace => " }",
            Sign::CloseBraceAlone => "}",
            Sign::CloseBraceLine => "}\n",
            Sign::BracedText => " { text }",
            Sign::Question => "?",
            Sign::Star => "*",
            Sign::Plus => "+",
        }
    }
}

/// A keyword as it is spelled.
pub(crate) fn keyword_text(keyword: Keyword) -> &'static str
    ensures { result.now ≡ spelling keyword }
{
    match keyword {
        Keyword::Attribute => "attribute",
        Keyword::Default => "default",
        Keyword::Datatypes => "datatypes",
        Keyword::Div => "div",
        Keyword::Element => "element",
        Keyword::Empty => "empty",
        Keyword::External => "external",
        Keyword::Grammar => "grammar",
        Keyword::Include => "include",
        Keyword::Inherit => "inherit",
        Keyword::List => "list",
        Keyword::Mixed => "mixed",
        Keyword::Namespace => "namespace",
        Keyword::NotAllowed => "notAllowed",
        Keyword::Parent => "parent",
        Keyword::Start => "start",
        Keyword::String => "string",
        Keyword::Text => "text",
        Keyword::Token => "token",
    }
}
